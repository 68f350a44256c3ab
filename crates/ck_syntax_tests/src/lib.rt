//! The tests of the grammar's words and of the syntax trees in memory, over public calls alone: the fixed
//! words, what boxes a part, with ample memory, and trees that are long and deep, which are built and let
//! go on a small stack.
#![tactic(auto)]

#[cfg(test)]
mod boxes;
#[cfg(test)]
mod trees;
#[cfg(test)]
mod words;
