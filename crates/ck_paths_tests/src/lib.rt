//! The tests of paths, over public calls alone: paths to the alarms of graphs by hand, each replayed by a
//! checker that knows the graph and the state table alone, and which steps follow.
//!
//! Expected alarms and paths are worked out from the state table of docs/STATES.md.
#![tactic(auto)]

#[cfg(test)]
mod cases;
#[cfg(test)]
mod drawings;
#[cfg(test)]
mod following;
#[cfg(test)]
mod paths;
#[cfg(test)]
mod replay;
