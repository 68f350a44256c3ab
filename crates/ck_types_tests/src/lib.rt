//! The tests of types and their values, over public calls alone: conversions, operators, constants by their bytes,
//! tables of types, compatible and composite types.
//!
//! Expected values are worked out by hand from C99, and were compared with what `gcc -m32 -funsigned-char` computes.
#![tactic(auto)]

#[cfg(test)]
mod constants;
#[cfg(test)]
mod conversions;
#[cfg(test)]
mod joining;
#[cfg(test)]
mod operators;
#[cfg(test)]
mod tables;
