//! The tests of ck_io, over public calls alone: the folder and the sink in memory, and the adapters over
//! the real folder and the real output.
//!
//! Expected values are worked out by hand from what the calls say of themselves.
#![tactic(auto)]

#[cfg(test)]
mod memory;
#[cfg(test)]
mod real;
