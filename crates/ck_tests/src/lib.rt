//! The tests of the one call of the program over folders and sinks that fail on demand: what fails at each
//! call, sinks without room, words that are no command, and the greatest file. Projects whose files say
//! all are in projects/, and tools/own_checks.sh runs the built program on them.
//!
//! Expected values come from docs/REPORT.md, worked out by hand.
#![tactic(auto)]

#[cfg(test)]
mod calls;
#[cfg(test)]
mod outside;
#[cfg(test)]
mod sizes;
