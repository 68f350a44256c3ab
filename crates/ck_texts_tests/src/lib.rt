//! The tests of the texts that users read, over public calls alone: whole reports of graphs and paths by
//! hand, refusals with their places, and settings faults of each kind.
//!
//! Expected texts are worked out by hand from docs/REPORT.md.
#![tactic(auto)]

#[cfg(test)]
mod fitting;
#[cfg(test)]
mod projects;
#[cfg(test)]
mod refusals;
#[cfg(test)]
mod reports;
#[cfg(test)]
mod settings;
