//! The tests of the lowest crates, over public calls alone: refusals, the state table, tokens and
//! places of texts, the table of kernel calls, and the words of the command line.
//!
//! Expected values come from C99, docs/STATES.md, docs/TOKENS.md, docs/KERNEL.md and docs/COMMANDS.md,
//! worked out by hand.
#![tactic(auto)]

#[cfg(test)]
mod commands;
#[cfg(test)]
mod kernel;
#[cfg(test)]
mod long;
#[cfg(test)]
mod places;
#[cfg(test)]
mod refusals;
#[cfg(test)]
mod runs;
#[cfg(test)]
mod states;
#[cfg(test)]
mod tokens;
