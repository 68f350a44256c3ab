//! The words of the command line, and the text of the benchmark.
//!
//! In: the words that the program was called with, or the benchmark's number. Out: the command that the
//! words are, or the bytes of the benchmark's one file. The definitions that rule it are
//! `specs/Commands.antt` (which words are which command) and `specs/BenchText.antt` (the lines of the
//! file); docs/COMMANDS.md has both in plain words. Nothing is free but want of memory.
//!
//! It must not know: what a command does, folders, sinks and statuses.
#![tactic(auto)]

mod benchmark;
mod commands;
mod laws;
mod spellings;

pub use benchmark::bench_text;
pub use commands::{Command, WordsError, command_of};
pub use laws::one_command;
