//! Tokens and places of a preprocessed C file.
//!
//! In: a file's number, name and bytes. Out: its tokens with their spans, or the first of the faults
//! U1 to U6 (`lex`, `first_fault`); the name, line and column of each byte (`place_map`, `place`); or
//! both in one pass (`scan`). Beside it `class_run`, which scans bytes of one class.
//!
//! The definitions that rule it are `specs/Tokens.antt` and `specs/Places.antt`; `specs/Lib.antt` is the
//! order to read them in, and docs/TOKENS.md has them in words.
//!
//! It must not know: what the tokens mean, other files, and how a report is written.
#![tactic(auto)]

mod blocks;
mod bytes;
mod comments;
mod files;
mod laws;
mod lexemes;
mod lexer;
mod literals;
mod markers;
mod marks;
mod numbers;
mod places;
mod runs;
mod words;

pub use files::{FileScan, scan};
pub use laws::{
    one_fault, one_lexeme, one_list, one_marker, one_place, tokens_or_fault, tokens_rise,
};
pub use lexer::{first_fault, lex};
pub use places::{PlaceMap, PlaceName, place, place_map};
pub use runs::{Class, class_run};
