//! The grammar of the C subset: plain trees, which tokens a tree spells, how tokens are read, and laws of it;
//! and the fixed words of tokens as values.
//!
//! In: a token's kind and bytes. Out: its fixed word, and what that is to each part of the grammar; nothing
//! here takes memory. What rules it is `specs/Spelling.antt`, which tokens a plain tree spells, over the plain
//! trees of `specs/Trees.antt` and `Statements.antt` (docs/LANGUAGE.md has them in words), and
//! `specs/Answers.antt`, what the readers of `specs/Reading.antt` and `ReadingStatements.antt` answer: parsers
//! equal these readers, function by function. The laws are functions that do nothing, each with its contract.
//!
//! It must not know: trees in memory, types, scopes, and how bytes are cut into tokens.
#![tactic(auto)]

mod classes;
mod laws;
pub mod level;
mod words;

pub use classes::{Follow, Lead, Phrase, Sort};
pub use laws::{
    one_declaration, one_expression, one_external, one_file, one_longest, one_statement,
    reads_expressions, reads_files,
};
pub use words::{FixedWord, fixed_word};
