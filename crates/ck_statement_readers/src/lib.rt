//! Readers of statements and of the items of blocks (C99 6.8) over any trees.
//!
//! In: a `Source`, the builders of `BuildingStatements`, and closures that read what is inside. Out: for each
//! production the tree at a place and the place after it, where the grammar's reader reads one. What rules it is
//! `ReadingStatements.antt` of ck_grammar, function by function, by the clauses of `Places.antt` of ck_readers.
//! Nothing here recurses: who puts the readers together does, and says how deep.
//!
//! It must not know: where trees are kept, how deep a file may nest, what a type or a name means.
#![tactic(auto)]

mod blocks;
mod controlling;
mod jumps;
mod labels;
mod loops;
mod selections;
mod statements;

pub use blocks::items;
pub use statements::statement;
