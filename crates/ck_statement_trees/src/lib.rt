//! The trees of declarations, statements and files as their readers need them, wherever they are kept.
//!
//! In: tokens and smaller trees. Out: two traits, `BuildingDeclarations` over `Building` of ck_readers, and
//! `BuildingStatements` over it: a builder for each production, whose clause says which plain tree of ck_grammar came
//! of it, and rows that grow at their end.
//!
//! It must not know: where trees are kept, how they are read, scopes, types.
#![tactic(auto)]

mod declarations;
mod statements;

pub use declarations::BuildingDeclarations;
pub use statements::BuildingStatements;
