//! A file's tokens while they are read, the trees as readers need them, and the readers of expressions.
//!
//! In: a file's bytes and tokens, the typedef names before them, and readers of what is inside. Out: a `Source`,
//! which answers what is at its places; the trait `Building`, which has the trees and their builders; and
//! `expression` over any of them. What rules it is `specs/Places.antt`: what is answered at a place is what a reader
//! of lists of ck_grammar answers on the tokens from there on. The readers inside come as closures, so nothing here
//! recurses.
//!
//! It must not know: where trees are kept, how deep a file may nest, types and scopes.
#![tactic(auto)]

mod builders;
mod forms;
mod levels;
mod looks;
mod operands;
mod primary;
mod seen;
mod sources;
mod suffixes;
mod type_names;
mod unary;

pub use builders::Building;
pub use forms::Form;
pub use levels::expression;
pub use sources::Source;
pub use type_names::TypeNames;
