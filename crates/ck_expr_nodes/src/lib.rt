//! Nodes of expressions in the tables of a project, one builder for each production.
//!
//! In: what an expression's parts are, each with its number and what is known of its value. Out: the number of the
//! expression, which stands for the typed tree that ck_prog makes of the parts' (`specs/Made.antt`), whatever the
//! project declares later. Names, types and values are asked for through `Senses`.
//!
//! It must not know: the parser's trees, how types, values and declarations are kept, what is refused.
#![tactic(auto)]

mod casts;
mod nodes;
mod senses;
mod suffixes;

pub use nodes::{Value, Walk};
pub use senses::{Accessed, Found, Sense, Senses, sense_of};
pub use suffixes::{Arguments, value_of};
