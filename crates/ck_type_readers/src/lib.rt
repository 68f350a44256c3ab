//! Readers of types (C99 6.7) over any trees: specifiers, declarators, type names, members, enumerators, parameters.
//!
//! In: a `Source`, a `Building`, which makes the trees, and closures that read what is inside. Out: for each production
//! the tree at a place and the place after it, where the grammar's reader reads one. What rules it is
//! `ReadingTypes.antt` of ck_grammar, function by function, by the clauses of `Places.antt` of ck_readers. Nothing here
//! recurses: who puts the readers together does, and says how deep.
//!
//! It must not know: where trees are kept, how deep a file may nest, scopes, and what a type means.
#![tactic(auto)]

mod declarator_parts;
mod dim_lists;
mod enums;
mod namings;
mod param_lists;
mod pointers;
mod specifier_lists;
mod structs;

pub use ck_tallies::Place;
pub use declarator_parts::{declarator, in_parens};
pub use enums::enumerators;
pub use namings::Naming;
pub use param_lists::params;
pub use specifier_lists::specifiers;
pub use structs::{declarators, members};
