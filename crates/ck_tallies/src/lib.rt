//! Which specifiers go together (C99 6.7.1, 6.7.2), told while they are read.
//!
//! In: the keywords of specifiers, one after another, and that a typedef name, a struct or an enum came. Out: a `Tally`
//! of a few enums, and whether specifiers with that tally go together at a place of the grammar. What rules it is
//! `Specified.antt` of ck_grammar; the law `tallies_tell` says that a tally tells it.
//!
//! It must not know: tokens, trees in memory, and what a type means.
#![tactic(auto)]

mod laws;
mod places;
mod tallies;

pub use laws::{tallies_tell, unknown_adds_nothing};
pub use places::Place;
pub use tallies::Tally;
