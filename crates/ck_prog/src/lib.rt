//! What a project means: declarations, names, types and typed trees, as definitions with their laws.
//!
//! In: the plain trees of all files. Out: what each declares, what each name means, the sense of each
//! expression (its type, whether it designates an object, whether it is constant), and its typed tree. What
//! rules it is in `specs/Lib.antt`, in reading order, one clause for each section of C99; docs/LANGUAGE.md has
//! it in words. The laws are functions that do nothing, each with its contract.
//!
//! It must not know: trees in memory, settings files, states.
#![tactic(auto)]

mod body_laws;
mod laws;
mod names;
mod operators;

pub use body_laws::{bodies_declare, calls_ascend, stays_compatible, tells_some, tells_the_first};
pub use laws::{
    closing_hides, declarations_stay, known_is_in_range, means_open_entry, opening_shows,
    stays_fitting, stays_orderly, trees_declare, typed_keeps_sense,
};
pub use names::{Defining, Linkage, Storage};
pub use operators::{Assigning, Operator, Prefix, Role};
