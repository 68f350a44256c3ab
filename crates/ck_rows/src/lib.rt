//! Relations on sixteen things, as sixteen masks of sixteen bits: union, composition and image.
//!
//! In: relations as `Rows`. Out: relations, and whether a union added a pair. The definition that
//! rules it is `specs/Relation.antt`: a `Rows` stands for a list of pairs, and each operation is that of
//! lists of pairs. Union, composition and image work on all sixteen masks at once, a mask in each lane
//! of a vector. Nothing here takes memory.
//!
//! It must not know: states by name, graphs, and what a pair stands for.
#![tactic(auto)]

mod laws;
mod pairs;
mod rows;

pub use laws::pairs_are_bits;
pub use pairs::{add_pair, has_pair, no_pairs};
pub use rows::{Rows, compose, image, union_into};
