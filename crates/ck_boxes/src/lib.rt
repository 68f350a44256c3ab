//! The trees of ck_syntax as readers build them, over any allocator.
//!
//! In: the parts of a production. Out: `Boxed`, which builds trees for the readers of ck_readers and the crates above
//! it, each tree with how deep it nests beside it, so that no reader looks through a tree for that. What rules it is
//! the contract of `Building`: the plain tree that each builder gives. How deep a tree nests is ck_grammar's
//! `Nesting.antt`, kept in sixteen bits (`specs/Depths.antt`).
//!
//! It must not know: tokens' words, how trees are read, types and scopes.
#![tactic(auto)]

mod boxed;
mod depths;
mod questions;
mod rows;
mod trees;

pub use boxed::Boxed;
pub use rows::{
    MeasuredDeclarators, MeasuredDims, MeasuredEarlier, MeasuredMembers, MeasuredMoreParams,
    MeasuredOperands, MeasuredSpecifiers, MeasuredSuffixes,
};
pub use trees::{
    MeasuredDeclarator, MeasuredEnumerator, MeasuredEnumerators, MeasuredExpr, MeasuredParams,
    MeasuredTypeName,
};
