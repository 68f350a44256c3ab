//! Drafts of the points of a function, before points have numbers.
//!
//! In: nothing. Out: the type of a point whose edges lead to places, and what it is to be the points of a function in
//! some order (`specs/Drafts.antt`). A walk over a function makes drafts, and numbering turns them into the points of
//! a graph.
//!
//! It must not know: trees, how drafts are made, numbers of points.
#![tactic(auto)]

mod drafts;

pub use drafts::{Draft, DraftEdge, Place, Side};
