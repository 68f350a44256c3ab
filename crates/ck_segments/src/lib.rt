//! Paths of walks as people read them: a numbered list of segments, each a path in one function.
//!
//! In: a checked graph. Out: the types of a path, and `follows`, which says whether a step may lead from
//! one point to another. The definitions that rule it: `specs/Expansion.antt` (the moves that a list of
//! segments stands for), `specs/Form.antt` (which lists are in form) and `specs/Follows.antt`. A called
//! function that returns is one segment, however often it is called so; so a list is short where its
//! moves are many. The law `paths_are_walks` says when a list stands for a walk.
//!
//! It must not know: C, names, texts, and how a path is found.
#![tactic(auto)]

mod following;
mod laws;
mod segments;

pub use following::follows;
pub use laws::{moves_follow, paths_are_walks, segments_lead};
pub use segments::{Segment, Segments, Step};
