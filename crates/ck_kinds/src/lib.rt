//! Kinds of points: from what happens at the points of a function to the drafts of a graph.
//!
//! In: a typed project's tables, a function, and the points of its passages. Out: their drafts in the same order, each
//! with its kind: a plain point, an act with its op, a call with its number among the project's calls that are no acts,
//! or the exit. What rules it: `kind_of` of ck_points, by `specs/KindedDrafts.antt`. A call's number is found by a
//! search over the rows of calls, which are in the order of their functions and paths (`specs/CallOrder.antt`).
//!
//! It must not know: trees, which points a function has, numbers of points, call targets.
#![tactic(auto)]

mod call_numbers;
mod call_order;
mod callers;
mod drafting;
mod kinds;

pub use drafting::drafts_of;
