//! How many points each function has, before any point is made.
//!
//! In: a typed project's tables. Out: a number for each function with a body, in the order of their numbers; all above
//! the limit of points are the same. What rules it: `AreCounts` of ck_numbering. Neither paths nor orders nor jumps
//! bear on numbers of points, so each expression, initialiser and statement of the tables is looked at once, after
//! those of smaller numbers; `specs/Lib.antt` is in reading order.
//!
//! It must not know: points, edges, paths, kinds of calls, what is done where the limit is passed.
#![tactic(auto)]

mod body_counts;
mod declarations;
mod expressions;
mod functions;
mod initialisers;
mod operands;
mod statements;
mod weights;

pub use functions::counts;
