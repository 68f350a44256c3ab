//! The points of expressions, with their edges, from a typed project's tables (C99 6.5).
//!
//! In: a project, the number of an expression, its path, and the place that comes after it. Out: the points of its
//! passage, as ck_points defines them, from the last to the first, and the place where it is entered. A chain and a row
//! of suffixes are walked by loops; the walk goes into operands, and once more into what is before an operator for each
//! order of its operands. `specs/Lib.antt` is in reading order.
//!
//! It must not know: numbers of points, kinds of calls, statements, the deeds of edges.
#![tactic(auto)]

mod drawing;
mod expressions;
mod operands;
mod tests;
mod walk;

pub use drawing::{Copies, Drawing, Happening, PassagePoint, copied, one_edge, place};
pub use operands::{Operand, below, step_number};
pub use walk::Walk;
