//! Which functions reach which cells, over numbers alone: inclusion-based points-to analysis (Andersen) with calls.
//!
//! In: `Rules`, which name functions at cells, let cells flow to others, and give calls with the cells of their
//! arguments and results. Out: `Reached`, for each cell the functions that reach it, and the targets of a call. The
//! definitions that rule it are `specs/Rules.antt` and `specs/Reaching.antt`: a function is in the table at a cell
//! exactly where a chain of rules brings it there.
//!
//! A worklist of cells makes it linear in what changes: a cell that grew passes on along its edges, and a call is
//! connected with each of its targets once. Memory is a bit for each cell and function, twice, and a number for each
//! edge; calls through one cell with one kind are best given as one call.
//!
//! It must not know: C, names, graphs, and how a program becomes rules.
#![tactic(auto)]

mod index;
mod known;
mod reached;
mod rules;
mod sets;
mod solving;
mod work;
mod worklist;

pub use reached::Reached;
pub use rules::{Call, CallId, Callee, CellId, Flows, KindId, Names, Rules};
pub use sets::FnSet;
pub use solving::solve;
