//! Summaries over recursive calls: for each point of a flow graph, which states are reached there from
//! which state at the function's entry, and the alarms that follow.
//!
//! In: a checked graph and roots. Out: a `Table` of relations, and the alarms in the order of a
//! report. The definitions that rule it: walks and alarms of ck_graph, and `specs/Solution.antt`: the
//! table has a pair exactly where a walk reaches it. `solve` takes no memory. It is the tabulation of
//! matched calls and returns (Reps, Horwitz, Sagiv) with a worklist; the theory is ck_graph's.
//!
//! It must not know: C, names, texts, settings, and what the roots stand for.
#![tactic(auto)]

mod callers;
mod passing;
mod reached;
mod solving;
mod states;
mod table;
mod worklist;

pub use reached::{AlarmAt, alarms};
pub use solving::solve;
pub use table::Table;
