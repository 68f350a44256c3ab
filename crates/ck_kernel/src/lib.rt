//! The table of kernel calls: each call's row number, name, op, number of parameters, and which
//! parameter becomes the function of a thread or of a timer.
//!
//! In: a name, or a row. Out: the row of the name if it has one, and the row's facts. The definition
//! that rules it is the table of `specs/KernelTable.antt` (docs/KERNEL.md); the five calls equal it,
//! and none of them takes memory. The laws say what holds of the whole table.
//!
//! It must not know: programs, files, and what an op does to a system state.
#![tactic(auto)]

mod calls;
mod entries;
mod laws;
mod names;
mod rows;

pub use entries::EntrySink;
pub use laws::{
    entry_parameters_are_parameters, names_and_rows_are_inverse, names_differ, ops_have_calls,
};
pub use names::row_of;
pub use rows::{entry_parameter, name, op, parameters};
