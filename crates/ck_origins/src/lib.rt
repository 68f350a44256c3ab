//! When rules over numbers say of a project which functions reach which holders of function pointers: definitions and
//! their laws.
//!
//! In: the definition of what reaches what in a project (ck_slots), and rules over cells (ck_reaching). Out: no code,
//! but what a cell and a kind stand for, when rules model a project, that both then have the same functions and
//! targets, and how rules grow until they do. What rules it is in `specs/Lib.antt`, in reading order. The laws are
//! functions that do nothing, each with its contract.
//!
//! It must not know: tables in memory, the order in which a project is walked, graphs, states, settings files.
#![tactic(auto)]

mod exactness;
mod growth;

pub use exactness::{
    cells_are_exact, listed_targets_are_exact, slots_are_exact, targets_are_exact,
    threads_are_exact, timers_are_exact,
};
pub use growth::{
    bare_rules_stand, bringing_stays, call_is_added, call_is_done, cell_is_added, cell_is_done,
    flow_is_added, given_is_done, kind_is_added, name_is_added, numbers_stay,
};
