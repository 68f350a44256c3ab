//! What a kernel call does in a system state: the state table as a function.
//!
//! In: an op and a state. Out: the next state, an alarm, or the end of the context. The definition
//! that rules it is the state table of ck_base (`specs/Act.antt`, docs/STATES.md); `act` equals it at
//! every op and state. It takes no memory.
//!
//! It must not know: calls by name, graphs, other contexts, and the kernel's counters.
#![tactic(auto)]

mod classes;
mod handlers;
mod pairs;
mod table;
mod threads;

pub use ck_base::{Kind, Outcome, State};
pub use table::act;
