//! What the function pointers of a project may hold, as a definition with its laws.
//!
//! In: the typed trees of a project's functions and its names (ck_prog), and the kernel's calls (ck_kernel). Out: no
//! code, but which functions reach which slots, and which a call through a pointer may call. What rules it is in
//! `specs/Lib.antt`, in reading order; docs/FLOW.md has it in words. The laws are functions that do nothing, each with
//! its contract.
//!
//! It must not know: graphs, states, settings files, trees in memory, how targets are found.
#![tactic(auto)]

mod laws;

pub use laws::{
    closed_lists_cover, closed_lists_have_targets, justified_lists_have_targets,
    justified_lists_reach,
};
