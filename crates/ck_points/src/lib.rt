//! The flow graph of every function, as a definition with its laws.
//!
//! In: the typed trees of a project's functions (ck_prog). Out: no code, but what the points and edges of a
//! function are, and laws about them. What rules it is in `specs/Lib.antt`, in reading order: what is evaluated in
//! which order, the points and edges between named places of the tree, and the numbers of a made graph.
//! docs/FLOW.md has it in words. The laws are functions that do nothing, each with its contract.
//!
//! It must not know: states, settings files, trees in memory, how a graph is made.
#![tactic(auto)]

mod laws;

pub use laws::{
    edges_are_few, edges_fit, edges_stay, graphs_are_sound, places_are_numbered, places_differ,
};
