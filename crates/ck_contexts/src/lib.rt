//! What the kernel does before and after the functions that it starts: round each entry point of a project a
//! synthetic function, added to the graph of the project's own functions.
//!
//! In: the parts of that graph, the targets of its calls by their numbers, and the contexts, each with the
//! functions that it runs. Out: the parts with their targets (`filled`), the whole graph (`extended`), and the
//! state in which each context starts. The definitions that rule it: `specs/Synthetic.antt` (each synthetic
//! function, step by step) and `specs/Extended.antt` (the points of its steps, and where they are in the
//! graph). `specs/Actions.antt` says what the ways through it do, which is a law. docs/FLOW.md has it in words.
//!
//! It must not know: C, settings, what is called back and why, and how a graph is searched.
#![tactic(auto)]

mod contexts;
mod drawing;
mod filling;
mod laws;
mod placing;
mod steps;

pub use contexts::{Context, Named};
pub use filling::{CallTargets, filled};
pub use laws::{acts_are_kernel_calls, contexts_add_few, entries_do, filled_is_sound};
pub use placing::extended;
