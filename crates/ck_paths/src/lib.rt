//! Paths from roots to alarms: for each alarm that a walk reaches, a way there in segments.
//!
//! In: a checked graph, its roots, the table of its calls, and alarms that walks from the roots reach.
//! Out: for each alarm segments that expand to a walk from a root to it. The definitions that rule it
//! are ck_segments' (`Form.antt`, `Expansion.antt`) and ck_graph's walks. One breadth-first search over
//! the pairs of states serves all alarms: each pair is kept with its reason, which cites earlier pairs
//! alone. So paths come out short, though no clause says that they are shortest: which of several walks
//! comes is open.
//!
//! The types of paths and the texts of ck_segments and ck_texts are here too, for those who stand on this
//! crate. It must not know: C, names, how a text is made, and how the alarms were found.
#![tactic(auto)]

mod building;
mod exits;
mod found;
mod paths;
mod raising;
mod search;
mod states;
mod tracing;

pub use ck_segments::{Segment, Segments, Step, follows};
pub use ck_texts::{
    Alarm, Counts, FunctionName, NameBook, Verdict, refusal_text, report_text, settings_text,
};
pub use paths::{path_to, paths_to};
