//! The texts that users read: the report of a verdict, the line of a refusal, the line of a fault in the
//! settings.
//!
//! In: a verdict with its graph, its roots and a book of names; or a refusal with the files and their
//! places; or a settings fault. Out: the whole text as bytes, which is built before any of it is written.
//! The definitions that rule it: `specs/Report.antt` and `specs/Texts.antt`, a word of them for each line
//! of text (docs/REPORT.md), and `specs/Placed.antt` for the places. Nothing is free but want of memory.
//!
//! It must not know: how a verdict is reached, how a path is found, C, and where a text is written to.
#![tactic(auto)]

mod laws;
mod names;
mod refusing;
mod reporting;
mod settings;
mod steps;
mod verdicts;
mod words;

pub use laws::{one_refusal, one_report, paths_meet_reports};
pub use names::{FunctionName, NameBook};
pub use refusing::refusal_text;
pub use reporting::report_text;
pub use settings::settings_text;
pub use verdicts::{Alarm, Counts, Verdict};
