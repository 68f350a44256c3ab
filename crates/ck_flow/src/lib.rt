//! The flow graph of a typed project.
//!
//! In: a typed project's tables. Out: the parts of the graph of its functions, without call targets, or the refusal of
//! a project with too many points. What rules it: `IsGraph` and `passing_limit` of ck_points; the refusal is in
//! `specs/PointLimit.antt`, and `specs/SoundParts.antt` says what `ck_graph::checked` wants of the parts. All points
//! are counted before any is made. Then each function's points are drawn, get their kinds, and are numbered.
//!
//! It must not know: states, settings, call targets, what is round the functions that the kernel starts.
#![tactic(auto)]

mod lowering;

pub use lowering::lower;
