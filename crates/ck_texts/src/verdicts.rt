//! Verdicts.
use ck_segments::Segments;
use ck_summary::AlarmAt;

/// How much an accepted project has.
#[derive(Clone, Copy, Debug, PartialEq, Eq)]
pub struct Counts {
    pub files: u32,
    /// The functions with a body.
    pub functions: u32,
    /// The roots.
    pub entries: u32,
}

/// An alarm, and a path from a root to it.
#[derive(Debug, Drop)]
pub struct Alarm {
    pub at: AlarmAt,
    pub path: Segments,
}

/// What the checker says of a project.
#[derive(Debug, Drop)]
pub enum Verdict {
    /// No walk from a root reaches an alarm.
    Accepted(Counts),
    /// The alarms that walks reach, in order.
    Rejected(Vec<Alarm>),
}
