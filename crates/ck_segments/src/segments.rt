//! The types of a path.
use ck_base::FnId;

/// A step in one function.
#[derive(Clone, Copy, Debug, PartialEq, Eq)]
pub enum Step {
    /// The edge of this number, from 0, at a plain point or an act.
    Edge(u32),
    /// A call that returns. The segment of this number, from 0, is what the called function does.
    Call { target: FnId, segment: u32 },
    /// A call in which the next segment goes on.
    Enter { target: FnId },
}

/// A path in one function, from its first point.
#[derive(Debug, Drop)]
pub struct Segment {
    pub function: FnId,
    pub steps: Vec<Step>,
}

/// A path from a root, as a numbered list of segments: the finished ones, each after those that it
/// cites, and then those that lead from the root to the path's end.
#[derive(Debug, Drop)]
pub struct Segments {
    /// The number of the root, from 0.
    pub root: u32,
    pub list: Vec<Segment>,
}
