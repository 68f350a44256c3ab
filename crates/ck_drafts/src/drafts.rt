//! Points by their places in a function's tree.
use ck_base::Span;
use ck_graph::{Label, PointKind};

/// Which of the points of one part it is. Cast to a number it is the side of a point of a graph, from 0 to 5.
#[derive(Clone, Copy, Debug, PartialEq, Eq)]
pub enum Side {
    /// Where an order of operands is taken.
    Split,
    /// Before a statement, or before what a call calls is entered; of the body, where the function is entered.
    Before,
    /// Of a body that keeps the kernel's status: where its pair is entered.
    Enter,
    /// Where one of two ways is taken, or one of a `switch`.
    Test,
    /// Of a body that keeps the kernel's status: where its pair is left.
    Leave,
    /// After a statement or a call, or where the ways of a choice meet; of the body, the function's exit.
    After,
}

/// Where a point is in its function's tree.
#[derive(Debug, Drop)]
pub struct Place {
    /// The way from the function's body down: the numbers of the steps (docs/DECISIONS.md).
    pub path: Vec<u32>,
    /// The orders of the unsequenced operands round it, from 1, the outermost first.
    pub orders: Vec<u8>,
    pub side: Side,
}

/// An edge to a place of the same function.
#[derive(Debug, Drop)]
pub struct DraftEdge {
    pub label: Label,
    pub to: Place,
}

/// A point with its edges, in the order of their labels.
#[derive(Debug, Drop)]
pub struct Draft {
    pub at: Place,
    pub kind: PointKind,
    /// The bytes of the point's first token.
    pub site: Span,
    pub edges: Vec<DraftEdge>,
}
