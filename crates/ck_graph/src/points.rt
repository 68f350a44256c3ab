//! The parts of flow graphs: points with their edges, and functions.
use ck_base::{FnId, Op, PointId, RowId, Spot};

/// Which way an edge leaves its point.
#[derive(Clone, Copy, Debug, PartialEq, Eq)]
pub enum Label {
    /// The one way on.
    Plain,
    /// A test that holds.
    True,
    /// A test that doesn't hold.
    False,
    /// A case of a `switch`, numbered from 0 in written order (a report counts cases from 1).
    Case(u32),
    /// The way of a `switch` that no case takes.
    Default,
    /// An order of unsequenced operands, numbered from 1.
    Order(u8),
    /// A choice of a synthetic function: 0 goes on, and k leads to its k-th function.
    Pick(u32),
}

/// An edge to a point of the same function.
#[derive(Clone, Copy, Debug, PartialEq, Eq)]
pub struct Edge {
    pub to: PointId,
    pub label: Label,
}

/// What an act is called in a report.
#[derive(Clone, Copy, Debug, PartialEq, Eq)]
pub enum ActName {
    /// A row of the kernel's call table.
    Kernel(RowId),
    /// An outside function, by its place among those that the settings name, from 0.
    Outside(u32),
    /// The return of a vector's function, or of a function that keeps a status.
    Return,
    /// The return of a thread's function.
    ThreadReturn,
    /// The entry of a function that keeps a status.
    Entry,
}

/// What happens at a point.
#[derive(Clone, Copy, Debug, PartialEq, Eq)]
pub enum PointKind {
    /// Any of its edges is taken.
    Plain,
    /// The op acts on the system state, and where it is allowed, the one edge is taken.
    Act(Op, ActName),
    /// The call of this number enters one of the point's targets. Its one edge is taken when that
    /// returns.
    Call(u32),
    /// The function returns.
    Exit,
}

/// A point of a function, with its place in the text and in the function's tree.
#[derive(Debug, Drop)]
pub struct PointPart {
    pub kind: PointKind,
    /// The function that the point is of.
    pub function: FnId,
    /// Its place in the text, if it has one.
    pub site: Spot,
    /// The way from the function's body down: the numbers of the children, from 0.
    pub path: Vec<u32>,
    /// The orders of the unsequenced operands round it, the outermost first.
    pub order: Vec<u8>,
    /// Which of the points of one place it is: split, before, enter, test, leave or after, from 0 to 5.
    pub side: u8,
    pub edges: Vec<Edge>,
    /// The functions that a call point may enter.
    pub targets: Vec<FnId>,
}

/// A function: where it starts and where it returns.
#[derive(Clone, Copy, Debug, PartialEq, Eq)]
pub struct FunctionPart {
    pub first: PointId,
    pub exit: PointId,
}

/// The points and functions of a graph. A number of either is its place in its list, from 0.
#[derive(Debug, Drop)]
pub struct Parts {
    pub points: Vec<PointPart>,
    pub functions: Vec<FunctionPart>,
}

impl Parts {
    ghost use Rattle.std.specs.Prelude.{◌≡◌, ◌<◌};
    ghost use Rattle.ck_graph.specs.Flow.{
      flow_of,
      point_of,
      point_at,
      function_at,
      point_count,
      function_count,
    };

    /// The point of a number.
    pub(crate) fn point(&self, number: usize) -> &PointPart
        requires { number < point_count (flow_of self.now) }
        ensures { point_of result.now ≡ point_at (flow_of self.now) number }
    {
        &self.points[number]
    }

    /// The function of a number.
    pub(crate) fn function(&self, number: usize) -> FunctionPart
        requires { number < function_count (flow_of self.now) }
        ensures { result ≡ function_at (flow_of self.now) number }
    {
        self.functions[number]
    }
}
