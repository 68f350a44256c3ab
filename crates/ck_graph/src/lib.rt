//! Flow graphs of functions that call each other: points, edges, call targets and the roots from
//! which contexts start.
//!
//! In: lists of points and functions (`Parts`). Out: a `Graph`, checked once (`checked`), and its
//! readers, which take no memory. The definitions that rule it: `specs/Flow.antt` (a graph as plain
//! lists), `specs/Faults.antt` (what `checked` refuses), `specs/Walk.antt` (configurations with
//! stacks of any depth, moves, walks) and `specs/Forbidden.antt` (the alarms that a walk reaches, in
//! order). They are what a verdict means. The theory of walks is here too, for whatever searches them:
//! `specs/MatchedPath.antt` (how a walk goes on, also over a whole call) and `specs/Summary.antt` (the
//! closed relations that cover every walk, and the least of them).
//!
//! It must not know: C, names of calls, how a graph is made, and how alarms are found.
#![tactic(auto)]

mod checking;
mod entries;
mod graphs;
mod laws;
mod points;

pub use checking::{Bad, checked};
pub use entries::{Entry, Root, Roots};
pub use graphs::Graph;
pub use laws::{
    closed_covers_walks, derived_is_reached, one_list_of_alarms, paths_go_on, walks_go_on,
};
pub use points::{ActName, Edge, FunctionPart, Label, Parts, PointKind, PointPart};
