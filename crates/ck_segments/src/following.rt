//! Whether a step may lead from one point to another.
ghost use Rattle.std.specs.Prelude.{◌≡◌, ◌<◌, ◌≤◌, ℕ, Some, slice_get, true, MatchBool};
ghost use Rattle.ck_graph.specs.Flow.{point_count, function_count};
ghost use Rattle.ck_graph.specs.Walk.{names_target};
ghost use Rattle.ck_graph.specs.Steps.{first_of, MayEnter};
ghost use Rattle.ck_segments.specs.Follows.{Follows, TakesEdge, EdgeLeads};

use crate::segments::Step;
use ck_base::{FnId, PointId};
use ck_graph::{Graph, PointKind};

/// Whether a walk may take this step from the one point to the other, when it isn't asked which state
/// there is and what the cited segment does. A number that no point or function has is that of no
/// step's end. It takes no memory.
pub fn follows(graph: &Graph, from: PointId, step: &Step, to: PointId) -> bool
    ensures { let does = Follows graph.now from.0 step.now to.0 in MatchBool result does (does → ⊥) }
{
    let points = graph.points();
    if from.0 >= points {
        return false;
    }
    match *step {
        Step::Edge(edge) => takes_edge(graph.kind(from), edge) && edge_leads(graph, from, edge, to),
        Step::Call { target, .. } => may_enter(graph, from, target)
            && edge_leads(graph, from, 0, to),
        Step::Enter { target } => may_enter(graph, from, target) && starts_at(graph, target, to),
    }
}

/// Whether a point of this kind may take its edge of this number, if it has it.
fn takes_edge(kind: &PointKind, edge: u32) -> bool
    ensures { let takes = TakesEdge kind.now edge in MatchBool result takes (takes → ⊥) }
{
    match kind {
        PointKind::Plain => true,
        PointKind::Act(_, _) => edge == 0,
        PointKind::Call(_) | PointKind::Exit => false,
    }
}

/// Whether a point has an edge of this number, which leads there.
fn edge_leads(graph: &Graph, from: PointId, edge: u32, to: PointId) -> bool
    requires { from.0 < point_count graph.now }
    ensures { let leads = EdgeLeads graph.now from.0 edge to.0 in MatchBool result leads (leads → ⊥) }
{
    match graph.edges(from).get(edge as usize) {
        Some(there) => there.to.0 == to.0,
        None => false,
    }
}

/// Whether a point is a call that may enter this function.
fn may_enter(graph: &Graph, from: PointId, target: FnId) -> bool
    requires { from.0 < point_count graph.now }
    ensures { let enters = MayEnter graph.now from.0 target.0 in MatchBool result enters (enters → ⊥) }
{
    matches!(graph.kind(from), PointKind::Call(_)) && names(graph.targets(from), target)
}

/// Whether a function is among targets.
fn names(targets: &[FnId], target: FnId) -> bool
    ensures { result ≡ names_target targets.now target.0 }
{
    for f in targets {
        if f.0 == target.0 {
            return true;
        }
    }
    false
}

/// Whether a function starts at this point.
fn starts_at(graph: &Graph, function: FnId, point: PointId) -> bool
    requires { function.0 < function_count graph.now }
    ensures { let starts = first_of graph.now function.0 ≡ point.0 in MatchBool result starts (starts → ⊥) }
{
    graph.first(function).0 == point.0
}
