//! Parts are checked once, and are a graph then.
ghost use Rattle.std.specs.Prelude.{
  ◌≡◌,
  ◌<◌,
  ◌≤◌,
  ◌^◌,
  ℕ,
  length,
  vec_len,
  map,
  All,
  Contains,
  IfOk,
  IfErr,
  MatchBool,
};
ghost use Rattle.ck_graph.specs.Flow.{flow_of, point_of, point_at, function_at, point_count, function_count};
ghost use Rattle.ck_graph.specs.Faults.{
  HasFault,
  HasPointFault,
  HasFunctionFault,
  IsPointOf,
  IsNoPointOf,
  FitsKind,
  IsSound,
  IsPointSound,
  IsFunctionSound,
};
ghost use Rattle.ck_graph.specs.declared.points.Edge.{Edge};
ghost use Rattle.ck_base.specs.declared.spans.FnId.{FnId};

use crate::graphs::Graph;
use crate::points::{Edge, Parts, PointKind, PointPart};
use ck_base::{FnId, PointId};

/// Parts that have a fault.
#[derive(Debug, Drop)]
pub struct Bad {
    pub parts: Parts,
}

/// The graph of which these are the parts, or the parts as they were given where they have a fault.
///
/// Faults are: the number of a point or of a function that is out of range; an edge that leaves its
/// function; an act or call point without just one edge; an exit with an edge; a function's first
/// point or exit that is a point of another function; a point of kind `Exit` that isn't its
/// function's named exit, or a named exit of another kind. It takes no memory.
pub fn checked(parts: Parts) -> Result<Graph, Bad>
    requires points { vec_len parts.points < 2 ^ 32 }
    requires functions { vec_len parts.functions < 2 ^ 32 }
    requires edges { All (λ part. vec_len part.edges < 2 ^ 32) parts.points.items }
    ensures graph { IfOk result (λ graph. graph ≡ flow_of parts) }
    ensures sound { IfOk result (λ graph. HasFault (flow_of parts) → ⊥) }
    ensures given_back { IfErr result (λ bad. bad.parts ≡ parts) }
    ensures fault { IfErr result (λ bad. HasFault (flow_of parts)) }
{
    if points_are_sound(&parts) && functions_are_sound(&parts) {
        Ok(Graph { parts })
    } else {
        Err(Bad { parts })
    }
}

/// Whether no point has a fault.
fn points_are_sound(parts: &Parts) -> bool
    ensures { let flow = flow_of parts.now in
        MatchBool result ((n : ℕ) → n < point_count flow → IsPointSound flow n (point_at flow n)) (HasFault flow) }
{
    for number in 0..parts.points.len() {
        if !is_point_sound(parts, number, parts.point(number)) {
            return false;
        }
    }
    true
}

/// Whether a point, which has this number, has no fault.
fn is_point_sound(parts: &Parts, number: usize, point: &PointPart) -> bool
    ensures { let flow = flow_of parts.now in
        MatchBool
        result
        (IsPointSound flow number (point_of point.now))
        (HasPointFault flow number (point_of point.now)) }
{
    if !is_function(parts, point.function) {
        return false;
    }
    if !targets_are_functions(parts, &point.targets) {
        return false;
    }
    if !edges_stay(parts, point.function, &point.edges) {
        return false;
    }
    edges_fit(&point.kind, point.edges.len()) && is_named_exit(parts, number, point)
}

/// Whether a function has this number.
fn is_function(parts: &Parts, function: FnId) -> bool
    ensures { let count = function_count (flow_of parts.now) in
        MatchBool result (function.0 < count) (count ≤ function.0) }
{
    (function.0 as usize) < parts.functions.len()
}

/// Whether all targets are numbers of functions.
fn targets_are_functions(parts: &Parts, targets: &[FnId]) -> bool
    ensures { let count = function_count (flow_of parts.now) in
        MatchBool
        result
        (All (λ target. target.0 < count) targets.now)
        ((target : FnId) × Contains targets.now target × (count ≤ target.0)) }
{
    for target in targets {
        if !is_function(parts, *target) {
            return false;
        }
    }
    true
}

/// Whether all edges lead to points of this function.
fn edges_stay(parts: &Parts, function: FnId, edges: &[Edge]) -> bool
    ensures { let flow = flow_of parts.now in
        MatchBool
        result
        (All (λ edge. IsPointOf flow edge.to.0 function.0) edges.now)
        ((edge : Edge) × Contains edges.now edge × IsNoPointOf flow edge.to.0 function.0) }
{
    for edge in edges {
        if !is_point_of(parts, edge.to, function) {
            return false;
        }
    }
    true
}

/// Whether a point has this number, and is of this function.
fn is_point_of(parts: &Parts, point: PointId, function: FnId) -> bool
    ensures { let flow = flow_of parts.now in
        MatchBool result (IsPointOf flow point.0 function.0) (IsNoPointOf flow point.0 function.0) }
{
    let number = point.0 as usize;
    number < parts.points.len() && parts.point(number).function.0 == function.0
}

/// Whether a point of this kind may have so many edges.
fn edges_fit(kind: &PointKind, edges: usize) -> bool
    ensures { MatchBool result (FitsKind kind.now edges) (FitsKind kind.now edges → ⊥) }
{
    match kind {
        PointKind::Plain => true,
        PointKind::Act(_, _) | PointKind::Call(_) => edges == 1,
        PointKind::Exit => edges == 0,
    }
}

/// Whether a point, which has this number, is its function's exit if it is of that kind.
fn is_named_exit(parts: &Parts, number: usize, point: &PointPart) -> bool
    requires { point.now.function.0 < function_count (flow_of parts.now) }
    ensures { let exit = (function_at (flow_of parts.now) point.now.function.0).exit.0 in
        MatchBool
        result
        (point.now.kind ≡ PointKind.Exit → exit ≡ number)
        ((point.now.kind ≡ PointKind.Exit) × (exit ≡ number → ⊥)) }
{
    match point.kind {
        PointKind::Exit => {
            let exit = parts.function(point.function.0 as usize).exit;
            exit.0 as usize == number
        }
        _ => true,
    }
}

/// Whether no function has a fault.
fn functions_are_sound(parts: &Parts) -> bool
    requires { vec_len parts.now.functions < 2 ^ 32 }
    ensures { let flow = flow_of parts.now in
        MatchBool result ((n : ℕ) → n < function_count flow → IsFunctionSound flow n) (HasFault flow) }
{
    for number in 0..parts.functions.len() {
        if !is_function_sound(parts, FnId(number as u32)) {
            return false;
        }
    }
    true
}

/// Whether a function has no fault.
fn is_function_sound(parts: &Parts, function: FnId) -> bool
    requires { function.0 < function_count (flow_of parts.now) }
    ensures { let flow = flow_of parts.now in
        MatchBool result (IsFunctionSound flow function.0) (HasFunctionFault flow function.0) }
{
    let ends = parts.function(function.0 as usize);
    is_point_of(parts, ends.first, function)
        && is_point_of(parts, ends.exit, function)
        && is_exit(parts, ends.exit)
}

/// Whether a point is of the kind of an exit.
fn is_exit(parts: &Parts, point: PointId) -> bool
    requires { point.0 < point_count (flow_of parts.now) }
    ensures { let kind = (point_at (flow_of parts.now) point.0).kind in
        MatchBool result (kind ≡ PointKind.Exit) (kind ≡ PointKind.Exit → ⊥) }
{
    matches!(parts.point(point.0 as usize).kind, PointKind::Exit)
}
