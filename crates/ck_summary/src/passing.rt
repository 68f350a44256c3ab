//! A look at one point: it passes on what it has, and the points that got something new are listed.
ghost use Rattle.std.specs.Prelude.{◌≡◌, ◌<◌, ℕ, length, All, Contains, slice_index_or, ◌↔◌};
ghost use Rattle.ck_graph.specs.Flow.{point_count, function_count};
ghost use Rattle.ck_graph.specs.Faults.{IsSound};
ghost use Rattle.ck_graph.specs.Steps.{kind_at, first_of, exit_of, IsCall, MayEnter};
ghost use Rattle.ck_graph.specs.declared.points.Edge.{Edge};
ghost use Rattle.ck_graph.specs.declared.points.PointKind.TheVariants.{Exit};
ghost use Rattle.ck_rows.specs.Relation.{Relates};
ghost use Rattle.ck_summary.specs.Solution.{rows_at, callers_at, AreCallers, lists_of};
ghost use Rattle.ck_summary.specs.Listing.{size_of};
ghost use Rattle.ck_summary.specs.Passing.{IsLookedAt, IsReturned};
ghost use Rattle.ck_summary.specs.Growth.{work, IsWorkFor, IsAddition, IsGrowth, LeadsTo};

use crate::states::{entries_of, step_of};
use crate::worklist::Worklist;
use ck_base::{FnId, PointId};
use ck_graph::{Edge, Graph, PointKind};
use ck_rows::{Rows, compose, image, union_into};

/// Adds the pairs of a relation at a point, and lists the point if one was new.
pub(crate) fn add_at(table: &mut [Rows], listed: &mut Worklist, point: PointId, given: &Rows)
    requires point { point.0 < length table.old }
    requires size { size_of listed.old ≡ length table.old }
    ensures { IsAddition (λ p. p ≡ point.0) given.now (work table.old listed.old) (work table.new listed.new) }
{
    if union_into(&mut table[point.0 as usize], given) {
        listed.put(point.0);
    }
}

/// Adds the pairs of a relation wherever these edges lead.
fn spread(table: &mut [Rows], listed: &mut Worklist, edges: &[Edge], given: &Rows)
    requires edges { All (λ edge. edge.to.0 < length table.old) edges.now }
    requires size { size_of listed.old ≡ length table.old }
    ensures { IsAddition
        (LeadsTo edges.now (length edges.now))
        given.now
        (work table.old listed.old)
        (work table.new listed.new) }
{
    for edge in edges {
        add_at(table, listed, edge.to, given);
    }
}

/// Passes on what a point has, by its kind.
pub(crate) fn pass_on(
    graph: &Graph,
    callers: &[Vec<PointId>],
    table: &mut [Rows],
    listed: &mut Worklist,
    point: PointId,
)
    requires sound { IsSound graph.now }
    requires callers { AreCallers graph.now (lists_of callers.now) }
    requires point { point.0 < point_count graph.now }
    requires work { IsWorkFor graph.now (work table.old listed.old) }
    ensures growth { IsGrowth graph.now (work table.old listed.old) (work table.new listed.new) }
    ensures looked { IsLookedAt graph.now table.old table.new point.0 }
{
    let here = table[point.0 as usize];
    match graph.kind(point) {
        PointKind::Plain => spread(table, listed, graph.edges(point), &here),
        PointKind::Act(op, _) => {
            let there = image(&here, &step_of(*op).mask);
            spread(table, listed, graph.edges(point), &there);
        }
        PointKind::Call(_) => pass_call(graph, table, listed, point),
        PointKind::Exit => pass_exit(graph, callers, table, listed, point),
    }
}

/// Enters each function that a call point may enter, and returns what its exit has.
fn pass_call(graph: &Graph, table: &mut [Rows], listed: &mut Worklist, point: PointId)
    requires sound { IsSound graph.now }
    requires call { IsCall graph.now point.0 }
    requires point { point.0 < point_count graph.now }
    requires work { IsWorkFor graph.now (work table.old listed.old) }
    ensures growth { IsGrowth graph.now (work table.old listed.old) (work table.new listed.new) }
    ensures entered { (target : ℕ) → MayEnter graph.now point.0 target →
        (a b : ℕ) → Relates (rows_at table.old point.0) a b
        → Relates (rows_at table.new (first_of graph.now target)) b b }
    ensures returned { (target : ℕ) → MayEnter graph.now point.0 target →
        IsReturned graph.now table.old table.new point.0 target }
{
    let entries = entries_of(&table[point.0 as usize]);
    let targets = graph.targets(point);
    for target in targets {
        pass_target(graph, table, listed, point, *target, &entries);
    }
}

/// Enters one function that a call point may enter in the states that the point has, and returns what
/// its exit has.
fn pass_target(
    graph: &Graph,
    table: &mut [Rows],
    listed: &mut Worklist,
    point: PointId,
    target: FnId,
    entries: &Rows,
)
    requires sound { IsSound graph.now }
    requires target { MayEnter graph.now point.0 target.0 }
    requires entries { (b d : ℕ) → Relates entries.now b d
        → (b ≡ d) × ((a : ℕ) × Relates (rows_at table.old point.0) a d) }
    requires work { IsWorkFor graph.now (work table.old listed.old) }
    ensures growth { IsGrowth graph.now (work table.old listed.old) (work table.new listed.new) }
    ensures entered { (a b : ℕ) → Relates entries.now a b
        → Relates (rows_at table.new (first_of graph.now target.0)) a b }
    ensures returned { IsReturned graph.now table.old table.new point.0 target.0 }
{
    add_at(table, listed, graph.first(target), entries);
    return_to(graph, table, listed, point, target);
}

/// Returns what a function's exit has to a call of it: each state there to the caller's entry states
/// from which it comes.
fn return_to(
    graph: &Graph,
    table: &mut [Rows],
    listed: &mut Worklist,
    caller: PointId,
    function: FnId,
)
    requires sound { IsSound graph.now }
    requires call { MayEnter graph.now caller.0 function.0 }
    requires work { IsWorkFor graph.now (work table.old listed.old) }
    ensures growth { IsGrowth graph.now (work table.old listed.old) (work table.new listed.new) }
    ensures returned { IsReturned graph.now table.old table.new caller.0 function.0 }
{
    let exit = graph.exit(function);
    let through = compose(&table[caller.0 as usize], &table[exit.0 as usize]);
    spread(table, listed, graph.edges(caller), &through);
}

/// Returns what an exit has to each call of its function.
fn pass_exit(
    graph: &Graph,
    callers: &[Vec<PointId>],
    table: &mut [Rows],
    listed: &mut Worklist,
    point: PointId,
)
    requires sound { IsSound graph.now }
    requires callers { AreCallers graph.now (lists_of callers.now) }
    requires point { point.0 < point_count graph.now }
    requires exit { kind_at graph.now point.0 ≡ Exit }
    requires work { IsWorkFor graph.now (work table.old listed.old) }
    ensures growth { IsGrowth graph.now (work table.old listed.old) (work table.new listed.new) }
    ensures returned { (q target : ℕ) → MayEnter graph.now q target → exit_of graph.now target ≡ point.0 →
        IsReturned graph.now table.old table.new q target }
{
    let function = graph.function(point);
    let calls = calls_of(callers, function);
    for call in calls {
        return_to(graph, table, listed, *call, function);
    }
}

/// The calls of a function.
fn calls_of(callers: &[Vec<PointId>], function: FnId) -> &[PointId]
    requires { function.0 < length callers.now }
    ensures { result.now ≡ callers_at (lists_of callers.now) function.0 }
{
    &callers[function.0 as usize]
}
