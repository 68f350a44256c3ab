//! The search: each place that is found passes on what walks can do from it.
ghost use Rattle.std.specs.Prelude.{◌≡◌, ◌<◌, ◌≤◌, ◌-◌, ◌+◌, ℕ, List, All, length, IfOk, OnOk};
ghost use Rattle.ck_base.specs.declared.states.State.{State as StateOf};
ghost use Rattle.ck_graph.specs.Flow.{point_at, point_count, function_count};
ghost use Rattle.ck_graph.specs.Faults.{IsSound};
ghost use Rattle.ck_graph.specs.Summary.{ReachesPair, HasRoots};
ghost use Rattle.ck_graph.specs.Steps.{MayEnter, IsCall, Leads, first_of, exit_of, kind_at};
ghost use Rattle.ck_graph.specs.declared.entries.Root.{Root as RootOf};
ghost use Rattle.ck_summary.specs.Solution.{IsMadeFor};
ghost use Rattle.ck_paths.specs.declared.found.Place.{Place as PlaceOf};
ghost use Rattle.ck_paths.specs.Found.{IsAt, HasPlace};
ghost use Rattle.ck_paths.specs.Justified.{AreJustified, Holds, function_of};
ghost use Rattle.ck_paths.specs.Search.{
  IsReady,
  Grows,
  LeadsOn,
  HasNext,
  HasReturn,
  HasExits,
  HasCallers,
  HasCalled,
  HasPassed,
  AreCallersOf,
  IsActOf,
  IsClosedBelow,
};

use crate::found::{Found, Place, Reason};
use crate::states::is_same;
use ck_base::{FnId, Op, OutOfMemory, PointId, State};
use ck_graph::{Graph, PointKind, Root};
use ck_states::{Outcome, act};
use ck_summary::Table;
use std::alloc::Global;

/// Adds a pair at a point with a reason that holds.
fn put(
    graph: &Graph,
    found: &mut Found,
    point: PointId,
    from: State,
    to: State,
    reason: Reason,
) -> Result<(), OutOfMemory>
    requires ready { IsReady graph.now found.old.places.items found.old.last.items }
    requires point { point.0 < point_count graph.now }
    requires holds { (same : ℕ) (roots : List RootOf) →
        let place : PlaceOf =
        record { point = point; from = from; to = to; reason = reason; same = same } in
        Holds graph.now roots found.old.places.items (length found.old.places.items) place reason }
    ensures grows { OnOk result (Grows graph.now found.old.places.items found.new.places.items found.new.last.items) }
    ensures there { OnOk result (HasPlace found.new.places.items point.0 from to) }
{
    found.add(point, from, to, reason)?;
    Ok(())
}

/// Goes along each edge of a place, into a state.
fn along_edges(
    graph: &Graph,
    found: &mut Found,
    number: u32,
    place: Place,
    next: State,
) -> Result<(), OutOfMemory>
    requires sound { IsSound graph.now }
    requires ready { IsReady graph.now found.old.places.items found.old.last.items }
    requires at { IsAt found.old.places.items number place }
    requires leads { LeadsOn graph.now place next }
    ensures grows { OnOk result (Grows graph.now found.old.places.items found.new.places.items found.new.last.items) }
    ensures next { OnOk result (HasNext graph.now found.new.places.items place next) }
{
    let edges = graph.edges(place.point);
    for k in 0..edges.len() {
        put(
            graph,
            found,
            edges[k].to,
            place.from,
            next,
            Reason::ByEdge(number, k as u32),
        )?;
    }
    Ok(())
}

/// Enters a function that a call may enter.
fn into_call(
    graph: &Graph,
    found: &mut Found,
    number: u32,
    place: Place,
    target: FnId,
) -> Result<(), OutOfMemory>
    requires sound { IsSound graph.now }
    requires ready { IsReady graph.now found.old.places.items found.old.last.items }
    requires at { IsAt found.old.places.items number place }
    requires target { MayEnter graph.now place.point.0 target.0 }
    ensures grows { OnOk result (Grows graph.now found.old.places.items found.new.places.items found.new.last.items) }
    ensures there { OnOk result (HasPlace found.new.places.items (first_of graph.now target.0) place.to place.to) }
{
    put(
        graph,
        found,
        graph.first(target),
        place.to,
        place.to,
        Reason::IntoCall(number),
    )?;
    Ok(())
}

/// Goes over a call of a function whose exit a place stands at.
fn over_call(
    graph: &Graph,
    found: &mut Found,
    caller: u32,
    calls: Place,
    exit: u32,
    ends: Place,
    target: FnId,
) -> Result<(), OutOfMemory>
    requires sound { IsSound graph.now }
    requires ready { IsReady graph.now found.old.places.items found.old.last.items }
    requires caller { IsAt found.old.places.items caller calls }
    requires exit { IsAt found.old.places.items exit ends }
    requires target { MayEnter graph.now calls.point.0 target.0 }
    requires ends { ends.point.0 ≡ exit_of graph.now target.0 }
    ensures grows { OnOk result (Grows graph.now found.old.places.items found.new.places.items found.new.last.items) }
    ensures next { OnOk result (ends.from ≡ calls.to → HasReturn graph.now found.new.places.items calls ends.to) }
{
    let edges = graph.edges(calls.point);
    if edges.is_empty() || !is_same(ends.from, calls.to) {
        return Ok(());
    }
    put(
        graph,
        found,
        edges[0].to,
        calls.from,
        ends.to,
        Reason::OverCall(caller, exit),
    )?;
    Ok(())
}

/// Goes over a call of a function to each of its exits that are found.
fn over_exits(
    graph: &Graph,
    found: &mut Found,
    number: u32,
    calls: Place,
    target: FnId,
) -> Result<(), OutOfMemory>
    requires sound { IsSound graph.now }
    requires ready { IsReady graph.now found.old.places.items found.old.last.items }
    requires at { IsAt found.old.places.items number calls }
    requires target { MayEnter graph.now calls.point.0 target.0 }
    requires exit { exit_of graph.now target.0 < point_count graph.now }
    requires function { target.0 < function_count graph.now }
    ensures grows { OnOk result (Grows graph.now found.old.places.items found.new.places.items found.new.last.items) }
    ensures exits { OnOk
        result
        (HasExits graph.now found.old.places.items found.new.places.items calls (exit_of graph.now target.0) 0) }
{
    let exit = graph.exit(target);
    let mut link = found.last_link(exit);
    'links: while link > 0 {
        let ends = found.linked(link);
        over_call(graph, found, number, calls, link - 1, ends, target)?;
        link = ends.same;
    }
    Ok(())
}

/// Returns from an exit to each call at a point that has entered its function in its state.
fn back_to(
    graph: &Graph,
    found: &mut Found,
    number: u32,
    ends: Place,
    caller: PointId,
    target: FnId,
) -> Result<(), OutOfMemory>
    requires sound { IsSound graph.now }
    requires ready { IsReady graph.now found.old.places.items found.old.last.items }
    requires at { IsAt found.old.places.items number ends }
    requires target { MayEnter graph.now caller.0 target.0 }
    requires caller { caller.0 < point_count graph.now }
    requires exit { ends.point.0 ≡ exit_of graph.now target.0 }
    ensures grows { OnOk result (Grows graph.now found.old.places.items found.new.places.items found.new.last.items) }
    ensures callers { OnOk result (HasCallers graph.now found.old.places.items found.new.places.items ends caller.0 0) }
{
    let mut link = found.last_link(caller);
    'links: while link > 0 {
        let calls = found.linked(link);
        over_call(graph, found, link - 1, calls, number, ends, target)?;
        link = calls.same;
    }
    Ok(())
}

/// Passes on what a call place has, to each function that it may enter and back.
fn pass_call(graph: &Graph, found: &mut Found, number: u32, calls: Place) -> Result<(), OutOfMemory>
    requires sound { IsSound graph.now }
    requires ready { IsReady graph.now found.old.places.items found.old.last.items }
    requires at { IsAt found.old.places.items number calls }
    requires call { IsCall graph.now calls.point.0 }
    ensures grows { OnOk result (Grows graph.now found.old.places.items found.new.places.items found.new.last.items) }
    ensures passed { OnOk
        result
        ((target : ℕ) → MayEnter graph.now calls.point.0 target →
        HasCalled graph.now found.old.places.items found.new.places.items calls target) }
{
    let targets = graph.targets(calls.point);
    for target in targets {
        call_one(graph, found, number, calls, *target)?;
    }
    Ok(())
}

/// Enters one function and goes over the call of it.
fn call_one(
    graph: &Graph,
    found: &mut Found,
    number: u32,
    calls: Place,
    target: FnId,
) -> Result<(), OutOfMemory>
    requires sound { IsSound graph.now }
    requires ready { IsReady graph.now found.old.places.items found.old.last.items }
    requires at { IsAt found.old.places.items number calls }
    requires target { MayEnter graph.now calls.point.0 target.0 }
    ensures grows { OnOk result (Grows graph.now found.old.places.items found.new.places.items found.new.last.items) }
    ensures passed { OnOk result (HasCalled graph.now found.old.places.items found.new.places.items calls target.0) }
{
    into_call(graph, found, number, calls, target)?;
    over_exits(graph, found, number, calls, target)?;
    Ok(())
}

/// Returns from an exit to each call that has entered its function in its state. `callers` are the
/// points that may enter the function.
fn pass_exit(
    graph: &Graph,
    found: &mut Found,
    number: u32,
    ends: Place,
    target: FnId,
    callers: &[PointId],
) -> Result<(), OutOfMemory>
    requires sound { IsSound graph.now }
    requires ready { IsReady graph.now found.old.places.items found.old.last.items }
    requires at { IsAt found.old.places.items number ends }
    requires exit { ends.point.0 ≡ exit_of graph.now target.0 }
    requires callers { AreCallersOf graph.now target.0 callers.now }
    ensures grows { OnOk result (Grows graph.now found.old.places.items found.new.places.items found.new.last.items) }
    ensures back { OnOk
        result
        ((caller : ℕ) → MayEnter graph.now caller target.0 →
        HasCallers graph.now found.old.places.items found.new.places.items ends caller 0) }
{
    for caller in callers {
        back_to(graph, found, number, ends, *caller, target)?;
    }
    Ok(())
}

/// Passes on what an act leads to.
fn pass_act(
    graph: &Graph,
    found: &mut Found,
    number: u32,
    place: Place,
    op: Op,
) -> Result<(), OutOfMemory>
    requires sound { IsSound graph.now }
    requires ready { IsReady graph.now found.old.places.items found.old.last.items }
    requires at { IsAt found.old.places.items number place }
    requires act { IsActOf graph.now place.point.0 op }
    ensures grows { OnOk result (Grows graph.now found.old.places.items found.new.places.items found.new.last.items) }
    ensures act { OnOk
        result
        ((next : StateOf) → Leads graph.now place.point.0 place.to next →
        HasNext graph.now found.new.places.items place next) }
{
    match act(op, place.to) {
        Outcome::Next(next) => along_edges(graph, found, number, place, next)?,
        _ => {}
    }
    Ok(())
}

/// Passes on what a place has, by the kind of its point.
fn pass_on(
    graph: &Graph,
    found: &mut Found,
    number: u32,
    place: Place,
    callers: &[PointId],
) -> Result<(), OutOfMemory>
    requires sound { IsSound graph.now }
    requires ready { IsReady graph.now found.old.places.items found.old.last.items }
    requires at { IsAt found.old.places.items number place }
    requires callers { AreCallersOf graph.now (function_of graph.now place) callers.now }
    ensures grows { OnOk result (Grows graph.now found.old.places.items found.new.places.items found.new.last.items) }
    ensures passed { OnOk result (HasPassed graph.now found.old.places.items found.new.places.items place) }
{
    match graph.kind(place.point) {
        PointKind::Plain => along_edges(graph, found, number, place, place.to)?,
        PointKind::Act(op, _) => pass_act(graph, found, number, place, *op)?,
        PointKind::Call(_) => pass_call(graph, found, number, place)?,
        PointKind::Exit => {
            pass_exit(
                graph,
                found,
                number,
                place,
                graph.function(place.point),
                callers,
            )?
        }
    }
    Ok(())
}

/// All places that walks from the roots reach, each with its reason. The table says which points may
/// enter a function. It is want of memory if the number of a place or a root wouldn't fit.
pub(crate) fn search_from(
    alloc: Global,
    graph: &Graph,
    roots: &[Root],
    table: &Table,
) -> Result<Found, OutOfMemory>
    requires roots { All (λ root. root.function.0 < function_count graph.now) roots.now }
    requires table { IsMadeFor graph.now table.now }
    ensures ready { IfOk result (λ found. IsReady graph.now found.places.items found.last.items) }
    ensures justified { IfOk result (λ found. AreJustified graph.now roots.now found.places.items) }
    ensures all { IfOk
        result
        (λ found. (p : ℕ) (i j : StateOf) → ReachesPair graph.now roots.now p i j → HasPlace found.places.items p i j) }
{
    let _points = graph.points();
    let mut found = Found::new(alloc, graph)?;
    enter_roots(graph, roots, &mut found)?;
    for number in 0..u32::MAX {
        if number as usize >= found.places.len() {
            return Ok(found);
        }
        pass_next(graph, &mut found, number, table)?;
    }
    Err(OutOfMemory)
}

/// Enters each root's function in the root's state.
fn enter_roots(graph: &Graph, roots: &[Root], found: &mut Found) -> Result<(), OutOfMemory>
    requires sound { IsSound graph.now }
    requires roots { All (λ root. root.function.0 < function_count graph.now) roots.now }
    requires ready { IsReady graph.now found.old.places.items found.old.last.items }
    requires none { length found.old.places.items ≡ 0 }
    ensures ready { OnOk result (IsReady graph.now found.new.places.items found.new.last.items) }
    ensures justified { OnOk result (AreJustified graph.now roots.now found.new.places.items) }
    ensures entered { OnOk result (HasRoots graph.now roots.now (HasPlace found.new.places.items)) }
{
    for k in 0..roots.len() {
        if k > u32::MAX as usize {
            return Err(OutOfMemory);
        }
        let root = roots[k];
        found.add(
            graph.first(root.function),
            root.start,
            root.start,
            Reason::AtRoot(k as u32),
        )?;
    }
    Ok(())
}

/// Passes on what the place of this number has.
fn pass_next(
    graph: &Graph,
    found: &mut Found,
    number: u32,
    table: &Table,
) -> Result<(), OutOfMemory>
    requires sound { IsSound graph.now }
    requires ready { IsReady graph.now found.old.places.items found.old.last.items }
    requires there { number < length found.old.places.items }
    requires table { IsMadeFor graph.now table.now }
    ensures grows { OnOk result (Grows graph.now found.old.places.items found.new.places.items found.new.last.items) }
    ensures closed { OnOk
        result
        (IsClosedBelow graph.now found.old.places.items number →
        IsClosedBelow graph.now found.new.places.items (number + 1)) }
{
    let place = found.places[number as usize];
    let function = graph.function(place.point);
    pass_on(graph, found, number, place, table.callers(function))?;
    Ok(())
}
