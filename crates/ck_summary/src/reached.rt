//! The alarms that a solved table has, in the order of a report.
ghost use Rattle.std.specs.Prelude.{◌≡◌, ◌<◌, List, IfOk, OnOk, MatchOption};
ghost use Rattle.ck_base.specs.declared.states.Kind.{Kind};
ghost use Rattle.ck_graph.specs.declared.entries.Root.{Root};
ghost use Rattle.ck_graph.specs.Flow.{point_at};
ghost use Rattle.ck_graph.specs.Forbidden.{
  AreAlarms,
  alarm_cmp,
  place_cmp,
  kind_cmp,
  class_of,
  number_of,
  offset_of,
};
ghost use Rattle.ck_summary.specs.Solution.{IsMadeFor, IsSolution};

use crate::states::{STATES, is_reached, state_of};
use crate::table::Table;
use ck_base::{Kind, Op, OutOfMemory, PointId, Spot};
use ck_graph::{Graph, PointKind};
use ck_rows::Rows;
use ck_states::{Outcome, act};
use std::alloc::Global;
use std::cmp::Ordering;

/// An alarm that a walk reaches: its point, which is an act, and its kind.
#[derive(Clone, Copy, Debug, PartialEq, Eq)]
pub struct AlarmAt {
    pub point: PointId,
    pub kind: Kind,
}

ghost use Rattle.ck_summary.specs.Alarms.{alarm_of, alarms_of, AreFound, AddsAlarms, RaisesIn, IsInOrder};

/// All alarms that walks from the roots reach, each once, where `solve` gave this table for this graph
/// and some roots.
///
/// They come in the order of a report: by the number of the point's function, by the place of its site
/// in the file (0 where it has none), by the orders round it, by its number, and by kind: SV#1 to
/// SV#11, the priority order violation, P#1 to P#8.
pub fn alarms(alloc: Global, graph: &Graph, table: &Table) -> Result<Vec<AlarmAt>, OutOfMemory>
    requires { IsMadeFor graph.now table.now }
    ensures { IfOk
        result
        (λ alarms. (roots : List Root) → IsSolution graph.now roots table.now.rows
        → AreAlarms graph.now roots (alarms_of alarms.items)) }
{
    let mut found = alarms_found(alloc, graph, table)?;
    put_in_order(graph, &mut found)?;
    Ok(found)
}

/// The alarms of all points. One that several states raise is there several times.
fn alarms_found(alloc: Global, graph: &Graph, table: &Table) -> Result<Vec<AlarmAt>, OutOfMemory>
    requires { IsMadeFor graph.now table.now }
    ensures { IfOk result (λ found. AreFound graph.now table.now.rows found.items) }
{
    let mut found = Vec::new(alloc);
    for number in 0..graph.points() {
        let point = PointId(number);
        if let PointKind::Act(op, _) = graph.kind(point) {
            add_alarms(&mut found, point, *op, table.rows(point))?;
        }
    }
    Ok(found)
}

/// Adds the alarms that an op raises at a point, one for each state there in which it does.
fn add_alarms(
    found: &mut Vec<AlarmAt>,
    point: PointId,
    op: Op,
    rows: &Rows,
) -> Result<(), OutOfMemory>
    ensures { OnOk result (AddsAlarms op rows.now point.0 found.old.items found.new.items) }
{
    for number in 0..STATES {
        if let Some(kind) = alarm_from(op, rows, number) {
            found.push(AlarmAt { point, kind })?;
        }
    }
    Ok(())
}

/// The alarm that an op raises in the state of this number, where the relation ends in it.
fn alarm_from(op: Op, rows: &Rows, number: usize) -> Option<Kind>
    requires { number < STATES }
    ensures { MatchOption result ((kind : Kind) → RaisesIn op rows.now number kind → ⊥) (RaisesIn op rows.now number) }
{
    if !is_reached(rows, number) {
        return None;
    }
    match act(op, state_of(number)) {
        Outcome::Alarm(kind) => Some(kind),
        _ => None,
    }
}

/// Sorts alarms, and leaves each once.
fn put_in_order(graph: &Graph, found: &mut Vec<AlarmAt>) -> Result<(), OutOfMemory>
    ensures { OnOk result (IsInOrder graph.now found.old.items found.new.items) }
{
    found.sort_by(|a, b| alarm_order(graph, a, b))?;
    found.dedup_by(|a, b| alarm_order(graph, a, b).is_eq());
    Ok(())
}

/// Which of two alarms comes first.
fn alarm_order(graph: &Graph, a: &AlarmAt, b: &AlarmAt) -> Ordering
    ensures { result ≡ alarm_cmp graph.now (alarm_of a.now) (alarm_of b.now) }
{
    place_order(graph, a.point, b.point)
        .then(a.point.0.cmp(&b.point.0))
        .then(kind_order(a.kind, b.kind))
}

/// Which of two points a report names first. A number that no point has is taken for a point of
/// function 0 without a site.
fn place_order(graph: &Graph, a: PointId, b: PointId) -> Ordering
    ensures { result ≡ place_cmp (point_at graph.now a.0) (point_at graph.now b.0) }
{
    function_number(graph, a)
        .cmp(&function_number(graph, b))
        .then(offset(graph, a).cmp(&offset(graph, b)))
        .then(orders(graph, a).cmp(orders(graph, b)))
}

fn function_number(graph: &Graph, point: PointId) -> u32
    ensures { result ≡ (point_at graph.now point.0).function.0 }
{
    if point.0 < graph.points() {
        graph.function(point).0
    } else {
        0
    }
}

/// Where a point's site begins in its file.
fn offset(graph: &Graph, point: PointId) -> u32
    ensures { result ≡ offset_of (point_at graph.now point.0).site }
{
    if point.0 >= graph.points() {
        return 0;
    }
    match graph.site(point) {
        Spot::At(span) => span.start,
        Spot::Nowhere | Spot::File(_) => 0,
    }
}

fn orders(graph: &Graph, point: PointId) -> &[u8]
    ensures { result.now ≡ (point_at graph.now point.0).order }
{
    if point.0 < graph.points() {
        graph.order(point)
    } else {
        &[]
    }
}

/// Which of two kinds comes first.
fn kind_order(a: Kind, b: Kind) -> Ordering
    ensures { result ≡ kind_cmp a b }
{
    class(a).cmp(&class(b)).then(number(a).cmp(&number(b)))
}

fn class(kind: Kind) -> u8
    ensures { result ≡ class_of kind }
{
    match kind {
        Kind::Sv(_) => 0,
        Kind::Order => 1,
        Kind::P(_) => 2,
    }
}

fn number(kind: Kind) -> u8
    ensures { result ≡ number_of kind }
{
    match kind {
        Kind::Sv(number) | Kind::P(number) => number,
        Kind::Order => 0,
    }
}
