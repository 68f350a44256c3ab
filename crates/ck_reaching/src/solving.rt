//! The least table that the rules allow: a worklist of cells, each of which passes on what reaches it, until nothing is
//! new anywhere.
ghost use Rattle.std.specs.Prelude.{
  ◌≡◌,
  ◌<◌,
  ◌+◌,
  ◌/◌,
  ℕ,
  length,
  Contains,
  IfOk,
  OnOk,
  slice_get,
  Some,
};
ghost use Rattle.ck_reaching.specs.Rules.{IsOfKind, function_count, width};
ghost use Rattle.ck_reaching.specs.Reaching.{Reaches, IsTarget};
ghost use Rattle.ck_reaching.specs.Reached.{Holds, IsSolution};
ghost use Rattle.ck_reaching.specs.Growth.{IsSized};
ghost use Rattle.ck_reaching.specs.Solving.{
  IsWorkOf,
  AreFlows,
  AreCalls,
  AreConnected,
  Advances,
  Connects,
  ConnectsCalls,
  ConnectsBelow,
  ConnectsNew,
  IsConnected,
  IsLook,
  IsClosedBut,
  IsSettled,
  HasNames,
};

use crate::index::Index;
use crate::known::Known;
use crate::reached::Reached;
use crate::rules::{Call, CallId, CellId, Rules};
use crate::sets::FnSet;
use crate::work::Work;
use crate::worklist::Worklist;
use ck_base::{FnId, OutOfMemory};
use std::alloc::Global;

/// Which functions reach which cells by these rules: exactly those of `Reaches`.
pub fn solve(alloc: Global, rules: &Rules) -> Result<Reached, OutOfMemory>
    ensures { IfOk result (IsSolution rules.now) }
{
    let calls = calls_of(alloc, rules)?;
    let mut seen = Reached::new(alloc, rules.cells(), rules.functions())?;
    let mut work = work_of(alloc, rules)?;
    enter_names(rules, &mut work)?;
    settle(rules, &calls, &mut seen, &mut work)?;
    let Work { known, .. } = work;
    let Known { reached, .. } = known;
    Ok(reached)
}

/// Looks at listed cells until none is.
fn settle(
    rules: &Rules,
    calls: &Index,
    seen: &mut Reached,
    work: &mut Work,
) -> Result<(), OutOfMemory>
    requires work { IsWorkOf rules.now work.old }
    requires calls { AreCalls rules.now calls.now }
    requires seen { IsSized rules.now.cells (width rules.now) seen.old }
    requires connected { AreConnected rules.now seen.old work.old.edges }
    requires closed { IsClosedBut rules.now work.old }
    ensures { OnOk result (IsSettled rules.now work.old work.new) }
{
    'looks: while let Some(number) = work.known.listed.take() {
        look(rules, calls, seen, work, CellId(number))?;
    }
    Ok(())
}

/// For each cell, the calls through it.
fn calls_of(alloc: Global, rules: &Rules) -> Result<Index, OutOfMemory>
    ensures { IfOk result (AreCalls rules.now) }
{
    let mut calls = Index::new(alloc, rules.cells())?;
    for number in 0..rules.calls() {
        calls.add(rules.call(CallId(number)).called.0, number)?;
    }
    Ok(calls)
}

/// For each cell, where what reaches it goes on by the rules' flows.
fn flows_of(alloc: Global, rules: &Rules) -> Result<Index, OutOfMemory>
    ensures { IfOk result (AreFlows rules.now) }
{
    let mut edges = Index::new(alloc, rules.cells())?;
    for flow in rules.flows() {
        edges.add(flow.from.0, flow.to.0)?;
    }
    Ok(edges)
}

/// The work before any function is known to reach a cell.
fn work_of(alloc: Global, rules: &Rules) -> Result<Work, OutOfMemory>
    ensures work { IfOk result (IsWorkOf rules.now) }
    ensures flows { IfOk result (λ work. AreFlows rules.now work.edges) }
    ensures empty { IfOk result (λ work. (c f : ℕ) → Holds work.known.reached c f → ⊥) }
{
    let edges = flows_of(alloc, rules)?;
    let reached = Reached::new(alloc, rules.cells(), rules.functions())?;
    let listed = Worklist::new(alloc, rules.cells())?;
    let scratch = FnSet::new(alloc, rules.functions())?;
    Ok(Work {
        known: Known { reached, listed },
        edges,
        scratch,
    })
}

/// Enters each function where it is named.
fn enter_names(rules: &Rules, work: &mut Work) -> Result<(), OutOfMemory>
    requires work { IsWorkOf rules.now work.old }
    ensures { OnOk result (HasNames rules.now work.old work.new) }
{
    for name in rules.names() {
        work.known.reached.insert(name.to, name.function);
        work.known.listed.put(name.to.0)?;
    }
    Ok(())
}

/// Looks at a cell where something is new: its calls get the targets that are new, and what reaches the cell is passed
/// on along its edges.
fn look(
    rules: &Rules,
    calls: &Index,
    seen: &mut Reached,
    work: &mut Work,
    cell: CellId,
) -> Result<(), OutOfMemory>
    requires work { IsWorkOf rules.now work.old }
    requires calls { AreCalls rules.now calls.now }
    requires seen { IsSized rules.now.cells (width rules.now) seen.old }
    requires connected { AreConnected rules.now seen.old work.old.edges }
    requires cell { cell.0 < rules.now.cells }
    ensures { OnOk result (IsLook rules.now cell.0 seen.new work.old work.new) }
{
    connect_new(rules, calls, seen, work, cell)?;
    work.spread(cell)
}

/// Connects the calls through a cell, if there are any, with those functions that were not seen there before.
fn connect_new(
    rules: &Rules,
    calls: &Index,
    seen: &mut Reached,
    work: &mut Work,
    cell: CellId,
) -> Result<(), OutOfMemory>
    requires work { IsWorkOf rules.now work.old }
    requires calls { AreCalls rules.now calls.now }
    requires seen { IsSized rules.now.cells (width rules.now) seen.old }
    requires connected { AreConnected rules.now seen.old work.old.edges }
    requires cell { cell.0 < rules.now.cells }
    ensures { OnOk result (ConnectsNew rules.now cell.0 seen.new work.old work.new) }
{
    if calls.at(cell.0).is_empty() {
        return Ok(());
    }
    connect_functions(rules, calls, seen, work, cell)
}

/// Connects the calls through a cell with those functions that were not seen there before.
fn connect_functions(
    rules: &Rules,
    calls: &Index,
    seen: &mut Reached,
    work: &mut Work,
    cell: CellId,
) -> Result<(), OutOfMemory>
    requires work { IsWorkOf rules.now work.old }
    requires calls { AreCalls rules.now calls.now }
    requires seen { IsSized rules.now.cells (width rules.now) seen.old }
    requires connected { AreConnected rules.now seen.old work.old.edges }
    requires cell { cell.0 < rules.now.cells }
    ensures { OnOk result (ConnectsBelow rules.now cell.0 (function_count rules.now) seen.new work.old work.new) }
{
    let functions = rules.functions();
    let mut number = 0;
    'functions: while let Some(function) = work.known.reached.next(cell, number, functions) {
        connect_if_new(rules, calls, seen, work, cell, function)?;
        number = function.0 + 1;
    }
    Ok(())
}

/// Connects the calls through a cell with a function, if it reaches the cell and was not seen there before.
fn connect_if_new(
    rules: &Rules,
    calls: &Index,
    seen: &mut Reached,
    work: &mut Work,
    cell: CellId,
    function: FnId,
) -> Result<(), OutOfMemory>
    requires work { IsWorkOf rules.now work.old }
    requires calls { AreCalls rules.now calls.now }
    requires seen { IsSized rules.now.cells (width rules.now) seen.old }
    requires connected { AreConnected rules.now seen.old work.old.edges }
    requires cell { cell.0 < rules.now.cells }
    requires function { function.0 < function_count rules.now }
    ensures advances { OnOk result (Advances rules.now work.old work.new) }
    ensures sized { OnOk result (IsSized rules.now.cells (width rules.now) seen.new) }
    ensures connected { OnOk result (AreConnected rules.now seen.new work.new.edges) }
    ensures kept { OnOk result ((c f : ℕ) → Holds seen.old c f → Holds seen.new c f) }
    ensures met { OnOk result (Holds work.old.known.reached cell.0 function.0 → Holds seen.new cell.0 function.0) }
{
    if !work.known.reached.reaches(cell, function) {
        return Ok(());
    }
    if seen.reaches(cell, function) {
        return Ok(());
    }
    connect_calls(rules, calls.at(cell.0), work, function)?;
    seen.insert(cell, function);
    Ok(())
}

/// Connects those of some calls that may call a function with it.
fn connect_calls(
    rules: &Rules,
    calls: &[u32],
    work: &mut Work,
    function: FnId,
) -> Result<(), OutOfMemory>
    requires work { IsWorkOf rules.now work.old }
    requires calls { (k : ℕ) → Contains calls.now k →
        (call : Call) × (slice_get rules.now.calls k ≡ Some call) × Reaches rules.now call.called.0 function.0 }
    requires function { function.0 < function_count rules.now }
    ensures { OnOk result (ConnectsCalls rules.now calls.now function.0 work.old work.new) }
{
    for number in calls {
        connect_if_target(rules, rules.call(CallId(*number)), work, function)?;
    }
    Ok(())
}

/// Connects a call with a function that reaches the called cell, if the function is of the call's kind.
fn connect_if_target(
    rules: &Rules,
    call: &Call,
    work: &mut Work,
    function: FnId,
) -> Result<(), OutOfMemory>
    requires work { IsWorkOf rules.now work.old }
    requires call { Contains rules.now.calls call.now }
    requires reaches { Reaches rules.now call.now.called.0 function.0 }
    requires function { function.0 < function_count rules.now }
    ensures advances { OnOk result (Advances rules.now work.old work.new) }
    ensures connected { OnOk result
        (IsOfKind rules.now call.now.kind.0 function.0 → IsConnected rules.now work.new.edges call.now function.0) }
{
    if !rules.is_of_kind(function, call.kind) {
        return Ok(());
    }
    connect(rules, call, work, function)
}

/// Connects a call with one of its targets: each argument with the parameter of its place, and the result of the
/// target with that of the call.
fn connect(rules: &Rules, call: &Call, work: &mut Work, function: FnId) -> Result<(), OutOfMemory>
    requires work { IsWorkOf rules.now work.old }
    requires call { Contains rules.now.calls call.now }
    requires target { IsTarget rules.now call.now function.0 }
    requires function { function.0 < function_count rules.now }
    ensures { OnOk result (Connects rules.now call.now function.0 work.old work.new) }
{
    let callee = rules.callee(function);
    let places = call.arguments.len().min(callee.parameters.len());
    'places: for place in 0..places {
        work.add_edge_if_any(call.arguments[place], callee.parameters[place])?;
    }
    work.add_edge_if_any(callee.result, call.result)
}
