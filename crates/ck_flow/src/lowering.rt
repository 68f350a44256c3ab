//! From the tables of a typed project to the parts of its graph.
ghost use Rattle.std.specs.Prelude.{◌≡◌, ◌<◌, length, Some, None, IfOk, OnOk, slice_get};
ghost use Rattle.ck_base.specs.declared.refusals.Refusal.{Refusal};
ghost use Rattle.ck_drafts.specs.Drafts.{AreDrafts, AreDraftsOf};
ghost use Rattle.ck_flow.specs.PointLimit.{IsPastLimit};
ghost use Rattle.ck_flow.specs.SoundParts.{AreSound};
ghost use Rattle.ck_graph.specs.Flow.{flow_of};
ghost use Rattle.ck_kinds.specs.KindedDrafts.{flow_program};
ghost use Rattle.ck_call_rows.specs.TypedRows.{AreTypedCalls};
ghost use Rattle.ck_points.specs.Graphs.{IsGraph, passing_limit};
ghost use Rattle.ck_prog.specs.TypedBodies.{TypedFunction};
ghost use Rattle.ck_tables.specs.Program.{functions};

use ck_base::{Fault, FnId, OutOfMemory, Refusal, Spot, Unsupported};
use ck_bodies::function_points;
use ck_counts::counts;
use ck_drafts::Draft;
use ck_graph::Parts;
use ck_kinds::drafts_of;
use ck_numbering::{function_past_limit, graph_of};
use ck_points::graphs_are_sound;
use ck_tables::Program;
use std::alloc::Global;

/// The parts of the graph of a project's functions (docs/FLOW.md). Calls have no targets yet.
///
/// The rows of calls are those of a typed project. A project with more than 400,000 points is refused (U20), at the
/// name of the function with which their sum passes that. The only other error is want of memory, which is met too
/// where there are 2^32 functions, or calls that are no acts, or more.
pub fn lower(alloc: Global, program: &Program) -> Result<Parts, Fault>
    requires { AreTypedCalls program.now.linked program.now.rows }
    ensures graph { IfOk result (λ parts.
        IsGraph (flow_program program.now.linked program.now.rows) (flow_of parts)) }
    ensures sound { IfOk result AreSound }
    ensures limit { IfOk result (λ parts. passing_limit (functions program.now.linked) ≡ None) }
    ensures refused { (refusal : Refusal) → result ≡ Err (Fault.Unsupported refusal) →
        IsPastLimit (functions program.now.linked) refusal }
{
    let count = function_count(program)?;
    keep_limit(alloc, program, count)?;
    let parts = graph_within_limit(alloc, program, count)?;
    Ok(parts)
}

/// How many functions have a body. Numbers of functions have 32 bits.
fn function_count(program: &Program) -> Result<u32, OutOfMemory>
    ensures { IfOk result (λ count. count ≡ length (functions program.now.linked)) }
{
    match u32::try_from(program.functions()) {
        Ok(count) => Ok(count),
        Err(_) => Err(OutOfMemory),
    }
}

/// Refuses a project of so many functions that has more points than the limit.
fn keep_limit(alloc: Global, program: &Program, count: u32) -> Result<(), Fault>
    requires { count ≡ length (functions program.now.linked) }
    ensures kept { OnOk result (passing_limit (functions program.now.linked) ≡ None) }
    ensures refused { (refusal : Refusal) → result ≡ Err (Fault.Unsupported refusal) →
        IsPastLimit (functions program.now.linked) refusal }
{
    let counted = counts(alloc, program)?;
    match function_past_limit(counted.as_slice()) {
        Some(id) => Err(Fault::Unsupported(too_many_points(program, id))),
        None => Ok(()),
    }
}

/// The refusal of a project with more points than the limit, at the name of a function.
fn too_many_points(program: &Program, id: FnId) -> Refusal
    requires { id.0 < length program.now.linked.bodies.rows.items }
    ensures { (f : TypedFunction) → slice_get (functions program.now.linked) id.0 ≡ Some f →
        passing_limit (functions program.now.linked) ≡ Some f → IsPastLimit (functions program.now.linked) result }
{
    let name = program.function_name(id);
    Refusal {
        kind: Unsupported::U20,
        at: Spot::At(name.span),
    }
}

/// The parts of the graph of a project of so many functions that keeps the limit of points.
fn graph_within_limit(alloc: Global, program: &Program, count: u32) -> Result<Parts, OutOfMemory>
    requires typed { AreTypedCalls program.now.linked program.now.rows }
    requires count { count ≡ length (functions program.now.linked) }
    requires kept { passing_limit (functions program.now.linked) ≡ None }
    ensures graph { IfOk result (λ parts.
        IsGraph (flow_program program.now.linked program.now.rows) (flow_of parts)) }
    ensures sound { IfOk result AreSound }
{
    graphs_are_sound();
    let drafts = all_drafts(alloc, program, count)?;
    let parts = graph_of(alloc, drafts)?;
    Ok(parts)
}

/// The drafts of the points of each function, by the functions' numbers.
fn all_drafts(alloc: Global, program: &Program, count: u32) -> Result<Vec<Vec<Draft>>, OutOfMemory>
    requires typed { AreTypedCalls program.now.linked program.now.rows }
    requires count { count ≡ length (functions program.now.linked) }
    ensures { IfOk result (λ all. AreDrafts (flow_program program.now.linked program.now.rows) all.items) }
{
    let mut all = Vec::new(alloc);
    'functions: for number in 0..count {
        let drafts = function_drafts(alloc, program, FnId(number))?;
        all.push(drafts)?;
    }
    Ok(all)
}

/// The drafts of the points of a function.
fn function_drafts(alloc: Global, program: &Program, id: FnId) -> Result<Vec<Draft>, OutOfMemory>
    requires typed { AreTypedCalls program.now.linked program.now.rows }
    requires there { id.0 < length (functions program.now.linked) }
    ensures { (f : TypedFunction) → slice_get (functions program.now.linked) id.0 ≡ Some f →
        IfOk result (λ drafts.
        AreDraftsOf (flow_program program.now.linked program.now.rows) id.0 f drafts.items) }
{
    let points = function_points(alloc, program, id)?;
    let drafts = drafts_of(alloc, program, id, points)?;
    Ok(drafts)
}
