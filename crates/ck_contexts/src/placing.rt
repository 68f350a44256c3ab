//! Synthetic functions, placed in a graph after all others.
ghost use Rattle.std.specs.Prelude.{
  ◌≡◌,
  ◌+◌,
  ◌*◌,
  ◌<◌,
  ◌≤◌,
  ◌^◌,
  ◌++◌,
  length,
  map,
  All,
  IfOk,
  OnOk,
};
ghost use Rattle.ck_graph.specs.Faults.{IsSound};
ghost use Rattle.ck_graph.specs.Flow.{flow_of, point_of, point_count, function_count};
ghost use Rattle.ck_contexts.specs.Extended as spec;
ghost use Rattle.ck_contexts.specs.Laws.{RunsFunctions};
ghost use Rattle.ck_contexts.specs.Within.{LeadsWithin};
ghost use Rattle.ck_contexts.specs.Synthetic as synthetic;

use crate::contexts::Context;
use crate::drawing::steps;
use crate::steps::Step;
use ck_base::{FnId, OutOfMemory, PointId, Spot};
use ck_graph::{Edge, FunctionPart, Graph, Label, Parts, PointKind, PointPart, checked};
use std::alloc::Global;

/// Which of the points of its place a point of a synthetic function is: the one before.
const BEFORE: u8 = 1;

/// Where a synthetic function is in the graph: its number, the numbers of its first point and of its exit, and
/// the place in the text of its points.
#[derive(Clone, Copy)]
pub struct Placing {
    pub function: FnId,
    pub first: u32,
    pub exit: u32,
    pub site: Spot,
}

/// The graph of these parts, with the synthetic functions of the contexts after all others, in their order
/// (docs/FLOW.md, "Entries"). The numbers of their calls go on from `calls`, the number of the project's own.
///
/// The parts have no fault, and the contexts run functions of theirs. `contexts_add_few` says how many points
/// and functions there are then. It fails where memory runs out, and for no other cause.
pub fn extended(
    alloc: Global,
    parts: Parts,
    calls: u32,
    contexts: &[Context],
) -> Result<Graph, OutOfMemory>
    requires sound { IsSound (flow_of parts) }
    requires run { All (RunsFunctions (flow_of parts)) contexts.now }
    requires points { calls + point_count (spec.extended calls (flow_of parts) contexts.now) < 2 ^ 32 }
    requires functions { function_count (spec.extended calls (flow_of parts) contexts.now) < 2 ^ 32 }
    ensures { IfOk result (λ graph. graph ≡ spec.extended calls (flow_of parts) contexts.now) }
{
    match checked(with_contexts(alloc, parts, calls, contexts)?) {
        Ok(graph) => Ok(graph),
        Err(_) => unreachable!(),
    }
}

/// The parts with the synthetic functions of the contexts.
fn with_contexts(
    alloc: Global,
    parts: Parts,
    calls: u32,
    contexts: &[Context],
) -> Result<Parts, OutOfMemory>
    requires points { calls + point_count (spec.extended calls (flow_of parts) contexts.now) < 2 ^ 32 }
    requires functions { function_count (spec.extended calls (flow_of parts) contexts.now) < 2 ^ 32 }
    ensures { IfOk result (λ whole. flow_of whole ≡ spec.extended calls (flow_of parts) contexts.now) }
{
    let mut parts = parts;
    let mut number = calls;
    for context in contexts {
        add_context(alloc, &mut parts, number, context)?;
        number += context.function_count();
    }
    Ok(parts)
}

/// Adds the synthetic function of a context, whose first call has this number.
fn add_context(
    alloc: Global,
    parts: &mut Parts,
    number: u32,
    context: &Context,
) -> Result<(), OutOfMemory>
    requires calls { number + length (synthetic.steps number context.now) < 2 ^ 32 }
    requires points { point_count (flow_of parts.old) + length (synthetic.steps number context.now) < 2 ^ 32 }
    requires functions { function_count (flow_of parts.old) < 2 ^ 32 }
    ensures { OnOk result (flow_of parts.new ≡ spec.with_context number (flow_of parts.old) context.now) }
{
    let steps = steps(alloc, number, context)?;
    let first = parts.points.len() as u32;
    let exit = first + steps.len() as u32;
    let at = Placing {
        function: FnId(parts.functions.len() as u32),
        first,
        exit,
        site: context.site(),
    };
    add_points(alloc, &mut parts.points, at, &steps)?;
    parts.functions.push(FunctionPart {
        first: PointId(first),
        exit: PointId(exit),
    })?;
    Ok(())
}

/// Adds the points of steps, and the exit after them.
fn add_points(
    alloc: Global,
    points: &mut Vec<PointPart>,
    at: Placing,
    steps: &[Step],
) -> Result<(), OutOfMemory>
    requires few { length steps.now < 2 ^ 32 }
    requires within { All (LeadsWithin at) steps.now }
    ensures { OnOk
        result
        (map point_of points.new.items ≡ map point_of points.old.items ++ spec.points_from at 0 steps.now) }
{
    for (place, step) in steps.iter().enumerate() {
        points.push(point_of_step(alloc, at, place as u32, *step)?)?;
    }
    let exit = steps.len() as u32;
    points.push(point(
        alloc,
        at,
        exit,
        PointKind::Exit,
        Vec::new(alloc),
        Vec::new(alloc),
    )?)?;
    Ok(())
}

/// The point of a step at a place of the function.
fn point_of_step(
    alloc: Global,
    at: Placing,
    place: u32,
    step: Step,
) -> Result<PointPart, OutOfMemory>
    requires { LeadsWithin at step }
    ensures { IfOk result (λ part. point_of part ≡ spec.point_of_step at place step) }
{
    match step {
        Step::Act(op, name, next) => {
            let edges = Vec::from_slice(alloc, &[edge(at, next, Label::Plain)])?;
            point(
                alloc,
                at,
                place,
                PointKind::Act(op, name),
                edges,
                Vec::new(alloc),
            )
        }
        Step::Call(number, function, next) => {
            let edges = Vec::from_slice(alloc, &[edge(at, next, Label::Plain)])?;
            let targets = Vec::from_slice(alloc, &[function])?;
            point(alloc, at, place, PointKind::Call(number), edges, targets)
        }
        Step::Pick {
            after,
            part,
            size,
            functions,
        } => {
            let mut edges = Vec::from_slice(alloc, &[edge(at, after, Label::Pick(0))])?;
            add_picks(&mut edges, at, part, size, functions)?;
            point(alloc, at, place, PointKind::Plain, edges, Vec::new(alloc))
        }
    }
}

/// Adds the edges to the parts of so many functions. A part has `size` points, and the first is at `part`.
fn add_picks(
    edges: &mut Vec<Edge>,
    at: Placing,
    part: u32,
    size: u32,
    functions: u32,
) -> Result<(), OutOfMemory>
    requires { at.first + (part + size * functions) ≤ at.exit }
    ensures { OnOk result (edges.new.items ≡ edges.old.items ++ spec.picks at 1 part size functions) }
{
    let mut place = part;
    for k in 0..functions {
        edges.push(edge(at, place, Label::Pick(k + 1)))?;
        place += size;
    }
    Ok(())
}

/// The edge to a place of the function.
fn edge(at: Placing, place: u32, label: Label) -> Edge
    requires { at.first + place ≤ at.exit }
    ensures { result ≡ spec.edge at place label }
{
    Edge {
        to: PointId(at.first + place),
        label,
    }
}

/// The point at a place of the function.
fn point(
    alloc: Global,
    at: Placing,
    place: u32,
    kind: PointKind,
    edges: Vec<Edge>,
    targets: Vec<FnId>,
) -> Result<PointPart, OutOfMemory>
    ensures { IfOk result (λ part. point_of part ≡ spec.point at place kind edges.items targets.items) }
{
    Ok(PointPart {
        kind,
        function: at.function,
        site: at.site,
        path: Vec::from_slice(alloc, &[place])?,
        order: Vec::new(alloc),
        side: BEFORE,
        edges,
        targets,
    })
}
