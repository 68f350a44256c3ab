//! Flow graphs by hand, whose points and functions have names.
ghost use Rattle.std.specs.Prelude.{◌<◌, ◌≤◌, ◌^◌, vec_len, length, All, IfOk};
ghost use Rattle.ck_graph.specs.Flow.{function_count};

use ck_base::{FnId, Op, PointId, Span, Spot, State};
use ck_graph::{
    ActName, Edge, Entry, FunctionPart, Graph, Label, Parts, PointKind, PointPart, Root, Roots,
    checked,
};
use std::alloc::{AllocError, Global};
use std::test::Fail;

/// The most points, edges of a point and functions of a drawing.
const MOST: usize = 100;

/// What happens at a point.
#[derive(Clone, Copy)]
pub enum What {
    Plain,
    Act(Op),
    Call,
    Exit,
}

/// A name for a point, what happens there, its function, its offset in the text (0: nowhere), the
/// points to which its edges lead, and its targets.
pub type Sketch = (
    &'static str,
    What,
    &'static str,
    u32,
    &'static [&'static str],
    &'static [&'static str],
);

/// A graph by hand: its points, and its functions, each with its first point and its exit.
#[derive(Clone, Copy)]
pub struct Drawing {
    pub points: &'static [Sketch],
    pub functions: &'static [(&'static str, &'static str, &'static str)],
}

/// The number of the point of this name, or of no point where the drawing has none.
pub fn point_named(drawing: &Drawing, name: &str) -> PointId {
    let mut number = 0u32;
    for point in drawing.points {
        if point.0 == name {
            return PointId(number);
        }
        number = number.saturating_add(1);
    }
    PointId(number)
}

/// The number of the function of this name, or of no function where the drawing has none.
pub fn function_named(drawing: &Drawing, name: &str) -> FnId {
    let mut number = 0u32;
    for function in drawing.functions {
        if function.0 == name {
            return FnId(number);
        }
        number = number.saturating_add(1);
    }
    FnId(number)
}

fn edges_to(alloc: Global, drawing: &Drawing, names: &[&str]) -> Result<Vec<Edge>, AllocError>
    ensures { IfOk result (λ edges. vec_len edges ≤ 100) }
{
    let mut edges = Vec::new(alloc);
    for name in names {
        if edges.len() < MOST {
            edges.push(Edge {
                to: point_named(drawing, name),
                label: Label::Plain,
            })?;
        }
    }
    Ok(edges)
}

fn targets_of(alloc: Global, drawing: &Drawing, names: &[&str]) -> Result<Vec<FnId>, AllocError> {
    let mut functions = Vec::new(alloc);
    for name in names {
        functions.push(function_named(drawing, name))?;
    }
    Ok(functions)
}

fn spot_at(offset: u32) -> Spot {
    if offset == 0 {
        return Spot::Nowhere;
    }
    Spot::At(Span {
        file: 0,
        start: offset,
        end: offset,
    })
}

/// The point of a sketch, which is the point of this number.
fn point_of(
    alloc: Global,
    drawing: &Drawing,
    number: u32,
    sketch: &Sketch,
) -> Result<PointPart, AllocError>
    ensures { IfOk result (λ part. vec_len part.edges < 2 ^ 32) }
{
    let (_, what, function, site, to, targets) = *sketch;
    let kind = match what {
        What::Plain => PointKind::Plain,
        What::Act(op) => PointKind::Act(op, ActName::Outside(number)),
        What::Call => PointKind::Call(number),
        What::Exit => PointKind::Exit,
    };
    Ok(PointPart {
        kind,
        function: function_named(drawing, function),
        site: spot_at(site),
        path: Vec::from_slice(alloc, &[number])?,
        order: Vec::new(alloc),
        side: 1,
        edges: edges_to(alloc, drawing, to)?,
        targets: targets_of(alloc, drawing, targets)?,
    })
}

/// The parts of a drawing.
pub fn parts_of(alloc: Global, drawing: &Drawing) -> Result<Parts, AllocError>
    ensures points { IfOk result (λ parts. vec_len parts.points < 2 ^ 32) }
    ensures functions { IfOk result (λ parts. vec_len parts.functions < 2 ^ 32) }
    ensures edges { IfOk result (λ parts. All (λ part. vec_len part.edges < 2 ^ 32) parts.points.items) }
{
    let mut points = Vec::new(alloc);
    for sketch in drawing.points {
        if points.len() < MOST {
            let number = points.len() as u32;
            points.push(point_of(alloc, drawing, number, sketch)?)?;
        }
    }
    let mut functions = Vec::new(alloc);
    for (_, first, exit) in drawing.functions {
        if functions.len() < MOST {
            functions.push(FunctionPart {
                first: point_named(drawing, first),
                exit: point_named(drawing, exit),
            })?;
        }
    }
    Ok(Parts { points, functions })
}

/// The graph of a drawing that has no fault.
pub fn graph_of(alloc: Global, drawing: &Drawing) -> Result<Graph, Fail> {
    Ok(checked(parts_of(alloc, drawing)?).ok().ok_or("a fault")?)
}

/// Roots that enter these functions in these states, of which those count whose function the graph
/// has.
pub fn roots_of(
    alloc: Global,
    drawing: &Drawing,
    graph: &Graph,
    starts: &[(&str, State)],
) -> Result<Roots, AllocError>
    ensures { IfOk result (λ roots. All (λ root. root.function.0 < function_count graph.now) roots.list.items) }
{
    let mut list = Vec::new(alloc);
    for (name, start) in starts {
        let function = function_named(drawing, name);
        if function.0 < graph.functions() {
            list.push(Root {
                entry: Entry::Main,
                function,
                start: *start,
            })?;
        }
    }
    Ok(Roots { list })
}
