//! The points of all functions.
ghost use Rattle.std.specs.Prelude.{◌≡◌, ◌<◌, ◌≤◌, ◌+◌, ◌^◌, [], ◌++◌, map, vec_len, All};
ghost use Rattle.std.specs.Prelude.{IfOk, OnOk};
ghost use Rattle.std.specs.List.{zip};
ghost use Rattle.ck_drafts.specs.Drafts.{AreDrafts, plain_draft, plain_place, plain_side};
ghost use Rattle.ck_graph.specs.Flow.{flow_of, point_of, point_count, function_count};
ghost use Rattle.ck_points.specs.Graphs.{Program, IsGraph, most_points};
ghost use Rattle.ck_points.specs.Places as places;
ghost use Rattle.ck_numbering.specs.Closed.{AreClosed};
ghost use Rattle.ck_numbering.specs.Numberable.{AreNumberable};
ghost use Rattle.ck_numbering.specs.Numbered.{AddsFunction, point_made};

use crate::links::{all_edges, number_at};
use crate::order::{side_number, sort};
use ck_base::{FnId, OutOfMemory, Spot};
use ck_drafts::{Draft, Place, Side};
use ck_graph::{Edge, FunctionPart, Parts, PointPart};
use ck_points::{edges_are_few, edges_stay, places_differ};
use std::alloc::Global;

/// The parts of the graph of a program's functions, from the drafts of their points. `drafts` are those of each
/// function, in any order, by the functions' numbers.
///
/// Points are numbered by function, path, orders and side, so that edges lead to numbers. Calls have no targets yet.
/// The program keeps the limit of points (`function_past_limit`). Such a graph has no fault
/// (`ck_points::graphs_are_sound`), and its numbers fit 32 bits, as `ck_graph::checked` wants them. The only error is
/// want of memory.
pub fn graph_of(alloc: Global, drafts: Vec<Vec<Draft>>) -> Result<Parts, OutOfMemory>
    requires { AreNumberable drafts.items }
    ensures graph { IfOk result (λ parts.
        (p : Program) → AreDrafts p drafts.items → IsGraph p (flow_of parts)) }
    ensures points { IfOk result (λ parts. vec_len parts.points ≤ most_points) }
    ensures functions { IfOk result (λ parts. vec_len parts.functions ≤ most_points) }
    ensures edges { IfOk result (λ parts. All (λ part. vec_len part.edges < 2 ^ 32) parts.points.items) }
{
    edges_are_few();
    edges_stay();
    places_differ();
    let mut parts = Parts {
        points: Vec::new(alloc),
        functions: Vec::new(alloc),
    };
    'functions: for function in drafts {
        add_function(alloc, &mut parts, function)?;
    }
    Ok(parts)
}

/// Adds the points of the next function, of which these are the drafts, and its ends.
fn add_function(alloc: Global, parts: &mut Parts, mut drafts: Vec<Draft>) -> Result<(), OutOfMemory>
    requires closed { AreClosed (map plain_draft drafts.items) }
    requires room { point_count (flow_of parts.old) + vec_len drafts < 2 ^ 32 }
    requires functions { function_count (flow_of parts.old) < 2 ^ 32 }
    ensures { OnOk result (AddsFunction (map plain_draft drafts.items) (flow_of parts.old) (flow_of parts.new)) }
{
    sort(&mut drafts)?;
    let first = parts.points.len() as u32;
    let function = FnId(parts.functions.len() as u32);
    let ends = FunctionPart {
        first: number_at(&drafts, first, &body_place(alloc, Side::Before)),
        exit: number_at(&drafts, first, &body_place(alloc, Side::After)),
    };
    let edges = all_edges(alloc, &drafts, first)?;
    add_points(alloc, &mut parts.points, function, drafts, edges)?;
    parts.functions.push(ends)?;
    Ok(())
}

/// The place of a point of a function's body.
fn body_place(alloc: Global, side: Side) -> Place
    ensures { plain_place result ≡ places.place [] [] (plain_side side) }
{
    Place {
        path: Vec::new(alloc),
        orders: Vec::new(alloc),
        side,
    }
}

/// Adds the points of a function, each with its edges.
fn add_points(
    alloc: Global,
    points: &mut Vec<PointPart>,
    function: FnId,
    drafts: Vec<Draft>,
    edges: Vec<Vec<Edge>>,
) -> Result<(), OutOfMemory>
    requires { vec_len edges ≡ vec_len drafts }
    ensures { OnOk result (
        map point_of points.new.items
        ≡ map point_of points.old.items ++ map (point_made function) (zip drafts.items edges.items)) }
{
    'drafts: for (draft, edges) in drafts.into_iter().zip(edges) {
        points.push(point_part(alloc, function, draft, edges))?;
    }
    Ok(())
}

/// A point of a function, with its edges.
fn point_part(alloc: Global, function: FnId, draft: Draft, edges: Vec<Edge>) -> PointPart
    ensures { point_of result ≡ point_made function (draft, edges) }
{
    let Draft {
        at: Place { path, orders, side },
        kind,
        site,
        edges: _places,
    } = draft;
    PointPart {
        kind,
        function,
        site: Spot::At(site),
        path,
        order: orders,
        side: side_number(side),
        edges,
        targets: Vec::new(alloc),
    }
}
