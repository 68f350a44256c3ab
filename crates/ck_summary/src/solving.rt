//! The least table that has the roots and is closed: a worklist of points, each of which passes on what
//! it has, until nothing is listed.
ghost use Rattle.std.specs.Prelude.{◌≡◌, ◌<◌, ℕ, length, All};
ghost use Rattle.ck_graph.specs.Flow.{function_count};
ghost use Rattle.ck_graph.specs.Faults.{IsSound};
ghost use Rattle.ck_graph.specs.Summary.{HasRoots};
ghost use Rattle.ck_summary.specs.Solution.{
  HasNoPairs,
  IsMadeFor,
  IsSolution,
  AreCallers,
  lists_of,
};
ghost use Rattle.ck_summary.specs.Listing.{size_of};
ghost use Rattle.ck_summary.specs.Passing.{HasPair, AllDerived};
ghost use Rattle.ck_summary.specs.Growth.{work, IsWorkFor, Grows};

use crate::passing::{add_at, pass_on};
use crate::states::entry_of;
use crate::table::Table;
use crate::worklist::Worklist;
use ck_base::PointId;
use ck_graph::{Graph, Root, Roots};
use ck_rows::{Rows, no_pairs};

/// Fills a table that was made for this graph with what walks from the roots reach: a point has the
/// pair of two states exactly where a walk reaches it in the second, in a call of its function that
/// was entered in the first. Calls may be recursive to any depth, and a return goes back to the call
/// that it came from. What the table had before is forgotten. It takes no memory.
pub fn solve(graph: &Graph, roots: &Roots, table: &mut Table)
    requires made { IsMadeFor graph.now table.old }
    requires roots { All (λ root. root.function.0 < function_count graph.now) roots.now.list.items }
    ensures made { IsMadeFor graph.now table.new }
    ensures solved { IsSolution graph.now roots.now.list.items table.new.rows }
{
    fill(
        graph,
        &roots.list,
        &table.callers,
        &mut table.rows,
        &mut table.listed,
    );
}

/// Fills the relations themselves: a listed point is looked at, and what it gives something new to is
/// listed, until nothing is.
fn fill(
    graph: &Graph,
    roots: &[Root],
    callers: &[Vec<PointId>],
    table: &mut [Rows],
    listed: &mut Worklist,
)
    requires callers { AreCallers graph.now (lists_of callers.now) }
    requires work { IsWorkFor graph.now (work table.old listed.old) }
    requires roots { All (λ root. root.function.0 < function_count graph.now) roots.now }
    ensures solved { IsSolution graph.now roots.now table.new }
    ensures size { size_of listed.new ≡ size_of listed.old }
{
    let _points = graph.points();
    clear(table);
    enter_roots(graph, roots, table, listed);
    'looks: while let Some(number) = listed.take() {
        pass_on(graph, callers, table, listed, PointId(number));
    }
}

/// Takes all pairs away.
fn clear(table: &mut [Rows])
    ensures { HasNoPairs table.new }
{
    for rows in table.iter_mut() {
        *rows = no_pairs();
    }
}

/// Enters each root's function in the root's state.
fn enter_roots(graph: &Graph, roots: &[Root], table: &mut [Rows], listed: &mut Worklist)
    requires sound { IsSound graph.now }
    requires work { IsWorkFor graph.now (work table.old listed.old) }
    requires roots { All (λ root. root.function.0 < function_count graph.now) roots.now }
    requires empty { HasNoPairs table.old }
    ensures derived { AllDerived graph.now roots.now table.new }
    ensures entered { HasRoots graph.now roots.now (HasPair table.new) }
    ensures grows { Grows (work table.old listed.old) (work table.new listed.new) }
{
    for root in roots {
        let entry = entry_of(root.start);
        add_at(table, listed, graph.first(root.function), &entry);
    }
}
