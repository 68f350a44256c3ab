//! The table of summaries.
ghost use Rattle.std.specs.Prelude.{◌≡◌, ◌<◌, length, IfOk};
ghost use Rattle.ck_summary.specs.Solution.{rows_at, callers_at, HasNoPairs, IsMadeFor};

use crate::callers::callers_of;
use crate::worklist::Worklist;
use ck_base::{FnId, OutOfMemory, PointId};
use ck_graph::Graph;
use ck_rows::{Rows, no_pairs};
use std::alloc::Global;
use std::marker::Model;

/// For each point of a graph, the pairs of the state in which the function was entered and a state at
/// the point; and for each function, the points that may enter it. It is seen as plain lists.
#[derive(Debug, Drop)]
pub struct Table {
    pub(crate) rows: Vec<Rows>,
    pub(crate) listed: Worklist,
    pub(crate) callers: Vec<Vec<PointId>>,
}

impl Model for Table {
    ghost use Rattle.std.specs.Prelude.{◌≡◌, length};
    ghost use Rattle.ck_summary.specs.Solution.{Summaries, lists_of};
    ghost use Rattle.ck_summary.specs.Listing.{size_of};

    ghost Value = { Summaries };

    ghost view = { λ t. record { rows = t.rows.items; callers = lists_of t.callers.items } };

    ghost invariant = { λ t. size_of t.listed ≡ length t.rows.items };
}

impl Table {
    /// A table for this graph, without pairs. It takes all the memory that `solve` needs.
    pub fn new(alloc: Global, graph: &Graph) -> Result<Table, OutOfMemory>
        ensures made { IfOk result (IsMadeFor graph.now) }
        ensures empty { IfOk result (λ table. HasNoPairs table.rows) }
    {
        let rows = vec![in alloc; no_pairs(); graph.points() as usize]?;
        let listed = Worklist::new(alloc, graph.points())?;
        let callers = callers_of(alloc, graph)?;
        Ok(Table {
            rows,
            listed,
            callers,
        })
    }

    /// The pairs of the state at the function's entry and the state at a point.
    pub fn rows(&self, point: PointId) -> &Rows
        requires { point.0 < length self.now.rows }
        ensures { result.now ≡ rows_at self.now.rows point.0 }
    {
        &self.rows[point.0 as usize]
    }

    /// The points that may enter a function: all of them, and no other, where the table was made for a graph. In no
    /// certain order, and a point may be there more than once, as where its targets name the function twice.
    pub fn callers(&self, function: FnId) -> &[PointId]
        requires { function.0 < length self.now.callers }
        ensures { result.now ≡ callers_at self.now.callers function.0 }
    {
        &self.callers[function.0 as usize]
    }
}
