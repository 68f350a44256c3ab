//! Edges between cells, along which what reaches one goes on to the other.
ghost use Rattle.std.specs.Prelude.{◌≡◌, ◌<◌, ℕ, length, OnOk, Some};
ghost use Rattle.ck_reaching.specs.Rules.{IsCellBelow};
ghost use Rattle.ck_reaching.specs.Work.{IsShaped, AddsEdge, AddsEdgeIfAny, IsSpread};

use crate::index::Index;
use crate::known::Known;
use crate::rules::CellId;
use crate::sets::FnSet;
use ck_base::OutOfMemory;

/// What is known so far, and the edges that were found. `scratch` holds the functions that are being passed on.
#[derive(Debug, Drop)]
pub(crate) struct Work {
    pub(crate) known: Known,
    pub(crate) edges: Index,
    pub(crate) scratch: FnSet,
}

impl Work {
    /// Adds an edge, and passes on along it what is known.
    pub(crate) fn add_edge(&mut self, from: CellId, to: CellId) -> Result<(), OutOfMemory>
        requires shaped { IsShaped self.old }
        requires from { from.0 < length self.old.edges }
        requires to { to.0 < length self.old.edges }
        ensures { OnOk result (AddsEdge from.0 to.0 self.old self.new) }
    {
        self.edges.add(from.0, to.0)?;
        self.known.reached.copy_to(from, &mut self.scratch);
        self.known.add(to, &self.scratch)
    }

    /// Adds an edge where both cells are there.
    pub(crate) fn add_edge_if_any(
        &mut self,
        from: Option<CellId>,
        to: Option<CellId>,
    ) -> Result<(), OutOfMemory>
        requires shaped { IsShaped self.old }
        requires from { IsCellBelow (length self.old.edges) from }
        requires to { IsCellBelow (length self.old.edges) to }
        ensures { OnOk result (AddsEdgeIfAny from to self.old self.new) }
    {
        match (from, to) {
            (Some(from), Some(to)) => self.add_edge(from, to),
            _ => Ok(()),
        }
    }

    /// Passes on what is known at a cell along its edges.
    pub(crate) fn spread(&mut self, cell: CellId) -> Result<(), OutOfMemory>
        requires shaped { IsShaped self.old }
        requires cell { cell.0 < length self.old.edges }
        ensures { OnOk result (IsSpread cell.0 self.old self.new) }
    {
        let Work {
            known,
            edges,
            scratch,
        } = self;
        known.reached.copy_to(cell, scratch);
        for to in edges.at(cell.0) {
            known.add(CellId(*to), scratch)?;
        }
        Ok(())
    }
}
