//! What is known so far, and which cells are still to be looked at.
ghost use Rattle.std.specs.Prelude.{◌≡◌, ◌<◌, ℕ, length, OnOk};
ghost use Rattle.ck_reaching.specs.Reached.{set_at};
ghost use Rattle.ck_reaching.specs.Listing.{size_of};
ghost use Rattle.ck_reaching.specs.Known.{IsGain};

use crate::reached::Reached;
use crate::rules::CellId;
use crate::sets::FnSet;
use crate::worklist::Worklist;
use ck_base::OutOfMemory;

/// The functions that are known to reach each cell, and the cells where one is new.
#[derive(Debug, Drop)]
pub(crate) struct Known {
    pub(crate) reached: Reached,
    pub(crate) listed: Worklist,
}

impl Known {
    /// Adds that each function of a set reaches a cell, and lists the cell if one was new.
    pub(crate) fn add(&mut self, cell: CellId, given: &FnSet) -> Result<(), OutOfMemory>
        requires cell { cell.0 < length self.old.reached }
        requires size { length given.now ≡ length (set_at self.old.reached cell.0) }
        requires listed { size_of self.old.listed ≡ length self.old.reached }
        ensures { OnOk result (IsGain cell.0 given.now self.old self.new) }
    {
        if self.reached.join(cell, given) {
            self.listed.put(cell.0)?;
        }
        Ok(())
    }
}
