//! What is given to the holders of function pointers, by rules.
ghost use Rattle.std.specs.Prelude.{◌<◌, OnOk};
ghost use Rattle.ck_pointers.specs.Sources.{IsWithin};
ghost use Rattle.ck_pointers.specs.Giving.{IsGiven};

use crate::sources::{Source, bring};
use ck_base::OutOfMemory;
use ck_reaching::{CellId, Rules};

/// Adds that what comes from a source is given to the holder of a cell. What the project gives so is done then.
pub fn give(rules: &mut Rules, source: Source, to: CellId) -> Result<(), OutOfMemory>
    requires source { IsWithin rules.old source }
    requires to { to.0 < rules.old.cells }
    ensures { OnOk result (IsGiven source to.0 rules.old rules.new) }
{
    bring(rules, source, to)
}
