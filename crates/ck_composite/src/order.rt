//! Pairs in an order in which they come after the pairs of their parts.
ghost use Rattle.std.specs.Prelude.{OnOk};
ghost use Rattle.ck_composite.specs.Made.{IsOrderOf};

use ck_base::OutOfMemory;
use indexmap::IndexSet;

/// Puts pairs into the order of their first numbers, since a node names smaller numbers than its own.
pub fn put_in_order(pairs: &mut IndexSet<(u32, u32)>) -> Result<(), OutOfMemory>
    ensures { OnOk result (IsOrderOf pairs.old.keys pairs.new.keys) }
{
    pairs.sort_by_key(|pair| pair.0)?;
    Ok(())
}
