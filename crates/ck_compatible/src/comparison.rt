//! Whether two types of a table are compatible.
ghost use Rattle.std.specs.Prelude.{◌≡◌, true, IfOk};
ghost use Rattle.ck_compatible.specs.Compatible.{IsCompatible};
ghost use Rattle.ck_types.specs.TypeTable as table;

use crate::pairs::agreeing_pairs;
use ck_base::OutOfMemory;
use ck_types::{TypeId, Types};
use std::alloc::Global;

/// Whether two types of a table are compatible (C99 6.2.7). A number is compatible with itself, which takes no memory.
pub fn compatible(types: &Types, alloc: Global, a: TypeId, b: TypeId) -> Result<bool, OutOfMemory>
    requires first { table.names_type types.now a.0 ≡ true }
    requires second { table.names_type types.now b.0 ≡ true }
    ensures answer { IfOk result (IsCompatible types.now a.0 b.0) }
{
    if a.0 == b.0 {
        return Ok(true);
    }
    match agreeing_pairs(types, alloc, a.0, b.0)? {
        Some(_pairs) => Ok(true),
        None => Ok(false),
    }
}
