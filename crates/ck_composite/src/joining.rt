//! The composite type of two types of a table, where they are compatible.
ghost use Rattle.std.specs.Prelude.{◌≡◌, true, is_some, IfOk, IfSome};
ghost use Rattle.ck_compatible.specs.Compatible.{IsCompatible};
ghost use Rattle.ck_composite.specs.Composite.{IsComposite};
ghost use Rattle.ck_types.specs.TypeTable as table;

use crate::made::{number_made, numbers_made};
use crate::order::put_in_order;
use ck_base::OutOfMemory;
use ck_compatible::agreeing_pairs;
use ck_types::{TypeId, Types};
use std::alloc::Global;

/// The number of the composite type of two types of a table (C99 6.2.7), or none where they aren't compatible. The
/// table grows by what of it wasn't there. A number with itself is its own, which takes no memory.
pub fn joined(
    types: &mut Types,
    alloc: Global,
    a: TypeId,
    b: TypeId,
) -> Result<Option<TypeId>, OutOfMemory>
    requires first { table.names_type types.old a.0 ≡ true }
    requires second { table.names_type types.old b.0 ≡ true }
    ensures kept { table.Extends types.old types.new }
    ensures types { table.KeepsTypes types.old types.new }
    ensures lists { table.KeepsLists types.old types.new }
    ensures table { table.IsTable types.new }
    ensures compatible { IfOk result (λ found. IsCompatible types.old a.0 b.0 (is_some found)) }
    ensures composite { IfOk result (λ found. IfSome found (λ id. IsComposite types.old types.new a.0 b.0 id.0)) }
    ensures named { IfOk result (λ found. IfSome found (λ id. table.names_type types.new id.0 ≡ true)) }
{
    // The look says that the table is one, also where memory runs out.
    let _first = types.node(a);
    if a.0 == b.0 {
        return Ok(Some(a));
    }
    let Some(mut pairs) = agreeing_pairs(types, alloc, a.0, b.0)? else {
        return Ok(None);
    };
    put_in_order(&mut pairs)?;
    let made = numbers_made(types, alloc, &pairs)?;
    Ok(Some(TypeId(number_made(&pairs, &made, a.0, b.0))))
}
