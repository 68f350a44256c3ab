//! Types that are alike (C99 6.2.7, 6.5.6, 6.5.8, 6.5.9).
ghost use Rattle.std.specs.Prelude.{◌≡◌, true, IfOk};
ghost use Rattle.ck_conversions.specs.Telling.{Tells, alike};
ghost use Rattle.ck_prog.specs.BinarySenses as binary;
ghost use Rattle.ck_prog.specs.TypeClasses as classes;
ghost use Rattle.ck_types.specs.TypeTable as table;

use crate::classes::{is_function, is_void};
use crate::parts::{pointed, struct_of};
use ck_base::OutOfMemory;
use ck_compatible::compatible;
use ck_types::{TypeId, Types};
use std::alloc::Global;

/// Whether both are one struct: two structs are compatible exactly where they are one.
pub fn is_same_struct(
    types: &Types,
    alloc: Global,
    a: TypeId,
    b: TypeId,
) -> Result<bool, OutOfMemory>
    requires first { table.names_type types.now a.0 ≡ true }
    requires second { table.names_type types.now b.0 ≡ true }
    ensures { IfOk result (Tells types.now a b classes.is_same_struct) }
{
    let Some(_one) = struct_of(types, a) else {
        return Ok(false);
    };
    let Some(_other) = struct_of(types, b) else {
        return Ok(false);
    };
    let answer = compatible(types, alloc, a, b)?;
    Ok(answer)
}

/// Whether both are pointers, to compatible types (6.5.6).
pub fn are_to_compatible(
    types: &Types,
    alloc: Global,
    a: TypeId,
    b: TypeId,
) -> Result<bool, OutOfMemory>
    requires first { table.names_type types.now a.0 ≡ true }
    requires second { table.names_type types.now b.0 ≡ true }
    ensures { IfOk result (Tells types.now a b binary.are_to_compatible) }
{
    let Some(one) = pointed(types, a) else {
        return Ok(false);
    };
    let Some(other) = pointed(types, b) else {
        return Ok(false);
    };
    let answer = compatible(types, alloc, one.type_id, other.type_id)?;
    Ok(answer)
}

/// Whether both are pointers, to compatible types of objects, complete or not (6.5.8).
pub fn are_ordered(types: &Types, alloc: Global, a: TypeId, b: TypeId) -> Result<bool, OutOfMemory>
    requires first { table.names_type types.now a.0 ≡ true }
    requires second { table.names_type types.now b.0 ≡ true }
    ensures { IfOk result (Tells types.now a b binary.are_ordered) }
{
    let Some(one) = pointed(types, a) else {
        return Ok(false);
    };
    let Some(other) = pointed(types, b) else {
        return Ok(false);
    };
    let answer = compatible(types, alloc, one.type_id, other.type_id)?;
    let function = is_function(types, one.type_id);
    Ok(answer && !function)
}

/// Whether both are pointers, to compatible types, or one to `void` and the other to an object (6.5.9).
pub fn are_to_alike(types: &Types, alloc: Global, a: TypeId, b: TypeId) -> Result<bool, OutOfMemory>
    requires first { table.names_type types.now a.0 ≡ true }
    requires second { table.names_type types.now b.0 ≡ true }
    ensures { IfOk result (Tells types.now a b binary.are_to_alike) }
{
    let Some(one) = pointed(types, a) else {
        return Ok(false);
    };
    let Some(other) = pointed(types, b) else {
        return Ok(false);
    };
    let answer = are_alike(types, alloc, one.type_id, other.type_id)?;
    Ok(answer)
}

/// Whether one is `void` and the other no function (6.3.2.3, 6.5.9).
pub fn are_void_and_object(types: &Types, a: TypeId, b: TypeId) -> bool
    requires first { table.names_type types.now a.0 ≡ true }
    requires second { table.names_type types.now b.0 ≡ true }
    ensures { Tells types.now a b binary.are_void_and_object result }
{
    let first_void = is_void(types, a);
    let first_function = is_function(types, a);
    let second_void = is_void(types, b);
    let second_function = is_function(types, b);
    (first_void && !second_function) || (second_void && !first_function)
}

/// Whether both are compatible, or one is `void` and the other no function.
pub fn are_alike(types: &Types, alloc: Global, a: TypeId, b: TypeId) -> Result<bool, OutOfMemory>
    requires first { table.names_type types.now a.0 ≡ true }
    requires second { table.names_type types.now b.0 ≡ true }
    ensures { IfOk result (Tells types.now a b alike) }
{
    let answer = compatible(types, alloc, a, b)?;
    let object = are_void_and_object(types, a, b);
    Ok(answer || object)
}
