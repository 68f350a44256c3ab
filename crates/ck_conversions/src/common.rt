//! The common type of two operands of `? :` (C99 6.5.15).
ghost use Rattle.std.specs.Prelude.{◌≡◌, ℕ, true, IfOk, IfSome};
ghost use Rattle.ck_conversions.specs.Common as spec;
ghost use Rattle.ck_conversions.specs.Common.{IsCommon};
ghost use Rattle.ck_conversions.specs.Parts.{Grown, type_in};
ghost use Rattle.ck_conversions.specs.Telling.{Tells};
ghost use Rattle.ck_prog.specs.AssignmentSenses as assignments;
ghost use Rattle.ck_prog.specs.TypeClasses as classes;
ghost use Rattle.ck_types.specs.TypeTable as table;
ghost use Rattle.ck_types.specs.TypeTable.{plain_qualifiers};
ghost use Rattle.ck_types.specs.Types.{StructIdentity};

use crate::alike::{are_void_and_object, is_same_struct};
use crate::classes::{is_pointer, is_void};
use crate::parts::{integer_of, pointed};
use crate::values::{integer_type, pointer_to, void_type};
use ck_base::OutOfMemory;
use ck_composite::joined;
use ck_types::{IntegerType, Qualifiers, TypeId, Types};
use std::alloc::Global;

/// The common type of two operands, each of which may be a null pointer constant (6.5.15): of two integers the type of
/// the usual arithmetic conversions; of two pointers a pointer to the composite type, or to `void`, with the qualifiers
/// of both; none where they have none. It is added where the table doesn't have it.
#[tactic(auto, using(crate::proofs::Looks::growing, crate::proofs::CommonTypes::commons))]
pub fn common_type(
    types: &mut Types,
    alloc: Global,
    a: TypeId,
    a_null: bool,
    b: TypeId,
    b_null: bool,
) -> Result<Option<TypeId>, OutOfMemory>
    requires first { table.names_type types.old a.0 ≡ true }
    requires second { table.names_type types.old b.0 ≡ true }
    ensures grown { Grown types.old types.new }
    ensures named { IfOk result (λ found. IfSome found (λ id. table.names_type types.new id.0 ≡ true)) }
    ensures common { IfOk result (IsCommon types.old types.new (assignments.common_type a_null b_null) a b) }
{
    let Some(integer) = common_integer(types, a, b) else {
        let found = common_other(types, alloc, a, a_null, b, b_null)?;
        return Ok(found);
    };
    let made = integer_type(types, integer)?;
    Ok(Some(made))
}

/// The common type of two integers (6.3.1.8), none where one is none.
fn common_integer(types: &Types, a: TypeId, b: TypeId) -> Option<IntegerType>
    requires first { table.names_type types.now a.0 ≡ true }
    requires second { table.names_type types.now b.0 ≡ true }
    ensures { (identity : ℕ → StructIdentity)
        → result ≡ spec.common_integer (type_in identity types.now a) (type_in identity types.now b) }
{
    let Some(one) = integer_of(types, a) else {
        return None;
    };
    let Some(other) = integer_of(types, b) else {
        return None;
    };
    Some(one.common(other))
}

/// The common type of two operands that aren't both integers.
#[tactic(auto, using(crate::proofs::Looks::growing, crate::proofs::CommonTypes::commons))]
fn common_other(
    types: &mut Types,
    alloc: Global,
    a: TypeId,
    a_null: bool,
    b: TypeId,
    b_null: bool,
) -> Result<Option<TypeId>, OutOfMemory>
    requires first { table.names_type types.old a.0 ≡ true }
    requires second { table.names_type types.old b.0 ≡ true }
    ensures grown { Grown types.old types.new }
    ensures named { IfOk result (λ found. IfSome found (λ id. table.names_type types.new id.0 ≡ true)) }
    ensures common { IfOk result (IsCommon types.old types.new (spec.common_other a_null b_null) a b) }
{
    let same = are_void_or_one(types, alloc, a, b)?;
    if same {
        return Ok(Some(a));
    }
    let first = is_pointer(types, a);
    if first && b_null {
        return Ok(Some(a));
    }
    let second = is_pointer(types, b);
    if second && a_null {
        return Ok(Some(b));
    }
    let found = common_pointer(types, alloc, a, b)?;
    Ok(found)
}

/// Whether both are `void`, or both one struct.
fn are_void_or_one(types: &Types, alloc: Global, a: TypeId, b: TypeId) -> Result<bool, OutOfMemory>
    requires first { table.names_type types.now a.0 ≡ true }
    requires second { table.names_type types.now b.0 ≡ true }
    ensures { IfOk result (Tells types.now a b spec.are_void_or_one) }
{
    let first = is_void(types, a);
    let second = is_void(types, b);
    let same = is_same_struct(types, alloc, a, b)?;
    Ok((first && second) || same)
}

/// The common type of two pointers, none where they have none or one is no pointer.
#[tactic(auto, using(crate::proofs::Looks::growing, crate::proofs::CommonTypes::commons))]
fn common_pointer(
    types: &mut Types,
    alloc: Global,
    a: TypeId,
    b: TypeId,
) -> Result<Option<TypeId>, OutOfMemory>
    requires first { table.names_type types.old a.0 ≡ true }
    requires second { table.names_type types.old b.0 ≡ true }
    ensures grown { Grown types.old types.new }
    ensures named { IfOk result (λ found. IfSome found (λ id. table.names_type types.new id.0 ≡ true)) }
    ensures common { IfOk result (IsCommon types.old types.new assignments.common_pointer a b) }
{
    let Some(one) = pointed(types, a) else {
        return Ok(None);
    };
    let Some(other) = pointed(types, b) else {
        return Ok(None);
    };
    let qualifiers = both(one.qualifiers, other.qualifiers);
    let target = common_target(types, alloc, one.type_id, other.type_id)?;
    let Some(to) = target else {
        return Ok(None);
    };
    let made = pointer_to(types, qualifiers, to)?;
    Ok(Some(made))
}

/// What the common type of two pointers points to, by what these point to: the composite type where they are
/// compatible, `void` where one is it, none where they have none.
#[tactic(auto, using(crate::proofs::Looks::growing, crate::proofs::CommonTypes::commons))]
fn common_target(
    types: &mut Types,
    alloc: Global,
    a: TypeId,
    b: TypeId,
) -> Result<Option<TypeId>, OutOfMemory>
    requires first { table.names_type types.old a.0 ≡ true }
    requires second { table.names_type types.old b.0 ≡ true }
    ensures grown { Grown types.old types.new }
    ensures named { IfOk result (λ found. IfSome found (λ id. table.names_type types.new id.0 ≡ true)) }
    ensures common { IfOk result (IsCommon types.old types.new spec.common_target a b) }
{
    let object = are_void_and_object(types, a, b);
    let composite = composite_type(types, alloc, a, b)?;
    let Some(found) = composite else {
        if !object {
            return Ok(None);
        }
        let void = void_type(types)?;
        return Ok(Some(void));
    };
    Ok(Some(found))
}

/// The composite type of two types, none where they aren't compatible (6.2.7).
#[tactic(auto, using(crate::proofs::Looks::growing, crate::proofs::CommonTypes::commons))]
fn composite_type(
    types: &mut Types,
    alloc: Global,
    a: TypeId,
    b: TypeId,
) -> Result<Option<TypeId>, OutOfMemory>
    requires first { table.names_type types.old a.0 ≡ true }
    requires second { table.names_type types.old b.0 ≡ true }
    ensures grown { Grown types.old types.new }
    ensures named { IfOk result (λ found. IfSome found (λ id. table.names_type types.new id.0 ≡ true)) }
    ensures common { IfOk result (IsCommon types.old types.new spec.composite_type a b) }
{
    let found = joined(types, alloc, a, b)?;
    Ok(found)
}

/// The qualifiers of both (6.7.3).
fn both(a: Qualifiers, b: Qualifiers) -> Qualifiers
    ensures { plain_qualifiers result ≡ classes.both (plain_qualifiers a) (plain_qualifiers b) }
{
    Qualifiers {
        constant: a.constant || b.constant,
        volatile: a.volatile || b.volatile,
    }
}
