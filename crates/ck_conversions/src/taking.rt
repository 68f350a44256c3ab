//! Conversions as if by assignment (C99 6.5.16.1, 6.5.16.2).
ghost use Rattle.std.specs.Prelude.{◌≡◌, ℕ, true, IfOk};
ghost use Rattle.ck_conversions.specs.Parts.{type_in};
ghost use Rattle.ck_conversions.specs.Telling.{Tells, takes_by};
ghost use Rattle.ck_prog.specs.AssignmentSenses as assignments;
ghost use Rattle.ck_prog.specs.Declarations.{Place};
ghost use Rattle.ck_prog.specs.TypeClasses as classes;
ghost use Rattle.ck_types.specs.TypeTable as table;
ghost use Rattle.ck_types.specs.TypeTable.{plain_qualifiers};
ghost use Rattle.ck_types.specs.Types.{StructIdentity};

use crate::alike::{are_alike, is_same_struct};
use crate::classes::{is_integer, is_pointer, is_truth};
use crate::objects::{Objects, points_to_object};
use crate::parts::pointed;
use ck_base::OutOfMemory;
use ck_types::{BinaryOperator, Qualifiers, TypeId, Types};
use std::alloc::Global;

/// Whether each qualifier of the first is one of the second.
fn are_among(a: Qualifiers, b: Qualifiers) -> bool
    ensures { result ≡ classes.are_among (plain_qualifiers a) (plain_qualifiers b) }
{
    (!a.constant || b.constant) && (!a.volatile || b.volatile)
}

/// Whether a pointer takes a pointer: what it points to has all qualifiers of what the other points to, and is
/// compatible with it, or one of the two is `void`.
fn takes_pointer(types: &Types, alloc: Global, to: TypeId, of: TypeId) -> Result<bool, OutOfMemory>
    requires first { table.names_type types.now to.0 ≡ true }
    requires second { table.names_type types.now of.0 ≡ true }
    ensures { IfOk result (Tells types.now to of assignments.takes_pointer) }
{
    let Some(one) = pointed(types, to) else {
        return Ok(false);
    };
    let Some(other) = pointed(types, of) else {
        return Ok(false);
    };
    let among = are_among(other.qualifiers, one.qualifiers);
    let answer = are_alike(types, alloc, one.type_id, other.type_id)?;
    Ok(among && answer)
}

/// Whether an object of a type takes a value of another, which may be a null pointer constant (6.5.16.1).
pub fn takes(
    types: &Types,
    alloc: Global,
    to: TypeId,
    null: bool,
    of: TypeId,
) -> Result<bool, OutOfMemory>
    requires first { table.names_type types.now to.0 ≡ true }
    requires second { table.names_type types.now of.0 ≡ true }
    ensures { IfOk result (Tells types.now to of (takes_by null)) }
{
    let integer = is_integer(types, to);
    let number = is_integer(types, of);
    let same = is_same_struct(types, alloc, to, of)?;
    let pointers = takes_pointer(types, alloc, to, of)?;
    let pointer = is_pointer(types, to);
    let truth = is_truth(types, to);
    let address = is_pointer(types, of);
    Ok((integer && number) || same || pointers || (pointer && null) || (truth && address))
}

/// Whether a compound assignment to an object of a type takes a value of another, at a place that is known by its
/// number (6.5.16.2): `+=` and `-=` move a pointer too, others take integers alone.
pub fn takes_with<O: Objects>(
    objects: &O,
    types: &Types,
    at: u32,
    operator: BinaryOperator,
    to: TypeId,
    of: TypeId,
) -> bool
    requires first { table.names_type types.now to.0 ≡ true }
    requires second { table.names_type types.now of.0 ≡ true }
    ensures { (identity : ℕ → StructIdentity) (p : Place) → O.names objects.now identity → O.knows objects.now at p
        → result
        ≡ assignments.takes_with p operator (type_in identity types.now to) (type_in identity types.now of) }
{
    let integer = is_integer(types, to);
    let points = points_to_object(objects, types, at, to);
    let number = is_integer(types, of);
    match operator {
        BinaryOperator::Add | BinaryOperator::Subtract => (integer || points) && number,
        _ => integer && number,
    }
}
