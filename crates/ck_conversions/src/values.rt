//! The type that a value has (C99 6.3.2.1).
ghost use Rattle.std.specs.Prelude.{◌≡◌, ℕ, true, IfOk};
ghost use Rattle.ck_prog.specs.TypeClasses.{as_value};
ghost use Rattle.ck_conversions.specs.Parts.{Grown, type_in};
ghost use Rattle.ck_types.specs.TypeTable as table;
ghost use Rattle.ck_types.specs.TypeTable.{plain_qualifiers};
ghost use Rattle.ck_types.specs.Types.{StructIdentity, Integer, Pointer, Void};

use crate::nodes::pointer_of_value;
use ck_base::OutOfMemory;
use ck_types::{CType, IntegerType, Qualifiers, TypeId, Types};

/// No qualifiers.
pub const PLAIN: Qualifiers = Qualifiers {
    constant: false,
    volatile: false,
};

/// `void`, which is added where the table doesn't have it.
pub fn void_type(types: &mut Types) -> Result<TypeId, OutOfMemory>
    ensures grown { Grown types.old types.new }
    ensures named { IfOk result (λ v. table.names_type types.new v.0 ≡ true) }
    ensures made { IfOk result (λ v. (identity : ℕ → StructIdentity) → type_in identity types.new v ≡ Void) }
{
    let made = types.intern(CType::Void)?;
    Ok(made)
}

/// An integer type, which is added where the table doesn't have it.
pub fn integer_type(types: &mut Types, of: IntegerType) -> Result<TypeId, OutOfMemory>
    ensures grown { Grown types.old types.new }
    ensures named { IfOk result (λ v. table.names_type types.new v.0 ≡ true) }
    ensures made { IfOk result (λ v. (identity : ℕ → StructIdentity) → type_in identity types.new v ≡ Integer of) }
{
    let made = types.intern(CType::Integer(of))?;
    Ok(made)
}

/// A pointer to a type with qualifiers (6.7.5.1), which is added where the table doesn't have it.
pub fn pointer_to(
    types: &mut Types,
    qualifiers: Qualifiers,
    to: TypeId,
) -> Result<TypeId, OutOfMemory>
    requires { table.names_type types.old to.0 ≡ true }
    ensures grown { Grown types.old types.new }
    ensures named { IfOk result (λ v. table.names_type types.new v.0 ≡ true) }
    ensures made { IfOk result (λ v. (identity : ℕ → StructIdentity) → type_in identity types.new v
        ≡ Pointer (plain_qualifiers qualifiers) (type_in identity types.old to)) }
{
    let made = types.intern(CType::Pointer { qualifiers, to })?;
    Ok(made)
}

/// The type of its value: an array is a pointer to its first element, a function a pointer to it. It is added where
/// the table doesn't have it.
pub fn value_type(types: &mut Types, id: TypeId) -> Result<TypeId, OutOfMemory>
    requires { table.names_type types.old id.0 ≡ true }
    ensures grown { Grown types.old types.new }
    ensures named { IfOk result (λ v. table.names_type types.new v.0 ≡ true) }
    ensures value { IfOk result (λ v. (identity : ℕ → StructIdentity)
        → type_in identity types.new v ≡ as_value (type_in identity types.old id)) }
{
    match pointer_of_value(types.node(id), id) {
        Some(to) => {
            let made = pointer_to(types, to.qualifiers, to.type_id)?;
            Ok(made)
        }
        None => Ok(id),
    }
}
