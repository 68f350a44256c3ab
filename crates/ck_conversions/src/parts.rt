//! What a type is made of, one level deep (C99 6.2.5).
ghost use Rattle.std.specs.Prelude.{◌≡◌, ℕ, true, IfSome};
ghost use Rattle.ck_conversions.specs.Parts as parts;
ghost use Rattle.ck_conversions.specs.Parts.{type_in};
ghost use Rattle.ck_tables.specs.Entries.{plain_made};
ghost use Rattle.ck_types.specs.TypeTable as table;
ghost use Rattle.ck_types.specs.TypeTable.{entries_of, type_at};
ghost use Rattle.ck_types.specs.Types.{StructIdentity};

use crate::nodes;
use ck_tables::QualifiedType;
use ck_types::{IntegerType, ParametersId, StructId, TypeId, Types};

/// What a function's type says of calls (6.5.2.2, 6.7.5.3).
#[derive(Clone, Copy, Debug, PartialEq, Eq)]
pub struct Signature {
    /// the type of its result
    pub result: TypeId,
    /// the types of its parameters
    pub parameters: ParametersId,
    /// whether `...` is at their end
    pub variadic: bool,
}

/// The integer type that it is, if it is one.
pub fn integer_of(types: &Types, id: TypeId) -> Option<IntegerType>
    requires { table.names_type types.now id.0 ≡ true }
    ensures { (identity : ℕ → StructIdentity) → result ≡ parts.integer_in (type_in identity types.now id) }
{
    nodes::integer_of(types.node(id))
}

/// What it points to, with its qualifiers, if it is a pointer.
pub fn pointed(types: &Types, id: TypeId) -> Option<QualifiedType>
    requires { table.names_type types.now id.0 ≡ true }
    ensures named { IfSome result (λ to. table.names_type types.now to.type_id.0 ≡ true) }
    ensures target { (identity : ℕ → StructIdentity) → plain_made (type_at (entries_of identity types.now)) result
        ≡ parts.pointed (type_in identity types.now id) }
{
    nodes::pointed(types.node(id))
}

/// The struct that it is, if it is one.
pub fn struct_of(types: &Types, id: TypeId) -> Option<StructId>
    requires { table.names_type types.now id.0 ≡ true }
    ensures { (identity : ℕ → StructIdentity) → parts.identity_of identity result
        ≡ parts.struct_in (type_in identity types.now id) }
{
    nodes::struct_of(types.node(id))
}

/// What it says of calls, if it is a function.
pub fn signature_of(types: &Types, id: TypeId) -> Option<Signature>
    requires { table.names_type types.now id.0 ≡ true }
    ensures named { IfSome result (λ s. parts.NamesSignature types.now s) }
    ensures signature { (identity : ℕ → StructIdentity) → parts.plain_signature (entries_of identity types.now) result
        ≡ parts.signature_in (type_in identity types.now id) }
{
    nodes::signature_of(types.node(id))
}
