//! Classes of types and their parts, by the node of a table.
ghost use Rattle.std.specs.Prelude.{◌≡◌, ℕ, List, true, IfSome};
ghost use Rattle.ck_conversions.specs.Parts as parts;
ghost use Rattle.ck_prog.specs.TypeClasses as classes;
ghost use Rattle.ck_tables.specs.Entries.{plain_made};
ghost use Rattle.ck_types.specs.TypeTable as table;
ghost use Rattle.ck_types.specs.TypeTable.{Entry, type_at, type_of};
ghost use Rattle.ck_types.specs.Types.{StructIdentity};
ghost use Rattle.ck_types.specs.declared.types.Node.{Node};

use crate::parts::Signature;
use crate::values::PLAIN;
use ck_tables::QualifiedType;
use ck_types::{CType, IntegerType, StructId, TypeId};

pub fn is_void(of: CType) -> bool
    ensures { (identity : ℕ → StructIdentity) (es : List Entry) → result ≡ classes.is_void (type_of identity es of) }
{
    matches!(of, CType::Void)
}

pub fn is_integer(of: CType) -> bool
    ensures { (identity : ℕ → StructIdentity) (es : List Entry) → result ≡ classes.is_integer (type_of identity es of) }
{
    matches!(of, CType::Integer(_))
}

pub fn is_truth(of: CType) -> bool
    ensures { (identity : ℕ → StructIdentity) (es : List Entry) → result ≡ classes.is_truth (type_of identity es of) }
{
    matches!(of, CType::Integer(IntegerType::Bool))
}

pub fn is_pointer(of: CType) -> bool
    ensures { (identity : ℕ → StructIdentity) (es : List Entry) → result ≡ classes.is_pointer (type_of identity es of) }
{
    matches!(of, CType::Pointer { .. })
}

pub fn is_array(of: CType) -> bool
    ensures { (identity : ℕ → StructIdentity) (es : List Entry) → result ≡ classes.is_array (type_of identity es of) }
{
    matches!(of, CType::Array { .. })
}

pub fn is_function(of: CType) -> bool
    ensures { (identity : ℕ → StructIdentity) (es : List Entry)
        → result ≡ classes.is_function (type_of identity es of) }
{
    matches!(of, CType::Function { .. })
}

pub fn integer_of(of: CType) -> Option<IntegerType>
    ensures { (identity : ℕ → StructIdentity) (es : List Entry)
        → result ≡ parts.integer_in (type_of identity es of) }
{
    match of {
        CType::Integer(of) => Some(of),
        _ => None,
    }
}

pub fn pointed(of: CType) -> Option<QualifiedType>
    ensures named { (before : List Node) → table.fits_type before of ≡ true
        → IfSome result (λ to. table.names_type before to.type_id.0 ≡ true) }
    ensures target { (identity : ℕ → StructIdentity) (es : List Entry)
        → plain_made (type_at es) result ≡ parts.pointed (type_of identity es of) }
{
    match of {
        CType::Pointer { qualifiers, to } => Some(QualifiedType {
            type_id: to,
            qualifiers,
        }),
        _ => None,
    }
}

pub fn struct_of(of: CType) -> Option<StructId>
    ensures { (identity : ℕ → StructIdentity) (es : List Entry)
        → parts.identity_of identity result ≡ parts.struct_in (type_of identity es of) }
{
    match of {
        CType::Struct(of) => Some(of),
        _ => None,
    }
}

pub fn signature_of(of: CType) -> Option<Signature>
    ensures named { (before : List Node) → table.fits_type before of ≡ true
        → IfSome result (λ s. parts.NamesSignature before s) }
    ensures signature { (identity : ℕ → StructIdentity) (es : List Entry)
        → parts.plain_signature es result ≡ parts.signature_in (type_of identity es of) }
{
    match of {
        CType::Function {
            result,
            parameters,
            variadic,
            ..
        } => Some(Signature {
            result,
            parameters,
            variadic,
        }),
        _ => None,
    }
}

/// The pointer that a value is whose type, of this number, is an array or a function.
pub fn pointer_of_value(of: CType, id: TypeId) -> Option<QualifiedType>
    ensures named { (before : List Node) → table.fits_type before of ≡ true
        → IfSome result (λ to. parts.IsNamedOr before id to.type_id) }
    ensures value { (identity : ℕ → StructIdentity) (es : List Entry) → type_at es id.0 ≡ type_of identity es of
        → parts.value_by (plain_made (type_at es) result) (type_of identity es of)
        ≡ classes.as_value (type_of identity es of) }
{
    match of {
        CType::Array { qualifiers, of, .. } => Some(QualifiedType {
            type_id: of,
            qualifiers,
        }),
        CType::Function { .. } => Some(QualifiedType {
            type_id: id,
            qualifiers: PLAIN,
        }),
        _ => None,
    }
}
