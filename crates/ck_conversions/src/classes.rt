//! Classes of types (C99 6.2.5).
ghost use Rattle.std.specs.Prelude.{◌≡◌, ℕ, true};
ghost use Rattle.ck_prog.specs.TypeClasses as classes;
ghost use Rattle.ck_conversions.specs.Parts.{type_in};
ghost use Rattle.ck_types.specs.TypeTable as table;
ghost use Rattle.ck_types.specs.Types.{StructIdentity};

use crate::nodes;
use ck_types::{TypeId, Types};

/// Whether it is `void`.
pub fn is_void(types: &Types, id: TypeId) -> bool
    requires { table.names_type types.now id.0 ≡ true }
    ensures { (identity : ℕ → StructIdentity) → result ≡ classes.is_void (type_in identity types.now id) }
{
    nodes::is_void(types.node(id))
}

/// Whether it is an integer type, `_Bool` among them.
pub fn is_integer(types: &Types, id: TypeId) -> bool
    requires { table.names_type types.now id.0 ≡ true }
    ensures { (identity : ℕ → StructIdentity) → result ≡ classes.is_integer (type_in identity types.now id) }
{
    nodes::is_integer(types.node(id))
}

/// Whether it is `_Bool`.
pub fn is_truth(types: &Types, id: TypeId) -> bool
    requires { table.names_type types.now id.0 ≡ true }
    ensures { (identity : ℕ → StructIdentity) → result ≡ classes.is_truth (type_in identity types.now id) }
{
    nodes::is_truth(types.node(id))
}

/// Whether it is a pointer.
pub fn is_pointer(types: &Types, id: TypeId) -> bool
    requires { table.names_type types.now id.0 ≡ true }
    ensures { (identity : ℕ → StructIdentity) → result ≡ classes.is_pointer (type_in identity types.now id) }
{
    nodes::is_pointer(types.node(id))
}

/// Whether it is an array.
pub fn is_array(types: &Types, id: TypeId) -> bool
    requires { table.names_type types.now id.0 ≡ true }
    ensures { (identity : ℕ → StructIdentity) → result ≡ classes.is_array (type_in identity types.now id) }
{
    nodes::is_array(types.node(id))
}

/// Whether it is a function.
pub fn is_function(types: &Types, id: TypeId) -> bool
    requires { table.names_type types.now id.0 ≡ true }
    ensures { (identity : ℕ → StructIdentity) → result ≡ classes.is_function (type_in identity types.now id) }
{
    nodes::is_function(types.node(id))
}

/// Whether it is an integer type or a pointer: there are no other arithmetic types.
pub fn is_scalar(types: &Types, id: TypeId) -> bool
    requires { table.names_type types.now id.0 ≡ true }
    ensures { (identity : ℕ → StructIdentity) → result ≡ classes.is_scalar (type_in identity types.now id) }
{
    is_integer(types, id) || is_pointer(types, id)
}
