//! What expressions ask of types, over the numbers of a table.
//!
//! In: a table of types and the numbers of one or two, and for some questions which types are complete where. Out:
//! which class a type is of, what it is made of one level deep (C99 6.2.5), the type that its value has (6.3.2.1),
//! which two are alike, what an object takes (6.5.16), and the common type of two operands (6.5.15). What rules it:
//! `TypeClasses.antt`, `BinarySenses.antt` and `AssignmentSenses.antt` of ck_prog, and `specs/`; each clause holds
//! whichever structs the numbers of structs name.
//!
//! It must not know: names, scopes, trees, which structs are complete, what is refused.
#![tactic(auto)]

mod alike;
mod classes;
mod common;
mod nodes;
mod objects;
mod parts;
mod taking;
mod values;

pub use alike::{
    are_alike, are_ordered, are_to_alike, are_to_compatible, are_void_and_object, is_same_struct,
};
pub use classes::{is_array, is_function, is_integer, is_pointer, is_scalar, is_truth, is_void};
pub use common::common_type;
pub use objects::{Objects, points_to_object};
pub use parts::{Signature, integer_of, pointed, signature_of, struct_of};
pub use taking::{takes, takes_with};
pub use values::{PLAIN, integer_type, pointer_to, value_type, void_type};
