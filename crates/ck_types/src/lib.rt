//! The types of the C subset and their values.
//!
//! In: integer types, values, the spelling of a constant as its base, suffix and value. Out: ranks, ranges,
//! promotions and conversions (C99 6.3.1), what an operator makes of two values or why it makes none (6.5),
//! the type of an integer constant (6.4.4.1); and, as definitions with their laws, the types of C as plain
//! data, with compatible and composite types (6.2.7). What rules it is in `specs/Lib.antt`, in reading
//! order; docs/LANGUAGE.md, "Types and values", has it in words.
//!
//! It must not know: names, scopes, trees, and where a value is kept.
#![tactic(auto)]

mod characters;
mod constants;
mod integer_types;
mod laws;
mod literals;
mod operators;
mod type_nodes;
mod types;

pub use constants::{Suffix, constant_type};
pub use integer_types::IntegerType;
pub use laws::{
    compatible_is_reflexive, compatible_is_symmetric, constants_have_types, converts_into_range,
    converts_to_itself, equal_types_have_one_number, numbers_stand_for_types,
    operators_stay_in_range, tables_keep_numbers,
};
pub use literals::{character_constant, integer_constant};
pub use operators::{BinaryOperator, IntegerValue, NoValue, UnaryOperator};
pub use types::{CType, Node, ParametersId, Qualifiers, StructId, TypeId, Types, convert};
