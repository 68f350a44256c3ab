//! Compatible types over the numbers of a table (C99 6.2.7).
//!
//! In: a table of ck_types and two numbers of types. Out: whether the types are compatible, in time that grows with the
//! pairs of their parts, each looked at once; or these pairs, for who goes over them. The definition is ck_types'
//! (`specs/Types.antt`, `compatible`); that this answer is its, `specs/Compatible.antt` says.
//!
//! No function calls itself, since typedef names nest types as deep as a file is long. It must not know: names, scopes,
//! trees, and why two types are compared.
#![tactic(auto)]

mod agreement;
mod comparison;
mod pairs;

pub use agreement::{named_list, named_type};
pub use comparison::compatible;
pub use pairs::agreeing_pairs;
