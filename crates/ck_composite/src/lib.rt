//! The composite type of two compatible types over the numbers of a table (C99 6.2.7).
//!
//! In: a table of ck_types and two numbers of types. Out: whether the types are compatible, and the number of their
//! composite type, which is added with its parts where the table doesn't have them. The time grows with the pairs of
//! their parts, each made once, and with the sort of these. The definition is ck_types' (`specs/Types.antt`,
//! `composite`); that the number stands for it, `specs/Composite.antt` says.
//!
//! No function calls itself, since typedef names nest types as deep as a file is long. It must not know: names, scopes,
//! trees, and why two types are joined.
#![tactic(auto)]

mod composite_nodes;
mod joining;
mod made;
mod order;

pub use joining::joined;
