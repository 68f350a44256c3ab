//! The numbers of a typed project's calls.
//!
//! In: the tables of a linked project, and for each declaration what a call by its name is. Out: a row for each
//! evaluated call that is no act, by function and then by path (C99 6.5.2.2). What rules it: `AreCalls` of
//! `specs/TypedRows.antt`, which also says which rows are those of a typed project. Statements, declarations,
//! initialisers and expressions are walked in the order of paths, each into those of smaller numbers; chains, rows of
//! suffixes and arguments are walked by loops.
//!
//! It must not know: points, edges, orders of operands, the parser's trees, what is refused.
#![tactic(auto)]

mod callees;
mod declarations;
mod expressions;
mod functions;
mod initialisers;
mod laws;
mod reading;
mod statements;
mod trail;
mod walk;

pub use functions::call_rows;
pub use laws::rows_are_typed;
