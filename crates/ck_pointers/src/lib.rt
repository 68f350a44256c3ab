//! Rules for the function pointers of a project, made as its expressions are asked for.
//!
//! In: a typed project's tables, the kinds of its calls, and rules (ck_reaching) with a cell for each slot. Out: for an
//! expression the source of its value (nowhere, a function, a cell of the rules), and rules that follow from the
//! project; what a source stands for is the origin of the expression's tree (ck_slots), and when rules stand for a part
//! of a project is in ck_origins. The expressions of smaller numbers are known then too, each made once, and no
//! function calls itself. The definitions that rule it are in `specs/Lib.antt`, in reading order; which rows are those
//! of a typed project's slots is in `specs/TypedSlots.antt`.
//!
//! It must not know: which things are given, statements, graphs, states, settings files.
#![tactic(auto)]

mod expressions;
mod givens;
mod sources;

pub use expressions::Callables;
pub use givens::give;
pub use sources::{Source, bring, cell_of, either, result_of};
