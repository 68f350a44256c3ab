//! Integer constant expressions, folded (C99 6.6).
//!
//! In: what is known of the operands' values, and their types. Out: what is known of the value that an operator makes of
//! them. What rules it: `ConstantExpressions.antt` of ck_prog, over the operators of ck_types.
//!
//! It must not know: how types and values are kept, pointers, trees, what is refused.
#![tactic(auto)]

mod constants;
mod folds;

pub use constants::Constant;
pub use folds::{fold_and, fold_binary, fold_cast, fold_choice, fold_or, fold_unary};
