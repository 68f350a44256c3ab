//! What readers ask of an expression's outermost production.
use ck_base::Token;

/// The outermost production of an expression, as far as `sizeof`, `++`, `--`, unary operators and assignments ask
/// for it (C99 6.5.3, 6.5.16; `specs/Forms.antt`).
#[derive(Clone, Copy, Debug, PartialEq, Eq)]
pub enum Form {
    /// Primary, postfix or unary (6.5.1 to 6.5.3).
    Unary,
    /// A cast (6.5.4).
    Cast,
    /// A chain of operands, by its first operator.
    Chain(Option<Token>),
    /// A conditional expression or an assignment.
    Looser,
}
