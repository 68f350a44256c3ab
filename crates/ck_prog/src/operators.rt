//! The operators of expressions (C99 6.5), without their texts.
use ck_types::{BinaryOperator, UnaryOperator};

/// An operator between two operands (6.5.5 to 6.5.14, 6.5.17).
#[derive(Clone, Copy, Debug, PartialEq, Eq)]
pub enum Operator {
    /// one that makes a value of two, where both are integers
    Binary(BinaryOperator),
    /// `&&`
    And,
    /// `||`
    Or,
    /// `,`
    Comma,
}

/// An operator before its operand (6.5.3).
#[derive(Clone, Copy, Debug, PartialEq, Eq)]
pub enum Prefix {
    /// one that makes a value of one, where it is an integer
    Unary(UnaryOperator),
    /// `++`
    Increment,
    /// `--`
    Decrement,
    /// `&`
    Address,
    /// `*`
    Dereference,
    /// `sizeof`
    SizeOf,
}

/// An assignment (6.5.16).
#[derive(Clone, Copy, Debug, PartialEq, Eq)]
pub enum Assigning {
    /// `=`
    Plain,
    /// `+=` and its like
    With(BinaryOperator),
}

/// How an expression is used by the one around it.
#[derive(Clone, Copy, Debug, PartialEq, Eq)]
pub enum Role {
    /// it is called, maybe in parentheses (6.5.2.2)
    Called,
    /// an index is taken of it, `sizeof` is, or it is a whole initialiser: an array may be so as it is
    Whole,
    /// its value is taken
    Value,
}
