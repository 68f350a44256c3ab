//! What operators make of values of integer types (C99 6.5.3.3, 6.5.5 to 6.5.12).
ghost use Rattle.std.specs.Prelude.{◌≡◌, ◌^◌, true, false, pos, ◌<◌, ◌≤◌, ◌≤ℤ◌, ◌<ℤ◌};
ghost use Rattle.std.specs.Prelude.{int_div, int_rem, unsigned_abs, IfOk};
ghost use Rattle.std.specs.Ordering.{int_eq};
ghost use lib.IntN.{◌+ℤ◌, ◌-ℤ◌, ◌*ℤ◌};
ghost use Rattle.ck_types.specs.Arithmetic as spec;
ghost use Rattle.ck_types.specs.IntegerTypes as types;
ghost use Rattle.ck_types.specs.Ranges.{IsInRange, IsValue};

use crate::integer_types::IntegerType;

/// An operator on two values of integer types. `&&`, `||` and `,` are none: their right operand may not be evaluated,
/// or the left one is dropped.
#[derive(Clone, Copy, Debug, PartialEq, Eq)]
pub enum BinaryOperator {
    /// `*` (6.5.5)
    Multiply,
    /// `/` (6.5.5)
    Divide,
    /// `%` (6.5.5)
    Remainder,
    /// `+` (6.5.6)
    Add,
    /// `-` (6.5.6)
    Subtract,
    /// `<<` (6.5.7)
    ShiftLeft,
    /// `>>` (6.5.7)
    ShiftRight,
    /// `<` (6.5.8)
    Less,
    /// `>` (6.5.8)
    Greater,
    /// `<=` (6.5.8)
    LessOrEqual,
    /// `>=` (6.5.8)
    GreaterOrEqual,
    /// `==` (6.5.9)
    Equal,
    /// `!=` (6.5.9)
    NotEqual,
    /// `&` (6.5.10)
    BitwiseAnd,
    /// `^` (6.5.11)
    BitwiseXor,
    /// `|` (6.5.12)
    BitwiseOr,
}

/// An operator on one value of an integer type (6.5.3.3).
#[derive(Clone, Copy, Debug, PartialEq, Eq)]
pub enum UnaryOperator {
    /// `+`
    Plus,
    /// `-`
    Minus,
    /// `~`
    Complement,
    /// `!`
    Not,
}

/// Why an operation is undefined.
#[derive(Clone, Copy, Debug, PartialEq, Eq)]
pub enum NoValue {
    /// `/` or `%` by 0.
    DivisionByZero,
    /// A signed result, or the quotient beside `%`, that its type can't represent; a negative value shifted to the
    /// left.
    SignedOverflow,
    /// A negative shift count, or one that isn't below the width of the promoted left operand.
    BadShift,
}

/// A value of an integer type.
#[derive(Clone, Copy, Debug, PartialEq, Eq)]
pub struct IntegerValue {
    /// Its type.
    pub of: IntegerType,
    /// The value, in the type's range where it comes of a call of this crate.
    pub value: i128,
}

impl BinaryOperator {
    /// What the operator makes of two values, which it converts first as C does: the result with its type, or why there
    /// is none.
    pub fn apply(self, left: IntegerValue, right: IntegerValue) -> Result<IntegerValue, NoValue>
        ensures value { result ≡ spec.binary self left right }
        ensures range { IfOk result IsInRange }
    {
        let left_type = self.left_type(left.of, right.of);
        let x = left_type.convert(left.value);
        let y = self.right_type(left.of, right.of).convert(right.value);
        typed(
            self.result_type(left.of, right.of),
            self.combine(left_type, x, y),
        )
    }

    /// The type of the result, from the operands' types.
    pub fn result_type(self, left: IntegerType, right: IntegerType) -> IntegerType
        ensures { result ≡ spec.result_type self left right }
    {
        if self.is_comparison() {
            IntegerType::Int
        } else {
            self.left_type(left, right)
        }
    }

    /// The type that the left operand is converted to.
    pub fn left_type(self, left: IntegerType, right: IntegerType) -> IntegerType
        ensures { result ≡ spec.left_type self left right }
    {
        if self.is_shift() {
            left.promoted()
        } else {
            left.common(right)
        }
    }

    /// The type that the right operand is converted to.
    pub fn right_type(self, left: IntegerType, right: IntegerType) -> IntegerType
        ensures { result ≡ spec.right_type self left right }
    {
        if self.is_shift() {
            right.promoted()
        } else {
            left.common(right)
        }
    }

    /// Whether it is a shift (6.5.7).
    pub fn is_shift(self) -> bool
        ensures { result ≡ spec.is_shift self }
    {
        matches!(self, BinaryOperator::ShiftLeft | BinaryOperator::ShiftRight)
    }

    /// Whether it compares (6.5.8, 6.5.9).
    pub fn is_comparison(self) -> bool
        ensures { result ≡ spec.is_comparison self }
    {
        matches!(
            self,
            BinaryOperator::Less
                | BinaryOperator::Greater
                | BinaryOperator::LessOrEqual
                | BinaryOperator::GreaterOrEqual
                | BinaryOperator::Equal
                | BinaryOperator::NotEqual
        )
    }

    /// What it makes of converted operands, the left one of type `of`.
    fn combine(self, of: IntegerType, x: i128, y: i128) -> Result<i128, NoValue>
        requires left { types.represents of x ≡ true }
        requires right { spec.is_shift self ≡ false → types.represents of y ≡ true }
        ensures { result ≡ spec.combined self of x y }
    {
        match self {
            BinaryOperator::Multiply => multiply(of, x, y),
            BinaryOperator::Divide => divide(of, x, y),
            BinaryOperator::Remainder => take_remainder(of, x, y),
            BinaryOperator::Add => in_type(of, sum(x, y)),
            BinaryOperator::Subtract => in_type(of, difference(x, y)),
            BinaryOperator::ShiftLeft => shift_left(of, x, y),
            BinaryOperator::ShiftRight => shift_right(of, x, y),
            BinaryOperator::Less => Ok(i128::from(x < y)),
            BinaryOperator::Greater => Ok(i128::from(y < x)),
            BinaryOperator::LessOrEqual => Ok(i128::from(x <= y)),
            BinaryOperator::GreaterOrEqual => Ok(i128::from(y <= x)),
            BinaryOperator::Equal => Ok(i128::from(x == y)),
            BinaryOperator::NotEqual => Ok(i128::from(x != y)),
            BinaryOperator::BitwiseAnd => Ok(of.wrap(i128::from(bits(of, x) & bits(of, y)))),
            BinaryOperator::BitwiseXor => Ok(of.wrap(i128::from(bits(of, x) ^ bits(of, y)))),
            BinaryOperator::BitwiseOr => Ok(of.wrap(i128::from(bits(of, x) | bits(of, y)))),
        }
    }
}

impl UnaryOperator {
    /// What the operator makes of a value, which it promotes first: the result with its type, or why there is none.
    pub fn apply(self, operand: IntegerValue) -> Result<IntegerValue, NoValue>
        ensures value { result ≡ spec.unary self operand }
        ensures range { IfOk result IsInRange }
    {
        let promoted = operand.of.promoted();
        let changed = self.change(promoted, promoted.convert(operand.value));
        typed(self.result_type(operand.of), changed)
    }

    /// The type of the result, from the operand's type.
    pub fn result_type(self, operand: IntegerType) -> IntegerType
        ensures { result ≡ spec.unary_type self operand }
    {
        match self {
            UnaryOperator::Not => IntegerType::Int,
            _ => operand.promoted(),
        }
    }

    /// What it makes of a promoted operand of type `of`.
    fn change(self, of: IntegerType, x: i128) -> Result<i128, NoValue>
        requires { types.represents of x ≡ true }
        ensures { result ≡ spec.changed self of x }
    {
        match self {
            UnaryOperator::Plus => Ok(x),
            UnaryOperator::Minus => in_type(of, difference(0, x)),
            UnaryOperator::Complement => Ok(of.wrap(difference(-1, x))),
            UnaryOperator::Not => Ok(i128::from(x == 0)),
        }
    }
}

/// A result in a type.
fn in_type(of: IntegerType, value: i128) -> Result<i128, NoValue>
    ensures { result ≡ spec.in_type of value }
{
    if of.is_signed() {
        where_represented(of, value, value)
    } else {
        Ok(value.rem_euclid(of.modulus()))
    }
}

/// A product. Two values of 64 bits without a sign have one of 128, which no signed number holds.
fn multiply(of: IntegerType, x: i128, y: i128) -> Result<i128, NoValue>
    requires left { types.represents of x ≡ true }
    requires right { types.represents of y ≡ true }
    ensures { result ≡ spec.in_type of (x *ℤ y) }
{
    if of.is_signed() {
        return in_type(of, product(x, y));
    }
    let product = (x as u128) * (y as u128);
    Ok((product % (of.modulus() as u128)) as i128)
}

/// A quotient in a type.
fn divide(of: IntegerType, x: i128, y: i128) -> Result<i128, NoValue>
    requires left { IsValue x }
    requires right { IsValue y }
    ensures { result ≡ spec.with_quotient of x y (int_div x y) }
{
    if y == 0 {
        Err(NoValue::DivisionByZero)
    } else {
        where_represented(of, quotient(x, y), quotient(x, y))
    }
}

/// The remainder beside a quotient in a type.
fn take_remainder(of: IntegerType, x: i128, y: i128) -> Result<i128, NoValue>
    requires left { IsValue x }
    requires right { IsValue y }
    ensures { result ≡ spec.with_quotient of x y (int_rem x y) }
{
    if y == 0 {
        Err(NoValue::DivisionByZero)
    } else {
        where_represented(of, quotient(x, y), remainder(x, y))
    }
}

/// A result, where a value is one that the type can represent.
fn where_represented(of: IntegerType, value: i128, outcome: i128) -> Result<i128, NoValue>
    ensures { result ≡ spec.where_represented of value outcome }
{
    if of.represents(value) {
        Ok(outcome)
    } else {
        Err(NoValue::SignedOverflow)
    }
}

/// Whether a value can be shifted by a count.
fn is_shift_count(of: IntegerType, count: i128) -> bool
    ensures { result ≡ spec.is_shift_count of count }
{
    0 <= count && count < i128::from(of.width())
}

/// A value shifted to the left.
fn shift_left(of: IntegerType, x: i128, count: i128) -> Result<i128, NoValue>
    requires { types.represents of x ≡ true }
    ensures { result ≡ spec.shifted_left of x count }
{
    if !is_shift_count(of, count) {
        Err(NoValue::BadShift)
    } else if x < 0 {
        Err(NoValue::SignedOverflow)
    } else {
        in_type(of, product(x, power_of_two(count)))
    }
}

/// A value shifted to the right.
fn shift_right(of: IntegerType, x: i128, count: i128) -> Result<i128, NoValue>
    requires { types.represents of x ≡ true }
    ensures { result ≡ spec.shifted_right of x count }
{
    if is_shift_count(of, count) {
        Ok(x.div_euclid(power_of_two(count)))
    } else {
        Err(NoValue::BadShift)
    }
}

/// A result with its type.
fn typed(of: IntegerType, outcome: Result<i128, NoValue>) -> Result<IntegerValue, NoValue>
    ensures { result ≡ spec.typed of outcome }
{
    match outcome {
        Ok(value) => Ok(IntegerValue { of, value }),
        Err(undefined) => Err(undefined),
    }
}

/// A sum of two values.
fn sum(x: i128, y: i128) -> i128
    requires left { IsValue x }
    requires right { IsValue y }
    ensures { result ≡ x +ℤ y }
{
    x + y
}

/// A difference of two values.
fn difference(x: i128, y: i128) -> i128
    requires left { IsValue x }
    requires right { IsValue y }
    ensures { result ≡ x -ℤ y }
{
    x - y
}

/// A quotient of two values, rounded toward 0.
fn quotient(x: i128, y: i128) -> i128
    requires left { IsValue x }
    requires right { IsValue y }
    requires divisor { int_eq y (pos 0) ≡ false }
    ensures { result ≡ int_div x y }
{
    x / y
}

/// The remainder beside a quotient of two values.
fn remainder(x: i128, y: i128) -> i128
    requires left { IsValue x }
    requires right { IsValue y }
    requires divisor { int_eq y (pos 0) ≡ false }
    ensures { result ≡ int_rem x y }
{
    x % y
}

/// A product that 128 bits hold.
fn product(x: i128, y: i128) -> i128
    requires left { unsigned_abs x < 2 ^ 64 }
    requires right { unsigned_abs y ≤ 2 ^ 63 }
    ensures { result ≡ x *ℤ y }
{
    x * y
}

/// 2 to a power below 64.
fn power_of_two(exponent: i128) -> i128
    requires from { pos 0 ≤ℤ exponent }
    requires to { exponent <ℤ pos 64 }
    ensures value { result ≡ pos (2 ^ unsigned_abs exponent) }
    ensures small { result ≤ℤ pos (2 ^ 63) }
{
    i128::from(1u64 << (exponent as u32))
}

/// The bits of a value, as a number.
fn bits(of: IntegerType, value: i128) -> u64
    ensures { result ≡ spec.bits_of of value }
{
    value.rem_euclid(of.modulus()) as u64
}
