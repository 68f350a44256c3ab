//! What operators make of constants (C99 6.6): each operand has to be a constant, also where it isn't evaluated.
ghost use Rattle.std.specs.Prelude.{◌≡◌};
ghost use Rattle.ck_folding.specs.Constants.{constancy, truth_of};
ghost use Rattle.ck_prog.specs.ConstantExpressions as spec;

use crate::constants::Constant;
use ck_types::{BinaryOperator, IntegerType, IntegerValue, NoValue, UnaryOperator};

/// What an operator makes of two operands of these types (6.5.5 to 6.5.12).
pub fn fold_binary(
    operator: BinaryOperator,
    left: IntegerType,
    right: IntegerType,
    a: Constant,
    b: Constant,
) -> Constant
    ensures { constancy result ≡ spec.binary_constancy operator left right (constancy a) (constancy b) }
{
    match (a, b) {
        (Constant::Varying, _) | (_, Constant::Varying) => Constant::Varying,
        (Constant::Valueless, _) | (_, Constant::Valueless) => Constant::Valueless,
        (Constant::Known(x), Constant::Known(y)) => outcome(operator.apply(
            IntegerValue { of: left, value: x },
            IntegerValue {
                of: right,
                value: y,
            },
        )),
    }
}

/// What an operator makes of its operand of this type (6.5.3.3).
pub fn fold_unary(operator: UnaryOperator, of: IntegerType, a: Constant) -> Constant
    ensures { constancy result ≡ spec.unary_constancy operator of (constancy a) }
{
    match a {
        Constant::Known(value) => outcome(operator.apply(IntegerValue { of, value })),
        other => other,
    }
}

/// A constant, cast to a type (6.5.4).
pub fn fold_cast(to: IntegerType, a: Constant) -> Constant
    ensures { constancy result ≡ spec.cast_constancy to (constancy a) }
{
    match a {
        Constant::Known(value) => Constant::Known(to.convert(value)),
        other => other,
    }
}

/// What `&&` makes of its operands (6.5.13): where the first is 0, the second isn't evaluated.
pub fn fold_and(a: Constant, b: Constant) -> Constant
    ensures { constancy result ≡ spec.and_constancy (constancy a) (constancy b) }
{
    match (a, b) {
        (Constant::Varying, _) | (_, Constant::Varying) => Constant::Varying,
        (Constant::Valueless, _) => Constant::Valueless,
        (Constant::Known(_), other) => {
            if a.is_zero() {
                Constant::Known(0)
            } else {
                truth(other)
            }
        }
    }
}

/// What `||` makes of its operands (6.5.14): where the first isn't 0, the second isn't evaluated.
pub fn fold_or(a: Constant, b: Constant) -> Constant
    ensures { constancy result ≡ spec.or_constancy (constancy a) (constancy b) }
{
    match (a, b) {
        (Constant::Varying, _) | (_, Constant::Varying) => Constant::Varying,
        (Constant::Valueless, _) => Constant::Valueless,
        (Constant::Known(_), other) => {
            if a.is_zero() {
                truth(other)
            } else {
                Constant::Known(1)
            }
        }
    }
}

/// What `? :` makes of its operands (6.5.15): one of the second and the third isn't evaluated.
pub fn fold_choice(test: Constant, a: Constant, b: Constant) -> Constant
    ensures { constancy result ≡ spec.choice_constancy (constancy test) (constancy a) (constancy b) }
{
    match (test, a, b) {
        (Constant::Varying, _, _) | (_, Constant::Varying, _) | (_, _, Constant::Varying) => {
            Constant::Varying
        }
        (Constant::Valueless, _, _) => Constant::Valueless,
        (Constant::Known(_), second, third) => { if test.is_zero() { third } else { second } }
    }
}

/// Whether a constant is other than 0, as a number.
fn truth(a: Constant) -> Constant
    ensures { constancy result ≡ truth_of (constancy a) }
{
    match a {
        Constant::Known(value) => Constant::Known(i128::from(value != 0)),
        other => other,
    }
}

/// The value of a result: an operation that is undefined has none (6.5).
fn outcome(made: Result<IntegerValue, NoValue>) -> Constant
    ensures { constancy result ≡ spec.outcome made }
{
    match made {
        Ok(value) => Constant::Known(value.value),
        Err(_) => Constant::Valueless,
    }
}
