//! What operators make of values (C99 6.5.3.3, 6.5.5 to 6.5.12).
use ck_types::BinaryOperator::{self, *};
use ck_types::IntegerType::{self, *};
use ck_types::NoValue::{self, *};
use ck_types::{IntegerValue, UnaryOperator};

fn value_of(of: IntegerType, value: i128) -> IntegerValue {
    IntegerValue { of, value }
}

/// An operator, its operands, and the result or why there is none.
const RESULTS: [(
    BinaryOperator,
    IntegerType,
    i128,
    IntegerType,
    i128,
    IntegerType,
    i128,
); 40] = [
    (Add, Int, 2, Int, 3, Int, 5),
    (Add, Char, 200, Char, 100, Int, 300),
    (Add, UnsignedInt, 4_294_967_295, Int, 1, UnsignedInt, 0),
    (Add, Long, -1, UnsignedInt, 1, UnsignedLong, 0),
    (
        Add,
        UnsignedLong,
        4_294_967_295,
        LongLong,
        1,
        LongLong,
        4_294_967_296,
    ),
    (
        Subtract,
        UnsignedInt,
        0,
        UnsignedInt,
        1,
        UnsignedInt,
        4_294_967_295,
    ),
    (Subtract, UnsignedShort, 0, UnsignedShort, 1, Int, -1),
    (Multiply, UnsignedShort, 65_535, Char, 2, Int, 131_070),
    (
        Multiply,
        UnsignedInt,
        65_536,
        UnsignedInt,
        65_536,
        UnsignedInt,
        0,
    ),
    (
        Multiply,
        UnsignedLongLong,
        18_446_744_073_709_551_615,
        UnsignedLongLong,
        18_446_744_073_709_551_615,
        UnsignedLongLong,
        1,
    ),
    (Multiply, Int, -46_340, Int, 46_340, Int, -2_147_395_600),
    (Divide, Int, -7, Int, 2, Int, -3),
    (Divide, Int, 7, Int, -2, Int, -3),
    (Divide, Int, -7, UnsignedInt, 2, UnsignedInt, 2_147_483_644),
    (Remainder, Int, -7, Int, 2, Int, -1),
    (Remainder, Int, 7, Int, -2, Int, 1),
    (
        Remainder,
        LongLong,
        -9_223_372_036_854_775_807,
        Int,
        10,
        LongLong,
        -7,
    ),
    (ShiftLeft, Int, 1, Int, 30, Int, 1_073_741_824),
    (
        ShiftLeft,
        UnsignedInt,
        3,
        LongLong,
        31,
        UnsignedInt,
        2_147_483_648,
    ),
    (ShiftLeft, Char, 255, UnsignedLongLong, 8, Int, 65_280),
    (
        ShiftLeft,
        LongLong,
        1,
        Char,
        62,
        LongLong,
        4_611_686_018_427_387_904,
    ),
    (ShiftRight, Int, -5, Int, 1, Int, -3),
    (ShiftRight, Int, -1, Int, 31, Int, -1),
    (
        ShiftRight,
        UnsignedInt,
        4_294_967_295,
        Int,
        31,
        UnsignedInt,
        1,
    ),
    (ShiftRight, UnsignedShort, 65_535, Int, 31, Int, 0),
    (Less, Int, -1, UnsignedInt, 1, Int, 0),
    (Less, Short, -1, UnsignedShort, 1, Int, 1),
    (Greater, LongLong, -1, UnsignedInt, 4_294_967_295, Int, 0),
    (Greater, Int, -1, UnsignedLong, 4_294_967_294, Int, 1),
    (LessOrEqual, Int, 3, Int, 3, Int, 1),
    (LessOrEqual, Int, 4, Int, 3, Int, 0),
    (GreaterOrEqual, Int, 3, Int, 4, Int, 0),
    (GreaterOrEqual, UnsignedInt, 0, Int, -1, Int, 0),
    (Equal, Int, -1, UnsignedInt, 4_294_967_295, Int, 1),
    (Equal, SignedChar, -1, Char, 255, Int, 0),
    (NotEqual, LongLong, -1, UnsignedInt, 4_294_967_295, Int, 1),
    (BitwiseAnd, Int, -1, Char, 255, Int, 255),
    (
        BitwiseAnd,
        LongLong,
        -1,
        UnsignedInt,
        4_294_967_295,
        LongLong,
        4_294_967_295,
    ),
    (BitwiseXor, Int, -1, Int, 1, Int, -2),
    (
        BitwiseOr,
        Short,
        -32_768,
        UnsignedInt,
        1,
        UnsignedInt,
        4_294_934_529,
    ),
];

#[test]
fn results_of_binary_operators(rt: HostRuntime) {
    for (operator, left, x, right, y, of, value) in RESULTS {
        let result = operator.apply(value_of(left, x), value_of(right, y));
        assert!(rt; result == Ok(value_of(of, value)), "at {x} and {y}");
    }
}

/// An operator, its operands, and why there is no result.
const NO_RESULTS: [(
    BinaryOperator,
    IntegerType,
    i128,
    IntegerType,
    i128,
    NoValue,
); 18] = [
    (Add, Int, 2_147_483_647, Int, 1, SignedOverflow),
    (Add, Long, -2_147_483_648, SignedChar, -1, SignedOverflow),
    (Subtract, Int, -2_147_483_648, Int, 1, SignedOverflow),
    (
        Multiply,
        UnsignedShort,
        65_535,
        UnsignedShort,
        65_535,
        SignedOverflow,
    ),
    (
        Multiply,
        LongLong,
        4_294_967_296,
        LongLong,
        2_147_483_648,
        SignedOverflow,
    ),
    (Divide, Int, 1, Int, 0, DivisionByZero),
    (Divide, UnsignedInt, 0, UnsignedInt, 0, DivisionByZero),
    (Divide, Int, -2_147_483_648, Int, -1, SignedOverflow),
    (Remainder, Int, -2_147_483_648, Int, -1, SignedOverflow),
    (Remainder, UnsignedLongLong, 5, Bool, 0, DivisionByZero),
    (ShiftLeft, Int, 1, Int, 31, SignedOverflow),
    (ShiftLeft, Int, -1, Int, 0, SignedOverflow),
    (ShiftLeft, Int, 1, Int, 32, BadShift),
    (ShiftLeft, Char, 1, UnsignedInt, 4_294_967_295, BadShift),
    (ShiftRight, Int, 1, Int, -1, BadShift),
    (ShiftRight, LongLong, 1, Int, 64, BadShift),
    (
        ShiftRight,
        UnsignedInt,
        1,
        LongLong,
        4_294_967_296,
        BadShift,
    ),
    (
        Add,
        Short,
        1,
        LongLong,
        9_223_372_036_854_775_807,
        SignedOverflow,
    ),
];

#[test]
fn binary_operators_without_result(rt: HostRuntime) {
    for (operator, left, x, right, y, why) in NO_RESULTS {
        let result = operator.apply(value_of(left, x), value_of(right, y));
        assert!(rt; result == Err(why), "at {x} and {y}");
    }
}

/// An operator, its operand, and the result.
const UNARY: [(UnaryOperator, IntegerType, i128, IntegerType, i128); 14] = [
    (UnaryOperator::Plus, Char, 200, Int, 200),
    (UnaryOperator::Plus, UnsignedLong, 7, UnsignedLong, 7),
    (UnaryOperator::Minus, Char, 1, Int, -1),
    (
        UnaryOperator::Minus,
        UnsignedInt,
        1,
        UnsignedInt,
        4_294_967_295,
    ),
    (
        UnaryOperator::Minus,
        UnsignedInt,
        2_147_483_648,
        UnsignedInt,
        2_147_483_648,
    ),
    (UnaryOperator::Minus, Long, 5, Long, -5),
    (UnaryOperator::Complement, Bool, 0, Int, -1),
    (UnaryOperator::Complement, Char, 1, Int, -2),
    (
        UnaryOperator::Complement,
        UnsignedInt,
        0,
        UnsignedInt,
        4_294_967_295,
    ),
    (
        UnaryOperator::Complement,
        LongLong,
        4_294_967_295,
        LongLong,
        -4_294_967_296,
    ),
    (
        UnaryOperator::Complement,
        UnsignedLongLong,
        1,
        UnsignedLongLong,
        18_446_744_073_709_551_614,
    ),
    (UnaryOperator::Not, UnsignedLongLong, 2, Int, 0),
    (UnaryOperator::Not, Short, 0, Int, 1),
    (UnaryOperator::Not, LongLong, -1, Int, 0),
];

#[test]
fn results_of_unary_operators(rt: HostRuntime) {
    for (operator, operand, x, of, value) in UNARY {
        let result = operator.apply(value_of(operand, x));
        assert!(rt; result == Ok(value_of(of, value)), "at {x}");
    }
}

#[test]
fn minus_of_the_least_value(rt: HostRuntime) {
    for of in [Int, Long, LongLong] {
        let result = UnaryOperator::Minus.apply(value_of(of, of.least()));
        assert!(rt; result == Err(SignedOverflow), "minus of the least value");
    }
}
