//! Conversions of values, common types, promotions, sizes and ranges (C99 6.2.5, 6.3.1).
use ck_types::IntegerType::{self, *};
use ck_types::{CType, convert};

/// A value, a type, and the value converted to it.
const CONVERSIONS: [(i128, IntegerType, i128); 28] = [
    (0, Bool, 0),
    (2, Bool, 1),
    (-1, Bool, 1),
    (256, Bool, 1),
    (255, Char, 255),
    (256, Char, 0),
    (-1, Char, 255),
    (127, SignedChar, 127),
    (128, SignedChar, -128),
    (-129, SignedChar, 127),
    (300, SignedChar, 44),
    (32_768, Short, -32_768),
    (-32_769, Short, 32_767),
    (65_536, UnsignedShort, 0),
    (-1, UnsignedShort, 65_535),
    (2_147_483_647, Int, 2_147_483_647),
    (2_147_483_648, Int, -2_147_483_648),
    (4_294_967_295, Int, -1),
    (-2_147_483_649, Int, 2_147_483_647),
    (-1, UnsignedInt, 4_294_967_295),
    (4_294_967_296, UnsignedInt, 0),
    (4_294_967_297, Long, 1),
    (-2, UnsignedLong, 4_294_967_294),
    (
        9_223_372_036_854_775_808,
        LongLong,
        -9_223_372_036_854_775_808,
    ),
    (18_446_744_073_709_551_615, LongLong, -1),
    (-1, UnsignedLongLong, 18_446_744_073_709_551_615),
    (
        18_446_744_073_709_551_615,
        UnsignedLongLong,
        18_446_744_073_709_551_615,
    ),
    (18_446_744_073_709_551_615, Short, -1),
];

#[test]
fn values_converted_to_types(rt: HostRuntime) {
    for (value, to, converted) in CONVERSIONS {
        assert!(rt;
            to.convert(value) == converted,
            "at {value}, which is to be {converted}"
        );
    }
}

#[test]
fn values_converted_to_types_of_a_table(rt: HostRuntime) {
    for (value, to, converted) in CONVERSIONS {
        assert!(rt;
            convert(value, &CType::Integer(to)) == converted,
            "at {value}, which is to be {converted}"
        );
    }
}

/// Two types, and the common type of operands of them (6.3.1.8).
const COMMON: [(IntegerType, IntegerType, IntegerType); 16] = [
    (Bool, Bool, Int),
    (Char, SignedChar, Int),
    (UnsignedShort, Short, Int),
    (Int, Int, Int),
    (Int, UnsignedInt, UnsignedInt),
    (UnsignedInt, Short, UnsignedInt),
    (Int, Long, Long),
    (Long, UnsignedInt, UnsignedLong),
    (UnsignedLong, Int, UnsignedLong),
    (UnsignedInt, UnsignedLong, UnsignedLong),
    (LongLong, UnsignedInt, LongLong),
    (UnsignedLong, LongLong, LongLong),
    (UnsignedLongLong, LongLong, UnsignedLongLong),
    (Int, UnsignedLongLong, UnsignedLongLong),
    (LongLong, Char, LongLong),
    (Long, Long, Long),
];

#[test]
fn common_types(rt: HostRuntime) {
    for (left, right, common) in COMMON {
        let ranks = (left.rank(), right.rank());
        let both = left.common(right) == common && right.common(left) == common;
        assert!(rt; both, "at ranks {} and {}", ranks.0, ranks.1);
    }
}

/// A type, its size in bytes, its least and its greatest value, and the type that it is promoted to.
const TYPES: [(IntegerType, u8, i128, i128, IntegerType); 11] = [
    (Bool, 1, 0, 1, Int),
    (Char, 1, 0, 255, Int),
    (SignedChar, 1, -128, 127, Int),
    (Short, 2, -32_768, 32_767, Int),
    (UnsignedShort, 2, 0, 65_535, Int),
    (Int, 4, -2_147_483_648, 2_147_483_647, Int),
    (UnsignedInt, 4, 0, 4_294_967_295, UnsignedInt),
    (Long, 4, -2_147_483_648, 2_147_483_647, Long),
    (UnsignedLong, 4, 0, 4_294_967_295, UnsignedLong),
    (
        LongLong,
        8,
        -9_223_372_036_854_775_808,
        9_223_372_036_854_775_807,
        LongLong,
    ),
    (
        UnsignedLongLong,
        8,
        0,
        18_446_744_073_709_551_615,
        UnsignedLongLong,
    ),
];

#[test]
fn sizes_and_ranges(rt: HostRuntime) {
    for (of, size, least, greatest, promoted) in TYPES {
        let range = of.least() == least && of.greatest() == greatest;
        assert!(rt;
            range && of.size() == size && of.promoted() == promoted,
            "up to {greatest}"
        );
    }
}
