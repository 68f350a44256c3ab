//! Constants by their bytes (C99 6.4.4.1, 6.4.4.4).
use ck_types::IntegerType::{self, *};
use ck_types::{IntegerValue, character_constant, integer_constant};

/// An integer constant, its type and its value.
const INTEGERS: [(&str, IntegerType, i128); 32] = [
    ("0", Int, 0),
    ("00", Int, 0),
    ("2147483647", Int, 2_147_483_647),
    ("2147483648", LongLong, 2_147_483_648),
    ("4294967295", LongLong, 4_294_967_295),
    ("9223372036854775807", LongLong, 9_223_372_036_854_775_807),
    ("0x7fffffff", Int, 2_147_483_647),
    ("0x80000000", UnsignedInt, 2_147_483_648),
    ("0XFFFFFFFF", UnsignedInt, 4_294_967_295),
    ("0x100000000", LongLong, 4_294_967_296),
    (
        "0x8000000000000000",
        UnsignedLongLong,
        9_223_372_036_854_775_808,
    ),
    ("0777", Int, 511),
    ("037777777777", UnsignedInt, 4_294_967_295),
    ("040000000000", LongLong, 4_294_967_296),
    ("1u", UnsignedInt, 1),
    ("4294967295U", UnsignedInt, 4_294_967_295),
    ("4294967296u", UnsignedLongLong, 4_294_967_296),
    (
        "18446744073709551615u",
        UnsignedLongLong,
        18_446_744_073_709_551_615,
    ),
    ("7l", Long, 7),
    ("2147483648L", LongLong, 2_147_483_648),
    ("0x80000000l", UnsignedLong, 2_147_483_648),
    ("7ul", UnsignedLong, 7),
    ("7Lu", UnsignedLong, 7),
    ("4294967296LU", UnsignedLongLong, 4_294_967_296),
    ("7ll", LongLong, 7),
    ("0x10LL", LongLong, 16),
    (
        "0x8000000000000000ll",
        UnsignedLongLong,
        9_223_372_036_854_775_808,
    ),
    ("7ull", UnsignedLongLong, 7),
    ("7LLu", UnsignedLongLong, 7),
    ("0xDeadBeef", UnsignedInt, 3_735_928_559),
    ("0xau", UnsignedInt, 10),
    ("01l", Long, 1),
];

#[test]
fn integer_constants(rt: HostRuntime) {
    for (text, of, value) in INTEGERS {
        assert!(rt;
            integer_constant(text.as_bytes()) == Some(IntegerValue { of, value }),
            "at {text}"
        );
    }
}

/// Texts that are no integer constants with a type of 64 bits.
const NO_INTEGERS: [&str; 14] = [
    "",
    "u",
    "0x",
    "0xu",
    "08",
    "1a",
    "1lL",
    "1lul",
    "1uu",
    "1.0",
    "9223372036854775808",
    "9223372036854775808ll",
    "18446744073709551616u",
    "0x10000000000000000",
];

#[test]
fn no_integer_constants(rt: HostRuntime) {
    for text in NO_INTEGERS {
        assert!(rt; integer_constant(text.as_bytes()) == None, "at {text}");
    }
}

/// A character constant and its value.
const CHARACTERS: [(&str, i128); 22] = [
    ("'A'", 65),
    ("' '", 32),
    ("'\"'", 34),
    ("'0'", 48),
    ("'\\''", 39),
    ("'\\\"'", 34),
    ("'\\?'", 63),
    ("'\\\\'", 92),
    ("'\\a'", 7),
    ("'\\b'", 8),
    ("'\\f'", 12),
    ("'\\n'", 10),
    ("'\\r'", 13),
    ("'\\t'", 9),
    ("'\\v'", 11),
    ("'\\0'", 0),
    ("'\\12'", 10),
    ("'\\377'", 255),
    ("'\\x41'", 65),
    ("'\\xff'", 255),
    ("'\\x0000A'", 10),
    ("'~'", 126),
];

#[test]
fn character_constants(rt: HostRuntime) {
    for (text, value) in CHARACTERS {
        assert!(rt;
            character_constant(text.as_bytes()) == Some(IntegerValue { of: Int, value }),
            "at {text}"
        );
    }
}

/// Texts that hold no single character with a value up to 255.
const NO_CHARACTERS: [&str; 10] = [
    "''", "'ab'", "'\\'", "'\\q'", "'\\8'", "'\\400'", "'\\1234'", "'\\x'", "'\\x100'", "'\\xg'",
];

#[test]
fn no_character_constants(rt: HostRuntime) {
    for text in NO_CHARACTERS {
        assert!(rt; character_constant(text.as_bytes()) == None, "at {text}");
    }
}
