//! Numbers, and integer constants among them.
ghost use Rattle.std.specs.Prelude.{◌≡◌, ◌+◌, ◌*◌, ◌<◌, ◌^◌, ◌&&◌, ◌==◌, nat_lt, length, drop, slice_index, SomeIff};
ghost use Rattle.std.specs.List.{list_any, prefix_len};
ghost use Rattle.std.specs.Str.{bytes_eq};
ghost use Rattle.ck_base.specs.IntegerConstants as spec;
ghost use Rattle.ck_lexer.specs.FloatingConstants.{is_point, is_decimal_exponent, is_binary_exponent};
ghost use Rattle.ck_lexer.specs.FloatingConstants.{is_floating as is_floating_constant};
ghost use Rattle.ck_lexer.specs.Preprocessing.{goes_on as may_follow};
ghost use Rattle.ck_lexer.specs.Scanning.{number_of, run_after};

use crate::bytes::{is_digit, is_hexadecimal_digit, is_identifier_byte, is_octal_digit};
use crate::words::is_among;

/// The base of an integer constant.
#[derive(Clone, Copy)]
pub enum Base {
    Decimal,
    Octal,
    Hexadecimal,
}

/// What may follow a byte of a number.
fn goes_on(last: u8, byte: u8) -> bool
    ensures { result ≡ may_follow last byte }
{
    is_identifier_byte(byte)
        || byte == b'.'
        || (matches!(byte, b'+' | b'-') && matches!(last, b'e' | b'E' | b'p' | b'P'))
}

/// How many bytes the number takes that the text begins with.
pub(crate) fn number_length(rest: &[u8]) -> usize
    requires { 0 < length rest.now }
    ensures { result ≡ 1 + run_after (slice_index rest.now 0) (drop 1 rest.now) }
{
    let mut last = rest[0];
    let mut length = 1;
    while length < rest.len() && goes_on(last, rest[length]) {
        last = rest[length];
        length += 1;
    }
    length
}

/// The value of a digit of any base up to 16.
fn digit_value(byte: u8) -> u64
    ensures { result ≡ spec.digit_value byte }
{
    u64::from(match byte {
        b'0'..=b'9' => byte - b'0',
        b'a'..=b'f' => byte - b'a' + 10,
        _ => byte.saturating_sub(b'A') + 10,
    })
}

impl Base {
    ghost use Rattle.std.specs.Prelude.{◌≡◌};

    /// The base as a number.
    fn number(self) -> u64
        ensures { result ≡ number_of self }
    {
        match self {
            Base::Decimal => 10,
            Base::Octal => 8,
            Base::Hexadecimal => 16,
        }
    }

    fn is_decimal(self) -> bool
        ensures { result ≡ (number_of self == 10) }
    {
        matches!(self, Base::Decimal)
    }

    /// Whether a byte is a digit of this base.
    fn has_digit(self, byte: u8) -> bool
        ensures { result ≡ spec.is_digit_of (number_of self) byte }
    {
        match self {
            Base::Decimal => is_digit(byte),
            Base::Octal => is_octal_digit(byte),
            Base::Hexadecimal => is_hexadecimal_digit(byte),
        }
    }
}

/// A value with one more digit at its end, where it is less than 2^64.
fn with_digit(value: u64, base: Base, byte: u8) -> Option<u64>
    ensures { SomeIff result (value * number_of base + spec.digit_value byte < 2 ^ 64)
        (value * number_of base + spec.digit_value byte) }
{
    match value.checked_mul(base.number()) {
        Some(product) => product.checked_add(digit_value(byte)),
        None => None,
    }
}

/// The value of these digits, where it is less than 2^64.
pub(crate) fn value_of(base: Base, digits: &[u8]) -> Option<u64>
    ensures { SomeIff result (spec.value_of (number_of base) digits.now < 2 ^ 64)
        (spec.value_of (number_of base) digits.now) }
{
    let mut value = 0;
    for digit in digits {
        match with_digit(value, base, *digit) {
            Some(next) => value = next,
            None => return None,
        }
    }
    Some(value)
}

/// Whether the constant begins with `0x` or `0X`.
fn is_hexadecimal(text: &[u8]) -> bool
    ensures { result ≡ spec.begins_hexadecimal text.now }
{
    matches!(text, [b'0', b'x' | b'X', ..])
}

/// The base of an integer constant, by its prefix.
fn base_of(text: &[u8]) -> Base
    ensures { number_of result ≡ spec.base_of text.now }
{
    if is_hexadecimal(text) {
        Base::Hexadecimal
    } else if text.first() == Some(&b'0') {
        Base::Octal
    } else {
        Base::Decimal
    }
}

/// A constant without its prefix.
fn after_prefix(base: Base, text: &[u8]) -> &[u8]
    ensures { result.now ≡ spec.after_prefix (number_of base) text.now }
{
    match base {
        Base::Hexadecimal => text.get(2..).unwrap_or_default(),
        Base::Decimal | Base::Octal => text,
    }
}

/// How many digits of this base come first.
pub(crate) fn digits_length(base: Base, text: &[u8]) -> usize
    ensures { result ≡ prefix_len (spec.is_digit_of (number_of base)) text.now }
{
    text.iter()
        .take_while(|byte| base.has_digit(**byte))
        .count()
}

/// The suffixes of constants of an unsigned type.
const UNSIGNED_SUFFIXES: [&str; 18] = [
    "u", "U", "ul", "uL", "Ul", "UL", "ull", "uLL", "Ull", "ULL", "lu", "lU", "Lu", "LU", "llu",
    "llU", "LLu", "LLU",
];

/// The other suffixes.
const OTHER_SUFFIXES: [&str; 5] = ["", "l", "L", "ll", "LL"];

/// Whether this is a suffix of a constant of an unsigned type.
fn is_unsigned_suffix(text: &[u8]) -> bool
    ensures { result ≡ spec.is_unsigned_suffix text.now }
{
    is_among(&UNSIGNED_SUFFIXES, text)
}

/// Whether this is another suffix.
fn is_other_suffix(text: &[u8]) -> bool
    ensures { result ≡ list_any (bytes_eq text.now) spec.other_suffixes }
{
    is_among(&OTHER_SUFFIXES, text)
}

/// Whether a type of 64 bits at most holds a constant of this base, value and suffix.
fn has_type(base: Base, value: u64, suffix: &[u8]) -> bool
    ensures { result ≡ nat_lt value (spec.value_limit (number_of base) suffix.now) }
{
    value < 1 << 63 || !base.is_decimal() || is_unsigned_suffix(suffix)
}

/// Whether these digits with this suffix are a constant of a type that exists within 64 bits.
fn is_integer_of(base: Base, digits: &[u8], suffix: &[u8]) -> bool
    ensures { result ≡ (nat_lt 0 (length digits.now) && spec.is_suffix suffix.now && nat_lt
        (spec.value_of (number_of base) digits.now) (spec.value_limit (number_of base) suffix.now)) }
{
    if digits.is_empty() || !(is_unsigned_suffix(suffix) || is_other_suffix(suffix)) {
        return false;
    }
    match value_of(base, digits) {
        Some(value) => has_type(base, value, suffix),
        None => false,
    }
}

/// Whether a number is an integer constant of a type that exists within 64 bits.
#[tactic(auto, unfolding(ck_base::specs::IntegerConstants::is_integer_constant))]
pub(crate) fn is_integer_constant(text: &[u8]) -> bool
    ensures { result ≡ spec.is_integer_constant text.now }
{
    let base = base_of(text);
    let part = after_prefix(base, text);
    let (digits, suffix) = part.split_at(digits_length(base, part));
    is_integer_of(base, digits, suffix)
}

/// Whether there is a point in a number.
fn has_point(text: &[u8]) -> bool
    ensures { result ≡ list_any is_point text.now }
{
    text.iter().any(|byte| *byte == b'.')
}

/// Whether there is an exponent of base 10 in a number.
fn has_decimal_exponent(text: &[u8]) -> bool
    ensures { result ≡ list_any is_decimal_exponent text.now }
{
    text.iter().any(|byte| matches!(*byte, b'e' | b'E'))
}

/// Whether there is an exponent of base 2 in a number.
fn has_binary_exponent(text: &[u8]) -> bool
    ensures { result ≡ list_any is_binary_exponent text.now }
{
    text.iter().any(|byte| matches!(*byte, b'p' | b'P'))
}

/// Whether a number is meant as a floating constant: it has a point, or an exponent of its base.
#[tactic(auto, unfolding(crate::specs::FloatingConstants::is_floating))]
pub(crate) fn is_floating(text: &[u8]) -> bool
    ensures { result ≡ is_floating_constant text.now }
{
    if has_point(text) {
        true
    } else if is_hexadecimal(text) {
        has_binary_exponent(text)
    } else {
        has_decimal_exponent(text)
    }
}
