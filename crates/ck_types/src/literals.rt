//! The values of constants, by the bytes that they are written with (C99 6.4.4.1, 6.4.4.4).
ghost use Rattle.std.specs.Prelude.{◌≡◌, ◌+◌, ◌*◌, ◌<◌, ◌^◌, count_by, IfSome, SomeIff};
ghost use Rattle.std.specs.List.{list_any, prefix_len};
ghost use Rattle.std.specs.Str.{bytes_eq};
ghost use Rattle.ck_base.specs.Characters as character;
ghost use Rattle.ck_base.specs.CharacterConstants as characters;
ghost use Rattle.ck_base.specs.IntegerConstants as digit;
ghost use Rattle.ck_types.specs.ConstantTypes as spec;
ghost use Rattle.ck_types.specs.Ranges.{IsInRange};

use crate::characters::{between_quotes, character_value};
use crate::constants::{Suffix, constant_type};
use crate::integer_types::IntegerType;
use crate::operators::IntegerValue;

/// The value of an integer constant with its type, by all its bytes: prefix, digits and suffix (6.4.4.1). None where
/// they are no integer constant whose type exists within 64 bits.
pub fn integer_constant(text: &[u8]) -> Option<IntegerValue>
    ensures value { result ≡ spec.integer_constant text.now }
    ensures range { IfSome result IsInRange }
{
    let base = base_of(text);
    let part = after_prefix(base, text);
    let (digits, suffix) = part.split_at(digits_length(base, part));
    constant_in(base, digits, suffix)
}

/// The value of a character constant, which is an `int`, by all its bytes, its quotes among them (6.4.4.4). None where
/// they hold no single character with a value up to 255.
pub fn character_constant(text: &[u8]) -> Option<IntegerValue>
    ensures { result ≡ spec.character_constant text.now }
{
    match character_value(between_quotes(text)) {
        Some(value) => Some(IntegerValue {
            of: IntegerType::Int,
            value: i128::from(value),
        }),
        None => None,
    }
}

/// A constant by its base, its digits and its suffix.
fn constant_in(base: u64, digits: &[u8], suffix: &[u8]) -> Option<IntegerValue>
    requires { 0 < base }
    ensures value { result ≡ spec.constant_in base digits.now suffix.now }
    ensures range { IfSome result IsInRange }
{
    if digits.is_empty() || !is_suffix(suffix) {
        return None;
    }
    match value_of(base, digits) {
        Some(value) => with_type(
            value,
            constant_type(base == 10, suffix_written(suffix), value),
        ),
        None => None,
    }
}

/// A value with its type, where it has one.
fn with_type(value: u64, of: Option<IntegerType>) -> Option<IntegerValue>
    ensures { result ≡ spec.with_value value of }
{
    match of {
        Some(of) => Some(IntegerValue {
            of,
            value: i128::from(value),
        }),
        None => None,
    }
}

/// The base of a constant, by its prefix: 8, 10 or 16.
fn base_of(text: &[u8]) -> u64
    ensures base { result ≡ digit.base_of text.now }
    ensures some { 0 < result }
{
    match text {
        [b'0', b'x' | b'X', ..] => 16,
        [b'0', ..] => 8,
        _ => 10,
    }
}

/// A constant without its prefix.
fn after_prefix(base: u64, text: &[u8]) -> &[u8]
    ensures { result.now ≡ digit.after_prefix base text.now }
{
    if base == 16 {
        text.get(2..).unwrap_or_default()
    } else {
        text
    }
}

pub(crate) fn is_octal_digit(byte: u8) -> bool
    ensures { result ≡ character.is_octal_digit byte }
{
    matches!(byte, b'0'..=b'7')
}

pub(crate) fn is_hexadecimal_digit(byte: u8) -> bool
    ensures { result ≡ character.is_hexadecimal_digit byte }
{
    matches!(byte, b'0'..=b'9' | b'a'..=b'f' | b'A'..=b'F')
}

/// Whether a byte is a digit of a base.
fn is_digit_of(base: u64, byte: u8) -> bool
    ensures { result ≡ digit.is_digit_of base byte }
{
    match base {
        8 => is_octal_digit(byte),
        16 => is_hexadecimal_digit(byte),
        _ => byte.is_ascii_digit(),
    }
}

/// How many digits of a base come first.
fn digits_length(base: u64, text: &[u8]) -> usize
    ensures { result ≡ prefix_len (digit.is_digit_of base) text.now }
{
    text.iter()
        .take_while(|byte| is_digit_of(base, **byte))
        .count()
}

/// The value of a digit of any base up to 16.
fn digit_value(byte: u8) -> u64
    ensures { result ≡ digit.digit_value byte }
{
    u64::from(match byte {
        b'0'..=b'9' => byte - b'0',
        b'a'..=b'f' => byte - b'a' + 10,
        _ => byte.saturating_sub(b'A') + 10,
    })
}

/// A value with one more digit at its end, where it is less than 2^64.
fn with_digit(value: u64, base: u64, byte: u8) -> Option<u64>
    ensures { SomeIff result (value * base + digit.digit_value byte < 2 ^ 64)
        (value * base + digit.digit_value byte) }
{
    match value.checked_mul(base) {
        Some(product) => product.checked_add(digit_value(byte)),
        None => None,
    }
}

/// The value of digits, where it is less than 2^64.
pub(crate) fn value_of(base: u64, digits: &[u8]) -> Option<u64>
    requires { 0 < base }
    ensures { SomeIff result (digit.value_of base digits.now < 2 ^ 64) (digit.value_of base digits.now) }
{
    let mut value = 0;
    for byte in digits {
        match with_digit(value, base, *byte) {
            Some(next) => value = next,
            None => return None,
        }
    }
    Some(value)
}

/// The suffixes of constants of an unsigned type.
const UNSIGNED_SUFFIXES: [&str; 18] = [
    "u", "U", "ul", "uL", "Ul", "UL", "ull", "uLL", "Ull", "ULL", "lu", "lU", "Lu", "LU", "llu",
    "llU", "LLu", "LLU",
];

/// The other suffixes.
const OTHER_SUFFIXES: [&str; 5] = ["", "l", "L", "ll", "LL"];

/// Whether a text is one of these words.
fn is_among(words: &[&str], text: &[u8]) -> bool
    ensures { result ≡ list_any (λ word. bytes_eq text.now word.now) words.now }
{
    words.iter().any(|word| word.as_bytes() == text)
}

fn is_unsigned_suffix(text: &[u8]) -> bool
    ensures { result ≡ digit.is_unsigned_suffix text.now }
{
    is_among(&UNSIGNED_SUFFIXES, text)
}

fn is_suffix(text: &[u8]) -> bool
    ensures { result ≡ digit.is_suffix text.now }
{
    is_unsigned_suffix(text) || is_among(&OTHER_SUFFIXES, text)
}

/// How many letters `l` or `L` a suffix has.
fn longs(text: &[u8]) -> usize
    ensures { result ≡ count_by spec.is_long text.now }
{
    text.iter()
        .filter(|byte| matches!(**byte, b'l' | b'L'))
        .count()
}

/// A suffix by how it is written.
fn suffix_written(text: &[u8]) -> Suffix
    ensures { result ≡ spec.suffix_written text.now }
{
    match (is_unsigned_suffix(text), longs(text)) {
        (true, 0) => Suffix::U,
        (true, 1) => Suffix::UL,
        (true, _) => Suffix::ULL,
        (false, 0) => Suffix::Nothing,
        (false, 1) => Suffix::L,
        (false, _) => Suffix::LL,
    }
}
