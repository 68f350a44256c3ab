//! Characters and escapes of constants (C99 6.4.4.4).
ghost use Rattle.std.specs.Prelude.{◌≡◌, ◌<◌};
ghost use Rattle.std.specs.List.{list_all};
ghost use Rattle.ck_base.specs.Characters.{is_octal_digit as is_octal, is_hexadecimal_digit as is_hexadecimal};
ghost use Rattle.ck_base.specs.CharacterConstants as spec;
ghost use Rattle.ck_base.specs.IntegerConstants as digit;

use crate::literals::{is_hexadecimal_digit, is_octal_digit, value_of};

/// What is between a literal's quotes.
pub(crate) fn between_quotes(text: &[u8]) -> &[u8]
    ensures { result.now ≡ spec.between_quotes text.now }
{
    match text {
        [_, inside @ .., _] => inside,
        _ => &[],
    }
}

/// The value of a text that is one character.
pub(crate) fn character_value(text: &[u8]) -> Option<u64>
    ensures { result ≡ spec.character_value text.now }
{
    match text {
        [b'\\', escape @ ..] => escape_value(escape),
        [byte] => Some(u64::from(*byte)),
        _ => None,
    }
}

/// The value of a whole escape, without its backslash.
fn escape_value(text: &[u8]) -> Option<u64>
    ensures { result ≡ spec.escape_value text.now }
{
    if is_octal_escape(text) {
        byte_of(8, text)
    } else if is_hexadecimal_escape(text) {
        byte_of(16, text.get(1..).unwrap_or_default())
    } else {
        match text {
            [byte] if is_simple_escape(*byte) => Some(simple_value(*byte)),
            _ => None,
        }
    }
}

fn are_octal_digits(text: &[u8]) -> bool
    ensures { result ≡ list_all is_octal text.now }
{
    text.iter().all(|byte| is_octal_digit(*byte))
}

fn are_hexadecimal_digits(text: &[u8]) -> bool
    ensures { result ≡ list_all is_hexadecimal text.now }
{
    text.iter().all(|byte| is_hexadecimal_digit(*byte))
}

/// One to three octal digits.
fn is_octal_escape(text: &[u8]) -> bool
    ensures { result ≡ spec.is_octal_escape text.now }
{
    are_octal_digits(text) && 1 <= text.len() && text.len() <= 3
}

/// An `x`, and at least one hexadecimal digit.
fn is_hexadecimal_escape(text: &[u8]) -> bool
    ensures { result ≡ spec.is_hexadecimal_escape text.now }
{
    match text {
        [b'x', digits @ ..] => are_hexadecimal_digits(digits) && 1 <= digits.len(),
        _ => false,
    }
}

/// The value of digits, where it is at most 255.
fn byte_of(base: u64, digits: &[u8]) -> Option<u64>
    requires { 0 < base }
    ensures { result ≡ spec.if_byte (digit.value_of base digits.now) }
{
    match value_of(base, digits) {
        Some(value) if value <= 255 => Some(value),
        _ => None,
    }
}

fn is_simple_escape(byte: u8) -> bool
    ensures { result ≡ spec.is_simple_escape byte }
{
    matches!(
        byte,
        b'\'' | b'"' | b'?' | b'\\' | b'a' | b'b' | b'f' | b'n' | b'r' | b't' | b'v'
    )
}

/// The value of a simple escape.
fn simple_value(byte: u8) -> u64
    ensures { result ≡ spec.simple_value byte }
{
    match byte {
        b'a' => 7,
        b'b' => 8,
        b't' => 9,
        b'n' => 10,
        b'v' => 11,
        b'f' => 12,
        b'r' => 13,
        other => u64::from(other),
    }
}
