//! Character constants and string literals.
ghost use Rattle.std.specs.Prelude.{◌≡◌, ◌+◌, ◌<◌, ◌≤◌, length, drop, slice_index, IfSome};
ghost use Rattle.ck_base.specs.CharacterConstants as spec;
ghost use Rattle.ck_base.specs.IntegerConstants.{value_of as digits_value};
ghost use Rattle.ck_lexer.specs.Scanning as scan;

use crate::bytes::is_octal_digit;
use crate::numbers::{Base, digits_length, value_of};

/// What comes next in a literal.
#[derive(Clone, Copy)]
pub enum Step {
    /// The literal goes on after so many bytes.
    On(usize),
    /// The closing quote.
    Closed,
    /// The line's end or the file's.
    Broken,
}

/// What comes first in the rest of a literal that began with this quote.
fn next_step(quote: u8, rest: &[u8]) -> Step
    ensures { result ≡ scan.literal_step quote rest.now }
{
    match rest {
        [b'\\', b'\n', ..] => Step::Broken,
        [b'\\', _, ..] => Step::On(2),
        [byte, ..] if *byte == quote => Step::Closed,
        [] | [_] | [b'\n', ..] => Step::Broken,
        [_, ..] => Step::On(1),
    }
}

/// How many bytes follow a literal's first quote, up to the same quote that closes it on its line,
/// whatever the literal's characters are.
pub(crate) fn closing_length(quote: u8, text: &[u8]) -> Option<usize>
    ensures found { result ≡ scan.closing quote text.now }
    ensures within { IfSome result (λ size. (0 < size) × (size ≤ length text.now)) }
{
    let mut length = 0;
    while length < text.len() {
        match next_step(quote, &text[length..]) {
            Step::On(size) => length += size,
            Step::Closed => return Some(length + 1),
            Step::Broken => return None,
        }
    }
    None
}

/// Whether a simple escape is this byte after its backslash.
fn is_simple_escape(byte: u8) -> bool
    ensures { result ≡ spec.is_simple_escape byte }
{
    matches!(
        byte,
        b'\'' | b'"' | b'?' | b'\\' | b'a' | b'b' | b'f' | b'n' | b'r' | b't' | b'v'
    )
}

/// The size of an escape whose digits have a value up to 255.
fn size_if_byte(base: Base, digits: &[u8], size: usize) -> Option<usize>
    ensures { result ≡ scan.size_if_byte (digits_value (scan.number_of base) digits.now) size }
{
    match value_of(base, digits) {
        Some(0..=255) => Some(size),
        _ => None,
    }
}

/// How many digits an octal escape has.
fn octal_length(text: &[u8]) -> usize
    ensures size { result ≡ scan.octal_length text.now }
    ensures within { result ≤ length text.now }
{
    digits_length(Base::Octal, text).min(3)
}

/// The size of a hexadecimal escape, with its `x`, by what follows that.
fn hexadecimal_size(text: &[u8]) -> Option<usize>
    ensures size { result ≡ scan.hexadecimal_length text.now }
    ensures within { IfSome result (λ size. size ≤ length text.now + 1) }
{
    let length = digits_length(Base::Hexadecimal, text);
    if length == 0 {
        return None;
    }
    size_if_byte(Base::Hexadecimal, &text[..length], length + 1)
}

/// How many bytes an escape takes after its backslash, where it has a value up to 255.
fn escape_size(text: &[u8]) -> Option<usize>
    ensures size { result ≡ scan.escape_length text.now }
    ensures within { IfSome result (λ size. size ≤ length text.now) }
{
    match text {
        [byte, ..] if is_simple_escape(*byte) => Some(1),
        [byte, ..] if is_octal_digit(*byte) => {
            let length = octal_length(text);
            size_if_byte(Base::Octal, &text[..length], length)
        }
        [b'x', digits @ ..] => hexadecimal_size(digits),
        _ => None,
    }
}

/// How many bytes the first character takes, where it is one.
fn character_size(text: &[u8]) -> Option<usize>
    requires { 0 < length text.now }
    ensures size { result ≡ scan.character_length text.now }
    ensures some { IfSome result (λ size. 0 < size) }
    ensures within { IfSome result (λ size. size ≤ length text.now) }
{
    match text {
        [b'\\', escape @ ..] => match escape_size(escape) {
            Some(size) => Some(size + 1),
            None => None,
        },
        _ => Some(1),
    }
}

/// Whether these bytes are characters, each after the other.
fn are_characters(text: &[u8]) -> bool
    ensures { result ≡ spec.are_characters text.now }
{
    let mut at = 0;
    while at < text.len() {
        match character_size(&text[at..]) {
            Some(size) => at += size,
            None => return false,
        }
    }
    true
}

/// What is between a literal's quotes.
fn between_quotes(text: &[u8]) -> &[u8]
    ensures { result.now ≡ spec.between_quotes text.now }
{
    match text {
        [_, inside @ .., _] => inside,
        _ => &[],
    }
}

/// Whether a text is one character.
fn is_one_character(text: &[u8]) -> bool
    ensures { result ≡ scan.is_one_character text.now }
{
    !text.is_empty() && character_size(text) == Some(text.len())
}

/// Whether a character constant holds one byte, or one escape of a value up to 255.
#[tactic(auto, unfolding(ck_base::specs::CharacterConstants::is_character_constant))]
pub(crate) fn is_character_constant(text: &[u8]) -> bool
    ensures { result ≡ spec.is_character_constant text.now }
{
    is_one_character(between_quotes(text))
}

/// Whether a string literal holds bytes and escapes of values up to 255 alone.
#[tactic(auto, unfolding(ck_base::specs::CharacterConstants::is_string_literal))]
pub(crate) fn is_string_literal(text: &[u8]) -> bool
    ensures { result ≡ spec.is_string_literal text.now }
{
    are_characters(between_quotes(text))
}

/// How many bytes the literal takes whose first quote is the first byte, where it is closed on its line.
pub(crate) fn literal_length(rest: &[u8]) -> Option<usize>
    requires { 0 < length rest.now }
    ensures { result ≡ scan.moved_by 1 (scan.closing (slice_index rest.now 0) (drop 1 rest.now)) }
{
    match closing_length(rest[0], &rest[1..]) {
        Some(size) => Some(size + 1),
        None => None,
    }
}
