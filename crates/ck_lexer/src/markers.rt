//! Lines that begin with `#`.
ghost use Rattle.std.specs.Prelude.{◌≡◌, ◌-◌, ◌<◌, ◌≤◌, true, length, take, drop};
ghost use Rattle.std.specs.List.{list_all};
ghost use Rattle.std.specs.Option.{option_map};
ghost use Rattle.ck_base.specs.Characters.{is_digit};
ghost use Rattle.ck_base.specs.IntegerConstants as constant;
ghost use Rattle.ck_lexer.specs.Markers as spec;
ghost use Rattle.ck_lexer.specs.Scanning as scan;

use crate::bytes::{blank_length, is_blank};
use crate::literals::closing_length;
use crate::numbers::{Base, digits_length};

/// What a line marker gives: the number and the name of the next line.
#[derive(Clone, Copy)]
pub struct Marked<'a> {
    pub number: u32,
    pub name: &'a [u8],
}

/// What is left after the blanks that come first.
fn after_blanks(text: &[u8]) -> &[u8]
    ensures { result.now ≡ scan.after_blanks text.now }
{
    text.get(blank_length(text)..).unwrap_or_default()
}

fn is_flag(byte: u8) -> bool
    ensures { result ≡ spec.is_flag byte }
{
    matches!(byte, b'1'..=b'4')
}

/// Whether these are flags, each after blanks.
fn are_flags(text: &[u8]) -> bool
    ensures { result ≡ scan.are_flags text.now }
{
    let mut blanks = false;
    for byte in text {
        if is_blank(*byte) {
            blanks = true;
        } else if blanks && is_flag(*byte) {
            blanks = false;
        } else {
            return false;
        }
    }
    !blanks
}

/// A marker by its number, what is after the name's first quote, and how many bytes of that end with
/// the closing quote.
fn with_closed_name(number: u32, text: &[u8], closing: usize) -> Option<Marked<'_>>
    requires some { 0 < closing }
    requires within { closing ≤ length text.now }
    ensures { option_map scan.marked_parts result ≡ scan.marker_flags number (take (closing - 1) text.now)
        (drop closing text.now) }
{
    if are_flags(&text[closing..]) {
        let name = &text[..closing - 1];
        Some(Marked { number, name })
    } else {
        None
    }
}

/// A marker by its number and what is after the blanks after that.
fn with_name(number: u32, text: &[u8]) -> Option<Marked<'_>>
    ensures { option_map scan.marked_parts result ≡ scan.marker_name number text.now }
{
    match text {
        [b'"', rest @ ..] => match closing_length(b'"', rest) {
            Some(closing) => with_closed_name(number, rest, closing),
            None => None,
        },
        _ => None,
    }
}

/// The value of 9 decimal digits at most.
fn small_value(digits: &[u8]) -> u32
    requires few { length digits.now ≤ 9 }
    requires digits { list_all is_digit digits.now ≡ true }
    ensures { result ≡ constant.value_of 10 digits.now }
{
    let mut value = 0;
    for byte in digits {
        value = value * 10 + u32::from(*byte - b'0');
    }
    value
}

/// A marker by what is after the blanks after its `#`.
fn with_number(text: &[u8]) -> Option<Marked<'_>>
    ensures { option_map scan.marked_parts result ≡ scan.marker_number text.now }
{
    let length = digits_length(Base::Decimal, text);
    if length == 0 || length > 9 {
        return None;
    }
    let number = small_value(&text[..length]);
    with_name(number, after_blanks(&text[length..]))
}

/// What a line gives, where it is a line marker. It begins at its `#` and ends before its line feed.
pub(crate) fn marker(line: &[u8]) -> Option<Marked<'_>>
    ensures { option_map scan.marked_parts result ≡ scan.marker_of line.now }
{
    match line {
        [b'#', text @ ..] => with_number(after_blanks(text)),
        _ => None,
    }
}

/// Whether a line is a pragma.
pub(crate) fn is_pragma(line: &[u8]) -> bool
    ensures { result ≡ spec.is_pragma line.now }
{
    match line {
        [_, text @ ..] => after_blanks(text).starts_with(b"pragma"),
        [] => false,
    }
}
