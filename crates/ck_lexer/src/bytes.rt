//! Classes of bytes.
ghost use Rattle.std.specs.Prelude.{◌≡◌};
ghost use Rattle.std.specs.List.{prefix_len};
ghost use Rattle.ck_base.specs.Characters as character;
ghost use Rattle.ck_lexer.specs.Bytes as spec;

/// A space or a tab.
pub(crate) fn is_blank(byte: u8) -> bool
    ensures { result ≡ spec.is_blank byte }
{
    matches!(byte, b' ' | b'\t')
}

/// White space (C99 6.4).
pub(crate) fn is_white_space(byte: u8) -> bool
    ensures { result ≡ spec.is_white_space byte }
{
    matches!(byte, b' ' | b'\t'..=b'\r')
}

/// White space within a line.
pub(crate) fn is_line_space(byte: u8) -> bool
    ensures { result ≡ spec.is_line_space byte }
{
    is_white_space(byte) && byte != b'\n'
}

pub(crate) fn is_digit(byte: u8) -> bool
    ensures { result ≡ character.is_digit byte }
{
    byte.is_ascii_digit()
}

pub(crate) fn is_octal_digit(byte: u8) -> bool
    ensures { result ≡ character.is_octal_digit byte }
{
    matches!(byte, b'0'..=b'7')
}

pub(crate) fn is_hexadecimal_digit(byte: u8) -> bool
    ensures { result ≡ character.is_hexadecimal_digit byte }
{
    matches!(byte, b'0'..=b'9' | b'a'..=b'f' | b'A'..=b'F')
}

/// An ASCII letter or the underscore.
pub(crate) fn is_nondigit(byte: u8) -> bool
    ensures { result ≡ spec.is_nondigit byte }
{
    matches!(byte, b'a'..=b'z' | b'A'..=b'Z' | b'_')
}

/// A byte of an identifier after the first.
pub(crate) fn is_identifier_byte(byte: u8) -> bool
    ensures { result ≡ spec.is_identifier_byte byte }
{
    is_nondigit(byte) || is_digit(byte)
}

/// A quote of either kind.
pub(crate) fn is_quote(byte: u8) -> bool
    ensures { result ≡ spec.is_quote byte }
{
    matches!(byte, b'"' | b'\'')
}

/// How many spaces and tabs come first.
pub(crate) fn blank_length(text: &[u8]) -> usize
    ensures { result ≡ prefix_len spec.is_blank text.now }
{
    text.iter().take_while(|byte| is_blank(**byte)).count()
}

/// How many bytes come before the first line feed.
pub(crate) fn line_length(text: &[u8]) -> usize
    ensures { result ≡ prefix_len spec.is_no_line_feed text.now }
{
    text.iter().take_while(|byte| **byte != b'\n').count()
}
