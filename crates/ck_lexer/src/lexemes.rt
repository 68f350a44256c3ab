//! The lexeme at an offset of a file: a token, a fault, or what parts tokens.
ghost use Rattle.std.specs.Prelude.{◌≡◌, ◌+◌, ◌<◌, ◌≤◌, false, true, length, drop, slice_index};
ghost use Rattle.ck_lexer.specs.Bytes as byte;
ghost use Rattle.ck_lexer.specs.Cuts as cut;
ghost use Rattle.ck_lexer.specs.Lexemes as spec;
ghost use Rattle.ck_lexer.specs.Preprocessing as token;
ghost use Rattle.ck_lexer.specs.Scanning as scan;

use crate::bytes::{is_blank, is_nondigit, is_quote, is_white_space, line_length};
use crate::comments::comment_close;
use crate::literals::{is_character_constant, is_string_literal, literal_length};
use crate::markers::{is_pragma, marker};
use crate::marks::punctuator_length;
use crate::numbers::{is_floating, is_integer_constant, number_length};
use crate::runs::{Class, class_run};
use crate::words::{is_keyword, is_reserved_word};
use ck_base::{TokenKind, Unsupported};

/// A lexeme of a file.
#[derive(Clone, Copy)]
pub enum Lexeme {
    /// White space, a comment, a line marker or a pragma.
    Trivia,
    Token(TokenKind),
    /// A byte or more that are refused.
    Fault(Unsupported),
}

/// The lexeme that a text begins with, and how many bytes it takes.
#[derive(Clone, Copy)]
pub struct Scanned {
    pub size: usize,
    pub lexeme: Lexeme,
}

/// A word: a keyword, an identifier, or outside the subset.
fn identifier_lexeme(text: &[u8]) -> Lexeme
    ensures { result ≡ spec.identifier_lexeme text.now }
{
    if is_reserved_word(text) {
        Lexeme::Fault(Unsupported::U5)
    } else if is_keyword(text) {
        Lexeme::Token(TokenKind::Key)
    } else {
        Lexeme::Token(TokenKind::Word)
    }
}

/// A number: an integer constant, a floating constant, or neither.
fn number_lexeme(text: &[u8]) -> Lexeme
    ensures { result ≡ spec.number_lexeme text.now }
{
    if is_integer_constant(text) {
        Lexeme::Token(TokenKind::Number)
    } else if is_floating(text) {
        Lexeme::Fault(Unsupported::U4)
    } else {
        Lexeme::Fault(Unsupported::U3)
    }
}

/// A literal with both its quotes.
fn literal_lexeme(text: &[u8]) -> Lexeme
    ensures { result ≡ scan.literal_lexeme text.now }
{
    let holds = if text.first() == Some(&b'\'') {
        is_character_constant(text)
    } else {
        is_string_literal(text)
    };
    if !holds {
        Lexeme::Fault(Unsupported::U3)
    } else if text.first() == Some(&b'\'') {
        Lexeme::Token(TokenKind::Char)
    } else {
        Lexeme::Token(TokenKind::Text)
    }
}

/// The identifier or keyword that the text begins with.
fn identifier(rest: &[u8]) -> Scanned
    requires { byte.is_nondigit (slice_index rest.now 0) ≡ true }
    ensures { spec.IsTokenOrFault rest.now result.size result.lexeme }
{
    let size = class_run(rest, 0, &Class::Name);
    let lexeme = identifier_lexeme(&rest[..size]);
    Scanned { size, lexeme }
}

/// Whether the text begins with a number: a digit, or a point and a digit.
fn begins_number(rest: &[u8]) -> bool
    ensures { result ≡ token.begins_number rest.now }
{
    matches!(rest, [b'0'..=b'9', ..] | [b'.', b'0'..=b'9', ..])
}

/// The number that the text begins with.
fn number(rest: &[u8]) -> Scanned
    requires { token.begins_number rest.now ≡ true }
    ensures { spec.IsTokenOrFault rest.now result.size result.lexeme }
{
    let size = number_length(rest);
    let lexeme = number_lexeme(&rest[..size]);
    Scanned { size, lexeme }
}

/// The literal that the text begins with.
fn literal(rest: &[u8]) -> Scanned
    requires { byte.is_quote (slice_index rest.now 0) ≡ true }
    ensures { spec.IsTokenOrFault rest.now result.size result.lexeme }
{
    match literal_length(rest) {
        Some(size) => {
            let lexeme = literal_lexeme(&rest[..size]);
            Scanned { size, lexeme }
        }
        None => Scanned {
            size: line_length(rest),
            lexeme: Lexeme::Fault(Unsupported::U2),
        },
    }
}

/// The punctuator that the text begins with, or a bad byte.
fn punctuator(rest: &[u8]) -> Scanned
    requires some { 0 < length rest.now }
    requires no_word { byte.is_nondigit (slice_index rest.now 0) ≡ false }
    requires no_number { token.begins_number rest.now ≡ false }
    requires no_quote { byte.is_quote (slice_index rest.now 0) ≡ false }
    ensures { spec.IsTokenOrFault rest.now result.size result.lexeme }
{
    let size = punctuator_length(rest);
    if size > 0 {
        Scanned {
            size,
            lexeme: Lexeme::Token(TokenKind::Mark),
        }
    } else {
        Scanned {
            size: 1,
            lexeme: Lexeme::Fault(Unsupported::U1),
        }
    }
}

/// The token that the text begins with, or a fault.
fn token(rest: &[u8]) -> Scanned
    requires { 0 < length rest.now }
    ensures { spec.IsTokenOrFault rest.now result.size result.lexeme }
{
    if is_nondigit(rest[0]) {
        identifier(rest)
    } else if begins_number(rest) {
        number(rest)
    } else if is_quote(rest[0]) {
        literal(rest)
    } else {
        punctuator(rest)
    }
}

/// The comment that the text begins with, by its `/*`.
fn comment(rest: &[u8]) -> Scanned
    ensures { spec.IsComment rest.now result.size result.lexeme }
{
    match comment_close(rest) {
        Some(at) => Scanned {
            size: at + 2,
            lexeme: Lexeme::Trivia,
        },
        None => Scanned {
            size: rest.len(),
            lexeme: Lexeme::Fault(Unsupported::U2),
        },
    }
}

/// A line that begins with `#`.
fn directive(line: &[u8]) -> Lexeme
    ensures { spec.IsDirective line.now result }
{
    if is_pragma(line) {
        return Lexeme::Trivia;
    }
    match marker(line) {
        Some(_) => Lexeme::Trivia,
        None => Lexeme::Fault(Unsupported::U6),
    }
}

/// Whether the line is blank so far, after these bytes.
pub(crate) fn is_clear(before: &[u8]) -> bool
    ensures { result ≡ cut.is_clear before.now }
{
    let mut end = before.len();
    while end > 0 && is_blank(before[end - 1]) {
        end -= 1;
    }
    end == 0 || before[end - 1] == b'\n'
}

/// Whether the text begins with `/*`.
fn begins_block(rest: &[u8]) -> bool
    ensures { result ≡ spec.begins_block rest.now }
{
    matches!(rest, [b'/', b'*', ..])
}

/// Whether the text begins with `//`.
fn begins_line_comment(rest: &[u8]) -> bool
    ensures { result ≡ spec.begins_line_comment rest.now }
{
    matches!(rest, [b'/', b'/', ..])
}

/// How many bytes of white space a lexeme of it has: a line feed alone, or all up to a line feed or
/// another byte.
fn white_space_length(rest: &[u8]) -> usize
    requires { 0 < length rest.now }
    ensures { result ≡ spec.white_space_size rest.now }
{
    if rest[0] == b'\n' {
        1
    } else {
        class_run(rest, 0, &Class::Blank)
    }
}

/// The lexeme at an offset of a file, and how many bytes it takes.
pub(crate) fn lexeme_at(bytes: &[u8], at: usize) -> Scanned
    requires { at < length bytes.now }
    ensures found { cut.IsLexeme bytes.now at (at + result.size) result.lexeme }
    ensures some { 0 < result.size }
    ensures within { at + result.size ≤ length bytes.now }
{
    scanned_at(bytes, at)
}

/// The lexeme at an offset, by how it begins. (`lexeme_at` says of it what follows from this.)
fn scanned_at(bytes: &[u8], at: usize) -> Scanned
    requires { at < length bytes.now }
    ensures { cut.IsLexeme bytes.now at (at + result.size) result.lexeme }
{
    let rest = &bytes[at..];
    if is_white_space(rest[0]) {
        Scanned {
            size: white_space_length(rest),
            lexeme: Lexeme::Trivia,
        }
    } else if begins_block(rest) {
        comment(rest)
    } else if begins_line_comment(rest) {
        Scanned {
            size: line_length(rest),
            lexeme: Lexeme::Trivia,
        }
    } else if rest[0] == b'#' && is_clear(&bytes[..at]) {
        let size = line_length(rest);
        let lexeme = directive(&rest[..size]);
        Scanned { size, lexeme }
    } else {
        token(rest)
    }
}
