//! What a token is.
ghost use Rattle.std.specs.Prelude.{◌≡◌};
ghost use Rattle.ck_cli.specs.Lexemes.{lexeme_of};

use crate::calls::{KernelCall, call_named};

/// A token of the file form, or any other.
#[derive(Clone, Copy)]
pub(crate) enum Lexeme {
    Void,
    Int,
    Main,
    Kernel(KernelCall),
    Open,
    Close,
    LeftBrace,
    RightBrace,
    Semicolon,
    Other,
}

/// What a token of this text is.
pub(crate) fn lexeme_for(text: &[u8]) -> Lexeme
    ensures { result ≡ lexeme_of text.now }
{
    if text == b"void".as_slice() {
        Lexeme::Void
    } else if text == b"int".as_slice() {
        Lexeme::Int
    } else if text == b"main".as_slice() {
        Lexeme::Main
    } else if text == b"(".as_slice() {
        Lexeme::Open
    } else if text == b")".as_slice() {
        Lexeme::Close
    } else if text == b"{".as_slice() {
        Lexeme::LeftBrace
    } else if text == b"}".as_slice() {
        Lexeme::RightBrace
    } else if text == b";".as_slice() {
        Lexeme::Semicolon
    } else {
        call_named(text).map_or(Lexeme::Other, Lexeme::Kernel)
    }
}
