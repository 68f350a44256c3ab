//! The tokens of a file.
use crate::spans::Span;

/// What a token is, by C99 6.4.
#[derive(Clone, Copy, Debug, PartialEq, Eq)]
pub enum TokenKind {
    /// An identifier.
    Word,
    /// A keyword.
    Key,
    /// An integer constant.
    Number,
    /// A character constant.
    Char,
    /// A string literal.
    Text,
    /// A punctuator.
    Mark,
}

/// A token with the bytes that it is written with (`specs/TokenText.antt`).
#[derive(Clone, Copy, Debug, PartialEq, Eq)]
pub struct Token {
    pub kind: TokenKind,
    pub span: Span,
}
