//! The tokens of a file, or its first fault.
ghost use Rattle.std.specs.Prelude.{◌≡◌, ◌+◌, ◌<◌, ◌≤◌, ◌⊎◌, ◌↔◌, ◌++◌, ◌∷◌};
ghost use Rattle.std.specs.Prelude.{[], List, length, IfOk, IfErr, IsNone, IsOkAnd, OnOk};
ghost use Rattle.ck_base.specs.declared.refusals.Refusal.{Refusal};
ghost use Rattle.ck_base.specs.declared.tokens.Token.{Token as FileToken};
ghost use Rattle.ck_lexer.specs.Bytes.{most_bytes};
ghost use Rattle.ck_lexer.specs.Lexemes as lexeme;
ghost use Rattle.ck_lexer.specs.Tokens.{AreTokens, HasTokens, IsFirstFault};

use crate::lexemes::{Lexeme, lexeme_at};
use ck_base::{Fault, Refusal, Span, Spot, Token, TokenKind, Unsupported};
use std::alloc::Global;

/// Adds a token at the end.
fn push(tokens: &mut Vec<Token>, token: Token) -> Result<(), Fault>
    ensures added { OnOk result (tokens.new.items ≡ tokens.old.items ++ token ∷ []) }
    ensures memory { IfErr result (λ fault. fault ≡ Fault.Memory) }
{
    match tokens.push(token) {
        Ok(()) => Ok(()),
        Err(_) => Err(Fault::Memory),
    }
}

/// The token of this kind that takes the bytes of a file from `start` to `end`.
pub(crate) fn token(file: u32, kind: TokenKind, start: usize, end: usize) -> Token
    requires rises { start ≤ end }
    requires within { end ≤ most_bytes }
    ensures { result ≡ record { kind = kind; span = record { file = file; start = start; end = end } } }
{
    let span = Span {
        file,
        start: start as u32,
        end: end as u32,
    };
    Token { kind, span }
}

/// The length of the span that a refusal reports, of a lexeme of this size.
fn marked_size(kind: Unsupported, size: usize) -> usize
    ensures { result ≡ lexeme.marked_size kind size }
{
    match kind {
        Unsupported::U2 | Unsupported::U6 => 1,
        _ => size,
    }
}

/// The refusal of a lexeme of the file that begins at this offset.
pub(crate) fn refusal(file: u32, kind: Unsupported, start: usize, size: usize) -> Refusal
    requires within { start + size ≤ most_bytes }
    requires some { 0 < size }
    ensures { result ≡ record {
      kind = kind;
      at = Spot.At (record
          { file = file; start = start; end = start + lexeme.marked_size kind size });
    } }
{
    let end = start + marked_size(kind, size);
    Refusal {
        kind,
        at: Spot::At(Span {
            file,
            start: start as u32,
            end: end as u32,
        }),
    }
}

/// The tokens of a file's bytes, of which there are at most 1,048,576 (C99 6.4; docs/TOKENS.md).
///
/// `file` is the file's number, which the spans name. A file with a fault has no tokens, and the first
/// fault is refused with its span: U1 a byte that starts no token, U2 a comment or literal without its
/// end, U3 a literal that is too wide or malformed, U4 a floating constant, U5 a word outside the
/// subset, U6 a bad line marker. Nothing else is refused, but for want of memory.
pub fn lex(alloc: Global, file: u32, bytes: &[u8]) -> Result<Vec<Token>, Fault>
    requires { length bytes.now ≤ most_bytes }
    ensures tokens { IfOk result (λ tokens. AreTokens file bytes.now tokens.items) }
    ensures fault { (refusal : Refusal) → result ≡ Err (Fault.Unsupported refusal)
        → IsFirstFault file bytes.now refusal }
    ensures only_tokens { (tokens : List FileToken) → AreTokens file bytes.now tokens
        → (result ≡ Err Fault.Memory) ⊎ IsOkAnd result (λ v. v.items ≡ tokens) }
    ensures only_fault { (refusal : Refusal) → IsFirstFault file bytes.now refusal
        → (result ≡ Err Fault.Memory) ⊎ (result ≡ Err (Fault.Unsupported refusal)) }
{
    let mut tokens = Vec::new(alloc);
    let mut at = 0;
    while at < bytes.len() {
        let scanned = lexeme_at(bytes, at);
        let end = at + scanned.size;
        match scanned.lexeme {
            Lexeme::Trivia => {}
            Lexeme::Token(kind) => push(&mut tokens, token(file, kind, at, end))?,
            Lexeme::Fault(kind) => {
                return Err(Fault::Unsupported(refusal(file, kind, at, scanned.size)));
            }
        }
        at = end;
    }
    Ok(tokens)
}

/// The first fault of a file's bytes, or none where they have tokens (C99 6.4; docs/TOKENS.md). It
/// takes no memory, so each file has either tokens or a first fault, and none has both.
pub fn first_fault(file: u32, bytes: &[u8]) -> Option<Refusal>
    requires { length bytes.now ≤ most_bytes }
    ensures tokens { IsNone result ↔ HasTokens file bytes.now }
    ensures fault { (refusal : Refusal) → (result ≡ Some refusal) ↔ IsFirstFault file bytes.now refusal }
{
    let mut at = 0;
    while at < bytes.len() {
        let scanned = lexeme_at(bytes, at);
        match scanned.lexeme {
            Lexeme::Trivia => {}
            Lexeme::Token(_) => {}
            Lexeme::Fault(kind) => return Some(refusal(file, kind, at, scanned.size)),
        }
        at += scanned.size;
    }
    None
}
