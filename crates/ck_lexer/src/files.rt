//! A file's tokens and places in one pass.
ghost use Rattle.std.specs.Prelude.{◌≡◌, ◌+◌, ◌<◌, ◌≤◌, List, ℕ, length, IfOk, IsOkAnd, MatchResult};
ghost use Rattle.ck_base.specs.declared.refusals.Refusal.{Refusal as FileRefusal};
ghost use Rattle.ck_base.specs.declared.tokens.Token.{Token as FileToken};
ghost use Rattle.ck_lexer.specs.Bytes.{most_bytes};
ghost use Rattle.ck_lexer.specs.Cuts.{IsLexeme};
ghost use Rattle.ck_lexer.specs.Scanning.{IsReadTo};
ghost use Rattle.ck_lexer.specs.PlaceMaps.{IsPlaceMapOf};
ghost use Rattle.ck_lexer.specs.Tokens.{AreTokens, IsFirstFault};

use crate::lexemes::{Lexeme, Scanned, lexeme_at};
use crate::lexer::{refusal, token};
use crate::places::{FIRST, PlaceMap, empty_map, pass};
use ck_base::{OutOfMemory, Refusal, Token};
use std::alloc::Global;

/// What a file's bytes are: its places, and its tokens or its first fault.
#[derive(Drop)]
pub struct FileScan {
    pub places: PlaceMap,
    pub tokens: Result<Vec<Token>, Refusal>,
}

/// Adds a lexeme to the tokens before it, or keeps it as the first fault, where no fault is before it.
fn note(
    tokens: &mut Vec<Token>,
    fault: Option<Refusal>,
    file: u32,
    at: usize,
    scanned: Scanned,
) -> Result<Option<Refusal>, OutOfMemory>
    requires some { 0 < scanned.size }
    requires within { at + scanned.size ≤ most_bytes }
    ensures { IfOk result (λ next. (bytes : List ℕ) → IsLexeme bytes at (at + scanned.size) scanned.lexeme
        → IsReadTo file bytes tokens.old.items fault at → IsReadTo file bytes tokens.new.items next
        (at + scanned.size)) }
{
    match fault {
        Some(first) => Ok(Some(first)),
        None => match scanned.lexeme {
            Lexeme::Trivia => Ok(None),
            Lexeme::Token(kind) => {
                tokens.push(token(file, kind, at, at + scanned.size))?;
                Ok(None)
            }
            Lexeme::Fault(kind) => Ok(Some(refusal(file, kind, at, scanned.size))),
        },
    }
}

/// The places of a file's bytes, of which there are at most 1,048,576, and its tokens or its first
/// fault, in one pass over them.
///
/// `places` is what `place_map` gives, and `tokens` what `lex` gives; a file with a fault has places
/// too. Nothing is refused, but for want of memory.
pub fn scan(alloc: Global, file: u32, name: &str, bytes: &[u8]) -> Result<FileScan, OutOfMemory>
    requires { length bytes.now ≤ most_bytes }
    ensures places { IfOk result (λ scan. IsPlaceMapOf name.now bytes.now scan.places) }
    ensures tokens { IfOk result (λ scan. MatchResult scan.tokens (λ tokens. AreTokens file bytes.now tokens.items)
        (IsFirstFault file bytes.now)) }
    ensures only_tokens { IfOk result (λ scan. (tokens : List FileToken) → AreTokens file bytes.now tokens
        → IsOkAnd scan.tokens (λ v. v.items ≡ tokens)) }
    ensures only_fault { IfOk result (λ scan. (refusal : FileRefusal) → IsFirstFault file bytes.now refusal
        → scan.tokens ≡ Err refusal) }
{
    let mut tokens = Vec::new(alloc);
    let mut fault = None;
    let mut places = empty_map(alloc, name)?;
    let mut on = FIRST;
    let mut at = 0;
    while at < bytes.len() {
        let scanned = lexeme_at(bytes, at);
        fault = note(&mut tokens, fault, file, at, scanned)?;
        let next = pass(alloc, &mut places, on, bytes, at, at + scanned.size)?;
        on = next.on;
        at = next.at;
    }
    match fault {
        None => Ok(FileScan {
            places,
            tokens: Ok(tokens),
        }),
        Some(refusal) => Ok(FileScan {
            places,
            tokens: Err(refusal),
        }),
    }
}
