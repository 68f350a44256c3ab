//! Primary expressions (C99 6.5.1).
ghost use Rattle.ck_grammar.specs.Levels.{Level};
ghost use Rattle.ck_grammar.specs.Readers.{Reader};
ghost use Rattle.ck_grammar.specs.ReadingExpressions as reading;
ghost use Rattle.ck_grammar.specs.Trees as plain;
ghost use Rattle.ck_readers.specs.Places.{ReadAt, ReadsLevels, RowAt};
ghost use Rattle.ck_readers.specs.SourceView.{words};

use crate::builders::Building;
use crate::sources::Source;
use ck_base::{OutOfMemory, Token};
use ck_grammar::{FixedWord, Lead, level};

/// The primary expression that a token with this lead begins; `at` is the place after the token.
pub fn primary<T: Building, E: Fn(u8, usize) -> Result<Option<(T::Expr, usize)>, OutOfMemory>>(
    building: &T,
    source: &Source<'_>,
    expr: &E,
    lead: Lead,
    token: Token,
    at: usize,
) -> Result<Option<(T::Expr, usize)>, OutOfMemory>
    requires { E.IsAlwaysCallable expr.now }
    ensures { (inner : Level → Reader plain.Expr) → ReadsLevels T.expr inner source.now.tokens (E.post expr.now)
        → ReadAt T.expr (reading.primary_by (words source.now) inner lead token) source.now.tokens at result }
{
    match lead {
        Lead::Name => Ok(Some((building.name(token), at))),
        Lead::Constant => Ok(Some((building.constant(token), at))),
        Lead::String => {
            let (others, next) = neighbours(building, source, at)?;
            Ok(Some((building.strings(token, others), next)))
        }
        Lead::Paren => paren(building, source, expr, token, at),
        _ => Ok(None),
    }
}

/// After `(`: an expression and `)`.
fn paren<T: Building, E: Fn(u8, usize) -> Result<Option<(T::Expr, usize)>, OutOfMemory>>(
    building: &T,
    source: &Source<'_>,
    expr: &E,
    opening: Token,
    at: usize,
) -> Result<Option<(T::Expr, usize)>, OutOfMemory>
    requires { E.IsAlwaysCallable expr.now }
    ensures { (inner : Level → Reader plain.Expr) → ReadsLevels T.expr inner source.now.tokens (E.post expr.now)
        → ReadAt T.expr (reading.primary_by (words source.now) inner Lead.Paren opening) source.now.tokens at result }
{
    let Some(read) = expr(level::COMMA, at)? else {
        return Ok(None);
    };
    let (inside, next) = read;
    let Some(mark) = source.mark(FixedWord::RightParen, next) else {
        return Ok(None);
    };
    let (closing, next) = mark;
    Ok(Some((building.paren(opening, inside, closing)?, next)))
}

/// String literals, as many as come.
fn neighbours<T: Building>(
    building: &T,
    source: &Source<'_>,
    at: usize,
) -> Result<(T::Tokens, usize), OutOfMemory>
    ensures { RowAt T.tokens (reading.neighbours (words source.now)) source.now.tokens at result }
{
    let mut row = building.no_tokens();
    'literals: for next in at..source.len() {
        let Some(token) = source.literal_at(next) else {
            return Ok((row, next));
        };
        building.push_token(&mut row, token)?;
    }
    Ok((row, source.len()))
}
