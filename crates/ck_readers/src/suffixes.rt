//! Postfix expressions and calls (C99 6.5.2).
ghost use Rattle.std.specs.Prelude.{◌≡◌, IfOk, length, if◌then◌else◌};
ghost use Rattle.ck_grammar.specs.Fitting.{has_suffix};
ghost use Rattle.ck_grammar.specs.Levels.{Level};
ghost use Rattle.ck_grammar.specs.Readers.{Reader};
ghost use Rattle.ck_grammar.specs.ReadingExpressions as reading;
ghost use Rattle.ck_grammar.specs.Trees as plain;
ghost use Rattle.ck_readers.specs.Places.{ReadAt, ReadsLevels, RowAt, StepAt};
ghost use Rattle.ck_readers.specs.SourceView.{words};
ghost use Rattle.ck_readers.specs.Steps.{suffix_step, arguments, no_arguments};

use crate::builders::Building;
use crate::operands::operands;
use crate::primary::primary;
use crate::sources::Source;
use ck_base::{OutOfMemory, Token};
use ck_grammar::{FixedWord, Follow, Lead, level};

/// The postfix expression that a token with this lead begins; `at` is the place after the token. A primary expression
/// that nests deeper than `depth` stands alone.
pub fn postfix<T: Building, E: Fn(u8, usize) -> Result<Option<(T::Expr, usize)>, OutOfMemory>>(
    building: &T,
    source: &Source<'_>,
    expr: &E,
    depth: u8,
    lead: Lead,
    token: Token,
    at: usize,
) -> Result<Option<(T::Expr, usize)>, OutOfMemory>
    requires { E.IsAlwaysCallable expr.now }
    ensures { (inner : Level → Reader plain.Expr) → ReadsLevels T.expr inner source.now.tokens (E.post expr.now)
        → ReadAt T.expr (reading.postfix (words source.now) inner depth lead token) source.now.tokens at result }
{
    let Some(read) = primary(building, source, expr, lead, token, at)? else {
        return Ok(None);
    };
    let (tree, next) = read;
    Ok(Some(postfix_after(building, source, expr, depth, tree, next)?))
}

/// A primary expression with the suffixes after it.
fn postfix_after<T: Building, E: Fn(u8, usize) -> Result<Option<(T::Expr, usize)>, OutOfMemory>>(
    building: &T,
    source: &Source<'_>,
    expr: &E,
    depth: u8,
    tree: T::Expr,
    at: usize,
) -> Result<(T::Expr, usize), OutOfMemory>
    requires { E.IsAlwaysCallable expr.now }
    ensures { (inner : Level → Reader plain.Expr) → ReadsLevels T.expr inner source.now.tokens (E.post expr.now)
        → RowAt T.expr (reading.postfix_after (words source.now) inner depth (T.expr tree))
        source.now.tokens at result }
{
    if !building.nests_within(&tree, depth) {
        return Ok((tree, at));
    }
    let (row, next) = suffixes(building, source, expr, at)?;
    Ok((suffixed(building, tree, row)?, next))
}

/// An expression with the suffixes after it, if there are any.
fn suffixed<T: Building>(
    building: &T,
    tree: T::Expr,
    row: T::Suffixes,
) -> Result<T::Expr, OutOfMemory>
    ensures { IfOk result (λ all. T.expr all ≡ (if has_suffix (T.suffixes row plain.NoSuffixes)
        then plain.Postfix (T.expr tree) (T.suffixes row plain.NoSuffixes) else T.expr tree)) }
{
    if building.has_suffix(&row) {
        building.postfix(tree, row)
    } else {
        Ok(tree)
    }
}

/// Suffixes, as many as come.
fn suffixes<T: Building, E: Fn(u8, usize) -> Result<Option<(T::Expr, usize)>, OutOfMemory>>(
    building: &T,
    source: &Source<'_>,
    expr: &E,
    at: usize,
) -> Result<(T::Suffixes, usize), OutOfMemory>
    requires { E.IsAlwaysCallable expr.now }
    ensures { (inner : Level → Reader plain.Expr) → ReadsLevels T.expr inner source.now.tokens (E.post expr.now)
        → RowAt (λ row. T.suffixes row plain.NoSuffixes)
        (λ ts. reading.suffix_loop (words source.now) inner (length ts) ts) source.now.tokens at result }
{
    let mut row = building.no_suffixes();
    let mut next = at;
    'suffixes: for _step in at..source.len() {
        match suffix(building, source, expr, &mut row, next)? {
            None => return Ok((row, next)),
            Some(place) => next = place,
        }
    }
    Ok((row, next))
}

/// A suffix.
fn suffix<T: Building, E: Fn(u8, usize) -> Result<Option<(T::Expr, usize)>, OutOfMemory>>(
    building: &T,
    source: &Source<'_>,
    expr: &E,
    row: &mut T::Suffixes,
    at: usize,
) -> Result<Option<usize>, OutOfMemory>
    requires { E.IsAlwaysCallable expr.now }
    ensures { (inner : Level → Reader plain.Expr) → ReadsLevels T.expr inner source.now.tokens (E.post expr.now)
        → StepAt (T.suffixes row.old) (T.suffixes row.new) (suffix_step (words source.now) inner)
        source.now.tokens at result }
{
    match source.follow_at(at) {
        None => Ok(None),
        Some((token, follow, next)) => suffix_by(building, source, expr, row, follow, token, next),
    }
}

/// A suffix by its first token; `at` is the place after it.
fn suffix_by<T: Building, E: Fn(u8, usize) -> Result<Option<(T::Expr, usize)>, OutOfMemory>>(
    building: &T,
    source: &Source<'_>,
    expr: &E,
    row: &mut T::Suffixes,
    follow: Follow,
    token: Token,
    at: usize,
) -> Result<Option<usize>, OutOfMemory>
    requires { E.IsAlwaysCallable expr.now }
    ensures { (inner : Level → Reader plain.Expr) → ReadsLevels T.expr inner source.now.tokens (E.post expr.now)
        → StepAt (T.suffixes row.old) (T.suffixes row.new)
        (λ go. reading.suffix_by (words source.now) inner go follow token) source.now.tokens at result }
{
    match follow {
        Follow::Bracket => index(building, source, expr, row, token, at),
        Follow::Parenthesis => {
            if source.begins_operand(at) {
                call(building, source, expr, row, token, at)
            } else {
                call_empty(building, source, row, token, at)
            }
        }
        Follow::Point => member_access(building, source, row, token, at),
        Follow::Steps => {
            building.push_post_increment(row, token)?;
            Ok(Some(at))
        }
        _ => Ok(None),
    }
}

/// After `[`: an expression and `]`.
fn index<T: Building, E: Fn(u8, usize) -> Result<Option<(T::Expr, usize)>, OutOfMemory>>(
    building: &T,
    source: &Source<'_>,
    expr: &E,
    row: &mut T::Suffixes,
    opening: Token,
    at: usize,
) -> Result<Option<usize>, OutOfMemory>
    requires { E.IsAlwaysCallable expr.now }
    ensures { (inner : Level → Reader plain.Expr) → ReadsLevels T.expr inner source.now.tokens (E.post expr.now)
        → StepAt (T.suffixes row.old) (T.suffixes row.new)
        (λ go. reading.suffix_by (words source.now) inner go Follow.Bracket opening) source.now.tokens at result }
{
    let Some(read) = expr(level::COMMA, at)? else {
        return Ok(None);
    };
    let (inside, next) = read;
    let Some(mark) = source.mark(FixedWord::RightBracket, next) else {
        return Ok(None);
    };
    let (closing, next) = mark;
    building.push_index(row, opening, inside, closing)?;
    Ok(Some(next))
}

/// After `(`, where an operand begins: arguments and `)`.
fn call<T: Building, E: Fn(u8, usize) -> Result<Option<(T::Expr, usize)>, OutOfMemory>>(
    building: &T,
    source: &Source<'_>,
    expr: &E,
    row: &mut T::Suffixes,
    opening: Token,
    at: usize,
) -> Result<Option<usize>, OutOfMemory>
    requires { E.IsAlwaysCallable expr.now }
    ensures { (inner : Level → Reader plain.Expr) → ReadsLevels T.expr inner source.now.tokens (E.post expr.now)
        → StepAt (T.suffixes row.old) (T.suffixes row.new)
        (λ go. arguments (words source.now) inner go opening) source.now.tokens at result }
{
    let Some(read) = expr(level::ASSIGNMENT, at)? else {
        return Ok(None);
    };
    let (first, next) = read;
    let (others, next) = operands(
        building,
        source,
        expr,
        level::ASSIGNMENT,
        level::COMMA,
        next,
    )?;
    let Some(mark) = source.mark(FixedWord::RightParen, next) else {
        return Ok(None);
    };
    let (closing, next) = mark;
    building.push_call(row, opening, first, others, closing)?;
    Ok(Some(next))
}

/// After `(`, where no operand begins: `)`.
fn call_empty<T: Building>(
    building: &T,
    source: &Source<'_>,
    row: &mut T::Suffixes,
    opening: Token,
    at: usize,
) -> Result<Option<usize>, OutOfMemory>
    ensures { StepAt (T.suffixes row.old) (T.suffixes row.new)
        (λ go. no_arguments (words source.now) go opening) source.now.tokens at result }
{
    let Some(mark) = source.mark(FixedWord::RightParen, at) else {
        return Ok(None);
    };
    let (closing, next) = mark;
    building.push_call_empty(row, opening, closing)?;
    Ok(Some(next))
}

/// After `.` or `->`: a member's name.
fn member_access<T: Building>(
    building: &T,
    source: &Source<'_>,
    row: &mut T::Suffixes,
    operator: Token,
    at: usize,
) -> Result<Option<usize>, OutOfMemory>
    ensures { (inner : Level → Reader plain.Expr) → StepAt (T.suffixes row.old) (T.suffixes row.new)
        (λ go. reading.suffix_by (words source.now) inner go Follow.Point operator) source.now.tokens at result }
{
    let Some(name) = source.identifier(at) else {
        return Ok(None);
    };
    let (member, next) = name;
    building.push_member_access(row, operator, member)?;
    Ok(Some(next))
}
