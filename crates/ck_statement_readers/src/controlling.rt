//! Expressions as parts of statements (C99 6.8.3 to 6.8.5).
ghost use Rattle.ck_grammar.specs.Levels.{Level, comma};
ghost use Rattle.ck_grammar.specs.Readers.{Reader};
ghost use Rattle.ck_grammar.specs.ReadingStatements as reading;
ghost use Rattle.ck_grammar.specs.Trees as plain;
ghost use Rattle.ck_readers.specs.Places.{ReadAt, ReadsLevels};
ghost use Rattle.ck_readers.specs.SourceView.{words};
ghost use Rattle.ck_statement_trees.specs.Parts.{maybe};

use ck_base::OutOfMemory;
use ck_grammar::{FixedWord, level};
use ck_readers::Source;
use ck_statement_trees::BuildingStatements;

/// `(` expression `)` of a selection or a loop.
pub(crate) fn controlling<
    T: BuildingStatements,
    E: Fn(u8, usize) -> Result<Option<(T::Expr, usize)>, OutOfMemory>,
>(
    building: &T,
    source: &Source<'_>,
    expr: &E,
    at: usize,
) -> Result<Option<(T::Controlling, usize)>, OutOfMemory>
    requires { E.IsAlwaysCallable expr.now }
    ensures { (inner : Level → Reader plain.Expr) → ReadsLevels T.expr inner source.now.tokens (E.post expr.now)
        → ReadAt T.controlling (reading.controlling (words source.now) (inner comma)) source.now.tokens at result }
{
    let Some(mark) = source.mark(FixedWord::LeftParen, at) else {
        return Ok(None);
    };
    let (opening, next) = mark;
    let Some(read) = expr(level::COMMA, next)? else {
        return Ok(None);
    };
    let (tree, next) = read;
    let Some(mark) = source.mark(FixedWord::RightParen, next) else {
        return Ok(None);
    };
    let (closing, next) = mark;
    Ok(Some((building.parenthesised_test(opening, tree, closing)?, next)))
}

/// An expression, where one begins.
pub(crate) fn maybe_expr<
    T: BuildingStatements,
    E: Fn(u8, usize) -> Result<Option<(T::Expr, usize)>, OutOfMemory>,
>(source: &Source<'_>, expr: &E, at: usize) -> Result<Option<(Option<T::Expr>, usize)>, OutOfMemory>
    requires { E.IsAlwaysCallable expr.now }
    ensures { (inner : Level → Reader plain.Expr) → ReadsLevels T.expr inner source.now.tokens (E.post expr.now)
        → ReadAt (maybe T.expr) (reading.maybe_expr (words source.now) (inner comma)) source.now.tokens at result }
{
    if !source.begins_operand(at) {
        return Ok(Some((None, at)));
    }
    let Some(read) = expr(level::COMMA, at)? else {
        return Ok(None);
    };
    let (tree, next) = read;
    Ok(Some((Some(tree), next)))
}

/// expression `;` (6.8.3)
pub(crate) fn expression_statement<
    T: BuildingStatements,
    E: Fn(u8, usize) -> Result<Option<(T::Expr, usize)>, OutOfMemory>,
>(
    building: &T,
    source: &Source<'_>,
    expr: &E,
    at: usize,
) -> Result<Option<(T::Statement, usize)>, OutOfMemory>
    requires { E.IsAlwaysCallable expr.now }
    ensures { (inner : Level → Reader plain.Expr) → ReadsLevels T.expr inner source.now.tokens (E.post expr.now)
        → ReadAt T.statement (reading.expression_statement (words source.now) (inner comma))
        source.now.tokens at result }
{
    let Some(read) = expr(level::COMMA, at)? else {
        return Ok(None);
    };
    let (tree, next) = read;
    let Some(mark) = source.mark(FixedWord::Semicolon, next) else {
        return Ok(None);
    };
    let (semicolon, next) = mark;
    Ok(Some((building.expression_statement(tree, semicolon), next)))
}
