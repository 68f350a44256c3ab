//! Jumps (C99 6.8.6).
ghost use Rattle.ck_grammar.specs.Levels.{Level};
ghost use Rattle.ck_grammar.specs.Readers.{Reader};
ghost use Rattle.ck_grammar.specs.ReadingStatements as reading;
ghost use Rattle.ck_grammar.specs.Statements as statements;
ghost use Rattle.ck_grammar.specs.Trees as plain;
ghost use Rattle.ck_grammar.specs.declared.classes.Phrase.TheVariants as phrases;
ghost use Rattle.ck_readers.specs.Places.{ReadAt, ReadsLevels};
ghost use Rattle.ck_readers.specs.SourceView.{words};

use ck_base::{OutOfMemory, Token};
use ck_grammar::{FixedWord, level};
use ck_readers::Source;
use ck_statement_trees::BuildingStatements;

/// After `goto`: name `;` (6.8.6.1).
pub(crate) fn goto<T: BuildingStatements>(
    building: &T,
    source: &Source<'_>,
    keyword: Token,
    at: usize,
) -> Result<Option<(T::Statement, usize)>, OutOfMemory>
    ensures { (inner : Level → Reader plain.Expr) (d : Reader statements.Declaration) (s : Reader statements.Statement)
        → ReadAt T.statement (reading.statement_by (words source.now) inner d s phrases.Goto keyword)
        source.now.tokens at result }
{
    let Some(name) = source.identifier(at) else {
        return Ok(None);
    };
    let (label, after_label) = name;
    let Some(mark) = source.mark(FixedWord::Semicolon, after_label) else {
        return Ok(None);
    };
    let (semicolon, next) = mark;
    Ok(Some((building.goto(keyword, label, semicolon), next)))
}

/// After `break` or `continue`: `;` (6.8.6.2, 6.8.6.3).
pub(crate) fn jump<T: BuildingStatements>(
    building: &T,
    source: &Source<'_>,
    keyword: Token,
    at: usize,
) -> Result<Option<(T::Statement, usize)>, OutOfMemory>
    ensures { (inner : Level → Reader plain.Expr) (d : Reader statements.Declaration) (s : Reader statements.Statement)
        → ReadAt T.statement (reading.statement_by (words source.now) inner d s phrases.Jump keyword)
        source.now.tokens at result }
{
    let Some(mark) = source.mark(FixedWord::Semicolon, at) else {
        return Ok(None);
    };
    let (semicolon, next) = mark;
    Ok(Some((building.jump(keyword, semicolon), next)))
}

/// After `return`: an expression, if one begins, and `;` (6.8.6.4).
pub(crate) fn return_statement<
    T: BuildingStatements,
    E: Fn(u8, usize) -> Result<Option<(T::Expr, usize)>, OutOfMemory>,
>(
    building: &T,
    source: &Source<'_>,
    expr: &E,
    keyword: Token,
    at: usize,
) -> Result<Option<(T::Statement, usize)>, OutOfMemory>
    requires { E.IsAlwaysCallable expr.now }
    ensures { (inner : Level → Reader plain.Expr) (d : Reader statements.Declaration) (s : Reader statements.Statement)
        → ReadsLevels T.expr inner source.now.tokens (E.post expr.now)
        → ReadAt T.statement (reading.statement_by (words source.now) inner d s phrases.Return keyword)
        source.now.tokens at result }
{
    if !source.begins_operand(at) {
        let Some(mark) = source.mark(FixedWord::Semicolon, at) else {
            return Ok(None);
        };
        let (semicolon, next) = mark;
        return Ok(Some((building.return_nothing(keyword, semicolon), next)));
    }
    let Some(read) = expr(level::COMMA, at)? else {
        return Ok(None);
    };
    let (value, after_value) = read;
    let Some(mark) = source.mark(FixedWord::Semicolon, after_value) else {
        return Ok(None);
    };
    let (semicolon, next) = mark;
    Ok(Some((building.return_value(keyword, value, semicolon)?, next)))
}
