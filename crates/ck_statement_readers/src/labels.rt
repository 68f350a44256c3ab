//! Labeled statements (C99 6.8.1).
ghost use Rattle.std.specs.Prelude.{◌≡◌, drop};
ghost use Rattle.ck_grammar.specs.Levels.{Level};
ghost use Rattle.ck_grammar.specs.Readers.{Reader};
ghost use Rattle.ck_grammar.specs.ReadingStatements as reading;
ghost use Rattle.ck_grammar.specs.Statements as statements;
ghost use Rattle.ck_grammar.specs.Trees as plain;
ghost use Rattle.ck_grammar.specs.declared.classes.Phrase.TheVariants as phrases;
ghost use Rattle.ck_readers.specs.Places.{ReadAt, Reads, ReadsLevels};
ghost use Rattle.ck_readers.specs.SourceView.{words};
ghost use Rattle.ck_statement_readers.specs.Steps.{label_after};

use ck_base::{OutOfMemory, Token};
use ck_grammar::{FixedWord, level};
use ck_readers::Source;
use ck_statement_trees::BuildingStatements;

/// Whether an identifier with a colon after it is at a place.
pub(crate) fn is_label(source: &Source<'_>, at: usize) -> bool
    ensures { result ≡ reading.is_label (words source.now) (drop at source.now.tokens) }
{
    match source.identifier(at) {
        Some((_, next)) => source.is_word(FixedWord::Colon, next),
        None => false,
    }
}

/// After a name: `:` statement.
pub(crate) fn label<
    T: BuildingStatements,
    S: Fn(usize) -> Result<Option<(T::Statement, usize)>, OutOfMemory>,
>(
    building: &T,
    source: &Source<'_>,
    statement: &S,
    name: Token,
    at: usize,
) -> Result<Option<(T::Statement, usize)>, OutOfMemory>
    requires { S.IsAlwaysCallable statement.now }
    ensures { (s : Reader statements.Statement) → Reads T.statement s source.now.tokens (S.post statement.now)
        → ReadAt T.statement (label_after (words source.now) s name) source.now.tokens at result }
{
    let Some(mark) = source.mark(FixedWord::Colon, at) else {
        return Ok(None);
    };
    let (colon, after_colon) = mark;
    let Some(read) = statement(after_colon)? else {
        return Ok(None);
    };
    let (body, next) = read;
    Ok(Some((building.label(name, colon, body)?, next)))
}

/// After `case`: a constant expression, `:` and a statement.
pub(crate) fn case_label<
    T: BuildingStatements,
    E: Fn(u8, usize) -> Result<Option<(T::Expr, usize)>, OutOfMemory>,
    S: Fn(usize) -> Result<Option<(T::Statement, usize)>, OutOfMemory>,
>(
    building: &T,
    source: &Source<'_>,
    expr: &E,
    statement: &S,
    keyword: Token,
    at: usize,
) -> Result<Option<(T::Statement, usize)>, OutOfMemory>
    requires values { E.IsAlwaysCallable expr.now }
    requires bodies { S.IsAlwaysCallable statement.now }
    ensures { (inner : Level → Reader plain.Expr) (d : Reader statements.Declaration) (s : Reader statements.Statement)
        → ReadsLevels T.expr inner source.now.tokens (E.post expr.now)
        → Reads T.statement s source.now.tokens (S.post statement.now)
        → ReadAt T.statement (reading.statement_by (words source.now) inner d s phrases.Case keyword)
        source.now.tokens at result }
{
    let Some(read) = expr(level::CONDITIONAL, at)? else {
        return Ok(None);
    };
    let (value, after_value) = read;
    let Some(mark) = source.mark(FixedWord::Colon, after_value) else {
        return Ok(None);
    };
    let (colon, after_colon) = mark;
    let Some(read) = statement(after_colon)? else {
        return Ok(None);
    };
    let (body, next) = read;
    Ok(Some((building.case_label(keyword, value, colon, body)?, next)))
}

/// After `default`: `:` and a statement.
pub(crate) fn default_label<
    T: BuildingStatements,
    S: Fn(usize) -> Result<Option<(T::Statement, usize)>, OutOfMemory>,
>(
    building: &T,
    source: &Source<'_>,
    statement: &S,
    keyword: Token,
    at: usize,
) -> Result<Option<(T::Statement, usize)>, OutOfMemory>
    requires { S.IsAlwaysCallable statement.now }
    ensures { (inner : Level → Reader plain.Expr) (d : Reader statements.Declaration) (s : Reader statements.Statement)
        → Reads T.statement s source.now.tokens (S.post statement.now)
        → ReadAt T.statement (reading.statement_by (words source.now) inner d s phrases.Default keyword)
        source.now.tokens at result }
{
    let Some(mark) = source.mark(FixedWord::Colon, at) else {
        return Ok(None);
    };
    let (colon, after_colon) = mark;
    let Some(read) = statement(after_colon)? else {
        return Ok(None);
    };
    let (body, next) = read;
    Ok(Some((building.default_label(keyword, colon, body)?, next)))
}
