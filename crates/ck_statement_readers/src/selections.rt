//! Selections (C99 6.8.4).
ghost use Rattle.ck_grammar.specs.Levels.{Level};
ghost use Rattle.ck_grammar.specs.Readers.{Reader};
ghost use Rattle.ck_grammar.specs.ReadingStatements as reading;
ghost use Rattle.ck_grammar.specs.Statements as statements;
ghost use Rattle.ck_grammar.specs.Trees as plain;
ghost use Rattle.ck_grammar.specs.declared.classes.Phrase.TheVariants as phrases;
ghost use Rattle.ck_readers.specs.Places.{ReadAt, Reads, ReadsLevels};
ghost use Rattle.ck_readers.specs.SourceView.{words};
ghost use Rattle.ck_statement_readers.specs.Steps.{else_after};

use crate::controlling::controlling;
use ck_base::{OutOfMemory, Token};
use ck_grammar::FixedWord;
use ck_readers::Source;
use ck_statement_trees::BuildingStatements;

/// After `if`: `(` expression `)` statement, and maybe `else` statement (6.8.4.1).
pub(crate) fn if_statement<
    T: BuildingStatements,
    E: Fn(u8, usize) -> Result<Option<(T::Expr, usize)>, OutOfMemory>,
    S: Fn(usize) -> Result<Option<(T::Statement, usize)>, OutOfMemory>,
>(
    building: &T,
    source: &Source<'_>,
    expr: &E,
    statement: &S,
    keyword: Token,
    at: usize,
) -> Result<Option<(T::Statement, usize)>, OutOfMemory>
    requires tests { E.IsAlwaysCallable expr.now }
    requires bodies { S.IsAlwaysCallable statement.now }
    ensures { (inner : Level → Reader plain.Expr) (d : Reader statements.Declaration) (s : Reader statements.Statement)
        → ReadsLevels T.expr inner source.now.tokens (E.post expr.now)
        → Reads T.statement s source.now.tokens (S.post statement.now)
        → ReadAt T.statement (reading.statement_by (words source.now) inner d s phrases.If keyword)
        source.now.tokens at result }
{
    let Some(found) = controlling(building, source, expr, at)? else {
        return Ok(None);
    };
    let (test, after_test) = found;
    let Some(read) = statement(after_test)? else {
        return Ok(None);
    };
    let (body, next) = read;
    else_part(building, source, statement, keyword, test, body, next)
}

/// After the statement of an `if`: `else` and a statement, if they come.
fn else_part<
    T: BuildingStatements,
    S: Fn(usize) -> Result<Option<(T::Statement, usize)>, OutOfMemory>,
>(
    building: &T,
    source: &Source<'_>,
    statement: &S,
    keyword: Token,
    test: T::Controlling,
    body: T::Statement,
    at: usize,
) -> Result<Option<(T::Statement, usize)>, OutOfMemory>
    requires { S.IsAlwaysCallable statement.now }
    ensures { (s : Reader statements.Statement) → Reads T.statement s source.now.tokens (S.post statement.now)
        → ReadAt T.statement (else_after (words source.now) s keyword (T.controlling test) (T.statement body))
        source.now.tokens at result }
{
    let Some(mark) = source.mark(FixedWord::Else, at) else {
        let tree = building.if_then(keyword, test, body)?;
        return Ok(Some((tree, at)));
    };
    let (else_keyword, next) = mark;
    let Some(read) = statement(next)? else {
        return Ok(None);
    };
    let (otherwise, next) = read;
    let tree = building.if_else(keyword, test, body, else_keyword, otherwise)?;
    Ok(Some((tree, next)))
}

/// After `switch`: `(` expression `)` statement (6.8.4.2).
pub(crate) fn switch<
    T: BuildingStatements,
    E: Fn(u8, usize) -> Result<Option<(T::Expr, usize)>, OutOfMemory>,
    S: Fn(usize) -> Result<Option<(T::Statement, usize)>, OutOfMemory>,
>(
    building: &T,
    source: &Source<'_>,
    expr: &E,
    statement: &S,
    keyword: Token,
    at: usize,
) -> Result<Option<(T::Statement, usize)>, OutOfMemory>
    requires tests { E.IsAlwaysCallable expr.now }
    requires bodies { S.IsAlwaysCallable statement.now }
    ensures { (inner : Level → Reader plain.Expr) (d : Reader statements.Declaration) (s : Reader statements.Statement)
        → ReadsLevels T.expr inner source.now.tokens (E.post expr.now)
        → Reads T.statement s source.now.tokens (S.post statement.now)
        → ReadAt T.statement (reading.statement_by (words source.now) inner d s phrases.Switch keyword)
        source.now.tokens at result }
{
    let Some(found) = controlling(building, source, expr, at)? else {
        return Ok(None);
    };
    let (test, after_test) = found;
    let Some(read) = statement(after_test)? else {
        return Ok(None);
    };
    let (body, next) = read;
    Ok(Some((building.switch(keyword, test, body)?, next)))
}
