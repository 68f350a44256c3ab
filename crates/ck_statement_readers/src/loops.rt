//! Loops (C99 6.8.5).
ghost use Rattle.ck_base.specs.declared.tokens.Token.{Token};
ghost use Rattle.ck_grammar.specs.Levels.{Level, comma};
ghost use Rattle.ck_grammar.specs.Readers.{Reader};
ghost use Rattle.ck_grammar.specs.ReadingStatements as reading;
ghost use Rattle.ck_grammar.specs.Statements as statements;
ghost use Rattle.ck_grammar.specs.Trees as plain;
ghost use Rattle.ck_grammar.specs.declared.classes.Phrase.TheVariants as phrases;
ghost use Rattle.ck_readers.specs.Places.{ReadAt, Reads, ReadsLevels};
ghost use Rattle.ck_readers.specs.SourceView.{words};
ghost use Rattle.ck_statement_readers.specs.Parts.{PartAt};
ghost use Rattle.ck_statement_readers.specs.Steps.{head_of_for as head_reader, head_rest};

use crate::controlling::{controlling, maybe_expr};
use ck_base::{OutOfMemory, Token};
use ck_grammar::{FixedWord, level};
use ck_readers::Source;
use ck_statement_trees::BuildingStatements;

/// After `while`: `(` expression `)` statement (6.8.5.1).
pub(crate) fn while_loop<
    T: BuildingStatements,
    E: Fn(u8, usize) -> Result<Option<(T::Expr, usize)>, OutOfMemory>,
    S: Fn(usize) -> Result<Option<(T::Statement, usize)>, OutOfMemory>,
>(
    building: &T,
    source: &Source<'_>,
    expr: &E,
    statement: &S,
    keyword: Token,
    at: usize,
) -> Result<Option<(T::Statement, usize)>, OutOfMemory>
    requires tests { E.IsAlwaysCallable expr.now }
    requires bodies { S.IsAlwaysCallable statement.now }
    ensures { (inner : Level → Reader plain.Expr) (d : Reader statements.Declaration) (s : Reader statements.Statement)
        → ReadsLevels T.expr inner source.now.tokens (E.post expr.now)
        → Reads T.statement s source.now.tokens (S.post statement.now)
        → ReadAt T.statement (reading.statement_by (words source.now) inner d s phrases.While keyword)
        source.now.tokens at result }
{
    let Some(found) = controlling(building, source, expr, at)? else {
        return Ok(None);
    };
    let (test, after_test) = found;
    let Some(read) = statement(after_test)? else {
        return Ok(None);
    };
    let (body, next) = read;
    Ok(Some((building.while_loop(keyword, test, body)?, next)))
}

/// After `do`: statement `while` `(` expression `)` `;` (6.8.5.2).
pub(crate) fn do_loop<
    T: BuildingStatements,
    E: Fn(u8, usize) -> Result<Option<(T::Expr, usize)>, OutOfMemory>,
    S: Fn(usize) -> Result<Option<(T::Statement, usize)>, OutOfMemory>,
>(
    building: &T,
    source: &Source<'_>,
    expr: &E,
    statement: &S,
    keyword: Token,
    at: usize,
) -> Result<Option<(T::Statement, usize)>, OutOfMemory>
    requires tests { E.IsAlwaysCallable expr.now }
    requires bodies { S.IsAlwaysCallable statement.now }
    ensures { (inner : Level → Reader plain.Expr) (d : Reader statements.Declaration) (s : Reader statements.Statement)
        → ReadsLevels T.expr inner source.now.tokens (E.post expr.now)
        → Reads T.statement s source.now.tokens (S.post statement.now)
        → ReadAt T.statement (reading.statement_by (words source.now) inner d s phrases.Do keyword)
        source.now.tokens at result }
{
    let Some(read) = statement(at)? else {
        return Ok(None);
    };
    let (body, after_body) = read;
    let Some(mark) = source.mark(FixedWord::While, after_body) else {
        return Ok(None);
    };
    let (while_keyword, after_while) = mark;
    let Some(found) = controlling(building, source, expr, after_while)? else {
        return Ok(None);
    };
    let (test, after_test) = found;
    let Some(mark) = source.mark(FixedWord::Semicolon, after_test) else {
        return Ok(None);
    };
    let (semicolon, next) = mark;
    let tree = building.do_loop(keyword, body, while_keyword, test, semicolon)?;
    Ok(Some((tree, next)))
}

/// After `for`: its head and a statement (6.8.5.3).
pub(crate) fn for_loop<
    T: BuildingStatements,
    E: Fn(u8, usize) -> Result<Option<(T::Expr, usize)>, OutOfMemory>,
    D: Fn(usize) -> Result<Option<(T::Declaration, usize)>, OutOfMemory>,
    S: Fn(usize) -> Result<Option<(T::Statement, usize)>, OutOfMemory>,
>(
    building: &T,
    source: &Source<'_>,
    expr: &E,
    declaration: &D,
    statement: &S,
    keyword: Token,
    at: usize,
) -> Result<Option<(T::Statement, usize)>, OutOfMemory>
    requires tests { E.IsAlwaysCallable expr.now }
    requires declared { D.IsAlwaysCallable declaration.now }
    requires bodies { S.IsAlwaysCallable statement.now }
    ensures { (inner : Level → Reader plain.Expr) (d : Reader statements.Declaration) (s : Reader statements.Statement)
        → ReadsLevels T.expr inner source.now.tokens (E.post expr.now)
        → Reads T.declaration d source.now.tokens (D.post declaration.now)
        → Reads T.statement s source.now.tokens (S.post statement.now)
        → ReadAt T.statement (reading.statement_by (words source.now) inner d s phrases.For keyword)
        source.now.tokens at result }
{
    let Some(found) = head_of_for(building, source, expr, declaration, at)? else {
        return Ok(None);
    };
    let (head, after_head) = found;
    let Some(read) = statement(after_head)? else {
        return Ok(None);
    };
    let (body, next) = read;
    Ok(Some((building.for_loop(keyword, head, body)?, next)))
}

/// `(` start [expression] `;` [expression] `)`
fn head_of_for<
    T: BuildingStatements,
    E: Fn(u8, usize) -> Result<Option<(T::Expr, usize)>, OutOfMemory>,
    D: Fn(usize) -> Result<Option<(T::Declaration, usize)>, OutOfMemory>,
>(
    building: &T,
    source: &Source<'_>,
    expr: &E,
    declaration: &D,
    at: usize,
) -> Result<Option<(T::ForHead, usize)>, OutOfMemory>
    requires tests { E.IsAlwaysCallable expr.now }
    requires declared { D.IsAlwaysCallable declaration.now }
    ensures { (inner : Level → Reader plain.Expr) (d : Reader statements.Declaration)
        → ReadsLevels T.expr inner source.now.tokens (E.post expr.now)
        → Reads T.declaration d source.now.tokens (D.post declaration.now)
        → PartAt T.for_head (head_reader (words source.now) (inner comma) d) source.now.tokens at result }
{
    let Some(mark) = source.mark(FixedWord::LeftParen, at) else {
        return Ok(None);
    };
    let (opening, after_opening) = mark;
    let Some(found) = start_of_for(building, source, expr, declaration, after_opening)? else {
        return Ok(None);
    };
    let (first, after_first) = found;
    rest_of_head(building, source, expr, opening, first, after_first)
}

/// What `for (` begins with: a declaration, or an expression or nothing and `;`
fn start_of_for<
    T: BuildingStatements,
    E: Fn(u8, usize) -> Result<Option<(T::Expr, usize)>, OutOfMemory>,
    D: Fn(usize) -> Result<Option<(T::Declaration, usize)>, OutOfMemory>,
>(
    building: &T,
    source: &Source<'_>,
    expr: &E,
    declaration: &D,
    at: usize,
) -> Result<Option<(T::ForStart, usize)>, OutOfMemory>
    requires tests { E.IsAlwaysCallable expr.now }
    requires declared { D.IsAlwaysCallable declaration.now }
    ensures { (inner : Level → Reader plain.Expr) (d : Reader statements.Declaration)
        → ReadsLevels T.expr inner source.now.tokens (E.post expr.now)
        → Reads T.declaration d source.now.tokens (D.post declaration.now)
        → ReadAt T.for_start (reading.start (words source.now) (inner comma) d) source.now.tokens at result }
{
    if source.begins_specifiers(at) {
        let Some(read) = declaration(at)? else {
            return Ok(None);
        };
        let (tree, next) = read;
        return Ok(Some((building.start_declaration(tree)?, next)));
    }
    if !source.begins_operand(at) {
        let Some(mark) = source.mark(FixedWord::Semicolon, at) else {
            return Ok(None);
        };
        let (semicolon, next) = mark;
        return Ok(Some((building.start_empty(semicolon), next)));
    }
    let Some(read) = expr(level::COMMA, at)? else {
        return Ok(None);
    };
    let (tree, after_tree) = read;
    let Some(mark) = source.mark(FixedWord::Semicolon, after_tree) else {
        return Ok(None);
    };
    let (semicolon, next) = mark;
    Ok(Some((building.start_expr(tree, semicolon), next)))
}

/// After the start of `for`: [expression] `;` [expression] `)`
fn rest_of_head<
    T: BuildingStatements,
    E: Fn(u8, usize) -> Result<Option<(T::Expr, usize)>, OutOfMemory>,
>(
    building: &T,
    source: &Source<'_>,
    expr: &E,
    opening: Token,
    first: T::ForStart,
    at: usize,
) -> Result<Option<(T::ForHead, usize)>, OutOfMemory>
    requires { E.IsAlwaysCallable expr.now }
    ensures { (inner : Level → Reader plain.Expr) → ReadsLevels T.expr inner source.now.tokens (E.post expr.now)
        → PartAt T.for_head (head_rest (words source.now) (inner comma) opening (T.for_start first))
        source.now.tokens at result }
{
    let Some(found) = maybe_expr::<T, E>(source, expr, at)? else {
        return Ok(None);
    };
    let (test, after_test) = found;
    let Some(mark) = source.mark(FixedWord::Semicolon, after_test) else {
        return Ok(None);
    };
    let (semicolon, after_semicolon) = mark;
    let Some(found) = maybe_expr::<T, E>(source, expr, after_semicolon)? else {
        return Ok(None);
    };
    let (step, after_step) = found;
    let Some(mark) = source.mark(FixedWord::RightParen, after_step) else {
        return Ok(None);
    };
    let (closing, next) = mark;
    let head = building.head_of_for(opening, first, test, semicolon, step, closing)?;
    Ok(Some((head, next)))
}
