//! Statements by what their first token begins (C99 6.8).
ghost use Rattle.std.specs.Prelude.{◌≡◌, ◌&&◌, false, drop};
ghost use Rattle.ck_grammar.specs.Levels.{Level};
ghost use Rattle.ck_grammar.specs.Readers.{Reader, is_at};
ghost use Rattle.ck_grammar.specs.ReadingStatements as reading;
ghost use Rattle.ck_grammar.specs.Statements as statements;
ghost use Rattle.ck_grammar.specs.Trees as plain;
ghost use Rattle.ck_readers.specs.Places.{ReadAt, Reads, ReadsLevels};
ghost use Rattle.ck_readers.specs.SourceView.{words};
ghost use Rattle.ck_statement_readers.specs.Views.{begins_expr, is_name_phrase};

use crate::blocks::block;
use crate::controlling::expression_statement;
use crate::jumps::{goto, jump, return_statement};
use crate::labels::{case_label, default_label, label};
use crate::loops::{do_loop, for_loop, while_loop};
use crate::selections::{if_statement, switch};
use ck_base::{OutOfMemory, Token};
use ck_grammar::{FixedWord, Phrase};
use ck_readers::Source;
use ck_statement_trees::BuildingStatements;

/// A statement. `expr` reads the expressions inside it by their level, `declaration` the declarations in its blocks,
/// `inner` the statements inside it.
pub fn statement<
    T: BuildingStatements,
    E: Fn(u8, usize) -> Result<Option<(T::Expr, usize)>, OutOfMemory>,
    D: Fn(usize) -> Result<Option<(T::Declaration, usize)>, OutOfMemory>,
    S: Fn(usize) -> Result<Option<(T::Statement, usize)>, OutOfMemory>,
>(
    building: &T,
    source: &Source<'_>,
    expr: &E,
    declaration: &D,
    inner: &S,
    at: usize,
) -> Result<Option<(T::Statement, usize)>, OutOfMemory>
    requires expressions { E.IsAlwaysCallable expr.now }
    requires declarations { D.IsAlwaysCallable declaration.now }
    requires inside { S.IsAlwaysCallable inner.now }
    ensures { (e : Level → Reader plain.Expr) (d : Reader statements.Declaration) (s : Reader statements.Statement)
        → ReadsLevels T.expr e source.now.tokens (E.post expr.now)
        → Reads T.declaration d source.now.tokens (D.post declaration.now)
        → Reads T.statement s source.now.tokens (S.post inner.now)
        → ReadAt T.statement (reading.read_statement (words source.now) e d s) source.now.tokens at result }
{
    let Some(first) = source.phrase_at(at) else {
        source.expected(at);
        return Ok(None);
    };
    let (token, phrase, next) = first;
    if opens_label(source, phrase, next) {
        return label(building, source, inner, token, next);
    }
    if begins_expression(phrase) {
        return expression_statement(building, source, expr, at);
    }
    statement_by(
        building,
        source,
        expr,
        declaration,
        inner,
        phrase,
        token,
        next,
    )
}

/// Whether a first token that begins this, and a colon at a place after it, are a label.
fn opens_label(source: &Source<'_>, phrase: Phrase, next: usize) -> bool
    ensures { result ≡ (is_name_phrase phrase && is_at (words source.now) ":" (drop next source.now.tokens)) }
{
    matches!(phrase, Phrase::Name) && source.is_word(FixedWord::Colon, next)
}

/// Whether an expression statement begins so, where no label does.
fn begins_expression(phrase: Phrase) -> bool
    ensures { result ≡ begins_expr phrase }
{
    matches!(phrase, Phrase::Name | Phrase::Other)
}

/// A statement that doesn't begin with an expression or a label, by its first token; `at` is the place after it.
fn statement_by<
    T: BuildingStatements,
    E: Fn(u8, usize) -> Result<Option<(T::Expr, usize)>, OutOfMemory>,
    D: Fn(usize) -> Result<Option<(T::Declaration, usize)>, OutOfMemory>,
    S: Fn(usize) -> Result<Option<(T::Statement, usize)>, OutOfMemory>,
>(
    building: &T,
    source: &Source<'_>,
    expr: &E,
    declaration: &D,
    inner: &S,
    phrase: Phrase,
    token: Token,
    at: usize,
) -> Result<Option<(T::Statement, usize)>, OutOfMemory>
    requires expressions { E.IsAlwaysCallable expr.now }
    requires declarations { D.IsAlwaysCallable declaration.now }
    requires inside { S.IsAlwaysCallable inner.now }
    ensures { (e : Level → Reader plain.Expr) (d : Reader statements.Declaration) (s : Reader statements.Statement)
        → ReadsLevels T.expr e source.now.tokens (E.post expr.now)
        → Reads T.declaration d source.now.tokens (D.post declaration.now)
        → Reads T.statement s source.now.tokens (S.post inner.now)
        → begins_expr phrase ≡ false
        → ReadAt T.statement (reading.statement_by (words source.now) e d s phrase token) source.now.tokens at result }
{
    match phrase {
        Phrase::Block => block(building, source, declaration, inner, token, at),
        Phrase::Empty => Ok(Some((building.empty(token), at))),
        Phrase::If => if_statement(building, source, expr, inner, token, at),
        Phrase::Switch => switch(building, source, expr, inner, token, at),
        Phrase::While => while_loop(building, source, expr, inner, token, at),
        Phrase::Do => do_loop(building, source, expr, inner, token, at),
        Phrase::For => for_loop(building, source, expr, declaration, inner, token, at),
        Phrase::Case => case_label(building, source, expr, inner, token, at),
        Phrase::Default => default_label(building, source, inner, token, at),
        Phrase::Goto => goto(building, source, token, at),
        Phrase::Jump => jump(building, source, token, at),
        Phrase::Return => return_statement(building, source, expr, token, at),
        Phrase::Close => Ok(None),
        Phrase::Else => Ok(None),
        Phrase::Name => Ok(None),
        Phrase::Other => Ok(None),
    }
}
