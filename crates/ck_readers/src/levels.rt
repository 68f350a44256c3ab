//! Expressions by their level of precedence (C99 6.5).
ghost use Rattle.std.specs.Prelude.{◌<◌, suc, length};
ghost use Rattle.ck_grammar.specs.Levels.{Level};
ghost use Rattle.ck_grammar.specs.Readers.{Reader};
ghost use Rattle.ck_grammar.specs.ReadingExpressions as reading;
ghost use Rattle.ck_grammar.specs.Trees as plain;
ghost use Rattle.ck_readers.specs.Places.{ReadAt, Reads, ReadsLevels, RowAt};
ghost use Rattle.ck_readers.specs.SourceView.{words};

use crate::builders::Building;
use crate::operands::{chained, operands};
use crate::sources::Source;
use crate::unary::{cast, is_unary};
use ck_base::OutOfMemory;
use ck_grammar::{FixedWord, level};

/// The expression of a level or a tighter one at a place. `expr` reads the expressions inside it by their level, and
/// `type_name` the type names with their parentheses. These nest at most `depth` deep; what nests deeper takes no
/// operator and no suffix after it.
pub fn expression<
    T: Building,
    E: Fn(u8, usize) -> Result<Option<(T::Expr, usize)>, OutOfMemory>,
    N: Fn(usize) -> Result<Option<(T::TypeName, usize)>, OutOfMemory>,
>(
    building: &T,
    source: &Source<'_>,
    expr: &E,
    type_name: &N,
    depth: u8,
    of: u8,
    at: usize,
) -> Result<Option<(T::Expr, usize)>, OutOfMemory>
    requires inside { E.IsAlwaysCallable expr.now }
    requires types { N.IsAlwaysCallable type_name.now }
    ensures { (inner : Level → Reader plain.Expr) (ty : Reader (plain.Specifiers × plain.Declarator))
        → ReadsLevels T.expr inner source.now.tokens (E.post expr.now)
        → Reads T.type_name (reading.in_parens (words source.now) ty) source.now.tokens (N.post type_name.now)
        → ReadAt T.expr (reading.level_reader (words source.now) inner ty depth of) source.now.tokens at result }
{
    let Some(read) = cast(building, source, expr, type_name, depth, at)? else {
        return Ok(None);
    };
    let (mut tree, mut next) = read;
    'levels: for tighter in 0..of {
        let (longer, place) = more(building, source, expr, depth, tighter, tree, next)?;
        tree = longer;
        next = place;
    }
    Ok(Some((tree, next)))
}

/// What an expression of a level is the left end of, at the next level; it alone, where it nests deeper than `depth`.
fn more<T: Building, E: Fn(u8, usize) -> Result<Option<(T::Expr, usize)>, OutOfMemory>>(
    building: &T,
    source: &Source<'_>,
    expr: &E,
    depth: u8,
    tighter: u8,
    tree: T::Expr,
    at: usize,
) -> Result<(T::Expr, usize), OutOfMemory>
    requires callable { E.IsAlwaysCallable expr.now }
    requires level { tighter < 255 }
    ensures { (inner : Level → Reader plain.Expr) → ReadsLevels T.expr inner source.now.tokens (E.post expr.now)
        → RowAt T.expr (reading.more (words source.now) inner depth tighter (T.expr tree)) source.now.tokens at result }
{
    if !building.nests_within(&tree, depth) {
        return Ok((tree, at));
    }
    if tighter == level::LOGICAL_OR {
        conditional(building, source, expr, tree, at)
    } else if tighter == level::CONDITIONAL {
        assignment(building, source, expr, tree, at)
    } else {
        chain(building, source, expr, tighter, tree, at)
    }
}

/// An operand with the operators of the next level after it and their operands, if they come.
fn chain<T: Building, E: Fn(u8, usize) -> Result<Option<(T::Expr, usize)>, OutOfMemory>>(
    building: &T,
    source: &Source<'_>,
    expr: &E,
    tighter: u8,
    first: T::Expr,
    at: usize,
) -> Result<(T::Expr, usize), OutOfMemory>
    requires callable { E.IsAlwaysCallable expr.now }
    requires level { tighter < 255 }
    ensures { (inner : Level → Reader plain.Expr) → ReadsLevels T.expr inner source.now.tokens (E.post expr.now)
        → RowAt T.expr (λ ts. reading.chained (T.expr first)
        (reading.operand_loop (words source.now) (inner tighter) (suc tighter) (length ts) ts))
        source.now.tokens at result }
{
    let (row, next) = operands(building, source, expr, tighter, tighter + 1, at)?;
    Ok((chained(building, first, row)?, next))
}

/// After an operand: `?`, an expression, `:` and a conditional expression, if they come (6.5.15).
fn conditional<T: Building, E: Fn(u8, usize) -> Result<Option<(T::Expr, usize)>, OutOfMemory>>(
    building: &T,
    source: &Source<'_>,
    expr: &E,
    test: T::Expr,
    at: usize,
) -> Result<(T::Expr, usize), OutOfMemory>
    requires { E.IsAlwaysCallable expr.now }
    ensures { (inner : Level → Reader plain.Expr) → ReadsLevels T.expr inner source.now.tokens (E.post expr.now)
        → RowAt T.expr (reading.conditional (words source.now) inner (T.expr test)) source.now.tokens at result }
{
    let Some(mark) = source.operator(level::CONDITIONAL, at) else {
        return Ok((test, at));
    };
    let (question, next) = mark;
    let Some(read) = expr(level::COMMA, next)? else {
        return Ok((test, at));
    };
    let (second, next) = read;
    let Some(mark) = source.mark(FixedWord::Colon, next) else {
        return Ok((test, at));
    };
    let (colon, next) = mark;
    let Some(read) = expr(level::CONDITIONAL, next)? else {
        return Ok((test, at));
    };
    let (third, next) = read;
    Ok((
        building.conditional(test, question, second, colon, third)?,
        next,
    ))
}

/// After a unary expression: an assignment operator and an assignment expression, if they come (6.5.16).
fn assignment<T: Building, E: Fn(u8, usize) -> Result<Option<(T::Expr, usize)>, OutOfMemory>>(
    building: &T,
    source: &Source<'_>,
    expr: &E,
    target: T::Expr,
    at: usize,
) -> Result<(T::Expr, usize), OutOfMemory>
    requires { E.IsAlwaysCallable expr.now }
    ensures { (inner : Level → Reader plain.Expr) → ReadsLevels T.expr inner source.now.tokens (E.post expr.now)
        → RowAt T.expr (reading.assignment (words source.now) inner (T.expr target)) source.now.tokens at result }
{
    let Some(mark) = source.operator(level::ASSIGNMENT, at) else {
        return Ok((target, at));
    };
    let (operator, next) = mark;
    if !is_unary(building.form(&target)) {
        return Ok((target, at));
    }
    let Some(read) = expr(level::ASSIGNMENT, next)? else {
        return Ok((target, at));
    };
    let (value, next) = read;
    Ok((building.assignment(target, operator, value)?, next))
}
