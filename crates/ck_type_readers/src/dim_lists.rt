//! Suffixes of declarators (C99 6.7.5.2, 6.7.5.3).
ghost use Rattle.ck_grammar.specs.Readers.{Reader};
ghost use Rattle.ck_grammar.specs.Trees as plain;
ghost use Rattle.ck_readers.specs.Places.{ReadAt, RowAt, StepAt, Reads};
ghost use Rattle.ck_readers.specs.SourceView.{words};
ghost use Rattle.ck_type_readers.specs.Steps.{array_step, dim_step, dims_from, function_step};
ghost use Rattle.ck_type_readers.specs.Views.{ended};

use ck_base::{OutOfMemory, Token};
use ck_grammar::{FixedWord, Sort};
use ck_readers::{Building, Source};

/// Suffixes of a declarator, as many as come. `expr` reads a size, `params` a parameter list.
pub(crate) fn dims<
    T: Building,
    E: Fn(usize) -> Result<Option<(T::Expr, usize)>, OutOfMemory>,
    P: Fn(usize) -> Result<Option<(T::Params, usize)>, OutOfMemory>,
>(
    building: &T,
    source: &Source<'_>,
    expr: &E,
    params: &P,
    at: usize,
) -> Result<(T::Dims, usize), OutOfMemory>
    requires sizes { E.IsAlwaysCallable expr.now }
    requires lists { P.IsAlwaysCallable params.now }
    ensures { (size : Reader plain.Expr) (list : Reader plain.Params)
        → Reads T.expr size source.now.tokens (E.post expr.now)
        → Reads T.params list source.now.tokens (P.post params.now)
        → RowAt (ended T.dims plain.NoDims) (dims_from (words source.now) size list) source.now.tokens at result }
{
    let mut row = building.no_dims();
    let mut here = at;
    'row: for _step in at..source.len() {
        match dim(building, source, expr, params, &mut row, here)? {
            None => return Ok((row, here)),
            Some(next) => here = next,
        }
    }
    Ok((row, here))
}

/// A suffix, which is pushed, and the place after it; nothing where none comes.
fn dim<
    T: Building,
    E: Fn(usize) -> Result<Option<(T::Expr, usize)>, OutOfMemory>,
    P: Fn(usize) -> Result<Option<(T::Params, usize)>, OutOfMemory>,
>(
    building: &T,
    source: &Source<'_>,
    expr: &E,
    params: &P,
    row: &mut T::Dims,
    at: usize,
) -> Result<Option<usize>, OutOfMemory>
    requires sizes { E.IsAlwaysCallable expr.now }
    requires lists { P.IsAlwaysCallable params.now }
    ensures { (size : Reader plain.Expr) (list : Reader plain.Params)
        → Reads T.expr size source.now.tokens (E.post expr.now)
        → Reads T.params list source.now.tokens (P.post params.now)
        → StepAt (T.dims row.old) (T.dims row.new) (dim_step (words source.now) size list)
        source.now.tokens at result }
{
    let Some((opening, sort, after)) = source.sort_at(at) else {
        return Ok(None);
    };
    match sort {
        Sort::SquareMark => array_dim(building, source, expr, row, opening, after),
        Sort::RoundMark => function_dim(building, source, params, row, opening, after),
        _ => Ok(None),
    }
}

/// After `[`, a size and `]`, or `]` at once.
fn array_dim<T: Building, E: Fn(usize) -> Result<Option<(T::Expr, usize)>, OutOfMemory>>(
    building: &T,
    source: &Source<'_>,
    expr: &E,
    row: &mut T::Dims,
    opening: Token,
    at: usize,
) -> Result<Option<usize>, OutOfMemory>
    requires { E.IsAlwaysCallable expr.now }
    ensures { (size : Reader plain.Expr) → Reads T.expr size source.now.tokens (E.post expr.now)
        → StepAt (T.dims row.old) (T.dims row.new) (array_step (words source.now) size opening)
        source.now.tokens at result }
{
    if !source.begins_operand(at) {
        let Some((closing, next)) = source.mark(FixedWord::RightBracket, at) else {
            return Ok(None);
        };
        building.push_open(row, opening, closing)?;
        return Ok(Some(next));
    }
    let Some((size, after_size)) = expr(at)? else {
        return Ok(None);
    };
    let Some((closing, next)) = source.mark(FixedWord::RightBracket, after_size) else {
        return Ok(None);
    };
    building.push_sized(row, opening, size, closing)?;
    Ok(Some(next))
}

/// After `(`, parameters and `)`.
fn function_dim<T: Building, P: Fn(usize) -> Result<Option<(T::Params, usize)>, OutOfMemory>>(
    building: &T,
    source: &Source<'_>,
    params: &P,
    row: &mut T::Dims,
    opening: Token,
    at: usize,
) -> Result<Option<usize>, OutOfMemory>
    requires { P.IsAlwaysCallable params.now }
    ensures { (list : Reader plain.Params) → Reads T.params list source.now.tokens (P.post params.now)
        → StepAt (T.dims row.old) (T.dims row.new) (function_step (words source.now) list opening)
        source.now.tokens at result }
{
    let Some((list, after_list)) = params(at)? else {
        return Ok(None);
    };
    let Some((closing, next)) = source.mark(FixedWord::RightParen, after_list) else {
        return Ok(None);
    };
    building.push_function(row, opening, list, closing)?;
    Ok(Some(next))
}
