//! Declarators and type names (C99 6.7.5, 6.7.6).
ghost use Rattle.std.specs.Prelude.{◌≡◌, ◌&&◌, drop};
ghost use Rattle.ck_grammar.specs.Fitting.{may_be_abstract};
ghost use Rattle.ck_grammar.specs.Reading.{type_name};
ghost use Rattle.ck_grammar.specs.ReadingExpressions as expressions;
ghost use Rattle.ck_grammar.specs.ReadingTypes as reading;
ghost use Rattle.ck_grammar.specs.Readers.{Reader};
ghost use Rattle.ck_grammar.specs.Trees as plain;
ghost use Rattle.ck_readers.specs.Places.{ReadAt, Reads};
ghost use Rattle.ck_readers.specs.SourceView.{words};
ghost use Rattle.ck_type_readers.specs.Views.{ended, is_round_mark, naming_word};

use crate::dim_lists::dims;
use crate::namings::Naming;
use crate::pointers::pointer;
use ck_base::{OutOfMemory, Token};
use ck_grammar::{FixedWord, Sort};
use ck_readers::{Building, Source};

/// A declarator, or an abstract one where the naming lets the name be missing. `expr` reads a size, `params` a
/// parameter list, `inner` a declarator in parentheses.
pub fn declarator<
    T: Building,
    E: Fn(usize) -> Result<Option<(T::Expr, usize)>, OutOfMemory>,
    P: Fn(usize) -> Result<Option<(T::Params, usize)>, OutOfMemory>,
    D: Fn(usize) -> Result<Option<(T::Declarator, usize)>, OutOfMemory>,
>(
    building: &T,
    source: &Source<'_>,
    expr: &E,
    params: &P,
    inner: &D,
    naming: Naming,
    at: usize,
) -> Result<Option<(T::Declarator, usize)>, OutOfMemory>
    requires sizes { E.IsAlwaysCallable expr.now }
    requires lists { P.IsAlwaysCallable params.now }
    requires inside { D.IsAlwaysCallable inner.now }
    ensures { (size : Reader plain.Expr) (list : Reader plain.Params) (middle : Reader plain.Declarator)
        → Reads T.expr size source.now.tokens (E.post expr.now)
        → Reads T.params list source.now.tokens (P.post params.now)
        → Reads T.declarator middle source.now.tokens (D.post inner.now)
        → ReadAt T.declarator (reading.declarator (words source.now) size list middle (naming_word naming))
        source.now.tokens at result }
{
    let front = pointer(building, source, at)?;
    let (stars, after_stars) = front;
    middle(
        building,
        source,
        expr,
        params,
        inner,
        naming,
        stars,
        after_stars,
    )
}

/// A declarator from its middle on: in parentheses, a name or nothing.
fn middle<
    T: Building,
    E: Fn(usize) -> Result<Option<(T::Expr, usize)>, OutOfMemory>,
    P: Fn(usize) -> Result<Option<(T::Params, usize)>, OutOfMemory>,
    D: Fn(usize) -> Result<Option<(T::Declarator, usize)>, OutOfMemory>,
>(
    building: &T,
    source: &Source<'_>,
    expr: &E,
    params: &P,
    inner: &D,
    naming: Naming,
    stars: T::Tokens,
    at: usize,
) -> Result<Option<(T::Declarator, usize)>, OutOfMemory>
    requires sizes { E.IsAlwaysCallable expr.now }
    requires lists { P.IsAlwaysCallable params.now }
    requires inside { D.IsAlwaysCallable inner.now }
    ensures { (size : Reader plain.Expr) (list : Reader plain.Params) (middle : Reader plain.Declarator)
        → Reads T.expr size source.now.tokens (E.post expr.now)
        → Reads T.params list source.now.tokens (P.post params.now)
        → Reads T.declarator middle source.now.tokens (D.post inner.now)
        → ReadAt T.declarator
        (reading.middle (words source.now) size list middle (naming_word naming) (T.tokens stars))
        source.now.tokens at result }
{
    let Some(found) = source.sort_at(at) else {
        return abstract_declarator(building, source, expr, params, naming, stars, at);
    };
    let (token, sort, after) = found;
    if is_round(sort) {
        if opens_params(source, naming, after) {
            return abstract_declarator(building, source, expr, params, naming, stars, at);
        }
        return nested(building, source, expr, params, inner, stars, token, after);
    }
    if !naming.takes(sort) {
        return abstract_declarator(building, source, expr, params, naming, stars, at);
    }
    let suffixes = dims(building, source, expr, params, after)?;
    let (row, next) = suffixes;
    let tree = building.named(stars, token, row);
    Ok(Some((tree, next)))
}

/// Whether a token that is this to a declaration is `(`.
fn is_round(sort: Sort) -> bool
    ensures { result ≡ is_round_mark sort }
{
    matches!(sort, Sort::RoundMark)
}

/// Whether parameters come after a `(` before which nothing is in the middle.
fn opens_params(source: &Source<'_>, naming: Naming, at: usize) -> bool
    ensures { result ≡ (may_be_abstract (naming_word naming)
        && reading.begins_params (words source.now) (drop at source.now.tokens)) }
{
    naming.may_be_abstract() && source.begins_params(at)
}

/// An abstract declarator from its middle, which is nothing, on.
fn abstract_declarator<
    T: Building,
    E: Fn(usize) -> Result<Option<(T::Expr, usize)>, OutOfMemory>,
    P: Fn(usize) -> Result<Option<(T::Params, usize)>, OutOfMemory>,
>(
    building: &T,
    source: &Source<'_>,
    expr: &E,
    params: &P,
    naming: Naming,
    stars: T::Tokens,
    at: usize,
) -> Result<Option<(T::Declarator, usize)>, OutOfMemory>
    requires sizes { E.IsAlwaysCallable expr.now }
    requires lists { P.IsAlwaysCallable params.now }
    ensures { (size : Reader plain.Expr) (list : Reader plain.Params)
        → Reads T.expr size source.now.tokens (E.post expr.now)
        → Reads T.params list source.now.tokens (P.post params.now)
        → ReadAt T.declarator (reading.abstract (words source.now) size list (naming_word naming) (T.tokens stars))
        source.now.tokens at result }
{
    if !naming.may_be_abstract() {
        return Ok(None);
    }
    let suffixes = dims(building, source, expr, params, at)?;
    let (row, next) = suffixes;
    let tree = building.nameless(stars, row);
    Ok(Some((tree, next)))
}

/// After `(`, a declarator and `)` in the middle, and what is after them.
fn nested<
    T: Building,
    E: Fn(usize) -> Result<Option<(T::Expr, usize)>, OutOfMemory>,
    P: Fn(usize) -> Result<Option<(T::Params, usize)>, OutOfMemory>,
    D: Fn(usize) -> Result<Option<(T::Declarator, usize)>, OutOfMemory>,
>(
    building: &T,
    source: &Source<'_>,
    expr: &E,
    params: &P,
    inner: &D,
    stars: T::Tokens,
    opening: Token,
    at: usize,
) -> Result<Option<(T::Declarator, usize)>, OutOfMemory>
    requires sizes { E.IsAlwaysCallable expr.now }
    requires lists { P.IsAlwaysCallable params.now }
    requires inside { D.IsAlwaysCallable inner.now }
    ensures { (size : Reader plain.Expr) (list : Reader plain.Params) (middle : Reader plain.Declarator)
        → Reads T.expr size source.now.tokens (E.post expr.now)
        → Reads T.params list source.now.tokens (P.post params.now)
        → Reads T.declarator middle source.now.tokens (D.post inner.now)
        → ReadAt T.declarator (reading.nested (words source.now) size list middle (T.tokens stars) opening)
        source.now.tokens at result }
{
    let Some(read) = inner(at)? else {
        return Ok(None);
    };
    let (declared, after_inner) = read;
    if !building.is_written(&declared) {
        return Ok(None);
    }
    let Some(mark) = source.mark(FixedWord::RightParen, after_inner) else {
        return Ok(None);
    };
    let (closing, after_closing) = mark;
    let suffixes = dims(building, source, expr, params, after_closing)?;
    let (row, next) = suffixes;
    let tree = building.nested(stars, opening, declared, closing, row)?;
    Ok(Some((tree, next)))
}

/// `(` type name `)`. `specifiers` and `declarator` read the parts of the type name.
pub fn in_parens<
    T: Building,
    S: Fn(usize) -> Result<Option<(T::Specifiers, usize)>, OutOfMemory>,
    D: Fn(usize) -> Result<Option<(T::Declarator, usize)>, OutOfMemory>,
>(
    building: &T,
    source: &Source<'_>,
    specifiers: &S,
    declarator: &D,
    at: usize,
) -> Result<Option<(T::TypeName, usize)>, OutOfMemory>
    requires specified { S.IsAlwaysCallable specifiers.now }
    requires declared { D.IsAlwaysCallable declarator.now }
    ensures { (of : Reader plain.Specifiers) (inner : Reader plain.Declarator)
        → Reads (ended T.specifiers plain.NoSpecifiers) of source.now.tokens (S.post specifiers.now)
        → Reads T.declarator inner source.now.tokens (D.post declarator.now)
        → ReadAt T.type_name (expressions.in_parens (words source.now) (type_name of inner))
        source.now.tokens at result }
{
    let Some((opening, after_opening)) = source.mark(FixedWord::LeftParen, at) else {
        return Ok(None);
    };
    let Some((of, after_of)) = specifiers(after_opening)? else {
        return Ok(None);
    };
    let Some((declared, after_declared)) = declarator(after_of)? else {
        return Ok(None);
    };
    let Some((closing, next)) = source.mark(FixedWord::RightParen, after_declared) else {
        return Ok(None);
    };
    let name = building.parenthesised(opening, of, declared, closing);
    Ok(Some((name, next)))
}
