//! Initialisers (C99 6.7.8).
ghost use Rattle.ck_grammar.specs.Readers.{Reader};
ghost use Rattle.ck_grammar.specs.ReadingStatements as reading;
ghost use Rattle.ck_grammar.specs.Statements as statements;
ghost use Rattle.ck_grammar.specs.Trees as plain;
ghost use Rattle.ck_readers.specs.Places.{ReadAt, Reads};
ghost use Rattle.ck_readers.specs.SourceView.{words};
ghost use Rattle.ck_declaration_readers.specs.Steps.{entry as entry_reader, inits_from, value_after};
ghost use Rattle.ck_declaration_readers.specs.Rows.{entry_view};

use crate::designators::designation;
use ck_base::OutOfMemory;
use ck_grammar::FixedWord;
use ck_readers::Source;
use ck_statement_trees::BuildingDeclarations;

/// `{` initialisers `}` or an assignment expression. `value` reads that expression, `index` what is in the brackets of
/// a designator, `inner` an initialiser in braces.
pub fn initialiser<
    T: BuildingDeclarations,
    V: Fn(usize) -> Result<Option<(T::Expr, usize)>, OutOfMemory>,
    E: Fn(usize) -> Result<Option<(T::Expr, usize)>, OutOfMemory>,
    I: Fn(usize) -> Result<Option<(T::Init, usize)>, OutOfMemory>,
>(
    building: &T,
    source: &Source<'_>,
    value: &V,
    index: &E,
    inner: &I,
    at: usize,
) -> Result<Option<(T::Init, usize)>, OutOfMemory>
    requires values { V.IsAlwaysCallable value.now }
    requires indices { E.IsAlwaysCallable index.now }
    requires inside { I.IsAlwaysCallable inner.now }
    ensures { (v e : Reader plain.Expr) (i : Reader statements.Init)
        → Reads T.expr v source.now.tokens (V.post value.now)
        → Reads T.expr e source.now.tokens (E.post index.now)
        → Reads T.init i source.now.tokens (I.post inner.now)
        → ReadAt T.init (reading.init_by (words source.now) v (inits_from (words source.now) e i))
        source.now.tokens at result }
{
    let Some(mark) = source.mark(FixedWord::LeftBrace, at) else {
        return value_alone(building, source, value, at);
    };
    let (opening, after_opening) = mark;
    let Some(found) = inits(building, source, index, inner, after_opening)? else {
        return Ok(None);
    };
    let (all, after_all) = found;
    let Some(mark) = source.mark(FixedWord::RightBrace, after_all) else {
        return Ok(None);
    };
    let (closing, next) = mark;
    Ok(Some((building.braced(opening, all, closing)?, next)))
}

/// An assignment expression, where a token is left.
fn value_alone<
    T: BuildingDeclarations,
    V: Fn(usize) -> Result<Option<(T::Expr, usize)>, OutOfMemory>,
>(
    building: &T,
    source: &Source<'_>,
    value: &V,
    at: usize,
) -> Result<Option<(T::Init, usize)>, OutOfMemory>
    requires { V.IsAlwaysCallable value.now }
    ensures { (v : Reader plain.Expr) → Reads T.expr v source.now.tokens (V.post value.now)
        → ReadAt T.init (value_after v) source.now.tokens at result }
{
    if at >= source.len() {
        return Ok(None);
    }
    let Some(read) = value(at)? else {
        return Ok(None);
    };
    let (tree, next) = read;
    Ok(Some((building.value(tree), next)))
}

/// The initialisers in braces, one or more; the last one maybe with a comma after it.
fn inits<
    T: BuildingDeclarations,
    E: Fn(usize) -> Result<Option<(T::Expr, usize)>, OutOfMemory>,
    I: Fn(usize) -> Result<Option<(T::Init, usize)>, OutOfMemory>,
>(
    building: &T,
    source: &Source<'_>,
    index: &E,
    inner: &I,
    at: usize,
) -> Result<Option<(T::Inits, usize)>, OutOfMemory>
    requires indices { E.IsAlwaysCallable index.now }
    requires inside { I.IsAlwaysCallable inner.now }
    ensures { (e : Reader plain.Expr) (i : Reader statements.Init)
        → Reads T.expr e source.now.tokens (E.post index.now)
        → Reads T.init i source.now.tokens (I.post inner.now)
        → ReadAt T.inits (inits_from (words source.now) e i) source.now.tokens at result }
{
    let mut row = building.no_earlier_inits();
    let mut here = at;
    'row: for _step in at..source.len() {
        let Some(found) = entry(building, source, index, inner, here)? else {
            return Ok(None);
        };
        let ((before, one), after_one) = found;
        let Some(mark) = source.mark(FixedWord::Comma, after_one) else {
            let all = building.all_inits(row, before, one, None);
            return Ok(Some((all, after_one)));
        };
        let (comma, after_comma) = mark;
        if source.is_word(FixedWord::RightBrace, after_comma) {
            let all = building.all_inits(row, before, one, Some(comma));
            return Ok(Some((all, after_comma)));
        }
        building.push_init(&mut row, before, one, comma)?;
        here = after_comma;
    }
    Ok(None)
}

/// An initialiser in braces, maybe after designators.
fn entry<
    T: BuildingDeclarations,
    E: Fn(usize) -> Result<Option<(T::Expr, usize)>, OutOfMemory>,
    I: Fn(usize) -> Result<Option<(T::Init, usize)>, OutOfMemory>,
>(
    building: &T,
    source: &Source<'_>,
    index: &E,
    inner: &I,
    at: usize,
) -> Result<Option<((T::Designation, T::Init), usize)>, OutOfMemory>
    requires indices { E.IsAlwaysCallable index.now }
    requires inside { I.IsAlwaysCallable inner.now }
    ensures { (e : Reader plain.Expr) (i : Reader statements.Init)
        → Reads T.expr e source.now.tokens (E.post index.now)
        → Reads T.init i source.now.tokens (I.post inner.now)
        → ReadAt (entry_view T.designation T.init) (entry_reader (words source.now) e i) source.now.tokens at result }
{
    let Some(found) = designation(building, source, index, at)? else {
        return Ok(None);
    };
    let (before, after_before) = found;
    let Some(read) = inner(after_before)? else {
        return Ok(None);
    };
    let (one, next) = read;
    Ok(Some(((before, one), next)))
}
