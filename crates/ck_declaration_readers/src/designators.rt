//! Designators (C99 6.7.8).
ghost use Rattle.std.specs.Prelude.{◌≡◌, ◌||◌, drop};
ghost use Rattle.ck_grammar.specs.Readers.{Reader, is_at};
ghost use Rattle.ck_grammar.specs.ReadingStatements as reading;
ghost use Rattle.ck_grammar.specs.Trees as plain;
ghost use Rattle.ck_readers.specs.Places.{ReadAt, Reads};
ghost use Rattle.ck_readers.specs.SourceView.{words};
ghost use Rattle.ck_declaration_readers.specs.Rows.{LinkAt};
ghost use Rattle.ck_declaration_readers.specs.Steps.{bracketed_step, designator_step, designators_from};

use ck_base::OutOfMemory;
use ck_grammar::FixedWord;
use ck_readers::Source;
use ck_statement_trees::BuildingDeclarations;

/// Designators and `=` before an initialiser, if they come.
pub(crate) fn designation<
    T: BuildingDeclarations,
    E: Fn(usize) -> Result<Option<(T::Expr, usize)>, OutOfMemory>,
>(
    building: &T,
    source: &Source<'_>,
    index: &E,
    at: usize,
) -> Result<Option<(T::Designation, usize)>, OutOfMemory>
    requires { E.IsAlwaysCallable index.now }
    ensures { (e : Reader plain.Expr) → Reads T.expr e source.now.tokens (E.post index.now)
        → ReadAt T.designation (reading.designation (words source.now) e) source.now.tokens at result }
{
    if begins_designator(source, at) {
        designators(building, source, index, at)
    } else {
        Ok(Some((building.no_designation(), at)))
    }
}

/// Whether a designator begins at a place.
fn begins_designator(source: &Source<'_>, at: usize) -> bool
    ensures { result ≡ (is_at (words source.now) "." (drop at source.now.tokens)
        || is_at (words source.now) "[" (drop at source.now.tokens)) }
{
    source.is_word(FixedWord::Dot, at) || source.is_word(FixedWord::LeftBracket, at)
}

/// Designators, as many as come, and `=`.
fn designators<
    T: BuildingDeclarations,
    E: Fn(usize) -> Result<Option<(T::Expr, usize)>, OutOfMemory>,
>(
    building: &T,
    source: &Source<'_>,
    index: &E,
    at: usize,
) -> Result<Option<(T::Designation, usize)>, OutOfMemory>
    requires { E.IsAlwaysCallable index.now }
    ensures { (e : Reader plain.Expr) → Reads T.expr e source.now.tokens (E.post index.now)
        → ReadAt T.designation (designators_from (words source.now) e) source.now.tokens at result }
{
    let mut row = building.no_designators();
    let mut here = at;
    'row: for _step in at..source.len() {
        if let Some(mark) = source.mark(FixedWord::Equal, here) {
            let (equals, next) = mark;
            return Ok(Some((building.designated(row, equals)?, next)));
        }
        match designator(building, source, index, &mut row, here)? {
            None => return Ok(None),
            Some(next) => here = next,
        }
    }
    Ok(None)
}

/// A designator, which is pushed, and the place after it; nothing where none comes.
fn designator<
    T: BuildingDeclarations,
    E: Fn(usize) -> Result<Option<(T::Expr, usize)>, OutOfMemory>,
>(
    building: &T,
    source: &Source<'_>,
    index: &E,
    row: &mut T::Designators,
    at: usize,
) -> Result<Option<usize>, OutOfMemory>
    requires { E.IsAlwaysCallable index.now }
    ensures { (e : Reader plain.Expr) → Reads T.expr e source.now.tokens (E.post index.now)
        → LinkAt (T.designators row.old) (T.designators row.new) (designator_step (words source.now) e)
        source.now.tokens at result }
{
    let Some(mark) = source.mark(FixedWord::Dot, at) else {
        return bracketed(building, source, index, row, at);
    };
    let (dot, after_dot) = mark;
    let Some(found) = source.identifier(after_dot) else {
        return Ok(None);
    };
    let (name, next) = found;
    building.push_dot_name(row, dot, name)?;
    Ok(Some(next))
}

/// `[` index `]`, which is pushed, and the place after it; nothing where none comes.
fn bracketed<
    T: BuildingDeclarations,
    E: Fn(usize) -> Result<Option<(T::Expr, usize)>, OutOfMemory>,
>(
    building: &T,
    source: &Source<'_>,
    index: &E,
    row: &mut T::Designators,
    at: usize,
) -> Result<Option<usize>, OutOfMemory>
    requires { E.IsAlwaysCallable index.now }
    ensures { (e : Reader plain.Expr) → Reads T.expr e source.now.tokens (E.post index.now)
        → LinkAt (T.designators row.old) (T.designators row.new) (bracketed_step (words source.now) e)
        source.now.tokens at result }
{
    let Some(mark) = source.mark(FixedWord::LeftBracket, at) else {
        return Ok(None);
    };
    let (opening, after_opening) = mark;
    let Some(read) = index(after_opening)? else {
        return Ok(None);
    };
    let (tree, after_tree) = read;
    let Some(mark) = source.mark(FixedWord::RightBracket, after_tree) else {
        return Ok(None);
    };
    let (closing, next) = mark;
    building.push_at_index(row, opening, tree, closing)?;
    Ok(Some(next))
}
