//! Parameters (C99 6.7.5.3).
ghost use Rattle.std.specs.Prelude.{◌≡◌};
ghost use Rattle.ck_grammar.specs.ReadingTypes as reading;
ghost use Rattle.ck_grammar.specs.Readers.{Reader};
ghost use Rattle.ck_grammar.specs.Trees as plain;
ghost use Rattle.ck_readers.specs.Places.{FoundAt, ReadAt, RowAt, StepAt, Reads, itself};
ghost use Rattle.ck_readers.specs.Rows.{ellipsis_end};
ghost use Rattle.ck_readers.specs.SourceView.{words};
ghost use Rattle.ck_type_readers.specs.Ends.{EndsAt, VoidAlone};
ghost use Rattle.ck_type_readers.specs.Steps.{ellipsis as ellipsis_reader, more_from, param_step};
ghost use Rattle.ck_type_readers.specs.Views.{ended, more_ended};

use ck_base::{OutOfMemory, Token};
use ck_grammar::FixedWord;
use ck_readers::{Building, Source};

/// A parameter list: none, `void` alone, or parameters.
pub fn params<
    T: Building,
    S: Fn(usize) -> Result<Option<(T::Specifiers, usize)>, OutOfMemory>,
    D: Fn(usize) -> Result<Option<(T::Declarator, usize)>, OutOfMemory>,
>(
    building: &T,
    source: &Source<'_>,
    specifiers: &S,
    declarator: &D,
    at: usize,
) -> Result<Option<(T::Params, usize)>, OutOfMemory>
    requires specified { S.IsAlwaysCallable specifiers.now }
    requires declared { D.IsAlwaysCallable declarator.now }
    ensures { (of : Reader plain.Specifiers) (inner : Reader plain.Declarator)
        → Reads (ended T.specifiers plain.NoSpecifiers) of source.now.tokens (S.post specifiers.now)
        → Reads T.declarator inner source.now.tokens (D.post declarator.now)
        → ReadAt T.params (reading.params (words source.now) of inner) source.now.tokens at result }
{
    if !source.begins_specifiers(at) {
        return Ok(Some((building.no_params(), at)));
    }
    let Some((of, after_of)) = specifiers(at)? else {
        return Ok(None);
    };
    let Some((first, after_first)) = declarator(after_of)? else {
        return Ok(None);
    };
    let found = more_params(building, source, specifiers, declarator, after_first)?;
    let ((others, end), next) = found;
    let list = parameters(building, source, of, first, others, end);
    Ok(Some((list, next)))
}

/// The parameters of a list; a `void` alone is the empty one.
fn parameters<T: Building>(
    building: &T,
    source: &Source<'_>,
    of: T::Specifiers,
    first: T::Declarator,
    others: T::MoreParams,
    end: Option<(Token, Token)>,
) -> T::Params
    ensures { T.params result ≡ reading.parameters (words source.now) (T.specifiers of plain.NoSpecifiers)
        (T.declarator first) (T.more_params others (ellipsis_end end)) }
{
    match void_alone(building, source, &of, &first, &others, end) {
        Some(word) => building.void_params(word),
        None => building.parameters(of, first, others, end),
    }
}

/// The `void` of a list that has nothing else, as `(void)`.
fn void_alone<T: Building>(
    building: &T,
    source: &Source<'_>,
    of: &T::Specifiers,
    first: &T::Declarator,
    others: &T::MoreParams,
    end: Option<(Token, Token)>,
) -> Option<Token>
    ensures { VoidAlone (words source.now) (T.specifiers of.now plain.NoSpecifiers) (T.declarator first.now)
        (T.more_params others.now (ellipsis_end end)) result }
{
    let Some(word) = building.only_word(of) else {
        return None;
    };
    if building.is_written(first) {
        return None;
    }
    if building.has_param(others) {
        return None;
    }
    if end.is_some() {
        return None;
    }
    if !source.token_is(word, FixedWord::Void) {
        return None;
    }
    Some(word)
}

/// Further parameters after commas, as many as come, and maybe a comma and `...`
fn more_params<
    T: Building,
    S: Fn(usize) -> Result<Option<(T::Specifiers, usize)>, OutOfMemory>,
    D: Fn(usize) -> Result<Option<(T::Declarator, usize)>, OutOfMemory>,
>(
    building: &T,
    source: &Source<'_>,
    specifiers: &S,
    declarator: &D,
    at: usize,
) -> Result<((T::MoreParams, Option<(Token, Token)>), usize), OutOfMemory>
    requires specified { S.IsAlwaysCallable specifiers.now }
    requires declared { D.IsAlwaysCallable declarator.now }
    ensures { (of : Reader plain.Specifiers) (inner : Reader plain.Declarator)
        → Reads (ended T.specifiers plain.NoSpecifiers) of source.now.tokens (S.post specifiers.now)
        → Reads T.declarator inner source.now.tokens (D.post declarator.now)
        → RowAt (more_ended T.more_params) (more_from (words source.now) of inner) source.now.tokens at result }
{
    let mut row = building.no_more_params();
    let mut here = at;
    'row: for _step in at..source.len() {
        match next_param(building, source, specifiers, declarator, &mut row, here)? {
            None => return Ok(with_ellipsis(source, row, here)),
            Some(next) => here = next,
        }
    }
    Ok(((row, None), here))
}

/// Further parameters, and the comma and `...` after them, if they come.
fn with_ellipsis<M>(source: &Source<'_>, row: M, at: usize) -> ((M, Option<(Token, Token)>), usize)
    ensures { EndsAt (words source.now) source.now.tokens at row result }
{
    match ellipsis(source, at) {
        Some(end) => ((row, Some(end.0)), end.1),
        None => ((row, None), at),
    }
}

/// A comma and `...`, and the place after them.
fn ellipsis(source: &Source<'_>, at: usize) -> Option<((Token, Token), usize)>
    ensures { FoundAt itself (ellipsis_reader (words source.now)) source.now.tokens at result }
{
    let (comma, after) = source.mark(FixedWord::Comma, at)?;
    let (dots, next) = source.mark(FixedWord::Ellipsis, after)?;
    Some(((comma, dots), next))
}

/// A comma and a parameter, which are pushed, and the place after them; nothing where none comes.
fn next_param<
    T: Building,
    S: Fn(usize) -> Result<Option<(T::Specifiers, usize)>, OutOfMemory>,
    D: Fn(usize) -> Result<Option<(T::Declarator, usize)>, OutOfMemory>,
>(
    building: &T,
    source: &Source<'_>,
    specifiers: &S,
    declarator: &D,
    row: &mut T::MoreParams,
    at: usize,
) -> Result<Option<usize>, OutOfMemory>
    requires specified { S.IsAlwaysCallable specifiers.now }
    requires declared { D.IsAlwaysCallable declarator.now }
    ensures { (of : Reader plain.Specifiers) (inner : Reader plain.Declarator)
        → Reads (ended T.specifiers plain.NoSpecifiers) of source.now.tokens (S.post specifiers.now)
        → Reads T.declarator inner source.now.tokens (D.post declarator.now)
        → StepAt (T.more_params row.old) (T.more_params row.new) (param_step (words source.now) of inner)
        source.now.tokens at result }
{
    let Some((comma, after_comma)) = source.mark(FixedWord::Comma, at) else {
        return Ok(None);
    };
    if !source.begins_specifiers(after_comma) {
        return Ok(None);
    }
    let Some((of, after_of)) = specifiers(after_comma)? else {
        return Ok(None);
    };
    let Some((declared, next)) = declarator(after_of)? else {
        return Ok(None);
    };
    building.push_param(row, comma, of, declared)?;
    Ok(Some(next))
}
