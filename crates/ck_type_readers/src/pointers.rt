//! The pointer before a declarator's middle (C99 6.7.5.1).
ghost use Rattle.std.specs.Prelude.{◌++◌};
ghost use Rattle.ck_grammar.specs.ReadingTypes as reading;
ghost use Rattle.ck_readers.specs.Places.{RowAt, StepAt};
ghost use Rattle.ck_readers.specs.SourceView.{words};
ghost use Rattle.ck_type_readers.specs.Steps.{pointer_step};

use ck_base::OutOfMemory;
use ck_grammar::Sort;
use ck_readers::{Building, Source};

/// `*`, and more of them and qualifiers after it, if it comes.
pub(crate) fn pointer<T: Building>(
    building: &T,
    source: &Source<'_>,
    at: usize,
) -> Result<(T::Tokens, usize), OutOfMemory>
    ensures { RowAt T.tokens (reading.pointer (words source.now)) source.now.tokens at result }
{
    match source.sort_at(at) {
        Some((_, Sort::Star, _)) => pointer_parts(building, source, at),
        _ => Ok((building.no_tokens(), at)),
    }
}

/// `*` and qualifiers, as many as come.
fn pointer_parts<T: Building>(
    building: &T,
    source: &Source<'_>,
    at: usize,
) -> Result<(T::Tokens, usize), OutOfMemory>
    ensures { RowAt T.tokens (reading.pointer_parts (words source.now)) source.now.tokens at result }
{
    let mut stars = building.no_tokens();
    let mut here = at;
    'row: for _step in at..source.len() {
        match pointer_part(building, source, &mut stars, here)? {
            None => return Ok((stars, here)),
            Some(next) => here = next,
        }
    }
    Ok((stars, here))
}

/// `*` or a qualifier, which is pushed, and the place after it; nothing where none comes.
fn pointer_part<T: Building>(
    building: &T,
    source: &Source<'_>,
    stars: &mut T::Tokens,
    at: usize,
) -> Result<Option<usize>, OutOfMemory>
    ensures { StepAt (◌++◌ (T.tokens stars.old)) (◌++◌ (T.tokens stars.new)) (pointer_step (words source.now))
        source.now.tokens at result }
{
    let Some(found) = source.sort_at(at) else {
        return Ok(None);
    };
    let (token, sort, next) = found;
    if !matches!(sort, Sort::Star | Sort::Qualifier) {
        return Ok(None);
    }
    building.push_token(stars, token)?;
    Ok(Some(next))
}
