//! The members of a struct, and declarators after commas (C99 6.7.2.1, 6.7).
ghost use Rattle.ck_grammar.specs.ReadingTypes as reading;
ghost use Rattle.ck_grammar.specs.Readers.{Reader};
ghost use Rattle.ck_grammar.specs.Trees as plain;
ghost use Rattle.ck_readers.specs.Places.{ReadAt, RowAt, StepAt, Reads};
ghost use Rattle.ck_readers.specs.SourceView.{words};
ghost use Rattle.ck_type_readers.specs.Steps.{declarator_step, declarators_from, member_step, members_from};
ghost use Rattle.ck_type_readers.specs.Views.{ended};

use ck_base::OutOfMemory;
use ck_grammar::FixedWord;
use ck_readers::{Building, Source};

/// Further declarators after commas, as many as come (6.7). `declarator` reads one.
pub fn declarators<
    T: Building,
    D: Fn(usize) -> Result<Option<(T::Declarator, usize)>, OutOfMemory>,
>(
    building: &T,
    source: &Source<'_>,
    declarator: &D,
    at: usize,
) -> Result<(T::Declarators, usize), OutOfMemory>
    requires { D.IsAlwaysCallable declarator.now }
    ensures { (inner : Reader plain.Declarator) → Reads T.declarator inner source.now.tokens (D.post declarator.now)
        → RowAt (ended T.declarators plain.NoDeclarators) (declarators_from (words source.now) inner)
        source.now.tokens at result }
{
    let mut row = building.no_declarators();
    let mut here = at;
    'row: for _step in at..source.len() {
        match next_declarator(building, source, declarator, &mut row, here)? {
            None => return Ok((row, here)),
            Some(next) => here = next,
        }
    }
    Ok((row, here))
}

/// A comma and a declarator, which are pushed, and the place after them; nothing where none comes.
fn next_declarator<
    T: Building,
    D: Fn(usize) -> Result<Option<(T::Declarator, usize)>, OutOfMemory>,
>(
    building: &T,
    source: &Source<'_>,
    declarator: &D,
    row: &mut T::Declarators,
    at: usize,
) -> Result<Option<usize>, OutOfMemory>
    requires { D.IsAlwaysCallable declarator.now }
    ensures { (inner : Reader plain.Declarator) → Reads T.declarator inner source.now.tokens (D.post declarator.now)
        → StepAt (T.declarators row.old) (T.declarators row.new) (declarator_step (words source.now) inner)
        source.now.tokens at result }
{
    let Some((comma, after)) = source.mark(FixedWord::Comma, at) else {
        return Ok(None);
    };
    let Some((declared, next)) = declarator(after)? else {
        return Ok(None);
    };
    building.push_declarator(row, comma, declared)?;
    Ok(Some(next))
}

/// The members of a struct, one or more (6.7.2.1).
pub fn members<
    T: Building,
    S: Fn(usize) -> Result<Option<(T::Specifiers, usize)>, OutOfMemory>,
    D: Fn(usize) -> Result<Option<(T::Declarator, usize)>, OutOfMemory>,
>(
    building: &T,
    source: &Source<'_>,
    specifiers: &S,
    declarator: &D,
    at: usize,
) -> Result<Option<(T::Members, usize)>, OutOfMemory>
    requires specified { S.IsAlwaysCallable specifiers.now }
    requires declared { D.IsAlwaysCallable declarator.now }
    ensures { (of : Reader plain.Specifiers) (inner : Reader plain.Declarator)
        → Reads (ended T.specifiers plain.NoSpecifiers) of source.now.tokens (S.post specifiers.now)
        → Reads T.declarator inner source.now.tokens (D.post declarator.now)
        → ReadAt (ended T.members plain.NoMembers) (reading.members (words source.now) of inner)
        source.now.tokens at result }
{
    let found = member_declarations(building, source, specifiers, declarator, at)?;
    let (row, next) = found;
    if building.has_member(&row) {
        Ok(Some((row, next)))
    } else {
        Ok(None)
    }
}

/// Member declarations, as many as come.
fn member_declarations<
    T: Building,
    S: Fn(usize) -> Result<Option<(T::Specifiers, usize)>, OutOfMemory>,
    D: Fn(usize) -> Result<Option<(T::Declarator, usize)>, OutOfMemory>,
>(
    building: &T,
    source: &Source<'_>,
    specifiers: &S,
    declarator: &D,
    at: usize,
) -> Result<(T::Members, usize), OutOfMemory>
    requires specified { S.IsAlwaysCallable specifiers.now }
    requires declared { D.IsAlwaysCallable declarator.now }
    ensures { (of : Reader plain.Specifiers) (inner : Reader plain.Declarator)
        → Reads (ended T.specifiers plain.NoSpecifiers) of source.now.tokens (S.post specifiers.now)
        → Reads T.declarator inner source.now.tokens (D.post declarator.now)
        → RowAt (ended T.members plain.NoMembers) (members_from (words source.now) of inner)
        source.now.tokens at result }
{
    let mut row = building.no_members();
    let mut here = at;
    'row: for _step in at..source.len() {
        match member(building, source, specifiers, declarator, &mut row, here)? {
            None => return Ok((row, here)),
            Some(next) => here = next,
        }
    }
    Ok((row, here))
}

/// A member declaration, which is pushed, and the place after it; nothing where none comes.
fn member<
    T: Building,
    S: Fn(usize) -> Result<Option<(T::Specifiers, usize)>, OutOfMemory>,
    D: Fn(usize) -> Result<Option<(T::Declarator, usize)>, OutOfMemory>,
>(
    building: &T,
    source: &Source<'_>,
    specifiers: &S,
    declarator: &D,
    row: &mut T::Members,
    at: usize,
) -> Result<Option<usize>, OutOfMemory>
    requires specified { S.IsAlwaysCallable specifiers.now }
    requires declared { D.IsAlwaysCallable declarator.now }
    ensures { (of : Reader plain.Specifiers) (inner : Reader plain.Declarator)
        → Reads (ended T.specifiers plain.NoSpecifiers) of source.now.tokens (S.post specifiers.now)
        → Reads T.declarator inner source.now.tokens (D.post declarator.now)
        → StepAt (T.members row.old) (T.members row.new) (member_step (words source.now) of inner)
        source.now.tokens at result }
{
    let Some((of, after_of)) = specifiers(at)? else {
        return Ok(None);
    };
    let Some((first, after_first)) = declarator(after_of)? else {
        return Ok(None);
    };
    let (others, after_others) = declarators(building, source, declarator, after_first)?;
    let Some((semicolon, next)) = source.mark(FixedWord::Semicolon, after_others) else {
        return Ok(None);
    };
    building.push_member(row, of, first, others, semicolon)?;
    Ok(Some(next))
}
