//! Specifiers (C99 6.7).
ghost use Rattle.std.specs.Prelude.{◌≡◌, ◌∷◌, List, drop};
ghost use Rattle.ck_base.specs.declared.tokens.Token.{Token};
ghost use Rattle.ck_grammar.specs.Fitting.{is_specifier_word};
ghost use Rattle.ck_grammar.specs.ReadingTypes as reading;
ghost use Rattle.ck_grammar.specs.Readers.{Reader};
ghost use Rattle.ck_grammar.specs.Trees as plain;
ghost use Rattle.ck_grammar.specs.Words.{Word};
ghost use Rattle.ck_readers.specs.Places.{ReadAt, StepAt, Reads};
ghost use Rattle.ck_readers.specs.SourceView.{words};
ghost use Rattle.ck_type_readers.specs.Specifying.{SpecifierAt, SpecifiersAt};
ghost use Rattle.ck_type_readers.specs.Steps.{enum_body, enum_step, name_step, specifier_step, specifiers_from};
ghost use Rattle.ck_type_readers.specs.Steps.{struct_body, struct_step, word_first};
ghost use Rattle.ck_tallies.specs.Places.{place_word};
ghost use Rattle.ck_tallies.specs.Tallies.{named_to, with_word};
ghost use Rattle.ck_type_readers.specs.Views.{ended};

use ck_base::{OutOfMemory, Token};
use ck_grammar::{FixedWord, Sort};
use ck_readers::{Building, Source};
use ck_tallies::{Place, Tally, tallies_tell, unknown_adds_nothing};

/// The specifiers at a place, as many as come, where they go together at this place of the grammar. `members` reads
/// what is between the braces of a struct, `enumerators` what is between those of an enum.
pub fn specifiers<
    T: Building,
    M: Fn(usize) -> Result<Option<(T::Members, usize)>, OutOfMemory>,
    N: Fn(usize) -> Result<Option<(T::Enumerators, usize)>, OutOfMemory>,
>(
    building: &T,
    source: &Source<'_>,
    members: &M,
    enumerators: &N,
    place: Place,
    at: usize,
) -> Result<Option<(T::Specifiers, usize)>, OutOfMemory>
    requires structs { M.IsAlwaysCallable members.now }
    requires enums { N.IsAlwaysCallable enumerators.now }
    ensures { (inside : Reader plain.Members) (listed : Reader plain.Enumerators)
        → Reads (ended T.members plain.NoMembers) inside source.now.tokens (M.post members.now)
        → Reads T.enumerators listed source.now.tokens (N.post enumerators.now)
        → ReadAt (ended T.specifiers plain.NoSpecifiers)
        (reading.specifiers (words source.now) inside listed (place_word place)) source.now.tokens at result }
{
    tallies_tell();
    let found = all_specifiers(building, source, members, enumerators, at)?;
    let ((row, tally), next) = found;
    if tally.goes_together(place) {
        Ok(Some((row, next)))
    } else {
        Ok(None)
    }
}

/// Specifiers with their tally, as many as come.
fn all_specifiers<
    T: Building,
    M: Fn(usize) -> Result<Option<(T::Members, usize)>, OutOfMemory>,
    N: Fn(usize) -> Result<Option<(T::Enumerators, usize)>, OutOfMemory>,
>(
    building: &T,
    source: &Source<'_>,
    members: &M,
    enumerators: &N,
    at: usize,
) -> Result<((T::Specifiers, Tally), usize), OutOfMemory>
    requires structs { M.IsAlwaysCallable members.now }
    requires enums { N.IsAlwaysCallable enumerators.now }
    ensures { (inside : Reader plain.Members) (listed : Reader plain.Enumerators)
        → Reads (ended T.members plain.NoMembers) inside source.now.tokens (M.post members.now)
        → Reads T.enumerators listed source.now.tokens (N.post enumerators.now)
        → SpecifiersAt T.specifiers (words source.now) (specifiers_from (words source.now) inside listed)
        source.now.tokens at result }
{
    let mut row = building.no_specifiers();
    let mut tally = Tally::new();
    let mut here = at;
    'row: for _step in at..source.len() {
        match specifier(
            building,
            source,
            members,
            enumerators,
            &mut row,
            tally,
            here,
        )? {
            None => return Ok(((row, tally), here)),
            Some(found) => (tally, here) = found,
        }
    }
    Ok(((row, tally), here))
}

/// A specifier, which is pushed, the tally with it, and the place after it; nothing where none comes.
fn specifier<
    T: Building,
    M: Fn(usize) -> Result<Option<(T::Members, usize)>, OutOfMemory>,
    N: Fn(usize) -> Result<Option<(T::Enumerators, usize)>, OutOfMemory>,
>(
    building: &T,
    source: &Source<'_>,
    members: &M,
    enumerators: &N,
    row: &mut T::Specifiers,
    tally: Tally,
    at: usize,
) -> Result<Option<(Tally, usize)>, OutOfMemory>
    requires structs { M.IsAlwaysCallable members.now }
    requires enums { N.IsAlwaysCallable enumerators.now }
    ensures { (inside : Reader plain.Members) (listed : Reader plain.Enumerators)
        → Reads (ended T.members plain.NoMembers) inside source.now.tokens (M.post members.now)
        → Reads T.enumerators listed source.now.tokens (N.post enumerators.now)
        → SpecifierAt (words source.now) (T.specifiers row.old) (T.specifiers row.new)
        (specifier_step (words source.now) inside listed) source.now.tokens tally at result }
{
    let Some(found) = source.sort_at(at) else {
        return Ok(None);
    };
    let (token, sort, after) = found;
    match sort {
        Sort::StructWord => {
            let next = struct_specifier(building, source, members, row, token, after)?;
            Ok(named(tally, next))
        }
        Sort::EnumWord => {
            let next = enum_specifier(building, source, enumerators, row, token, after)?;
            Ok(named(tally, next))
        }
        Sort::TypeName => typedef_name(building, row, tally, token, after),
        _ => word(building, source, row, tally, at),
    }
}

/// A typedef name, where no type is before it (6.7.7); it is pushed.
fn typedef_name<T: Building>(
    building: &T,
    row: &mut T::Specifiers,
    tally: Tally,
    token: Token,
    after: usize,
) -> Result<Option<(Tally, usize)>, OutOfMemory>
    ensures { (w : Token → Word) (tokens : List Token)
        → SpecifierAt w (T.specifiers row.old) (T.specifiers row.new) (name_step token) tokens tally after result }
{
    if tally.has_type() {
        return Ok(None);
    }
    building.push_typedef_name(row, token)?;
    Ok(Some((tally.with_named(), after)))
}

/// A storage class, a qualifier, `inline` or a type word, which is pushed; nothing where none is at the place.
fn word<T: Building>(
    building: &T,
    source: &Source<'_>,
    row: &mut T::Specifiers,
    tally: Tally,
    at: usize,
) -> Result<Option<(Tally, usize)>, OutOfMemory>
    ensures { SpecifierAt (words source.now) (T.specifiers row.old) (T.specifiers row.new)
        (word_first (words source.now)) source.now.tokens tally at result }
{
    let Some(found) = source.sort_at(at) else {
        return Ok(None);
    };
    let (token, sort, after) = found;
    if !is_word(sort) {
        return Ok(None);
    }
    let told = with_word_at(source, tally, at);
    building.push_word(row, token)?;
    Ok(Some((told, after)))
}

/// Whether a token that is this to a declaration is a specifier of one word.
fn is_word(sort: Sort) -> bool
    ensures { result ≡ is_specifier_word sort }
{
    matches!(
        sort,
        Sort::Storage | Sort::Qualifier | Sort::Inline | Sort::TypeWord
    )
}

/// The tally with the keyword at a place, where one is there.
fn with_word_at(source: &Source<'_>, tally: Tally, at: usize) -> Tally
    ensures { (t : Token) (ts : List Token) → drop at source.now.tokens ≡ t ∷ ts
        → result ≡ with_word (words source.now t) tally }
{
    unknown_adds_nothing();
    match source.fixed_at(at) {
        Some(word) => tally.with_word(word),
        None => tally,
    }
}

/// What is after `struct`: a tag, a body or both (6.7.2.1, 6.7.2.3); it is pushed with its keyword.
fn struct_specifier<T: Building, M: Fn(usize) -> Result<Option<(T::Members, usize)>, OutOfMemory>>(
    building: &T,
    source: &Source<'_>,
    members: &M,
    row: &mut T::Specifiers,
    keyword: Token,
    at: usize,
) -> Result<Option<usize>, OutOfMemory>
    requires { M.IsAlwaysCallable members.now }
    ensures { (inside : Reader plain.Members)
        → Reads (ended T.members plain.NoMembers) inside source.now.tokens (M.post members.now)
        → StepAt (T.specifiers row.old) (T.specifiers row.new) (struct_step (words source.now) inside keyword)
        source.now.tokens at result }
{
    let Some((tag, after_tag)) = source.identifier(at) else {
        return struct_members(building, source, members, row, keyword, None, at);
    };
    if opens_body(source, after_tag) {
        return struct_members(
            building,
            source,
            members,
            row,
            keyword,
            Some(tag),
            after_tag,
        );
    }
    building.push_tagged(row, keyword, tag)?;
    Ok(Some(after_tag))
}

/// The `{` members `}` of a struct.
fn struct_members<T: Building, M: Fn(usize) -> Result<Option<(T::Members, usize)>, OutOfMemory>>(
    building: &T,
    source: &Source<'_>,
    members: &M,
    row: &mut T::Specifiers,
    keyword: Token,
    tag: Option<Token>,
    at: usize,
) -> Result<Option<usize>, OutOfMemory>
    requires { M.IsAlwaysCallable members.now }
    ensures { (inside : Reader plain.Members)
        → Reads (ended T.members plain.NoMembers) inside source.now.tokens (M.post members.now)
        → StepAt (T.specifiers row.old) (T.specifiers row.new) (struct_body (words source.now) inside keyword tag)
        source.now.tokens at result }
{
    let Some((opening, after_opening)) = source.mark(FixedWord::LeftBrace, at) else {
        return Ok(None);
    };
    let Some((body, after_body)) = members(after_opening)? else {
        return Ok(None);
    };
    let Some((closing, next)) = source.mark(FixedWord::RightBrace, after_body) else {
        return Ok(None);
    };
    building.push_struct(row, keyword, tag, opening, body, closing)?;
    Ok(Some(next))
}

/// What is after `enum`: a tag, a body or both (6.7.2.2, 6.7.2.3); it is pushed with its keyword.
fn enum_specifier<
    T: Building,
    N: Fn(usize) -> Result<Option<(T::Enumerators, usize)>, OutOfMemory>,
>(
    building: &T,
    source: &Source<'_>,
    enumerators: &N,
    row: &mut T::Specifiers,
    keyword: Token,
    at: usize,
) -> Result<Option<usize>, OutOfMemory>
    requires { N.IsAlwaysCallable enumerators.now }
    ensures { (listed : Reader plain.Enumerators)
        → Reads T.enumerators listed source.now.tokens (N.post enumerators.now)
        → StepAt (T.specifiers row.old) (T.specifiers row.new) (enum_step (words source.now) listed keyword)
        source.now.tokens at result }
{
    let Some((tag, after_tag)) = source.identifier(at) else {
        return enum_list(building, source, enumerators, row, keyword, None, at);
    };
    if opens_body(source, after_tag) {
        return enum_list(
            building,
            source,
            enumerators,
            row,
            keyword,
            Some(tag),
            after_tag,
        );
    }
    building.push_tagged(row, keyword, tag)?;
    Ok(Some(after_tag))
}

/// The `{` enumerators `}` of an enum.
fn enum_list<T: Building, N: Fn(usize) -> Result<Option<(T::Enumerators, usize)>, OutOfMemory>>(
    building: &T,
    source: &Source<'_>,
    enumerators: &N,
    row: &mut T::Specifiers,
    keyword: Token,
    tag: Option<Token>,
    at: usize,
) -> Result<Option<usize>, OutOfMemory>
    requires { N.IsAlwaysCallable enumerators.now }
    ensures { (listed : Reader plain.Enumerators)
        → Reads T.enumerators listed source.now.tokens (N.post enumerators.now)
        → StepAt (T.specifiers row.old) (T.specifiers row.new) (enum_body (words source.now) listed keyword tag)
        source.now.tokens at result }
{
    let Some((opening, after_opening)) = source.mark(FixedWord::LeftBrace, at) else {
        return Ok(None);
    };
    let Some((body, after_body)) = enumerators(after_opening)? else {
        return Ok(None);
    };
    let Some((closing, next)) = source.mark(FixedWord::RightBrace, after_body) else {
        return Ok(None);
    };
    building.push_enum(row, keyword, tag, opening, body, closing)?;
    Ok(Some(next))
}

/// Whether `{` is at a place.
fn opens_body(source: &Source<'_>, at: usize) -> bool
    ensures { result ≡ reading.begins_with (words source.now) reading.is_curly (drop at source.now.tokens) }
{
    match source.sort_at(at) {
        Some((_, sort, _)) => matches!(sort, Sort::CurlyMark),
        None => false,
    }
}

/// The tally with a struct or an enum, where one was read.
fn named(tally: Tally, next: Option<usize>) -> Option<(Tally, usize)>
    ensures { result ≡ named_to tally next }
{
    match next {
        Some(next) => Some((tally.with_named(), next)),
        None => None,
    }
}
