//! External declarations (C99 6.9).
ghost use Rattle.std.specs.Prelude.{◌≡◌, ◌&&◌, ℕ, not, suc};
ghost use Rattle.ck_file_readers.specs.Sources.{IsSameFile, NamedAt, ReadsEach, RowsEach};
ghost use Rattle.ck_file_readers.specs.Steps.{body_in, declarator_in, init_in, named_from, specifiers_in};
ghost use Rattle.ck_file_readers.specs.Steps.{typedefs_after};
ghost use Rattle.ck_grammar.specs.ReadingStatements as reading;
ghost use Rattle.ck_grammar.specs.Statements as statements;
ghost use Rattle.ck_grammar.specs.StatementsFitting as fitting;
ghost use Rattle.ck_grammar.specs.Trees as plain;
ghost use Rattle.ck_readers.specs.SourceView.{words};

use crate::declarations::declares;
use ck_base::OutOfMemory;
use ck_grammar::FixedWord;
use ck_readers::Source;
use ck_statement_trees::BuildingStatements;

/// An external declaration: a function definition or a declaration. Each closure reads at a place of the source as it
/// is then: `specifiers` those of an external declaration, `declarator` a declarator of a name, `init` an initialiser,
/// `body` the items of a function's body.
///
/// The names of types that it declares are typedef names of the source afterwards. Where none comes, or memory runs
/// out, some of them may be, and the source is to be read no further.
pub fn external<
    T: BuildingStatements,
    S: Fn(&Source<'_>, usize) -> Result<Option<(T::Specifiers, usize)>, OutOfMemory>,
    D: Fn(&Source<'_>, usize) -> Result<Option<(T::Declarator, usize)>, OutOfMemory>,
    I: Fn(&Source<'_>, usize) -> Result<Option<(T::Init, usize)>, OutOfMemory>,
    B: Fn(&Source<'_>, usize) -> Result<(T::BlockItems, usize), OutOfMemory>,
>(
    building: &T,
    source: &mut Source<'_>,
    specifiers: &S,
    declarator: &D,
    init: &I,
    body: &B,
    at: usize,
) -> Result<Option<(T::External, usize)>, OutOfMemory>
    requires specified { S.IsAlwaysCallable specifiers.now }
    requires named { D.IsAlwaysCallable declarator.now }
    requires valued { I.IsAlwaysCallable init.now }
    requires listed { B.IsAlwaysCallable body.now }
    ensures reads { (n : ℕ)
        → ReadsEach (λ row. T.specifiers row plain.NoSpecifiers) (specifiers_in (suc n)) (S.post specifiers.now)
        → ReadsEach T.declarator (declarator_in (suc n)) (D.post declarator.now)
        → ReadsEach T.init (init_in (suc n)) (I.post init.now)
        → RowsEach (λ row. T.block_items row statements.NoBlockItems) (body_in n) (B.post body.now)
        → NamedAt T.external (reading.external_at source.old.bytes source.old.typedefs n) (typedefs_after source.old)
        source.old source.new at result }
    ensures kept { IsSameFile source.old source.new }
{
    let Some(read) = specifiers(source, at)? else {
        source.expected(at);
        return Ok(None);
    };
    let (of, after_of) = read;
    let Some(mark) = source.mark(FixedWord::Semicolon, after_of) else {
        return named(building, source, declarator, init, body, of, after_of);
    };
    let (semicolon, next) = mark;
    let tree = building.bare(of, semicolon);
    Ok(Some((building.file_declaration(tree), next)))
}

/// After the specifiers of an external declaration: a declarator, and a body or what is left of a declaration.
fn named<
    T: BuildingStatements,
    D: Fn(&Source<'_>, usize) -> Result<Option<(T::Declarator, usize)>, OutOfMemory>,
    I: Fn(&Source<'_>, usize) -> Result<Option<(T::Init, usize)>, OutOfMemory>,
    B: Fn(&Source<'_>, usize) -> Result<(T::BlockItems, usize), OutOfMemory>,
>(
    building: &T,
    source: &mut Source<'_>,
    declarator: &D,
    init: &I,
    body: &B,
    of: T::Specifiers,
    at: usize,
) -> Result<Option<(T::External, usize)>, OutOfMemory>
    requires named { D.IsAlwaysCallable declarator.now }
    requires valued { I.IsAlwaysCallable init.now }
    requires listed { B.IsAlwaysCallable body.now }
    ensures reads { (n : ℕ) → ReadsEach T.declarator (declarator_in (suc n)) (D.post declarator.now)
        → ReadsEach T.init (init_in (suc n)) (I.post init.now)
        → RowsEach (λ row. T.block_items row statements.NoBlockItems) (body_in n) (B.post body.now)
        → NamedAt T.external (named_from n source.old (T.specifiers of plain.NoSpecifiers)) (typedefs_after source.old)
        source.old source.new at result }
    ensures kept { IsSameFile source.old source.new }
{
    let Some(read) = declarator(source, at)? else {
        return Ok(None);
    };
    let (first, after_first) = read;
    if source.is_word(FixedWord::LeftBrace, after_first) {
        return defines(building, source, body, of, first, after_first);
    }
    let Some(found) = declares(building, source, declarator, init, of, first, after_first)? else {
        return Ok(None);
    };
    let (tree, next) = found;
    Ok(Some((building.file_declaration(tree), next)))
}

/// After the specifiers and the declarator of a function definition: its body (6.9.1).
fn defines<
    T: BuildingStatements,
    B: Fn(&Source<'_>, usize) -> Result<(T::BlockItems, usize), OutOfMemory>,
>(
    building: &T,
    source: &Source<'_>,
    body: &B,
    of: T::Specifiers,
    name: T::Declarator,
    at: usize,
) -> Result<Option<(T::External, usize)>, OutOfMemory>
    requires { B.IsAlwaysCallable body.now }
    ensures { (n : ℕ) → RowsEach (λ row. T.block_items row statements.NoBlockItems) (body_in n) (B.post body.now)
        → NamedAt T.external (reading.defines source.now.bytes source.now.typedefs n
        (T.specifiers of plain.NoSpecifiers) (T.declarator name)) (typedefs_after source.now)
        source.now source.now at result }
{
    if !may_define(building, source, &of, &name) {
        source.expected(at);
        return Ok(None);
    }
    let Some(mark) = source.mark(FixedWord::LeftBrace, at) else {
        return Ok(None);
    };
    let (opening, after_opening) = mark;
    let found = body(source, after_opening)?;
    let (items, after_items) = found;
    let Some(mark) = source.mark(FixedWord::RightBrace, after_items) else {
        return Ok(None);
    };
    let (closing, next) = mark;
    let tree = building.function_definition(of, name, opening, items, closing);
    Ok(Some((tree, next)))
}

/// Whether a body may come after these: no types are declared, and the declarator is a function's (6.9.1).
fn may_define<T: BuildingStatements>(
    building: &T,
    source: &Source<'_>,
    of: &T::Specifiers,
    name: &T::Declarator,
) -> bool
    ensures { result ≡ (not (fitting.is_typedef (words source.now) (T.specifiers of.now plain.NoSpecifiers))
        && reading.is_function (fitting.shape (T.declarator name.now))) }
{
    !building.has_typedef(source, of) && building.declares_function(name)
}
