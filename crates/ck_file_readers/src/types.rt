//! Declarations that declare types at file scope (C99 6.7.7): each name is a typedef name after its declarator.
ghost use Rattle.std.specs.Prelude.{◌≡◌, ℕ, true, OnOk};
ghost use Rattle.ck_file_readers.specs.Sources.{IsSameFile, NamedAt, NamedRowAt, ReadsEach};
ghost use Rattle.ck_file_readers.specs.Steps.{declaration_typedefs, declarator_in, more_typedefs, types_from};
ghost use Rattle.ck_file_readers.specs.Types.{TypeStepAt};
ghost use Rattle.ck_grammar.specs.ReadingStatements as reading;
ghost use Rattle.ck_grammar.specs.Statements as statements;
ghost use Rattle.ck_grammar.specs.StatementsFitting as fitting;
ghost use Rattle.ck_grammar.specs.Trees as plain;
ghost use Rattle.ck_readers.specs.SourceView.{words};

use ck_base::OutOfMemory;
use ck_grammar::FixedWord;
use ck_readers::Source;
use ck_statement_trees::BuildingDeclarations;

/// After the specifiers and the first declarator of a declaration of types: what is left of it.
pub(crate) fn declares_types<
    T: BuildingDeclarations,
    D: Fn(&Source<'_>, usize) -> Result<Option<(T::Declarator, usize)>, OutOfMemory>,
>(
    building: &T,
    source: &mut Source<'_>,
    declarator: &D,
    of: T::Specifiers,
    first: T::Declarator,
    at: usize,
) -> Result<Option<(T::Declaration, usize)>, OutOfMemory>
    requires { D.IsAlwaysCallable declarator.now }
    ensures reads { (n : ℕ) → ReadsEach T.declarator (declarator_in n) (D.post declarator.now)
        → fitting.is_typedef (words source.old) (T.specifiers of plain.NoSpecifiers) ≡ true
        → NamedAt T.declaration (reading.declares source.old.bytes source.old.typedefs n
        (T.specifiers of plain.NoSpecifiers) (T.declarator first)) (declaration_typedefs source.old)
        source.old source.new at result }
    ensures kept { IsSameFile source.old source.new }
{
    add_name(building, source, &first)?;
    let found = more_types(building, source, declarator, at)?;
    let (others, after_others) = found;
    let Some(mark) = source.mark(FixedWord::Semicolon, after_others) else {
        return Ok(None);
    };
    let (semicolon, next) = mark;
    let rest = building.plainly(others);
    Ok(Some((building.declares(of, first, rest, semicolon), next)))
}

/// Further declarators of types, as many as come.
fn more_types<
    T: BuildingDeclarations,
    D: Fn(&Source<'_>, usize) -> Result<Option<(T::Declarator, usize)>, OutOfMemory>,
>(
    building: &T,
    source: &mut Source<'_>,
    declarator: &D,
    at: usize,
) -> Result<(T::MoreDeclared, usize), OutOfMemory>
    requires { D.IsAlwaysCallable declarator.now }
    ensures reads { (n : ℕ) → ReadsEach T.declarator (declarator_in n) (D.post declarator.now)
        → NamedRowAt (λ row. T.more_declared row statements.NoMoreDeclared) (types_from n source.old)
        (more_typedefs source.old) source.old source.new at result }
    ensures kept { IsSameFile source.old source.new }
{
    let mut row = building.no_more_declared();
    let mut here = at;
    'row: for _step in at..source.len() {
        match next_type(building, source, declarator, &mut row, here)? {
            None => return Ok((row, here)),
            Some(next) => here = next,
        }
    }
    Ok((row, here))
}

/// A comma and a declarator of a type, which is pushed, and the place after it; nothing where none comes.
fn next_type<
    T: BuildingDeclarations,
    D: Fn(&Source<'_>, usize) -> Result<Option<(T::Declarator, usize)>, OutOfMemory>,
>(
    building: &T,
    source: &mut Source<'_>,
    declarator: &D,
    row: &mut T::MoreDeclared,
    at: usize,
) -> Result<Option<usize>, OutOfMemory>
    requires { D.IsAlwaysCallable declarator.now }
    ensures reads { (n : ℕ) → ReadsEach T.declarator (declarator_in n) (D.post declarator.now)
        → TypeStepAt n (T.more_declared row.old) (T.more_declared row.new) source.old source.new at result }
    ensures kept { IsSameFile source.old source.new }
{
    let Some(mark) = source.mark(FixedWord::Comma, at) else {
        return Ok(None);
    };
    let (comma, after_comma) = mark;
    let Some(read) = declarator(source, after_comma)? else {
        return Ok(None);
    };
    let (name, next) = read;
    add_name(building, source, &name)?;
    building.push_plainly(row, comma, name)?;
    Ok(Some(next))
}

/// The name that a declarator of a type declares is a typedef name from now on.
fn add_name<T: BuildingDeclarations>(
    building: &T,
    source: &mut Source<'_>,
    tree: &T::Declarator,
) -> Result<(), OutOfMemory>
    ensures added { OnOk result (source.new.typedefs
        ≡ fitting.names_after true source.old.bytes (T.declarator tree.now) source.old.typedefs) }
    ensures kept { IsSameFile source.old source.new }
{
    match building.declared_name(tree) {
        None => Ok(()),
        Some(name) => source.add_typedef(name),
    }
}
