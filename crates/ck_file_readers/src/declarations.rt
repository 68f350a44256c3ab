//! Declarations at file scope (C99 6.7, 6.9) after their specifiers and their first declarators.
ghost use Rattle.std.specs.Prelude.{◌≡◌, ℕ, false};
ghost use Rattle.ck_file_readers.specs.Sources.{IsSameFile, NamedAt, ReadsEach};
ghost use Rattle.ck_file_readers.specs.Steps.{declaration_typedefs, declarator_in, init_in};
ghost use Rattle.ck_grammar.specs.ReadingStatements as reading;
ghost use Rattle.ck_grammar.specs.StatementsFitting as fitting;
ghost use Rattle.ck_grammar.specs.Trees as plain;
ghost use Rattle.ck_readers.specs.Places.{ReadAt};
ghost use Rattle.ck_readers.specs.SourceView.{words};

use crate::types::declares_types;
use ck_base::OutOfMemory;
use ck_declaration_readers as readers;
use ck_readers::Source;
use ck_statement_trees::BuildingDeclarations;

/// After the specifiers and the first declarator of a declaration: what is left of it.
pub(crate) fn declares<
    T: BuildingDeclarations,
    D: Fn(&Source<'_>, usize) -> Result<Option<(T::Declarator, usize)>, OutOfMemory>,
    I: Fn(&Source<'_>, usize) -> Result<Option<(T::Init, usize)>, OutOfMemory>,
>(
    building: &T,
    source: &mut Source<'_>,
    declarator: &D,
    init: &I,
    of: T::Specifiers,
    first: T::Declarator,
    at: usize,
) -> Result<Option<(T::Declaration, usize)>, OutOfMemory>
    requires named { D.IsAlwaysCallable declarator.now }
    requires valued { I.IsAlwaysCallable init.now }
    ensures reads { (n : ℕ) → ReadsEach T.declarator (declarator_in n) (D.post declarator.now)
        → ReadsEach T.init (init_in n) (I.post init.now)
        → NamedAt T.declaration (reading.declares source.old.bytes source.old.typedefs n
        (T.specifiers of plain.NoSpecifiers) (T.declarator first)) (declaration_typedefs source.old)
        source.old source.new at result }
    ensures kept { IsSameFile source.old source.new }
{
    if building.has_typedef(source, &of) {
        return declares_types(building, source, declarator, of, first, at);
    }
    declares_no_types(building, source, declarator, init, of, first, at)
}

/// After the specifiers and the first declarator of a declaration that declares no types: what is left of it.
fn declares_no_types<
    T: BuildingDeclarations,
    D: Fn(&Source<'_>, usize) -> Result<Option<(T::Declarator, usize)>, OutOfMemory>,
    I: Fn(&Source<'_>, usize) -> Result<Option<(T::Init, usize)>, OutOfMemory>,
>(
    building: &T,
    source: &Source<'_>,
    declarator: &D,
    init: &I,
    of: T::Specifiers,
    first: T::Declarator,
    at: usize,
) -> Result<Option<(T::Declaration, usize)>, OutOfMemory>
    requires named { D.IsAlwaysCallable declarator.now }
    requires valued { I.IsAlwaysCallable init.now }
    ensures { (n : ℕ) → ReadsEach T.declarator (declarator_in n) (D.post declarator.now)
        → ReadsEach T.init (init_in n) (I.post init.now)
        → fitting.is_typedef (words source.now) (T.specifiers of plain.NoSpecifiers) ≡ false
        → ReadAt T.declaration (reading.declares source.now.bytes source.now.typedefs n
        (T.specifiers of plain.NoSpecifiers) (T.declarator first)) source.now.tokens at result }
{
    let name = |here: usize| declarator(source, here);
    let value = |here: usize| init(source, here);
    readers::declares(building, source, &name, &value, of, first, at)
}
