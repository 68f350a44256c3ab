//! Declarations that declare no types (C99 6.7), as in a block.
ghost use Rattle.ck_grammar.specs.Readers.{Reader};
ghost use Rattle.ck_grammar.specs.Statements as statements;
ghost use Rattle.ck_grammar.specs.Trees as plain;
ghost use Rattle.ck_readers.specs.Places.{ReadAt, Reads, RowAt, StepAt};
ghost use Rattle.ck_readers.specs.SourceView.{words};
ghost use Rattle.ck_declaration_readers.specs.Steps.{declaration_from, declared_after, declared_end, declared_from};
ghost use Rattle.ck_declaration_readers.specs.Steps.{declared_step, declares_from, names_from};

use ck_base::{OutOfMemory, Token};
use ck_grammar::FixedWord;
use ck_readers::Source;
use ck_statement_trees::BuildingDeclarations;

/// Specifiers, maybe declarators with their initialisers, `;`
pub fn declaration<
    T: BuildingDeclarations,
    S: Fn(usize) -> Result<Option<(T::Specifiers, usize)>, OutOfMemory>,
    D: Fn(usize) -> Result<Option<(T::Declarator, usize)>, OutOfMemory>,
    I: Fn(usize) -> Result<Option<(T::Init, usize)>, OutOfMemory>,
>(
    building: &T,
    source: &Source<'_>,
    specifiers: &S,
    declarator: &D,
    init: &I,
    at: usize,
) -> Result<Option<(T::Declaration, usize)>, OutOfMemory>
    requires specified { S.IsAlwaysCallable specifiers.now }
    requires named { D.IsAlwaysCallable declarator.now }
    requires valued { I.IsAlwaysCallable init.now }
    ensures { (of : Reader plain.Specifiers) (d : Reader plain.Declarator) (i : Reader statements.Init)
        → Reads (λ row. T.specifiers row plain.NoSpecifiers) of source.now.tokens (S.post specifiers.now)
        → Reads T.declarator d source.now.tokens (D.post declarator.now)
        → Reads T.init i source.now.tokens (I.post init.now)
        → ReadAt T.declaration (declaration_from (words source.now) d i of) source.now.tokens at result }
{
    let Some(read) = specifiers(at)? else {
        return Ok(None);
    };
    let (of, after_of) = read;
    let Some(mark) = source.mark(FixedWord::Semicolon, after_of) else {
        return names(building, source, declarator, init, of, after_of);
    };
    let (semicolon, next) = mark;
    Ok(Some((building.bare(of, semicolon), next)))
}

/// After the specifiers of a declaration: declarators with their initialisers, `;`
fn names<
    T: BuildingDeclarations,
    D: Fn(usize) -> Result<Option<(T::Declarator, usize)>, OutOfMemory>,
    I: Fn(usize) -> Result<Option<(T::Init, usize)>, OutOfMemory>,
>(
    building: &T,
    source: &Source<'_>,
    declarator: &D,
    init: &I,
    of: T::Specifiers,
    at: usize,
) -> Result<Option<(T::Declaration, usize)>, OutOfMemory>
    requires named { D.IsAlwaysCallable declarator.now }
    requires valued { I.IsAlwaysCallable init.now }
    ensures { (d : Reader plain.Declarator) (i : Reader statements.Init)
        → Reads T.declarator d source.now.tokens (D.post declarator.now)
        → Reads T.init i source.now.tokens (I.post init.now)
        → ReadAt T.declaration (names_from (words source.now) d i (T.specifiers of plain.NoSpecifiers))
        source.now.tokens at result }
{
    let Some(read) = declarator(at)? else {
        return Ok(None);
    };
    let (first, after_first) = read;
    declares(building, source, declarator, init, of, first, after_first)
}

/// After the specifiers and the first declarator of a declaration: what is left of it.
pub fn declares<
    T: BuildingDeclarations,
    D: Fn(usize) -> Result<Option<(T::Declarator, usize)>, OutOfMemory>,
    I: Fn(usize) -> Result<Option<(T::Init, usize)>, OutOfMemory>,
>(
    building: &T,
    source: &Source<'_>,
    declarator: &D,
    init: &I,
    of: T::Specifiers,
    first: T::Declarator,
    at: usize,
) -> Result<Option<(T::Declaration, usize)>, OutOfMemory>
    requires named { D.IsAlwaysCallable declarator.now }
    requires valued { I.IsAlwaysCallable init.now }
    ensures { (d : Reader plain.Declarator) (i : Reader statements.Init)
        → Reads T.declarator d source.now.tokens (D.post declarator.now)
        → Reads T.init i source.now.tokens (I.post init.now)
        → ReadAt T.declaration
        (declares_from (words source.now) d i (T.specifiers of plain.NoSpecifiers) (T.declarator first))
        source.now.tokens at result }
{
    let Some(found) = declared(building, source, declarator, init, at)? else {
        return Ok(None);
    };
    let (others, after_others) = found;
    let Some(mark) = source.mark(FixedWord::Semicolon, after_others) else {
        return Ok(None);
    };
    let (semicolon, next) = mark;
    let tree = building.declares(of, first, others, semicolon);
    Ok(Some((tree, next)))
}

/// After the first declarator of a declaration: maybe `=` and an initialiser, and further declarators.
fn declared<
    T: BuildingDeclarations,
    D: Fn(usize) -> Result<Option<(T::Declarator, usize)>, OutOfMemory>,
    I: Fn(usize) -> Result<Option<(T::Init, usize)>, OutOfMemory>,
>(
    building: &T,
    source: &Source<'_>,
    declarator: &D,
    init: &I,
    at: usize,
) -> Result<Option<(T::Declared, usize)>, OutOfMemory>
    requires named { D.IsAlwaysCallable declarator.now }
    requires valued { I.IsAlwaysCallable init.now }
    ensures { (d : Reader plain.Declarator) (i : Reader statements.Init)
        → Reads T.declarator d source.now.tokens (D.post declarator.now)
        → Reads T.init i source.now.tokens (I.post init.now)
        → ReadAt T.declared (declared_after (words source.now) d i) source.now.tokens at result }
{
    let Some(mark) = source.mark(FixedWord::Equal, at) else {
        let (others, next) = more_declared(building, source, declarator, init, at)?;
        return Ok(Some((building.plainly(others), next)));
    };
    let (equals, after_equals) = mark;
    let Some(read) = init(after_equals)? else {
        return Ok(None);
    };
    let (tree, after_tree) = read;
    let (others, next) = more_declared(building, source, declarator, init, after_tree)?;
    Ok(Some((building.initialised(equals, tree, others), next)))
}

/// Further declarators, as many as come.
fn more_declared<
    T: BuildingDeclarations,
    D: Fn(usize) -> Result<Option<(T::Declarator, usize)>, OutOfMemory>,
    I: Fn(usize) -> Result<Option<(T::Init, usize)>, OutOfMemory>,
>(
    building: &T,
    source: &Source<'_>,
    declarator: &D,
    init: &I,
    at: usize,
) -> Result<(T::MoreDeclared, usize), OutOfMemory>
    requires named { D.IsAlwaysCallable declarator.now }
    requires valued { I.IsAlwaysCallable init.now }
    ensures { (d : Reader plain.Declarator) (i : Reader statements.Init)
        → Reads T.declarator d source.now.tokens (D.post declarator.now)
        → Reads T.init i source.now.tokens (I.post init.now)
        → RowAt (λ row. T.more_declared row statements.NoMoreDeclared) (declared_from (words source.now) d i)
        source.now.tokens at result }
{
    let mut row = building.no_more_declared();
    let mut here = at;
    'row: for _step in at..source.len() {
        match next_declared(building, source, declarator, init, &mut row, here)? {
            None => return Ok((row, here)),
            Some(next) => here = next,
        }
    }
    Ok((row, here))
}

/// A comma and a declarator, maybe with an initialiser, which are pushed, and the place after them; nothing where none
/// comes.
fn next_declared<
    T: BuildingDeclarations,
    D: Fn(usize) -> Result<Option<(T::Declarator, usize)>, OutOfMemory>,
    I: Fn(usize) -> Result<Option<(T::Init, usize)>, OutOfMemory>,
>(
    building: &T,
    source: &Source<'_>,
    declarator: &D,
    init: &I,
    row: &mut T::MoreDeclared,
    at: usize,
) -> Result<Option<usize>, OutOfMemory>
    requires named { D.IsAlwaysCallable declarator.now }
    requires valued { I.IsAlwaysCallable init.now }
    ensures { (d : Reader plain.Declarator) (i : Reader statements.Init)
        → Reads T.declarator d source.now.tokens (D.post declarator.now)
        → Reads T.init i source.now.tokens (I.post init.now)
        → StepAt (T.more_declared row.old) (T.more_declared row.new) (declared_step (words source.now) d i)
        source.now.tokens at result }
{
    let Some(mark) = source.mark(FixedWord::Comma, at) else {
        return Ok(None);
    };
    let (comma, after_comma) = mark;
    let Some(read) = declarator(after_comma)? else {
        return Ok(None);
    };
    let (name, after_name) = read;
    push_declared(building, source, init, row, comma, name, after_name)
}

/// After a comma and a declarator: maybe `=` and an initialiser; all is pushed.
fn push_declared<
    T: BuildingDeclarations,
    I: Fn(usize) -> Result<Option<(T::Init, usize)>, OutOfMemory>,
>(
    building: &T,
    source: &Source<'_>,
    init: &I,
    row: &mut T::MoreDeclared,
    comma: Token,
    name: T::Declarator,
    at: usize,
) -> Result<Option<usize>, OutOfMemory>
    requires { I.IsAlwaysCallable init.now }
    ensures { (i : Reader statements.Init) → Reads T.init i source.now.tokens (I.post init.now)
        → StepAt (T.more_declared row.old) (T.more_declared row.new)
        (declared_end (words source.now) i comma (T.declarator name)) source.now.tokens at result }
{
    let Some(mark) = source.mark(FixedWord::Equal, at) else {
        building.push_plainly(row, comma, name)?;
        return Ok(Some(at));
    };
    let (equals, after_equals) = mark;
    let Some(read) = init(after_equals)? else {
        return Ok(None);
    };
    let (tree, next) = read;
    building.push_initialised(row, comma, name, equals, tree)?;
    Ok(Some(next))
}
