//! Blocks and their items (C99 6.8.2).
ghost use Rattle.std.specs.Prelude.{◌≡◌, ◌&&◌, not, drop};
ghost use Rattle.ck_grammar.specs.Levels.{Level};
ghost use Rattle.ck_grammar.specs.Readers.{Reader};
ghost use Rattle.ck_grammar.specs.ReadingStatements as reading;
ghost use Rattle.ck_grammar.specs.ReadingTypes.{begins_with};
ghost use Rattle.ck_grammar.specs.Statements as statements;
ghost use Rattle.ck_grammar.specs.Trees as plain;
ghost use Rattle.ck_grammar.specs.Words.{begins_specifiers};
ghost use Rattle.ck_grammar.specs.declared.classes.Phrase.TheVariants as phrases;
ghost use Rattle.ck_readers.specs.Places.{ReadAt, Reads, RowAt, StepAt};
ghost use Rattle.ck_readers.specs.SourceView.{words};
ghost use Rattle.ck_statement_readers.specs.Steps.{items_from};

use crate::labels::is_label;
use ck_base::{OutOfMemory, Token};
use ck_grammar::FixedWord;
use ck_readers::Source;
use ck_statement_trees::BuildingStatements;

/// After `{`: items and `}`.
pub(crate) fn block<
    T: BuildingStatements,
    D: Fn(usize) -> Result<Option<(T::Declaration, usize)>, OutOfMemory>,
    S: Fn(usize) -> Result<Option<(T::Statement, usize)>, OutOfMemory>,
>(
    building: &T,
    source: &Source<'_>,
    declaration: &D,
    statement: &S,
    opening: Token,
    at: usize,
) -> Result<Option<(T::Statement, usize)>, OutOfMemory>
    requires declared { D.IsAlwaysCallable declaration.now }
    requires stated { S.IsAlwaysCallable statement.now }
    ensures { (inner : Level → Reader plain.Expr) (d : Reader statements.Declaration) (s : Reader statements.Statement)
        → Reads T.declaration d source.now.tokens (D.post declaration.now)
        → Reads T.statement s source.now.tokens (S.post statement.now)
        → ReadAt T.statement (reading.statement_by (words source.now) inner d s phrases.Block opening)
        source.now.tokens at result }
{
    let found = items(building, source, declaration, statement, at)?;
    let (row, after_items) = found;
    let Some(mark) = source.mark(FixedWord::RightBrace, after_items) else {
        return Ok(None);
    };
    let (closing, next) = mark;
    Ok(Some((building.block(opening, row, closing), next)))
}

/// Items of a block, as many as come.
pub fn items<
    T: BuildingStatements,
    D: Fn(usize) -> Result<Option<(T::Declaration, usize)>, OutOfMemory>,
    S: Fn(usize) -> Result<Option<(T::Statement, usize)>, OutOfMemory>,
>(
    building: &T,
    source: &Source<'_>,
    declaration: &D,
    statement: &S,
    at: usize,
) -> Result<(T::BlockItems, usize), OutOfMemory>
    requires declared { D.IsAlwaysCallable declaration.now }
    requires stated { S.IsAlwaysCallable statement.now }
    ensures { (d : Reader statements.Declaration) (s : Reader statements.Statement)
        → Reads T.declaration d source.now.tokens (D.post declaration.now)
        → Reads T.statement s source.now.tokens (S.post statement.now)
        → RowAt (λ row. T.block_items row statements.NoBlockItems) (items_from (words source.now) d s)
        source.now.tokens at result }
{
    let mut row = building.no_items();
    let mut here = at;
    'row: for _step in at..source.len() {
        match item(building, source, declaration, statement, &mut row, here)? {
            None => return Ok((row, here)),
            Some(next) => here = next,
        }
    }
    Ok((row, here))
}

/// An item, which is pushed, and the place after it; nothing where none comes.
fn item<
    T: BuildingStatements,
    D: Fn(usize) -> Result<Option<(T::Declaration, usize)>, OutOfMemory>,
    S: Fn(usize) -> Result<Option<(T::Statement, usize)>, OutOfMemory>,
>(
    building: &T,
    source: &Source<'_>,
    declaration: &D,
    statement: &S,
    row: &mut T::BlockItems,
    at: usize,
) -> Result<Option<usize>, OutOfMemory>
    requires declared { D.IsAlwaysCallable declaration.now }
    requires stated { S.IsAlwaysCallable statement.now }
    ensures { (d : Reader statements.Declaration) (s : Reader statements.Statement)
        → Reads T.declaration d source.now.tokens (D.post declaration.now)
        → Reads T.statement s source.now.tokens (S.post statement.now)
        → StepAt (T.block_items row.old) (T.block_items row.new) (reading.item (words source.now) d s)
        source.now.tokens at result }
{
    if begins_declaration(source, at) {
        let Some(read) = declaration(at)? else {
            return Ok(None);
        };
        let (next_one, next) = read;
        building.push_declaration(row, next_one)?;
        return Ok(Some(next));
    }
    let Some(read) = statement(at)? else {
        return Ok(None);
    };
    let (next_one, next) = read;
    building.push_statement(row, next_one)?;
    Ok(Some(next))
}

/// Whether a declaration begins at a place of a block: what begins specifiers and is no label.
fn begins_declaration(source: &Source<'_>, at: usize) -> bool
    ensures { result ≡ (begins_with (words source.now) begins_specifiers (drop at source.now.tokens)
        && not (reading.is_label (words source.now) (drop at source.now.tokens))) }
{
    source.begins_specifiers(at) && !is_label(source, at)
}
