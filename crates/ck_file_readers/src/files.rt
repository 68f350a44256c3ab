//! Whole files (C99 6.9).
ghost use Rattle.std.specs.Prelude.{◌≡◌, ℕ, suc, length, IfOk};
ghost use Rattle.ck_file_readers.specs.Sources.{IsSameFile, ReadsEach, RowsEach};
ghost use Rattle.ck_file_readers.specs.Steps.{body_in, declarator_in, init_in, specifiers_in};
ghost use Rattle.ck_grammar.specs.ReadingStatements as reading;
ghost use Rattle.ck_grammar.specs.Statements as statements;
ghost use Rattle.ck_grammar.specs.Trees as plain;
ghost use Rattle.ck_statement_trees.specs.Parts.{maybe};

use crate::externals::external;
use ck_base::OutOfMemory;
use ck_readers::Source;
use ck_statement_trees::BuildingStatements;

/// The external declarations that all tokens of a source spell, one after another; nothing where they spell none. The
/// closures are those of `external`. Over a source that has no typedef names yet it is a file. Which names are typedef
/// names of the source afterwards isn't said.
pub fn file<
    T: BuildingStatements,
    S: Fn(&Source<'_>, usize) -> Result<Option<(T::Specifiers, usize)>, OutOfMemory>,
    D: Fn(&Source<'_>, usize) -> Result<Option<(T::Declarator, usize)>, OutOfMemory>,
    I: Fn(&Source<'_>, usize) -> Result<Option<(T::Init, usize)>, OutOfMemory>,
    B: Fn(&Source<'_>, usize) -> Result<(T::BlockItems, usize), OutOfMemory>,
>(
    building: &T,
    source: &mut Source<'_>,
    specifiers: &S,
    declarator: &D,
    init: &I,
    body: &B,
) -> Result<Option<T::Unit>, OutOfMemory>
    requires specified { S.IsAlwaysCallable specifiers.now }
    requires named { D.IsAlwaysCallable declarator.now }
    requires valued { I.IsAlwaysCallable init.now }
    requires listed { B.IsAlwaysCallable body.now }
    ensures reads { (n : ℕ)
        → ReadsEach (λ row. T.specifiers row plain.NoSpecifiers) (specifiers_in (suc n)) (S.post specifiers.now)
        → ReadsEach T.declarator (declarator_in (suc n)) (D.post declarator.now)
        → ReadsEach T.init (init_in (suc n)) (I.post init.now)
        → RowsEach (λ row. T.block_items row statements.NoBlockItems) (body_in n) (B.post body.now)
        → IfOk result (λ found. maybe T.unit found ≡ reading.file_loop source.old.bytes n (length source.old.tokens)
        source.old.typedefs source.old.tokens) }
    ensures kept { IsSameFile source.old source.new }
{
    let mut row = building.no_externals();
    let mut here = 0;
    'row: for _step in 0..source.len() {
        if source.len() <= here {
            return Ok(Some(row));
        }
        let Some(found) = external(building, source, specifiers, declarator, init, body, here)?
        else {
            return Ok(None);
        };
        let (next_one, next) = found;
        building.push_external(&mut row, next_one)?;
        here = next;
    }
    if here < source.len() {
        return Ok(None);
    }
    Ok(Some(row))
}
