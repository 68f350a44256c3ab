//! Where values come from, by rules.
ghost use Rattle.std.specs.Prelude.{◌≡◌, ◌<◌, length, IfOk, OnOk};
ghost use Rattle.std.specs.Prelude.{Some};
ghost use Rattle.ck_pointers.specs.Sources.{IsWithin, IsBrought, IsEither, IsCellOf, IsResult, give_nothing};
ghost use Rattle.ck_pointers.specs.declared.sources.Source.TheVariants.{Function, Cell};

use ck_base::{FnId, OutOfMemory};
use ck_reaching::{Call, CellId, Flows, KindId, Names, Rules};
use std::alloc::Global;

/// Which functions a value may be.
#[derive(Clone, Copy, Debug, PartialEq, Eq)]
pub enum Source {
    /// none
    Nowhere,
    /// this function, by its name
    Function(FnId),
    /// those that reach this cell
    Cell(CellId),
}

/// Adds that all that comes from a source reaches a cell. The rules still follow from a project where all that comes
/// from what the source stands for comes from what the cell stands for.
pub fn bring(rules: &mut Rules, source: Source, cell: CellId) -> Result<(), OutOfMemory>
    requires source { IsWithin rules.old source }
    requires cell { cell.0 < rules.old.cells }
    ensures { OnOk result (IsBrought source cell.0 rules.old rules.new) }
{
    match source {
        Source::Nowhere => Ok(()),
        Source::Function(function) => rules.add_name(Names { function, to: cell }),
        Source::Cell(from) => rules.add_flow(Flows { from, to: cell }),
    }
}

/// The source of a value that comes from either of two (6.5.15), with a cell of its own where one of them gives
/// something.
pub fn either(rules: &mut Rules, first: Source, second: Source) -> Result<Source, OutOfMemory>
    requires first { IsWithin rules.old first }
    requires second { IsWithin rules.old second }
    ensures { IfOk result (λ source. IsEither first second source rules.old rules.new) }
{
    if give_nothing(first, second) {
        return Ok(Source::Nowhere);
    }
    let cell = CellId(rules.cells());
    rules.add_cell()?;
    bring(rules, first, cell)?;
    bring(rules, second, cell)?;
    Ok(Source::Cell(cell))
}

/// Whether neither of two values is a function.
fn give_nothing(first: Source, second: Source) -> bool
    ensures { result ≡ give_nothing first second }
{
    match first {
        Source::Nowhere => matches!(second, Source::Nowhere),
        _ => false,
    }
}

/// A cell for all that comes from a source, if anything does: a function gets a cell of its own.
pub fn cell_of(rules: &mut Rules, source: Source) -> Result<Option<CellId>, OutOfMemory>
    requires { IsWithin rules.old source }
    ensures { IfOk result (λ cell. IsCellOf source cell rules.old rules.new) }
{
    match source {
        Source::Nowhere => Ok(None),
        Source::Cell(cell) => Ok(Some(cell)),
        Source::Function(function) => Ok(Some(cell_of_function(rules, function)?)),
    }
}

/// A cell for a function.
fn cell_of_function(rules: &mut Rules, function: FnId) -> Result<CellId, OutOfMemory>
    requires { IsWithin rules.old (Function function) }
    ensures { IfOk result (λ cell. IsCellOf (Function function) (Some cell) rules.old rules.new) }
{
    let to = CellId(rules.cells());
    rules.add_cell()?;
    rules.add_name(Names { function, to })?;
    Ok(to)
}

/// The source of the result of a call that isn't by name (6.5.2.2), with a cell of its own where something is called.
pub fn result_of(
    alloc: Global,
    rules: &mut Rules,
    kind: KindId,
    called: Source,
) -> Result<Source, OutOfMemory>
    requires called { IsWithin rules.old called }
    requires kind { kind.0 < length rules.old.kinds }
    ensures { IfOk result (λ source. IsResult kind called source rules.old rules.new) }
{
    match cell_of(rules, called)? {
        Some(cell) => result_of_cell(alloc, rules, kind, cell),
        None => Ok(Source::Nowhere),
    }
}

/// The source of the result of a call of what reaches a cell.
fn result_of_cell(
    alloc: Global,
    rules: &mut Rules,
    kind: KindId,
    called: CellId,
) -> Result<Source, OutOfMemory>
    requires called { called.0 < rules.old.cells }
    requires kind { kind.0 < length rules.old.kinds }
    ensures { IfOk result (λ source. IsResult kind (Cell called) source rules.old rules.new) }
{
    let outcome = CellId(rules.cells());
    rules.add_cell()?;
    let arguments = Vec::new(alloc);
    rules.add_call(Call {
        called,
        kind,
        arguments,
        result: Some(outcome),
    })?;
    Ok(Source::Cell(outcome))
}
