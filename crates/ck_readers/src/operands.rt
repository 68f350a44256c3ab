//! Chains of operands (C99 6.5.5 to 6.5.14, 6.5.17).
ghost use Rattle.std.specs.Prelude.{◌≡◌, IfOk, length, if◌then◌else◌};
ghost use Rattle.ck_grammar.specs.Levels.{Level};
ghost use Rattle.ck_grammar.specs.Readers.{Reader};
ghost use Rattle.ck_grammar.specs.ReadingExpressions as reading;
ghost use Rattle.ck_grammar.specs.Trees as plain;
ghost use Rattle.ck_readers.specs.Places.{ReadsLevels, RowAt, StepAt};
ghost use Rattle.ck_readers.specs.SourceView.{words};
ghost use Rattle.ck_readers.specs.Steps.{operand_step};

use crate::builders::Building;
use crate::sources::Source;
use ck_base::OutOfMemory;

/// Operators of a level with their right operands of the level before it, as many as come.
pub fn operands<T: Building, E: Fn(u8, usize) -> Result<Option<(T::Expr, usize)>, OutOfMemory>>(
    building: &T,
    source: &Source<'_>,
    expr: &E,
    tighter: u8,
    of: u8,
    at: usize,
) -> Result<(T::Operands, usize), OutOfMemory>
    requires { E.IsAlwaysCallable expr.now }
    ensures { (inner : Level → Reader plain.Expr) → ReadsLevels T.expr inner source.now.tokens (E.post expr.now)
        → RowAt (λ row. T.operands row plain.NoOperands)
        (λ ts. reading.operand_loop (words source.now) (inner tighter) of (length ts) ts) source.now.tokens at result }
{
    let mut row = building.no_operands();
    let mut next = at;
    'operands: for _step in at..source.len() {
        match operand(building, source, expr, tighter, of, &mut row, next)? {
            None => return Ok((row, next)),
            Some(place) => next = place,
        }
    }
    Ok((row, next))
}

/// An operator of a level and its right operand.
fn operand<T: Building, E: Fn(u8, usize) -> Result<Option<(T::Expr, usize)>, OutOfMemory>>(
    building: &T,
    source: &Source<'_>,
    expr: &E,
    tighter: u8,
    of: u8,
    row: &mut T::Operands,
    at: usize,
) -> Result<Option<usize>, OutOfMemory>
    requires { E.IsAlwaysCallable expr.now }
    ensures { (inner : Level → Reader plain.Expr) → ReadsLevels T.expr inner source.now.tokens (E.post expr.now)
        → StepAt (T.operands row.old) (T.operands row.new) (operand_step (words source.now) (inner tighter) of)
        source.now.tokens at result }
{
    let Some(mark) = source.operator(of, at) else {
        return Ok(None);
    };
    let (operator, next) = mark;
    let Some(read) = expr(tighter, next)? else {
        return Ok(None);
    };
    let (right, next) = read;
    building.push_operand(row, operator, right)?;
    Ok(Some(next))
}

/// An expression with the operators after it, if there are any.
pub fn chained<T: Building>(
    building: &T,
    first: T::Expr,
    row: T::Operands,
) -> Result<T::Expr, OutOfMemory>
    ensures { IfOk result (λ tree. T.expr tree ≡ (if reading.has_operand (T.operands row plain.NoOperands)
        then plain.Chain (T.expr first) (T.operands row plain.NoOperands) else T.expr first)) }
{
    if building.has_operand(&row) {
        building.chain(first, row)
    } else {
        Ok(first)
    }
}
