//! Operands: expressions, and chains and rows of suffixes up to some operator or suffix.
ghost use Rattle.std.specs.Prelude.{◌≡◌, ◌<◌, ◌≤◌, ◌+◌, ◌++◌, [], ◌∷◌, true, length};
ghost use Rattle.std.specs.Prelude.{map, max, take, IfOk};
ghost use Rattle.ck_passages.specs.Operands.{value_of, evaluation_of, argument_values, Fits, AllFit, IsPlaced};
ghost use Rattle.ck_passages.specs.Operands.{depth, most_depth, arguments_depth};
ghost use Rattle.ck_points.specs.Evaluations.{with_calls};
ghost use Rattle.ck_passages.specs.Operands.{tree};
ghost use Rattle.ck_prog.specs.TypedTrees.{facts};
ghost use Rattle.ck_tables.specs.ExprTable.{arguments_below};
ghost use Rattle.ck_tables.specs.Program.{readings};
ghost use Rattle.ck_tables.specs.Readings.{plain_facts};
ghost use Rattle.ck_tables.specs.declared.program.Linked.{Linked as Tables};

use crate::drawing::with_last;
use ck_base::OutOfMemory;
use ck_tables::{ExprId, Facts, Link, Program, Step};
use std::alloc::Global;

/// An operand of an operator.
#[derive(Clone, Copy)]
pub enum Operand<'a> {
    /// an expression, by the step that leads to it
    Whole {
        expression: ExprId,
        above: &'a [u32],
        step: u32,
    },
    /// the chain of a node, up to some operator
    Chain {
        of: ExprId,
        first: ExprId,
        links: &'a [Link],
        path: &'a [u32],
    },
    /// the row of suffixes of a node, up to some suffix
    Row {
        of: ExprId,
        primary: ExprId,
        steps: &'a [Step],
        path: &'a [u32],
    },
}

/// What is known of an expression's value.
pub(crate) fn expression_facts(program: &Program, x: ExprId) -> Facts
    requires { x.0 < length program.now.linked.exprs }
    ensures { plain_facts (readings program.now.linked) result ≡ facts (tree program.now.linked x.0) }
{
    program.linked().exprs.facts(x)
}

/// What is known of an operand's value.
pub(crate) fn facts_of(program: &Program, operand: &Operand<'_>) -> Facts
    requires { Fits program.now.linked operand.now }
    ensures { plain_facts (readings program.now.linked) result ≡ (value_of program.now.linked operand.now).facts }
{
    let exprs = &program.linked().exprs;
    match operand {
        Operand::Whole { expression, .. } => exprs.facts(*expression),
        Operand::Chain { first, links, .. } => match links.split_last() {
            Some(last) => last.0.facts,
            None => exprs.facts(*first),
        },
        Operand::Row { primary, steps, .. } => match steps.split_last() {
            Some(last) => last.0.facts(),
            None => exprs.facts(*primary),
        },
    }
}

/// A step as a number of 32 bits.
pub fn step_number(step: u64) -> Result<u32, OutOfMemory>
    ensures { IfOk result (λ number. number ≡ step) }
{
    match u32::try_from(step) {
        Ok(number) => Ok(number),
        Err(_) => Err(OutOfMemory),
    }
}

/// The path of the part to which a step leads.
pub fn below(alloc: Global, path: &[u32], step: u64) -> Result<Vec<u32>, OutOfMemory>
    ensures { IfOk result (λ v. v.items ≡ path.now ++ step ∷ []) }
{
    let number = step_number(step)?;
    let inner = with_last(alloc, path, number)?;
    Ok(inner)
}

/// The path of an operand's value.
pub(crate) fn path_of(alloc: Global, operand: &Operand<'_>) -> Result<Vec<u32>, OutOfMemory>
    ensures { (l : Tables) → IfOk result (λ v. v.items ≡ (value_of l operand.now).path) }
{
    match operand {
        Operand::Whole { above, step, .. } => Ok(below(alloc, above, *step as u64)?),
        Operand::Chain { links, path, .. } => {
            let operators = links.len() as u64;
            if operators == 0 {
                Ok(below(alloc, path, 0)?)
            } else {
                Ok(below(alloc, path, 2 * operators - 1)?)
            }
        }
        Operand::Row { steps, path, .. } => Ok(below(alloc, path, steps.len() as u64)?),
    }
}

/// An operand, and then others.
pub(crate) fn with_left<'a>(
    alloc: Global,
    left: &Operand<'a>,
    others: &[Operand<'a>],
) -> Result<Vec<Operand<'a>>, OutOfMemory>
    ensures { IfOk result (λ v. v.items ≡ left.now ∷ others.now) }
{
    let mut operands = Vec::from_slice(alloc, others)?;
    operands.insert(0, *left)?;
    Ok(operands)
}

/// The operand at a place.
pub(crate) fn at<'a, 'b>(
    program: &Program,
    sequence: &'b [Operand<'a>],
    number: usize,
) -> &'b Operand<'a>
    requires fit { AllFit program.now.linked sequence.now }
    requires within { number < length sequence.now }
    ensures fits { Fits program.now.linked result.now }
    ensures depth { depth result.now ≤ most_depth sequence.now }
    ensures row { take (number + 1) sequence.now ≡ take number sequence.now ++ result.now ∷ [] }
{
    &sequence[number]
}

/// The operands that hold calls.
pub(crate) fn calling<'a>(
    alloc: Global,
    program: &Program,
    operands: &[Operand<'a>],
) -> Result<Vec<Operand<'a>>, OutOfMemory>
    requires { AllFit program.now.linked operands.now }
    ensures fit { IfOk result (λ v. AllFit program.now.linked v.items) }
    ensures calls { IfOk result (λ v. map (evaluation_of program.now.linked) v.items
        ≡ with_calls (map (value_of program.now.linked) operands.now)) }
    ensures depth { IfOk result (λ v. most_depth v.items ≤ most_depth operands.now) }
{
    let mut found = Vec::new(alloc);
    for operand in operands {
        if facts_of(program, operand).holds_call {
            found.push(*operand)?;
        }
    }
    Ok(found)
}

/// The arguments of a call with this path.
pub(crate) fn argument_operands<'a>(
    alloc: Global,
    here: &'a [u32],
    arguments: &[ExprId],
) -> Result<Vec<Operand<'a>>, OutOfMemory>
    ensures fit { (l : Tables) → arguments_below (length l.exprs) arguments.now ≡ true →
        IfOk result (λ v. AllFit l v.items) }
    ensures values { (l : Tables) →
        IfOk result (λ v. map (value_of l) v.items ≡ argument_values l here.now 0 arguments.now) }
    ensures depth { IfOk result (λ v. most_depth v.items ≤ arguments_depth arguments.now) }
{
    let mut operands = Vec::new(alloc);
    for (number, argument) in arguments.iter().enumerate() {
        operands.push(Operand::Whole {
            expression: *argument,
            above: here,
            step: step_number(number as u64)?,
        })?;
    }
    Ok(operands)
}

/// Operands in written order, but those with calls in this order among their places.
pub(crate) fn placed<'a>(
    alloc: Global,
    program: &Program,
    operands: &[Operand<'a>],
    order: &[Operand<'a>],
) -> Result<Vec<Operand<'a>>, OutOfMemory>
    requires operands { AllFit program.now.linked operands.now }
    requires order { AllFit program.now.linked order.now }
    ensures fit { IfOk result (λ v. AllFit program.now.linked v.items) }
    ensures draws { IfOk result (λ v. IsPlaced program.now.linked operands.now order.now v.items) }
    ensures depth { IfOk result (λ v. most_depth v.items ≤ max (most_depth operands.now) (most_depth order.now)) }
{
    let mut sequence = Vec::new(alloc);
    let mut taken: usize = 0;
    for operand in operands {
        if !facts_of(program, operand).holds_call {
            sequence.push(*operand)?;
        } else if taken < order.len() {
            sequence.push(order[taken])?;
            taken += 1;
        }
    }
    Ok(sequence)
}
