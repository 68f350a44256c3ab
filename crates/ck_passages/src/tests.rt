//! Tests, and the edges that leave them.
ghost use Rattle.std.specs.Ordering.{int_eq};
ghost use Rattle.std.specs.Prelude.{◌≡◌, ◌<◌, [], length, map, pos, IfOk, OnOk};
ghost use Rattle.ck_drafts.specs.Drafts.{plain_place, plain_edge};
ghost use Rattle.ck_passages.specs.Drawing.{test_edges};
ghost use Rattle.ck_passages.specs.Operands.{Fits, tree};
ghost use Rattle.ck_passages.specs.Walks as spec;
ghost use Rattle.ck_prog.specs.Senses as senses;
ghost use Rattle.ck_tables.specs.Program.{value_of as number_of, readings};
ghost use Rattle.ck_tables.specs.Readings.{plain_constancy};

use crate::drawing::{Drawing, Happening, one_edge, place};
use crate::operands::{Operand, expression_facts, facts_of, path_of};
use crate::walk::Walk;
use ck_base::OutOfMemory;
use ck_drafts::{DraftEdge, Place, Side};
use ck_graph::Label;
use ck_tables::{Constancy, ExprId, Program, ValueId};
use std::alloc::{AllocError, Global};

/// Whether a number is zero.
fn is_nought(number: &i128) -> bool
    ensures { result ≡ int_eq number.now (pos 0) }
{
    let value = *number;
    value == 0
}

/// Whether a constant is zero.
fn is_zero(program: &Program, value: ValueId) -> bool
    ensures { result ≡ senses.is_zero (senses.Known (number_of program.now.linked value.0)) }
{
    let numbers = program.linked().values.as_slice();
    let at = value.0 as usize;
    if at < numbers.len() {
        is_nought(&numbers[at])
    } else {
        true
    }
}

/// Edges of two labels to two places.
fn two_edges(alloc: Global, holds: Place, fails: Place) -> Result<Vec<DraftEdge>, AllocError>
    ensures { IfOk result (λ v. map plain_edge v.items
        ≡ test_edges senses.Varying (plain_place holds) (plain_place fails)) }
{
    let mut edges = Vec::new(alloc);
    edges.push(DraftEdge {
        label: Label::True,
        to: holds,
    })?;
    edges.push(DraftEdge {
        label: Label::False,
        to: fails,
    })?;
    Ok(edges)
}

/// The edges that leave a test: to two places, or to the one of a known value.
pub(crate) fn edges_of(
    alloc: Global,
    program: &Program,
    constancy: Constancy,
    holds: Place,
    fails: Place,
) -> Result<Vec<DraftEdge>, AllocError>
    ensures { IfOk result (λ v. map plain_edge v.items
        ≡ test_edges (plain_constancy (readings program.now.linked) constancy) (plain_place holds)
        (plain_place fails)) }
{
    match constancy {
        Constancy::Varying => two_edges(alloc, holds, fails),
        Constancy::Valueless => two_edges(alloc, holds, fails),
        Constancy::Known(value) => {
            let to = if is_zero(program, value) {
                fails
            } else {
                holds
            };
            one_edge(alloc, to)
        }
    }
}

impl<'a> Walk<'a> {
    /// Draws the test of an operand, which leads to these places.
    pub(crate) fn test(
        &self,
        tested: &Operand<'_>,
        holds: Place,
        fails: Place,
        drawing: &mut Drawing,
    ) -> Result<(), OutOfMemory>
        requires { Fits (spec.tables self.now) tested.now }
        ensures { OnOk result
            (spec.DrawsTest self.now tested.now (plain_place holds) (plain_place fails) drawing.old drawing.new) }
    {
        let facts = facts_of(self.program, tested);
        let path = path_of(self.alloc, tested)?;
        let at = place(self.alloc, path.as_slice(), self.orders, Side::Test)?;
        let edges = edges_of(self.alloc, self.program, facts.constancy, holds, fails)?;
        drawing.put(self.alloc, at, Happening::Passes, facts.first.span, edges)?;
        Ok(())
    }

    /// Draws a controlling expression with this path, under no operator, and its test, which leads to one of two
    /// places: where it isn't 0, and where it is (6.8.4.1, 6.8.5).
    pub fn decide(
        &self,
        x: ExprId,
        path: &[u32],
        holds: Place,
        fails: Place,
        drawing: &mut Drawing,
    ) -> Result<(), OutOfMemory>
        requires known { x.0 < length (spec.tables self.now).exprs }
        requires alone { self.now.orders.now ≡ [] }
        ensures { OnOk result (spec.DrawsDecision self.now path.now (tree (spec.tables self.now) x.0)
            (plain_place holds) (plain_place fails) drawing.old drawing.new) }
    {
        let known = expression_facts(self.program, x);
        let at = place(self.alloc, path, self.orders, Side::Test)?;
        let edges = edges_of(self.alloc, self.program, known.constancy, holds, fails)?;
        drawing.put(self.alloc, at, Happening::Passes, known.first.span, edges)?;
        self.draw(x, path, drawing)?;
        Ok(())
    }
}
