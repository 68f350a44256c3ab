//! The points of expressions, from the last to the first.
ghost use Rattle.std.specs.List.{list_all};
ghost use Rattle.std.specs.Prelude.{◌≡◌, ◌<◌, ◌∷◌, true, length, IfOk, OnOk};
ghost use Rattle.ck_passages.specs.Drawing.{put_call};
ghost use Rattle.ck_passages.specs.Operands as values;
ghost use Rattle.ck_passages.specs.Walks as spec;
ghost use Rattle.ck_points.specs.Evaluations as form;
ghost use Rattle.ck_prog.specs.Paths as part;
ghost use Rattle.ck_tables.specs.ExprTable.{links_below, steps_below, step_below};
ghost use Rattle.ck_tables.specs.Numbers.{numbers, fits_if_any, entry_fits, step_fits};
ghost use Rattle.ck_tables.specs.Program.{readings};
ghost use Rattle.ck_tables.specs.Readings.{plain_entry};

use crate::drawing::{Copies, Drawing, copied, no_copies, with_last};
use crate::operands::{
    Operand, argument_operands, at, below, calling, placed, step_number, with_left,
};
use crate::walk::Walk;
use ck_base::{OutOfMemory, Span, Token};
use ck_prog::Operator;
use ck_tables::{EntryId, ExprId, ExprNode, Link, Step};
use std::alloc::AllocError;
use std::slice;

impl<'a> Walk<'a> {
    /// Draws an expression with this path.
    #[cycle(expressions)]
    fn expression(&self, x: ExprId, path: &[u32], drawing: &mut Drawing) -> Result<(), OutOfMemory>
        requires { x.0 < length (spec.tables self.now).exprs }
        ensures { OnOk result
            (spec.Draws self.now
            (form.evaluation path.now (values.tree (spec.tables self.now) x.0)) drawing.old drawing.new) }
    {
        let node = self.program.expression(x);
        match node {
            ExprNode::Name { .. } => Ok(()),
            ExprNode::Constant { .. } => Ok(()),
            ExprNode::Strings { .. } => Ok(()),
            ExprNode::SizeofType { .. } => Ok(()),
            ExprNode::Paren { facts, inner } => {
                self.enclosed(facts.holds_call, *inner, path, drawing)
            }
            ExprNode::Unary { facts, operand, .. } => {
                self.enclosed(facts.holds_call, *operand, path, drawing)
            }
            ExprNode::Cast { facts, operand, .. } => {
                self.enclosed(facts.holds_call, *operand, path, drawing)
            }
            ExprNode::Postfix { primary, steps } => {
                let suffixes = steps.as_slice();
                self.row(x, *primary, suffixes, &*path, drawing)
            }
            ExprNode::Chain { first, links } => {
                let operators = links.as_slice();
                self.chain(x, *first, operators, &*path, drawing)
            }
            ExprNode::Conditional {
                facts,
                test,
                second,
                third,
            } => {
                if facts.holds_call {
                    self.conditional(*test, *second, *third, facts.first, path, drawing)
                } else {
                    Ok(())
                }
            }
            ExprNode::Assignment {
                facts,
                target,
                value,
                ..
            } => {
                if facts.holds_call {
                    self.assignment(*target, *value, facts.first, path, drawing)
                } else {
                    Ok(())
                }
            }
        }
    }

    /// Draws what an operator encloses, where it holds a call.
    #[cycle(expressions)]
    fn enclosed(
        &self,
        holds_call: bool,
        inner: ExprId,
        path: &[u32],
        drawing: &mut Drawing,
    ) -> Result<(), OutOfMemory>
        requires { inner.0 < length (spec.tables self.now).exprs }
        ensures { OnOk result (spec.DrawsWhere holds_call self.now
            (form.evaluation (part.below path.now part.Enclosed)
            (values.tree (spec.tables self.now) inner.0)) drawing.old drawing.new) }
    {
        if !holds_call {
            return Ok(());
        }
        let inside = below(self.alloc, path, 0)?;
        self.expression(inner, inside.as_slice(), drawing)
    }

    /// Draws a choice of three operands.
    #[cycle(expressions)]
    fn conditional(
        &self,
        test: ExprId,
        second: ExprId,
        third: ExprId,
        first: Token,
        path: &[u32],
        drawing: &mut Drawing,
    ) -> Result<(), OutOfMemory>
        requires test { test.0 < length (spec.tables self.now).exprs }
        requires second { second.0 < length (spec.tables self.now).exprs }
        requires third { third.0 < length (spec.tables self.now).exprs }
        ensures { OnOk result
            (spec.Draws self.now
            (values.conditional_evaluation
            (values.tree (spec.tables self.now)) path.now first test second third) drawing.old drawing.new) }
    {
        drawing.put_meeting(self.alloc, path, self.orders, first.span)?;
        let meet = drawing.next(self.alloc)?;
        let third_path = below(self.alloc, path, 2)?;
        self.expression(third, third_path.as_slice(), drawing)?;
        let fails = drawing.turn_to(meet);
        let second_path = below(self.alloc, path, 1)?;
        self.expression(second, second_path.as_slice(), drawing)?;
        let tested = Operand::Whole {
            expression: test,
            above: path,
            step: 0,
        };
        let holds = drawing.next(self.alloc)?;
        self.test(&tested, holds, fails, drawing)?;
        self.operand(&tested, drawing)
    }

    /// Draws an assignment, whose operands may come in any order.
    #[cycle(expressions)]
    fn assignment(
        &self,
        target: ExprId,
        value: ExprId,
        first: Token,
        path: &[u32],
        drawing: &mut Drawing,
    ) -> Result<(), OutOfMemory>
        requires target { target.0 < length (spec.tables self.now).exprs }
        requires value { value.0 < length (spec.tables self.now).exprs }
        ensures { OnOk result
            (spec.Draws self.now
            (values.assignment_evaluation
            (values.tree (spec.tables self.now)) path.now first target value) drawing.old drawing.new) }
    {
        let operands = [
            Operand::Whole {
                expression: target,
                above: path,
                step: 0,
            },
            Operand::Whole {
                expression: value,
                above: path,
                step: 1,
            },
        ];
        self.unsequenced(&operands, path, first, drawing)
    }

    /// Draws a chain up to some operator, from the last operand to the first.
    #[cycle(expressions)]
    fn chain<'b>(
        &self,
        of: ExprId,
        first: ExprId,
        links: &'b [Link],
        path: &'b [u32],
        drawing: &mut Drawing,
    ) -> Result<(), OutOfMemory>
        requires node { of.0 < length (spec.tables self.now).exprs }
        requires first { first.0 < of.0 }
        requires links { links_below of.0 links.now ≡ true }
        ensures { OnOk result
            (spec.Draws self.now
            (values.chain_value
            (spec.tables self.now) path.now first links.now).evaluation drawing.old drawing.new) }
    {
        let mut links = links;
        'links: while let Some(last) = links.split_last() {
            let left = Operand::Chain {
                of,
                first,
                links: last.1,
                path,
            };
            let number = step_number(last.1.len() as u64)?;
            if self.link(&left, last.0, number, path, drawing)? {
                return Ok(());
            }
            links = last.1;
        }
        let inside = below(self.alloc, path, 0)?;
        self.expression(first, inside.as_slice(), drawing)
    }

    /// Draws an operator of a chain with its right operand. Answers whether the left one is done with, too.
    #[cycle(expressions)]
    fn link<'b>(
        &self,
        left: &Operand<'b>,
        link: &Link,
        number: u32,
        path: &'b [u32],
        drawing: &mut Drawing,
    ) -> Result<bool, OutOfMemory>
        requires left { values.Fits (spec.tables self.now) left.now }
        requires right { link.now.operand.0 < length (spec.tables self.now).exprs }
        ensures { IfOk result (spec.Leaves self.now
            (values.link_value (spec.tables self.now) path.now number
            (values.value_of (spec.tables self.now) left.now) link.now).evaluation
            (values.evaluation_of (spec.tables self.now) left.now) drawing.old drawing.new) }
    {
        if !link.facts.holds_call {
            return Ok(true);
        }
        let here = below(self.alloc, path, 2 * number as u64 + 1)?;
        let right = Operand::Whole {
            expression: link.operand,
            above: path,
            step: step_number(2 * number as u64 + 2)?,
        };
        let first = link.facts.first;
        match link.operator {
            Operator::Binary(_) => {
                self.after_left(
                    left,
                    slice::from_ref(&right),
                    here.as_slice(),
                    first,
                    drawing,
                )
            }
            Operator::And => {
                self.second(true, left, &right, here.as_slice(), first, drawing)?;
                Ok(false)
            }
            Operator::Or => {
                self.second(false, left, &right, here.as_slice(), first, drawing)?;
                Ok(false)
            }
            Operator::Comma => {
                self.operand(&right, drawing)?;
                Ok(false)
            }
        }
    }

    /// Draws the second operand of `&&` (where `holds`) or `||`, and the test of the first.
    #[cycle(expressions)]
    fn second(
        &self,
        holds: bool,
        left: &Operand<'_>,
        right: &Operand<'_>,
        here: &[u32],
        first: Token,
        drawing: &mut Drawing,
    ) -> Result<(), OutOfMemory>
        requires left { values.Fits (spec.tables self.now) left.now }
        requires right { values.Fits (spec.tables self.now) right.now }
        ensures { OnOk result
            (spec.DrawsSecond self.now holds here.now first left.now right.now drawing.old drawing.new) }
    {
        drawing.put_meeting(self.alloc, here, self.orders, first.span)?;
        let meet = drawing.next(self.alloc)?;
        self.operand(right, drawing)?;
        let entered = drawing.next(self.alloc)?;
        if holds {
            self.test(left, entered, meet, drawing)
        } else {
            self.test(left, meet, entered, drawing)
        }
    }

    /// Draws a row up to some suffix, from the last suffix to the first.
    #[cycle(expressions)]
    fn row<'b>(
        &self,
        of: ExprId,
        primary: ExprId,
        steps: &'b [Step],
        path: &'b [u32],
        drawing: &mut Drawing,
    ) -> Result<(), OutOfMemory>
        requires node { of.0 < length (spec.tables self.now).exprs }
        requires primary { primary.0 < of.0 }
        requires steps { steps_below of.0 steps.now ≡ true }
        requires names { list_all (step_fits (numbers (spec.tables self.now))) steps.now ≡ true }
        ensures { OnOk result
            (spec.Draws self.now
            (values.row_value
            (spec.tables self.now) path.now primary steps.now).evaluation drawing.old drawing.new) }
    {
        let mut steps = steps;
        'steps: while let Some(last) = steps.split_last() {
            let left = Operand::Row {
                of,
                primary,
                steps: &*last.1,
                path: &*path,
            };
            let here = below(self.alloc, path, last.1.len() as u64 + 1)?;
            let place = here.as_slice();
            if self.step(&left, last.0, place, drawing)? {
                return Ok(());
            }
            steps = last.1;
        }
        let inside = below(self.alloc, path, 0)?;
        self.expression(primary, inside.as_slice(), drawing)
    }

    /// Draws a call with this path, under these orders, by a name of the project or through an expression.
    fn draw_call(
        &self,
        here: &[u32],
        function: Option<EntryId>,
        site: Span,
        drawing: &mut Drawing,
    ) -> Result<(), AllocError>
        requires { fits_if_any (entry_fits (numbers (spec.tables self.now))) function ≡ true }
        ensures { OnOk result (spec.made self.now drawing.new
            ≡ put_call here.now self.now.orders.now (plain_entry (readings (spec.tables self.now)) function) site
            (spec.made self.now drawing.old)) }
    {
        drawing.put_call(self.alloc, here, self.orders, function, site)
    }

    /// Draws a suffix with its operands. Answers whether what is before it is done with, too.
    #[cycle(expressions)]
    fn step<'b>(
        &self,
        left: &Operand<'b>,
        step: &Step,
        here: &'b [u32],
        drawing: &mut Drawing,
    ) -> Result<bool, OutOfMemory>
        requires left { values.Fits (spec.tables self.now) left.now }
        requires step { step_below (length (spec.tables self.now).exprs) step.now ≡ true }
        requires names { step_fits (numbers (spec.tables self.now)) step.now ≡ true }
        ensures { IfOk result (spec.Leaves self.now
            (values.step_value (spec.tables self.now) here.now
            (values.value_of (spec.tables self.now) left.now) step.now).evaluation
            (values.evaluation_of (spec.tables self.now) left.now) drawing.old drawing.new) }
    {
        match step {
            Step::Index { index, facts, .. } => {
                if !facts.holds_call {
                    return Ok(true);
                }
                let right = Operand::Whole {
                    expression: *index,
                    above: here,
                    step: 0,
                };
                self.after_left(left, slice::from_ref(&right), here, facts.first, drawing)
            }
            Step::Call {
                function,
                arguments,
                facts,
                ..
            } => {
                let first = facts.first;
                self.draw_call(here, *function, first.span, drawing)?;
                let operands = argument_operands(self.alloc, here, arguments.as_slice())?;
                if function.is_some() {
                    self.unsequenced(operands.as_slice(), here, first, drawing)?;
                    return Ok(true);
                }
                self.after_left(left, operands.as_slice(), here, first, drawing)
            }
            Step::Access { facts, .. } => Ok(!facts.holds_call),
            Step::PostIncrement { facts, .. } => Ok(!facts.holds_call),
        }
    }

    /// Draws an operand.
    #[cycle(expressions)]
    fn operand(&self, operand: &Operand<'_>, drawing: &mut Drawing) -> Result<(), OutOfMemory>
        requires { values.Fits (spec.tables self.now) operand.now }
        ensures { OnOk result
            (spec.Draws self.now (values.evaluation_of (spec.tables self.now) operand.now) drawing.old drawing.new) }
    {
        match operand {
            Operand::Whole {
                expression,
                above,
                step,
            } => {
                let inside = with_last(self.alloc, above, *step)?;
                self.expression(*expression, inside.as_slice(), drawing)
            }
            Operand::Chain {
                of,
                first,
                links,
                path,
            } => { self.chain(*of, *first, links, path, drawing) }
            Operand::Row {
                of,
                primary,
                steps,
                path,
            } => { self.row(*of, *primary, steps, path, drawing) }
        }
    }

    /// Draws operands whose order is open, all of them or those after the left one. Answers whether the left one is
    /// done with, too: it is so where an order is taken.
    #[cycle(expressions)]
    fn after_left<'b>(
        &self,
        left: &Operand<'b>,
        others: &[Operand<'b>],
        here: &[u32],
        first: Token,
        drawing: &mut Drawing,
    ) -> Result<bool, OutOfMemory>
        requires left { values.Fits (spec.tables self.now) left.now }
        requires others { values.AllFit (spec.tables self.now) others.now }
        ensures { IfOk result (spec.Leaves self.now
            (values.unsequenced_evaluation (spec.tables self.now) here.now first (left.now ∷ others.now))
            (values.evaluation_of (spec.tables self.now) left.now) drawing.old drawing.new) }
    {
        let operands = with_left(self.alloc, left, others)?;
        let in_calls = calling(self.alloc, self.program, operands.as_slice())?;
        if in_calls.len() == 2 || in_calls.len() == 3 {
            self.unsequenced(operands.as_slice(), here, first, drawing)?;
            return Ok(true);
        }
        let order = calling(self.alloc, self.program, others)?;
        self.arranged(others, order.as_slice(), drawing)?;
        Ok(false)
    }

    /// Draws operands whose order is open.
    #[cycle(expressions)]
    fn unsequenced(
        &self,
        operands: &[Operand<'_>],
        here: &[u32],
        first: Token,
        drawing: &mut Drawing,
    ) -> Result<(), OutOfMemory>
        requires { values.AllFit (spec.tables self.now) operands.now }
        ensures { OnOk result
            (spec.Draws self.now
            (values.unsequenced_evaluation
            (spec.tables self.now) here.now first operands.now) drawing.old drawing.new) }
    {
        let in_calls = calling(self.alloc, self.program, operands)?;
        match in_calls.as_slice() {
            [a, b] => {
                let mut copies = no_copies(self.alloc, drawing)?;
                self.copy(2, operands, &[*b, *a], &mut copies, drawing)?;
                self.copy(1, operands, &[*a, *b], &mut copies, drawing)?;
                drawing.put_split(self.alloc, here, self.orders, first.span, copies.edges)?;
                Ok(())
            }
            [a, b, c] => {
                let mut copies = no_copies(self.alloc, drawing)?;
                self.copy(6, operands, &[*c, *b, *a], &mut copies, drawing)?;
                self.copy(5, operands, &[*c, *a, *b], &mut copies, drawing)?;
                self.copy(4, operands, &[*b, *c, *a], &mut copies, drawing)?;
                self.copy(3, operands, &[*b, *a, *c], &mut copies, drawing)?;
                self.copy(2, operands, &[*a, *c, *b], &mut copies, drawing)?;
                self.copy(1, operands, &[*a, *b, *c], &mut copies, drawing)?;
                drawing.put_split(self.alloc, here, self.orders, first.span, copies.edges)?;
                Ok(())
            }
            order => self.arranged(operands, order, drawing),
        }
    }

    /// Draws the copy of operands with calls in one order, of this number, before the copies in later orders.
    #[cycle(expressions)]
    fn copy<'b>(
        &self,
        number: u8,
        operands: &[Operand<'b>],
        order: &[Operand<'b>],
        copies: &mut Copies,
        drawing: &mut Drawing,
    ) -> Result<(), OutOfMemory>
        requires operands { values.AllFit (spec.tables self.now) operands.now }
        requires order { values.AllFit (spec.tables self.now) order.now }
        ensures { OnOk result
            (spec.DrawsCopy self.now number operands.now order.now copies.old drawing.old copies.new drawing.new) }
    {
        let orders = with_last(self.alloc, self.orders, number)?;
        let inner = Walk {
            alloc: self.alloc,
            program: self.program,
            orders: orders.as_slice(),
        };
        let next = copied(self.alloc, &copies.to)?;
        drawing.turn_to(next);
        inner.arranged(operands, order, drawing)?;
        let to = drawing.next(self.alloc)?;
        copies.put_first(number, to)?;
        Ok(())
    }

    /// Draws operands, those with calls in this order among their places, from the last to the first.
    #[cycle(expressions)]
    fn arranged<'b>(
        &self,
        operands: &[Operand<'b>],
        order: &[Operand<'b>],
        drawing: &mut Drawing,
    ) -> Result<(), OutOfMemory>
        requires operands { values.AllFit (spec.tables self.now) operands.now }
        requires order { values.AllFit (spec.tables self.now) order.now }
        ensures { OnOk result
            (spec.Draws self.now
            (values.arranged_evaluation (spec.tables self.now) operands.now order.now) drawing.old drawing.new) }
    {
        let sequence = placed(self.alloc, self.program, operands, order)?;
        let items = sequence.as_slice();
        let mut left = items.len();
        'places: while 0 < left {
            left -= 1;
            let operand = at(self.program, items, left);
            self.operand(operand, drawing)?;
        }
        Ok(())
    }

    /// Draws an expression with this path: the points of its passage, from the last to the first, before what is drawn.
    pub fn draw(&self, x: ExprId, path: &[u32], drawing: &mut Drawing) -> Result<(), OutOfMemory>
        requires { x.0 < length (spec.tables self.now).exprs }
        ensures { OnOk result
            (spec.DrawsPassage self.now
            (form.evaluation path.now (values.tree (spec.tables self.now) x.0)) drawing.old drawing.new) }
    {
        self.expression(x, path, drawing)?;
        Ok(())
    }
}
