//! The calls of expressions (6.5).
ghost use Rattle.std.specs.Prelude.{◌≡◌, ◌<◌, ◌+◌, ◌^◌, [], ◌∷◌, ◌++◌, true, length, OnOk};
ghost use Rattle.std.specs.List.{list_all};
ghost use Rattle.ck_call_rows.specs.Walks as spec;
ghost use Rattle.ck_call_rows.specs.Walks.{tables, tree, path_of};
ghost use Rattle.ck_prog.specs.Calls as calls;
ghost use Rattle.ck_prog.specs.Paths as part;
ghost use Rattle.ck_prog.specs.Paths.{below};
ghost use Rattle.ck_prog.specs.TypedTrees.{Typed, Steps, NoSteps};
ghost use Rattle.ck_tables.specs.ExprTable as table;
ghost use Rattle.ck_tables.specs.Numbers.{numbers, fits_if_any, entry_fits, step_fits};
ghost use Rattle.ck_tables.specs.Program.{readings};

use crate::callees::Called;
use crate::trail::Trail;
use crate::walk::Walk;
use ck_base::OutOfMemory;
use ck_prog::Prefix;
use ck_tables::{CallInfo, ExprId, ExprNode, Link, Rows, Step};

/// Nothing under `sizeof` is evaluated (6.5.3.4).
fn is_size(operator: Prefix) -> bool
    ensures { result ≡ calls.is_size operator }
{
    matches!(operator, Prefix::SizeOf)
}

impl Walk<'_> {
    /// Adds the calls of an expression with this path.
    #[cycle(expressions)]
    #[tactic(auto, unfolding(ck_tables::specs::Numbers::expression_node_fits))]
    pub(crate) fn expression<'b>(
        &self,
        x: ExprId,
        path: &'b Trail<'b>,
        rows: &mut Rows<CallInfo>,
    ) -> Result<(), OutOfMemory>
        requires { x.0 < length (tables self.now).exprs }
        ensures { OnOk result (spec.Adds self.now rows.old.rows.items rows.new.rows.items
            (calls.calls_in (path_of path.now) (tree (tables self.now) x.0))) }
    {
        match self.expression_node(x) {
            ExprNode::Name { .. } => Ok(()),
            ExprNode::Constant { .. } => Ok(()),
            ExprNode::Strings { .. } => Ok(()),
            ExprNode::SizeofType { .. } => Ok(()),
            ExprNode::Paren { inner, .. } => self.operand(*inner, 0, path, rows),
            ExprNode::Unary {
                operator,
                operand,
                ..
            } => {
                if is_size(*operator) {
                    Ok(())
                } else {
                    self.operand(*operand, 0, path, rows)
                }
            }
            ExprNode::Cast { operand, .. } => self.operand(*operand, 0, path, rows),
            ExprNode::Postfix { primary, steps } => {
                self.row(x, *primary, steps.as_slice(), path, rows)
            }
            ExprNode::Chain { first, links } => {
                self.chain(x, *first, links.as_slice(), path, rows)
            }
            ExprNode::Conditional {
                test,
                second,
                third,
                ..
            } => self.conditional(*test, *second, *third, path, rows),
            ExprNode::Assignment { target, value, .. } => {
                self.assignment(*target, *value, path, rows)
            }
        }
    }

    /// Adds the calls of the operand to which a step leads.
    #[cycle(expressions)]
    pub(crate) fn operand<'b>(
        &self,
        x: ExprId,
        step: u64,
        path: &'b Trail<'b>,
        rows: &mut Rows<CallInfo>,
    ) -> Result<(), OutOfMemory>
        requires { x.0 < length (tables self.now).exprs }
        ensures { OnOk result (spec.Adds self.now rows.old.rows.items rows.new.rows.items
            (calls.calls_in (path_of path.now ++ step ∷ []) (tree (tables self.now) x.0))) }
    {
        let inside = path.below(step);
        self.expression(x, &inside, rows)
    }

    /// Adds the calls of the operands of a conditional with this path (6.5.15).
    #[cycle(expressions)]
    fn conditional<'b>(
        &self,
        test: ExprId,
        second: ExprId,
        third: ExprId,
        path: &'b Trail<'b>,
        rows: &mut Rows<CallInfo>,
    ) -> Result<(), OutOfMemory>
        requires test { test.0 < length (tables self.now).exprs }
        requires second { second.0 < length (tables self.now).exprs }
        requires third { third.0 < length (tables self.now).exprs }
        ensures { OnOk result (spec.Adds self.now rows.old.rows.items rows.new.rows.items
            (calls.calls_in (below (path_of path.now) part.Condition) (tree (tables self.now) test.0)
            ++ (calls.calls_in (below (path_of path.now) part.Second) (tree (tables self.now) second.0)
            ++ calls.calls_in (below (path_of path.now) part.Third) (tree (tables self.now) third.0)))) }
    {
        self.operand(test, 0, path, rows)?;
        self.operand(second, 1, path, rows)?;
        self.operand(third, 2, path, rows)
    }

    /// Adds the calls of the operands of an assignment with this path (6.5.16).
    #[cycle(expressions)]
    fn assignment<'b>(
        &self,
        target: ExprId,
        value: ExprId,
        path: &'b Trail<'b>,
        rows: &mut Rows<CallInfo>,
    ) -> Result<(), OutOfMemory>
        requires target { target.0 < length (tables self.now).exprs }
        requires value { value.0 < length (tables self.now).exprs }
        ensures { OnOk result (spec.Adds self.now rows.old.rows.items rows.new.rows.items
            (calls.calls_in (below (path_of path.now) part.Left) (tree (tables self.now) target.0)
            ++ calls.calls_in (below (path_of path.now) part.Right) (tree (tables self.now) value.0))) }
    {
        self.operand(target, 0, path, rows)?;
        self.operand(value, 1, path, rows)
    }

    /// Adds the calls of the operands of a chain with this path (6.5.5 to 6.5.14, 6.5.17).
    #[cycle(expressions)]
    fn chain<'b>(
        &self,
        of: ExprId,
        first: ExprId,
        links: &[Link],
        path: &'b Trail<'b>,
        rows: &mut Rows<CallInfo>,
    ) -> Result<(), OutOfMemory>
        requires of { of.0 < length (tables self.now).exprs }
        requires first { first.0 < of.0 }
        requires below { table.links_below of.0 links.now ≡ true }
        ensures { OnOk result (spec.Adds self.now rows.old.rows.items rows.new.rows.items
            (calls.calls_in (below (path_of path.now) (part.Operand 0)) (tree (tables self.now) first.0)
            ++ calls.calls_in_links (path_of path.now) 1
            (table.links_of (readings (tables self.now)) (tree (tables self.now)) links.now))) }
    {
        self.operand(first, 0, path, rows)?;
        self.links(of, links, path, rows)
    }

    /// Adds the calls of a row of suffixes with this path, and those of what is before it (6.5.2).
    #[cycle(expressions)]
    fn row<'b>(
        &self,
        of: ExprId,
        primary: ExprId,
        steps: &[Step],
        path: &'b Trail<'b>,
        rows: &mut Rows<CallInfo>,
    ) -> Result<(), OutOfMemory>
        requires of { of.0 < length (tables self.now).exprs }
        requires is { spec.IsRowOf (tables self.now) of.0 primary.0 steps.now }
        requires first { primary.0 < of.0 }
        requires below { table.steps_below of.0 steps.now ≡ true }
        requires fit { list_all (step_fits (numbers (tables self.now))) steps.now ≡ true }
        ensures { OnOk result (spec.Adds self.now rows.old.rows.items rows.new.rows.items
            (calls.calls_in (below (path_of path.now) part.Primary) (tree (tables self.now) primary.0)
            ++ calls.calls_in_steps (path_of path.now) (tree (tables self.now) primary.0) NoSteps 0
            (table.steps_of (readings (tables self.now)) (tree (tables self.now)) steps.now))) }
    {
        self.operand(primary, 0, path, rows)?;
        self.suffixes(of, primary, steps, path, rows)
    }

    /// Adds the calls of the right operands of a chain with this path.
    #[cycle(expressions)]
    fn links<'b>(
        &self,
        of: ExprId,
        links: &[Link],
        path: &'b Trail<'b>,
        rows: &mut Rows<CallInfo>,
    ) -> Result<(), OutOfMemory>
        requires of { of.0 < length (tables self.now).exprs }
        requires below { table.links_below of.0 links.now ≡ true }
        ensures { OnOk result (spec.Adds self.now rows.old.rows.items rows.new.rows.items
            (calls.calls_in_links (path_of path.now) 1
            (table.links_of (readings (tables self.now)) (tree (tables self.now)) links.now))) }
    {
        'each: for (number, link) in links.iter().enumerate() {
            self.operand(link.operand, 2 * (number as u64 + 1), path, rows)?;
        }
        Ok(())
    }

    /// Adds the calls of arguments, where the call has this path.
    #[cycle(expressions)]
    fn arguments<'b>(
        &self,
        of: ExprId,
        arguments: &[ExprId],
        path: &'b Trail<'b>,
        rows: &mut Rows<CallInfo>,
    ) -> Result<(), OutOfMemory>
        requires of { of.0 < length (tables self.now).exprs }
        requires below { table.arguments_below of.0 arguments.now ≡ true }
        ensures { OnOk result (spec.Adds self.now rows.old.rows.items rows.new.rows.items
            (calls.calls_in_arguments (path_of path.now) 0
            (table.arguments_of (tree (tables self.now)) arguments.now))) }
    {
        'each: for (number, argument) in arguments.iter().enumerate() {
            self.operand(*argument, number as u64, path, rows)?;
        }
        Ok(())
    }

    /// Adds the calls of suffixes, and those in them.
    #[cycle(expressions)]
    fn suffixes<'b>(
        &self,
        of: ExprId,
        primary: ExprId,
        steps: &[Step],
        path: &'b Trail<'b>,
        rows: &mut Rows<CallInfo>,
    ) -> Result<(), OutOfMemory>
        requires of { of.0 < length (tables self.now).exprs }
        requires is { spec.IsRowOf (tables self.now) of.0 primary.0 steps.now }
        requires below { table.steps_below of.0 steps.now ≡ true }
        requires fit { list_all (step_fits (numbers (tables self.now))) steps.now ≡ true }
        ensures { OnOk result (spec.Adds self.now rows.old.rows.items rows.new.rows.items
            (calls.calls_in_steps (path_of path.now) (tree (tables self.now) primary.0) NoSteps 0
            (table.steps_of (readings (tables self.now)) (tree (tables self.now)) steps.now))) }
    {
        'each: for (number, step) in steps.iter().enumerate() {
            self.suffix(of, number as u64, step, path, rows)?;
        }
        Ok(())
    }

    /// Adds the call of a suffix, if it is one, and those in it.
    #[cycle(expressions)]
    fn suffix<'b>(
        &self,
        of: ExprId,
        number: u64,
        step: &Step,
        path: &'b Trail<'b>,
        rows: &mut Rows<CallInfo>,
    ) -> Result<(), OutOfMemory>
        requires of { of.0 < length (tables self.now).exprs }
        requires number { number + 1 < 2 ^ 64 }
        requires below { table.step_below of.0 step.now ≡ true }
        requires fits { step_fits (numbers (tables self.now)) step.now ≡ true }
        ensures { OnOk result ((x : Typed) (before : Steps) →
            spec.AreAmong (spec.calls_of_step (tables self.now) (path_of path.now) x before number step.now)
            (calls.calls_in (path_of path.now) (tree (tables self.now) of.0)) →
            spec.Adds self.now rows.old.rows.items rows.new.rows.items
            (spec.calls_of_step (tables self.now) (path_of path.now) x before number step.now)) }
    {
        match step {
            Step::Index { index, .. } => self.index(*index, number, path, rows),
            Step::Call {
                function,
                arguments,
                facts,
                ..
            } => {
                let called = Called {
                    of,
                    suffix: number,
                    function: *function,
                    first: facts.first,
                };
                self.called(called, arguments.as_slice(), path, rows)
            }
            Step::Access { .. } => Ok(()),
            Step::PostIncrement { .. } => Ok(()),
        }
    }

    /// Adds the calls of an index, by the number of its suffix.
    #[cycle(expressions)]
    fn index<'b>(
        &self,
        index: ExprId,
        number: u64,
        path: &'b Trail<'b>,
        rows: &mut Rows<CallInfo>,
    ) -> Result<(), OutOfMemory>
        requires there { index.0 < length (tables self.now).exprs }
        requires number { number + 1 < 2 ^ 64 }
        ensures { OnOk result (spec.Adds self.now rows.old.rows.items rows.new.rows.items
            (calls.calls_in (below (below (path_of path.now) (part.Suffix number)) part.IndexOf)
            (tree (tables self.now) index.0))) }
    {
        let inside = path.below(number + 1);
        self.operand(index, 0, &inside, rows)
    }

    /// Adds a call, and then the calls of its arguments.
    #[cycle(expressions)]
    fn called<'b>(
        &self,
        called: Called,
        arguments: &[ExprId],
        path: &'b Trail<'b>,
        rows: &mut Rows<CallInfo>,
    ) -> Result<(), OutOfMemory>
        requires of { called.of.0 < length (tables self.now).exprs }
        requires number { called.suffix + 1 < 2 ^ 64 }
        requires name { fits_if_any (entry_fits (numbers (tables self.now))) called.function ≡ true }
        requires below { table.arguments_below called.of.0 arguments.now ≡ true }
        ensures { OnOk result ((c : calls.CallSite) → spec.IsSite (tables self.now) (path_of path.now) called c →
            spec.Adds self.now rows.old.rows.items rows.new.rows.items
            (c ∷ calls.calls_in_arguments (below (path_of path.now) (part.Suffix called.suffix)) 0
            (table.arguments_of (tree (tables self.now)) arguments.now))) }
    {
        self.call(called, path, rows)?;
        let inside = path.below(called.suffix + 1);
        self.arguments(called.of, arguments, &inside, rows)
    }
}
