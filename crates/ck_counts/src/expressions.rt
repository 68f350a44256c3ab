//! The weights of a project's expressions.
ghost use Rattle.std.specs.Prelude.{◌≡◌, ◌<◌, ◌≤◌, true, length, vec_len, IfOk, OnOk};
ghost use Rattle.ck_counts.specs.Extents as spec;
ghost use Rattle.ck_counts.specs.Extents.{Extent, extent_of, extents_of};
ghost use Rattle.ck_counts.specs.BodyPoints.{expression_points};
ghost use Rattle.ck_counts.specs.Weights.{Weighs, IsWeighed, AreTogether, AreWeighed, tree};
ghost use Rattle.ck_prog.specs.TypedTrees as trees;
ghost use Rattle.ck_tables.specs.ExprTable as table;
ghost use Rattle.ck_tables.specs.Program.{readings};

use crate::operands::{Together, Weighed, operator_weight, two_in_orders};
use crate::weights::Weight;
use ck_base::OutOfMemory;
use ck_tables::{ExprId, ExprNode, Link, Program, Step};

/// An expression among those that are weighed.
fn operand(program: &Program, weighed: &[Weighed], x: ExprId) -> Weighed
    requires there { x.0 < length weighed.now }
    requires are { AreWeighed program.now.linked weighed.now }
    ensures { IsWeighed result (extent_of (tree program.now.linked x.0)) }
{
    weighed[x.0 as usize]
}

/// The value of a chain up to an operator, from the one before it.
fn linked(program: &Program, weighed: &[Weighed], left: Weighed, next: &Link) -> Weighed
    requires there { next.now.operand.0 < length weighed.now }
    requires are { AreWeighed program.now.linked weighed.now }
    ensures { (v : Extent) → IsWeighed left v → IsWeighed result (spec.extent_after_links v
        (table.link_before (readings program.now.linked) (tree program.now.linked) next.now trees.NoLinks)) }
{
    let right = operand(program, weighed, next.operand);
    let points = operator_weight(next.operator, left, right);
    Weighed::over(next.facts.holds_call, points)
}

/// The value of a chain.
fn chain(program: &Program, weighed: &[Weighed], first: ExprId, links: &[Link]) -> Weighed
    requires first { first.0 < length weighed.now }
    requires links { table.links_below (length weighed.now) links.now ≡ true }
    requires are { AreWeighed program.now.linked weighed.now }
    ensures { IsWeighed result (spec.extent_after_links (extent_of (tree program.now.linked first.0))
        (table.links_of (readings program.now.linked) (tree program.now.linked) links.now)) }
{
    let mut value = operand(program, weighed, first);
    'links: for next in links {
        value = linked(program, weighed, value, next);
    }
    value
}

/// The arguments of a call, whose order is open.
fn together(program: &Program, weighed: &[Weighed], arguments: &[ExprId]) -> Together
    requires there { table.arguments_below (length weighed.now) arguments.now ≡ true }
    requires are { AreWeighed program.now.linked weighed.now }
    ensures { AreTogether result
        (extents_of (table.arguments_of (tree program.now.linked) arguments.now)) }
{
    let mut operands = Together::none();
    let mut left = arguments.len();
    'each: while 0 < left {
        left -= 1;
        operands = operands.with(operand(program, weighed, arguments[left]));
    }
    operands
}

/// The value of a row up to a suffix, from the one before it.
fn suffix(program: &Program, weighed: &[Weighed], value: Weighed, step: &Step) -> Weighed
    requires there { table.step_below (length weighed.now) step.now ≡ true }
    requires are { AreWeighed program.now.linked weighed.now }
    ensures { (v : Extent) → IsWeighed value v → IsWeighed result (spec.extent_after_steps v
        (table.step_before (readings program.now.linked) (tree program.now.linked) step.now trees.NoSteps)) }
{
    match step {
        Step::Index { index, facts, .. } => {
            let points = two_in_orders(value, operand(program, weighed, *index));
            Weighed::over(facts.holds_call, points)
        }
        Step::Call {
            function,
            arguments,
            facts,
            ..
        } => {
            let arguments = together(program, weighed, arguments.as_slice());
            let operands = match function {
                Some(_) => arguments,
                None => arguments.with(value),
            };
            Weighed {
                holds_call: facts.holds_call,
                points: Weight::of(2).and(operands.in_orders()),
            }
        }
        Step::Access { facts, .. } => Weighed::over(facts.holds_call, value.points),
        Step::PostIncrement { facts, .. } => Weighed::over(facts.holds_call, value.points),
    }
}

/// The value of a row of suffixes.
fn row(program: &Program, weighed: &[Weighed], primary: ExprId, steps: &[Step]) -> Weighed
    requires primary { primary.0 < length weighed.now }
    requires steps { table.steps_below (length weighed.now) steps.now ≡ true }
    requires are { AreWeighed program.now.linked weighed.now }
    ensures { IsWeighed result (spec.extent_after_steps (extent_of (tree program.now.linked primary.0))
        (table.steps_of (readings program.now.linked) (tree program.now.linked) steps.now)) }
{
    let mut value = operand(program, weighed, primary);
    'steps: for step in steps {
        value = suffix(program, weighed, value, step);
    }
    value
}

/// An expression over those before it.
fn node_value(program: &Program, weighed: &[Weighed], node: &ExprNode) -> Weighed
    requires there { table.reads_below (length weighed.now) node.now ≡ true }
    requires are { AreWeighed program.now.linked weighed.now }
    ensures { IsWeighed result
        (extent_of (table.make (readings program.now.linked) (tree program.now.linked) node.now)) }
{
    match node {
        ExprNode::Name { facts, .. } => Weighed::at_once(facts.holds_call),
        ExprNode::Constant { facts } => Weighed::at_once(facts.holds_call),
        ExprNode::Strings { facts, .. } => Weighed::at_once(facts.holds_call),
        ExprNode::SizeofType { facts, .. } => Weighed::at_once(facts.holds_call),
        ExprNode::Paren { facts, inner } => {
            let inside = operand(program, weighed, *inner);
            Weighed::over(facts.holds_call, inside.points)
        }
        ExprNode::Unary {
            facts,
            operand: of,
            ..
        } => {
            let inside = operand(program, weighed, *of);
            Weighed::over(facts.holds_call, inside.points)
        }
        ExprNode::Cast {
            facts,
            operand: of,
            ..
        } => {
            let inside = operand(program, weighed, *of);
            Weighed::over(facts.holds_call, inside.points)
        }
        ExprNode::Postfix { primary, steps } => row(program, weighed, *primary, steps.as_slice()),
        ExprNode::Chain { first, links } => chain(program, weighed, *first, links.as_slice()),
        ExprNode::Conditional {
            facts,
            test,
            second,
            third,
        } => {
            let tested = operand(program, weighed, *test).points;
            let holds = operand(program, weighed, *second).points;
            let fails = operand(program, weighed, *third).points;
            let points = Weight::of(2).and(tested.and(holds.and(fails)));
            Weighed::over(facts.holds_call, points)
        }
        ExprNode::Assignment {
            facts,
            target,
            value,
            ..
        } => {
            let left = operand(program, weighed, *target);
            let right = operand(program, weighed, *value);
            Weighed::over(facts.holds_call, two_in_orders(left, right))
        }
    }
}

/// The weight of an expression. Those of smaller numbers are weighed before it, each once.
pub(crate) fn expression(
    program: &Program,
    weighed: &mut Vec<Weighed>,
    x: ExprId,
) -> Result<Weight, OutOfMemory>
    requires known { x.0 < length program.now.linked.exprs }
    requires are { AreWeighed program.now.linked weighed.old.items }
    ensures are { OnOk result (AreWeighed program.now.linked weighed.new.items) }
    ensures is { IfOk result (λ w. Weighs w.0 (expression_points (tree program.now.linked x.0))) }
{
    'nodes: while weighed.len() <= x.0 as usize {
        let next = program.expression(ExprId(weighed.len() as u32));
        let value = node_value(program, weighed.as_slice(), next);
        weighed.push(value)?;
    }
    Ok(operand(program, weighed.as_slice(), x).points)
}
