//! The weights of a project's statements.
ghost use Rattle.std.specs.Prelude.{◌≡◌, ◌<◌, ◌≤◌, ◌+◌, ◌||◌, ℕ, Bool, true, false, length, IfOk, OnOk};
ghost use Rattle.std.specs.List.{list_all};
ghost use Rattle.ck_counts.specs.BodyPoints as spec;
ghost use Rattle.ck_counts.specs.Rows.{item_points, item_status};
ghost use Rattle.ck_counts.specs.Weights.{Weighs, IsCounted, IsKnown, StatementsCount, tree};
ghost use Rattle.ck_points.specs.Functions as status;
ghost use Rattle.ck_tables.specs.Numbers as fit;
ghost use Rattle.ck_tables.specs.Numbers.{numbers};
ghost use Rattle.ck_tables.specs.Program.{body_readings};
ghost use Rattle.ck_tables.specs.StmtTable as table;
ghost use Rattle.ck_tables.specs.StmtTable.{statement_at};

use crate::body_counts::Counted;
use crate::declarations::declaration;
use crate::expressions::expression;
use crate::initialisers::Known;
use crate::weights::Weight;
use ck_base::OutOfMemory;
use ck_tables::{ExprId, Item, Program, Start, StmtId, StmtNode};

/// A statement among those that are counted.
fn part(program: &Program, counted: &[Counted], s: StmtId) -> Counted
    requires there { s.0 < length counted.now }
    requires count { StatementsCount program.now.linked counted.now }
    ensures { IsCounted result
        (spec.statement_points (statement_at (body_readings program.now.linked) program.now.linked.stmts s.0))
        (status.status_in_statement (statement_at (body_readings program.now.linked) program.now.linked.stmts s.0)) }
{
    counted[s.0 as usize]
}

/// An item of a block.
fn item_count(
    program: &Program,
    known: &mut Known,
    counted: &[Counted],
    next: &Item,
) -> Result<Counted, OutOfMemory>
    requires there { table.item_below (length counted.now) next.now ≡ true }
    requires fits { fit.item_fits (numbers program.now.linked) next.now ≡ true }
    requires count { StatementsCount program.now.linked counted.now }
    requires known { IsKnown program.now.linked known.old }
    ensures known { OnOk result (IsKnown program.now.linked known.new) }
    ensures is { IfOk result (λ c. IsCounted c
        (item_points (body_readings program.now.linked)
        (statement_at (body_readings program.now.linked) program.now.linked.stmts) next.now)
        (item_status (body_readings program.now.linked)
        (statement_at (body_readings program.now.linked) program.now.linked.stmts) next.now)) }
{
    match next {
        Item::Declaration(d) => declaration(program, known, *d),
        Item::Statement(s) => Ok(part(program, counted, *s)),
    }
}

/// The items of a block.
pub(crate) fn items_count(
    program: &Program,
    known: &mut Known,
    counted: &[Counted],
    row: &[Item],
) -> Result<Counted, OutOfMemory>
    requires there { table.items_below (length counted.now) row.now ≡ true }
    requires fit { list_all (fit.item_fits (numbers program.now.linked)) row.now ≡ true }
    requires count { StatementsCount program.now.linked counted.now }
    requires known { IsKnown program.now.linked known.old }
    ensures known { OnOk result (IsKnown program.now.linked known.new) }
    ensures are { IfOk result (λ c. IsCounted c
        (spec.items_points (table.items_of (body_readings program.now.linked)
        (statement_at (body_readings program.now.linked) program.now.linked.stmts) row.now))
        (status.status_in (table.items_of (body_readings program.now.linked)
        (statement_at (body_readings program.now.linked) program.now.linked.stmts) row.now))) }
{
    let mut all = Counted::plain(Weight::of(0));
    let mut left = row.len();
    'each: while 0 < left {
        left -= 1;
        all = item_count(program, known, counted, &row[left])?.and(all);
    }
    Ok(all)
}

/// The first part of a `for`.
fn start_count(program: &Program, known: &mut Known, first: &Start) -> Result<Counted, OutOfMemory>
    requires fits { fit.start_fits (numbers program.now.linked) first.now ≡ true }
    requires known { IsKnown program.now.linked known.old }
    ensures known { OnOk result (IsKnown program.now.linked known.new) }
    ensures is { IfOk result (λ c. IsCounted c
        (spec.start_points (table.plain_start (body_readings program.now.linked) first.now))
        (status.status_in_start (table.plain_start (body_readings program.now.linked) first.now))) }
{
    match first {
        Start::Empty => Ok(Counted::plain(Weight::of(0))),
        Start::Expression(x) => {
            let points = expression(program, &mut known.expressions, *x)?;
            Ok(Counted::plain(points))
        }
        Start::Declaration(d) => declaration(program, known, *d),
    }
}

/// The test of a `for`, which has a point of its own, if there is one.
fn test_weight(
    program: &Program,
    known: &mut Known,
    test: Option<ExprId>,
) -> Result<Weight, OutOfMemory>
    requires fits { fit.fits_if_any (fit.expression_fits (numbers program.now.linked)) test ≡ true }
    requires known { IsKnown program.now.linked known.old }
    ensures known { OnOk result (IsKnown program.now.linked known.new) }
    ensures is { IfOk result (λ w. Weighs w.0
        (spec.tested_points (table.plain_expression (body_readings program.now.linked) test))) }
{
    match test {
        None => Ok(Weight::of(0)),
        Some(x) => {
            let points = expression(program, &mut known.expressions, x)?;
            Ok(Weight::of(1).and(points))
        }
    }
}

/// The step of a `for`, if there is one.
fn step_weight(
    program: &Program,
    known: &mut Known,
    step: Option<ExprId>,
) -> Result<Weight, OutOfMemory>
    requires fits { fit.fits_if_any (fit.expression_fits (numbers program.now.linked)) step ≡ true }
    requires known { IsKnown program.now.linked known.old }
    ensures known { OnOk result (IsKnown program.now.linked known.new) }
    ensures is { IfOk result (λ w. Weighs w.0
        (spec.stepped_points (table.plain_expression (body_readings program.now.linked) step))) }
{
    match step {
        None => Ok(Weight::of(0)),
        Some(x) => {
            let points = expression(program, &mut known.expressions, x)?;
            Ok(points)
        }
    }
}

/// A statement of an expression alone.
fn evaluated(program: &Program, known: &mut Known, x: ExprId) -> Result<Counted, OutOfMemory>
    requires there { x.0 < length program.now.linked.exprs }
    requires known { IsKnown program.now.linked known.old }
    ensures known { OnOk result (IsKnown program.now.linked known.new) }
    ensures is { IfOk result (λ c. IsCounted c
        (2 + spec.expression_points (tree program.now.linked x.0)) false) }
{
    let points = expression(program, &mut known.expressions, x)?;
    Ok(Counted::plain(Weight::of(2).and(points)))
}

/// Statements under a controlling expression, which has a test.
fn controlled(
    program: &Program,
    known: &mut Known,
    x: ExprId,
    parts: Counted,
) -> Result<Counted, OutOfMemory>
    requires there { x.0 < length program.now.linked.exprs }
    requires known { IsKnown program.now.linked known.old }
    ensures known { OnOk result (IsKnown program.now.linked known.new) }
    ensures is { IfOk result (λ c. (n : ℕ) (b : Bool) → IsCounted parts n b → IsCounted c
        ((3 + spec.expression_points (tree program.now.linked x.0)) + n) b) }
{
    let points = expression(program, &mut known.expressions, x)?;
    Ok(parts.after(Weight::of(3).and(points)))
}

/// A `for` over its body.
fn iterated(
    program: &Program,
    known: &mut Known,
    first: &Start,
    test: Option<ExprId>,
    step: Option<ExprId>,
    body: Counted,
) -> Result<Counted, OutOfMemory>
    requires start { fit.start_fits (numbers program.now.linked) first.now ≡ true }
    requires test { fit.fits_if_any (fit.expression_fits (numbers program.now.linked)) test ≡ true }
    requires step { fit.fits_if_any (fit.expression_fits (numbers program.now.linked)) step ≡ true }
    requires known { IsKnown program.now.linked known.old }
    ensures known { OnOk result (IsKnown program.now.linked known.new) }
    ensures is { IfOk result (λ c. (n : ℕ) (b : Bool) → IsCounted body n b → IsCounted c
        (spec.start_points (table.plain_start (body_readings program.now.linked) first.now)
        + ((2 + (spec.tested_points (table.plain_expression (body_readings program.now.linked) test)
        + spec.stepped_points (table.plain_expression (body_readings program.now.linked) step))) + n))
        (status.status_in_start (table.plain_start (body_readings program.now.linked) first.now) || b)) }
{
    let begun = start_count(program, known, first)?;
    let tested = test_weight(program, known, test)?;
    let stepped = step_weight(program, known, step)?;
    let around = Weight::of(2).and(tested.and(stepped));
    Ok(begun.and(body.after(around)))
}

/// A statement after a label, of those that are counted.
fn labelled(program: &Program, counted: &[Counted], s: StmtId) -> Counted
    requires there { s.0 < length counted.now }
    requires count { StatementsCount program.now.linked counted.now }
    ensures { IsCounted result
        (2 + spec.statement_points (statement_at (body_readings program.now.linked) program.now.linked.stmts s.0))
        (status.status_in_statement (statement_at (body_readings program.now.linked) program.now.linked.stmts s.0)) }
{
    part(program, counted, s).after(Weight::of(2))
}

/// A statement over those before it.
#[tactic(auto, unfolding(ck_tables::specs::Numbers::statement_node_fits))]
fn node_count(
    program: &Program,
    known: &mut Known,
    counted: &[Counted],
    node: &StmtNode,
) -> Result<Counted, OutOfMemory>
    requires there { table.reads_below (length counted.now) node.now ≡ true }
    requires fits { fit.statement_node_fits (numbers program.now.linked) node.now ≡ true }
    requires count { StatementsCount program.now.linked counted.now }
    requires known { IsKnown program.now.linked known.old }
    ensures known { OnOk result (IsKnown program.now.linked known.new) }
    ensures is { IfOk result (λ c. IsCounted c
        (spec.statement_points (table.make (body_readings program.now.linked)
        (statement_at (body_readings program.now.linked) program.now.linked.stmts) node.now))
        (status.status_in_statement (table.make (body_readings program.now.linked)
        (statement_at (body_readings program.now.linked) program.now.linked.stmts) node.now))) }
{
    match node {
        StmtNode::Block { items: row, .. } => {
            let inside = items_count(program, known, counted, row.as_slice())?;
            Ok(inside.after(Weight::of(2)))
        }
        StmtNode::Empty { .. } => Ok(Counted::plain(Weight::of(2))),
        StmtNode::Expression { value } => evaluated(program, known, *value),
        StmtNode::If {
            test,
            controlled: s,
            ..
        } => { controlled(program, known, *test, part(program, counted, *s)) }
        StmtNode::IfElse {
            test,
            controlled: s,
            otherwise,
            ..
        } => {
            let first = part(program, counted, *s);
            let second = part(program, counted, *otherwise);
            controlled(program, known, *test, first.and(second))
        }
        StmtNode::Switch { value, body, .. } => {
            controlled(program, known, *value, part(program, counted, *body))
        }
        StmtNode::While { test, body, .. } => {
            controlled(program, known, *test, part(program, counted, *body))
        }
        StmtNode::Do { body, test, .. } => {
            controlled(program, known, *test, part(program, counted, *body))
        }
        StmtNode::For {
            start: first,
            test,
            step,
            body,
            ..
        } => {
            iterated(
                program,
                known,
                first,
                *test,
                *step,
                part(program, counted, *body),
            )
        }
        StmtNode::Case { labelled: s, .. } => Ok(labelled(program, counted, *s)),
        StmtNode::Default { labelled: s, .. } => Ok(labelled(program, counted, *s)),
        StmtNode::Label { labelled: s, .. } => Ok(labelled(program, counted, *s)),
        StmtNode::Goto { .. } => Ok(Counted::plain(Weight::of(2))),
        StmtNode::Jump { .. } => Ok(Counted::plain(Weight::of(2))),
        StmtNode::Return { .. } => Ok(Counted::plain(Weight::of(2))),
        StmtNode::ReturnValue { value, .. } => evaluated(program, known, *value),
    }
}

/// Counts a statement. Those of smaller numbers are counted before it, each once.
fn count_up_to(
    program: &Program,
    known: &mut Known,
    counted: &mut Vec<Counted>,
    s: StmtId,
) -> Result<(), OutOfMemory>
    requires there { s.0 < length program.now.linked.stmts }
    requires count { StatementsCount program.now.linked counted.old.items }
    requires known { IsKnown program.now.linked known.old }
    ensures known { OnOk result (IsKnown program.now.linked known.new) }
    ensures count { OnOk result (StatementsCount program.now.linked counted.new.items) }
    ensures more { OnOk result (length counted.old.items ≤ length counted.new.items) }
    ensures there { OnOk result (s.0 < length counted.new.items) }
{
    'nodes: while counted.len() <= s.0 as usize {
        let next = program.statement(StmtId(counted.len() as u32));
        let count = node_count(program, known, counted.as_slice(), next)?;
        counted.push(count)?;
    }
    Ok(())
}

/// Counts the statements among items.
pub(crate) fn count_items(
    program: &Program,
    known: &mut Known,
    counted: &mut Vec<Counted>,
    row: &[Item],
) -> Result<(), OutOfMemory>
    requires fit { list_all (fit.item_fits (numbers program.now.linked)) row.now ≡ true }
    requires count { StatementsCount program.now.linked counted.old.items }
    requires known { IsKnown program.now.linked known.old }
    ensures known { OnOk result (IsKnown program.now.linked known.new) }
    ensures count { OnOk result (StatementsCount program.now.linked counted.new.items) }
    ensures there { OnOk result (table.items_below (length counted.new.items) row.now ≡ true) }
{
    let mut left = row.len();
    'each: while 0 < left {
        left -= 1;
        if let Item::Statement(s) = row[left] {
            count_up_to(program, known, counted, s)?;
        }
    }
    Ok(())
}
