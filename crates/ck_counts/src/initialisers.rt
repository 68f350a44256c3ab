//! The weights of a project's initialisers.
ghost use Rattle.std.specs.Prelude.{◌≡◌, ◌<◌, [], true, length, IfOk, OnOk};
ghost use Rattle.ck_counts.specs.BodyPoints.{initialiser_points, initialisers_points};
ghost use Rattle.ck_counts.specs.Rows.{element_number};
ghost use Rattle.ck_counts.specs.Weights.{Weighs, InitialisersWeigh, IsKnown};
ghost use Rattle.ck_tables.specs.InitTable as table;
ghost use Rattle.ck_tables.specs.InitTable.{init_at};
ghost use Rattle.ck_tables.specs.Numbers.{numbers, initialiser_node_fits};
ghost use Rattle.ck_tables.specs.Program.{with_expressions};

use crate::expressions::expression;
use crate::operands::Weighed;
use crate::weights::Weight;
use ck_base::OutOfMemory;
use ck_tables::{InitId, InitItem, InitNode, Program};
use std::alloc::Global;

/// The weights of expressions and of initialisers, each from number 0 on.
#[derive(Drop)]
pub(crate) struct Known {
    pub(crate) expressions: Vec<Weighed>,
    pub(crate) initialisers: Vec<Weight>,
}

impl Known {
    /// None yet.
    pub(crate) fn new(alloc: Global) -> Known
        ensures expressions { result.expressions.items ≡ [] }
        ensures initialisers { result.initialisers.items ≡ [] }
    {
        Known {
            expressions: Vec::new(alloc),
            initialisers: Vec::new(alloc),
        }
    }
}

/// An initialiser of braces among those that are weighed.
fn element(program: &Program, weights: &[Weight], item: &InitItem) -> Weight
    requires there { table.item_below (length weights.now) item.now ≡ true }
    requires weigh { InitialisersWeigh program.now.linked weights.now }
    ensures { Weighs result.0 (initialiser_points
        (init_at (with_expressions program.now.linked) program.now.linked.inits (element_number item.now))) }
{
    match item {
        InitItem::Plain { initialiser } => weights[initialiser.0 as usize],
        InitItem::Designated { initialiser, .. } => weights[initialiser.0 as usize],
    }
}

/// The initialisers in braces.
fn elements(program: &Program, weights: &[Weight], row: &[InitItem]) -> Weight
    requires there { table.row_below (length weights.now) row.now ≡ true }
    requires weigh { InitialisersWeigh program.now.linked weights.now }
    ensures { Weighs result.0 (initialisers_points (table.row_of (with_expressions program.now.linked)
        (init_at (with_expressions program.now.linked) program.now.linked.inits) row.now)) }
{
    let mut sum = Weight::of(0);
    let mut left = row.len();
    'each: while 0 < left {
        left -= 1;
        sum = element(program, weights, &row[left]).and(sum);
    }
    sum
}

/// An initialiser over those before it. That of an object of static storage duration is evaluated before the program
/// starts.
#[tactic(auto, unfolding(ck_tables::specs::Numbers::initialiser_node_fits))]
fn node_weight(program: &Program, known: &mut Known, node: &InitNode) -> Result<Weight, OutOfMemory>
    requires there { table.reads_below (length known.old.initialisers.items) node.now ≡ true }
    requires fits { initialiser_node_fits (numbers program.now.linked) node.now ≡ true }
    requires known { IsKnown program.now.linked known.old }
    ensures known { OnOk result (IsKnown program.now.linked known.new) }
    ensures same { OnOk result (known.new.initialisers.items ≡ known.old.initialisers.items) }
    ensures is { IfOk result (λ w. Weighs w.0 (initialiser_points (table.make
        (with_expressions program.now.linked)
        (init_at (with_expressions program.now.linked) program.now.linked.inits) node.now))) }
{
    match node {
        InitNode::Value { facts, value } => {
            if facts.in_static {
                return Ok(Weight::of(0));
            }
            let points = expression(program, &mut known.expressions, *value)?;
            Ok(points)
        }
        InitNode::Braces { facts, row } => {
            if facts.in_static {
                return Ok(Weight::of(0));
            }
            Ok(elements(program, known.initialisers.as_slice(), row.as_slice()))
        }
    }
}

/// The weight of an initialiser. Those of smaller numbers are weighed before it, each once.
pub(crate) fn initialiser(
    program: &Program,
    known: &mut Known,
    i: InitId,
) -> Result<Weight, OutOfMemory>
    requires there { i.0 < length program.now.linked.inits }
    requires known { IsKnown program.now.linked known.old }
    ensures known { OnOk result (IsKnown program.now.linked known.new) }
    ensures is { IfOk result (λ w. Weighs w.0 (initialiser_points
        (init_at (with_expressions program.now.linked) program.now.linked.inits i.0))) }
{
    'nodes: while known.initialisers.len() <= i.0 as usize {
        let next = program.initialiser(InitId(known.initialisers.len() as u32));
        let weight = node_weight(program, known, next)?;
        known.initialisers.push(weight)?;
    }
    Ok(known.initialisers[i.0 as usize])
}
