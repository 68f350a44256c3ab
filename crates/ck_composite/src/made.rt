//! The numbers of the composites of pairs, made one after another.
ghost use Rattle.std.specs.Prelude.{◌≡◌, ◌≤◌, length, slice_index, IfOk};
ghost use Rattle.ck_composite.specs.Made as spec;

use crate::composite_nodes::{composite_node, number_of};
use ck_base::OutOfMemory;
use ck_compatible::{named_list, named_type};
use ck_types::{Node, ParametersId, TypeId, Types};
use indexmap::IndexSet;
use std::alloc::Global;

/// The number that was made for two numbers; that of a number with itself is its own.
pub fn number_made(pairs: &IndexSet<(u32, u32)>, made: &[u32], a: u32, b: u32) -> u32
    ensures { result ≡ spec.number_made pairs.now.keys made.now a b }
{
    if a == b {
        return a;
    }
    match pairs.get_index_of(&(a, b)) {
        Some(at) => number_at(made, at),
        None => 0,
    }
}

/// The number at a place, 0 where there is none.
fn number_at(made: &[u32], at: usize) -> u32
    ensures { result ≡ slice_index made.now at }
{
    if at < made.len() { made[at] } else { 0 }
}

/// The number that was made for two parts, where there are two.
fn part_made(pairs: &IndexSet<(u32, u32)>, made: &[u32], a: Option<u32>, b: Option<u32>) -> u32
    ensures { result ≡ spec.part_made pairs.now.keys made.now a b }
{
    match (a, b) {
        (Some(a), Some(b)) => number_made(pairs, made, a, b),
        _ => 0,
    }
}

/// The node of the composite of what two nodes stand for, over the numbers that were made for their parts.
fn node_made(pairs: &IndexSet<(u32, u32)>, made: &[u32], one: Node, other: Node) -> Node
    ensures { result ≡ spec.node_made pairs.now.keys made.now one other }
{
    let part = part_made(pairs, made, named_type(one), named_type(other));
    let list = part_made(pairs, made, named_list(one), named_list(other));
    composite_node(one, other, TypeId(part), ParametersId(list))
}

/// The numbers of the composites of pairs, at the places of these. A pair comes after those of its parts, so each node
/// is made over numbers that are there.
pub fn numbers_made(
    types: &mut Types,
    alloc: Global,
    pairs: &IndexSet<(u32, u32)>,
) -> Result<Vec<u32>, OutOfMemory>
    requires { spec.AreOrdered types.old pairs.now.keys }
    ensures grown { spec.IsGrown types.old types.new }
    ensures made { IfOk result (λ made. spec.AreMade types.old types.new pairs.now.keys made.items) }
    ensures whole { IfOk result (λ made. length pairs.now.keys ≤ length made.items) }
{
    let mut made = Vec::new(alloc);
    'making: while let Some(pair) = pairs.get_index(made.len()).copied() {
        let one = types.entry(pair.0);
        let other = types.entry(pair.1);
        let node = node_made(pairs, &made, one, other);
        let number = number_of(types, node)?;
        made.push(number)?;
    }
    Ok(made)
}
