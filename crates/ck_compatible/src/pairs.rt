//! The pairs of numbers that have to agree where two numbers do.
ghost use Rattle.std.specs.Prelude.{◌≡◌, ◌<◌, ◌+◌, ◌^◌, length, slice_get, IfOk, IfNone, IfSome, OnOk};
ghost use Rattle.ck_compatible.specs.Pairs as spec;

use crate::agreement::{agree, named_list, named_type};
use ck_base::OutOfMemory;
use ck_types::{Node, Types};
use indexmap::IndexSet;
use std::alloc::Global;

/// All pairs of different numbers that have to agree where the numbers `a` and `b` do, or none where two of them don't
/// agree.
pub fn agreeing_pairs(
    types: &Types,
    alloc: Global,
    a: u32,
    b: u32,
) -> Result<Option<IndexSet<(u32, u32)>>, OutOfMemory>
    requires first { a < length types.now }
    requires second { b < length types.now }
    ensures agreeing { IfOk result (λ found. IfSome found (λ pairs. spec.IsClosed types.now a b pairs.keys)) }
    ensures apart { IfOk result (λ found. IfNone found (spec.AreApart types.now a b)) }
{
    let mut pairs = IndexSet::new(alloc);
    pairs.insert((a, b))?;
    let mut at = 0;
    'pairs: while let Some(pair) = pair_at(&pairs, at) {
        let one = types.entry(pair.0);
        let other = types.entry(pair.1);
        if !agree(one, other) {
            return Ok(None);
        }
        put(&mut pairs, one, other)?;
        at += 1;
    }
    Ok(Some(pairs))
}

/// The pair at a place, where one is.
fn pair_at(pairs: &IndexSet<(u32, u32)>, at: usize) -> Option<(u32, u32)>
    ensures pair { result ≡ slice_get pairs.now.keys at }
    ensures small { IfSome result (λ pair. at < 2 ^ 63) }
{
    if at < pairs.len() {
        pairs.get_index(at).copied()
    } else {
        None
    }
}

/// Puts the pairs of what two nodes name to the others.
fn put(pairs: &mut IndexSet<(u32, u32)>, one: Node, other: Node) -> Result<(), OutOfMemory>
    ensures { OnOk result (pairs.new.keys ≡ spec.put_parts pairs.old.keys one other) }
{
    put_pair(pairs, named_type(one), named_type(other))?;
    put_pair(pairs, named_list(one), named_list(other))
}

/// Puts a pair of different numbers to the others, where there are two.
fn put_pair(
    pairs: &mut IndexSet<(u32, u32)>,
    a: Option<u32>,
    b: Option<u32>,
) -> Result<(), OutOfMemory>
    ensures { OnOk result (pairs.new.keys ≡ spec.put_pair pairs.old.keys a b) }
{
    let (Some(a), Some(b)) = (a, b) else {
        return Ok(());
    };
    if a != b {
        pairs.insert((a, b))?;
    }
    Ok(())
}
