//! The exits that a path's segments lead to: those that the way back from its end cites, those that
//! these cite, and so on.
ghost use Rattle.std.specs.Prelude.{
  ◌≡◌,
  ◌<◌,
  ◌^◌,
  ℕ,
  length,
  IfOk,
  OnOk,
  MatchOption,
};
ghost use Rattle.ck_paths.specs.Justified.{AreJustified};
ghost use Rattle.ck_paths.specs.Citing.{
  AreExitsFor,
  IsIn,
  AddsExit,
  AddsCited,
  TakesGreatest,
  GoesBack,
  Cites,
};

use crate::found::{Found, Reason};
use ck_base::OutOfMemory;
use ck_graph::{Graph, Root};
use std::alloc::Global;
use std::collections::BTreeSet;

/// The place at which the way back goes on, and the exit of the call that it goes over, if it does.
#[derive(Clone, Copy)]
struct Back {
    from: u32,
    exit: Option<u32>,
}

/// All exits that segments of a path to this place lead to, in the order of their numbers. So each comes
/// after those that its segment cites. They are found from the greatest on: an exit cites lower ones
/// alone, so none comes back, and only what the path needs is looked at.
pub(crate) fn exits_for(
    alloc: Global,
    graph: &Graph,
    roots: &[Root],
    found: &Found,
    number: u32,
) -> Result<Vec<u32>, OutOfMemory>
    requires justified { AreJustified graph.now roots.now found.now.places.items }
    requires there { number < length found.now.places.items }
    ensures { IfOk result (λ exits. AreExitsFor graph.now found.now.places.items number exits.items) }
{
    let mut pending = BTreeSet::new(alloc);
    add_cited(graph, roots, found, &mut pending, number, true)?;
    let mut exits = Vec::new(alloc);
    'exits: while let Some(exit) = take_greatest(&mut pending) {
        if exits.len() >= u32::MAX as usize {
            return Err(OutOfMemory);
        }
        exits.push(exit)?;
        add_cited(graph, roots, found, &mut pending, exit, false)?;
    }
    exits.reverse();
    Ok(exits)
}

/// Takes the greatest number out of a set.
fn take_greatest(pending: &mut BTreeSet<u32>) -> Option<u32>
    ensures { MatchOption
        result
        ((x : ℕ) → IsIn pending.old x → ⊥)
        (λ greatest. TakesGreatest greatest pending.old pending.new) }
{
    pending.pop_last()
}

/// Adds the exits that the way back from a place cites to a set. Where `on`, the way goes on in the
/// callers, to a root; else it ends where the place's function is entered.
fn add_cited(
    graph: &Graph,
    roots: &[Root],
    found: &Found,
    pending: &mut BTreeSet<u32>,
    number: u32,
    on: bool,
) -> Result<(), OutOfMemory>
    requires justified { AreJustified graph.now roots.now found.now.places.items }
    requires there { number < length found.now.places.items }
    ensures { OnOk result (AddsCited found.now.places.items on number pending.old pending.new) }
{
    let mut at = number;
    'back: while let Some(back) = before(graph, roots, found, at, on) {
        add_exit(pending, back.exit)?;
        at = back.from;
    }
    Ok(())
}

/// Adds an exit to a set, if there is one.
fn add_exit(pending: &mut BTreeSet<u32>, exit: Option<u32>) -> Result<(), OutOfMemory>
    ensures { OnOk result (AddsExit exit pending.old pending.new) }
{
    if let Some(exit) = exit {
        pending.insert(exit)?;
    }
    Ok(())
}

/// Where the way back from a place goes on.
fn before(graph: &Graph, roots: &[Root], found: &Found, at: u32, on: bool) -> Option<Back>
    requires justified { AreJustified graph.now roots.now found.now.places.items }
    requires there { at < length found.now.places.items }
    ensures { MatchOption
        result
        ((x : ℕ) → Cites found.now.places.items on at x → ⊥)
        (λ back. GoesBack found.now.places.items on at back.from back.exit) }
{
    match found.places[at as usize].reason {
        Reason::ByEdge(from, _) => Some(Back { from, exit: None }),
        Reason::OverCall(from, exit) => Some(Back {
            from,
            exit: Some(exit),
        }),
        Reason::IntoCall(from) => {
            if on {
                Some(Back { from, exit: None })
            } else {
                None
            }
        }
        Reason::AtRoot(_) => None,
    }
}
