//! From the way back of a place to the segments of a path.
ghost use Rattle.std.specs.Prelude.{
  ◌≡◌,
  ◌<◌,
  ◌^◌,
  ℕ,
  length,
  map,
  false,
  true,
  take,
  Some,
  slice_get,
  IfOk,
  MatchOption,
};
ghost use Rattle.ck_base.specs.declared.spans.FnId.{FnId as FnIdOf};
ghost use Rattle.ck_segments.specs.Plain.{segment_of};
ghost use Rattle.ck_paths.specs.declared.found.Place.{Place as PlaceOf};
ghost use Rattle.ck_paths.specs.declared.found.Reason.TheVariants as reason;
ghost use Rattle.ck_paths.specs.Found.{IsAt};
ghost use Rattle.ck_paths.specs.Justified.{AreJustified};
ghost use Rattle.ck_paths.specs.Citing.{Cites, IsListed, AreAscending, IsAtExit};
ghost use Rattle.ck_paths.specs.Search.{IsReady};
ghost use Rattle.ck_paths.specs.Tracing.{
  IsSegmentTo,
  IsSegmentInto,
  AreToExits,
  IsEntryAt,
  IsEnteredFrom,
  AreOpen,
};

use crate::found::{Found, Reason};
use crate::tracing::steps_to;
use ck_base::{FnId, OutOfMemory};
use ck_graph::{Graph, Root};
use ck_segments::{Segment, Step};
use std::alloc::Global;

/// A segment, and the number of the place where its function is entered.
#[derive(Drop)]
struct Part {
    segment: Segment,
    entry: u32,
}

/// The segment that leads to a place from where its function is entered.
fn segment_to(
    alloc: Global,
    graph: &Graph,
    roots: &[Root],
    found: &Found,
    exits: &[u32],
    number: u32,
) -> Result<Part, OutOfMemory>
    requires ready { IsReady graph.now found.now.places.items found.now.last.items }
    requires justified { AreJustified graph.now roots.now found.now.places.items }
    requires there { number < length found.now.places.items }
    requires few { length exits.now < 2 ^ 32 }
    requires ascending { AreAscending exits.now }
    requires cited { (x : ℕ) → Cites found.now.places.items false number x → IsListed exits.now x }
    ensures { IfOk
        result
        (λ part. IsSegmentTo
        graph.now
        found.now.places.items
        exits.now
        part.entry
        number
        (segment_of part.segment)) }
{
    let traced = steps_to(alloc, graph, roots, found, exits, number)?;
    let entry = traced.entry;
    let function = graph.function(found.places[entry as usize].point);
    let segment = Segment {
        function,
        steps: traced.steps,
    };
    Ok(Part { segment, entry })
}

/// The segment that leads to a call at a place, and goes into a function.
fn segment_into(
    alloc: Global,
    graph: &Graph,
    roots: &[Root],
    found: &Found,
    exits: &[u32],
    caller: u32,
    target: FnId,
) -> Result<Part, OutOfMemory>
    requires ready { IsReady graph.now found.now.places.items found.now.last.items }
    requires justified { AreJustified graph.now roots.now found.now.places.items }
    requires there { caller < length found.now.places.items }
    requires few { length exits.now < 2 ^ 32 }
    requires ascending { AreAscending exits.now }
    requires cited { (x : ℕ) → Cites found.now.places.items false caller x → IsListed exits.now x }
    ensures { IfOk
        result
        (λ part. IsSegmentInto
        graph.now
        found.now.places.items
        exits.now
        part.entry
        caller
        target
        (segment_of part.segment)) }
{
    let mut part = segment_to(alloc, graph, roots, found, exits, caller)?;
    part.segment.steps.push(Step::Enter { target })?;
    Ok(part)
}

/// A segment for each exit, which leads through its function and cites those before it.
pub(crate) fn segments_to(
    alloc: Global,
    graph: &Graph,
    roots: &[Root],
    found: &Found,
    exits: &[u32],
) -> Result<Vec<Segment>, OutOfMemory>
    requires ready { IsReady graph.now found.now.places.items found.now.last.items }
    requires justified { AreJustified graph.now roots.now found.now.places.items }
    requires few { length exits.now < 2 ^ 32 }
    requires ascending { AreAscending exits.now }
    requires there { (x : ℕ) → IsListed exits.now x → IsAtExit graph.now found.now.places.items x }
    requires closed { (s e x : ℕ) → slice_get exits.now s ≡ Some e → Cites found.now.places.items false e x →
        IsListed (take s exits.now) x }
    ensures { IfOk
        result
        (λ list. AreToExits graph.now found.now.places.items exits.now (map segment_of list.items)) }
{
    let mut list = Vec::new(alloc);
    'exits: for s in 0..exits.len() {
        let part = segment_to(alloc, graph, roots, found, &exits[..s], exits[s])?;
        list.push(part.segment)?;
    }
    Ok(list)
}

/// The place of the call that enters the function which starts at a place, if a call does.
fn caller_of(found: &Found, entry: u32) -> Option<u32>
    requires { entry < length found.now.places.items }
    ensures { MatchOption
        result
        ((c : ℕ) → IsEnteredFrom found.now.places.items entry c → ⊥)
        (IsEnteredFrom found.now.places.items entry) }
{
    match found.places[entry as usize].reason {
        Reason::IntoCall(caller) => Some(caller),
        _ => None,
    }
}

/// The number of the root that enters its function at a place.
fn root_of(found: &Found, entry: u32) -> u32
    requires { entry < length found.now.places.items }
    ensures { (place : PlaceOf) (k : ℕ) → IsAt found.now.places.items entry place →
        place.reason ≡ reason.AtRoot k → result ≡ k }
{
    match found.places[entry as usize].reason {
        Reason::AtRoot(root) => root,
        _ => 0,
    }
}

/// The segments that lead from a root's function to a place, and the number of the root.
#[derive(Drop)]
pub(crate) struct Opened {
    pub(crate) list: Vec<Segment>,
    pub(crate) entry: u32,
    pub(crate) root: u32,
}

/// The unfinished segments of the path to a place.
pub(crate) fn unfinished(
    alloc: Global,
    graph: &Graph,
    roots: &[Root],
    found: &Found,
    exits: &[u32],
    number: u32,
) -> Result<Opened, OutOfMemory>
    requires ready { IsReady graph.now found.now.places.items found.now.last.items }
    requires justified { AreJustified graph.now roots.now found.now.places.items }
    requires there { number < length found.now.places.items }
    requires few { length exits.now < 2 ^ 32 }
    requires ascending { AreAscending exits.now }
    requires cited { (x : ℕ) → Cites found.now.places.items true number x → IsListed exits.now x }
    ensures open_ones { IfOk
        result
        (λ opened. AreOpen
        graph.now
        found.now.places.items
        exits.now
        opened.entry
        (map segment_of opened.list.items)
        number) }
    ensures root { IfOk
        result
        (λ opened. (place : PlaceOf) × IsAt found.now.places.items opened.entry place ×
        (place.reason ≡ reason.AtRoot opened.root)) }
{
    let mut list = Vec::new(alloc);
    let last = segment_to(alloc, graph, roots, found, exits, number)?;
    list.push(last.segment)?;
    let mut entry = last.entry;
    'callers: while let Some(caller) = caller_of(found, entry) {
        let target = graph.function(found.places[entry as usize].point);
        let part = segment_into(alloc, graph, roots, found, exits, caller, target)?;
        list.push(part.segment)?;
        entry = part.entry;
    }
    list.reverse();
    let root = root_of(found, entry);
    Ok(Opened { list, entry, root })
}
