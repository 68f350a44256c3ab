//! From a place back to where its function is entered.
ghost use Rattle.std.specs.Prelude.{◌≡◌, ◌<◌, ◌^◌, ℕ, length, false, Some, slice_get, IfOk, MatchOption};
ghost use Rattle.ck_paths.specs.Justified.{AreJustified};
ghost use Rattle.ck_paths.specs.Citing.{Cites, IsListed, AreAscending, IsAtExit};
ghost use Rattle.ck_paths.specs.Search.{IsReady};
ghost use Rattle.ck_paths.specs.Tracing.{LeadsFrom, IsEntryAt, IsTraced};

use crate::found::{Found, Reason};
use ck_base::OutOfMemory;
use ck_graph::{Graph, Root};
use ck_segments::Step;
use std::alloc::Global;

/// A step, and the number of the place from which it leads.
#[derive(Clone, Copy)]
struct StepBack {
    step: Step,
    from: u32,
}

/// The number of the segment that leads to this exit.
fn segment_of(exits: &[u32], exit: u32) -> u32
    requires few { length exits.now < 2 ^ 32 }
    requires ascending { AreAscending exits.now }
    ensures { IsListed exits.now exit → slice_get exits.now result ≡ Some exit }
{
    match exits.binary_search(&exit) {
        Ok(segment) => segment as u32,
        Err(_) => 0,
    }
}

/// The step that leads to a place, and nothing where its function is entered there.
fn step_before(
    graph: &Graph,
    roots: &[Root],
    found: &Found,
    exits: &[u32],
    at: u32,
) -> Option<StepBack>
    requires ready { IsReady graph.now found.now.places.items found.now.last.items }
    requires justified { AreJustified graph.now roots.now found.now.places.items }
    requires there { at < length found.now.places.items }
    requires few { length exits.now < 2 ^ 32 }
    requires ascending { AreAscending exits.now }
    requires cited { (x : ℕ) → Cites found.now.places.items false at x → IsListed exits.now x }
    ensures { MatchOption
        result
        (IsEntryAt graph.now found.now.places.items at)
        (λ back. LeadsFrom graph.now found.now.places.items exits.now at back.from back.step) }
{
    match found.places[at as usize].reason {
        Reason::AtRoot(_) => None,
        Reason::IntoCall(_) => None,
        Reason::ByEdge(from, edge) => Some(StepBack {
            step: Step::Edge(edge),
            from,
        }),
        Reason::OverCall(from, exit) => {
            let target = graph.function(found.places[exit as usize].point);
            let segment = segment_of(exits, exit);
            Some(StepBack {
                step: Step::Call { target, segment },
                from,
            })
        }
    }
}

/// The steps of a call, and the number of the place where its function is entered.
#[derive(Drop)]
pub(crate) struct Traced {
    pub(crate) steps: Vec<Step>,
    pub(crate) entry: u32,
}

/// The steps that lead to a place from where its function is entered. `exits` are the exits whose
/// segments the steps may cite.
pub(crate) fn steps_to(
    alloc: Global,
    graph: &Graph,
    roots: &[Root],
    found: &Found,
    exits: &[u32],
    number: u32,
) -> Result<Traced, OutOfMemory>
    requires ready { IsReady graph.now found.now.places.items found.now.last.items }
    requires justified { AreJustified graph.now roots.now found.now.places.items }
    requires there { number < length found.now.places.items }
    requires few { length exits.now < 2 ^ 32 }
    requires ascending { AreAscending exits.now }
    requires cited { (x : ℕ) → Cites found.now.places.items false number x → IsListed exits.now x }
    ensures traced { IfOk
        result
        (λ traced. IsTraced graph.now found.now.places.items exits.now traced.entry number traced.steps.items) }
    ensures entry { IfOk result (λ traced. IsEntryAt graph.now found.now.places.items traced.entry) }
{
    let mut steps = Vec::new(alloc);
    let mut at = number;
    'back: while let Some(back) = step_before(graph, roots, found, exits, at) {
        steps.push(back.step)?;
        at = back.from;
    }
    steps.reverse();
    Ok(Traced { steps, entry: at })
}
