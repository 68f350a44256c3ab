//! The calls of each function, by which an exit finds where it returns to.
ghost use Rattle.std.specs.Prelude.{
  ◌≡◌,
  ◌<◌,
  ◌⊎◌,
  ◌↔◌,
  ℕ,
  length,
  All,
  Contains,
  IfOk,
  OnOk,
};
ghost use Rattle.ck_graph.specs.declared.entries.Root.{Root};
ghost use Rattle.ck_base.specs.declared.spans.PointId.{PointId};
ghost use Rattle.ck_summary.specs.Solution.{callers_at, lists_of, AreCallers};
ghost use Rattle.ck_summary.specs.Callers.{AddsCaller};

use ck_base::{FnId, OutOfMemory, PointId};
use ck_graph::{Graph, PointKind};
use std::alloc::Global;

/// For each function, the call points that may enter it.
pub(crate) fn callers_of(alloc: Global, graph: &Graph) -> Result<Vec<Vec<PointId>>, OutOfMemory>
    ensures { IfOk result (λ callers. AreCallers graph.now (lists_of callers.items)) }
{
    let mut callers = no_callers(alloc, graph.functions())?;
    for number in 0..graph.points() {
        let point = PointId(number);
        if let PointKind::Call(_) = graph.kind(point) {
            add_caller(&mut callers, point, graph.targets(point))?;
        }
    }
    Ok(callers)
}

/// For each function, no call point.
fn no_callers(alloc: Global, functions: u32) -> Result<Vec<Vec<PointId>>, OutOfMemory>
    ensures length { IfOk result (λ callers. length (lists_of callers.items) ≡ functions) }
    ensures none { IfOk
        result
        (λ callers. (f : ℕ) (q : PointId) → Contains (callers_at (lists_of callers.items) f) q → ⊥) }
{
    let mut callers = Vec::new(alloc);
    'functions: for _function in 0..functions {
        callers.push(Vec::new(alloc))?;
    }
    Ok(callers)
}

/// Adds a call point to the lists of the functions that it may enter.
fn add_caller(
    callers: &mut Vec<Vec<PointId>>,
    point: PointId,
    targets: &[FnId],
) -> Result<(), OutOfMemory>
    requires { All (λ target. target.0 < length (lists_of callers.old.items)) targets.now }
    ensures { OnOk result (AddsCaller point targets.now (lists_of callers.old.items) (lists_of callers.new.items)) }
{
    for target in targets {
        callers[target.0 as usize].push(point)?;
    }
    Ok(())
}
