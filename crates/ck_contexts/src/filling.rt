//! Call targets, filled in by the numbers of calls.
ghost use Rattle.std.specs.Prelude.{◌≡◌, ℕ, List, IfOk, OnOk};
ghost use Rattle.ck_base.specs.declared.spans.FnId.{FnId};
ghost use Rattle.ck_graph.specs.Flow.{flow_of, point_of};
ghost use Rattle.ck_contexts.specs.Extended as spec;

use ck_base::{FnId, OutOfMemory};
use ck_graph::{Parts, PointKind, PointPart};
use std::alloc::Global;

/// The targets of calls.
pub trait CallTargets {
    /// For the number of a call, the functions that it may enter.
    ghost targets: { Self → ℕ → List FnId };

    /// The functions that the call of this number may enter. It takes no memory.
    fn of_call(&self, call: u32) -> &[FnId]
        ensures { result.now ≡ targets self.now call };
}

/// The parts in which the targets of each call point are those of its number, and all else is as it was. It fails
/// where memory runs out, and for no other cause.
pub fn filled<T: CallTargets>(
    alloc: Global,
    parts: Parts,
    targets: &T,
) -> Result<Parts, OutOfMemory>
    ensures { IfOk result (λ whole. flow_of whole ≡ spec.filled (T.targets targets.now) (flow_of parts)) }
{
    let mut parts = parts;
    for point in parts.points.iter_mut() {
        fill(alloc, point, targets)?;
    }
    Ok(parts)
}

/// Gives a call point its targets, and leaves any other.
fn fill<T: CallTargets>(
    alloc: Global,
    point: &mut PointPart,
    targets: &T,
) -> Result<(), OutOfMemory>
    ensures { OnOk result (point_of point.new ≡ spec.with_targets (T.targets targets.now) (point_of point.old)) }
{
    if let PointKind::Call(call) = point.kind {
        point.targets = Vec::from_slice(alloc, targets.of_call(call))?;
    }
    Ok(())
}
