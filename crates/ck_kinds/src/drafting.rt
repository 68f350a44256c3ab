//! Drafts of the points of a function.
ghost use Rattle.std.specs.Prelude.{◌≡◌, ◌<◌, length, map, Some, IfOk, slice_get};
ghost use Rattle.ck_drafts.specs.Drafts.{plain_draft};
ghost use Rattle.ck_kinds.specs.Callers as spec;
ghost use Rattle.ck_kinds.specs.KindedDrafts.{drafted};
ghost use Rattle.ck_prog.specs.TypedBodies.{TypedFunction};
ghost use Rattle.ck_tables.specs.Program.{functions};
ghost use Rattle.ck_call_rows.specs.TypedRows.{AreTypedCalls};

use crate::callers::Caller;
use ck_base::{FnId, OutOfMemory};
use ck_drafts::Draft;
use ck_passages::PassagePoint;
use ck_tables::Program;
use std::alloc::Global;

/// The drafts of points of a function, in the same order: each with its kind, and with its place, its site and its
/// edges as they were.
///
/// The rows of calls are those of a typed project, and the function is one of the project. A point that calls a number
/// that no declaration has calls no name. The only error is want of memory; it is met too where there are 2^32 calls or
/// more.
pub fn drafts_of(
    alloc: Global,
    program: &Program,
    function: FnId,
    points: Vec<PassagePoint>,
) -> Result<Vec<Draft>, OutOfMemory>
    requires typed { AreTypedCalls program.now.linked program.now.rows }
    requires there { function.0 < length (functions program.now.linked) }
    ensures { (f : TypedFunction) → slice_get (functions program.now.linked) function.0 ≡ Some f →
        IfOk result (λ drafts. map plain_draft drafts.items
        ≡ map (drafted program.now.linked program.now.rows function.0 f) points.items) }
{
    let Ok(calls) = u32::try_from(program.calls()) else {
        return Err(OutOfMemory);
    };
    let caller = Caller {
        program,
        calls,
        function,
    };
    caller.drafts(alloc, points)
}

impl Caller<'_> {
    /// The drafts of points of the function.
    fn drafts(&self, alloc: Global, points: Vec<PassagePoint>) -> Result<Vec<Draft>, OutOfMemory>
        requires { spec.IsCaller self.now }
        ensures { (f : TypedFunction) → slice_get (functions (spec.tables self.now)) self.now.function.0 ≡ Some f →
            IfOk result (λ drafts. map plain_draft drafts.items ≡ map (spec.draft_of self.now f) points.items) }
    {
        let mut drafts = Vec::new(alloc);
        'points: for point in points {
            drafts.push(self.draft(point))?;
        }
        Ok(drafts)
    }

    /// The draft of a point of the function.
    fn draft(&self, point: PassagePoint) -> Draft
        requires { spec.IsCaller self.now }
        ensures { (f : TypedFunction) → slice_get (functions (spec.tables self.now)) self.now.function.0 ≡ Some f →
            plain_draft result ≡ spec.draft_of self.now f point }
    {
        let PassagePoint {
            at,
            happening,
            site,
            edges,
        } = point;
        let kind = self.kind_of(at.path.as_slice(), happening);
        Draft {
            at,
            kind,
            site,
            edges,
        }
    }
}
