//! The limit of points.
ghost use Rattle.std.specs.Prelude.{◌≡◌, ◌<◌, ◌^◌, List, length, slice_get, Some, None, IfSome, IfNone};
ghost use Rattle.ck_points.specs.Graphs.{most_points, passing_limit};
ghost use Rattle.ck_prog.specs.TypedBodies.{TypedFunction};
ghost use Rattle.ck_numbering.specs.Counts.{AreCounts};

use ck_base::FnId;

/// The most points that a project may have.
const MOST_POINTS: u32 = 400_000;

/// The function with which the sum of points passes the limit of 400,000, if it does: a project with more points is
/// refused at that function's name (U20). `counts` has the number of points of each function, in the order of their
/// numbers; a number above the limit stands for any other above it.
pub fn function_past_limit(counts: &[u32]) -> Option<FnId>
    requires { length counts.now < 2 ^ 32 }
    ensures none { IfNone result ((fs : List TypedFunction) → AreCounts fs counts.now → passing_limit fs ≡ None) }
    ensures some { IfSome result (λ id.
        (fs : List TypedFunction) → AreCounts fs counts.now →
        (f : TypedFunction) × (slice_get fs id.0 ≡ Some f) × (passing_limit fs ≡ Some f)) }
{
    let mut sum = 0;
    'counts: for (number, count) in counts.iter().enumerate() {
        if *count > MOST_POINTS - sum {
            return Some(FnId(number as u32));
        }
        sum += *count;
    }
    None
}
