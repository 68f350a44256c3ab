//! The order of calls: by function, and then by path.
ghost use Rattle.std.specs.Prelude.{◌≡◌, suc, [], ◌∷◌, ◌++◌};
ghost use Rattle.std.specs.Cmp.Lexicographic.{slice_cmp};
ghost use Rattle.std.specs.Ordering.{nat_cmp};
ghost use Rattle.ck_kinds.specs.CallOrder as spec;
ghost use Rattle.ck_call_rows.specs.TypedRows.{place_of_row};

use ck_base::FnId;
use ck_tables::CallInfo;
use std::cmp::Ordering;

/// How a call is ordered against a path of a function.
pub(crate) fn compare(call: &CallInfo, function: FnId, path: &[u32]) -> Ordering
    ensures { result ≡ spec.against (spec.call_place function.0 path.now) (place_of_row call.now) }
{
    let functions = call.function.0.cmp(&function.0);
    functions.then_with(|| compare_paths(call.path.as_slice(), call.suffix, path))
}

/// How the path of a suffix is ordered against another, where that of its row is given; suffixes count from 0.
fn compare_paths(row: &[u32], suffix: u32, path: &[u32]) -> Ordering
    ensures { result ≡ slice_cmp nat_cmp (row.now ++ suc suffix ∷ []) path.now }
{
    let shared = row.len().min(path.len());
    let (front, rest) = path.split_at(shared);
    row.cmp(front).then_with(|| compare_last(suffix, rest))
}

/// How the step of a suffix is ordered against the rest of a path.
fn compare_last(suffix: u32, rest: &[u32]) -> Ordering
    ensures { result ≡ slice_cmp nat_cmp (suc suffix ∷ []) rest.now }
{
    match rest {
        [] => Ordering::Greater,
        [step, after @ ..] => {
            let last = suffix as u64 + 1;
            last.cmp(&(*step as u64)).then(0usize.cmp(&after.len()))
        }
    }
}
