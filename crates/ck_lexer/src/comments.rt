//! Comments between `/*` and `*/`.
ghost use Rattle.std.specs.Prelude.{◌≡◌, ◌≤◌, ◌<◌, ℕ, false, true, MatchOption};
ghost use Rattle.ck_lexer.specs.Lexemes as spec;

use crate::runs::{Class, class_run};

/// The offset of the first `*/` after the `/*` that the text begins with.
pub(crate) fn comment_close(rest: &[u8]) -> Option<usize>
    ensures { MatchOption result
        ((k : ℕ) → 2 ≤ k → spec.closes_at rest.now k ≡ false)
        (λ k. (2 ≤ k) × (spec.closes_at rest.now k ≡ true)
        × ((j : ℕ) → 2 ≤ j → j < k → spec.closes_at rest.now j ≡ false)) }
{
    let mut at = 2;
    'stars: while at < rest.len() {
        let star = at + class_run(rest, at, &Class::NotStar);
        if star + 1 >= rest.len() {
            return None;
        }
        if rest[star + 1] == b'/' {
            return Some(star);
        }
        at = star + 1;
    }
    None
}
