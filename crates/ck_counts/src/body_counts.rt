//! What of declarations and statements bears on how many points their function has.
ghost use Rattle.std.specs.Prelude.{◌+◌, ◌||◌, ℕ, Bool, false};
ghost use Rattle.ck_counts.specs.Weights.{Weighs, IsCounted};

use crate::weights::Weight;

/// How many points there are, and whether a variable is declared that keeps the kernel's status.
#[derive(Clone, Copy)]
pub(crate) struct Counted {
    pub(crate) points: Weight,
    pub(crate) keeps_status: bool,
}

impl Counted {
    /// Points alone.
    pub(crate) fn plain(points: Weight) -> Counted
        ensures { (n : ℕ) → Weighs points.0 n → IsCounted result n false }
    {
        Counted {
            points,
            keeps_status: false,
        }
    }

    /// With points before its own.
    pub(crate) fn after(self, points: Weight) -> Counted
        ensures { (m n : ℕ) (b : Bool) → Weighs points.0 m → IsCounted self n b → IsCounted result (m + n) b }
    {
        Counted {
            points: points.and(self.points),
            keeps_status: self.keeps_status,
        }
    }

    /// One and another.
    pub(crate) fn and(self, other: Counted) -> Counted
        ensures { (m n : ℕ) (b d : Bool) → IsCounted self m b → IsCounted other n d →
            IsCounted result (m + n) (b || d) }
    {
        Counted {
            points: self.points.and(other.points),
            keeps_status: self.keeps_status || other.keeps_status,
        }
    }
}
