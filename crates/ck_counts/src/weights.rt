//! Numbers of points, of which all above the limit are the same.
ghost use Rattle.std.specs.Prelude.{◌≡◌, ◌+◌, ℕ, min};
ghost use Rattle.ck_counts.specs.Extents.{in_orders};
ghost use Rattle.ck_counts.specs.Weights.{Weighs};

/// What stands for all numbers above the limit of 400,000 points.
const MANY: u64 = 400_001;

/// A number of points, or `MANY`.
#[derive(Clone, Copy)]
pub(crate) struct Weight(pub(crate) u32);

impl Weight {
    /// That of a number.
    pub(crate) fn of(points: u64) -> Weight
        ensures { Weighs result.0 points }
    {
        Weight(points.min(MANY) as u32)
    }

    /// That of two numbers together.
    pub(crate) fn and(self, other: Weight) -> Weight
        ensures { (m n : ℕ) → Weighs self.0 m → Weighs other.0 n → Weighs result.0 (m + n) }
    {
        Weight::of(self.0 as u64 + other.0 as u64)
    }

    /// That of operands with so many calls among them, once for each of their orders.
    pub(crate) fn in_orders(self, calls: u8) -> Weight
        ensures { (k n : ℕ) → calls ≡ min k 4 → Weighs self.0 n → Weighs result.0 (in_orders k n) }
    {
        match calls {
            2 => Weight::of(1 + 2 * self.0 as u64),
            3 => Weight::of(1 + 6 * self.0 as u64),
            _ => self,
        }
    }
}
