//! The worklist: which points are still to be looked at.
ghost use Rattle.std.specs.Prelude.{
  ◌≡◌,
  ◌<◌,
  ◌≤◌,
  ◌+◌,
  ◌⊎◌,
  ℕ,
  length,
  slice_index,
  MatchOption,
  Some,
  IfOk,
};
ghost use Rattle.ck_summary.specs.Listing.{IsListed, size_of};

use ck_base::OutOfMemory;
use std::alloc::Global;
use std::marker::Model;

/// A set of numbers below a size, from which the one that came last is taken first. It is a
/// permutation of the numbers with its inverse, of which the first `count` are in the set, so it
/// needs no room for more, and no flag beside it.
#[derive(Debug, Drop)]
pub(crate) struct Worklist {
    order: Vec<u32>,
    place: Vec<u32>,
    count: usize,
}

impl Model for Worklist {
    ghost use Rattle.ck_summary.specs.Listing.{Listing, IsInverse};

    ghost Value = { Listing };

    ghost view = { λ w. record { order = w.order.items; place = w.place.items; count = w.count } };

    ghost invariant = { λ w. IsInverse (record { order = w.order.items; place = w.place.items; count = w.count }) };
}

impl Worklist {
    /// A worklist of the numbers below a size, with nothing listed.
    pub(crate) fn new(alloc: Global, size: u32) -> Result<Worklist, OutOfMemory>
        ensures size { IfOk result (λ listed. size_of listed ≡ size) }
    {
        let order = numbers_below(alloc, size)?;
        let place = numbers_below(alloc, size)?;
        Ok(Worklist {
            order,
            place,
            count: 0,
        })
    }

    /// Lists a number.
    pub(crate) fn put(&mut self, number: u32)
        requires { number < size_of self.old }
        ensures there { IsListed self.new number }
        ensures kept { (p : ℕ) → IsListed self.old p → IsListed self.new p }
        ensures count { self.new.count ≤ self.old.count + 1 }
        ensures size { size_of self.new ≡ size_of self.old }
    {
        let at = self.place[number as usize] as usize;
        if at >= self.count {
            let count = self.count;
            let other = self.order[count];
            self.order[at] = other;
            self.place[other as usize] = at as u32;
            self.order[count] = number;
            self.place[number as usize] = count as u32;
            self.count = count + 1;
        }
    }

    /// Takes the listed number that came last.
    pub(crate) fn take(&mut self) -> Option<u32>
        ensures taken { MatchOption
            result
            (self.old.count ≡ 0)
            (λ p. IsListed self.old p × (p < size_of self.old) × (self.new.count + 1 ≡ self.old.count)) }
        ensures size { size_of self.new ≡ size_of self.old }
        ensures others { (p : ℕ) → IsListed self.old p → IsListed self.new p ⊎ (result ≡ Some p) }
    {
        if self.count == 0 {
            None
        } else {
            self.count -= 1;
            Some(self.order[self.count])
        }
    }
}

/// The numbers below a size, in order.
fn numbers_below(alloc: Global, size: u32) -> Result<Vec<u32>, OutOfMemory>
    ensures length { IfOk result (λ numbers. length numbers.items ≡ size) }
    ensures each { IfOk result (λ numbers. (k : ℕ) → k < size → slice_index numbers.items k ≡ k) }
{
    let mut numbers = Vec::new(alloc);
    for number in 0..size {
        numbers.push(number)?;
    }
    Ok(numbers)
}
