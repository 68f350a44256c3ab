//! The worklist: which cells are still to be looked at.
ghost use Rattle.std.specs.Prelude.{
  ◌≡◌,
  ◌<◌,
  ◌≤◌,
  ◌+◌,
  ◌⊎◌,
  ℕ,
  length,
  MatchOption,
  Some,
  IfOk,
  OnOk,
};
ghost use Rattle.ck_reaching.specs.Listing.{IsListed, IsNoted, size_of};

use ck_base::OutOfMemory;
use std::alloc::Global;
use std::marker::Model;

/// A set of numbers below a size, from which the one that came last is taken first: a stack, and for each number
/// whether it is on it.
#[derive(Debug, Drop)]
pub(crate) struct Worklist {
    stack: Vec<u32>,
    listed: Vec<bool>,
}

impl Model for Worklist {
    ghost use Rattle.ck_reaching.specs.Listing.{Listing, IsStacked};

    ghost Value = { Listing };

    ghost view = { λ w. record { stack = w.stack.items; flags = w.listed.items } };

    ghost invariant = { λ w. IsStacked (record { stack = w.stack.items; flags = w.listed.items }) };
}

impl Worklist {
    /// A worklist of numbers below a size, with nothing listed.
    pub(crate) fn new(alloc: Global, size: u32) -> Result<Worklist, OutOfMemory>
        ensures size { IfOk result (λ listed. size_of listed ≡ size) }
        ensures empty { IfOk result (λ listed. (n : ℕ) → IsListed listed n → ⊥) }
    {
        let listed = vec![in alloc; false; size as usize]?;
        Ok(Worklist {
            stack: Vec::new(alloc),
            listed,
        })
    }

    /// Lists a number.
    pub(crate) fn put(&mut self, number: u32) -> Result<(), OutOfMemory>
        requires { number < size_of self.old }
        ensures { OnOk result (IsNoted number self.old self.new) }
    {
        if !self.listed[number as usize] {
            self.stack.push(number)?;
            self.listed[number as usize] = true;
        }
        Ok(())
    }

    /// Takes the listed number that came last.
    pub(crate) fn take(&mut self) -> Option<u32>
        ensures taken { MatchOption
            result
            ((n : ℕ) → IsListed self.old n → ⊥)
            (λ p. (p < size_of self.old) × (length self.new.stack + 1 ≡ length self.old.stack)) }
        ensures size { size_of self.new ≡ size_of self.old }
        ensures no_other { (n : ℕ) → IsListed self.new n → IsListed self.old n }
        ensures others { (n : ℕ) → IsListed self.old n → IsListed self.new n ⊎ (result ≡ Some n) }
    {
        let number = self.stack.pop()?;
        self.listed[number as usize] = false;
        Some(number)
    }
}
