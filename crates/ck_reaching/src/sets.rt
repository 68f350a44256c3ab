//! Sets of functions.
ghost use Rattle.std.specs.Prelude.{
  ◌≡◌,
  ◌<◌,
  ◌≤◌,
  ◌+◌,
  ◌*◌,
  ◌/◌,
  ◌↔◌,
  ◌⊎◌,
  ℕ,
  length,
  IfOk,
  IsTrue,
  ◌^◌,
  MatchOption,
};
ghost use Rattle.ck_reaching.specs.Sets.{Has};
ghost use Rattle.ck_reaching.specs.Joins.{IsClearBetween, IsJoin, IsUnion};

use ck_base::{FnId, OutOfMemory};
use ck_rows::{Rows, add_pair, has_pair, no_pairs, union_into};
use std::alloc::Global;
use std::marker::Model;

/// A set of functions below a number, a bit for each, in blocks of 256.
#[derive(Debug, Drop)]
pub struct FnSet {
    blocks: Vec<Rows>,
}

impl Model for FnSet {
    ghost use Rattle.std.specs.Prelude.{List};
    ghost use Rattle.ck_rows.specs.declared.rows.Rows.{Rows};

    ghost Value = { List Rows };

    ghost view = { λ s. s.blocks.items };
}

impl FnSet {
    /// The set without a function, with room for the functions below a number.
    pub fn new(alloc: Global, functions: u32) -> Result<FnSet, OutOfMemory>
        ensures size { IfOk result (λ set. length set ≡ functions / 256 + 1) }
        ensures empty { IfOk result (λ set. (f : ℕ) → Has set f → ⊥) }
    {
        let blocks = vec![in alloc; no_pairs(); functions as usize / 256 + 1]?;
        Ok(FnSet { blocks })
    }

    /// Whether a function is in the set; one for which there is no room isn't.
    pub fn has(&self, function: FnId) -> bool
        ensures { IsTrue result ↔ Has self.now function.0 }
    {
        let number = function.0 as usize;
        let line = number / 16;
        if line / 16 < self.blocks.len() {
            has_pair(&self.blocks[line / 16], line % 16, number % 16)
        } else {
            false
        }
    }

    /// The least function of the set from a number on and before an end, if there is one.
    pub(crate) fn next(&self, from: u32, end: u32) -> Option<FnId>
        ensures { MatchOption
            result
            (IsClearBetween self.now from end)
            (λ f. (from ≤ f.0) × (f.0 < end) × Has self.now f.0 × IsClearBetween self.now from f.0) }
    {
        let mut number = from;
        'numbers: while number < end {
            if self.has(FnId(number)) {
                return Some(FnId(number));
            }
            number = self.after(number);
        }
        None
    }

    /// A number after one that isn't in the set, before which no other is.
    fn after(&self, number: u32) -> u32
        requires small { number + 1 < 2 ^ 32 }
        requires clear { Has self.now number → ⊥ }
        ensures more { number < result }
        ensures clear { IsClearBetween self.now number result }
    {
        if number % 16 != 0 {
            return number + 1;
        }
        if !self.is_clear(number) {
            return number + 1;
        }
        number.saturating_add(16)
    }

    /// Whether none of sixteen functions is in the set, where they are those of the mask that a number is in.
    fn is_clear(&self, number: u32) -> bool
        ensures { IsTrue result → (f : ℕ) → f / 16 ≡ number / 16 → Has self.now f → ⊥ }
    {
        let line = number as usize / 16;
        if line / 16 >= self.blocks.len() {
            return true;
        }
        self.blocks[line / 16].mask[line % 16] == 0
    }

    /// Adds a function.
    pub fn add(&mut self, function: FnId)
        requires { function.0 / 256 < length self.old }
        ensures exactly { (f : ℕ) → Has self.new f ↔ (Has self.old f ⊎ (f ≡ function.0)) }
        ensures size { length self.new ≡ length self.old }
    {
        let number = function.0 as usize;
        let line = number / 16;
        add_pair(&mut self.blocks[line / 16], line % 16, number % 16);
    }

    /// Adds the functions of another set of the same size, and answers whether one was new.
    pub(crate) fn join(&mut self, other: &FnSet) -> bool
        requires { length other.now ≡ length self.old }
        ensures { IsJoin self.old other.now self.new result }
    {
        join_blocks(&mut self.blocks, &other.blocks)
    }

    /// Makes it another set of the same size.
    pub(crate) fn copy_from(&mut self, other: &FnSet)
        requires { length other.now ≡ length self.old }
        ensures { self.new ≡ other.now }
    {
        self.blocks.copy_from_slice(&other.blocks);
    }
}

/// Adds the functions of other blocks, and answers whether one was new.
fn join_blocks(into: &mut [Rows], from: &[Rows]) -> bool
    requires { length from.now ≡ length into.old }
    ensures { IsJoin into.old from.now into.new result }
{
    let mut grew = false;
    'joins: for (number, block) in from.iter().enumerate() {
        if join_block(&mut into[number], block) {
            grew = true;
        }
    }
    grew
}

/// Adds the functions of another block, and answers whether one was new. Most blocks have none.
fn join_block(into: &mut Rows, from: &Rows) -> bool
    ensures { IsUnion into.old from.now into.new result }
{
    if from.mask == [0; 16] {
        return false;
    }
    union_into(into, from)
}
