//! Lists of numbers, one for each cell.
ghost use Rattle.std.specs.Prelude.{◌≡◌, ◌<◌, ℕ, length, Contains, IfOk, OnOk};
ghost use Rattle.ck_reaching.specs.Indices.{numbers_at, AddsNumber};

use ck_base::OutOfMemory;
use std::alloc::Global;
use std::marker::Model;

/// For each number below a size, a list of numbers.
#[derive(Debug, Drop)]
pub(crate) struct Index {
    lists: Vec<Vec<u32>>,
}

impl Model for Index {
    ghost use Rattle.std.specs.Prelude.{List, ℕ};
    ghost use Rattle.ck_reaching.specs.Indices.{lists_of};

    ghost Value = { List (List ℕ) };

    ghost view = { λ i. lists_of i.lists.items };
}

impl Index {
    /// An index with empty lists.
    pub(crate) fn new(alloc: Global, size: u32) -> Result<Index, OutOfMemory>
        ensures size { IfOk result (λ index. length index ≡ size) }
        ensures empty { IfOk result (λ index. (at number : ℕ) → Contains (numbers_at index at) number → ⊥) }
    {
        let mut lists = Vec::new(alloc);
        'sizes: for _list in 0..size {
            lists.push(Vec::new(alloc))?;
        }
        Ok(Index { lists })
    }

    /// Adds a number to a list.
    pub(crate) fn add(&mut self, at: u32, number: u32) -> Result<(), OutOfMemory>
        requires { at < length self.old }
        ensures { OnOk result (AddsNumber at number self.old self.new) }
    {
        self.lists[at as usize].push(number)?;
        Ok(())
    }

    /// The numbers of a list.
    pub(crate) fn at(&self, at: u32) -> &[u32]
        requires { at < length self.now }
        ensures { result.now ≡ numbers_at self.now at }
    {
        &self.lists[at as usize]
    }
}
