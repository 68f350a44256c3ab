//! For each place of a table a number, or none.
ghost use Rattle.std.specs.Prelude.{◌≡◌, ◌<◌, ◌≤◌, ℕ, [], length, slice_set, OnOk};
ghost use Rattle.ck_scopes.specs.Seen.{head};

use ck_base::OutOfMemory;
use std::alloc::Global;
use std::marker::Model;

/// A table with a number at each place that has one. A place past its end has none.
#[derive(Debug, Drop)]
pub(crate) struct Heads {
    numbers: Vec<Option<u32>>,
}

impl Model for Heads {
    ghost use Rattle.std.specs.Prelude.{List, Option, ℕ};

    ghost Value = { List (Option ℕ) };

    ghost view = { λ h. h.numbers.items };
}

impl Heads {
    /// No number at any place.
    pub(crate) fn new(alloc: Global) -> Heads
        ensures { result ≡ [] }
    {
        Heads {
            numbers: Vec::new(alloc),
        }
    }

    /// The number at a place.
    pub(crate) fn at(&self, place: usize) -> Option<u32>
        ensures { result ≡ head self.now place }
    {
        if place < self.numbers.len() {
            self.numbers[place]
        } else {
            None
        }
    }

    /// Makes the table reach up to a place. No number changes, also where memory is wanting.
    pub(crate) fn make_room(&mut self, place: usize) -> Result<(), OutOfMemory>
        ensures kept { (n : ℕ) → head self.new n ≡ head self.old n }
        ensures longer { length self.old ≤ length self.new }
        ensures room { OnOk result (place < length self.new) }
    {
        reach(&mut self.numbers, place)
    }

    /// Writes a place.
    pub(crate) fn put(&mut self, place: usize, number: Option<u32>)
        requires { place < length self.old }
        ensures { self.new ≡ slice_set self.old place number }
    {
        self.numbers[place] = number;
    }
}

/// Adds empty places up to one.
fn reach(numbers: &mut Vec<Option<u32>>, place: usize) -> Result<(), OutOfMemory>
    ensures kept { (n : ℕ) → head numbers.new.items n ≡ head numbers.old.items n }
    ensures longer { length numbers.old.items ≤ length numbers.new.items }
    ensures room { OnOk result (place < length numbers.new.items) }
{
    'reaching: while numbers.len() <= place {
        numbers.push(None)?;
    }
    Ok(())
}
