//! What is in sight: a stack, with the latest of each name.
ghost use Rattle.std.specs.Prelude.{◌≡◌, [], ◌∷◌, OnOk, OnErr};
ghost use Rattle.ck_scopes.specs.Seen.{begins_from, hide_from, latest_of, rest_of, slot_of};

use crate::heads::Heads;
use crate::spaces::Space;
use ck_base::OutOfMemory;
use std::alloc::Global;
use std::marker::Model;

/// A number that is shown under a name, with the one that it hides.
#[derive(Clone, Copy, Debug)]
struct Shown {
    number: u32,
    space: Space,
    name: u32,
    hides: Option<u32>,
}

/// A stack of numbers that are shown under names, and for each name of each name space the latest of them. It is seen
/// as their list, the latest first.
#[derive(Debug, Drop)]
pub(crate) struct Sight {
    shown: Vec<Shown>,
    heads: Heads,
}

impl Model for Sight {
    ghost use Rattle.std.specs.Prelude.{List, map, reverse};
    ghost use Rattle.ck_scopes.specs.Seen.{Seen};

    ghost Value = { List Seen };

    ghost use Rattle.ck_scopes.specs.Indexed.{seen_of, IsIndexed};

    ghost view = { λ s. map seen_of (reverse s.shown.items) };

    ghost invariant = { λ s. IsIndexed (reverse s.shown.items) s.heads };
}

impl Sight {
    /// Nothing in sight.
    pub(crate) fn new(alloc: Global) -> Sight
        ensures { result ≡ [] }
    {
        Sight {
            shown: Vec::new(alloc),
            heads: Heads::new(alloc),
        }
    }

    /// The latest number of a name.
    pub(crate) fn latest(&self, space: Space, name: u32) -> Option<u32>
        ensures { result ≡ latest_of space name self.now }
    {
        self.heads.at(slot(space, name))
    }

    /// Shows one more.
    pub(crate) fn show(&mut self, number: u32, space: Space, name: u32) -> Result<(), OutOfMemory>
        ensures shown { OnOk
            result
            (self.new ≡ record { number = number; space = space; name = name } ∷ self.old) }
        ensures unchanged { OnErr result (self.new ≡ self.old) }
    {
        let place = slot(space, name);
        self.heads.make_room(place)?;
        let hides = self.heads.at(place);
        self.shown.push(Shown {
            number,
            space,
            name,
            hides,
        })?;
        self.heads.put(place, Some(number));
        Ok(())
    }

    /// Hides those that were shown last, up to the first one with a number below this one.
    pub(crate) fn hide_from(&mut self, start: u32)
        ensures { self.new ≡ hide_from start self.old }
    {
        'hiding: while self.begins_from(start) {
            self.hide_last();
        }
    }

    /// Whether what was shown last has a number of at least this one.
    fn begins_from(&self, start: u32) -> bool
        ensures { result ≡ begins_from start self.now }
    {
        let count = self.shown.len();
        if count == 0 {
            return false;
        }
        let last = self.shown[count - 1];
        start <= last.number
    }

    /// Hides what was shown last, and shows what it hid.
    fn hide_last(&mut self)
        ensures { self.new ≡ rest_of self.old }
    {
        if let Some(last) = self.shown.pop() {
            self.heads.put(slot(last.space, last.name), last.hides);
        }
    }
}

/// The place of a name of a name space in a table for both.
fn slot(space: Space, name: u32) -> usize
    ensures { result ≡ slot_of space name }
{
    let place = 2 * name as usize;
    match space {
        Space::Ordinary => place,
        Space::Tag => place + 1,
    }
}
