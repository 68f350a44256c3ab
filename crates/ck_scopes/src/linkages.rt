//! Which declarations are one: linkage (C99 6.2.2).
ghost use Rattle.std.specs.Prelude.{◌≡◌, ◌<◌, length, slice_set, if◌then◌else◌, MatchOption, None, Some, OnOk, OnErr};
ghost use Rattle.ck_prog.specs.Linking.{is_external as tells_external, is_linked as tells_linked};
ghost use Rattle.ck_scopes.specs.Environments.{number_of};
ghost use Rattle.ck_scopes.specs.Links as spec;
ghost use Rattle.ck_scopes.specs.LinksKept.{is_here, latest_place, later_of};

use crate::heads::Heads;
use ck_base::OutOfMemory;
use ck_prog::Linkage;
use ck_tables::{EntryId, NameId};
use std::alloc::Global;
use std::marker::Model;

/// A declaration: its number, its file, its name, and its linkage.
#[derive(Clone, Copy, Debug)]
struct LinkedRow {
    entry: EntryId,
    file: u32,
    name: NameId,
    linkage: Linkage,
}

/// The declarations of a project so far with their linkage, and for each name the latest with external linkage and the
/// latest with any.
#[derive(Debug, Drop)]
pub struct Linkages {
    rows: Vec<LinkedRow>,
    file: u32,
    external: Heads,
    linked: Heads,
}

impl Model for Linkages {
    ghost use Rattle.std.specs.Prelude.{map, reverse};
    ghost use Rattle.ck_scopes.specs.Links.{Links};

    ghost Value = { Links };

    ghost use Rattle.ck_scopes.specs.LinksKept.{links_of, AreNoted};

    ghost view = { λ l. links_of (reverse l.rows.items) l.file };

    ghost invariant = { λ l. AreNoted (links_of (reverse l.rows.items) l.file) l.external l.linked };
}

impl Linkages {
    /// No declarations, before the file of number 0.
    pub fn new(alloc: Global) -> Linkages
        ensures { result ≡ spec.start }
    {
        Linkages {
            rows: Vec::new(alloc),
            file: 0,
            external: Heads::new(alloc),
            linked: Heads::new(alloc),
        }
    }

    /// Goes on to the file of the next number.
    pub fn next_file(&mut self) -> Result<(), OutOfMemory>
        ensures next { OnOk result (self.new ≡ spec.next_file self.old) }
        ensures unchanged { OnErr result (self.new ≡ self.old) }
    {
        let Some(file) = self.file.checked_add(1) else {
            return Err(OutOfMemory);
        };
        self.file = file;
        Ok(())
    }

    /// Adds a declaration of this file, by its number, with its name and its linkage.
    pub fn declare(
        &mut self,
        entry: EntryId,
        name: NameId,
        linkage: Linkage,
    ) -> Result<(), OutOfMemory>
        ensures declared { OnOk result (self.new ≡ spec.declaring self.old entry.0 name.0 linkage) }
        ensures unchanged { OnErr result (self.new ≡ self.old) }
    {
        let Ok(number) = u32::try_from(self.rows.len()) else {
            return Err(OutOfMemory);
        };
        let place = name.0 as usize;
        self.external.make_room(place)?;
        self.linked.make_room(place)?;
        let row = LinkedRow {
            entry,
            file: self.file,
            name,
            linkage,
        };
        self.rows.push(row)?;
        note(&mut self.external, place, number, is_external(linkage));
        note(&mut self.linked, place, number, is_linked(linkage));
        Ok(())
    }

    /// The latest declaration that is one with a declaration of this name in this file, which has linkage, external or
    /// internal: one with linkage in this file, or, where that one's is external, one with external linkage in any.
    pub fn one_with(&self, name: NameId, external: bool) -> Option<EntryId>
        ensures { number_of result ≡ spec.one_with self.now name.0 external }
    {
        let number = self.latest(name.0, external)?;
        Some(self.rows[number as usize].entry)
    }

    /// The place of that one.
    fn latest(&self, name: u32, external: bool) -> Option<u32>
        ensures { result ≡ latest_place (spec.is_one self.now.file name external) self.now.declared }
    {
        let here = self.latest_here(name);
        if external {
            later(here, self.external.at(name as usize))
        } else {
            here
        }
    }

    /// The place of the latest declaration of a name with linkage in this file.
    fn latest_here(&self, name: u32) -> Option<u32>
        ensures { result ≡ latest_place (is_here self.now.file name) self.now.declared }
    {
        let number = self.linked.at(name as usize)?;
        if self.rows[number as usize].file == self.file {
            Some(number)
        } else {
            None
        }
    }
}

/// The greater of two numbers, where there is one.
fn later(a: Option<u32>, b: Option<u32>) -> Option<u32>
    ensures { result ≡ later_of a b }
{
    match (a, b) {
        (Some(m), Some(n)) => { if m <= n { b } else { a } }
        (Some(_m), None) => a,
        _ => b,
    }
}

/// Writes a number at a place, where it is to be written.
fn note(heads: &mut Heads, place: usize, number: u32, wanted: bool)
    requires { place < length heads.old }
    ensures { heads.new ≡ (if wanted then slice_set heads.old place (Some number) else heads.old) }
{
    if wanted {
        heads.put(place, Some(number));
    }
}

/// Whether a linkage is external.
fn is_external(linkage: Linkage) -> bool
    ensures { result ≡ tells_external linkage }
{
    match linkage {
        Linkage::External => true,
        Linkage::NoLinkage | Linkage::Internal => false,
    }
}

/// Whether there is linkage.
fn is_linked(linkage: Linkage) -> bool
    ensures { result ≡ tells_linked linkage }
{
    match linkage {
        Linkage::NoLinkage => false,
        Linkage::Internal | Linkage::External => true,
    }
}
