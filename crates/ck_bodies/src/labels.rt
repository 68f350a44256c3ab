//! The labels of a function by their names (6.8.6.1).
ghost use Rattle.std.specs.Prelude.{◌≡◌, ◌<◌, ◌+◌, true, length, drop, nat_eq, slice_get, IfOk, OnOk};
ghost use Rattle.indexmap.specs.IndexMap.{get};
ghost use Rattle.ck_bodies.specs.Noting as spec;
ghost use Rattle.ck_bodies.specs.Walks.{tables};
ghost use Rattle.ck_drafts.specs.Drafts.{plain_place};
ghost use Rattle.ck_points.specs.Labels.{labelled};
ghost use Rattle.ck_points.specs.Places as places;
ghost use Rattle.ck_tables.specs.Program.{name_of};

use crate::notes::{Note, Noted};
use crate::walk::BodyWalk;
use ck_base::OutOfMemory;
use ck_drafts::{Place, Side};
use ck_passages::place;
use ck_tables::{NameId, Program};
use indexmap::IndexMap;

/// What is noted of a function, and for the number of each label's name the place of the first note of it.
#[derive(Drop)]
pub(crate) struct Labels {
    pub notes: Vec<Note>,
    pub first: IndexMap<u32, usize>,
}

/// Puts the note at a place before those after it: it is the first of its name.
fn put_note(
    program: &Program,
    notes: &[Note],
    at: usize,
    first: &mut IndexMap<u32, usize>,
) -> Result<(), OutOfMemory>
    requires within { at < length notes.now }
    requires fit { spec.notes_fit program.now.linked notes.now ≡ true }
    requires later { spec.Finds program.now.linked notes.now (drop (at + 1) notes.now) (get nat_eq first.old) }
    ensures { OnOk result
        (spec.Finds program.now.linked notes.now (drop at notes.now) (get nat_eq first.new)) }
{
    let noted = notes[at].noted;
    match noted {
        Noted::Label(name) => {
            let _name = program.linked().names.name(name);
            first.insert(name.0, at)?;
            Ok(())
        }
        Noted::Status => Ok(()),
        Noted::Case(_) => Ok(()),
        Noted::Default => Ok(()),
    }
}

impl<'a> BodyWalk<'a> {
    /// The labels among notes.
    pub(crate) fn labels(&self, notes: Vec<Note>) -> Result<Labels, OutOfMemory>
        requires { spec.notes_fit (tables self.now) notes.items ≡ true }
        ensures notes { IfOk result (λ labels. labels.notes.items ≡ notes.items) }
        ensures finds { IfOk result (λ labels.
            spec.Finds (tables self.now) labels.notes.items labels.notes.items (get nat_eq labels.first)) }
    {
        let mut first = IndexMap::new(self.alloc);
        let mut left = notes.len();
        'left: while 0 < left {
            left -= 1;
            put_note(self.program, notes.as_slice(), left, &mut first)?;
        }
        Ok(Labels { notes, first })
    }

    /// Where a jump to a label leads, in the statement with this path: past it where no label has the name.
    pub(crate) fn label_place(
        &self,
        labels: &Labels,
        name: NameId,
        path: &[u32],
    ) -> Result<Place, OutOfMemory>
        requires known { name.0 < length (tables self.now).names }
        requires finds { spec.Finds (tables self.now) labels.now.notes.items labels.now.notes.items
            (get nat_eq labels.now.first) }
        ensures { IfOk result (λ p. plain_place p ≡ labelled (name_of (tables self.now) name.0)
            (spec.named (spec.plain_notes (tables self.now) labels.now.notes.items)) (places.after path.now)) }
    {
        match labels.first.get(&name.0) {
            Some(at) => self.note_place(labels.notes.as_slice(), *at, path),
            None => self.after(path),
        }
    }

    /// The place of a note, or past the statement with this path where there is none.
    fn note_place(&self, notes: &[Note], at: usize, path: &[u32]) -> Result<Place, OutOfMemory>
        ensures { IfOk result (λ p. plain_place p
            ≡ spec.place_of (slice_get notes.now at) (places.after path.now)) }
    {
        match notes.get(at) {
            Some(note) => Ok(place(self.alloc, note.path.as_slice(), &[], Side::Before)?),
            None => self.after(path),
        }
    }
}
