//! The points of whole functions (6.9.1).
ghost use Rattle.std.specs.Prelude.{◌≡◌, ◌<◌, [], true, length, nat_eq, IfOk, OnOk};
ghost use Rattle.indexmap.specs.IndexMap.{get};
ghost use Rattle.ck_bodies.specs.DrawnFunctions as spec;
ghost use Rattle.ck_bodies.specs.FunctionPoints.{ArePointsOf};
ghost use Rattle.ck_bodies.specs.Noting.{named, plain_notes, notes_fit, notes_from, has_status, Finds};
ghost use Rattle.ck_bodies.specs.Walks.{tables, made};
ghost use Rattle.ck_drafts.specs.Drafts.{plain_place, plain_side};
ghost use Rattle.ck_passages.specs.Drawing.{put_passing};
ghost use Rattle.ck_passages.specs.Points.{plain_happening};
ghost use Rattle.ck_points.specs.Places as places;
ghost use Rattle.ck_tables.specs.Numbers.{numbers, body_fits};
ghost use Rattle.ck_tables.specs.Program.{plain_body};
ghost use Rattle.ck_tables.specs.declared.program.Linked.{Linked as Tables};

use crate::labels::Labels;
use crate::notes::{Note, Noted};
use crate::statements::Jumps;
use crate::walk::BodyWalk;
use ck_base::{FnId, OutOfMemory, Token};
use ck_drafts::{Place, Side};
use ck_passages::{Drawing, Happening, PassagePoint, place};
use ck_tables::{Body, Program};
use std::alloc::Global;

/// Where the name of a function is.
#[tactic(auto, unfolding(ck_tables::specs::Numbers::body_fits))]
fn name_of(program: &Program, body: &Body) -> Token
    requires { body_fits (numbers program.now.linked) body.now ≡ true }
    ensures { result ≡ (plain_body program.now.linked body.now).declared.entry.at }
{
    program.name_of(body.declared.entry)
}

/// Whether a status variable is noted.
fn notes_status(notes: &[Note]) -> bool
    ensures { (l : Tables) → result ≡ has_status (plain_notes l notes.now) }
{
    let mut rest = notes;
    'rest: while let Some(first) = rest.split_first() {
        if matches!(first.0.noted, Noted::Status) {
            return true;
        }
        rest = first.1;
    }
    false
}

impl<'a> BodyWalk<'a> {
    /// The place of the whole body on a side.
    fn of_body(&self, side: Side) -> Result<Place, OutOfMemory>
        ensures { IfOk result (λ p. plain_place p ≡ places.place [] [] (plain_side side)) }
    {
        Ok(place(self.alloc, &[], &[], side)?)
    }

    /// A function's exit, at its name.
    #[tactic(auto, unfolding(crate::specs::DrawnFunctions::ending))]
    fn ending(&self, name: Token) -> Result<Drawing, OutOfMemory>
        ensures { IfOk result (λ d. made self.now d ≡ spec.ending name) }
    {
        let exit = self.of_body(Side::After)?;
        let next = self.of_body(Side::After)?;
        let mut drawing = self.apart(next);
        let edges = Vec::new(self.alloc);
        drawing.put(self.alloc, exit, Happening::Ends, name.span, edges)?;
        Ok(drawing)
    }

    /// Puts a point of the whole body, at its name.
    fn put_of_body(
        &self,
        side: Side,
        happening: Happening,
        name: Token,
        drawing: &mut Drawing,
    ) -> Result<(), OutOfMemory>
        ensures { OnOk result (made self.now drawing.new
            ≡ put_passing (places.place [] [] (plain_side side))
            (plain_happening (tables self.now) happening) name.span (made self.now drawing.old)) }
    {
        let at = self.of_body(side)?;
        drawing.put_passing(self.alloc, at, happening, name.span)?;
        Ok(())
    }

    /// Draws the items of a body, where `return` and the body's end lead to what comes next.
    fn inside(&self, body: &Body, labels: &Labels, drawing: &mut Drawing) -> Result<(), OutOfMemory>
        requires fits { body_fits (numbers (tables self.now)) body.now ≡ true }
        requires finds { Finds (tables self.now) labels.now.notes.items labels.now.notes.items
            (get nat_eq labels.now.first) }
        ensures { OnOk result (made self.now drawing.new
            ≡ spec.inside (named (plain_notes (tables self.now) labels.now.notes.items))
            (plain_body (tables self.now) body.now).items (made self.now drawing.old)) }
    {
        let out = self.next(drawing)?;
        let jumps = Jumps {
            broken: &out,
            continued: &out,
            returned: &out,
            labels,
        };
        self.items(body.items.as_slice(), &jumps, &[], drawing)?;
        Ok(())
    }

    /// What is noted of a body.
    fn noted(&self, body: &Body) -> Result<Vec<Note>, OutOfMemory>
        requires { body_fits (numbers (tables self.now)) body.now ≡ true }
        ensures notes { IfOk result (λ notes. plain_notes (tables self.now) notes.items
            ≡ notes_from true [] 0 (plain_body (tables self.now) body.now).items) }
        ensures fit { IfOk result (λ notes. notes_fit (tables self.now) notes.items ≡ true) }
    {
        let mut notes = Vec::new(self.alloc);
        self.note_items(body.items.as_slice(), true, &[], &mut notes)?;
        Ok(notes)
    }

    /// Draws a function that doesn't keep the kernel's status.
    #[tactic(auto, unfolding(crate::specs::DrawnFunctions::plain_whole))]
    fn plain_whole(&self, body: &Body, name: Token, labels: &Labels) -> Result<Drawing, OutOfMemory>
        requires fits { body_fits (numbers (tables self.now)) body.now ≡ true }
        requires finds { Finds (tables self.now) labels.now.notes.items labels.now.notes.items
            (get nat_eq labels.now.first) }
        ensures { IfOk result (λ d. made self.now d
            ≡ spec.plain_whole name (named (plain_notes (tables self.now) labels.now.notes.items))
            (plain_body (tables self.now) body.now).items) }
    {
        let mut drawing = self.ending(name)?;
        self.inside(body, labels, &mut drawing)?;
        self.put_of_body(Side::Before, Happening::Passes, name, &mut drawing)?;
        Ok(drawing)
    }

    /// Draws a function that keeps the kernel's status, with points where it is entered and left.
    #[tactic(auto, unfolding(crate::specs::DrawnFunctions::pair_whole))]
    fn pair_whole(&self, body: &Body, name: Token, labels: &Labels) -> Result<Drawing, OutOfMemory>
        requires fits { body_fits (numbers (tables self.now)) body.now ≡ true }
        requires finds { Finds (tables self.now) labels.now.notes.items labels.now.notes.items
            (get nat_eq labels.now.first) }
        ensures { IfOk result (λ d. made self.now d
            ≡ spec.pair_whole name (named (plain_notes (tables self.now) labels.now.notes.items))
            (plain_body (tables self.now) body.now).items) }
    {
        let mut drawing = self.ending(name)?;
        self.put_of_body(Side::Leave, Happening::LeavesPair, name, &mut drawing)?;
        self.inside(body, labels, &mut drawing)?;
        self.put_of_body(Side::Enter, Happening::EntersPair, name, &mut drawing)?;
        self.put_of_body(Side::Before, Happening::Passes, name, &mut drawing)?;
        Ok(drawing)
    }

    /// Draws a whole function.
    fn whole(&self, body: &Body, name: Token) -> Result<Drawing, OutOfMemory>
        requires { body_fits (numbers (tables self.now)) body.now ≡ true }
        ensures { IfOk result (λ d. made self.now d
            ≡ spec.draw_whole name (plain_body (tables self.now) body.now).items) }
    {
        let notes = self.noted(body)?;
        let keeps_status = notes_status(notes.as_slice());
        let labels = self.labels(notes)?;
        if keeps_status {
            self.pair_whole(body, name, &labels)
        } else {
            self.plain_whole(body, name, &labels)
        }
    }
}

/// The points of a function with a body, with their edges, the last one first: those of its statements, its entry and
/// exit, and, where it keeps the kernel's status, those where it is entered and left. Only want of memory is refused.
pub fn function_points(
    alloc: Global,
    program: &Program,
    id: FnId,
) -> Result<Vec<PassagePoint>, OutOfMemory>
    requires { id.0 < length program.now.linked.bodies.rows.items }
    ensures { IfOk result (λ points. ArePointsOf program.now.linked id.0 points.items) }
{
    let body = program.body(id);
    let walk = BodyWalk { alloc, program };
    let name = name_of(program, body);
    let drawing = walk.whole(body, name)?;
    let Drawing { to: _to, points } = drawing;
    Ok(points)
}
