//! What is noted of a body before its points are made: its labels (6.8.1), those of a `switch`, and the declarations of
//! a variable that keeps the kernel's status, in written order.
ghost use Rattle.std.specs.Prelude.{◌≡◌, ◌<◌, ◌∷◌, ◌++◌, [], true, length, OnOk};
ghost use Rattle.std.specs.List.{list_all};
ghost use Rattle.ck_bodies.specs.Noting as spec;
ghost use Rattle.ck_bodies.specs.Walks.{tables, statement};
ghost use Rattle.ck_points.specs.Functions as form;
ghost use Rattle.ck_tables.specs.Numbers as fit;
ghost use Rattle.ck_tables.specs.Numbers.{numbers};
ghost use Rattle.ck_tables.specs.Program.{body_readings, declaration_of, readings};
ghost use Rattle.ck_tables.specs.Readings.{BodyReadings};
ghost use Rattle.ck_tables.specs.StmtTable as table;

use crate::walk::BodyWalk;
use ck_base::OutOfMemory;
use ck_passages::below;
use ck_tables::{DeclarationId, Declared, Item, NameId, Start, StmtId, StmtNode, ValueId};

/// What is noted.
#[derive(Clone, Copy)]
pub(crate) enum Noted {
    /// a variable that keeps the kernel's status is declared
    Status,
    /// a label of this name
    Label(NameId),
    /// a label of a `switch`, with its value in the type of the `switch`, if it has one
    Case(Option<ValueId>),
    /// the other label of a `switch`
    Default,
}

/// A note, and the path of the statement that it is about.
#[derive(Drop)]
pub(crate) struct Note {
    pub noted: Noted,
    pub path: Vec<u32>,
}

/// Whether one of these declarators is that of a variable that keeps the kernel's status.
fn declares_status(declared: &[Declared]) -> bool
    ensures { (b : BodyReadings) → result ≡ form.status_declared (table.declarators_of b declared.now) }
{
    let mut rest = declared;
    'rest: while let Some(first) = rest.split_first() {
        if first.0.facts.status {
            return true;
        }
        rest = first.1;
    }
    false
}

impl<'a> BodyWalk<'a> {
    /// Notes one thing of the part with this path.
    fn note(&self, noted: Noted, path: &[u32], notes: &mut Vec<Note>) -> Result<(), OutOfMemory>
        requires known { spec.noted_fits (numbers (tables self.now)) noted ≡ true }
        requires before { spec.notes_fit (tables self.now) notes.old.items ≡ true }
        ensures notes { OnOk result (spec.AreNoted (tables self.now)
            (spec.note_of (spec.plain_noted (readings (tables self.now)) noted) path.now ∷ []) notes.old.items
            notes.new.items) }
        ensures fit { OnOk result (spec.notes_fit (tables self.now) notes.new.items ≡ true) }
    {
        let path = Vec::from_slice(self.alloc, path)?;
        notes.push(Note { noted, path })?;
        Ok(())
    }

    /// Notes whether a status variable is declared.
    fn note_declaration(
        &self,
        id: DeclarationId,
        path: &[u32],
        notes: &mut Vec<Note>,
    ) -> Result<(), OutOfMemory>
        requires known { id.0 < length (tables self.now).declarations.rows.items }
        requires before { spec.notes_fit (tables self.now) notes.old.items ≡ true }
        ensures notes { OnOk result (spec.AreNoted (tables self.now)
            (spec.status_notes (form.status_in_declaration (declaration_of (tables self.now) id.0)) path.now)
            notes.old.items notes.new.items) }
        ensures fit { OnOk result (spec.notes_fit (tables self.now) notes.new.items ≡ true) }
    {
        let written = self.program.declaration(id);
        if declares_status(written.declared.as_slice()) {
            self.note(Noted::Status, path, notes)?;
        }
        Ok(())
    }

    /// Notes what the start of a `for` declares.
    fn note_start(
        &self,
        start: Start,
        path: &[u32],
        notes: &mut Vec<Note>,
    ) -> Result<(), OutOfMemory>
        requires known { fit.start_fits (numbers (tables self.now)) start ≡ true }
        requires before { spec.notes_fit (tables self.now) notes.old.items ≡ true }
        ensures notes { OnOk result (spec.AreNoted (tables self.now)
            (spec.status_notes
            (form.status_in_start (table.plain_start (body_readings (tables self.now)) start)) path.now)
            notes.old.items notes.new.items) }
        ensures fit { OnOk result (spec.notes_fit (tables self.now) notes.new.items ≡ true) }
    {
        match start {
            Start::Empty => Ok(()),
            Start::Expression(_) => Ok(()),
            Start::Declaration(id) => self.note_declaration(id, path, notes),
        }
    }

    /// Notes what is in a statement with this path: what is in an inner `switch` where `all` is to be noted.
    #[cycle(noting)]
    #[tactic(auto, unfolding(ck_tables::specs::Numbers::statement_node_fits))]
    pub(crate) fn note_statement(
        &self,
        id: StmtId,
        all: bool,
        path: &[u32],
        notes: &mut Vec<Note>,
    ) -> Result<(), OutOfMemory>
        requires known { id.0 < length (tables self.now).stmts }
        requires before { spec.notes_fit (tables self.now) notes.old.items ≡ true }
        ensures notes { OnOk result (spec.AreNoted (tables self.now)
            (spec.notes all path.now (statement (tables self.now) id.0)) notes.old.items notes.new.items) }
        ensures fit { OnOk result (spec.notes_fit (tables self.now) notes.new.items ≡ true) }
    {
        let node = self.program.statement(id);
        match node {
            StmtNode::Block { items, .. } => {
                let row = items.as_slice();
                self.note_items(row, all, &*path, notes)
            }
            StmtNode::Empty { .. } => Ok(()),
            StmtNode::Expression { .. } => Ok(()),
            StmtNode::If { controlled, .. } => self.note_part(*controlled, 1, all, path, notes),
            StmtNode::IfElse {
                controlled,
                otherwise,
                ..
            } => {
                self.note_part(*controlled, 1, all, path, notes)?;
                self.note_part(*otherwise, 2, all, path, notes)
            }
            StmtNode::Switch { body, .. } => {
                if all {
                    self.note_part(*body, 1, all, path, notes)
                } else {
                    Ok(())
                }
            }
            StmtNode::While { body, .. } => self.note_part(*body, 1, all, path, notes),
            StmtNode::Do { body, .. } => self.note_part(*body, 0, all, path, notes),
            StmtNode::For { start, body, .. } => {
                self.note_start(*start, path, notes)?;
                self.note_part(*body, 3, all, path, notes)
            }
            StmtNode::Case {
                converted,
                labelled,
                ..
            } => {
                self.note(Noted::Case(*converted), path, notes)?;
                self.note_part(*labelled, 1, all, path, notes)
            }
            StmtNode::Default { labelled, .. } => {
                self.note(Noted::Default, path, notes)?;
                self.note_part(*labelled, 0, all, path, notes)
            }
            StmtNode::Label { text, labelled, .. } => {
                self.note(Noted::Label(*text), path, notes)?;
                self.note_part(*labelled, 0, all, path, notes)
            }
            StmtNode::Goto { .. } => Ok(()),
            StmtNode::Jump { .. } => Ok(()),
            StmtNode::Return { .. } => Ok(()),
            StmtNode::ReturnValue { .. } => Ok(()),
        }
    }

    /// Notes what is in the statement to which a step leads.
    #[cycle(noting)]
    pub(crate) fn note_part(
        &self,
        part: StmtId,
        step: u64,
        all: bool,
        path: &[u32],
        notes: &mut Vec<Note>,
    ) -> Result<(), OutOfMemory>
        requires known { part.0 < length (tables self.now).stmts }
        requires before { spec.notes_fit (tables self.now) notes.old.items ≡ true }
        ensures notes { OnOk result (spec.AreNoted (tables self.now)
            (spec.notes all (path.now ++ step ∷ []) (statement (tables self.now) part.0)) notes.old.items
            notes.new.items) }
        ensures fit { OnOk result (spec.notes_fit (tables self.now) notes.new.items ≡ true) }
    {
        let inside = below(self.alloc, path, step)?;
        self.note_statement(part, all, inside.as_slice(), notes)
    }

    /// Notes what is in the item of this number of a block with this path.
    #[cycle(noting)]
    fn note_item(
        &self,
        item: Item,
        number: u64,
        all: bool,
        path: &[u32],
        notes: &mut Vec<Note>,
    ) -> Result<(), OutOfMemory>
        requires known { fit.item_fits (numbers (tables self.now)) item ≡ true }
        requires before { spec.notes_fit (tables self.now) notes.old.items ≡ true }
        ensures notes { OnOk result (spec.AreNoted (tables self.now)
            (spec.notes_from all path.now number
            (table.items_of (body_readings (tables self.now)) (statement (tables self.now)) (item ∷ [])))
            notes.old.items notes.new.items) }
        ensures fit { OnOk result (spec.notes_fit (tables self.now) notes.new.items ≡ true) }
    {
        match item {
            Item::Declaration(id) => {
                let inside = below(self.alloc, path, number)?;
                self.note_declaration(id, inside.as_slice(), notes)
            }
            Item::Statement(id) => self.note_part(id, number, all, path, notes),
        }
    }

    /// Notes what is in the items of a block with this path.
    #[cycle(noting)]
    pub(crate) fn note_items<'b>(
        &self,
        items: &'b [Item],
        all: bool,
        path: &'b [u32],
        notes: &mut Vec<Note>,
    ) -> Result<(), OutOfMemory>
        requires known { list_all (fit.item_fits (numbers (tables self.now))) items.now ≡ true }
        requires before { spec.notes_fit (tables self.now) notes.old.items ≡ true }
        ensures notes { OnOk result (spec.AreNoted (tables self.now)
            (spec.notes_from all path.now 0
            (table.items_of (body_readings (tables self.now)) (statement (tables self.now)) items.now))
            notes.old.items notes.new.items) }
        ensures fit { OnOk result (spec.notes_fit (tables self.now) notes.new.items ≡ true) }
    {
        for (number, item) in items.iter().enumerate() {
            self.note_item(*item, number as u64, all, path, notes)?;
        }
        Ok(())
    }
}
