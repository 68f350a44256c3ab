//! The edges that leave the test of a `switch` (6.8.4.2).
ghost use Rattle.std.specs.Ordering.{int_eq};
ghost use Rattle.std.specs.Prelude.{◌≡◌, ◌<◌, [], ◌∷◌, ◌++◌, length, map, IfOk, OnOk};
ghost use Rattle.ck_bodies.specs.DrawnStatements.{switched_before};
ghost use Rattle.ck_bodies.specs.Noting as spec;
ghost use Rattle.ck_bodies.specs.Walks.{tables, made, statement};
ghost use Rattle.ck_drafts.specs.Drafts.{plain_place, plain_edge, edge_drafted};
ghost use Rattle.ck_passages.specs.Operands.{tree};
ghost use Rattle.ck_points.specs.Labels as form;
ghost use Rattle.ck_points.specs.Places as places;
ghost use Rattle.ck_prog.specs.Paths as part;
ghost use Rattle.ck_tables.specs.Program.{value_of, readings};
ghost use Rattle.ck_tables.specs.Readings.{plain_constancy};

use crate::notes::{Note, Noted};
use crate::walk::BodyWalk;
use ck_base::OutOfMemory;
use ck_drafts::{DraftEdge, Place, Side};
use ck_graph::Label;
use ck_passages::{Drawing, Happening, below, one_edge, place, step_number};
use ck_tables::{Constancy, ExprId, Program, StmtId, ValueId};

/// Whether two values are equal.
fn are_equal(a: &i128, b: &i128) -> bool
    ensures { result ≡ int_eq a.now b.now }
{
    let one = *a;
    let other = *b;
    one == other
}

/// Whether the value of a number is this one.
fn is_value(program: &Program, value: ValueId, number: &i128) -> bool
    ensures { result ≡ int_eq (value_of program.now.linked value.0) number.now }
{
    let numbers = program.linked().values.as_slice();
    let at = value.0 as usize;
    let nought: i128 = 0;
    if at < numbers.len() {
        are_equal(&numbers[at], number)
    } else {
        are_equal(&nought, number)
    }
}

/// Whether two numbers have the same value.
fn are_same(program: &Program, value: ValueId, other: ValueId) -> bool
    ensures { result ≡ int_eq (value_of program.now.linked value.0) (value_of program.now.linked other.0) }
{
    let numbers = program.linked().values.as_slice();
    let at = other.0 as usize;
    let nought: i128 = 0;
    if at < numbers.len() {
        is_value(program, value, &numbers[at])
    } else {
        is_value(program, value, &nought)
    }
}

/// Whether a note is of a `case` of this value.
fn is_case_of(program: &Program, value: ValueId, note: &Note) -> bool
    ensures { result ≡ spec.is_case program.now.linked value note.now.noted }
{
    match note.noted {
        Noted::Case(Some(own)) => are_same(program, value, own),
        Noted::Case(None) => false,
        Noted::Status => false,
        Noted::Label(_) => false,
        Noted::Default => false,
    }
}

/// Whether a note is of a `default`.
fn is_default(note: &Note) -> bool
    ensures { result ≡ spec.is_default note.now.noted }
{
    matches!(note.noted, Noted::Default)
}

impl<'a> BodyWalk<'a> {
    /// Where the `default` is, or elsewhere where there is none.
    fn default_place(&self, marks: &[Note], elsewhere: Place) -> Result<Place, OutOfMemory>
        ensures { IfOk result (λ p. plain_place p
            ≡ (form.default_way (spec.marked (spec.plain_notes (tables self.now) marks.now))
            (places.leads (plain_place elsewhere))).to) }
    {
        let mut rest = marks;
        'rest: while let Some(first) = rest.split_first() {
            if is_default(first.0) {
                return Ok(place(self.alloc, first.0.path.as_slice(), &[], Side::Before)?);
            }
            rest = first.1;
        }
        Ok(elsewhere)
    }

    /// Where the `case` of a value is, or elsewhere where there is none.
    fn case_place(
        &self,
        value: ValueId,
        marks: &[Note],
        elsewhere: Place,
    ) -> Result<Place, OutOfMemory>
        ensures { IfOk result (λ p. plain_place p
            ≡ (form.case_way (value_of (tables self.now) value.0)
            (spec.marked (spec.plain_notes (tables self.now) marks.now)) (places.leads (plain_place elsewhere))).to) }
    {
        let mut rest = marks;
        'rest: while let Some(first) = rest.split_first() {
            if is_case_of(self.program, value, first.0) {
                return Ok(place(self.alloc, first.0.path.as_slice(), &[], Side::Before)?);
            }
            rest = first.1;
        }
        Ok(elsewhere)
    }

    /// Puts the edge to a `case` after those before it.
    fn put_case(&self, note: &Note, edges: &mut Vec<DraftEdge>) -> Result<(), OutOfMemory>
        ensures edges { OnOk result (map plain_edge edges.new.items ≡ map plain_edge edges.old.items
            ++ map edge_drafted (spec.case_edge_of (length edges.old.items)
            (spec.plain_noted (readings (tables self.now)) note.now.noted) (places.before note.now.path.items))) }
        ensures number { OnOk result (length edges.new.items ≡ spec.number_after (length edges.old.items)
            (spec.plain_noted (readings (tables self.now)) note.now.noted)) }
    {
        match note.noted {
            Noted::Case(_) => {
                let number = step_number(edges.len() as u64)?;
                let to = place(self.alloc, note.path.as_slice(), &[], Side::Before)?;
                edges.push(DraftEdge {
                    label: Label::Case(number),
                    to,
                })?;
                Ok(())
            }
            Noted::Status => Ok(()),
            Noted::Label(_) => Ok(()),
            Noted::Default => Ok(()),
        }
    }

    /// Edges to each `case`, in written order, and to where no `case` leads.
    fn each_case(&self, marks: &[Note], otherwise: Place) -> Result<Vec<DraftEdge>, OutOfMemory>
        ensures { IfOk result (λ es. map plain_edge es.items
            ≡ map edge_drafted (form.case_edges 0 (spec.marked (spec.plain_notes (tables self.now) marks.now)))
            ++ spec.default_edge (plain_place otherwise) ∷ []) }
    {
        let mut edges = Vec::new(self.alloc);
        let mut rest = marks;
        'rest: while let Some(first) = rest.split_first() {
            self.put_case(first.0, &mut edges)?;
            rest = first.1;
        }
        edges.push(DraftEdge {
            label: Label::Default,
            to: otherwise,
        })?;
        Ok(edges)
    }

    /// The edges that leave the test of a `switch` with these labels.
    fn switch_edges(
        &self,
        constancy: Constancy,
        marks: &[Note],
        past: Place,
    ) -> Result<Vec<DraftEdge>, OutOfMemory>
        ensures { IfOk result (λ es. map plain_edge es.items
            ≡ map edge_drafted (form.switch_edges (plain_constancy (readings (tables self.now)) constancy)
            (spec.marked (spec.plain_notes (tables self.now) marks.now)) (places.leads (plain_place past)))) }
    {
        let otherwise = self.default_place(marks, past)?;
        match constancy {
            Constancy::Varying => self.each_case(marks, otherwise),
            Constancy::Valueless => self.each_case(marks, otherwise),
            Constancy::Known(value) => {
                let to = self.case_place(value, marks, otherwise)?;
                Ok(one_edge(self.alloc, to)?)
            }
        }
    }

    /// Draws the expression of a `switch` with this path, whose statement is this, and its test.
    pub(crate) fn switch_on(
        &self,
        x: ExprId,
        body: StmtId,
        path: &[u32],
        past: Place,
        drawing: &mut Drawing,
    ) -> Result<(), OutOfMemory>
        requires value { x.0 < length (tables self.now).exprs }
        requires body { body.0 < length (tables self.now).stmts }
        ensures { OnOk result (made self.now drawing.new
            ≡ switched_before (part.below path.now part.Controlling) (tree (tables self.now) x.0)
            (form.marks (part.below path.now part.Controlled) (statement (tables self.now) body.0))
            (plain_place past) (made self.now drawing.old)) }
    {
        let mut marks = Vec::new(self.alloc);
        self.note_part(body, 1, false, path, &mut marks)?;
        let known = self.facts(x);
        let inside = below(self.alloc, path, 0)?;
        let here = inside.as_slice();
        let labels = marks.as_slice();
        let at = place(self.alloc, here, &[], Side::Test)?;
        let edges = self.switch_edges(known.constancy, labels, past)?;
        drawing.put(self.alloc, at, Happening::Passes, known.first.span, edges)?;
        self.evaluate(x, here, drawing)?;
        Ok(())
    }
}
