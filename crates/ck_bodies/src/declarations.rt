//! The points of declarations (6.7), and of the start of a `for` (6.8.5.3).
ghost use Rattle.std.specs.Prelude.{◌≡◌, ◌<◌, ◌++◌, [], ◌∷◌, true, length, OnOk};
ghost use Rattle.std.specs.List.{list_all};
ghost use Rattle.ck_bodies.specs.DrawnStatements as spec;
ghost use Rattle.ck_bodies.specs.Walks.{tables, made, Evaluates};
ghost use Rattle.ck_points.specs.Initialising as form;
ghost use Rattle.ck_tables.specs.Numbers as fit;
ghost use Rattle.ck_tables.specs.Numbers.{numbers};
ghost use Rattle.ck_tables.specs.Program.{with_initialisers, declaration_of, body_readings, readings};
ghost use Rattle.ck_tables.specs.Readings.{BodyReadings};
ghost use Rattle.ck_tables.specs.StmtTable as table;

use crate::walk::BodyWalk;
use ck_base::OutOfMemory;
use ck_passages::{Drawing, below};
use ck_tables::{Declaration, DeclarationId, Declared, Start};

/// Whether one of these declarators has an initialiser.
fn has_initialiser(declared: &[Declared]) -> bool
    ensures { (b : BodyReadings) → result ≡ form.has_initialiser (table.declarators_of b declared.now) }
{
    let mut rest = declared;
    'rest: while let Some(first) = rest.split_first() {
        if first.0.initialiser.is_some() {
            return true;
        }
        rest = first.1;
    }
    false
}

impl<'a> BodyWalk<'a> {
    /// Draws the declarator of this number.
    fn declarator(
        &self,
        declared: &Declared,
        path: &[u32],
        number: u64,
        drawing: &mut Drawing,
    ) -> Result<(), OutOfMemory>
        requires { fit.declarator_fits (numbers (tables self.now)) declared.now ≡ true }
        ensures { OnOk result
            (Evaluates self.now
            (form.declared (path.now ++ number ∷ [])
            (table.plain_declared_facts (readings (tables self.now)) declared.now.facts)
            (table.plain_initialiser (with_initialisers (tables self.now)) declared.now.initialiser)) drawing.old
            drawing.new) }
    {
        match declared.initialiser {
            None => Ok(()),
            Some(initialiser) => {
                let inside = below(self.alloc, path, number)?;
                self.initialiser(initialiser, inside.as_slice(), drawing)?;
                Ok(())
            }
        }
    }

    /// Draws the declarators of a declaration with this path, from the last to the first.
    fn declarators(
        &self,
        declared: &[Declared],
        path: &[u32],
        drawing: &mut Drawing,
    ) -> Result<(), OutOfMemory>
        requires { list_all (fit.declarator_fits (numbers (tables self.now))) declared.now ≡ true }
        ensures { OnOk result
            (Evaluates self.now
            (form.declaring path.now 0 (table.declarators_of (with_initialisers (tables self.now)) declared.now))
            drawing.old drawing.new) }
    {
        let mut rest = declared;
        'rest: while let Some(last) = rest.split_last() {
            let number = last.1.len() as u64;
            self.declarator(last.0, path, number, drawing)?;
            rest = last.1;
        }
        Ok(())
    }

    /// Draws a declaration with this path, as it is written.
    fn written(
        &self,
        written: &Declaration,
        path: &[u32],
        drawing: &mut Drawing,
    ) -> Result<(), OutOfMemory>
        requires { list_all (fit.declarator_fits (numbers (tables self.now))) written.now.declared.items ≡ true }
        ensures { OnOk result (made self.now drawing.new
            ≡ spec.draw_declaration path.now
            (table.plain_declaration (with_initialisers (tables self.now)) written.now)
            (made self.now drawing.old)) }
    {
        let declared = written.declared.as_slice();
        if !has_initialiser(declared) {
            return Ok(());
        }
        self.put_after(path, written.first, drawing)?;
        self.declarators(declared, path, drawing)?;
        self.put_before(path, written.first, drawing)
    }

    /// Draws a declaration with this path: it has points where a declarator has an initialiser.
    pub(crate) fn declaration(
        &self,
        id: DeclarationId,
        path: &[u32],
        drawing: &mut Drawing,
    ) -> Result<(), OutOfMemory>
        requires { id.0 < length (tables self.now).declarations.rows.items }
        ensures { OnOk result (made self.now drawing.new
            ≡ spec.draw_declaration path.now (declaration_of (tables self.now) id.0) (made self.now drawing.old)) }
    {
        let written = self.program.declaration(id);
        self.written(written, path, drawing)
    }

    /// Draws the start of a `for`, with this path.
    pub(crate) fn start(
        &self,
        start: Start,
        path: &[u32],
        drawing: &mut Drawing,
    ) -> Result<(), OutOfMemory>
        requires { fit.start_fits (numbers (tables self.now)) start ≡ true }
        ensures { OnOk result (made self.now drawing.new
            ≡ spec.draw_start path.now (table.plain_start (body_readings (tables self.now)) start)
            (made self.now drawing.old)) }
    {
        match start {
            Start::Empty => Ok(()),
            Start::Expression(x) => self.evaluate(x, path, drawing),
            Start::Declaration(id) => self.declaration(id, path, drawing),
        }
    }
}
