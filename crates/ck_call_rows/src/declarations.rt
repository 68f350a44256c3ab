//! The calls of declarations (6.7), and of the start of a `for` (6.8.5.3).
ghost use Rattle.std.specs.Prelude.{◌≡◌, ◌<◌, ◌∷◌, ◌++◌, [], true, length, OnOk};
ghost use Rattle.std.specs.List.{list_all};
ghost use Rattle.ck_call_rows.specs.Walks as spec;
ghost use Rattle.ck_call_rows.specs.Walks.{tables, path_of};
ghost use Rattle.ck_prog.specs.Calls as calls;
ghost use Rattle.ck_tables.specs.Numbers as fit;
ghost use Rattle.ck_tables.specs.Numbers.{numbers};
ghost use Rattle.ck_tables.specs.Program.{with_initialisers, declaration_of, body_readings};
ghost use Rattle.ck_tables.specs.StmtTable as table;

use crate::trail::Trail;
use crate::walk::Walk;
use ck_base::OutOfMemory;
use ck_tables::{CallInfo, DeclarationId, Declared, InitId, Rows, Start};

impl Walk<'_> {
    /// Adds the calls of the initialiser to which a step leads, if there is one.
    fn given<'b>(
        &self,
        given: Option<InitId>,
        step: u64,
        path: &'b Trail<'b>,
        rows: &mut Rows<CallInfo>,
    ) -> Result<(), OutOfMemory>
        requires { fit.fits_if_any (fit.initialiser_fits (numbers (tables self.now))) given ≡ true }
        ensures { OnOk result (spec.Adds self.now rows.old.rows.items rows.new.rows.items
            (calls.calls_in_given (path_of path.now ++ step ∷ [])
            (table.plain_initialiser (with_initialisers (tables self.now)) given))) }
    {
        match given {
            None => Ok(()),
            Some(initialiser) => {
                let inside = path.below(step);
                self.initialiser(initialiser, &inside, rows)
            }
        }
    }

    /// Adds the calls of the declarators of a declaration with this path.
    fn declarators<'b>(
        &self,
        declared: &[Declared],
        path: &'b Trail<'b>,
        rows: &mut Rows<CallInfo>,
    ) -> Result<(), OutOfMemory>
        requires { list_all (fit.declarator_fits (numbers (tables self.now))) declared.now ≡ true }
        ensures { OnOk result (spec.Adds self.now rows.old.rows.items rows.new.rows.items
            (calls.calls_in_declarators (path_of path.now) 0
            (table.declarators_of (with_initialisers (tables self.now)) declared.now))) }
    {
        'each: for (number, declarator) in declared.iter().enumerate() {
            self.given(declarator.initialiser, number as u64, path, rows)?;
        }
        Ok(())
    }

    /// Adds the calls of a declaration with this path.
    #[tactic(auto, unfolding(ck_tables::specs::Numbers::declaration_row_fits))]
    pub(crate) fn declaration<'b>(
        &self,
        id: DeclarationId,
        path: &'b Trail<'b>,
        rows: &mut Rows<CallInfo>,
    ) -> Result<(), OutOfMemory>
        requires { id.0 < length (tables self.now).declarations.rows.items }
        ensures { OnOk result (spec.Adds self.now rows.old.rows.items rows.new.rows.items
            (calls.calls_in_declaration (path_of path.now) (declaration_of (tables self.now) id.0))) }
    {
        let written = self.declaration_row(id);
        self.declarators(written.declared.as_slice(), path, rows)
    }

    /// Adds the calls of the start of a `for`, with this path.
    pub(crate) fn start<'b>(
        &self,
        start: Start,
        path: &'b Trail<'b>,
        rows: &mut Rows<CallInfo>,
    ) -> Result<(), OutOfMemory>
        requires { fit.start_fits (numbers (tables self.now)) start ≡ true }
        ensures { OnOk result (spec.Adds self.now rows.old.rows.items rows.new.rows.items
            (calls.calls_in_start (path_of path.now) (table.plain_start (body_readings (tables self.now)) start))) }
    {
        match start {
            Start::Empty => Ok(()),
            Start::Expression(x) => self.expression(x, path, rows),
            Start::Declaration(id) => self.declaration(id, path, rows),
        }
    }
}
