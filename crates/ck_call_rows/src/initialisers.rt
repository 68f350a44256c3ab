//! The calls of initialisers (6.7.8).
ghost use Rattle.std.specs.Prelude.{◌≡◌, ◌<◌, true, length, OnOk};
ghost use Rattle.ck_call_rows.specs.Walks as spec;
ghost use Rattle.ck_call_rows.specs.Walks.{tables, initialiser, element_initialiser, path_of};
ghost use Rattle.ck_prog.specs.Calls as calls;
ghost use Rattle.ck_tables.specs.InitTable.{row_of, row_below};
ghost use Rattle.ck_tables.specs.Program.{with_expressions};

use crate::trail::Trail;
use crate::walk::Walk;
use ck_base::OutOfMemory;
use ck_tables::{CallInfo, InitId, InitItem, InitNode, Rows};

/// The initialiser of an element of braces.
fn initialiser_of(element: &InitItem) -> InitId
    ensures { result ≡ element_initialiser element.now }
{
    match element {
        InitItem::Plain { initialiser } => *initialiser,
        InitItem::Designated { initialiser, .. } => *initialiser,
    }
}

impl Walk<'_> {
    /// Adds the calls of an initialiser with this path. One that is an expression has the path of the expression.
    #[cycle(initialisers)]
    #[tactic(auto, unfolding(ck_tables::specs::Numbers::initialiser_node_fits))]
    pub(crate) fn initialiser<'b>(
        &self,
        id: InitId,
        path: &'b Trail<'b>,
        rows: &mut Rows<CallInfo>,
    ) -> Result<(), OutOfMemory>
        requires { id.0 < length (tables self.now).inits }
        ensures { OnOk result (spec.Adds self.now rows.old.rows.items rows.new.rows.items
            (calls.calls_in_initialiser (path_of path.now) (initialiser (tables self.now) id.0))) }
    {
        match self.initialiser_node(id) {
            InitNode::Value { value, .. } => self.expression(*value, path, rows),
            InitNode::Braces { row, .. } => self.elements(id, row.as_slice(), path, rows),
        }
    }

    /// Adds the calls of the elements of braces with this path.
    #[cycle(initialisers)]
    fn elements<'b>(
        &self,
        of: InitId,
        row: &[InitItem],
        path: &'b Trail<'b>,
        rows: &mut Rows<CallInfo>,
    ) -> Result<(), OutOfMemory>
        requires of { of.0 < length (tables self.now).inits }
        requires below { row_below of.0 row.now ≡ true }
        ensures { OnOk result (spec.Adds self.now rows.old.rows.items rows.new.rows.items
            (calls.calls_in_initialisers (path_of path.now) 0
            (row_of (with_expressions (tables self.now)) (initialiser (tables self.now)) row.now))) }
    {
        'each: for (number, element) in row.iter().enumerate() {
            let inside = path.below(number as u64);
            self.initialiser(initialiser_of(element), &inside, rows)?;
        }
        Ok(())
    }
}
