//! The points of initialisers (6.7.8).
ghost use Rattle.std.specs.Prelude.{◌≡◌, ◌<◌, true, length, OnOk};
ghost use Rattle.ck_bodies.specs.Walks.{tables, initialiser, element_initialiser, Evaluates};
ghost use Rattle.ck_points.specs.Initialising as form;
ghost use Rattle.ck_tables.specs.InitTable.{row_of, row_below};
ghost use Rattle.ck_tables.specs.Program.{with_expressions};

use crate::walk::BodyWalk;
use ck_base::OutOfMemory;
use ck_passages::{Drawing, below};
use ck_tables::{InitId, InitItem, InitNode};

/// The initialiser of an element of braces.
fn initialiser_of(element: &InitItem) -> InitId
    ensures { result ≡ element_initialiser element.now }
{
    match element {
        InitItem::Plain { initialiser } => *initialiser,
        InitItem::Designated { initialiser, .. } => *initialiser,
    }
}

impl<'a> BodyWalk<'a> {
    /// Draws an initialiser with this path. One of an object of static storage duration is evaluated before the program
    /// starts.
    #[cycle(initialisers)]
    #[tactic(auto, unfolding(ck_tables::specs::Numbers::initialiser_node_fits))]
    pub(crate) fn initialiser(
        &self,
        id: InitId,
        path: &[u32],
        drawing: &mut Drawing,
    ) -> Result<(), OutOfMemory>
        requires { id.0 < length (tables self.now).inits }
        ensures { OnOk result
            (Evaluates self.now (form.initialising path.now (initialiser (tables self.now) id.0)) drawing.old
            drawing.new) }
    {
        let node = self.program.initialiser(id);
        match node {
            InitNode::Value { facts, value } => {
                if facts.in_static {
                    Ok(())
                } else {
                    self.evaluate(*value, path, drawing)
                }
            }
            InitNode::Braces { facts, row } => {
                let in_static = facts.in_static;
                if in_static {
                    Ok(())
                } else {
                    let elements = row.as_slice();
                    self.elements(id, elements, &*path, drawing)
                }
            }
        }
    }

    /// Draws the elements of braces with this path, from the last to the first.
    #[cycle(initialisers)]
    fn elements<'b>(
        &self,
        of: InitId,
        row: &'b [InitItem],
        path: &'b [u32],
        drawing: &mut Drawing,
    ) -> Result<(), OutOfMemory>
        requires node { of.0 < length (tables self.now).inits }
        requires row { row_below of.0 row.now ≡ true }
        ensures { OnOk result
            (Evaluates self.now
            (form.initialising_from path.now 0
            (row_of (with_expressions (tables self.now)) (initialiser (tables self.now)) row.now)) drawing.old
            drawing.new) }
    {
        let mut rest = row;
        'rest: while let Some(last) = rest.split_last() {
            let inside = below(self.alloc, path, last.1.len() as u64)?;
            let element = initialiser_of(last.0);
            self.initialiser(element, inside.as_slice(), drawing)?;
            rest = last.1;
        }
        Ok(())
    }
}
