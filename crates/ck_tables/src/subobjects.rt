//! The parts of objects that are initialised (6.7.8), each of a whole object or of a part before it.
ghost use Rattle.std.specs.Prelude.{◌≡◌, ◌<◌, true, [], ◌∷◌, ◌++◌, length, IfOk, OnOk, OnErr};
ghost use Rattle.ck_tables.specs.SubobjectTable as spec;
ghost use Rattle.ck_tables.specs.Rows.{IsRow};

use ck_base::OutOfMemory;
use std::alloc::Global;
use std::marker::Model;
use std::mem::size_of;

/// The number of a part in a project's table of subobjects.
#[derive(Clone, Copy, Debug, PartialEq, Eq)]
pub struct SubobjectId(pub u32);

/// A part of an object that is initialised (6.7.8).
#[derive(Clone, Copy)]
pub struct Subobject {
    /// the part that it is directly in; none where it is directly in the whole object
    pub within: Option<SubobjectId>,
    /// its number there: members and elements from 0
    pub number: u32,
}

// what a part takes (docs/DECISIONS.md, "Tables of a project")
const _: () = prove!(size_of::<Subobject>() == 12);

/// The parts of the objects that a project initialises. It is seen as the list of its rows, each of which names smaller
/// numbers alone; which paths its numbers stand for is in `specs/SubobjectTable.antt`.
#[derive(Drop)]
pub struct Subobjects {
    rows: Vec<Subobject>,
}

impl Model for Subobjects {
    ghost use Rattle.std.specs.Prelude.{List};
    ghost use Rattle.ck_tables.specs.SubobjectTable.{IsOrdered};
    ghost use Rattle.ck_tables.specs.declared.subobjects.Subobject.{Subobject as TableRow};

    ghost Value = { List TableRow };

    ghost view = { λ t. t.rows.items };

    ghost invariant = { λ t. IsOrdered t.rows.items };
}

#[tactic(auto, using(crate::proofs::SubobjectLemmas::growing))]
impl Subobjects {
    /// A table without parts.
    pub fn new(alloc: Global) -> Subobjects
        ensures { result ≡ [] }
    {
        Subobjects {
            rows: Vec::new(alloc),
        }
    }

    /// Adds a part of a whole object or of a part before it, and gives its number. What was there stays.
    pub fn push(&mut self, row: Subobject) -> Result<SubobjectId, OutOfMemory>
        requires { spec.reads_below (length self.old) row ≡ true }
        ensures kept { spec.Keeps self.old self.new }
        ensures rows { OnOk result (self.new ≡ self.old ++ row ∷ []) }
        ensures unchanged { OnErr result (self.new ≡ self.old) }
        ensures number { IfOk result (λ id. id.0 ≡ length self.old) }
        ensures known { IfOk result (λ id. id.0 < length self.new) }
        ensures meaning { IfOk result (λ id. spec.IsNode self.new id.0 row) }
    {
        let Ok(number) = u32::try_from(self.rows.len()) else {
            return Err(OutOfMemory);
        };
        self.rows.push(row)?;
        Ok(SubobjectId(number))
    }

    /// A part by its number. It names smaller numbers alone.
    pub fn row(&self, id: SubobjectId) -> Subobject
        requires { id.0 < length self.now }
        ensures row { IsRow self.now id.0 result }
        ensures meaning { spec.IsNode self.now id.0 result }
    {
        self.rows[id.0 as usize]
    }
}
