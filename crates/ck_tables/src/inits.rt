//! The initialisers of a project (6.7.8), each over those before it.
ghost use Rattle.std.specs.Prelude.{◌≡◌, ◌<◌, true, [], ◌∷◌, ◌++◌, length, IfOk, OnOk, OnErr};
ghost use Rattle.ck_tables.specs.InitTable as spec;
ghost use Rattle.ck_tables.specs.Rows.{IsRow};

use crate::exprs::ExprId;
use crate::facts::MemberId;
use crate::subobjects::SubobjectId;
use ck_base::{OutOfMemory, Token};
use ck_types::TypeId;
use std::alloc::Global;
use std::marker::Model;
use std::mem::size_of;

/// The number of an initialiser in a project's table of initialisers.
#[derive(Clone, Copy, Debug, PartialEq, Eq)]
pub struct InitId(pub u32);

/// The object that is initialised, or a part of it.
#[derive(Clone, Copy)]
pub enum InitObject {
    /// there is no such part
    Missing,
    /// the whole object, with its type, where there is one
    Whole {
        type_id: Option<TypeId>,
    },
    /// a part, with its type, where there is one, and the last member on the path to it, if any
    Part {
        part: SubobjectId,
        type_id: Option<TypeId>,
        member: Option<MemberId>,
    },
}

/// What is known of an initialiser.
#[derive(Clone, Copy)]
pub struct InitFacts {
    /// the object or part that it is for
    pub object: InitObject,
    /// where it begins
    pub first: Token,
    /// the whole object has static storage duration
    pub in_static: bool,
}

/// A designator.
#[derive(Clone, Copy)]
pub enum Designator {
    /// `.` and a member: the first token, and whether there is such a member
    ToMember {
        dot: Token,
        found: bool,
    },
    /// `[` and an index, of what is an array or isn't: the first token, and whether there is such an element
    ToElement {
        opening: Token,
        of_array: bool,
        index: ExprId,
        found: bool,
    },
}

/// The designators before `=`.
#[derive(Drop)]
pub struct Designation {
    /// the first
    pub first: Designator,
    /// those after it
    pub others: Vec<Designator>,
}

/// An initialiser of a list in braces.
#[derive(Drop)]
pub enum InitItem {
    /// without designators
    Plain {
        initialiser: InitId,
    },
    /// with designators
    Designated {
        initialiser: InitId,
        designation: Box<Designation>,
    },
}

/// An initialiser over those before it.
#[derive(Drop)]
pub enum InitNode {
    /// an expression
    Value {
        facts: InitFacts,
        value: ExprId,
    },
    /// initialisers in braces
    Braces {
        facts: InitFacts,
        row: Vec<InitItem>,
    },
}

// what an initialiser takes, and its place in a list (docs/DECISIONS.md, "Tables of a project")
const _: () = prove!(size_of::<InitNode>() == 72);

const _: () = prove!(size_of::<InitItem>() == 16);

const _: () = prove!(size_of::<Designation>() == 56);

/// The initialisers of a project. It is seen as the list of its nodes, each of which names smaller numbers alone; which
/// typed trees its numbers stand for is in `specs/InitTable.antt`.
#[derive(Drop)]
pub struct Inits {
    nodes: Vec<InitNode>,
}

impl Model for Inits {
    ghost use Rattle.std.specs.Prelude.{List};
    ghost use Rattle.ck_tables.specs.InitTable.{IsOrdered};
    ghost use Rattle.ck_tables.specs.declared.inits.InitNode.{InitNode as TableNode};

    ghost Value = { List TableNode };

    ghost view = { λ t. t.nodes.items };

    ghost invariant = { λ t. IsOrdered t.nodes.items };
}

#[tactic(auto, using(crate::proofs::InitLemmas::growing))]
impl Inits {
    /// A table without initialisers.
    pub fn new(alloc: Global) -> Inits
        ensures { result ≡ [] }
    {
        Inits {
            nodes: Vec::new(alloc),
        }
    }

    /// Adds an initialiser over those before it, and gives its number. What was there stays.
    pub fn push(&mut self, node: InitNode) -> Result<InitId, OutOfMemory>
        requires { spec.reads_below (length self.old) node ≡ true }
        ensures kept { spec.Keeps self.old self.new }
        ensures nodes { OnOk result (self.new ≡ self.old ++ node ∷ []) }
        ensures unchanged { OnErr result (self.new ≡ self.old) }
        ensures number { IfOk result (λ id. id.0 ≡ length self.old) }
        ensures known { IfOk result (λ id. id.0 < length self.new) }
        ensures meaning { IfOk result (λ id. spec.IsNode self.new id.0 node) }
    {
        let Ok(number) = u32::try_from(self.nodes.len()) else {
            return Err(OutOfMemory);
        };
        self.nodes.push(node)?;
        Ok(InitId(number))
    }

    /// An initialiser by its number. It names smaller numbers alone.
    pub fn node(&self, id: InitId) -> &InitNode
        requires { id.0 < length self.now }
        ensures row { IsRow self.now id.0 result.now }
        ensures meaning { spec.IsNode self.now id.0 result.now }
    {
        &self.nodes[id.0 as usize]
    }
}
