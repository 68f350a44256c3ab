//! The declarations and statements of a project (6.7, 6.8), each statement over those before it.
ghost use Rattle.std.specs.Prelude.{◌≡◌, ◌<◌, true, [], ◌∷◌, ◌++◌, length, IfOk, OnOk, OnErr};
ghost use Rattle.ck_tables.specs.StmtTable as spec;
ghost use Rattle.ck_tables.specs.Rows.{IsRow};

use crate::exprs::{ExprId, Part};
use crate::facts::{EntryId, NameId, ValueId};
use crate::inits::InitId;
use ck_base::{OutOfMemory, Token};
use ck_types::TypeId;
use std::alloc::Global;
use std::marker::Model;
use std::mem::size_of;

/// The number of a declaration in a project's list of written declarations.
#[derive(Clone, Copy, Debug, PartialEq, Eq)]
pub struct DeclarationId(pub u32);

/// The number of a statement in a project's table of statements.
#[derive(Clone, Copy, Debug, PartialEq, Eq)]
pub struct StmtId(pub u32);

/// What is known of a name that a declaration or a definition declares, at the end of its declarator and initialiser.
#[derive(Clone, Copy)]
pub struct DeclaredFacts {
    /// the name's declaration
    pub entry: EntryId,
    /// its type is complete (6.2.5), as the result of a function is
    pub complete: bool,
    /// its initialiser makes it too large
    pub large: bool,
    /// it is declared as a variable that may keep the kernel's status
    pub status: bool,
}

/// A declarator of a declaration, with what is written in it.
#[derive(Drop)]
pub struct Declared {
    /// what is written in the declarator
    pub written: Vec<Part>,
    /// the name
    pub facts: DeclaredFacts,
    /// its initialiser, if any
    pub initialiser: Option<InitId>,
}

/// A declaration (6.7).
#[derive(Drop)]
pub struct Declaration {
    /// its first token
    pub first: Token,
    /// what is written in its specifiers
    pub written: Vec<Part>,
    /// its declarators
    pub declared: Vec<Declared>,
}

/// The first part of a `for` (6.8.5.3).
#[derive(Clone, Copy)]
pub enum Start {
    Empty,
    Expression(ExprId),
    Declaration(DeclarationId),
}

/// Where a jump leads (6.8.6).
#[derive(Clone, Copy)]
pub enum Jumping {
    Breaks,
    Continues,
}

/// An item of a block (6.8.2).
#[derive(Clone, Copy)]
pub enum Item {
    Declaration(DeclarationId),
    Statement(StmtId),
}

/// A statement over those before it, with its first token.
#[derive(Drop)]
pub enum StmtNode {
    /// 6.8.2
    Block {
        first: Token,
        items: Vec<Item>,
    },
    /// 6.8.3
    Empty {
        first: Token,
    },
    /// 6.8.3
    Expression {
        value: ExprId,
    },
    /// 6.8.4.1
    If {
        keyword: Token,
        test: ExprId,
        controlled: StmtId,
    },
    /// 6.8.4.1
    IfElse {
        keyword: Token,
        test: ExprId,
        controlled: StmtId,
        otherwise: StmtId,
    },
    /// 6.8.4.2
    Switch {
        keyword: Token,
        value: ExprId,
        body: StmtId,
    },
    /// 6.8.5.1
    While {
        keyword: Token,
        test: ExprId,
        body: StmtId,
    },
    /// 6.8.5.2
    Do {
        keyword: Token,
        body: StmtId,
        test: ExprId,
    },
    /// 6.8.5.3
    For {
        keyword: Token,
        start: Start,
        test: Option<ExprId>,
        step: Option<ExprId>,
        body: StmtId,
    },
    /// whether it is in a `switch`, and the value of the label in the type of the `switch`, if it has one (6.8.1)
    Case {
        keyword: Token,
        in_switch: bool,
        value: ExprId,
        converted: Option<ValueId>,
        labelled: StmtId,
    },
    /// whether it is in a `switch` (6.8.1)
    Default {
        keyword: Token,
        in_switch: bool,
        labelled: StmtId,
    },
    /// 6.8.1
    Label {
        name: Token,
        text: NameId,
        labelled: StmtId,
    },
    /// 6.8.6.1
    Goto {
        keyword: Token,
        text: NameId,
    },
    /// `break` or `continue`, and whether it is in what it leaves or goes on with (6.8.6)
    Jump {
        keyword: Token,
        to: Jumping,
        found: bool,
    },
    /// 6.8.6.4
    Return {
        keyword: Token,
    },
    /// with the result that the function declares (6.8.6.4)
    ReturnValue {
        keyword: Token,
        result: Option<TypeId>,
        value: ExprId,
    },
}

// what a statement takes
const _: () = prove!(size_of::<StmtNode>() == 48);

/// The statements of a project. It is seen as the list of its nodes, each of which names smaller numbers alone; which
/// typed trees its numbers stand for is in `specs/StmtTable.antt`.
#[derive(Drop)]
pub struct Stmts {
    nodes: Vec<StmtNode>,
}

impl Model for Stmts {
    ghost use Rattle.std.specs.Prelude.{List};
    ghost use Rattle.ck_tables.specs.StmtTable.{IsOrdered};
    ghost use Rattle.ck_tables.specs.declared.stmts.StmtNode.{StmtNode as TableNode};

    ghost Value = { List TableNode };

    ghost view = { λ t. t.nodes.items };

    ghost invariant = { λ t. IsOrdered t.nodes.items };
}

#[tactic(auto, using(crate::proofs::StmtLemmas::growing))]
impl Stmts {
    /// A table without statements.
    pub fn new(alloc: Global) -> Stmts
        ensures { result ≡ [] }
    {
        Stmts {
            nodes: Vec::new(alloc),
        }
    }

    /// Adds a statement over those before it, and gives its number. What was there stays.
    pub fn push(&mut self, node: StmtNode) -> Result<StmtId, OutOfMemory>
        requires { spec.reads_below (length self.old) node ≡ true }
        ensures kept { spec.Keeps self.old self.new }
        ensures nodes { OnOk result (self.new ≡ self.old ++ node ∷ []) }
        ensures unchanged { OnErr result (self.new ≡ self.old) }
        ensures number { IfOk result (λ id. id.0 ≡ length self.old) }
        ensures known { IfOk result (λ id. id.0 < length self.new) }
        ensures meaning { IfOk result (λ id. spec.IsNode self.new id.0 node) }
    {
        let Ok(number) = u32::try_from(self.nodes.len()) else {
            return Err(OutOfMemory);
        };
        self.nodes.push(node)?;
        Ok(StmtId(number))
    }

    /// A statement by its number. It names smaller numbers alone.
    pub fn node(&self, id: StmtId) -> &StmtNode
        requires { id.0 < length self.now }
        ensures row { IsRow self.now id.0 result.now }
        ensures meaning { spec.IsNode self.now id.0 result.now }
    {
        &self.nodes[id.0 as usize]
    }
}
