//! The expressions of a project, each over those before it.
ghost use Rattle.std.specs.Prelude.{◌≡◌, ◌<◌, true, [], ◌∷◌, ◌++◌, length, IfOk, OnOk, OnErr};
ghost use Rattle.ck_tables.specs.ExprTable as spec;
ghost use Rattle.ck_tables.specs.Rows.{IsRow};

use crate::facts::{Constancy, DeclaratorFacts, EntryId, Facts, Layout, MemberId};
use ck_base::{OutOfMemory, Token};
use ck_prog::{Assigning, Operator, Prefix};
use smallvec::SmallVec;
use std::alloc::Global;
use std::marker::Model;
use std::mem::size_of;

/// The number of an expression in a project's table of expressions.
#[derive(Clone, Copy, Debug, PartialEq, Eq)]
pub struct ExprId(pub u32);

/// An operator with its right operand.
#[derive(Clone, Copy)]
pub struct Link {
    /// the operator
    pub operator: Operator,
    /// its right operand
    pub operand: ExprId,
    /// the value of the chain up to there
    pub facts: Facts,
}

/// A suffix of an expression (6.5.2), with the value of the row up to it.
#[derive(Drop)]
pub enum Step {
    /// `[`, and the index (6.5.2.1)
    Index {
        opening: Token,
        index: ExprId,
        facts: Facts,
    },
    /// `(`, the function that is called by its name, if one is, and the arguments (6.5.2.2)
    Call {
        opening: Token,
        function: Option<EntryId>,
        arguments: SmallVec<ExprId, 4>,
        facts: Facts,
    },
    /// `.` or else `->`, the member's name, and the member (6.5.2.3)
    Access {
        is_dot: bool,
        name: Token,
        member: Option<MemberId>,
        facts: Facts,
    },
    /// `++` or `--` (6.5.2.4)
    PostIncrement {
        token: Token,
        operator: Prefix,
        facts: Facts,
    },
}

/// A part of what is written in specifiers and declarators.
#[derive(Clone, Copy)]
pub enum Part {
    /// `struct` or `enum`, a tag without a body, and what the tag means (6.7.2.3)
    Mention {
        keyword: Token,
        tag: Token,
        entry: Option<EntryId>,
    },
    /// the `struct` of a body, and the size of all its members (6.7.2.1)
    StructBody {
        keyword: Token,
        layout: Option<Layout>,
    },
    /// an enumeration constant's value, with the token where it is written or else the constant's name (6.7.2.2)
    EnumeratorValue {
        spot: Token,
        constancy: Constancy,
    },
    /// the expression of an enumeration constant's value
    Expression(ExprId),
    /// a size, and whether the array with that size is too large (6.7.5.2)
    ArraySize {
        size: ExprId,
        too_large: bool,
    },
    /// a whole declarator (6.7.5)
    Declarator(DeclaratorFacts),
}

/// An expression over those before it (6.5).
#[derive(Drop)]
pub enum ExprNode {
    /// a name, and what it means (6.5.1)
    Name {
        facts: Facts,
        entry: Option<EntryId>,
    },
    /// a constant (6.5.1)
    Constant {
        facts: Facts,
    },
    /// string literals beside each other, of which the first is the expression's first token (6.5.1)
    Strings {
        facts: Facts,
        others: Vec<Token>,
    },
    /// an expression in parentheses (6.5.1)
    Paren {
        facts: Facts,
        inner: ExprId,
    },
    /// an expression and its suffixes (6.5.2)
    Postfix {
        primary: ExprId,
        steps: Vec<Step>,
    },
    /// an operator before its operand (6.5.3)
    Unary {
        facts: Facts,
        operator: Prefix,
        operand: ExprId,
    },
    /// `sizeof` of a type, and what is written in it (6.5.3.4)
    SizeofType {
        facts: Facts,
        written: Vec<Part>,
    },
    /// a cast, and what is written in its type (6.5.4)
    Cast {
        facts: Facts,
        operand: ExprId,
        written: Vec<Part>,
    },
    /// a first operand, and operators with their right operands (6.5.5 to 6.5.14, 6.5.17)
    Chain {
        first: ExprId,
        links: SmallVec<Link, 1>,
    },
    /// `? :` (6.5.15)
    Conditional {
        facts: Facts,
        test: ExprId,
        second: ExprId,
        third: ExprId,
    },
    /// an assignment (6.5.16)
    Assignment {
        facts: Facts,
        operator: Assigning,
        target: ExprId,
        value: ExprId,
    },
}

// what a node, a suffix and a further operand take (docs/DECISIONS.md, "Tables of a project")
const _: () = prove!(size_of::<ExprNode>() == 72);

const _: () = prove!(size_of::<Step>() == 104);

const _: () = prove!(size_of::<Link>() == 48);

/// The expressions of a project. It is seen as the list of its nodes, each of which names smaller numbers alone; which
/// typed trees its numbers stand for is in `specs/ExprTable.antt`.
#[derive(Drop)]
pub struct Exprs {
    nodes: Vec<ExprNode>,
}

impl Model for Exprs {
    ghost use Rattle.std.specs.Prelude.{List};
    ghost use Rattle.ck_tables.specs.ExprTable.{IsOrdered};
    ghost use Rattle.ck_tables.specs.declared.exprs.ExprNode.{ExprNode as TableNode};

    ghost Value = { List TableNode };

    ghost view = { λ t. t.nodes.items };

    ghost invariant = { λ t. IsOrdered t.nodes.items };
}

#[tactic(auto, using(crate::proofs::ExprLemmas::growing))]
impl Exprs {
    /// A table without expressions.
    pub fn new(alloc: Global) -> Exprs
        ensures { result ≡ [] }
    {
        Exprs {
            nodes: Vec::new(alloc),
        }
    }

    /// Adds an expression over those before it, and gives its number. What was there stays.
    pub fn push(&mut self, node: ExprNode) -> Result<ExprId, OutOfMemory>
        requires { spec.reads_below (length self.old) node ≡ true }
        ensures kept { spec.Keeps self.old self.new }
        ensures nodes { OnOk result (self.new ≡ self.old ++ node ∷ []) }
        ensures unchanged { OnErr result (self.new ≡ self.old) }
        ensures number { IfOk result (λ id. id.0 ≡ length self.old) }
        ensures known { IfOk result (λ id. id.0 < length self.new) }
        ensures meaning { IfOk result (λ id. spec.IsNode self.new id.0 node) }
    {
        let Ok(number) = u32::try_from(self.nodes.len()) else {
            return Err(OutOfMemory);
        };
        self.nodes.push(node)?;
        Ok(ExprId(number))
    }

    /// An expression by its number. It names smaller numbers alone.
    pub fn node(&self, id: ExprId) -> &ExprNode
        requires { id.0 < length self.now }
        ensures row { IsRow self.now id.0 result.now }
        ensures meaning { spec.IsNode self.now id.0 result.now }
    {
        &self.nodes[id.0 as usize]
    }
}
