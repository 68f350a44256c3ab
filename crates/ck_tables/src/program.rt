//! The tables of a project that is linked.
use crate::entries::{EntryInfo, MemberInfo, StructName};
use crate::exprs::{Exprs, Part};
use crate::inits::Inits;
use crate::names::Names;
use crate::rows::Rows;
use crate::stmts::{Declaration, DeclarationId, DeclaredFacts, Item, Stmts};
use crate::subobjects::Subobjects;
use ck_base::{FnId, Token};
use ck_types::{StructId, TypeId, Types};
use smallvec::SmallVec;

/// A function with a body (6.9.1).
#[derive(Drop)]
pub struct Body {
    /// its name
    pub declared: DeclaredFacts,
    /// the scope of its parameters and of its outermost block
    pub scope: SmallVec<u32, 4>,
    /// what is written in its specifiers and its declarator
    pub written: Vec<Part>,
    /// what is written in its parameters, again
    pub parameters: Vec<Part>,
    /// the items of its outermost block
    pub items: Vec<Item>,
}

/// What a file declares or defines (6.9).
#[derive(Clone, Copy)]
pub enum External {
    Declaration(DeclarationId),
    Definition(FnId),
}

/// A file.
#[derive(Drop)]
pub struct FileInfo {
    /// what it declares and defines, in written order
    pub externals: Vec<External>,
}

/// What a slot is of: a place that holds function pointers.
#[derive(Clone, Copy)]
pub enum SlotKind {
    /// a variable, or a parameter of a function with a body
    Variable,
    /// a member of a struct
    Member(StructId),
    /// the result of a function with a body
    Result,
}

/// A slot.
#[derive(Clone, Copy)]
pub struct SlotInfo {
    /// what it is of
    pub of: SlotKind,
    /// the name that first declares it
    pub at: Token,
    /// the type of the variable, the member or the result
    pub type_id: TypeId,
}

/// A project whose names are linked. What its numbers stand for is in `specs/Program.antt`.
#[derive(Drop)]
pub struct Linked {
    /// its types, each once
    pub types: Types,
    /// its names, each once
    pub names: Names,
    /// the values of its constant expressions and labels, by `ValueId`
    pub values: Rows<i128>,
    /// its structs, by `StructId`; each names structs of smaller numbers alone
    pub structs: Rows<StructName>,
    /// the members of its structs, by `MemberId`
    pub members: Rows<MemberInfo>,
    /// its declarations, by `EntryId`, in the order in which they come
    pub entries: Rows<EntryInfo>,
    /// its expressions
    pub exprs: Exprs,
    /// the parts of the objects that it initialises
    pub subobjects: Subobjects,
    /// its initialisers
    pub inits: Inits,
    /// its declarations as they are written, by `DeclarationId`
    pub declarations: Rows<Declaration>,
    /// its statements
    pub stmts: Stmts,
    /// its functions with a body, by `FnId`
    pub bodies: Rows<Body>,
    /// its files
    pub files: Rows<FileInfo>,
}
