//! A project in memory: tables of nodes that name smaller numbers.
//!
//! In: nodes of expressions, subobjects, initialisers and statements, each over those before it; rows of names,
//! structs, members, declarations, functions and files. Out: their numbers, and readers by number. What a number stands
//! for is a typed tree of ck_prog, by one fold over each table (`specs/Tables.antt`), whatever the numbers of
//! other tables stand for; `specs/Program.antt` joins the tables. A table grows at its end alone, and what was
//! there stands for what it stood for. `Program` has the tables of a typed project with its calls and slots, and
//! names numbers alone that it has (`specs/Numbers.antt`, `specs/ProgramRows.antt`); `Targets` has the functions
//! that calls and slots may reach.
//!
//! It must not know: the parser's trees, the text of a token, scopes that are open, what is refused.
#![tactic(auto)]

mod entries;
mod expr_facts;
mod exprs;
mod facts;
mod inits;
mod laws;
mod names;
mod program;
mod program_rows;
mod rows;
mod stmts;
mod subobjects;
mod targets;
mod typed;

pub use entries::{EntryInfo, MeaningInfo, MemberInfo, StructName};
pub use exprs::{ExprId, ExprNode, Exprs, Link, Part, Step};
pub use facts::{
    Constancy, DeclaratorFacts, EntryId, Facts, Layout, MemberId, NameId, Owner, QualifiedType,
    ValueId,
};
pub use inits::{
    Designation, Designator, InitFacts, InitId, InitItem, InitNode, InitObject, Inits,
};
pub use laws::{
    expressions_stay, initialisers_stay, rows_still_fit, statements_stay, subobjects_stay,
};
pub use names::Names;
pub use program::{Body, External, FileInfo, Linked, SlotInfo, SlotKind};
pub use program_rows::{
    CallInfo, Callee, OutsideInfo, ProgramRows, StructInfo, StructMember, UseInfo,
};
pub use rows::Rows;
pub use stmts::{
    Declaration, DeclarationId, Declared, DeclaredFacts, Item, Jumping, Start, StmtId, StmtNode,
    Stmts,
};
pub use subobjects::{Subobject, SubobjectId, Subobjects};
pub use targets::{ListId, Targets};
pub use typed::Program;
