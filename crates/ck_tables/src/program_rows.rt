//! What a typed project numbers beyond its linked tables: calls and slots, and what names, members and functions reach
//! by these numbers.
use crate::exprs::ExprId;
use crate::facts::{EntryId, MemberId, NameId};
use crate::program::SlotInfo;
use crate::rows::Rows;
use ck_base::{FnId, Op, SlotId, Token};
use ck_graph::ActName;
use smallvec::SmallVec;

/// What a call calls.
#[derive(Clone, Copy)]
pub enum Callee {
    /// the function of this number, by its name
    Function(FnId),
    /// what the expression before the suffix gives
    Expression,
}

/// An evaluated call that is no act.
#[derive(Drop)]
pub struct CallInfo {
    /// the function whose body it is in
    pub function: FnId,
    /// the row of suffixes of which it is one (6.5.2)
    pub node: ExprId,
    /// the way from the body down to that row, by the numbers of the parts
    pub path: SmallVec<u32, 8>,
    /// which of the suffixes it is, from 0
    pub suffix: u32,
    /// where its expression begins
    pub first: Token,
    /// what it calls
    pub callee: Callee,
}

/// What a declared name reaches where it is used.
#[derive(Clone, Copy)]
pub struct UseInfo {
    /// the act that a call of the function by this name is, if it is one
    pub act: Option<ActName>,
    /// the number of the function, if it is one with a body
    pub function: Option<FnId>,
    /// the slot of the variable, or of the function's result
    pub slot: Option<SlotId>,
}

/// A member of a struct: its declaration, and its row.
#[derive(Clone, Copy)]
pub struct StructMember {
    /// its declaration
    pub entry: EntryId,
    /// its row in the table of members
    pub member: MemberId,
}

/// The members of a struct.
#[derive(Drop)]
pub struct StructInfo {
    /// in the order in which they are declared (6.7.2.1)
    pub members: Vec<StructMember>,
}

/// A function that the settings name.
#[derive(Clone, Copy)]
pub struct OutsideInfo {
    /// its name
    pub name: NameId,
    /// what a call of it does to the state
    pub op: Op,
}

/// What a typed project numbers. Which rows these are by ck_prog's definitions is in `specs/ProgramRows.antt`.
#[derive(Drop)]
pub struct ProgramRows {
    /// its evaluated calls that are no acts, by function and then by path
    pub calls: Rows<CallInfo>,
    /// its slots, by `SlotId`
    pub slots: Rows<SlotInfo>,
    /// what its declared names reach, by `EntryId`
    pub uses: Rows<UseInfo>,
    /// the slots of its members, by `MemberId`
    pub member_slots: Rows<Option<SlotId>>,
    /// its structs, by `StructId`
    pub structs: Rows<StructInfo>,
    /// the status variable of each function with a body, by `FnId`
    pub statuses: Rows<Option<EntryId>>,
    /// the functions that the settings name, in written order
    pub outside: Rows<OutsideInfo>,
}
