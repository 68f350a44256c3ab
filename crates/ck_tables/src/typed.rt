//! A project that is typed: its linked tables, and the rows of what is numbered in it. Each reader takes a number that
//! the project has, and no memory.
ghost use Rattle.std.specs.Prelude.{◌≡◌, true};
ghost use Rattle.ck_tables.specs.Numbers.{is_closed};
ghost use Rattle.ck_tables.specs.ProgramRows.{are_rows};

use crate::entries::{EntryInfo, MemberInfo};
use crate::exprs::{ExprId, ExprNode};
use crate::facts::{EntryId, MemberId};
use crate::inits::{InitId, InitNode};
use crate::program::{Body, Linked, SlotInfo};
use crate::program_rows::{CallInfo, OutsideInfo, ProgramRows, StructMember, UseInfo};
use crate::stmts::{Declaration, DeclarationId, StmtId, StmtNode};
use crate::subobjects::{Subobject, SubobjectId};
use ck_base::{FnId, SlotId, Token};
use ck_types::StructId;

/// A typed project. Each number that its tables and rows name is one of its own.
#[derive(Drop)]
pub struct Program {
    linked: Linked,
    rows: ProgramRows,
    pub ghost closed: { is_closed linked ≡ true },
    pub ghost fitting: { are_rows linked rows ≡ true },
}

/// The calls, slots and functions, and what the settings name.
impl Program {
    ghost use Rattle.std.specs.Prelude.{◌<◌, length};
    ghost use Rattle.ck_tables.specs.Numbers.{numbers, body_fits};
    ghost use Rattle.ck_tables.specs.Program.{functions, plain_body};
    ghost use Rattle.ck_tables.specs.ProgramRows as spec;
    ghost use Rattle.ck_tables.specs.Rows.{IsRow};

    /// A project of these tables and rows, each of whose numbers it has.
    pub fn new(linked: Linked, rows: ProgramRows) -> Program
        requires closed { is_closed linked ≡ true }
        requires fitting { are_rows linked rows ≡ true }
        ensures linked { result.linked ≡ linked }
        ensures rows { result.rows ≡ rows }
    {
        Program { linked, rows }
    }

    /// The linked tables.
    pub fn linked(&self) -> &Linked
        ensures { result.now ≡ self.now.linked }
    {
        &self.linked
    }

    /// How many evaluated calls there are that are no acts.
    pub fn calls(&self) -> usize
        ensures { result ≡ length (spec.calls_of self.now.linked self.now.rows) }
    {
        self.rows.calls.as_slice().len()
    }

    /// The call of a number: its function, its row of suffixes and which of them it is, its first token, what it calls.
    pub fn call(&self, number: u32) -> &CallInfo
        requires { number < length self.now.rows.calls.rows.items }
        ensures row { IsRow self.now.rows.calls.rows.items number result.now }
        ensures call { spec.IsCall self.now.linked self.now.rows number result.now }
        ensures fits { spec.call_fits self.now.linked result.now ≡ true }
    {
        self.rows.calls.row(number)
    }

    /// How many slots there are.
    pub fn slots(&self) -> usize
        ensures { result ≡ length (spec.slots self.now.linked self.now.rows) }
    {
        self.rows.slots.as_slice().len()
    }

    /// A slot by its number: what it is of, the name that first declares it, and its type.
    pub fn slot(&self, id: SlotId) -> SlotInfo
        requires { id.0 < length self.now.rows.slots.rows.items }
        ensures row { IsRow self.now.rows.slots.rows.items id.0 result }
        ensures slot { spec.IsSlot self.now.linked self.now.rows id.0 result }
        ensures fits { spec.slot_row_fits (numbers self.now.linked) result ≡ true }
    {
        *self.rows.slots.row(id.0)
    }

    /// How many functions have a body.
    pub fn functions(&self) -> usize
        ensures { result ≡ length (functions self.now.linked) }
    {
        self.linked.bodies.as_slice().len()
    }

    /// A function with a body by its number.
    pub fn body(&self, id: FnId) -> &Body
        requires { id.0 < length self.now.linked.bodies.rows.items }
        ensures row { IsRow self.now.linked.bodies.rows.items id.0 result.now }
        ensures function { IsRow (functions self.now.linked) id.0 (plain_body self.now.linked result.now) }
        ensures fits { body_fits (numbers self.now.linked) result.now ≡ true }
    {
        self.linked.bodies.row(id.0)
    }

    /// The name of a function with a body, where it is defined.
    pub fn function_name(&self, id: FnId) -> Token
        requires { id.0 < length self.now.linked.bodies.rows.items }
        ensures { IsRow (spec.function_names self.now.linked) id.0 result }
    {
        self.name_of(self.body(id).declared.entry)
    }

    /// The declaration of a function's status variable, if it has one.
    pub fn status_variable(&self, id: FnId) -> Option<EntryId>
        requires { id.0 < length self.now.linked.bodies.rows.items }
        ensures row { IsRow self.now.rows.statuses.rows.items id.0 result }
        ensures fits { spec.status_fits (numbers self.now.linked) result ≡ true }
    {
        *self.rows.statuses.row(id.0)
    }

    /// How many functions the settings name.
    pub fn outside_functions(&self) -> usize
        ensures { result ≡ length self.now.rows.outside.rows.items }
    {
        self.rows.outside.as_slice().len()
    }

    /// A function that the settings name, by its place there, from 0: its name, and what a call of it does.
    pub fn outside_function(&self, number: u32) -> OutsideInfo
        requires { number < length self.now.rows.outside.rows.items }
        ensures row { IsRow self.now.rows.outside.rows.items number result }
        ensures name { spec.IsOutside self.now.linked self.now.rows number result }
        ensures fits { spec.outside_fits (numbers self.now.linked) result ≡ true }
    {
        *self.rows.outside.row(number)
    }
}

/// Declarations, members and structs.
impl Program {
    ghost use Rattle.std.specs.Prelude.{◌<◌, length};
    ghost use Rattle.ck_tables.specs.Numbers.{numbers, entry_row_fits, member_row_fits};
    ghost use Rattle.ck_tables.specs.Entries as plain;
    ghost use Rattle.ck_tables.specs.Program.{entry_of, entry_readings};
    ghost use Rattle.ck_tables.specs.ProgramRows as spec;
    ghost use Rattle.ck_tables.specs.Rows.{IsRow};

    /// A declaration by its number.
    pub fn entry(&self, id: EntryId) -> &EntryInfo
        requires { id.0 < length self.now.linked.entries.rows.items }
        ensures row { IsRow self.now.linked.entries.rows.items id.0 result.now }
        ensures entry { entry_of self.now.linked id.0 ≡ plain.plain_entry (entry_readings self.now.linked) result.now }
        ensures fits { entry_row_fits (numbers self.now.linked) result.now ≡ true }
    {
        self.linked.entries.row(id.0)
    }

    /// What the name of a declaration reaches where it is used: an act, a function with a body, a slot.
    pub fn use_of(&self, id: EntryId) -> UseInfo
        requires { id.0 < length self.now.linked.entries.rows.items }
        ensures row { IsRow self.now.rows.uses.rows.items id.0 result }
        ensures fits { spec.use_row_fits self.now.linked self.now.rows result ≡ true }
    {
        *self.rows.uses.row(id.0)
    }

    /// A member of a struct by its number.
    pub fn member(&self, id: MemberId) -> MemberInfo
        requires { id.0 < length self.now.linked.members.rows.items }
        ensures row { IsRow self.now.linked.members.rows.items id.0 result }
        ensures fits { member_row_fits (numbers self.now.linked) result ≡ true }
    {
        *self.linked.members.row(id.0)
    }

    /// The slot of a member, if it has one.
    pub fn slot_of_member(&self, id: MemberId) -> Option<SlotId>
        requires { id.0 < length self.now.linked.members.rows.items }
        ensures row { IsRow self.now.rows.member_slots.rows.items id.0 result }
        ensures fits { spec.member_slot_fits (spec.slot_count self.now.rows) result ≡ true }
    {
        *self.rows.member_slots.row(id.0)
    }

    /// The members of a struct, in the order in which they are declared.
    pub fn members_of(&self, id: StructId) -> &[StructMember]
        requires { id.0 < length self.now.linked.structs.rows.items }
        ensures row { IsRow (spec.struct_members self.now.rows) id.0 result.now }
        ensures fits { spec.members_fit (numbers self.now.linked) result.now ≡ true }
    {
        self.rows.structs.row(id.0).members.as_slice()
    }

    /// Where a declaration has its name.
    pub fn name_of(&self, id: EntryId) -> Token
        requires { id.0 < length self.now.linked.entries.rows.items }
        ensures { result ≡ (entry_of self.now.linked id.0).at }
    {
        self.entry(id).at
    }
}

/// Expressions, initialisers, declarations as they are written, and statements.
impl Program {
    ghost use Rattle.std.specs.Prelude.{◌<◌, length};
    ghost use Rattle.ck_tables.specs.ExprTable as exprs;
    ghost use Rattle.ck_tables.specs.SubobjectTable as subobjects;
    ghost use Rattle.ck_tables.specs.InitTable as inits;
    ghost use Rattle.ck_tables.specs.StmtTable as stmts;
    ghost use Rattle.ck_tables.specs.Numbers as fit;
    ghost use Rattle.ck_tables.specs.Numbers.{numbers};
    ghost use Rattle.ck_tables.specs.Rows.{IsRow};

    /// An expression by its number.
    pub fn expression(&self, id: ExprId) -> &ExprNode
        requires { id.0 < length self.now.linked.exprs }
        ensures meaning { exprs.IsNode self.now.linked.exprs id.0 result.now }
        ensures fits { fit.expression_node_fits (numbers self.now.linked) result.now ≡ true }
    {
        self.linked.exprs.node(id)
    }

    /// A part of an object that is initialised, by its number.
    pub fn subobject(&self, id: SubobjectId) -> Subobject
        requires { id.0 < length self.now.linked.subobjects }
        ensures { subobjects.IsNode self.now.linked.subobjects id.0 result }
    {
        self.linked.subobjects.row(id)
    }

    /// An initialiser by its number.
    pub fn initialiser(&self, id: InitId) -> &InitNode
        requires { id.0 < length self.now.linked.inits }
        ensures meaning { inits.IsNode self.now.linked.inits id.0 result.now }
        ensures fits { fit.initialiser_node_fits (numbers self.now.linked) result.now ≡ true }
    {
        self.linked.inits.node(id)
    }

    /// A declaration as it is written, by its number.
    pub fn declaration(&self, id: DeclarationId) -> &Declaration
        requires { id.0 < length self.now.linked.declarations.rows.items }
        ensures row { IsRow self.now.linked.declarations.rows.items id.0 result.now }
        ensures fits { fit.declaration_row_fits (numbers self.now.linked) result.now ≡ true }
    {
        self.linked.declarations.row(id.0)
    }

    /// A statement by its number.
    pub fn statement(&self, id: StmtId) -> &StmtNode
        requires { id.0 < length self.now.linked.stmts }
        ensures meaning { stmts.IsNode self.now.linked.stmts id.0 result.now }
        ensures fits { fit.statement_node_fits (numbers self.now.linked) result.now ≡ true }
    {
        self.linked.stmts.node(id)
    }
}
