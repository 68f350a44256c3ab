//! Which functions calls and slots may reach.
ghost use Rattle.std.specs.Prelude.{◌≡◌, ◌<◌, true, [], ◌∷◌, ◌++◌, length, IfOk, OnOk};
ghost use Rattle.ck_tables.specs.Targets as spec;

use ck_base::{FnId, OutOfMemory, SlotId};
use std::alloc::Global;
use std::marker::Model;

/// The number of a list of functions in `Targets`.
#[derive(Clone, Copy, Debug, PartialEq, Eq)]
pub struct ListId(pub u32);

/// The functions that each numbered call and each slot may reach. Calls and slots that reach the same functions share
/// their list.
#[derive(Drop)]
pub struct Targets {
    lists: Vec<Vec<FnId>>,
    calls: Vec<ListId>,
    slots: Vec<ListId>,
}

impl Model for Targets {
    ghost use Rattle.ck_tables.specs.Targets.{Table, AreWithin, table};

    ghost Value = { Table };

    ghost view = { λ t. table t.lists.items t.calls.items t.slots.items };

    ghost invariant = { λ t. AreWithin (table t.lists.items t.calls.items t.slots.items) };
}

#[tactic(auto, using(crate::proofs::TargetLemmas::within))]
impl Targets {
    /// No calls and no slots.
    pub fn new(alloc: Global) -> Targets
        ensures { result ≡ spec.no_targets }
    {
        Targets {
            lists: Vec::new(alloc),
            calls: Vec::new(alloc),
            slots: Vec::new(alloc),
        }
    }

    /// Adds a list of functions, in the order of their numbers, and gives the list's number.
    pub fn push_list(&mut self, functions: Vec<FnId>) -> Result<ListId, OutOfMemory>
        ensures added { OnOk result (self.new ≡ spec.with_list self.old functions.items) }
        ensures number { IfOk result (λ list. list.0 ≡ length self.old.lists) }
        ensures known { IfOk result (λ list. list.0 < length self.new.lists) }
    {
        let Ok(number) = u32::try_from(self.lists.len()) else {
            return Err(OutOfMemory);
        };
        self.lists.push(functions)?;
        Ok(ListId(number))
    }

    /// Adds the next call, which reaches the functions of a list.
    pub fn push_call(&mut self, list: ListId) -> Result<(), OutOfMemory>
        requires { list.0 < length self.old.lists }
        ensures { OnOk result (self.new ≡ spec.with_call self.old list) }
    {
        self.calls.push(list)?;
        Ok(())
    }

    /// Adds the next slot, which reaches the functions of a list.
    pub fn push_slot(&mut self, list: ListId) -> Result<(), OutOfMemory>
        requires { list.0 < length self.old.lists }
        ensures { OnOk result (self.new ≡ spec.with_slot self.old list) }
    {
        self.slots.push(list)?;
        Ok(())
    }

    /// The functions that a call may reach.
    pub fn of_call(&self, call: u32) -> &[FnId]
        requires { call < length self.now.calls }
        ensures { result.now ≡ spec.of_call self.now call }
    {
        let ListId(list) = self.calls[call as usize];
        self.lists[list as usize].as_slice()
    }

    /// The functions that a slot may hold.
    pub fn of_slot(&self, slot: SlotId) -> &[FnId]
        requires { slot.0 < length self.now.slots }
        ensures { result.now ≡ spec.of_slot self.now slot.0 }
    {
        let ListId(list) = self.slots[slot.0 as usize];
        self.lists[list as usize].as_slice()
    }
}
