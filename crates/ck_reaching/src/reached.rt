//! Which functions reach which cells, as a table.
ghost use Rattle.std.specs.Prelude.{
  ◌≡◌,
  ◌<◌,
  ◌+◌,
  ◌/◌,
  ◌↔◌,
  ◌⊎◌,
  ℕ,
  length,
  IfOk,
  IsTrue,
  MatchOption,
  ◌≤◌,
};
ghost use Rattle.ck_reaching.specs.Reached.{Holds, IsSolution, AreTargets, set_at};
ghost use Rattle.ck_reaching.specs.Reaching.{IsTarget};
ghost use Rattle.ck_reaching.specs.Rules.{function_count};
ghost use Rattle.ck_reaching.specs.Growth.{IsSized, KeepsSizes, IsAddition};
ghost use Rattle.ck_reaching.specs.Joins.{IsClearBetween};

use crate::rules::{Call, CellId, Rules};
use crate::sets::FnSet;
use ck_base::{FnId, OutOfMemory};
use std::alloc::Global;
use std::marker::Model;

/// For each cell the functions that reach it, a bit for each pair.
#[derive(Debug, Drop)]
pub struct Reached {
    sets: Vec<FnSet>,
}

impl Model for Reached {
    ghost use Rattle.std.specs.Prelude.{List};
    ghost use Rattle.ck_rows.specs.declared.rows.Rows.{Rows};

    ghost Value = { List (List Rows) };

    ghost view = { λ r. r.sets.items };
}

impl Reached {
    /// Cells that no function reaches.
    pub(crate) fn new(alloc: Global, cells: u32, functions: u32) -> Result<Reached, OutOfMemory>
        ensures sized { IfOk result (IsSized cells (functions / 256 + 1)) }
        ensures empty { IfOk result (λ reached. (c f : ℕ) → Holds reached c f → ⊥) }
    {
        let mut sets = Vec::new(alloc);
        'cells: for _cell in 0..cells {
            let set = FnSet::new(alloc, functions)?;
            sets.push(set)?;
        }
        Ok(Reached { sets })
    }

    /// Whether a function reaches a cell; none reaches a cell that isn't there.
    pub fn reaches(&self, cell: CellId, function: FnId) -> bool
        ensures { IsTrue result ↔ Holds self.now cell.0 function.0 }
    {
        if (cell.0 as usize) < self.sets.len() {
            self.sets[cell.0 as usize].has(function)
        } else {
            false
        }
    }

    /// The functions that a call may call, in the order of their numbers, where the table is that of the rules.
    pub fn targets(
        &self,
        alloc: Global,
        rules: &Rules,
        call: &Call,
    ) -> Result<Vec<FnId>, OutOfMemory>
        requires solved { IsSolution rules.now self.now }
        requires kind { call.now.kind.0 < length rules.now.kinds }
        ensures { IfOk result (λ targets. AreTargets rules.now call.now targets.items) }
    {
        let functions = rules.functions();
        let mut targets = Vec::new(alloc);
        let mut number = 0;
        'functions: while let Some(function) = self.next(call.called, number, functions) {
            if rules.is_of_kind(function, call.kind) {
                targets.push(function)?;
            }
            number = function.0 + 1;
        }
        Ok(targets)
    }

    /// The least function that reaches a cell, from a number on and before an end, if there is one.
    pub(crate) fn next(&self, cell: CellId, from: u32, end: u32) -> Option<FnId>
        ensures { MatchOption
            result
            (IsClearBetween (set_at self.now cell.0) from end)
            (λ f. (from ≤ f.0) × (f.0 < end) × Holds self.now cell.0 f.0
            × IsClearBetween (set_at self.now cell.0) from f.0) }
    {
        if (cell.0 as usize) < self.sets.len() {
            self.sets[cell.0 as usize].next(from, end)
        } else {
            None
        }
    }

    /// Adds that a function reaches a cell.
    pub(crate) fn insert(&mut self, cell: CellId, function: FnId)
        requires cell { cell.0 < length self.old }
        requires room { function.0 / 256 < length (set_at self.old cell.0) }
        ensures exactly { (c f : ℕ) →
            Holds self.new c f ↔ (Holds self.old c f ⊎ ((c ≡ cell.0) × (f ≡ function.0))) }
        ensures sizes { KeepsSizes self.old self.new }
    {
        self.sets[cell.0 as usize].add(function);
    }

    /// Adds that each function of a set reaches a cell, and answers whether one was new.
    pub(crate) fn join(&mut self, cell: CellId, given: &FnSet) -> bool
        requires cell { cell.0 < length self.old }
        requires size { length given.now ≡ length (set_at self.old cell.0) }
        ensures { IsAddition cell.0 given.now self.old self.new result }
    {
        self.sets[cell.0 as usize].join(given)
    }

    /// Copies the set of the functions that reach a cell.
    pub(crate) fn copy_to(&self, cell: CellId, into: &mut FnSet)
        requires cell { cell.0 < length self.now }
        requires size { length into.old ≡ length (set_at self.now cell.0) }
        ensures { into.new ≡ set_at self.now cell.0 }
    {
        into.copy_from(&self.sets[cell.0 as usize]);
    }
}
