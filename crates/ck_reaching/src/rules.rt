//! The rules by which functions reach cells.
ghost use Rattle.std.specs.Prelude.{
  ◌≡◌,
  ◌<◌,
  ◌≤◌,
  ◌+◌,
  ◌^◌,
  ◌/◌,
  ◌↔◌,
  ◌∷◌,
  ◌++◌,
  ℕ,
  List,
  [],
  length,
  All,
  IfOk,
  IsTrue,
  OnOk,
  slice_get,
  Some,
};
ghost use Rattle.ck_reaching.specs.Rules.{
  IsInRange,
  IsCalleeWithin,
  IsCallWithin,
  IsFlowWithin,
  IsNameWithin,
  IsOfKind,
  function_count,
  width,
};

use crate::sets::FnSet;
use ck_base::{FnId, OutOfMemory};
use std::alloc::Global;
use std::marker::Model;

/// The number of a cell, from 0: of what can hold functions.
#[derive(Clone, Copy, Debug, PartialEq, Eq)]
pub struct CellId(pub u32);

/// The number of a kind of functions, from 0, as of those that have a type that is called.
#[derive(Clone, Copy, Debug, PartialEq, Eq)]
pub struct KindId(pub usize);

/// The number of a call, from 0.
#[derive(Clone, Copy, Debug, PartialEq, Eq)]
pub struct CallId(pub u32);

/// A function reaches a cell, since it is named there.
#[derive(Clone, Copy, Debug, PartialEq, Eq)]
pub struct Names {
    pub function: FnId,
    pub to: CellId,
}

/// Whatever reaches one cell reaches the other.
#[derive(Clone, Copy, Debug, PartialEq, Eq)]
pub struct Flows {
    pub from: CellId,
    pub to: CellId,
}

/// The cells of a function: of its parameters, in order, and of its result, where they have one.
#[derive(Debug, Drop)]
pub struct Callee {
    pub parameters: Vec<Option<CellId>>,
    pub result: Option<CellId>,
}

/// A call of what reaches a cell, with the kind of the functions that it may call, and the cells of its arguments, in
/// order, and of its result, where they have one.
#[derive(Debug, Drop)]
pub struct Call {
    pub called: CellId,
    pub kind: KindId,
    pub arguments: Vec<Option<CellId>>,
    pub result: Option<CellId>,
}

/// Rules over cells and functions, all of whose numbers are in range.
#[derive(Debug, Drop)]
pub struct Rules {
    cells: u32,
    callees: Vec<Callee>,
    kinds: Vec<FnSet>,
    names: Vec<Names>,
    flows: Vec<Flows>,
    calls: Vec<Call>,
}

impl Model for Rules {
    ghost use Rattle.ck_reaching.specs.Rules.{System, IsInRange};

    ghost Value = { System };

    ghost view = { λ r. record {
      cells = r.cells;
      callees = r.callees.items;
      kinds = r.kinds.items;
      names = r.names.items;
      flows = r.flows.items;
      calls = r.calls.items;
    } };

    ghost invariant = { λ r. IsInRange (record {
      cells = r.cells;
      callees = r.callees.items;
      kinds = r.kinds.items;
      names = r.names.items;
      flows = r.flows.items;
      calls = r.calls.items;
    }) };
}

impl Rules {
    /// No rule yet, over this many cells and these functions.
    pub fn new(alloc: Global, cells: u32, callees: Vec<Callee>) -> Rules
        requires few { length callees.items < 2 ^ 32 }
        requires cells { All (IsCalleeWithin cells) callees.items }
        ensures { result ≡ record {
          cells = cells;
          callees = callees.items;
          kinds = [];
          names = [];
          flows = [];
          calls = [];
        } }
    {
        Rules {
            cells,
            callees,
            kinds: Vec::new(alloc),
            names: Vec::new(alloc),
            flows: Vec::new(alloc),
            calls: Vec::new(alloc),
        }
    }

    /// How many cells there are.
    pub fn cells(&self) -> u32
        ensures count { result ≡ self.now.cells }
        ensures in_range { IsInRange self.now }
    {
        self.cells
    }

    /// How many functions there are.
    pub fn functions(&self) -> u32
        ensures count { result ≡ function_count self.now }
        ensures in_range { IsInRange self.now }
    {
        self.callees.len() as u32
    }

    /// Adds a cell that nothing reaches yet. More cells than a u32 can number count as want of memory.
    pub fn add_cell(&mut self) -> Result<CellId, OutOfMemory>
        ensures cell { IfOk result (λ cell. cell.0 ≡ self.old.cells) }
        ensures added { OnOk result (self.new ≡ record self.old { cells = self.old.cells + 1 }) }
    {
        if self.cells == u32::MAX {
            return Err(OutOfMemory);
        }
        let cell = CellId(self.cells);
        self.cells += 1;
        Ok(cell)
    }

    /// Adds a kind with its functions, a set made for the rules' functions.
    pub fn add_kind(&mut self, functions: FnSet) -> Result<KindId, OutOfMemory>
        requires { length functions ≡ width self.old }
        ensures kind { IfOk result (λ kind. kind.0 ≡ length self.old.kinds) }
        ensures added { OnOk result (self.new ≡ record self.old { kinds = self.old.kinds ++ functions ∷ [] }) }
    {
        let kind = KindId(self.kinds.len());
        self.kinds.push(functions)?;
        Ok(kind)
    }

    /// Adds that a function is named where it reaches a cell.
    pub fn add_name(&mut self, name: Names) -> Result<(), OutOfMemory>
        requires { IsNameWithin self.old.cells (function_count self.old) name }
        ensures { OnOk result (self.new ≡ record self.old { names = self.old.names ++ name ∷ [] }) }
    {
        self.names.push(name)?;
        Ok(())
    }

    /// Adds that whatever reaches one cell reaches the other.
    pub fn add_flow(&mut self, flow: Flows) -> Result<(), OutOfMemory>
        requires { IsFlowWithin self.old.cells flow }
        ensures { OnOk result (self.new ≡ record self.old { flows = self.old.flows ++ flow ∷ [] }) }
    {
        self.flows.push(flow)?;
        Ok(())
    }

    /// Adds a call. More calls than a u32 can number count as want of memory.
    pub fn add_call(&mut self, call: Call) -> Result<CallId, OutOfMemory>
        requires { IsCallWithin self.old call }
        ensures call { IfOk result (λ number. number.0 ≡ length self.old.calls) }
        ensures added { OnOk result (self.new ≡ record self.old { calls = self.old.calls ++ call ∷ [] }) }
    {
        if self.calls.len() >= u32::MAX as usize {
            return Err(OutOfMemory);
        }
        let number = CallId(self.calls.len() as u32);
        self.calls.push(call)?;
        Ok(number)
    }

    /// How many kinds there are.
    pub fn kinds(&self) -> usize
        ensures { result ≡ length self.now.kinds }
    {
        self.kinds.len()
    }

    /// How many calls there are.
    pub fn calls(&self) -> u32
        ensures { result ≡ length self.now.calls }
    {
        self.calls.len() as u32
    }

    /// The cells of a function.
    pub fn callee(&self, function: FnId) -> &Callee
        requires { function.0 < function_count self.now }
        ensures { slice_get self.now.callees function.0 ≡ Some result.now }
    {
        &self.callees[function.0 as usize]
    }

    /// A call.
    pub fn call(&self, call: CallId) -> &Call
        requires { call.0 < length self.now.calls }
        ensures { slice_get self.now.calls call.0 ≡ Some result.now }
    {
        &self.calls[call.0 as usize]
    }

    /// Whether a function has a kind.
    pub fn is_of_kind(&self, function: FnId, kind: KindId) -> bool
        requires { kind.0 < length self.now.kinds }
        ensures { IsTrue result ↔ IsOfKind self.now kind.0 function.0 }
    {
        self.kinds[kind.0].has(function)
    }

    /// Where functions are named.
    pub fn names(&self) -> &[Names]
        ensures { result.now ≡ self.now.names }
    {
        &self.names
    }

    /// From which cells to which ones whatever reaches them goes on.
    pub fn flows(&self) -> &[Flows]
        ensures { result.now ≡ self.now.flows }
    {
        &self.flows
    }
}
