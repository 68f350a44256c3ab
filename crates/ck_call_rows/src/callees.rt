//! What a call calls, and its row.
ghost use Rattle.std.specs.Prelude.{◌≡◌, [], ◌∷◌, true, OnOk};
ghost use Rattle.ck_call_rows.specs.Walks as spec;
ghost use Rattle.ck_call_rows.specs.Walks.{tables, path_of};
ghost use Rattle.ck_prog.specs.Calls.{CallSite};
ghost use Rattle.ck_tables.specs.Numbers.{numbers, fits_if_any, entry_fits};

use crate::trail::{Trail, step_number};
use crate::walk::Walk;
use ck_base::{FnId, OutOfMemory, Token};
use ck_graph::ActName;
use ck_tables::{CallInfo, Callee, EntryId, ExprId, Rows};

/// A call: the expression with the row of suffixes of which it is one, from 0, the name that it calls, if it calls one,
/// and where its own expression begins.
#[derive(Clone, Copy)]
pub(crate) struct Called {
    pub of: ExprId,
    pub suffix: u64,
    pub function: Option<EntryId>,
    pub first: Token,
}

/// What a call by a name calls, from the act that it is and the number of the function.
fn callee_by(act: Option<ActName>, function: Option<FnId>) -> Option<Callee>
    ensures { result ≡ spec.callee_by act function }
{
    match (act, function) {
        (Some(_), _) => None,
        (None, Some(called)) => Some(Callee::Function(called)),
        (None, None) => Some(Callee::Expression),
    }
}

impl Walk<'_> {
    /// What a call calls, by the name that it calls, if it calls one; none where it is an act.
    fn callee(&self, function: Option<EntryId>) -> Option<Callee>
        requires { fits_if_any (entry_fits (numbers (tables self.now))) function ≡ true }
        ensures { spec.IsCallee self.now function result }
    {
        match function {
            None => Some(Callee::Expression),
            Some(entry) => self.callee_named(entry),
        }
    }

    /// What a call by a declared name calls; none where it is an act.
    fn callee_named(&self, entry: EntryId) -> Option<Callee>
        requires { entry_fits (numbers (tables self.now)) entry ≡ true }
        ensures { spec.IsNamedCallee self.now entry result }
    {
        let named = self.uses[entry.0 as usize];
        callee_by(named.act, named.function)
    }

    /// Adds the row of a call in an expression with this path, unless it is an act.
    pub(crate) fn call<'b>(
        &self,
        called: Called,
        path: &'b Trail<'b>,
        rows: &mut Rows<CallInfo>,
    ) -> Result<(), OutOfMemory>
        requires { fits_if_any (entry_fits (numbers (tables self.now))) called.function ≡ true }
        ensures { OnOk result ((c : CallSite) → spec.IsSite (tables self.now) (path_of path.now) called c →
            spec.Adds self.now rows.old.rows.items rows.new.rows.items (c ∷ [])) }
    {
        match self.callee(called.function) {
            None => Ok(()),
            Some(callee) => {
                let row = CallInfo {
                    function: self.function,
                    node: called.of,
                    path: path.numbers(self.alloc)?,
                    suffix: step_number(called.suffix)?,
                    first: called.first,
                    callee,
                };
                rows.push(row)?;
                Ok(())
            }
        }
    }
}
