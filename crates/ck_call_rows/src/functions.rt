//! The calls of a project's functions.
ghost use Rattle.std.specs.Prelude.{◌≡◌, true, length, IfOk, OnOk};
ghost use Rattle.ck_call_rows.specs.Naming.{NumberCalls};
ghost use Rattle.ck_call_rows.specs.Walks as spec;
ghost use Rattle.ck_prog.specs.Calls.{calls_of_function};
ghost use Rattle.ck_tables.specs.Numbers.{is_closed, numbers, body_fits};
ghost use Rattle.ck_tables.specs.Program.{plain_body};

use crate::trail::Trail;
use crate::walk::Walk;
use ck_base::{FnId, OutOfMemory};
use ck_tables::{Body, CallInfo, Linked, Rows, UseInfo};
use std::alloc::Global;

impl Walk<'_> {
    /// Adds the calls of the function, which has this body.
    #[tactic(auto, unfolding(ck_tables::specs::Numbers::body_fits))]
    fn function(&self, body: &Body, rows: &mut Rows<CallInfo>) -> Result<(), OutOfMemory>
        requires { body_fits (numbers (spec.tables self.now)) body.now ≡ true }
        ensures { OnOk result (spec.Adds self.now rows.old.rows.items rows.new.rows.items
            (calls_of_function (plain_body (spec.tables self.now) body.now))) }
    {
        self.items(body.items.as_slice(), &Trail::Body, rows)
    }
}

/// A row for each evaluated call of the project's functions that is no act, by function and then by path (6.5.2.2):
/// where `uses` says for each declaration which act a call by its name is, if it is one, and else the number of the
/// function, if it has a body.
pub fn call_rows(
    alloc: Global,
    linked: &Linked,
    uses: &[UseInfo],
) -> Result<Rows<CallInfo>, OutOfMemory>
    requires closed { is_closed linked.now ≡ true }
    requires each { length uses.now ≡ length linked.now.entries.rows.items }
    ensures { IfOk result (λ rows. NumberCalls linked.now uses.now rows.rows.items) }
{
    let mut rows = Rows::new(alloc);
    let bodies = linked.bodies.as_slice();
    'each: for (number, body) in bodies.iter().enumerate() {
        let Ok(function) = u32::try_from(number) else {
            return Err(OutOfMemory);
        };
        let walk = Walk {
            alloc,
            linked,
            uses,
            function: FnId(function),
        };
        walk.function(body, &mut rows)?;
    }
    Ok(rows)
}
