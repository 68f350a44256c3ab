//! What the table says of a row.
ghost use Rattle.std.specs.Prelude.{◌≡◌, Some, map};
ghost use Rattle.std.specs.Option.{option_map};
ghost use Rattle.ck_kernel.specs.KernelTable.{IsRow, call_at, kernel_table};
ghost use Rattle.ck_kernel.specs.Shown.{shown};

use crate::calls::{CALLS, Call};
use crate::entries::EntrySink;
use ck_base::{Op, RowId};

/// What a call of this row does to the system state.
pub fn op(row: RowId) -> Op
    requires { IsRow row }
    ensures { option_map (λ call. call.op) (call_at row) ≡ Some result }
{
    call(row).op
}

/// The name of this row's call.
pub fn name(row: RowId) -> &'static str
    requires { IsRow row }
    ensures { option_map (λ call. call.name) (call_at row) ≡ Some result.now }
{
    call(row).name
}

/// How many parameters this row's call has.
pub fn parameters(row: RowId) -> u8
    requires { IsRow row }
    ensures { option_map (λ call. call.parameters) (call_at row) ≡ Some result }
{
    call(row).parameters
}

/// Which parameter of this row's call becomes the function of a thread or of a timer.
pub fn entry_parameter(row: RowId) -> EntrySink
    requires { IsRow row }
    ensures { option_map (λ call. call.entry) (call_at row) ≡ Some result }
{
    call(row).entry
}

/// The call of a row.
fn call(row: RowId) -> &'static Call
    requires { IsRow row }
    ensures { call_at row ≡ Some (shown result.now) }
{
    &calls()[usize::from(row.0)]
}

/// The whole table.
pub(crate) fn calls() -> &'static [Call]
    ensures { map shown result.now ≡ kernel_table }
{
    &CALLS
}
