//! Kinds of points.
ghost use Rattle.std.specs.Prelude.{◌≡◌, true, Some, IfSome, slice_get};
ghost use Rattle.ck_kinds.specs.Callers as spec;
ghost use Rattle.ck_passages.specs.Points.{plain_happening, declared_at};
ghost use Rattle.ck_points.specs.Graphs as graphs;
ghost use Rattle.ck_prog.specs.Acts as acts;
ghost use Rattle.ck_prog.specs.TypedBodies.{TypedFunction};
ghost use Rattle.ck_tables.specs.Program.{functions};
ghost use Rattle.ck_tables.specs.ProgramRows.{act_fits, outside_count};
ghost use Rattle.ck_call_rows.specs.TypedRows.{AreTypedCalls, outside_ops, project};

use crate::callers::Caller;
use ck_base::Op;
use ck_graph::{ActName, PointKind};
use ck_passages::Happening;
use ck_tables::{EntryId, Program};

impl Caller<'_> {
    /// The kind of a point of the function, by its path and by what happens there.
    pub(crate) fn kind_of(&self, path: &[u32], happening: Happening) -> PointKind
        requires { spec.IsCaller self.now }
        ensures { (f : TypedFunction) → slice_get (functions (spec.tables self.now)) self.now.function.0 ≡ Some f →
            result ≡ graphs.kind_of (spec.flow self.now) self.now.function.0 f path.now
            (plain_happening (spec.tables self.now) happening) }
    {
        match happening {
            Happening::Passes => PointKind::Plain,
            Happening::Calls(name) => self.kind_of_call(path, name),
            Happening::EntersPair => PointKind::Act(Op::PairEnter, ActName::Entry),
            Happening::LeavesPair => PointKind::Act(Op::PairLeft, ActName::Return),
            Happening::Ends => PointKind::Exit,
        }
    }

    /// The kind of a call, by its path and by the name that it calls, if any.
    fn kind_of_call(&self, path: &[u32], name: Option<EntryId>) -> PointKind
        requires { spec.IsCaller self.now }
        ensures { (f : TypedFunction) → slice_get (functions (spec.tables self.now)) self.now.function.0 ≡ Some f →
            result ≡ graphs.kind_of_call (spec.flow self.now)
            (acts.act_of (spec.flow self.now).project (declared_at (spec.tables self.now) name))
            (graphs.number_of_call (spec.flow self.now) self.now.function.0 f path.now) }
    {
        match act_of(self.program, name) {
            Some(act) => PointKind::Act(op_of(self.program, act), act),
            None => PointKind::Call(self.call_number(path)),
        }
    }
}

/// The act that a call by a name is, if it is one.
fn act_of(program: &Program, name: Option<EntryId>) -> Option<ActName>
    requires { AreTypedCalls program.now.linked program.now.rows }
    ensures act { result ≡ acts.act_of (project program.now.linked program.now.rows)
        (declared_at program.now.linked name) }
    ensures fits { IfSome result (λ act. act_fits (outside_count program.now.rows) act ≡ true) }
{
    match name {
        Some(entry) => act_of_entry(program, entry),
        None => None,
    }
}

/// The act that a call by the name of a declaration is, if the project has the declaration and it is one.
fn act_of_entry(program: &Program, entry: EntryId) -> Option<ActName>
    requires { AreTypedCalls program.now.linked program.now.rows }
    ensures act { result ≡ acts.act_of (project program.now.linked program.now.rows)
        (declared_at program.now.linked (Some entry)) }
    ensures fits { IfSome result (λ act. act_fits (outside_count program.now.rows) act ≡ true) }
{
    let declarations = program.linked().entries.as_slice();
    let at = entry.0 as usize;
    if at < declarations.len() {
        program.use_of(entry).act
    } else {
        None
    }
}

/// What an act does to the system state.
fn op_of(program: &Program, act: ActName) -> Op
    requires { act_fits (outside_count program.now.rows) act ≡ true }
    ensures { result ≡ graphs.op_of (outside_ops program.now.rows) act }
{
    match act {
        ActName::Kernel(row) => ck_kernel::op(row),
        ActName::Outside(number) => program.outside_function(number).op,
        _ => Op::Neutral,
    }
}
