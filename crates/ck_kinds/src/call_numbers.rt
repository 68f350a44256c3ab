//! Numbers of calls.
ghost use Rattle.std.specs.Prelude.{◌≡◌, Some, slice_get};
ghost use Rattle.ck_kinds.specs.Callers as spec;
ghost use Rattle.ck_points.specs.Graphs as graphs;
ghost use Rattle.ck_prog.specs.TypedBodies.{TypedFunction};
ghost use Rattle.ck_tables.specs.Program.{functions};

use crate::call_order::compare;
use crate::callers::Caller;
use ck_prog::calls_ascend;

impl Caller<'_> {
    /// The number of the function's call with this path among the project's calls that are no acts, from 0. Where it
    /// has no such call, it is how many calls the functions before it have.
    pub(crate) fn call_number(&self, path: &[u32]) -> u32
        requires { spec.IsCaller self.now }
        ensures { (f : TypedFunction) → slice_get (functions (spec.tables self.now)) self.now.function.0 ≡ Some f →
            result ≡ graphs.number_of_call (spec.flow self.now) self.now.function.0 f path.now }
    {
        calls_ascend();
        let number = self.calls_before(path);
        if self.has_call_at(number, path) {
            return number;
        }
        self.calls_before(&[])
    }

    /// How many of the project's calls come before a path of the function.
    fn calls_before(&self, path: &[u32]) -> u32
        requires caller { spec.IsCaller self.now }
        requires in_order { spec.AreInOrder self.now path.now }
        ensures { spec.ComeBefore self.now path.now result }
    {
        let mut low = 0;
        let mut high = self.calls;
        'search: while low < high {
            let middle = low + (high - low) / 2;
            if compare(self.program.call(middle), self.function, path).is_lt() {
                low = middle + 1;
            } else {
                high = middle;
            }
        }
        low
    }

    /// Whether the function has a call with this path, where so many calls come before it.
    fn has_call_at(&self, number: u32, path: &[u32]) -> bool
        requires caller { spec.IsCaller self.now }
        requires before { spec.ComeBefore self.now path.now number }
        ensures { spec.IsRankOf self.now path.now number result }
    {
        if number >= self.calls {
            return false;
        }
        compare(self.program.call(number), self.function, path).is_eq()
    }
}
