//! Calls that fail by their number, and the count of those that failed.
ghost use Rattle.std.specs.Prelude.{◌≡◌, ◌≤◌, ◌↔◌, IsTrue, if◌then◌else◌};
ghost use Rattle.ck_io.specs.Environment.{one_more};
ghost use Rattle.ck_io.specs.FaultPlan.{FailsNext};

/// Which calls fail by their number, how many were made, and how many failed. Both counts stay at
/// 18,446,744,073,709,551,615, and from there on no call fails by its number.
#[derive(Drop)]
pub(crate) struct FaultPlan {
    fail: Vec<u64>,
    calls: u64,
    faults: u64,
}

impl FaultPlan {
    /// No call was made so far. The calls in `fail`, counted from 1, are to fail.
    pub(crate) fn new(fail: Vec<u64>) -> FaultPlan
        ensures fail { result.fail.items ≡ fail.items }
        ensures calls { result.calls ≡ 0 }
        ensures faults { result.faults ≡ 0 }
    {
        FaultPlan {
            fail,
            calls: 0,
            faults: 0,
        }
    }

    /// Counts a call, and tells whether it fails by its number. If so, it is counted as failed too.
    pub(crate) fn count_call(&mut self) -> bool
        ensures fails { IsTrue result ↔ FailsNext self.old.fail.items self.old.calls }
        ensures kept { self.new.fail.items ≡ self.old.fail.items }
        ensures calls { self.new.calls ≡ one_more self.old.calls }
        ensures counted { self.old.faults ≤ self.new.faults }
        ensures faults { self.new.faults ≡ (if result then one_more self.old.faults else self.old.faults) }
    {
        let Some(number) = self.calls.checked_add(1) else {
            return false;
        };
        self.calls = number;
        let fails = self.fail.contains(&number);
        if fails {
            self.count_fault();
        }
        fails
    }

    /// Counts the call as failed.
    pub(crate) fn count_fault(&mut self)
        ensures kept { self.new.fail.items ≡ self.old.fail.items }
        ensures calls { self.new.calls ≡ self.old.calls }
        ensures counted { self.old.faults ≤ self.new.faults }
        ensures faults { self.new.faults ≡ one_more self.old.faults }
    {
        self.faults = self.faults.saturating_add(1);
    }
}
