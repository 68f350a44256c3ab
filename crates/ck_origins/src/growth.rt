//! Laws about rules that grow until they model a project, each the contract of a function that does nothing.
ghost use Rattle.ck_origins.specs.Steps.{Always, BareRulesStand, NameAdded, FlowAdded, CallAdded, KindAdded};
ghost use Rattle.ck_origins.specs.Steps.{CellAdded, CellDone, GivenDone, CallDone, BringsStays, NumbersStay};

/// Cells of holders without rules stand for nothing that is given and for no call.
pub fn bare_rules_stand()
    ensures { BareRulesStand }
{}

/// A name may be added where its function comes from what the cell stands for.
pub fn name_is_added()
    ensures { Always NameAdded }
{}

/// A flow may be added where all that comes from what the first cell stands for comes from what the second does.
pub fn flow_is_added()
    ensures { Always FlowAdded }
{}

/// A call may be added where it is one of the project's, or passes nothing, and its result has the cell of such calls.
pub fn call_is_added()
    ensures { Always CallAdded }
{}

/// A kind may be added with the functions that calls of its type may call.
pub fn kind_is_added()
    ensures { Always KindAdded }
{}

/// A cell of no holder may be added.
pub fn cell_is_added()
    ensures { Always CellAdded }
{}

/// The first cell that isn't done is done once it has its rules.
pub fn cell_is_done()
    ensures { Always CellDone }
{}

/// What is given is done once it is brought to the cell of its holder.
pub fn given_is_done()
    ensures { Always GivenDone }
{}

/// A call of the project is done once a call of the rules stands for it.
pub fn call_is_done()
    ensures { Always CallDone }
{}

/// What is brought to a cell still is after rules were added.
pub fn bringing_stays()
    ensures { BringsStays }
{}

/// The cells of slots, threads and timers are theirs after cells were added.
pub fn numbers_stay()
    ensures { NumbersStay }
{}
