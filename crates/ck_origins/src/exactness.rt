//! Laws about rules that model a project, each the contract of a function that does nothing.
ghost use Rattle.ck_origins.specs.Laws.{CellsAreExact, SlotsAreExact, ThreadsAreExact, TimersAreExact};
ghost use Rattle.ck_origins.specs.Laws.{TargetsAreExact, ListedTargetsAreExact};

/// By rules that model a project a function reaches a cell exactly where it comes from what the cell stands for.
pub fn cells_are_exact()
    ensures { CellsAreExact }
{}

/// It reaches the cell with the number of a slot exactly where it reaches the slot.
pub fn slots_are_exact()
    ensures { SlotsAreExact }
{}

/// It reaches the first cell after the slots exactly where it is started as a thread.
pub fn threads_are_exact()
    ensures { ThreadsAreExact }
{}

/// It reaches the second cell after the slots exactly where a timer is set with it.
pub fn timers_are_exact()
    ensures { TimersAreExact }
{}

/// A call of the rules has exactly the targets of the expression that it stands for.
pub fn targets_are_exact()
    ensures { TargetsAreExact }
{}

/// The targets that are listed for a call of the rules are exactly those of the expression that it stands for.
pub fn listed_targets_are_exact()
    ensures { ListedTargetsAreExact }
{}
