//! Laws about the definitions, each the contract of a function that does nothing.
ghost use Rattle.ck_slots.specs.Laws.{ClosedListsCover, ClosedListsHaveTargets, JustifiedListsHaveTargets};
ghost use Rattle.ck_slots.specs.Laws.{JustifiedListsReach};

/// A list of facts that is closed under what a project gives has each function that reaches a holder.
pub fn closed_lists_cover()
    ensures { ClosedListsCover }
{}

/// Where each fact of a list follows from those after it, each function of the list reaches its holder.
pub fn justified_lists_reach()
    ensures { JustifiedListsReach }
{}

/// The targets that a closed list has for a call are all of its targets.
pub fn closed_lists_have_targets()
    ensures { ClosedListsHaveTargets }
{}

/// The targets that a justified list has for a call are targets of it.
pub fn justified_lists_have_targets()
    ensures { JustifiedListsHaveTargets }
{}
