//! Laws about the definitions, each the contract of a function that does nothing. Crates above may
//! cite the lemmas of proofs/Coverage and proofs/MatchedPaths in their place: those speak of any
//! relation, where a contract can speak of tests alone.
ghost use Rattle.std.specs.Prelude.{List};
ghost use Rattle.ck_graph.specs.declared.entries.Root.{Root};
ghost use Rattle.ck_graph.specs.Flow.{Flow};
ghost use Rattle.ck_graph.specs.Faults.{IsSound};
ghost use Rattle.ck_graph.specs.Forbidden.{HaveOneAlarmList};
ghost use Rattle.ck_graph.specs.Summary.{ClosedCoversWalks, DerivedIsReached};
ghost use Rattle.ck_graph.specs.MatchedPath.{PathsGoOn, WalksGoOn};

/// A graph and roots have one list of alarms: which alarms walks reach, and the order, leave no choice.
pub fn one_list_of_alarms()
    ensures { HaveOneAlarmList }
{}

/// A relation of points, entry states and states that has the roots and is closed under what one call
/// may do covers every walk, however deep its stack.
pub fn closed_covers_walks()
    ensures { ClosedCoversWalks }
{}

/// Each pair of the least such relation is reached by a walk.
pub fn derived_is_reached()
    ensures { DerivedIsReached }
{}

/// A matched path goes on along an edge, by an act, over a whole call that returns, and by another
/// path.
pub fn paths_go_on()
    ensures { (flow : Flow) → IsSound flow → PathsGoOn flow }
{}

/// A walk from a root goes on by moves, by a matched path, and into a call.
pub fn walks_go_on()
    ensures { (flow : Flow) (roots : List Root) → WalksGoOn flow roots }
{}
