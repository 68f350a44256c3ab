//! Laws about the definitions, each the contract of a function that does nothing.
ghost use Rattle.ck_points.specs.Laws.{EdgesAreFew, EdgesFit, EdgesStay};
ghost use Rattle.ck_points.specs.Laws.{GraphsAreSound, PlacesAreNumbered, PlacesDiffer};

/// Each edge of a function leads to a point of the function.
pub fn edges_stay()
    ensures { EdgesStay }
{}

/// A call, and an act by which a function is entered or left, has one edge, and the exit none.
pub fn edges_fit()
    ensures { EdgesFit }
{}

/// A point has at most six edges more than its function has points, so that their number fits 32 bits where the
/// limit of points is kept.
pub fn edges_are_few()
    ensures { EdgesAreFew }
{}

/// No two points of a function are at one place.
pub fn places_differ()
    ensures { PlacesDiffer }
{}

/// In the graph of a project's functions the place of each point of each function has exactly one number.
pub fn places_are_numbered()
    ensures { PlacesAreNumbered }
{}

/// The graph of a project's functions has no fault, where its numbers fit 32 bits: `ck_graph::checked` takes it.
pub fn graphs_are_sound()
    ensures { GraphsAreSound }
{}
