//! Laws about the definitions, each the contract of a function that does nothing.
ghost use Rattle.ck_graph.specs.Flow.{Flow};
ghost use Rattle.ck_segments.specs.Laws.{PathsAreWalks, SegmentsLead, MovesFollow};

/// Segments in form whose steps fit the states expand to a walk from their root.
pub fn paths_are_walks()
    ensures { PathsAreWalks }
{}

/// In segments in form each segment is a path of its function, from the function's first point.
pub fn segments_lead()
    ensures { SegmentsLead }
{}

/// Which steps follow is what the moves of walks do, apart from the states.
pub fn moves_follow()
    ensures { (flow : Flow) → MovesFollow flow }
{}
