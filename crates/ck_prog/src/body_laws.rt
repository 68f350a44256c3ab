//! Laws about the definitions of bodies, files and refusals, each the contract of a function that does nothing.
ghost use Rattle.ck_prog.specs.BodyLaws.{BodiesDeclare, StaysCompatible, TellsSome, TellsTheFirst};
ghost use Rattle.ck_prog.specs.PathOrder.{CallsAscend};

/// Initialisers, declarations, statements and files declare, each name in the scopes that are open, and take nothing
/// back.
pub fn bodies_declare()
    ensures { BodiesDeclare }
{}

/// Types that are compatible in a file are compatible over files, where the struct of a parameter list is that of its
/// tag.
pub fn stays_compatible()
    ensures { StaysCompatible }
{}

/// The refusal that is told is one of the refusals, and none of them is earlier by file, offset and number.
pub fn tells_the_first()
    ensures { TellsTheFirst }
{}

/// Where something is refused a refusal is told.
pub fn tells_some()
    ensures { TellsSome }
{}

/// The evaluated calls of a function are listed in the order of their paths.
pub fn calls_ascend()
    ensures { CallsAscend }
{}
