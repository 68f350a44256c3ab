//! Laws about the definitions, each the contract of a function that does nothing.
ghost use Rattle.ck_tallies.specs.Promise.{TalliesTell, UnknownAddsNothing};

/// Specifiers go together at a place where their tally says so.
pub fn tallies_tell()
    ensures { TalliesTell }
{}

/// A word that is no keyword of the subset adds nothing to a tally.
pub fn unknown_adds_nothing()
    ensures { UnknownAddsNothing }
{}
