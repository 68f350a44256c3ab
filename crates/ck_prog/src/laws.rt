//! Laws about the definitions, each the contract of a function that does nothing.
ghost use Rattle.ck_prog.specs.Laws.{ClosingHides, DeclarationsStay, KnownIsInRange, MeansOpenEntry};
ghost use Rattle.ck_prog.specs.Laws.{OpeningShows, StaysFitting, StaysOrderly, TreesDeclare, TypedKeepsSense};

/// The typed tree of an expression has the expression's sense.
pub fn typed_keeps_sense()
    ensures { TypedKeepsSense }
{}

/// What a name means is declared before its use, has the name, and its scope is open there.
pub fn means_open_entry()
    ensures { MeansOpenEntry }
{}

/// The place after a tree comes after the one before it, by declarations and scopes that open and close.
pub fn trees_declare()
    ensures { TreesDeclare }
{}

/// A place after another is in its file and scopes, after more declarations.
pub fn declarations_stay()
    ensures { DeclarationsStay }
{}

/// What is declared between orderly places is in scopes that had opened before.
pub fn stays_orderly()
    ensures { StaysOrderly }
{}

/// The values of enumeration constants are those of `int`, after trees too.
pub fn stays_fitting()
    ensures { StaysFitting }
{}

/// A known value of an expression is one of its type, which is an integer type.
pub fn known_is_in_range()
    ensures { KnownIsInRange }
{}

/// A scope that opens shows what was in sight.
pub fn opening_shows()
    ensures { OpeningShows }
{}

/// A scope that closes hides what it declared.
pub fn closing_hides()
    ensures { ClosingHides }
{}
