//! Laws that lead from numbers to the entries of ck_prog, each the contract of a function that does nothing.
ghost use Rattle.ck_scopes.specs.Agreement.{LinksAgree, MeaningsAgree, NamesMayBeAdded};

/// Where an environment and a place of ck_prog agree declaration by declaration, the numbers of both look-ups are those
/// of the entries that the place gives.
pub fn meanings_agree()
    ensures { MeaningsAgree }
{}

/// Where linkages and the entries of ck_prog agree, the number of the latest declaration that is one with another is
/// that of the latest such entry.
pub fn links_agree()
    ensures { LinksAgree }
{}

/// What agrees still does when names have been added.
pub fn names_may_be_added()
    ensures { NamesMayBeAdded }
{}
