//! Laws about the table, each the contract of a function that does nothing.
ghost use Rattle.ck_kernel.specs.Laws.{NamesDiffer, RowsHaveTheirNames, NamesHaveTheirRows, OthersHaveNone};
ghost use Rattle.ck_kernel.specs.Laws.{OpsHaveCalls, EntriesAreParameters};

/// No two calls of the table have one name.
pub fn names_differ()
    ensures { NamesDiffer }
{}

/// A name and its row lead to each other: the name of each row has that row, the row of a name has
/// that name, and a name without a row is that of no call.
pub fn names_and_rows_are_inverse()
    ensures rows { RowsHaveTheirNames }
    ensures names { NamesHaveTheirRows }
    ensures others { OthersHaveNone }
{}

/// The ops of the table's calls are all but those that no call has: of an outside function that is
/// neutral, of a handler's return, and of the begin and end of a function that has a status variable.
pub fn ops_have_calls()
    ensures { OpsHaveCalls }
{}

/// The parameter that becomes the function of a thread or a timer is one of the call's, and a
/// descriptor is its only one.
pub fn entry_parameters_are_parameters()
    ensures { EntriesAreParameters }
{}
