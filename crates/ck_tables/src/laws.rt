//! Laws of tables that grow, each the contract of a function that does nothing.
ghost use Rattle.ck_tables.specs.Laws.{ExpressionsKeep, SubobjectsKeep, InitialisersKeep, StatementsKeep};
ghost use Rattle.ck_tables.specs.Laws.{ExpressionsStay, SubobjectsStay, InitialisersStay, StatementsStay, RowsStillFit};

/// What expressions stand for stays when their table grows, once or more often.
pub fn expressions_stay()
    ensures keep { ExpressionsKeep }
    ensures stay { ExpressionsStay }
{}

/// What subobjects stand for stays when their table grows, once or more often.
pub fn subobjects_stay()
    ensures keep { SubobjectsKeep }
    ensures stay { SubobjectsStay }
{}

/// What initialisers stand for stays when their table grows, once or more often.
pub fn initialisers_stay()
    ensures keep { InitialisersKeep }
    ensures stay { InitialisersStay }
{}

/// What statements stand for stays when their table grows, once or more often.
pub fn statements_stay()
    ensures keep { StatementsKeep }
    ensures stay { StatementsStay }
{}

/// Rows that name numbers of a project alone still do when the project has grown.
pub fn rows_still_fit()
    ensures { RowsStillFit }
{}
