//! Laws about the definitions, each the contract of a function that does nothing.
ghost use Rattle.ck_texts.specs.Laws.{PathsMeetReports, RefusalsHaveOneText, ReportsHaveOneText};

/// Where each site of a graph begins in one of the files, a verdict has one report.
pub fn one_report()
    ensures { ReportsHaveOneText }
{}

/// A refusal has one text.
pub fn one_refusal()
    ensures { RefusalsHaveOneText }
{}

/// A path that is in form and leads to its alarm meets what `report_text` requires of it.
pub fn paths_meet_reports()
    ensures { PathsMeetReports }
{}
