//! Laws about the definitions, each the contract of a function that does nothing.
ghost use Rattle.ck_cli.specs.Answer.{HaveOneAnswer};

/// No files have two answers: the status and the text of `rtcheck` are fixed by the files. So over a
/// folder that tells, 0, 1 and 2 come exactly where the definitions give them, save for 5, 6 and 7.
pub fn one_answer()
    ensures { HaveOneAnswer }
{}
