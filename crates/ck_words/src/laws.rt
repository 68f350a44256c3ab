//! Laws about the definitions, each the contract of a function that does nothing.
ghost use Rattle.ck_words.specs.Commands.{HaveOneCommand};

/// No words are two commands.
pub fn one_command()
    ensures { HaveOneCommand }
{}
