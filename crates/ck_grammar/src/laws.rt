//! Laws about the definitions, each the contract of a function that does nothing.
ghost use Rattle.ck_grammar.specs.Answers.{OneLongest, ReadsExpressions, ReadsFiles};
ghost use Rattle.ck_grammar.specs.Spelling.{OneDeclaration, OneExpression, OneExternal, OneFile, OneStatement};

/// No tokens are spelled by two expressions.
pub fn one_expression()
    ensures { OneExpression }
{}

/// No tokens are spelled by two declarations.
pub fn one_declaration()
    ensures { OneDeclaration }
{}

/// No tokens are spelled by two statements.
pub fn one_statement()
    ensures { OneStatement }
{}

/// No tokens are spelled by two external declarations.
pub fn one_external()
    ensures { OneExternal }
{}

/// No tokens are spelled by two files.
pub fn one_file()
    ensures { OneFile }
{}

/// No tokens have two longest expressions at the front.
pub fn one_longest()
    ensures { OneLongest }
{}

/// The reader of expressions answers the longest expression at the front of the tokens, and nothing
/// where none is there.
pub fn reads_expressions()
    ensures { ReadsExpressions }
{}

/// The reader of files answers the file that the tokens spell, and nothing where they spell none.
pub fn reads_files()
    ensures { ReadsFiles }
{}
