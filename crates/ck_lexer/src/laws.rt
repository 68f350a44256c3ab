//! Laws about the definitions, each the contract of a function that does nothing. (That a file has tokens
//! or a first fault is the contract of `first_fault`.)
ghost use Rattle.ck_lexer.specs.Laws as spec;

/// At each offset of a file there is at most one lexeme, with one end.
pub fn one_lexeme()
    ensures { spec.OffsetsHaveOneLexeme }
{}

/// No file has two lists of tokens.
pub fn one_list()
    ensures { spec.FilesHaveOneList }
{}

/// The spans of a file's tokens rise within the file, and none is empty.
pub fn tokens_rise()
    ensures { spec.TokensRise }
{}

/// A file with a list of tokens has no first fault.
pub fn tokens_or_fault()
    ensures { spec.ListsExcludeFaults }
{}

/// No file has two first faults.
pub fn one_fault()
    ensures { spec.FilesHaveOneFault }
{}

/// A line marker gives one number and one name.
pub fn one_marker()
    ensures { spec.LinesHaveOneMarker }
{}

/// Each offset of a file has one name, line and column.
pub fn one_place()
    ensures { spec.OffsetsHaveOnePlace }
{}
