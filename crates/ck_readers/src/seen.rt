//! What the grammar sees of a token.
ghost use Rattle.std.specs.Prelude.{◌≡◌};
ghost use Rattle.std.specs.Str.{bytes_eq};
ghost use Rattle.ck_grammar.specs.Fitting.{operator_level};
ghost use Rattle.ck_grammar.specs.FixedWords.{spelling as text_of_word};
ghost use Rattle.ck_grammar.specs.Phrases as phrases;
ghost use Rattle.ck_grammar.specs.Words as spec;
ghost use Rattle.ck_readers.specs.Looks.{IsSeen};

use ck_grammar::{FixedWord, Follow, Lead, Phrase, Sort, level};

/// The word of a token (`specs/Words.antt` of ck_grammar).
#[derive(Clone, Copy, Debug, PartialEq, Eq)]
pub enum Seen {
    /// A keyword or a punctuator of the subset.
    Fixed(FixedWord),
    /// An identifier that is no typedef name.
    Ordinary,
    /// A typedef name.
    Typedef,
    /// A number or a character constant.
    Constant,
    /// A string literal.
    Text,
    /// A keyword or a punctuator that the subset hasn't.
    Other,
}

impl Seen {
    /// Whether it is this fixed word.
    pub fn is(self, wanted: FixedWord) -> bool
        ensures { (word : spec.Word) → IsSeen word self → result ≡ spec.is_text (text_of_word wanted) word }
    {
        match self {
            Seen::Fixed(found) => same_word(found, wanted),
            _ => false,
        }
    }

    /// What it is to a declaration.
    pub fn sort(self) -> Sort
        ensures { (word : spec.Word) → IsSeen word self → result ≡ spec.sort word }
    {
        match self {
            Seen::Fixed(found) => found.sort(),
            Seen::Ordinary => Sort::Plain,
            Seen::Typedef => Sort::TypeName,
            Seen::Constant | Seen::Text => Sort::Other,
            Seen::Other => Sort::Other,
        }
    }

    /// What it begins at the start of an operand.
    pub fn lead(self) -> Lead
        ensures { (word : spec.Word) → IsSeen word self → result ≡ spec.lead word }
    {
        match self {
            Seen::Fixed(found) => found.lead(),
            Seen::Ordinary => Lead::Name,
            Seen::Constant => Lead::Constant,
            Seen::Text => Lead::String,
            Seen::Typedef => Lead::Nothing,
            Seen::Other => Lead::Nothing,
        }
    }

    /// What it does to an operand before it.
    pub fn follow(self) -> Follow
        ensures { (word : spec.Word) → IsSeen word self → result ≡ spec.follow word }
    {
        match self {
            Seen::Fixed(found) => found.follow(),
            Seen::Text => Follow::Neighbour,
            Seen::Ordinary | Seen::Typedef | Seen::Constant => Follow::Nothing,
            Seen::Other => Follow::Nothing,
        }
    }

    /// What it begins at the start of a statement.
    pub fn phrase(self) -> Phrase
        ensures { (word : spec.Word) → IsSeen word self → result ≡ phrases.phrase word }
    {
        match self {
            Seen::Fixed(found) => found.phrase(),
            Seen::Ordinary | Seen::Typedef => Phrase::Name,
            Seen::Constant | Seen::Text => Phrase::Other,
            Seen::Other => Phrase::Other,
        }
    }
}

/// Whether two fixed words are the same, which they are where their texts are.
pub fn same_word(a: FixedWord, b: FixedWord) -> bool
    ensures { result ≡ bytes_eq (text_of_word a) (text_of_word b) }
{
    a == b
}

/// The level of what follows an operand as an operator, and that of casts for what is none.
pub fn level_of(follow: Follow) -> u8
    ensures { result ≡ operator_level follow }
{
    match follow {
        Follow::Operator(of) => of,
        _ => level::CAST,
    }
}

/// Whether a type name can begin so (C99 6.7.6).
pub fn begins_type(sort: Sort) -> bool
    ensures { result ≡ spec.begins_type sort }
{
    matches!(
        sort,
        Sort::Qualifier | Sort::TypeWord | Sort::StructWord | Sort::EnumWord | Sort::TypeName
    )
}

/// Whether specifiers can begin so (C99 6.7).
pub fn begins_specifiers(sort: Sort) -> bool
    ensures { result ≡ spec.begins_specifiers sort }
{
    matches!(
        sort,
        Sort::Storage
            | Sort::Qualifier
            | Sort::Inline
            | Sort::TypeWord
            | Sort::StructWord
            | Sort::EnumWord
            | Sort::TypeName
    )
}
