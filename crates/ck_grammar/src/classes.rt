//! What a fixed word is to each part of the grammar.
ghost use Rattle.std.specs.Prelude.{◌≡◌};
ghost use Rattle.ck_grammar.specs.FixedWords.{spelling as text_of};
ghost use Rattle.ck_grammar.specs.Phrases.{phrase_by};
ghost use Rattle.ck_grammar.specs.Words.{follow_by, lead_by, sort_by};

use crate::level;
use crate::words::FixedWord;

/// What a token is to a declaration (C99 6.7).
#[derive(Clone, Copy, Debug, PartialEq, Eq)]
pub enum Sort {
    /// A storage class (6.7.1).
    Storage,
    /// A qualifier (6.7.3).
    Qualifier,
    /// `inline` (6.7.4).
    Inline,
    /// A type word (6.7.2), as `int`.
    TypeWord,
    /// `struct`.
    StructWord,
    /// `enum`.
    EnumWord,
    /// An identifier that is no typedef name.
    Plain,
    /// A typedef name (6.7.7).
    TypeName,
    /// `*`.
    Star,
    /// `(`.
    RoundMark,
    /// `[`.
    SquareMark,
    /// `{`.
    CurlyMark,
    /// `)`.
    CloseMark,
    /// No part of a declaration's specifiers or declarators begins with it.
    Other,
}

/// What a token begins at the start of an operand (6.5.1, 6.5.3).
#[derive(Clone, Copy, Debug, PartialEq, Eq)]
pub enum Lead {
    /// An identifier that is no typedef name.
    Name,
    /// A constant.
    Constant,
    /// A string literal.
    String,
    /// `(`.
    Paren,
    /// `++` or `--`.
    Step,
    /// Another unary operator, whose operand is a cast expression.
    Operator,
    /// `sizeof`.
    Sizeof,
    /// No operand begins with it.
    Nothing,
}

/// What a token after an expression does to it (6.5.2, 6.4.5, 6.5.5 to 6.5.17).
#[derive(Clone, Copy, Debug, PartialEq, Eq)]
pub enum Follow {
    /// `[`.
    Bracket,
    /// `(`.
    Parenthesis,
    /// `.` or `->`.
    Point,
    /// `++` or `--`.
    Steps,
    /// A string literal.
    Neighbour,
    /// An operator of this level of precedence, a constant of `level`.
    Operator(u8),
    /// It ends the expression.
    Nothing,
}

/// What a token begins at the start of a statement (6.8).
#[derive(Clone, Copy, Debug, PartialEq, Eq)]
pub enum Phrase {
    /// An identifier: a label or an expression.
    Name,
    /// `{`.
    Block,
    /// `}`, which begins none.
    Close,
    /// `;`.
    Empty,
    /// `if`.
    If,
    /// `else`, which begins none.
    Else,
    /// `switch`.
    Switch,
    /// `while`.
    While,
    /// `do`.
    Do,
    /// `for`.
    For,
    /// `case`.
    Case,
    /// `default`.
    Default,
    /// `goto`.
    Goto,
    /// `break` or `continue`.
    Jump,
    /// `return`.
    Return,
    /// An expression, a declaration or nothing.
    Other,
}

impl FixedWord {
    /// What the word is to a declaration.
    pub fn sort(self) -> Sort
        ensures { result ≡ sort_by (text_of self) }
    {
        match self {
            FixedWord::Typedef
            | FixedWord::Extern
            | FixedWord::Static
            | FixedWord::Auto
            | FixedWord::Register => Sort::Storage,
            FixedWord::Const | FixedWord::Volatile | FixedWord::Restrict => Sort::Qualifier,
            FixedWord::Inline => Sort::Inline,
            FixedWord::Void
            | FixedWord::Char
            | FixedWord::Short
            | FixedWord::Int
            | FixedWord::Long
            | FixedWord::Signed
            | FixedWord::Unsigned
            | FixedWord::Bool => Sort::TypeWord,
            FixedWord::Struct => Sort::StructWord,
            FixedWord::Enum => Sort::EnumWord,
            FixedWord::Star => Sort::Star,
            FixedWord::LeftParen => Sort::RoundMark,
            FixedWord::LeftBracket => Sort::SquareMark,
            FixedWord::LeftBrace => Sort::CurlyMark,
            FixedWord::RightParen => Sort::CloseMark,
            _ => Sort::Other,
        }
    }

    /// What the word begins at the start of an operand.
    pub fn lead(self) -> Lead
        ensures { result ≡ lead_by (text_of self) }
    {
        match self {
            FixedWord::LeftParen => Lead::Paren,
            FixedWord::Increment | FixedWord::Decrement => Lead::Step,
            FixedWord::And
            | FixedWord::Star
            | FixedWord::Plus
            | FixedWord::Minus
            | FixedWord::Tilde
            | FixedWord::Not => Lead::Operator,
            FixedWord::Sizeof => Lead::Sizeof,
            _ => Lead::Nothing,
        }
    }

    /// What the word does to an expression before it.
    pub fn follow(self) -> Follow
        ensures { result ≡ follow_by (text_of self) }
    {
        match self {
            FixedWord::LeftBracket => Follow::Bracket,
            FixedWord::LeftParen => Follow::Parenthesis,
            FixedWord::Dot | FixedWord::Arrow => Follow::Point,
            FixedWord::Increment | FixedWord::Decrement => Follow::Steps,
            FixedWord::Star | FixedWord::Slash | FixedWord::Percent => Follow::Operator(
                level::MULTIPLICATIVE,
            ),
            FixedWord::Plus | FixedWord::Minus => Follow::Operator(level::ADDITIVE),
            FixedWord::ShiftLeft | FixedWord::ShiftRight => Follow::Operator(level::SHIFT),
            FixedWord::Less | FixedWord::Greater | FixedWord::LessEqual | FixedWord::GreaterEqual =>
                Follow::Operator(level::RELATIONAL),
            FixedWord::EqualEqual | FixedWord::NotEqual => Follow::Operator(level::EQUALITY),
            FixedWord::And => Follow::Operator(level::BITWISE_AND),
            FixedWord::Caret => Follow::Operator(level::EXCLUSIVE_OR),
            FixedWord::Or => Follow::Operator(level::INCLUSIVE_OR),
            FixedWord::AndAnd => Follow::Operator(level::LOGICAL_AND),
            FixedWord::OrOr => Follow::Operator(level::LOGICAL_OR),
            FixedWord::Question => Follow::Operator(level::CONDITIONAL),
            FixedWord::Equal
            | FixedWord::StarEqual
            | FixedWord::SlashEqual
            | FixedWord::PercentEqual
            | FixedWord::PlusEqual
            | FixedWord::MinusEqual
            | FixedWord::ShiftLeftEqual
            | FixedWord::ShiftRightEqual
            | FixedWord::AndEqual
            | FixedWord::CaretEqual
            | FixedWord::OrEqual => Follow::Operator(level::ASSIGNMENT),
            FixedWord::Comma => Follow::Operator(level::COMMA),
            _ => Follow::Nothing,
        }
    }

    /// What the word begins at the start of a statement.
    pub fn phrase(self) -> Phrase
        ensures { result ≡ phrase_by (text_of self) }
    {
        match self {
            FixedWord::LeftBrace => Phrase::Block,
            FixedWord::RightBrace => Phrase::Close,
            FixedWord::Semicolon => Phrase::Empty,
            FixedWord::If => Phrase::If,
            FixedWord::Else => Phrase::Else,
            FixedWord::Switch => Phrase::Switch,
            FixedWord::While => Phrase::While,
            FixedWord::Do => Phrase::Do,
            FixedWord::For => Phrase::For,
            FixedWord::Case => Phrase::Case,
            FixedWord::Default => Phrase::Default,
            FixedWord::Goto => Phrase::Goto,
            FixedWord::Break | FixedWord::Continue => Phrase::Jump,
            FixedWord::Return => Phrase::Return,
            _ => Phrase::Other,
        }
    }
}
