//! The fixed words: keywords (C99 6.4.1) and punctuators (6.4.6), each told once from a token's bytes.
ghost use Rattle.std.specs.Prelude.{◌≡◌, slice_index};
ghost use Rattle.ck_grammar.specs.FixedWords.{IsFixedWord, spelling as text_of};
ghost use Rattle.ck_grammar.specs.Candidates as spec;

use ck_base::TokenKind;

/// A keyword or a punctuator that a token of the subset can be (docs/TOKENS.md): none of the words that
/// are refused, no digraph, no `#`.
#[derive(Clone, Copy, Debug, PartialEq, Eq)]
pub enum FixedWord {
    /// `auto`
    Auto,
    /// `break`
    Break,
    /// `case`
    Case,
    /// `char`
    Char,
    /// `const`
    Const,
    /// `continue`
    Continue,
    /// `default`
    Default,
    /// `do`
    Do,
    /// `else`
    Else,
    /// `enum`
    Enum,
    /// `extern`
    Extern,
    /// `for`
    For,
    /// `goto`
    Goto,
    /// `if`
    If,
    /// `inline`
    Inline,
    /// `int`
    Int,
    /// `long`
    Long,
    /// `register`
    Register,
    /// `restrict`
    Restrict,
    /// `return`
    Return,
    /// `short`
    Short,
    /// `signed`
    Signed,
    /// `sizeof`
    Sizeof,
    /// `static`
    Static,
    /// `struct`
    Struct,
    /// `switch`
    Switch,
    /// `typedef`
    Typedef,
    /// `unsigned`
    Unsigned,
    /// `void`
    Void,
    /// `volatile`
    Volatile,
    /// `while`
    While,
    /// `_Bool`
    Bool,
    /// `[`
    LeftBracket,
    /// `]`
    RightBracket,
    /// `(`
    LeftParen,
    /// `)`
    RightParen,
    /// `{`
    LeftBrace,
    /// `}`
    RightBrace,
    /// `.`
    Dot,
    /// `->`
    Arrow,
    /// `++`
    Increment,
    /// `--`
    Decrement,
    /// `&`
    And,
    /// `*`
    Star,
    /// `+`
    Plus,
    /// `-`
    Minus,
    /// `~`
    Tilde,
    /// `!`
    Not,
    /// `/`
    Slash,
    /// `%`
    Percent,
    /// `<<`
    ShiftLeft,
    /// `>>`
    ShiftRight,
    /// `<`
    Less,
    /// `>`
    Greater,
    /// `<=`
    LessEqual,
    /// `>=`
    GreaterEqual,
    /// `==`
    EqualEqual,
    /// `!=`
    NotEqual,
    /// `^`
    Caret,
    /// `|`
    Or,
    /// `&&`
    AndAnd,
    /// `||`
    OrOr,
    /// `?`
    Question,
    /// `:`
    Colon,
    /// `;`
    Semicolon,
    /// `...`
    Ellipsis,
    /// `=`
    Equal,
    /// `*=`
    StarEqual,
    /// `/=`
    SlashEqual,
    /// `%=`
    PercentEqual,
    /// `+=`
    PlusEqual,
    /// `-=`
    MinusEqual,
    /// `<<=`
    ShiftLeftEqual,
    /// `>>=`
    ShiftRightEqual,
    /// `&=`
    AndEqual,
    /// `^=`
    CaretEqual,
    /// `|=`
    OrEqual,
    /// `,`
    Comma,
}

/// The keyword or punctuator that a token of this kind is, by its whole text; nothing for a token of
/// another kind, and for a text that no fixed word has.
pub fn fixed_word(kind: TokenKind, text: &[u8]) -> Option<FixedWord>
    ensures { IsFixedWord kind text.now result }
{
    match kind {
        TokenKind::Key | TokenKind::Mark => word_of(text),
        _ => None,
    }
}

/// The fixed word of this text.
fn word_of(text: &[u8]) -> Option<FixedWord>
    ensures { result ≡ spec.word_of text.now }
{
    match candidate(text) {
        Some(word) if word.spelling().as_bytes() == text => Some(word),
        _ => None,
    }
}

impl FixedWord {
    /// The text of the word.
    pub fn spelling(self) -> &'static str
        ensures { result.now ≡ text_of self }
    {
        match self {
            FixedWord::Auto => "auto",
            FixedWord::Break => "break",
            FixedWord::Case => "case",
            FixedWord::Char => "char",
            FixedWord::Const => "const",
            FixedWord::Continue => "continue",
            FixedWord::Default => "default",
            FixedWord::Do => "do",
            FixedWord::Else => "else",
            FixedWord::Enum => "enum",
            FixedWord::Extern => "extern",
            FixedWord::For => "for",
            FixedWord::Goto => "goto",
            FixedWord::If => "if",
            FixedWord::Inline => "inline",
            FixedWord::Int => "int",
            FixedWord::Long => "long",
            FixedWord::Register => "register",
            FixedWord::Restrict => "restrict",
            FixedWord::Return => "return",
            FixedWord::Short => "short",
            FixedWord::Signed => "signed",
            FixedWord::Sizeof => "sizeof",
            FixedWord::Static => "static",
            FixedWord::Struct => "struct",
            FixedWord::Switch => "switch",
            FixedWord::Typedef => "typedef",
            FixedWord::Unsigned => "unsigned",
            FixedWord::Void => "void",
            FixedWord::Volatile => "volatile",
            FixedWord::While => "while",
            FixedWord::Bool => "_Bool",
            FixedWord::LeftBracket => "[",
            FixedWord::RightBracket => "]",
            FixedWord::LeftParen => "(",
            FixedWord::RightParen => ")",
            FixedWord::LeftBrace => "{",
            FixedWord::RightBrace => "}",
            FixedWord::Dot => ".",
            FixedWord::Arrow => "->",
            FixedWord::Increment => "++",
            FixedWord::Decrement => "--",
            FixedWord::And => "&",
            FixedWord::Star => "*",
            FixedWord::Plus => "+",
            FixedWord::Minus => "-",
            FixedWord::Tilde => "~",
            FixedWord::Not => "!",
            FixedWord::Slash => "/",
            FixedWord::Percent => "%",
            FixedWord::ShiftLeft => "<<",
            FixedWord::ShiftRight => ">>",
            FixedWord::Less => "<",
            FixedWord::Greater => ">",
            FixedWord::LessEqual => "<=",
            FixedWord::GreaterEqual => ">=",
            FixedWord::EqualEqual => "==",
            FixedWord::NotEqual => "!=",
            FixedWord::Caret => "^",
            FixedWord::Or => "|",
            FixedWord::AndAnd => "&&",
            FixedWord::OrOr => "||",
            FixedWord::Question => "?",
            FixedWord::Colon => ":",
            FixedWord::Semicolon => ";",
            FixedWord::Ellipsis => "...",
            FixedWord::Equal => "=",
            FixedWord::StarEqual => "*=",
            FixedWord::SlashEqual => "/=",
            FixedWord::PercentEqual => "%=",
            FixedWord::PlusEqual => "+=",
            FixedWord::MinusEqual => "-=",
            FixedWord::ShiftLeftEqual => "<<=",
            FixedWord::ShiftRightEqual => ">>=",
            FixedWord::AndEqual => "&=",
            FixedWord::CaretEqual => "^=",
            FixedWord::OrEqual => "|=",
            FixedWord::Comma => ",",
        }
    }
}

/// The byte at an index, or 0 past the end.
fn byte_at(text: &[u8], index: usize) -> u8
    ensures { result ≡ slice_index text.now index }
{
    text.get(index).copied().unwrap_or(0)
}

/// The one fixed word that a text can be, by its length and a byte or two of it.
fn candidate(text: &[u8]) -> Option<FixedWord>
    ensures { result ≡ spec.candidate text.now }
{
    let (first, second, third) = (byte_at(text, 0), byte_at(text, 1), byte_at(text, 2));
    match text.len() {
        1 => of_one(first),
        2 => of_two(first, second),
        3 => of_three(first),
        4 => of_four(first, third),
        5 => of_five(first),
        6 => of_six(first, third),
        7 => of_seven(first),
        8 => of_eight(first, third),
        _ => None,
    }
}

/// The punctuators of one byte.
fn of_one(first: u8) -> Option<FixedWord>
    ensures { result ≡ spec.of_one first }
{
    match first {
        b'[' => Some(FixedWord::LeftBracket),
        b']' => Some(FixedWord::RightBracket),
        b'(' => Some(FixedWord::LeftParen),
        b')' => Some(FixedWord::RightParen),
        b'{' => Some(FixedWord::LeftBrace),
        b'}' => Some(FixedWord::RightBrace),
        b'.' => Some(FixedWord::Dot),
        b'&' => Some(FixedWord::And),
        b'*' => Some(FixedWord::Star),
        b'+' => Some(FixedWord::Plus),
        b'-' => Some(FixedWord::Minus),
        b'~' => Some(FixedWord::Tilde),
        b'!' => Some(FixedWord::Not),
        b'/' => Some(FixedWord::Slash),
        b'%' => Some(FixedWord::Percent),
        b'<' => Some(FixedWord::Less),
        b'>' => Some(FixedWord::Greater),
        b'^' => Some(FixedWord::Caret),
        b'|' => Some(FixedWord::Or),
        b'?' => Some(FixedWord::Question),
        b':' => Some(FixedWord::Colon),
        b';' => Some(FixedWord::Semicolon),
        b'=' => Some(FixedWord::Equal),
        b',' => Some(FixedWord::Comma),
        _ => None,
    }
}

/// The punctuators of two bytes that end with `=`.
fn before_equals(first: u8) -> Option<FixedWord>
    ensures { result ≡ spec.before_equals first }
{
    match first {
        b'<' => Some(FixedWord::LessEqual),
        b'>' => Some(FixedWord::GreaterEqual),
        b'=' => Some(FixedWord::EqualEqual),
        b'!' => Some(FixedWord::NotEqual),
        b'*' => Some(FixedWord::StarEqual),
        b'/' => Some(FixedWord::SlashEqual),
        b'%' => Some(FixedWord::PercentEqual),
        b'+' => Some(FixedWord::PlusEqual),
        b'-' => Some(FixedWord::MinusEqual),
        b'&' => Some(FixedWord::AndEqual),
        b'^' => Some(FixedWord::CaretEqual),
        b'|' => Some(FixedWord::OrEqual),
        _ => None,
    }
}

/// The fixed words of two bytes.
fn of_two(first: u8, second: u8) -> Option<FixedWord>
    ensures { result ≡ spec.of_two first second }
{
    match second {
        b'=' => before_equals(first),
        b'>' if first == b'-' => Some(FixedWord::Arrow),
        b'>' => Some(FixedWord::ShiftRight),
        b'<' => Some(FixedWord::ShiftLeft),
        b'+' => Some(FixedWord::Increment),
        b'-' => Some(FixedWord::Decrement),
        b'&' => Some(FixedWord::AndAnd),
        b'|' => Some(FixedWord::OrOr),
        b'o' => Some(FixedWord::Do),
        b'f' => Some(FixedWord::If),
        _ => None,
    }
}

/// The fixed words of three bytes.
fn of_three(first: u8) -> Option<FixedWord>
    ensures { result ≡ spec.of_three first }
{
    match first {
        b'.' => Some(FixedWord::Ellipsis),
        b'<' => Some(FixedWord::ShiftLeftEqual),
        b'>' => Some(FixedWord::ShiftRightEqual),
        b'f' => Some(FixedWord::For),
        b'i' => Some(FixedWord::Int),
        _ => None,
    }
}

/// The keywords of four bytes.
fn of_four(first: u8, third: u8) -> Option<FixedWord>
    ensures { result ≡ spec.of_four first third }
{
    match first {
        b'a' => Some(FixedWord::Auto),
        b'c' if third == b's' => Some(FixedWord::Case),
        b'c' => Some(FixedWord::Char),
        b'e' if third == b's' => Some(FixedWord::Else),
        b'e' => Some(FixedWord::Enum),
        b'g' => Some(FixedWord::Goto),
        b'l' => Some(FixedWord::Long),
        b'v' => Some(FixedWord::Void),
        _ => None,
    }
}

/// The keywords of five bytes.
fn of_five(first: u8) -> Option<FixedWord>
    ensures { result ≡ spec.of_five first }
{
    match first {
        b'b' => Some(FixedWord::Break),
        b'c' => Some(FixedWord::Const),
        b's' => Some(FixedWord::Short),
        b'w' => Some(FixedWord::While),
        b'_' => Some(FixedWord::Bool),
        _ => None,
    }
}

/// The keywords of six bytes.
fn of_six(first: u8, third: u8) -> Option<FixedWord>
    ensures { result ≡ spec.of_six first third }
{
    match first {
        b'e' => Some(FixedWord::Extern),
        b'i' => Some(FixedWord::Inline),
        b'r' => Some(FixedWord::Return),
        b's' => of_six_with_s(third),
        _ => None,
    }
}

/// The keywords of six bytes that begin with `s`, by their third byte.
fn of_six_with_s(third: u8) -> Option<FixedWord>
    ensures { result ≡ spec.of_six_with_s third }
{
    match third {
        b'g' => Some(FixedWord::Signed),
        b'z' => Some(FixedWord::Sizeof),
        b'a' => Some(FixedWord::Static),
        b'r' => Some(FixedWord::Struct),
        b'i' => Some(FixedWord::Switch),
        _ => None,
    }
}

/// The keywords of seven bytes.
fn of_seven(first: u8) -> Option<FixedWord>
    ensures { result ≡ spec.of_seven first }
{
    match first {
        b'd' => Some(FixedWord::Default),
        b't' => Some(FixedWord::Typedef),
        _ => None,
    }
}

/// The keywords of eight bytes.
fn of_eight(first: u8, third: u8) -> Option<FixedWord>
    ensures { result ≡ spec.of_eight first third }
{
    match first {
        b'c' => Some(FixedWord::Continue),
        b'r' if third == b'g' => Some(FixedWord::Register),
        b'r' => Some(FixedWord::Restrict),
        b'u' => Some(FixedWord::Unsigned),
        b'v' => Some(FixedWord::Volatile),
        _ => None,
    }
}
