//! The fixed words: the keywords of C99 6.4.1 and the punctuators of 6.4.6, without those that the subset
//! refuses.
use ck_base::TokenKind;
use ck_grammar::FixedWord::{self, *};
use ck_grammar::fixed_word;

const KEYWORDS: [(&str, FixedWord); 32] = [
    ("auto", Auto),
    ("break", Break),
    ("case", Case),
    ("char", Char),
    ("const", Const),
    ("continue", Continue),
    ("default", Default),
    ("do", Do),
    ("else", Else),
    ("enum", Enum),
    ("extern", Extern),
    ("for", For),
    ("goto", Goto),
    ("if", If),
    ("inline", Inline),
    ("int", Int),
    ("long", Long),
    ("register", Register),
    ("restrict", Restrict),
    ("return", Return),
    ("short", Short),
    ("signed", Signed),
    ("sizeof", Sizeof),
    ("static", Static),
    ("struct", Struct),
    ("switch", Switch),
    ("typedef", Typedef),
    ("unsigned", Unsigned),
    ("void", Void),
    ("volatile", Volatile),
    ("while", While),
    ("_Bool", Bool),
];

const PUNCTUATORS: [(&str, FixedWord); 46] = [
    ("[", LeftBracket),
    ("]", RightBracket),
    ("(", LeftParen),
    (")", RightParen),
    ("{", LeftBrace),
    ("}", RightBrace),
    (".", Dot),
    ("->", Arrow),
    ("++", Increment),
    ("--", Decrement),
    ("&", And),
    ("*", Star),
    ("+", Plus),
    ("-", Minus),
    ("~", Tilde),
    ("!", Not),
    ("/", Slash),
    ("%", Percent),
    ("<<", ShiftLeft),
    (">>", ShiftRight),
    ("<", Less),
    (">", Greater),
    ("<=", LessEqual),
    (">=", GreaterEqual),
    ("==", EqualEqual),
    ("!=", NotEqual),
    ("^", Caret),
    ("|", Or),
    ("&&", AndAnd),
    ("||", OrOr),
    ("?", Question),
    (":", Colon),
    (";", Semicolon),
    ("...", Ellipsis),
    ("=", Equal),
    ("*=", StarEqual),
    ("/=", SlashEqual),
    ("%=", PercentEqual),
    ("+=", PlusEqual),
    ("-=", MinusEqual),
    ("<<=", ShiftLeftEqual),
    (">>=", ShiftRightEqual),
    ("&=", AndEqual),
    ("^=", CaretEqual),
    ("|=", OrEqual),
    (",", Comma),
];

/// Texts that no fixed word has, and tokens of other kinds.
const NO_WORDS: [(TokenKind, &str); 13] = [
    (TokenKind::Key, "float"),
    (TokenKind::Key, "Int"),
    (TokenKind::Key, "in"),
    (TokenKind::Key, "ints"),
    (TokenKind::Key, ""),
    (TokenKind::Mark, "#"),
    (TokenKind::Mark, "<:"),
    (TokenKind::Mark, "...."),
    (TokenKind::Mark, ".."),
    (TokenKind::Word, "int"),
    (TokenKind::Number, "0"),
    (TokenKind::Char, ","),
    (TokenKind::Text, "if"),
];

/// Whether a token of this kind and text is the word, and the word has that text.
fn is_word(kind: TokenKind, text: &str, word: FixedWord) -> bool {
    fixed_word(kind, text.as_bytes()) == Some(word) && word.spelling() == text
}

#[test]
fn texts_of_fixed_words(rt: HostRuntime) {
    for (text, word) in KEYWORDS {
        assert!(rt; is_word(TokenKind::Key, text, word), "{text}");
    }
    for (text, word) in PUNCTUATORS {
        assert!(rt; is_word(TokenKind::Mark, text, word), "{text}");
    }
}

#[test]
fn texts_of_no_fixed_word(rt: HostRuntime) {
    for (kind, text) in NO_WORDS {
        assert!(rt; fixed_word(kind, text.as_bytes()).is_none(), "{text}");
    }
}
