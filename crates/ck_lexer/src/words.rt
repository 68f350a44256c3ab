//! Keywords, and the words outside the subset.
ghost use Rattle.std.specs.Prelude.{◌≡◌};
ghost use Rattle.std.specs.List.{list_any};
ghost use Rattle.std.specs.Str.{bytes_eq};
ghost use Rattle.ck_lexer.specs.Keywords as spec;

/// Whether this text is one of these words.
pub(crate) fn is_among(words: &[&str], text: &[u8]) -> bool
    ensures { result ≡ list_any (λ word. bytes_eq text.now word.now) words.now }
{
    words.iter().any(|word| text == word.as_bytes())
}

/// Whether this word is a keyword of the subset, among those of its length.
#[tactic(auto, unfolding(crate::specs::Keywords::is_keyword))]
pub(crate) fn is_keyword(text: &[u8]) -> bool
    ensures { result ≡ spec.is_keyword text.now }
{
    match text.len() {
        2 => is_among(&["do", "if"], text),
        3 => is_among(&["for", "int"], text),
        4 => is_among(
            &[
                "auto", "case", "char", "else", "enum", "goto", "long", "void",
            ],
            text,
        ),
        5 => is_among(&["break", "const", "short", "while", "_Bool"], text),
        6 => is_among(
            &[
                "extern", "inline", "return", "signed", "sizeof", "static", "struct", "switch",
            ],
            text,
        ),
        7 => is_among(&["default", "typedef"], text),
        8 => is_among(
            &["continue", "register", "restrict", "unsigned", "volatile"],
            text,
        ),
        _ => false,
    }
}

/// Whether this word is outside the subset, among the words of its length.
#[tactic(auto, unfolding(crate::specs::Keywords::is_reserved_word))]
pub(crate) fn is_reserved_word(text: &[u8]) -> bool
    ensures { result ≡ spec.is_reserved_word text.now }
{
    match text.len() {
        3 => is_among(&["asm"], text),
        5 => is_among(&["float", "union", "__asm"], text),
        6 => is_among(&["double", "typeof"], text),
        7 => is_among(&["__asm__"], text),
        8 => is_among(&["_Complex"], text),
        10 => is_among(&["_Imaginary", "__typeof__"], text),
        11 => is_among(&["__attribute"], text),
        13 => is_among(&["__attribute__", "__extension__"], text),
        _ => false,
    }
}
