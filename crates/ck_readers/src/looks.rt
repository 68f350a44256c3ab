//! What a source keeps of each token.
ghost use Rattle.std.specs.Prelude.{◌≡◌, ◌⊎◌, ℕ, List, IfOk};
ghost use Rattle.ck_base.specs.TokenText.{text_of};
ghost use Rattle.ck_base.specs.declared.tokens.TokenKind.TheVariants as kinds;
ghost use Rattle.ck_readers.specs.Looks as spec;

use ck_base::{OutOfMemory, Token, TokenKind};
use ck_grammar::{FixedWord, fixed_word};
use indexmap::IndexSet;

/// The fixed word of a token, or the number of its name in order of first sight.
#[derive(Clone, Copy, Debug, PartialEq, Eq)]
pub enum Look {
    /// A keyword or a punctuator of the subset.
    Fixed(FixedWord),
    /// An identifier.
    Name(usize),
    /// A number or a character constant.
    Constant,
    /// A string literal.
    Text,
    /// A keyword or a punctuator that the subset hasn't.
    Other,
}

/// The bytes of a token's span, as far as they are there.
pub fn text<'a>(bytes: &'a [u8], token: &Token) -> &'a [u8]
    ensures { result.now ≡ text_of bytes.now token.now }
{
    let end = (token.span.end as usize).min(bytes.len());
    let start = (token.span.start as usize).min(end);
    &bytes[start..end]
}

/// What is kept of a token of this kind and text; a new name goes last among the known ones.
pub fn look_at<'a>(
    known: &mut IndexSet<&'a [u8]>,
    kind: TokenKind,
    text: &'a [u8],
) -> Result<Look, OutOfMemory>
    requires { spec.AreDistinct (spec.names_of known.old.keys) }
    ensures kept { spec.Extends (spec.names_of known.old.keys) (spec.names_of known.new.keys) }
    ensures distinct { spec.AreDistinct (spec.names_of known.new.keys) }
    ensures told { IfOk result (spec.IsLook (spec.names_of known.new.keys) kind text.now) }
{
    match kind {
        TokenKind::Word => {
            let (number, _) = known.insert_full(text)?;
            Ok(Look::Name(number))
        }
        TokenKind::Number | TokenKind::Char => Ok(Look::Constant),
        TokenKind::Text => Ok(Look::Text),
        TokenKind::Key | TokenKind::Mark => Ok(fixed_look(kind, text)),
    }
}

/// What is kept of a keyword or a punctuator.
fn fixed_look(kind: TokenKind, text: &[u8]) -> Look
    ensures { (names : List (List ℕ)) → (kind ≡ kinds.Key) ⊎ (kind ≡ kinds.Mark)
        → spec.IsLook names kind text.now result }
{
    match fixed_word(kind, text) {
        Some(found) => Look::Fixed(found),
        None => Look::Other,
    }
}
