//! A file that is being read: its tokens, each looked at once.
ghost use Rattle.std.specs.Prelude.{◌≡◌, ◌∷◌, ℕ, List, length, drop, map, IfOk, OnOk, OnErr};
ghost use Rattle.ck_base.specs.TokenText.{text_of};
ghost use Rattle.ck_grammar.specs.Fitting.{operator_level};
ghost use Rattle.ck_grammar.specs.FixedWords.{spelling as text_of_word};
ghost use Rattle.ck_grammar.specs.Readers as reading;
ghost use Rattle.ck_grammar.specs.ReadingExpressions as expressions;
ghost use Rattle.ck_grammar.specs.ReadingTypes as types;
ghost use Rattle.ck_base.specs.declared.tokens.TokenKind.{TokenKind};
ghost use Rattle.ck_grammar.specs.Words.{begins_specifiers as starts_specifiers, is_text, is_one_of, word_by};
ghost use Rattle.ck_readers.specs.Looks.{AreLooks, AreDistinct, IsLook, IsSeen, SeenAt, names_of};
ghost use Rattle.ck_readers.specs.Places.{FoundAt, ToldAt, itself};
ghost use Rattle.ck_readers.specs.SourceView.{SourceView, words, sort_in, lead_in, follow_in, phrase_in};
ghost use Rattle.ck_readers.specs.SourceView.{text_at, text_mark, IsFixedFirst, LiteralAt, IsFaultSpot, spot_at};

use crate::looks::{Look, look_at, text};
use crate::seen::{Seen, begins_specifiers, begins_type, level_of, same_word};
use crate::type_names::TypeNames;
use ck_base::{OutOfMemory, Refusal, Span, Spot, Token, Unsupported};
use ck_grammar::{FixedWord, Follow, Lead, Phrase, Sort, fixed_word, level};
use indexmap::IndexSet;
use std::alloc::Global;
use std::cell::Cell;
use std::marker::Model;

/// A file that is being read. It is seen as its bytes, its tokens, and the names that are typedef names now
/// (`specs/SourceView.antt`). Places are numbers of tokens, from 0.
///
/// Each token is looked at once, so a question about the word at a place compares numbers. Beside, it keeps the
/// greatest place at which something wanted didn't come, which no contract speaks of.
#[derive(Drop)]
pub struct Source<'a> {
    bytes: &'a [u8],
    tokens: &'a [Token],
    earlier: &'a TypeNames,
    /// The bytes of each name.
    known: IndexSet<&'a [u8]>,
    looked: Vec<Look>,
    /// Whether a name is a typedef name now, by its number.
    types: Vec<bool>,
    /// The names that became typedef names, the last one last.
    added: Vec<Token>,
    furthest: Cell<usize>,
}

impl<'a> Model for Source<'a> {
    ghost use Rattle.ck_readers.specs.Looks.{IsLooked, names_of};
    ghost use Rattle.ck_readers.specs.NameSet.{with_tokens};
    ghost use Rattle.ck_readers.specs.SourceView.{SourceView};

    ghost Value = { SourceView };

    ghost view = { λ s. record {
      bytes = s.bytes.now;
      typedefs = with_tokens s.bytes.now s.added.items s.earlier.now;
      tokens = s.tokens.now;
    } };

    ghost invariant = { λ s. IsLooked s.bytes.now s.tokens.now (names_of s.known.keys) s.looked.items
        s.types.items (with_tokens s.bytes.now s.added.items s.earlier.now) };
}

impl<'a> Source<'a> {
    /// The source with these typedef names before its tokens.
    pub fn new(
        alloc: Global,
        bytes: &'a [u8],
        tokens: &'a [Token],
        earlier: &'a TypeNames,
    ) -> Result<Source<'a>, OutOfMemory>
        ensures { IfOk result (λ source. source
            ≡ record { bytes = bytes.now; typedefs = earlier.now; tokens = tokens.now }) }
    {
        let (known, looked) = look_all(alloc, bytes, tokens)?;
        let types = types_of(alloc, &known, earlier)?;
        Ok(Source {
            bytes,
            tokens,
            earlier,
            known,
            looked,
            types,
            added: Vec::new(alloc),
            furthest: Cell::new(0),
        })
    }

    /// How many tokens there are.
    pub fn len(&self) -> usize
        ensures { result ≡ length self.now.tokens }
    {
        self.tokens.len()
    }

    /// The name of a token is a typedef name from now on. Where memory runs out all is as it was.
    pub fn add_typedef(&mut self, token: Token) -> Result<(), OutOfMemory>
        ensures added { OnOk result (self.new
            ≡ record self.old { typedefs = text_of self.old.bytes token ∷ self.old.typedefs }) }
        ensures kept { OnErr result (self.new ≡ self.old) }
    {
        self.added.push(token)?;
        add_type(&self.known, &mut self.types, text(self.bytes, &token));
        Ok(())
    }

    /// The token at a place, what it is to a declaration, and the place after it; nothing at the end.
    pub fn sort_at(&self, at: usize) -> Option<(Token, Sort, usize)>
        ensures { ToldAt (sort_in self.now) self.now.tokens at result }
    {
        let first = self.seen_at(at)?;
        let (token, seen, next) = first;
        Some((token, seen.sort(), next))
    }

    /// The token at a place, what it begins as an operand, and the place after it.
    pub fn lead_at(&self, at: usize) -> Option<(Token, Lead, usize)>
        ensures { ToldAt (lead_in self.now) self.now.tokens at result }
    {
        let first = self.seen_at(at)?;
        let (token, seen, next) = first;
        Some((token, seen.lead(), next))
    }

    /// The token at a place, what it does to an operand before it, and the place after it.
    pub fn follow_at(&self, at: usize) -> Option<(Token, Follow, usize)>
        ensures { ToldAt (follow_in self.now) self.now.tokens at result }
    {
        let first = self.seen_at(at)?;
        let (token, seen, next) = first;
        Some((token, seen.follow(), next))
    }

    /// The token at a place, what it begins as a statement, and the place after it.
    pub fn phrase_at(&self, at: usize) -> Option<(Token, Phrase, usize)>
        ensures { ToldAt (phrase_in self.now) self.now.tokens at result }
    {
        let first = self.seen_at(at)?;
        let (token, seen, next) = first;
        Some((token, seen.phrase(), next))
    }

    /// The fixed word at a place.
    pub fn fixed_at(&self, at: usize) -> Option<FixedWord>
        ensures { IsFixedFirst (words self.now) (drop at self.now.tokens) result }
    {
        match self.seen_at(at) {
            Some((_, Seen::Fixed(found), _)) => Some(found),
            _ => None,
        }
    }

    /// Whether this fixed word is at a place.
    pub fn is_word(&self, wanted: FixedWord, at: usize) -> bool
        ensures { result ≡ text_at (words self.now) (text_of_word wanted) (drop at self.now.tokens) }
    {
        match self.seen_at(at) {
            Some((_, seen, _)) => seen.is(wanted),
            None => false,
        }
    }

    /// This fixed word, where it is at a place, and the place after it.
    pub fn mark(&self, wanted: FixedWord, at: usize) -> Option<(Token, usize)>
        ensures { FoundAt itself (text_mark (words self.now) (text_of_word wanted)) self.now.tokens at result }
    {
        let Some(first) = self.seen_at(at) else {
            self.expected(at);
            return None;
        };
        let (token, seen, next) = first;
        if !seen.is(wanted) {
            self.expected(at);
            return None;
        }
        Some((token, next))
    }

    /// An identifier, a typedef name too, and the place after it.
    pub fn identifier(&self, at: usize) -> Option<(Token, usize)>
        ensures { FoundAt itself (reading.identifier (words self.now)) self.now.tokens at result }
    {
        let Some(first) = self.seen_at(at) else {
            self.expected(at);
            return None;
        };
        let (token, seen, next) = first;
        if !matches!(seen, Seen::Ordinary | Seen::Typedef) {
            self.expected(at);
            return None;
        }
        Some((token, next))
    }

    /// An operator of this level, and the place after it.
    pub fn operator(&self, of: u8, at: usize) -> Option<(Token, usize)>
        ensures { FoundAt itself (expressions.operator (words self.now) of) self.now.tokens at result }
    {
        let first = self.follow_at(at)?;
        let (token, follow, next) = first;
        if level_of(follow) == of {
            Some((token, next))
        } else {
            None
        }
    }

    /// Whether an operand can begin at a place.
    pub fn begins_operand(&self, at: usize) -> bool
        ensures { result ≡ expressions.begins_operand (words self.now) (drop at self.now.tokens) }
    {
        match self.lead_at(at) {
            Some((_, lead, _)) => !matches!(lead, Lead::Nothing),
            None => false,
        }
    }

    /// Whether `(` and what a type name can begin with are at a place.
    pub fn opens_type(&self, at: usize) -> bool
        ensures { result ≡ expressions.opens_type (words self.now) (drop at self.now.tokens) }
    {
        match self.lead_at(at) {
            Some((_, Lead::Paren, next)) => match self.sort_at(next) {
                Some((_, sort, _)) => begins_type(sort),
                None => false,
            },
            _ => false,
        }
    }

    /// Whether specifiers can begin at a place.
    pub fn begins_specifiers(&self, at: usize) -> bool
        ensures { result ≡ types.begins_with (words self.now) starts_specifiers (drop at self.now.tokens) }
    {
        match self.sort_at(at) {
            Some((_, sort, _)) => begins_specifiers(sort),
            None => false,
        }
    }

    /// Whether a parameter list can begin at a place, or end at once.
    pub fn begins_params(&self, at: usize) -> bool
        ensures { result ≡ types.begins_params (words self.now) (drop at self.now.tokens) }
    {
        match self.sort_at(at) {
            Some((_, sort, _)) => begins_specifiers(sort) || matches!(sort, Sort::CloseMark),
            None => false,
        }
    }

    /// Whether an identifier that is no typedef name is at a place.
    pub fn is_name(&self, at: usize) -> bool
        ensures { result ≡ types.is_name (words self.now) (drop at self.now.tokens) }
    {
        match self.sort_at(at) {
            Some((_, sort, _)) => matches!(sort, Sort::Plain),
            None => false,
        }
    }

    /// A string literal at a place.
    pub fn literal_at(&self, at: usize) -> Option<Token>
        ensures { LiteralAt (words self.now) self.now.tokens at result }
    {
        match self.seen_at(at) {
            Some((token, Seen::Text, _)) => Some(token),
            _ => None,
        }
    }

    /// Whether a token, by its bytes, is this fixed word.
    pub fn token_is(&self, token: Token, wanted: FixedWord) -> bool
        ensures { result ≡ is_text (text_of_word wanted) (words self.now token) }
    {
        match fixed_word(token.kind, text(self.bytes, &token)) {
            Some(found) => same_word(found, wanted),
            None => false,
        }
    }

    /// The level of a token as an operator, by its bytes; that of casts for what is none.
    pub fn level_of(&self, token: Token) -> u8
        ensures { result ≡ operator_level (follow_in self.now token) }
    {
        match fixed_word(token.kind, text(self.bytes, &token)) {
            Some(found) => level_of(found.follow()),
            None => level::CAST,
        }
    }

    /// Notes that something wanted didn't come at a place.
    pub fn expected(&self, at: usize) {
        if self.furthest.get() < at {
            self.furthest.set(at);
        }
    }

    /// The refusal of a file that no tree spells: at the token at the furthest place at which something wanted didn't
    /// come, after the last token where that is the end, and nowhere where there are no tokens.
    pub fn syntax_fault(&self) -> Refusal
        ensures kind { result.kind ≡ Unsupported.U7 }
        ensures spot { IsFaultSpot self.now.tokens result.at }
    {
        Refusal {
            kind: Unsupported::U7,
            at: spot(self.tokens, self.furthest.get()),
        }
    }

    /// The token at a place, its word, and the place after it.
    fn seen_at(&self, at: usize) -> Option<(Token, Seen, usize)>
        ensures { SeenAt (words self.now) self.now.tokens at result }
    {
        let Some(token) = self.tokens.get(at) else {
            return None;
        };
        let Some(look) = self.looked.get(at) else {
            return None;
        };
        Some((*token, seen_by(&self.types, *look), at + 1))
    }
}

/// The spot of a place: the token there, the end of the last token past it, nowhere where there are none.
fn spot(tokens: &[Token], at: usize) -> Spot
    ensures { result ≡ spot_at tokens.now at }
{
    match (tokens.get(at), tokens.last()) {
        (Some(token), _) => Spot::At(token.span),
        (None, Some(last)) => Spot::At(Span {
            file: last.span.file,
            start: last.span.end,
            end: last.span.end,
        }),
        (None, None) => Spot::Nowhere,
    }
}

/// The names of a file and what is kept of each token.
fn look_all<'a>(
    alloc: Global,
    bytes: &'a [u8],
    tokens: &[Token],
) -> Result<(IndexSet<&'a [u8]>, Vec<Look>), OutOfMemory>
    ensures looks { IfOk result (λ all. AreLooks bytes.now (names_of all.0.keys) tokens.now all.1.items) }
    ensures distinct { IfOk result (λ all. AreDistinct (names_of all.0.keys)) }
{
    let mut known = IndexSet::new(alloc);
    let mut looked = Vec::new(alloc);
    'tokens: for token in tokens {
        looked.push(look_at(&mut known, token.kind, text(bytes, token))?)?;
    }
    Ok((known, looked))
}

/// Whether each name is one of those.
fn types_of(
    alloc: Global,
    known: &IndexSet<&[u8]>,
    earlier: &TypeNames,
) -> Result<Vec<bool>, OutOfMemory>
    ensures { IfOk result (λ types. types.items ≡ map (is_one_of earlier.now) (names_of known.now.keys)) }
{
    let mut types = Vec::new(alloc);
    'names: for name in known.as_slice() {
        types.push(earlier.contains(*name))?;
    }
    Ok(types)
}

/// A name is a typedef name from now on.
fn add_type(known: &IndexSet<&[u8]>, types: &mut Vec<bool>, name: &[u8])
    requires { AreDistinct (names_of known.now.keys) }
    ensures { (typedefs : List (List ℕ)) → types.old.items ≡ map (is_one_of typedefs) (names_of known.now.keys)
        → types.new.items ≡ map (is_one_of (name.now ∷ typedefs)) (names_of known.now.keys) }
{
    match known.get_full(name) {
        None => {}
        Some((number, _)) => {
            if number < types.len() {
                types[number] = true;
            }
        }
    }
}

/// The word of a token by what is kept of it.
fn seen_by(types: &[bool], look: Look) -> Seen
    ensures { (names typedefs : List (List ℕ)) (kind : TokenKind) (text : List ℕ)
        → types.now ≡ map (is_one_of typedefs) names → IsLook names kind text look
        → IsSeen (word_by typedefs kind text) result }
{
    match look {
        Look::Fixed(found) => Seen::Fixed(found),
        Look::Name(number) => match types.get(number) {
            Some(true) => Seen::Typedef,
            _ => Seen::Ordinary,
        },
        Look::Constant => Seen::Constant,
        Look::Text => Seen::Text,
        Look::Other => Seen::Other,
    }
}
