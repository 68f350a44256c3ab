//! What specifiers have, told while they are read, so that which go together (C99 6.7.1, 6.7.2) needs no walk.
ghost use Rattle.std.specs.Prelude.{◌≡◌};
ghost use Rattle.ck_grammar.specs.FixedWords.{spelling};
ghost use Rattle.ck_tallies.specs.Tallies as spec;

use crate::places::Place;
use ck_grammar::{FixedWord, Sort};

/// Which of `void`, `char`, `int` and `_Bool` are among type words.
#[derive(Clone, Copy, Debug, PartialEq, Eq)]
pub enum Base {
    Nothing,
    Void,
    Char,
    Int,
    Bool,
    Many,
}

/// Which of `short` and `long` are among type words.
#[derive(Clone, Copy, Debug, PartialEq, Eq)]
pub enum Size {
    Nothing,
    Short,
    Long,
    LongLong,
    Many,
}

/// Which of `signed` and `unsigned` are among type words.
#[derive(Clone, Copy, Debug, PartialEq, Eq)]
pub enum Sign {
    Nothing,
    One,
    Many,
}

/// Which storage classes are among specifiers.
#[derive(Clone, Copy, Debug, PartialEq, Eq)]
pub enum Class {
    Nothing,
    Register,
    Typedef,
    Other,
    Many,
}

/// How many typedef names, structs and enums are among specifiers.
#[derive(Clone, Copy, Debug, PartialEq, Eq)]
pub enum Named {
    Nothing,
    One,
    Many,
}

/// What the specifiers that were read so far have.
#[derive(Clone, Copy, Debug, PartialEq, Eq)]
pub struct Tally {
    base: Base,
    size: Size,
    sign: Sign,
    class: Class,
    named: Named,
    /// Some type word is among them.
    typed: bool,
    /// `inline` is.
    inline: bool,
}

impl Base {
    /// With this type word too.
    fn with(self, word: FixedWord) -> Base
        ensures { result ≡ spec.base_with (spelling word) self }
    {
        match word {
            FixedWord::Void => self.and(Base::Void),
            FixedWord::Char => self.and(Base::Char),
            FixedWord::Int => self.and(Base::Int),
            FixedWord::Bool => self.and(Base::Bool),
            _ => self,
        }
    }

    fn and(self, word: Base) -> Base
        ensures { result ≡ spec.base_and self word }
    {
        match self {
            Base::Nothing => word,
            _ => Base::Many,
        }
    }
}

impl Size {
    /// With this type word too.
    fn with(self, word: FixedWord) -> Size
        ensures { result ≡ spec.size_with (spelling word) self }
    {
        match word {
            FixedWord::Short => self.and_short(),
            FixedWord::Long => self.and_long(),
            _ => self,
        }
    }

    fn and_short(self) -> Size
        ensures { result ≡ spec.and_short self }
    {
        match self {
            Size::Nothing => Size::Short,
            _ => Size::Many,
        }
    }

    fn and_long(self) -> Size
        ensures { result ≡ spec.and_long self }
    {
        match self {
            Size::Nothing => Size::Long,
            Size::Long => Size::LongLong,
            _ => Size::Many,
        }
    }
}

impl Sign {
    /// With this type word too.
    fn with(self, word: FixedWord) -> Sign
        ensures { result ≡ spec.sign_with (spelling word) self }
    {
        match word {
            FixedWord::Signed | FixedWord::Unsigned => self.and_one(),
            _ => self,
        }
    }

    fn and_one(self) -> Sign
        ensures { result ≡ spec.and_sign self }
    {
        match self {
            Sign::Nothing => Sign::One,
            _ => Sign::Many,
        }
    }
}

impl Class {
    /// With this storage class too.
    fn with(self, word: FixedWord) -> Class
        ensures { result ≡ spec.class_with (spelling word) self }
    {
        match word {
            FixedWord::Register => self.and(Class::Register),
            FixedWord::Typedef => self.and(Class::Typedef),
            FixedWord::Extern | FixedWord::Static | FixedWord::Auto => self.and(Class::Other),
            _ => self,
        }
    }

    fn and(self, word: Class) -> Class
        ensures { result ≡ spec.class_and self word }
    {
        match self {
            Class::Nothing => word,
            _ => Class::Many,
        }
    }
}

impl Named {
    /// With one more.
    fn and_one(self) -> Named
        ensures { result ≡ spec.and_named self }
    {
        match self {
            Named::Nothing => Named::One,
            _ => Named::Many,
        }
    }
}

impl Tally {
    /// Of no specifiers.
    pub fn new() -> Tally
        ensures { result ≡ spec.nothing }
    {
        Tally {
            base: Base::Nothing,
            size: Size::Nothing,
            sign: Sign::Nothing,
            class: Class::Nothing,
            named: Named::Nothing,
            typed: false,
            inline: false,
        }
    }

    /// With this word too.
    pub fn with_word(self, word: FixedWord) -> Tally
        ensures { result ≡ spec.with_text (spelling word) self }
    {
        let sort = word.sort();
        Tally {
            base: self.base.with(word),
            size: self.size.with(word),
            sign: self.sign.with(word),
            class: self.class.with(word),
            named: self.named,
            typed: self.typed || matches!(sort, Sort::TypeWord),
            inline: self.inline || matches!(sort, Sort::Inline),
        }
    }

    /// With a typedef name, a struct or an enum too.
    pub fn with_named(self) -> Tally
        ensures { result ≡ spec.with_named self }
    {
        Tally {
            named: self.named.and_one(),
            ..self
        }
    }

    /// Some type is among them.
    pub fn has_type(self) -> bool
        ensures { result ≡ spec.has_type self }
    {
        self.typed || !matches!(self.named, Named::Nothing)
    }

    /// They go together at this place (6.7).
    pub fn goes_together(self, place: Place) -> bool
        ensures { result ≡ spec.goes_together place self }
    {
        self.has_one_type() && self.class_fits(place)
    }

    /// One type (6.7.2).
    fn has_one_type(self) -> bool
        ensures { result ≡ spec.has_one_type self }
    {
        match self.named {
            Named::Nothing => self.typed && self.is_combination(),
            Named::One => !self.typed,
            Named::Many => false,
        }
    }

    /// The type words are a combination of 6.7.2.
    fn is_combination(self) -> bool
        ensures { result ≡ spec.is_combination self.base self.size self.sign }
    {
        match self.base {
            Base::Void | Base::Bool => {
                matches!(self.size, Size::Nothing) && matches!(self.sign, Sign::Nothing)
            }
            Base::Char => matches!(self.size, Size::Nothing) && !matches!(self.sign, Sign::Many),
            Base::Int => !matches!(self.size, Size::Many) && !matches!(self.sign, Sign::Many),
            Base::Nothing => match self.size {
                Size::Nothing => matches!(self.sign, Sign::One),
                Size::Many => false,
                _ => !matches!(self.sign, Sign::Many),
            },
            Base::Many => false,
        }
    }

    /// Storage classes and `inline` (6.7.1, 6.7.4, 6.7.5.3).
    fn class_fits(self, place: Place) -> bool
        ensures { result ≡ spec.class_fits place self.class self.inline }
    {
        match place {
            Place::InType => matches!(self.class, Class::Nothing) && !self.inline,
            Place::InParameter => {
                matches!(self.class, Class::Nothing | Class::Register) && !self.inline
            }
            Place::InBlock => !matches!(self.class, Class::Typedef | Class::Many),
            Place::InFile => !matches!(self.class, Class::Many),
        }
    }
}
