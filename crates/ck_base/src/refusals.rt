//! What the checker refuses, where, and in which words.
ghost use Rattle.std.specs.Prelude.{◌≡◌};
ghost use Rattle.ck_base.specs.Refusals.{refusal_number, refusal_words};

use crate::spans::Span;
use std::alloc::{AllocError, AllocFailed};

/// What the project has that is refused. `words` says what each of them is (docs/REPORT.md).
#[derive(Clone, Copy, Debug, PartialEq, Eq)]
pub enum Unsupported {
    U1,
    U2,
    U3,
    U4,
    U5,
    U6,
    U7,
    U8,
    U9,
    U10,
    U11,
    U12,
    U13,
    U14,
    U15,
    U16,
    U17,
    U18,
    U19,
    U20,
    U21,
    U22,
    U23,
    U24,
    U25,
    U26,
    U27,
    U28,
}

/// Where a refusal is.
#[derive(Clone, Copy, Debug, PartialEq, Eq)]
pub enum Spot {
    /// At no place.
    Nowhere,
    /// At a whole file, by its number from 0.
    File(u32),
    /// At these bytes.
    At(Span),
}

/// A refusal with its spot.
#[derive(Clone, Copy, Debug, PartialEq, Eq)]
pub struct Refusal {
    pub kind: Unsupported,
    pub at: Spot,
}

/// Memory ran out.
#[derive(Clone, Copy, Debug, PartialEq, Eq)]
pub struct OutOfMemory;

impl From<AllocError> for OutOfMemory {
    fn from(_error: AllocError) -> OutOfMemory {
        OutOfMemory
    }
}

impl<T: Drop> From<AllocFailed<T>> for OutOfMemory {
    fn from(_error: AllocFailed<T>) -> OutOfMemory {
        OutOfMemory
    }
}

/// Why a stage gave no value: a refusal of its input, or want of memory.
#[derive(Clone, Copy, Debug, PartialEq, Eq)]
pub enum Fault {
    Unsupported(Refusal),
    Memory,
}

impl From<OutOfMemory> for Fault {
    ghost use Rattle.ck_base.specs.declared.refusals.Fault.TheVariants.{Memory};

    ghost from_gives = { λ _ fault. fault ≡ Memory };

    fn from(_error: OutOfMemory) -> Fault {
        Fault::Memory
    }
}

impl From<AllocError> for Fault {
    ghost use Rattle.ck_base.specs.declared.refusals.Fault.TheVariants.{Memory};

    ghost from_gives = { λ _ fault. fault ≡ Memory };

    fn from(_error: AllocError) -> Fault {
        Fault::Memory
    }
}

impl<T: Drop> From<AllocFailed<T>> for Fault {
    ghost use Rattle.ck_base.specs.declared.refusals.Fault.TheVariants.{Memory};

    ghost from_gives = { λ _ fault. fault ≡ Memory };

    fn from(_error: AllocFailed<T>) -> Fault {
        Fault::Memory
    }
}

impl From<Refusal> for Fault {
    ghost use Rattle.ck_base.specs.declared.refusals.Fault.TheVariants.{Unsupported};

    ghost from_gives = { λ refusal fault. fault ≡ Unsupported refusal };

    fn from(refusal: Refusal) -> Fault {
        Fault::Unsupported(refusal)
    }
}

/// The number after the `U` of a refusal, from 1 to 28.
pub fn number(kind: &Unsupported) -> u8
    ensures { result ≡ refusal_number kind.now }
{
    *kind as u8 + 1
}

/// What a refusal says, as a report prints it after the number and the place.
pub fn words(kind: &Unsupported) -> &'static str
    ensures { result.now ≡ refusal_words kind.now }
{
    match *kind {
        Unsupported::U1 => "bad byte",
        Unsupported::U2 => "unclosed comment or literal",
        Unsupported::U3 => "literal too wide or malformed",
        Unsupported::U4 => "floating literal",
        Unsupported::U5 => "reserved word outside the subset",
        Unsupported::U6 => "bad line marker",
        Unsupported::U7 => "syntax",
        Unsupported::U8 => "undeclared name",
        Unsupported::U9 => "defined twice",
        Unsupported::U10 => "types differ",
        Unsupported::U11 => "no constant in range",
        Unsupported::U12 => "kernel name defined",
        Unsupported::U13 => "kernel name outside the table",
        Unsupported::U14 => "no type",
        Unsupported::U15 => "function value outside the subset",
        Unsupported::U16 => "pointer to a function pointer",
        Unsupported::U17 => "more than three unsequenced operands with calls",
        Unsupported::U18 => "outside function not named in the settings",
        Unsupported::U19 => "jump without its target",
        Unsupported::U20 => "more than 400000 points",
        Unsupported::U21 => "more than 16384 slots",
        Unsupported::U22 => "more than 8192 functions",
        Unsupported::U23 => "main absent or of another type",
        Unsupported::U24 => "vector function of another type",
        Unsupported::U25 => "too large",
        Unsupported::U26 => "status outside the subset",
        Unsupported::U27 => "mutex argument outside the subset",
        Unsupported::U28 => "more than 255 mutexes",
    }
}
