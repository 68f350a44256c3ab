//! The types of integer constants, by base, suffix and value (C99 6.4.4.1).
ghost use Rattle.std.specs.Prelude.{◌≡◌};
ghost use Rattle.ck_types.specs.ConstantTypes as spec;

use crate::integer_types::IntegerType;
use crate::integer_types::IntegerType::{
    Int, Long, LongLong, UnsignedInt, UnsignedLong, UnsignedLongLong,
};

/// The suffix of an integer constant, in either case of its letters and either order.
#[derive(Clone, Copy, Debug, PartialEq, Eq)]
pub enum Suffix {
    /// none
    Nothing,
    /// `l`
    L,
    /// `ll`
    LL,
    /// `u`
    U,
    /// `ul`
    UL,
    /// `ull`
    ULL,
}

/// The type of an integer constant: the first one that its base and suffix allow and that can represent its value. None
/// where no type of 64 bits can.
pub fn constant_type(is_decimal: bool, suffix: Suffix, value: u64) -> Option<IntegerType>
    ensures { result ≡ spec.constant_type is_decimal suffix value }
{
    first_representing(candidates(is_decimal, suffix), i128::from(value))
}

/// The types that a constant may have, in order.
fn candidates(is_decimal: bool, suffix: Suffix) -> &'static [IntegerType]
    ensures { result.now ≡ spec.candidates is_decimal suffix }
{
    match (suffix, is_decimal) {
        (Suffix::Nothing, true) => &[Int, Long, LongLong],
        (Suffix::Nothing, false) => &[
            Int,
            UnsignedInt,
            Long,
            UnsignedLong,
            LongLong,
            UnsignedLongLong,
        ],
        (Suffix::U, _) => &[UnsignedInt, UnsignedLong, UnsignedLongLong],
        (Suffix::L, true) => &[Long, LongLong],
        (Suffix::L, false) => &[Long, UnsignedLong, LongLong, UnsignedLongLong],
        (Suffix::UL, _) => &[UnsignedLong, UnsignedLongLong],
        (Suffix::LL, true) => &[LongLong],
        (Suffix::LL, false) => &[LongLong, UnsignedLongLong],
        (Suffix::ULL, _) => &[UnsignedLongLong],
    }
}

/// The first of some types that can represent a value.
fn first_representing(types: &[IntegerType], value: i128) -> Option<IntegerType>
    ensures { result ≡ spec.first_representing types.now value }
{
    match types {
        [] => None,
        [first, rest @ ..] => {
            if first.represents(value) {
                Some(*first)
            } else {
                first_representing(rest, value)
            }
        }
    }
}
