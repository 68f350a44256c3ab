//! Integer types and the conversion of a value to one (C99 6.2.5, 6.3.1.1 to 6.3.1.3, 6.3.1.8).
ghost use Rattle.std.specs.Prelude.{◌≡◌, ◌^◌, true, pos};
ghost use Rattle.ck_types.specs.IntegerTypes as spec;

/// An integer type of the C subset, `_Bool` among them. An enumerated type is `int`.
#[derive(Clone, Copy, Debug, PartialEq, Eq)]
pub enum IntegerType {
    /// `_Bool`: 0 and 1
    Bool,
    /// `char` and `unsigned char`: 8 bits, unsigned
    Char,
    /// `signed char`: 8 bits
    SignedChar,
    /// `short`: 16 bits
    Short,
    /// `unsigned short`: 16 bits
    UnsignedShort,
    /// `int`: 32 bits
    Int,
    /// `unsigned int`: 32 bits
    UnsignedInt,
    /// `long`: 32 bits
    Long,
    /// `unsigned long`: 32 bits
    UnsignedLong,
    /// `long long`: 64 bits
    LongLong,
    /// `unsigned long long`: 64 bits
    UnsignedLongLong,
}

impl IntegerType {
    /// Whether the type has negative values.
    pub fn is_signed(self) -> bool
        ensures { result ≡ spec.is_signed self }
    {
        matches!(
            self,
            IntegerType::SignedChar
                | IntegerType::Short
                | IntegerType::Int
                | IntegerType::Long
                | IntegerType::LongLong
        )
    }

    /// The rank, from 0 for `_Bool` to 5 for `long long` (6.3.1.1).
    pub fn rank(self) -> u8
        ensures { result ≡ spec.rank self }
    {
        match self {
            IntegerType::Bool => 0,
            IntegerType::Char | IntegerType::SignedChar => 1,
            IntegerType::Short | IntegerType::UnsignedShort => 2,
            IntegerType::Int | IntegerType::UnsignedInt => 3,
            IntegerType::Long | IntegerType::UnsignedLong => 4,
            IntegerType::LongLong | IntegerType::UnsignedLongLong => 5,
        }
    }

    /// How many bits a value has, the sign among them: 1 for `_Bool`, else 8, 16, 32 or 64 (6.2.6.2).
    pub fn width(self) -> u8
        ensures { result ≡ spec.width self }
    {
        match self {
            IntegerType::Bool => 1,
            IntegerType::Char | IntegerType::SignedChar => 8,
            IntegerType::Short | IntegerType::UnsignedShort => 16,
            IntegerType::Int | IntegerType::UnsignedInt => 32,
            IntegerType::Long | IntegerType::UnsignedLong => 32,
            IntegerType::LongLong | IntegerType::UnsignedLongLong => 64,
        }
    }

    /// How many bytes an object of the type has: 1, 2, 4 or 8. It is the alignment too.
    pub fn size(self) -> u8
        ensures { result ≡ spec.size self }
    {
        match self {
            IntegerType::Bool | IntegerType::Char | IntegerType::SignedChar => 1,
            IntegerType::Short | IntegerType::UnsignedShort => 2,
            IntegerType::Int | IntegerType::UnsignedInt => 4,
            IntegerType::Long | IntegerType::UnsignedLong => 4,
            IntegerType::LongLong | IntegerType::UnsignedLongLong => 8,
        }
    }

    /// The least value.
    pub fn least(self) -> i128
        ensures { result ≡ spec.least self }
    {
        match self {
            IntegerType::SignedChar => -128,
            IntegerType::Short => -32_768,
            IntegerType::Int | IntegerType::Long => -2_147_483_648,
            IntegerType::LongLong => -9_223_372_036_854_775_808,
            _ => 0,
        }
    }

    /// The greatest value.
    pub fn greatest(self) -> i128
        ensures { result ≡ spec.greatest self }
    {
        match self {
            IntegerType::Bool => 1,
            IntegerType::Char => 255,
            IntegerType::SignedChar => 127,
            IntegerType::Short => 32_767,
            IntegerType::UnsignedShort => 65_535,
            IntegerType::Int | IntegerType::Long => 2_147_483_647,
            IntegerType::UnsignedInt | IntegerType::UnsignedLong => 4_294_967_295,
            IntegerType::LongLong => 9_223_372_036_854_775_807,
            IntegerType::UnsignedLongLong => 18_446_744_073_709_551_615,
        }
    }

    /// Whether the type can represent a value.
    pub fn represents(self, value: i128) -> bool
        ensures { result ≡ spec.represents self value }
    {
        self.least() <= value && value <= self.greatest()
    }

    /// A value converted to the type: for `_Bool` whether it is other than 0 (6.3.1.2), else what is left of it in the
    /// type's bits, which wraps where the type is signed (6.3.1.3). A value that the type can represent stays.
    pub fn convert(self, value: i128) -> i128
        ensures converted { result ≡ spec.converted self value }
        ensures range { spec.represents self result ≡ true }
    {
        match self {
            IntegerType::Bool => { if value == 0 { 0 } else { 1 } }
            other => other.wrap(value),
        }
    }

    /// What is left of a value in the type's bits, which wraps where the type is signed (6.3.1.3).
    pub(crate) fn wrap(self, value: i128) -> i128
        ensures { result ≡ spec.wrapped self value }
    {
        let left = value.rem_euclid(self.modulus());
        if self.is_signed() && left > self.greatest() {
            left - self.modulus()
        } else {
            left
        }
    }

    /// How many values the type's bits have: 2 to the power of its width.
    pub(crate) fn modulus(self) -> i128
        ensures { result ≡ pos (2 ^ spec.width self) }
    {
        match self {
            IntegerType::Bool => 2,
            IntegerType::Char | IntegerType::SignedChar => 256,
            IntegerType::Short | IntegerType::UnsignedShort => 65_536,
            IntegerType::Int | IntegerType::UnsignedInt => 4_294_967_296,
            IntegerType::Long | IntegerType::UnsignedLong => 4_294_967_296,
            IntegerType::LongLong | IntegerType::UnsignedLongLong => 18_446_744_073_709_551_616,
        }
    }

    /// The type that an operand of this type is promoted to (6.3.1.1): `int` where the rank is below its.
    pub fn promoted(self) -> IntegerType
        ensures { result ≡ spec.promoted self }
    {
        if self.rank() < IntegerType::Int.rank() {
            IntegerType::Int
        } else {
            self
        }
    }

    /// The unsigned type that corresponds to a signed one (6.2.5); any other type stays.
    pub fn unsigned(self) -> IntegerType
        ensures { result ≡ spec.unsigned_of self }
    {
        match self {
            IntegerType::SignedChar => IntegerType::Char,
            IntegerType::Short => IntegerType::UnsignedShort,
            IntegerType::Int => IntegerType::UnsignedInt,
            IntegerType::Long => IntegerType::UnsignedLong,
            IntegerType::LongLong => IntegerType::UnsignedLongLong,
            other => other,
        }
    }

    /// The common type of two operands by the usual arithmetic conversions (6.3.1.8).
    pub fn common(self, other: IntegerType) -> IntegerType
        ensures { result ≡ spec.common self other }
    {
        let left = self.promoted();
        let right = other.promoted();
        match (left.is_signed(), right.is_signed()) {
            (true, false) => of_both_signs(left, right),
            (false, true) => of_both_signs(right, left),
            _ => {
                if right.rank() <= left.rank() {
                    left
                } else {
                    right
                }
            }
        }
    }
}

/// The common type of a promoted signed and a promoted unsigned type (6.3.1.8).
fn of_both_signs(signed: IntegerType, unsigned: IntegerType) -> IntegerType
    ensures { result ≡ spec.of_both_signs signed unsigned }
{
    if signed.rank() <= unsigned.rank() {
        unsigned
    } else if signed.represents(unsigned.greatest()) {
        signed
    } else {
        signed.unsigned()
    }
}
