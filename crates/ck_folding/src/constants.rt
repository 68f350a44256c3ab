//! What is known of the value of an integer expression.
ghost use Rattle.std.specs.Prelude.{◌≡◌};
ghost use Rattle.ck_folding.specs.Constants.{constancy};
ghost use Rattle.ck_prog.specs.Senses as senses;

/// Whether an expression is an integer constant expression (C99 6.6), and of which value.
#[derive(Clone, Copy, Debug, PartialEq, Eq)]
pub enum Constant {
    /// It is none.
    Varying,
    /// It is one without a value, as `1/0`.
    Valueless,
    /// It is one of this value.
    Known(i128),
}

impl Constant {
    /// Whether its value is known.
    pub fn is_known(self) -> bool
        ensures { result ≡ senses.is_known (constancy self) }
    {
        matches!(self, Constant::Known(_))
    }

    /// Whether its value is known and 0; such a constant is a null pointer constant (6.3.2.3).
    pub fn is_zero(self) -> bool
        ensures { result ≡ senses.is_zero (constancy self) }
    {
        match self {
            Constant::Known(value) => value == 0,
            _ => false,
        }
    }
}
