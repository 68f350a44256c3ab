//! Whether two states are one.
ghost use Rattle.std.specs.Prelude.{◌≡◌, MatchBool};

use ck_base::State;

/// Whether two states are one.
pub(crate) fn is_same(a: State, b: State) -> bool
    ensures { MatchBool result (a ≡ b) (a ≡ b → ⊥) }
{
    match a {
        State::TI => matches!(b, State::TI),
        State::TN => matches!(b, State::TN),
        State::TS => matches!(b, State::TS),
        State::TD => matches!(b, State::TD),
        State::TL => matches!(b, State::TL),
        State::TP => matches!(b, State::TP),
        State::HB => matches!(b, State::HB),
        State::HO => matches!(b, State::HO),
        State::HL => matches!(b, State::HL),
        State::HE => matches!(b, State::HE),
        State::FF => matches!(b, State::FF),
        State::XL => matches!(b, State::XL),
        State::NL => matches!(b, State::NL),
        State::NP => matches!(b, State::NP),
        State::OX => matches!(b, State::OX),
        State::ON => matches!(b, State::ON),
    }
}
