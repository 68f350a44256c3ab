//! The rows of the status pair, chSysGetStatusAndLockX and chSysRestoreStatusX, and of the functions that
//! have a status variable.
ghost use Rattle.std.specs.Prelude.{◌≡◌, ◌≢◌};
ghost use Rattle.ck_base.specs.Act.{act};

use ck_base::{Kind, Op, Outcome, State};

/// chSysGetStatusAndLockX, which opens a pair where none is open.
pub(crate) fn get_status(state: State) -> Outcome
    requires { state ≢ State.FF }
    ensures { result ≡ act Op.GetStatus state }
{
    match state {
        State::TN => Outcome::Next(State::XL),
        State::TL => Outcome::Next(State::NL),
        State::TP => Outcome::Next(State::NP),
        State::HO => Outcome::Next(State::OX),
        State::HL => Outcome::Next(State::ON),
        State::TI | State::TS | State::TD => Outcome::Alarm(Kind::P(4)),
        State::HB | State::HE => Outcome::Alarm(Kind::Sv(6)),
        _ => Outcome::Alarm(Kind::P(6)),
    }
}

/// chSysRestoreStatusX, which closes the open pair and leaves the state that the pair found, where a
/// reschedule that got due meanwhile is still due.
pub(crate) fn restore_status(state: State) -> Outcome
    requires { state ≢ State.FF }
    ensures { result ≡ act Op.RestoreStatus state }
{
    match state {
        State::XL => Outcome::Next(State::TN),
        State::NL => Outcome::Next(State::TL),
        State::NP => Outcome::Next(State::TP),
        State::OX => Outcome::Next(State::HO),
        State::ON => Outcome::Next(State::HL),
        _ => Outcome::Alarm(Kind::P(7)),
    }
}

/// The begin of a function that has a status variable, where no pair may be open.
pub(crate) fn pair_enter(state: State) -> Outcome
    requires { state ≢ State.FF }
    ensures { result ≡ act Op.PairEnter state }
{
    match state {
        State::XL | State::NL | State::NP | State::OX | State::ON => Outcome::Alarm(Kind::P(6)),
        _ => Outcome::Next(state),
    }
}

/// The end of a function that has a status variable, where its pair is closed.
pub(crate) fn pair_left(state: State) -> Outcome
    requires { state ≢ State.FF }
    ensures { result ≡ act Op.PairLeft state }
{
    match state {
        State::XL | State::NL | State::NP | State::OX | State::ON => Outcome::Alarm(Kind::P(8)),
        _ => Outcome::Next(state),
    }
}
