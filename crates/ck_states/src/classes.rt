//! The rows of I-class and S-class calls, which are made in critical sections.
ghost use Rattle.std.specs.Prelude.{◌≡◌, ◌≢◌};
ghost use Rattle.ck_base.specs.Act.{act};

use ck_base::{Kind, Op, Outcome, State};

/// An I-class call that wakes no thread: nothing changes.
pub(crate) fn i_quiet(state: State) -> Outcome
    requires { state ≢ State.FF }
    ensures { result ≡ act Op.IQuiet state }
{
    match state {
        State::TL | State::TP | State::XL | State::NL | State::NP => Outcome::Next(state),
        State::HL | State::OX | State::ON => Outcome::Next(state),
        _ => Outcome::Alarm(Kind::Sv(10)),
    }
}

/// An I-class call that may wake a thread: a reschedule is then due, unless a handler makes the call or
/// the status pair makes the reschedule at its end.
pub(crate) fn i_wakes(state: State) -> Outcome
    requires { state ≢ State.FF }
    ensures { result ≡ act Op.IWakes state }
{
    match state {
        State::TL => Outcome::Next(State::TP),
        State::NL => Outcome::Next(State::NP),
        State::TP | State::XL | State::NP => Outcome::Next(state),
        State::HL | State::OX | State::ON => Outcome::Next(state),
        _ => Outcome::Alarm(Kind::Sv(10)),
    }
}

/// An S-class call that leaves a due reschedule due: nothing changes.
pub(crate) fn s_plain(state: State) -> Outcome
    requires { state ≢ State.FF }
    ensures { result ≡ act Op.SPlain state }
{
    match state {
        State::TL | State::TP | State::XL | State::NL | State::NP => Outcome::Next(state),
        _ => Outcome::Alarm(Kind::Sv(11)),
    }
}

/// An S-class call that may wake a thread and doesn't reschedule: a reschedule is then due, unless the
/// status pair makes it at its end.
pub(crate) fn s_wakes(state: State) -> Outcome
    requires { state ≢ State.FF }
    ensures { result ≡ act Op.SWakes state }
{
    match state {
        State::TL => Outcome::Next(State::TP),
        State::NL => Outcome::Next(State::NP),
        State::TP | State::XL | State::NP => Outcome::Next(state),
        _ => Outcome::Alarm(Kind::Sv(11)),
    }
}

/// An S-class call that always reschedules: nothing is due after it.
pub(crate) fn s_settles(state: State) -> Outcome
    requires { state ≢ State.FF }
    ensures { result ≡ act Op.SSettles state }
{
    match state {
        State::TP => Outcome::Next(State::TL),
        State::NP => Outcome::Next(State::NL),
        State::TL | State::XL | State::NL => Outcome::Next(state),
        _ => Outcome::Alarm(Kind::Sv(11)),
    }
}

/// chThdExitS, which ends the thread in its critical section.
pub(crate) fn exit_s(state: State) -> Outcome
    requires { state ≢ State.FF }
    ensures { result ≡ act Op.ExitS state }
{
    match state {
        State::TL | State::TP | State::XL | State::NL | State::NP => Outcome::End,
        _ => Outcome::Alarm(Kind::Sv(11)),
    }
}
