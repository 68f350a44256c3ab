//! The rows of the calls that threads make.
ghost use Rattle.std.specs.Prelude.{◌≡◌, ◌≢◌};
ghost use Rattle.ck_base.specs.Act.{act};

use ck_base::{Kind, Op, Outcome, State};

/// chSysInit, once and in a thread.
pub(crate) fn init(state: State) -> Outcome
    requires { state ≢ State.FF }
    ensures { result ≡ act Op.Init state }
{
    match state {
        State::TI => Outcome::Next(State::TN),
        State::HB | State::HO | State::HL => Outcome::Alarm(Kind::P(2)),
        State::HE | State::OX | State::ON => Outcome::Alarm(Kind::P(2)),
        _ => Outcome::Alarm(Kind::P(4)),
    }
}

/// chSysDisable, from a thread outside a critical section.
pub(crate) fn disable(state: State) -> Outcome
    requires { state ≢ State.FF }
    ensures { result ≡ act Op.Disable state }
{
    match state {
        State::TN | State::TS | State::TD => Outcome::Next(State::TD),
        State::TI => Outcome::Alarm(Kind::P(4)),
        State::HB | State::HE => Outcome::Alarm(Kind::P(2)),
        _ => Outcome::Alarm(Kind::Sv(1)),
    }
}

/// chSysSuspend, from a thread outside a critical section.
pub(crate) fn suspend(state: State) -> Outcome
    requires { state ≢ State.FF }
    ensures { result ≡ act Op.Suspend state }
{
    match state {
        State::TN | State::TS | State::TD => Outcome::Next(State::TS),
        State::TI => Outcome::Alarm(Kind::P(4)),
        State::HB | State::HE => Outcome::Alarm(Kind::P(2)),
        _ => Outcome::Alarm(Kind::Sv(2)),
    }
}

/// chSysEnable, from a thread outside a critical section.
pub(crate) fn enable(state: State) -> Outcome
    requires { state ≢ State.FF }
    ensures { result ≡ act Op.Enable state }
{
    match state {
        State::TN | State::TS | State::TD => Outcome::Next(State::TN),
        State::TI => Outcome::Alarm(Kind::P(4)),
        State::HB | State::HE => Outcome::Alarm(Kind::P(2)),
        _ => Outcome::Alarm(Kind::Sv(3)),
    }
}

/// chSysLock, from a thread in the normal state.
pub(crate) fn lock(state: State) -> Outcome
    requires { state ≢ State.FF }
    ensures { result ≡ act Op.Lock state }
{
    takes_the_lock(state, Outcome::Next(State::TL))
}

/// A call of the normal class, which locks and unlocks by itself.
pub(crate) fn normal(state: State) -> Outcome
    requires { state ≢ State.FF }
    ensures { result ≡ act Op.Normal state }
{
    takes_the_lock(state, Outcome::Next(State::TN))
}

/// chThdExit, which ends the thread.
pub(crate) fn exit_normal(state: State) -> Outcome
    requires { state ≢ State.FF }
    ensures { result ≡ act Op.ExitNormal state }
{
    takes_the_lock(state, Outcome::End)
}

/// A call that begins with chSysLock, with what it does in the normal state.
fn takes_the_lock(state: State, normally: Outcome) -> Outcome
    requires { state ≢ State.FF }
    ensures normal { state ≡ State.TN → result ≡ normally }
    ensures elsewhere { state ≢ State.TN → result ≡ act Op.Lock state }
{
    match state {
        State::TN => normally,
        State::TI | State::TS | State::TD => Outcome::Alarm(Kind::P(4)),
        State::HB | State::HE => Outcome::Alarm(Kind::P(2)),
        _ => Outcome::Alarm(Kind::Sv(4)),
    }
}

/// chSysUnlock, from a thread's critical section where no reschedule is due.
pub(crate) fn unlock(state: State) -> Outcome
    requires { state ≢ State.FF }
    ensures { result ≡ act Op.Unlock state }
{
    match state {
        State::TL => Outcome::Next(State::TN),
        State::TP | State::NP => Outcome::Alarm(Kind::Order),
        State::XL | State::NL => Outcome::Alarm(Kind::P(8)),
        _ => Outcome::Alarm(Kind::Sv(5)),
    }
}
