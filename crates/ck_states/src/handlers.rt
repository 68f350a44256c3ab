//! The rows of the calls that handlers make.
ghost use Rattle.std.specs.Prelude.{◌≡◌, ◌≢◌};
ghost use Rattle.ck_base.specs.Act.{act};

use ck_base::{Kind, Op, Outcome, State};

/// chSysLockFromISR, in an open handler.
pub(crate) fn lock_isr(state: State) -> Outcome
    requires { state ≢ State.FF }
    ensures { result ≡ act Op.LockIsr state }
{
    match state {
        State::HO => Outcome::Next(State::HL),
        _ => Outcome::Alarm(Kind::Sv(6)),
    }
}

/// chSysUnlockFromISR, in a handler's critical section.
pub(crate) fn unlock_isr(state: State) -> Outcome
    requires { state ≢ State.FF }
    ensures { result ≡ act Op.UnlockIsr state }
{
    match state {
        State::HL => Outcome::Next(State::HO),
        State::OX | State::ON => Outcome::Alarm(Kind::P(8)),
        _ => Outcome::Alarm(Kind::Sv(7)),
    }
}

/// CH_IRQ_PROLOGUE, at a handler's begin.
pub(crate) fn prologue(state: State) -> Outcome
    requires { state ≢ State.FF }
    ensures { result ≡ act Op.Prologue state }
{
    match state {
        State::HB => Outcome::Next(State::HO),
        State::TI | State::TN | State::TS | State::TD => Outcome::Alarm(Kind::P(1)),
        State::HO => Outcome::Alarm(Kind::P(1)),
        State::HE => Outcome::Alarm(Kind::P(2)),
        _ => Outcome::Alarm(Kind::Sv(8)),
    }
}

/// CH_IRQ_EPILOGUE, in an open handler.
pub(crate) fn epilogue(state: State) -> Outcome
    requires { state ≢ State.FF }
    ensures { result ≡ act Op.Epilogue state }
{
    match state {
        State::HO => Outcome::Next(State::HE),
        _ => Outcome::Alarm(Kind::Sv(9)),
    }
}

/// A handler's return, after its epilogue.
pub(crate) fn handler_return(state: State) -> Outcome
    requires { state ≢ State.FF }
    ensures { result ≡ act Op.HandlerReturn state }
{
    match state {
        State::HE => Outcome::End,
        _ => Outcome::Alarm(Kind::P(3)),
    }
}
