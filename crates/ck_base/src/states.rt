//! System states, and what a call does in one of them.

/// The system state of one context, which is a thread or a handler (docs/STATES.md).
#[derive(Clone, Copy, Debug, PartialEq, Eq)]
pub enum State {
    /// A thread before chSysInit.
    TI,
    /// A thread in the normal state.
    TN,
    /// A thread with interrupts suspended.
    TS,
    /// A thread with interrupts disabled.
    TD,
    /// A thread in a critical section. No reschedule is due.
    TL,
    /// A thread in a critical section. A reschedule is due.
    TP,
    /// A handler before its prologue.
    HB,
    /// A handler after its prologue.
    HO,
    /// A handler in a critical section.
    HL,
    /// A handler after its epilogue.
    HE,
    /// A fast handler, which may make no kernel call.
    FF,
    /// A thread in a status pair, which found it in TN and locked it.
    XL,
    /// A thread in a status pair, which found it locked. No reschedule is due.
    NL,
    /// A thread in a status pair, which found it locked. A reschedule is due.
    NP,
    /// A handler in a status pair, which found it in HO and locked it.
    OX,
    /// A handler in a status pair, which found it in HL.
    ON,
}

/// Which alarm a call is.
#[derive(Clone, Copy, Debug, PartialEq, Eq)]
pub enum Kind {
    /// The kernel's own halt SV#n, with n from 1 to 11.
    Sv(u8),
    /// The kernel's assertion "priority order violation".
    Order,
    /// The protocol alarm P#n, with n from 1 to 8.
    P(u8),
}

/// What a call does in a state.
#[derive(Clone, Copy, Debug, PartialEq, Eq)]
pub enum Outcome {
    /// The context goes on in this state.
    Next(State),
    /// The call is forbidden here.
    Alarm(Kind),
    /// The context ends.
    End,
}
