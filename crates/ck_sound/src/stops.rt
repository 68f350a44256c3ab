//! Why the machine stopped, if it did.
use ck_base::Kind;

/// C's undefined behaviour, as far as the machine stops at it.
#[derive(Clone, Copy, Debug, PartialEq, Eq)]
pub enum Undefined {
    /// A load, store, member, index or sum goes through null.
    NullAccess,
    /// An index or sum leaves its array and the place after its end, or such a place is read or written.
    OutOfBounds,
    /// `/` or `%` by 0.
    DivideByZero,
    /// The result of a signed operator doesn't fit its type.
    SignedOverflow,
    /// A shift count is negative, or at least the width of the left operand.
    BadShift,
    /// The called value is no function of the called type, or a created thread's function is none.
    WrongCall,
    /// An access of a wrong type.
    Punned,
    /// A load or store of a local object that has ended.
    DeadObject,
    /// A pointer or a status without a value is used.
    Uninitialised,
}

/// Whether the machine goes on.
#[derive(Clone, Copy, Debug, PartialEq, Eq)]
pub enum Stop {
    /// It goes on.
    Running,
    /// The kernel halts with SV#1 to SV#11, or with a priority order violation. The mark says that the
    /// check was that of a thread which a switch started, and not that of the call which was made.
    Halt(Kind, bool),
    /// C leaves open what happens.
    Undefined(Undefined),
    /// chSysHalt, or no thread is ready.
    Stopped,
}
