//! What a kernel call does to the system state.

/// The op of a kernel call, an outside function or a return: the row of docs/STATES.md by which it
/// acts on the system state.
#[derive(Clone, Copy, Debug, PartialEq, Eq)]
pub enum Op {
    /// chSysInit.
    Init,
    /// chSysHalt.
    Halt,
    /// chSysDisable.
    Disable,
    /// chSysSuspend.
    Suspend,
    /// chSysEnable.
    Enable,
    /// chSysLock.
    Lock,
    /// chSysUnlock.
    Unlock,
    /// chSysLockFromISR.
    LockIsr,
    /// chSysUnlockFromISR.
    UnlockIsr,
    /// CH_IRQ_PROLOGUE.
    Prologue,
    /// CH_IRQ_EPILOGUE.
    Epilogue,
    /// An I-class call that wakes no thread.
    IQuiet,
    /// An I-class call that may wake a thread.
    IWakes,
    /// An S-class call that leaves a due reschedule due.
    SPlain,
    /// An S-class call that may wake a thread and doesn't reschedule.
    SWakes,
    /// An S-class call that always reschedules.
    SSettles,
    /// A call of the normal class, which locks and unlocks by itself.
    Normal,
    /// chThdExit, and the return of a thread's function.
    ExitNormal,
    /// chThdExitS.
    ExitS,
    /// An X-class call, an object's initialiser, or chRegSetThreadName.
    Free,
    /// An outside function that the settings name as neutral.
    Neutral,
    /// The return of a vector's function or of a synthetic handler.
    HandlerReturn,
    /// chSysGetStatusAndLockX, which opens a status pair.
    GetStatus,
    /// chSysRestoreStatusX, which closes it.
    RestoreStatus,
    /// The begin of a function that has a status variable.
    PairEnter,
    /// The end of a function that has a status variable.
    PairLeft,
}
