//! What the machine keeps of a thread beside its stack.

/// What a thread is doing.
#[derive(Clone, Copy, Debug, PartialEq, Eq)]
pub enum ThreadStatus {
    /// It has the processor, or a handler above it has.
    Running,
    /// It may get the processor.
    Ready,
    /// It has to be woken first.
    Waiting,
    /// It has ended, and never runs again.
    Ended,
}

/// How a thread last left the processor.
#[derive(Clone, Copy, Debug, PartialEq, Eq)]
pub enum Left {
    /// It has never had it.
    New,
    /// At the return of the outermost handler.
    Preempted,
    /// In a call of the normal class.
    InNormalCall,
    /// In a call of the S-class, inside its critical section.
    InSCall,
}

/// A thread as the kernel knows it.
#[derive(Clone, Copy, Debug, PartialEq, Eq)]
pub struct Thread {
    /// The greater number runs first. main starts with 128, the idle thread has 1.
    pub priority: u32,
    pub status: ThreadStatus,
    pub left: Left,
}
