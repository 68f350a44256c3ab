//! What the machine keeps of the kernel's phase and of handlers.

/// Which interrupts the kernel lets through.
#[derive(Clone, Copy, Debug, PartialEq, Eq)]
pub enum Phase {
    /// Before chSysInit: none.
    Init,
    /// All.
    Normal,
    /// After chSysSuspend: fast ones alone.
    Suspended,
    /// After chSysDisable: none.
    Disabled,
}

/// A handler, as the settings name it.
#[derive(Clone, Copy, Debug, PartialEq, Eq)]
pub struct Source {
    /// It is above the kernel's priority, and makes no kernel call.
    pub fast: bool,
    /// The number of its interrupt priority. The smaller number is the more urgent.
    pub priority: u8,
}
