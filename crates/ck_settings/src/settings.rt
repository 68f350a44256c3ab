//! The settings of a project.
use ck_base::Op;

/// The function of an interrupt vector.
#[derive(Debug, Drop)]
pub struct VectorSetting {
    /// Its name, which isn't empty.
    pub function: String,
    /// The interrupt's priority, 0 to 255. Below the kernel's priority the handler is a fast one.
    pub priority: u8,
}

/// A struct's member that an interrupt handler calls.
#[derive(Debug, Drop)]
pub struct CallbackSetting {
    /// The struct's name or tag, which isn't empty.
    pub of_struct: String,
    /// The member's name, which isn't empty.
    pub member: String,
    /// The interrupt's priority, from the kernel's priority to 255.
    pub priority: u8,
    /// Whether the handler calls the member inside the critical zone. In a document of version 1 no
    /// callback is locked.
    pub locked: bool,
}

/// A function that the project calls and has no body of.
#[derive(Debug, Drop)]
pub struct FunctionSetting {
    /// Its name, which isn't empty and is none of the kernel's.
    pub name: String,
    /// What calling it does: Neutral, Normal, IQuiet, IWakes, SPlain, SWakes or Free.
    pub op: Op,
}

/// The settings of a project, as `rtcheck.toml` writes them, with the defaults filled in
/// (docs/SETTINGS.md).
#[derive(Debug, Drop)]
pub struct Settings {
    /// The version of the document's form: 1 or 2.
    pub version: u8,
    /// The priority from which on interrupts may make kernel calls, 0 to 255.
    pub kernel_priority: u8,
    /// The priority of the system timer's interrupt, from the kernel's priority to 255.
    pub timer_priority: u8,
    /// The vectors in written order. No two have the same function.
    pub vectors: Vec<VectorSetting>,
    /// The callbacks in written order, at most 240 together with the vectors. No two have the same
    /// struct and member.
    pub callbacks: Vec<CallbackSetting>,
    /// The functions in written order. No two have the same name.
    pub functions: Vec<FunctionSetting>,
}
