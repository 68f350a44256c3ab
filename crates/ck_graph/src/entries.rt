//! The roots, from which contexts start.
use ck_base::{FnId, State};

/// What starts a context.
#[derive(Clone, Copy, Debug, PartialEq, Eq)]
pub enum Entry {
    /// The program.
    Main,
    /// A thread with this function.
    Thread(FnId),
    /// The vector at this place of the settings' list, from 0.
    Vector(u32),
    /// The callback at this place of the settings' list, from 0.
    Callback(u32),
    /// The kernel's timer.
    Timer,
}

/// A context's start: the function that it enters first, and its state there.
#[derive(Clone, Copy, Debug, PartialEq, Eq)]
pub struct Root {
    pub entry: Entry,
    pub function: FnId,
    pub start: State,
}

/// All roots, in the order in which a report counts them.
#[derive(Debug, Drop)]
pub struct Roots {
    pub list: Vec<Root>,
}
