//! What happens in a run of the reference machine.

/// An event of a run.
#[derive(Debug, Drop)]
pub enum Event {
    /// The context that runs makes its next move. Where the move leaves something open, as the value of
    /// an unknown integer or which of several threads is woken, the choices decide it in their order.
    Move { choices: Vec<u64> },
    /// The handler of the root of this number begins.
    Interrupt { root: u32 },
}
