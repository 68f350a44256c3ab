//! The steps of synthetic functions.
use ck_base::{FnId, Op, RowId};
use ck_graph::ActName;

/// What happens at a point of a synthetic function, and to which places of its list of steps it leads. The
/// place after the last step is the exit.
#[derive(Clone, Copy)]
pub enum Step {
    /// The op acts, and the way goes on to a place.
    Act(Op, ActName, u32),
    /// The call of this number enters the function, and goes on to a place when that returns.
    Call(u32, FnId, u32),
    /// The choice of what is called back: 0 leads to `after`, and k to the part of the k-th of so many
    /// functions. Each part has `size` points, and the first begins at `part`.
    Pick {
        after: u32,
        part: u32,
        size: u32,
        functions: u32,
    },
}
