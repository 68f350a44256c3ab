//! Where functions enter the kernel.

/// Which parameter of a kernel call becomes the function of a thread or of a timer. Parameters are
/// counted from 1.
#[derive(Clone, Copy, Debug, PartialEq, Eq)]
pub enum EntrySink {
    /// None does.
    Absent,
    /// The parameter of this number becomes a thread's function.
    Thread(u8),
    /// The one parameter points to a `thread_descriptor_t`, whose member `funcp` becomes a thread's
    /// function.
    Descriptor,
    /// The parameter of this number becomes a timer's function.
    Timer(u8),
}
