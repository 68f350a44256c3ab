//! Sinks, and a whole write to one.
ghost use Rattle.std.specs.Prelude.{◌≡◌, ◌≤◌, ◌+◌, ℕ, List, Option, length, take, IfOk, OnOk, OnErr};
ghost use Rattle.ck_io.specs.Environment.{Appends, Rose};

use crate::Failed;

/// What takes bytes.
///
/// Its meaning is the bytes that it took, optionally, and the count of its failed calls. A call that
/// fails raises the count, up to its last value 18,446,744,073,709,551,615, and any other call leaves
/// it.
pub trait Sink {
    /// The bytes taken so far, where the sink tells them.
    ghost taken: { Self → Option (List ℕ) };

    /// How many calls failed so far.
    ghost faults: { Self → ℕ };

    /// Takes a prefix of `bytes` and answers its length, which is 0 for an empty piece alone. It
    /// answers `Failed` where the call failed, which alone raises the faults, and then takes nothing.
    /// It takes no memory.
    fn write(&mut self, bytes: &[u8]) -> Result<usize, Failed>
        ensures counted { faults self.old ≤ faults self.new }
        ensures within { IfOk result (λ count. count ≤ length bytes.now) }
        ensures some { IfOk result (λ count. count ≡ 0 → length bytes.now ≡ 0) }
        ensures takes { IfOk result (λ count. Appends (taken self.old) (taken self.new) (take count bytes.now)) }
        ensures takes_nothing { OnErr result (taken self.new ≡ taken self.old) }
        ensures failed { OnErr result (Rose (faults self.old) (faults self.new)) }
        ensures not_failed { OnOk result (faults self.new ≡ faults self.old) };
}

/// Writes all of `bytes`. `Failed` says that a write failed, and the sink then took a prefix of them.
pub fn write_all<K: Sink>(sink: &mut K, bytes: &[u8]) -> Result<(), Failed>
    ensures counted { K.faults sink.old ≤ K.faults sink.new }
    ensures written { OnOk result (Appends (K.taken sink.old) (K.taken sink.new) bytes.now) }
    ensures partly { OnErr result ((count : ℕ) × Appends (K.taken sink.old) (K.taken sink.new) (take count bytes.now)) }
    ensures failed { OnErr result (Rose (K.faults sink.old) (K.faults sink.new)) }
    ensures not_failed { OnOk result (K.faults sink.new ≡ K.faults sink.old) }
{
    let mut written = 0;
    while written < bytes.len() {
        written += sink.write(&bytes[written..])?;
    }
    Ok(())
}
