//! A sink in memory, with writes that fail on demand.
ghost use Rattle.std.specs.Prelude.{
  ◌≡◌,
  ◌≤◌,
  ◌↔◌,
  ◌++◌,
  [],
  Option,
  Some,
  length,
  take,
  vec_len,
  vec_capacity,
  IfOk,
  OnErr,
  OnOk,
  IsErr,
  IsOk,
};
ghost use Rattle.ck_io.specs.Environment.{one_more};

use crate::fault_plan::FaultPlan;
use crate::{Failed, Sink};
use ck_base::OutOfMemory;
use std::alloc::Global;

/// A sink in memory, for tests of what writes: it tells the bytes that it took, takes a limited
/// number of them at one write and in all, and the writes fail whose numbers it was given, counted
/// from 1.
///
/// Its counts of writes and of failed writes stay at 18,446,744,073,709,551,615, and from there on
/// no write fails by its number.
#[derive(Drop)]
pub struct MemorySink {
    bytes: Vec<u8>,
    capacity: usize,
    most: usize,
    plan: FaultPlan,
    ghost within: { vec_len bytes ≤ capacity },
    ghost room: { capacity ≤ vec_capacity bytes },
    ghost takes_some: { 1 ≤ most },
}

impl MemorySink {
    ghost use Rattle.ck_io.specs.MemorySink.{
      sink_taken,
      sink_capacity,
      sink_most,
      sink_fail,
      sink_calls,
      sink_faults,
    };

    /// A sink that took nothing so far. It takes at most `most` bytes at one write, which is 1 or
    /// more, and `capacity` bytes in all, for which it takes the memory here. The writes whose
    /// numbers stand in `fail` fail, counted from 1. It answers `OutOfMemory` where memory ran out,
    /// and never for a capacity of 0.
    pub fn new(
        alloc: Global,
        capacity: usize,
        most: usize,
        fail: Vec<u64>,
    ) -> Result<MemorySink, OutOfMemory>
        requires { 1 ≤ most }
        ensures succeeds { capacity ≡ 0 → IsOk result }
        ensures taken { IfOk result (λ sink. sink_taken sink ≡ []) }
        ensures capacity { IfOk result (λ sink. sink_capacity sink ≡ capacity) }
        ensures most { IfOk result (λ sink. sink_most sink ≡ most) }
        ensures fail { IfOk result (λ sink. sink_fail sink ≡ fail.items) }
        ensures calls { IfOk result (λ sink. sink_calls sink ≡ 0) }
        ensures faults { IfOk result (λ sink. sink_faults sink ≡ 0) }
    {
        let bytes = Vec::with_capacity(alloc, capacity).map_err(|_| OutOfMemory)?;
        Ok(MemorySink {
            bytes,
            capacity,
            most,
            plan: FaultPlan::new(fail),
        })
    }

    /// The bytes taken so far.
    pub fn taken(&self) -> &[u8]
        ensures { result.now ≡ sink_taken self.now }
    {
        self.bytes.as_slice()
    }
}

impl Sink for MemorySink {
    ghost use Rattle.ck_io.specs.MemorySink.{
      sink_taken,
      sink_capacity,
      sink_most,
      sink_fail,
      sink_calls,
      sink_faults,
      takes_of,
      WriteFails,
    };

    ghost taken = { λ sink. Some (sink_taken sink) };

    ghost faults = { sink_faults };

    /// Takes a prefix of `bytes`, as long as the least of its length, the most for one write and the
    /// room left, and answers its length. It fails, and takes nothing, exactly where the write fails
    /// by its number or a piece that isn't empty meets a full capacity.
    fn write(&mut self, bytes: &[u8]) -> Result<usize, Failed>
        ensures capacity_kept { sink_capacity self.new ≡ sink_capacity self.old }
        ensures most_kept { sink_most self.new ≡ sink_most self.old }
        ensures fail_kept { sink_fail self.new ≡ sink_fail self.old }
        ensures counted { sink_faults self.old ≤ sink_faults self.new }
        ensures called { sink_calls self.new ≡ one_more (sink_calls self.old) }
        ensures fails { IsErr result ↔ WriteFails self.old (length bytes.now) }
        ensures count { IfOk result (λ count. count ≡ takes_of self.old (length bytes.now)) }
        ensures some { IfOk result (λ count. count ≡ 0 → length bytes.now ≡ 0) }
        ensures takes { IfOk result (λ count. sink_taken self.new ≡ sink_taken self.old ++ take count bytes.now) }
        ensures takes_nothing { OnErr result (sink_taken self.new ≡ sink_taken self.old) }
        ensures failed { OnErr result (sink_faults self.new ≡ one_more (sink_faults self.old)) }
        ensures not_failed { OnOk result (sink_faults self.new ≡ sink_faults self.old) }
    {
        if self.plan.count_call() {
            return Err(Failed);
        }
        let room = self.capacity - self.bytes.len();
        if room == 0 && !bytes.is_empty() {
            self.plan.count_fault();
            return Err(Failed);
        }
        let count = bytes.len().min(self.most).min(room);
        self.bytes.extend_from_slice(&bytes[..count]).unwrap();
        Ok(count)
    }
}
