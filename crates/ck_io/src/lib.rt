//! The environment: a folder of files that is read, and a sink that takes bytes, each as a trait
//! whose meaning is what it tells; with the whole reads and writes over them, both in memory with
//! calls that fail on demand, and the adapters over the real folder and the standard output.
//!
//! In: names, offsets and bytes. Out: bytes, or the failure with its cause. The definitions that rule
//! it are those of `specs/Environment.antt`; what the two in memory do beyond that is said by
//! `specs/FaultPlan.antt`, `specs/MemoryFolder.antt` and `specs/MemorySink.antt`.
//!
//! It must not know: what the bytes mean, which names matter, and any limit of the checker.
#![tactic(auto)]

mod fault_plan;
mod folders;
mod memory_folder;
mod memory_sink;
mod real;
mod sinks;

pub use folders::{Folder, NamesError, ReadError, read_all};
pub use memory_folder::MemoryFolder;
pub use memory_sink::MemorySink;
pub use real::{RealFolder, RealSink};
pub use sinks::{Sink, write_all};

/// A call on a folder or a sink failed. Its count of faults rose.
#[derive(Clone, Copy, Debug, PartialEq, Eq)]
pub struct Failed;
