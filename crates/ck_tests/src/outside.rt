//! Words, a folder and a sink in memory, and what `rtcheck` answers on them.
use ck_base::OutOfMemory;
use ck_cli::rtcheck;
use ck_io::{MemoryFolder, MemorySink};
use std::alloc::{AllocError, Global};
use std::test::Fail;

/// The words of a command line.
fn words_of(alloc: Global, words: &[&str]) -> Result<Vec<String>, AllocError> {
    let mut all = Vec::new(alloc);
    for word in words {
        all.push(String::from_str(alloc, word)?)?;
    }
    Ok(all)
}

/// A folder whose one file is `main.i` with these bytes, and whose call of this number fails.
fn folder_of(alloc: Global, bytes: &[u8], fails: u64) -> Result<MemoryFolder, AllocError> {
    let mut files = Vec::new(alloc);
    files.push((
        String::from_str(alloc, "main.i")?,
        Vec::from_slice(alloc, bytes)?,
    ))?;
    Ok(MemoryFolder::new(files, Vec::from_slice(alloc, &[fails])?))
}

/// More room than any report of the tests needs.
pub const AMPLE: usize = 10_000;

/// A sink: how many bytes it takes in all and at one write, and the number of the write that fails.
#[derive(Clone, Copy)]
pub struct Sink {
    pub capacity: usize,
    pub most: usize,
    pub fails: u64,
}

fn sink_of(alloc: Global, sink: Sink) -> Result<MemorySink, OutOfMemory> {
    let fails = Vec::from_slice(alloc, &[sink.fails])?;
    MemorySink::new(alloc, sink.capacity, sink.most.max(1), fails)
}

/// The status of `rtcheck`, and what the sink took.
pub type Answer = (u8, Vec<u8>);

/// What is answered on these words, where the file `main.i` has these bytes and the folder's call of
/// this number fails.
pub fn answer(
    alloc: Global,
    words: &[&str],
    bytes: &[u8],
    fails: u64,
    sink: Sink,
) -> Result<Answer, Fail> {
    let words = words_of(alloc, words)?;
    let mut folder = folder_of(alloc, bytes, fails)?;
    let mut taker = sink_of(alloc, sink)?;
    let status = rtcheck(alloc, &words, &mut folder, &mut taker);
    Ok((status, Vec::from_slice(alloc, taker.taken())?))
}
