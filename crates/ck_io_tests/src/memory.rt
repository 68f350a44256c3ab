//! The folder and the sink in memory: what they give and take, and the calls that fail by their number.
ghost use Rattle.std.specs.Prelude.{◌≡◌, ◌∷◌, [], codes, IfOk};
ghost use Rattle.ck_io.specs.MemoryFolder.{folder_files};

use ck_io::ReadError::{self, Fault, TooLong};
use ck_io::{Folder, MemoryFolder, MemorySink, Sink, read_all, write_all};
use std::alloc::{AllocError, Global};
use std::test::Fail;

/// A folder whose one file `a` has the text `some bytes`, and whose call of this number fails.
fn folder(alloc: Global, fails: u64) -> Result<MemoryFolder, AllocError>
    ensures { IfOk result (λ folder.
        folder_files folder ≡ record { name = codes "a"; bytes = codes "some bytes" } ∷ []) }
{
    let mut files = Vec::new(alloc);
    files.push((
        String::from_str(alloc, "a")?,
        Vec::from_slice(alloc, b"some bytes")?,
    ))?;
    Ok(MemoryFolder::new(files, Vec::from_slice(alloc, &[fails])?))
}

/// A limit, the number of the call that fails, and what reading the file gives. One call gives its
/// bytes, and a second one meets its end.
const READS: [(u32, u64, Result<&str, ReadError>); 7] = [
    (10, 0, Ok("some bytes")),
    (11, 3, Ok("some bytes")),
    (4_294_967_295, 0, Ok("some bytes")),
    (9, 0, Err(TooLong)),
    (0, 0, Err(TooLong)),
    (10, 1, Err(Fault)),
    (10, 2, Err(Fault)),
];

/// What reading the whole file gives.
fn whole_file(alloc: Global, limit: u32, fails: u64) -> Result<Vec<u8>, ReadError> {
    let mut folder = folder(alloc, fails)?;
    read_all(alloc, &mut folder, "a", limit)
}

/// Whether reading the whole file gives these bytes, or this error.
fn is_read(alloc: Global, limit: u32, fails: u64, gives: Result<&str, ReadError>) -> bool {
    match (whole_file(alloc, limit, fails), gives) {
        (Ok(bytes), Ok(text)) => bytes.as_slice() == text.as_bytes(),
        (Err(error), Err(wanted)) => error == wanted,
        _ => false,
    }
}

#[test]
fn whole_files(rt: HostRuntime) {
    for (limit, fails, gives) in READS {
        let right = is_read(rt.alloc(), limit, fails, gives);
        assert!(rt; right, "limit {limit}, call {fails} fails");
    }
}

/// Whether the folder has one name, and four of its file's bytes from the sixth on are these.
fn has_piece(alloc: Global, piece: &[u8]) -> Result<bool, Fail> {
    let mut folder = folder(alloc, 0)?;
    let mut buffer = [0u8; 4];
    let count = folder.read_at("a", 5, &mut buffer)?;
    let names = folder.names(alloc)?;
    Ok(names.len() == 1 && count == 4 && buffer.as_slice() == piece)
}

#[test]
fn a_piece_of_a_file(rt: HostRuntime) -> Result<(), Fail> {
    assert!(rt; has_piece(rt.alloc(), b"byte")?);
    Ok(())
}

/// A capacity, the most for one write, the number of the write that fails, whether `something` is
/// written whole, and what the sink took.
const WRITES: [(usize, usize, u64, bool, &str); 9] = [
    (10, 4, 0, true, "something"),
    (9, 4, 0, true, "something"),
    (9, 1, 10, true, "something"),
    (8, 4, 0, false, "somethin"),
    (0, 4, 0, false, ""),
    (10, 4, 1, false, ""),
    (10, 4, 2, false, "some"),
    (10, 4, 3, false, "somethin"),
    (10, 4, 4, true, "something"),
];

/// Whether a sink takes `something` whole or not, and took this.
fn takes(
    alloc: Global,
    capacity: usize,
    most: usize,
    fails: u64,
    whole: bool,
    taken: &str,
) -> Result<bool, Fail> {
    let mut sink = MemorySink::new(
        alloc,
        capacity,
        most.max(1),
        Vec::from_slice(alloc, &[fails])?,
    )?;
    let written = write_all(&mut sink, b"something").is_ok();
    Ok(written == whole && sink.taken() == taken.as_bytes())
}

#[test]
fn whole_writes(rt: HostRuntime) -> Result<(), Fail> {
    for (capacity, most, fails, whole, taken) in WRITES {
        let right = takes(rt.alloc(), capacity, most, fails, whole, taken)?;
        assert!(rt; right, "capacity {capacity}, write {fails} fails");
    }
    Ok(())
}

/// How many bytes one write takes of as many, at most four a write.
fn takes_of_one_write(alloc: Global, bytes: &[u8]) -> Result<usize, Fail> {
    let mut sink = MemorySink::new(alloc, 10, 4, Vec::new(alloc))?;
    Ok(sink.write(bytes)?)
}

#[test]
fn one_write(rt: HostRuntime) -> Result<(), Fail> {
    assert_eq!(rt; takes_of_one_write(rt.alloc(), b"some bytes")?, 4);
    Ok(())
}
