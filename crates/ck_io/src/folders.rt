//! Folders, and a whole file of one.
ghost use Rattle.std.specs.Prelude.{
  ◌≡◌,
  ◌≢◌,
  ◌≤◌,
  ◌<◌,
  ◌+◌,
  ◌++◌,
  ℕ,
  Option,
  map,
  take,
  length,
  vec_len,
  string_bytes,
  IfOk,
  OnOk,
  OnErr,
};
ghost use Rattle.ck_io.specs.Environment.{
  Files,
  NamesDiffer,
  TellsNames,
  HasName,
  ReadsAt,
  LeavesBuffer,
  HasBytes,
  IsTooLong,
  Rose,
};

use crate::Failed;
use std::alloc::{AllocError, Global};

/// A folder of files.
///
/// Its meaning is what it tells, optionally: a map from names to bytes that no call changes; and the
/// count of its failed calls. A call that fails raises the count, up to its last value
/// 18,446,744,073,709,551,615, and any other call leaves it: so no failed call goes unseen.
pub trait Folder {
    /// The files, where the folder tells them.
    ghost told: { Self → Option Files };

    /// How many calls failed so far.
    ghost faults: { Self → ℕ };

    /// The name of each file once, in any order. It answers `Failed` where the call failed, which
    /// alone raises the faults, and `Memory` where memory ran out and nothing else failed.
    fn names(&mut self, alloc: Global) -> Result<Vec<String>, NamesError>
        ensures kept { told self.new ≡ told self.old }
        ensures counted { faults self.old ≤ faults self.new }
        ensures named { IfOk result (λ names. TellsNames (told self.old) (map string_bytes names.items)) }
        ensures failed { result ≡ Err NamesError.Failed → Rose (faults self.old) (faults self.new) }
        ensures not_failed { (result ≢ Err NamesError.Failed) → faults self.new ≡ faults self.old };

    /// Fills a prefix of `buffer` with the bytes of the file `name` from the offset `at` on, in bytes
    /// from the file's start, and answers how many they are. It answers 0 exactly where `buffer` is
    /// empty or `at` is at the file's end or past it, and `Failed` where the call failed, which alone
    /// raises the faults. It takes no memory.
    fn read_at(&mut self, name: &str, at: u64, buffer: &mut [u8]) -> Result<usize, Failed>
        requires { HasName (told self.old) name.now }
        ensures kept { told self.new ≡ told self.old }
        ensures counted { faults self.old ≤ faults self.new }
        ensures within { IfOk result (λ count. count ≤ length buffer.new) }
        ensures read { IfOk result (λ count. ReadsAt (told self.old) name.now at buffer.old buffer.new count) }
        ensures unread { OnErr result (LeavesBuffer (told self.old) buffer.old buffer.new) }
        ensures failed { OnErr result (Rose (faults self.old) (faults self.new)) }
        ensures not_failed { OnOk result (faults self.new ≡ faults self.old) };

    /// No two files that are told have one name.
    ghost names_differ: { (folder : Self) → NamesDiffer (told folder) };
}

/// Why a folder didn't answer its names.
#[derive(Clone, Copy, Debug, PartialEq, Eq)]
pub enum NamesError {
    /// The call failed, and the folder's faults rose.
    Failed,
    /// Memory ran out, and the folder's faults are as they were.
    Memory,
}

impl From<AllocError> for NamesError {
    ghost use Rattle.ck_io.specs.declared.folders.NamesError.TheVariants.{Memory};

    ghost from_gives = { λ _ error. error ≡ Memory };

    fn from(_: AllocError) -> NamesError {
        NamesError::Memory
    }
}

/// Why a whole file wasn't read.
#[derive(Clone, Copy, Debug, PartialEq, Eq)]
pub enum ReadError {
    /// A call on the folder failed, and its faults rose.
    Fault,
    /// The file has more bytes than the limit.
    TooLong,
    /// Memory ran out, and the folder's faults are as they were.
    Memory,
}

impl From<Failed> for ReadError {
    ghost use Rattle.ck_io.specs.declared.folders.ReadError.TheVariants.{Fault};

    ghost from_gives = { λ _ error. error ≡ Fault };

    fn from(_: Failed) -> ReadError {
        ReadError::Fault
    }
}

impl From<AllocError> for ReadError {
    ghost use Rattle.ck_io.specs.declared.folders.ReadError.TheVariants.{Memory};

    ghost from_gives = { λ _ error. error ≡ Memory };

    fn from(_: AllocError) -> ReadError {
        ReadError::Memory
    }
}

/// How many bytes are read at a time, at most.
const CHUNK: usize = 65_536;

/// The bytes of the file `name`, which are at most `limit`.
///
/// `TooLong` says that more than `limit` bytes were read before the file's end, `Fault` that a call
/// on the folder failed, and `Memory` that memory ran out. `Fault` alone comes with a greater count
/// of faults. Each turn reads at least one byte, and at most `limit + 1` are read.
pub fn read_all<F: Folder>(
    alloc: Global,
    folder: &mut F,
    name: &str,
    limit: u32,
) -> Result<Vec<u8>, ReadError>
    requires { HasName (F.told folder.old) name.now }
    ensures kept { F.told folder.new ≡ F.told folder.old }
    ensures counted { F.faults folder.old ≤ F.faults folder.new }
    ensures read { IfOk result (λ bytes. HasBytes (F.told folder.old) name.now bytes.items) }
    ensures within { IfOk result (λ bytes. vec_len bytes ≤ limit) }
    ensures too_long { result ≡ Err ReadError.TooLong → IsTooLong (F.told folder.old) name.now limit }
    ensures fault { result ≡ Err ReadError.Fault → Rose (F.faults folder.old) (F.faults folder.new) }
    ensures no_fault { (result ≢ Err ReadError.Fault) → F.faults folder.new ≡ F.faults folder.old }
{
    let most = limit as usize + 1;
    let mut bytes = Vec::new(alloc);
    let mut chunk = vec![in alloc; 0u8; CHUNK.min(most)]?;
    while bytes.len() < most {
        let room = chunk.len().min(most - bytes.len());
        if read_more(folder, name, &mut bytes, &mut chunk[..room])? == 0 {
            return Ok(bytes);
        }
    }
    Err(ReadError::TooLong)
}

/// Reads on: appends the file's bytes from the offset `bytes.len()` on, as many as one call on the
/// folder gives of those that `buffer` has room for, and answers how many they are.
fn read_more<F: Folder>(
    folder: &mut F,
    name: &str,
    bytes: &mut Vec<u8>,
    buffer: &mut [u8],
) -> Result<usize, ReadError>
    requires { HasName (F.told folder.old) name.now }
    ensures kept { F.told folder.new ≡ F.told folder.old }
    ensures counted { F.faults folder.old ≤ F.faults folder.new }
    ensures within { IfOk result (λ count. count ≤ length buffer.old) }
    ensures read { IfOk result (λ count.
        ReadsAt (F.told folder.old) name.now (vec_len bytes.old) buffer.old buffer.new count) }
    ensures appended { IfOk result (λ count. bytes.new.items ≡ bytes.old.items ++ take count buffer.new) }
    ensures len { IfOk result (λ count. vec_len bytes.new ≡ vec_len bytes.old + count) }
    ensures not_long { result ≢ Err ReadError.TooLong }
    ensures fault { result ≡ Err ReadError.Fault → Rose (F.faults folder.old) (F.faults folder.new) }
    ensures no_fault { (result ≢ Err ReadError.Fault) → F.faults folder.new ≡ F.faults folder.old }
{
    let count = folder.read_at(name, bytes.len() as u64, buffer)?;
    bytes.extend_from_slice(&buffer[..count])?;
    Ok(count)
}
