//! A folder in memory, with calls that fail on demand.
ghost use Rattle.std.specs.Prelude.{
  ◌≡◌,
  ◌≢◌,
  ◌≤◌,
  ◌↔◌,
  ◌-◌,
  ◌++◌,
  min,
  Option,
  Some,
  map,
  length,
  take,
  drop,
  string_bytes,
  option_copied,
  IfOk,
  OnErr,
  OnOk,
  IsErr,
};
ghost use Rattle.ck_io.specs.Environment.{
  NamesDiffer,
  TellsNames,
  HasName,
  ReadsAt,
  LeavesBuffer,
  Rose,
  one_more,
  names_of,
  bytes_of,
};
ghost use Rattle.ck_io.specs.MemoryFiles.{files_of};
ghost use Rattle.ck_io.specs.FaultPlan.{FailsNext};

use crate::fault_plan::FaultPlan;
use crate::{Failed, Folder, NamesError};
use std::alloc::{AllocError, Global};

/// A folder of files in memory, for tests of what reads a folder: it tells its files, and the calls
/// fail whose numbers it was given, counted from 1 over `names` and `read_at` together.
///
/// Its counts of calls and of failed calls stay at 18,446,744,073,709,551,615, and from there on no
/// call fails by its number.
#[derive(Drop)]
pub struct MemoryFolder {
    files: Vec<(String, Vec<u8>)>,
    plan: FaultPlan,
    ghost names_differ: { NamesDiffer (Some (files_of files.items)) },
}

/// The names of the files, in order.
fn copy_names(files: &[(String, Vec<u8>)], alloc: Global) -> Result<Vec<String>, AllocError>
    ensures { IfOk result (λ names. map string_bytes names.items ≡ names_of (files_of files.now)) }
{
    let mut names = Vec::with_capacity(alloc, files.len())?;
    for (name, _) in files {
        names.push(String::from_str(alloc, name.as_str())?)?;
    }
    Ok(names)
}

/// The bytes of the first file of this name.
fn find_bytes<'a>(files: &'a [(String, Vec<u8>)], name: &str) -> Option<&'a [u8]>
    ensures { option_copied result ≡ bytes_of (files_of files.now) name.now }
{
    for (file_name, bytes) in files {
        if file_name.as_str() == name {
            return Some(bytes.as_slice());
        }
    }
    None
}

/// Fills a prefix of `buffer`, as long as it can be, with `bytes` from the offset `at` on, and
/// answers its length.
fn fill_prefix(bytes: &[u8], at: usize, buffer: &mut [u8]) -> usize
    ensures count { result ≡ min (length buffer.old) (length bytes.now - at) }
    ensures filled { buffer.new ≡ take result (drop at bytes.now) ++ drop result buffer.old }
{
    let rest = &bytes[bytes.len().min(at)..];
    let count = rest.len().min(buffer.len());
    buffer[..count].copy_from_slice(&rest[..count]);
    count
}

impl MemoryFolder {
    ghost use Rattle.ck_io.specs.MemoryFolder.{folder_files, folder_fail, folder_calls, folder_faults};

    /// A folder of these files, each a name and its bytes, no two of one name. The calls whose
    /// numbers stand in `fail` fail, counted from 1. It takes no memory.
    pub fn new(files: Vec<(String, Vec<u8>)>, fail: Vec<u64>) -> MemoryFolder
        requires { NamesDiffer (Some (files_of files.items)) }
        ensures files { folder_files result ≡ files_of files.items }
        ensures fail { folder_fail result ≡ fail.items }
        ensures calls { folder_calls result ≡ 0 }
        ensures faults { folder_faults result ≡ 0 }
    {
        MemoryFolder {
            files,
            plan: FaultPlan::new(fail),
        }
    }
}

impl Folder for MemoryFolder {
    ghost use Rattle.ck_io.specs.MemoryFolder.{
      folder_files,
      folder_fail,
      folder_calls,
      folder_faults,
      FillsFully,
    };

    ghost told = { λ folder. Some (folder_files folder) };

    ghost faults = { folder_faults };

    ghost names_differ = { λ folder. folder.names_differ };

    /// The name of each file once. It answers `Failed` exactly where the call fails by its number,
    /// and `Memory` where memory ran out. `Failed` alone raises the count of failed calls.
    fn names(&mut self, alloc: Global) -> Result<Vec<String>, NamesError>
        ensures kept { folder_files self.new ≡ folder_files self.old }
        ensures fail_kept { folder_fail self.new ≡ folder_fail self.old }
        ensures counted { folder_faults self.old ≤ folder_faults self.new }
        ensures called { folder_calls self.new ≡ one_more (folder_calls self.old) }
        ensures named { IfOk result (λ names.
            TellsNames (Some (folder_files self.old)) (map string_bytes names.items)) }
        ensures fails { (result ≡ Err NamesError.Failed) ↔ FailsNext (folder_fail self.old) (folder_calls self.old) }
        ensures failed { result ≡ Err NamesError.Failed → folder_faults self.new ≡ one_more (folder_faults self.old) }
        ensures not_failed { (result ≢ Err NamesError.Failed) → folder_faults self.new ≡ folder_faults self.old }
    {
        if self.plan.count_call() {
            return Err(NamesError::Failed);
        }
        Ok(copy_names(&self.files, alloc)?)
    }

    /// Fills a prefix of `buffer`, as long as it can be, with the bytes of the file `name` from the
    /// offset `at` on, and answers its length. It fails exactly where the call fails by its number,
    /// and then leaves `buffer` as it was.
    fn read_at(&mut self, name: &str, at: u64, buffer: &mut [u8]) -> Result<usize, Failed>
        requires { HasName (Some (folder_files self.old)) name.now }
        ensures kept { folder_files self.new ≡ folder_files self.old }
        ensures fail_kept { folder_fail self.new ≡ folder_fail self.old }
        ensures counted { folder_faults self.old ≤ folder_faults self.new }
        ensures called { folder_calls self.new ≡ one_more (folder_calls self.old) }
        ensures within { IfOk result (λ count. count ≤ length buffer.new) }
        ensures read { IfOk result (λ count.
            ReadsAt (Some (folder_files self.old)) name.now at buffer.old buffer.new count) }
        ensures fully { IfOk result (λ count.
            FillsFully (folder_files self.old) name.now at (length buffer.old) count) }
        ensures unread { OnErr result (buffer.new ≡ buffer.old) }
        ensures fails { IsErr result ↔ FailsNext (folder_fail self.old) (folder_calls self.old) }
        ensures failed { OnErr result (folder_faults self.new ≡ one_more (folder_faults self.old)) }
        ensures not_failed { OnOk result (folder_faults self.new ≡ folder_faults self.old) }
    {
        if self.plan.count_call() {
            return Err(Failed);
        }
        let bytes = find_bytes(&self.files, name).unwrap();
        Ok(fill_prefix(bytes, at as usize, buffer))
    }
}
