//! The real folder and the standard output: the edge, of which no contract can say the bytes.
ghost use Rattle.std.specs.Prelude.{◌≡◌, ◌≢◌, ◌≤◌, Option, None, length, IfOk, OnOk, OnErr};
ghost use Rattle.ck_io.specs.Environment.{one_more};
ghost use Rattle.ck_io.specs.Real.{real_folder_faults, real_sink_faults};

use crate::{Failed, Folder, NamesError, Sink};
use std::alloc::Global;
use std::io::{ErrorKind, Print, Read, Seek, SeekFrom};
use std::rt::Files;
use std::{fs, io};

/// How many times a call is tried that a signal interrupts.
const TRIES: u32 = 64;

/// Counts one more fault, up to the last value.
fn add_fault(faults: &mut u64)
    ensures counted { faults.old ≤ faults.new }
    ensures one_more { faults.new ≡ one_more faults.old }
{
    *faults = faults.saturating_add(1);
}

/// The folder in which the program runs, the folders in it among its files. It tells none of them.
/// Each failed call counts as a fault, up to 18,446,744,073,709,551,615.
#[derive(Drop)]
pub struct RealFolder<'a, R: Files + AllocGlobal> {
    rt: &'a R,
    faults: u64,
}

/// The names of the files and folders in the current folder.
fn read_names<R: Files + AllocGlobal>(rt: &R, alloc: Global) -> io::Result<Vec<String>> {
    let mut names = Vec::new(alloc);
    for entry in fs::read_dir(&rt, ".")? {
        let entry = entry?;
        names.push(String::from_str(alloc, entry.file_name())?)?;
    }
    Ok(names)
}

/// Reads once from the file, and again where a signal interrupts.
fn read_once<F: Read>(file: &mut F, buffer: &mut [u8]) -> io::Result<usize>
    ensures { IfOk result (λ count. count ≤ length buffer.new) }
{
    for _ in 0..TRIES {
        let outcome = file.read(buffer);
        if !is_interrupted(&outcome) {
            return outcome;
        }
    }
    Err(io::Error::from(ErrorKind::Interrupted))
}

/// Whether a signal interrupted the call.
fn is_interrupted(outcome: &io::Result<usize>) -> bool {
    matches!(outcome, Err(error) if error.kind() == ErrorKind::Interrupted)
}

/// Reads once from the file `name`, from the place `at` on.
fn read_file_at<R: Files>(rt: &R, name: &str, at: u64, buffer: &mut [u8]) -> io::Result<usize>
    ensures { IfOk result (λ count. count ≤ length buffer.new) }
{
    let mut file = fs::open(rt, name)?;
    file.seek(SeekFrom::Start(at))?;
    read_once(&mut file, buffer)
}

impl<'a, R: Files + AllocGlobal> RealFolder<'a, R> {
    /// The current folder, with no faults so far.
    pub fn here(rt: &'a R) -> RealFolder<'a, R>
        ensures { real_folder_faults result ≡ 0 }
    {
        RealFolder { rt, faults: 0 }
    }
}

impl<'a, R: Files + AllocGlobal> Folder for RealFolder<'a, R> {
    ghost told = { λ _. None };

    ghost faults = { real_folder_faults };

    ghost names_differ = { λ _. tt };

    /// The names of the files and folders in the current folder. Any error counts as a fault, a name
    /// that isn't UTF-8 too, but for want of memory, which comes as `Memory`.
    fn names(&mut self, alloc: Global) -> Result<Vec<String>, NamesError>
        ensures counted { real_folder_faults self.old ≤ real_folder_faults self.new }
        ensures failed { result ≡ Err NamesError.Failed →
            real_folder_faults self.new ≡ one_more (real_folder_faults self.old) }
        ensures not_failed { (result ≢ Err NamesError.Failed) →
            real_folder_faults self.new ≡ real_folder_faults self.old }
    {
        match read_names(self.rt, alloc) {
            Ok(names) => Ok(names),
            Err(error) if matches!(error.kind(), ErrorKind::OutOfMemory) => Err(NamesError::Memory),
            Err(_) => {
                add_fault(&mut self.faults);
                Err(NamesError::Failed)
            }
        }
    }

    /// Opens the file, goes to the place and reads once. Any error counts as a fault.
    fn read_at(&mut self, name: &str, at: u64, buffer: &mut [u8]) -> Result<usize, Failed>
        ensures counted { real_folder_faults self.old ≤ real_folder_faults self.new }
        ensures within { IfOk result (λ count. count ≤ length buffer.new) }
        ensures failed { OnErr result (real_folder_faults self.new ≡ one_more (real_folder_faults self.old)) }
        ensures not_failed { OnOk result (real_folder_faults self.new ≡ real_folder_faults self.old) }
    {
        let Ok(count) = read_file_at(self.rt, name, at, buffer) else {
            add_fault(&mut self.faults);
            return Err(Failed);
        };
        Ok(count)
    }
}

/// The standard output. It tells none of the bytes that it took. Each failed write counts as a
/// fault, up to 18,446,744,073,709,551,615.
#[derive(Drop)]
pub struct RealSink<'a, R: Print> {
    rt: &'a R,
    faults: u64,
}

/// Writes once, and again where a signal interrupts.
fn write_once<R: Print>(rt: &R, bytes: &[u8]) -> io::Result<usize>
    ensures { IfOk result (λ count. count ≤ length bytes.now) }
{
    for _ in 0..TRIES {
        let outcome = rt.write_some(bytes);
        if !is_interrupted(&outcome) {
            return outcome;
        }
    }
    Err(io::Error::from(ErrorKind::Interrupted))
}

impl<'a, R: Print> RealSink<'a, R> {
    /// The standard output, with no faults so far.
    pub fn standard(rt: &'a R) -> RealSink<'a, R>
        ensures { real_sink_faults result ≡ 0 }
    {
        RealSink { rt, faults: 0 }
    }
}

impl<'a, R: Print> Sink for RealSink<'a, R> {
    ghost taken = { λ _. None };

    ghost faults = { real_sink_faults };

    /// Writes once. Any error counts as a fault, and so does a write that takes nothing of a piece
    /// that isn't empty.
    fn write(&mut self, bytes: &[u8]) -> Result<usize, Failed>
        ensures counted { real_sink_faults self.old ≤ real_sink_faults self.new }
        ensures within { IfOk result (λ count. count ≤ length bytes.now) }
        ensures some { IfOk result (λ count. count ≡ 0 → length bytes.now ≡ 0) }
        ensures failed { OnErr result (real_sink_faults self.new ≡ one_more (real_sink_faults self.old)) }
        ensures not_failed { OnOk result (real_sink_faults self.new ≡ real_sink_faults self.old) }
    {
        match write_once(self.rt, bytes) {
            Ok(count) if count > 0 || bytes.is_empty() => Ok(count),
            _ => {
                add_fault(&mut self.faults);
                Err(Failed)
            }
        }
    }
}
