//! The adapters over the real folder and the real output, once each.
use ck_io::ReadError::{Fault, TooLong};
use ck_io::{Folder, NamesError, ReadError, RealFolder, RealSink, read_all, write_all};
use std::alloc::Global;
use std::fs;
use std::test::Fail;

/// Whether the current folder has a file of this name.
fn is_named(rt: &HostRuntime, name: &str) -> Result<bool, NamesError> {
    let mut folder = RealFolder::here(rt);
    let names = folder.names(rt.alloc())?;
    Ok(names.iter().any(|found| found.as_str() == name))
}

/// What reading a file of the current folder gives, up to this many bytes.
fn file(rt: &HostRuntime, name: &str, limit: u32) -> Result<Vec<u8>, ReadError> {
    let mut folder = RealFolder::here(rt);
    read_all(rt.alloc(), &mut folder, name, limit)
}

/// Whether the file `sample.txt` is there, and is read or refused as it has to be.
fn is_sample_read(rt: &HostRuntime) -> Result<bool, NamesError> {
    let sample = b"a sample\n".as_slice();
    Ok(
        is_named(rt, "sample.txt")?
            && matches!(file(rt, "sample.txt", 100), Ok(bytes) if bytes.as_slice() == sample)
            && matches!(file(rt, "sample.txt", 8), Err(TooLong))
            && matches!(file(rt, "no such file", 100), Err(Fault)),
    )
}

/// Makes a file in the current folder, and takes it away again.
#[test]
fn the_real_folder(rt: HostRuntime) -> Result<(), Fail> {
    fs::write(&rt, "sample.txt", "a sample\n")?;
    let right = is_sample_read(&rt);
    fs::remove_file(&rt, "sample.txt")?;
    assert!(rt; right?);
    Ok(())
}

#[test]
fn the_real_output(rt: HostRuntime) -> Result<(), Fail> {
    let mut sink = RealSink::standard(&rt);
    write_all(&mut sink, b"a line of the test\n".as_slice())?;
    Ok(())
}
