//! The program `rtcheck`: checks the project of the folder that it is run in.
//!
//! In: the words of the command line, the files of the current folder. Out: the report on standard
//! output, one line on standard error for some statuses, and the exit status (docs/REPORT.md). All
//! else is the one call of ck_cli.
//!
//! It must not know: what the words mean, which files are read, and how a verdict is reached.
#![tactic(auto)]

use ck_cli::{Status, rtcheck};
use ck_io::{RealFolder, RealSink};
use std::env;
use std::io::ErrorKind;
use std::process::ExitCode;

/// What standard error says of a status.
const MESSAGES: [(Status, &str); 3] = [
    (Status::Usage, "usage: rtcheck check"),
    (Status::ReadFault, "rtcheck: read fault"),
    (Status::OutOfMemory, "rtcheck: out of memory"),
];

fn main(rt: HostRuntime) -> ExitCode {
    let code = check(&rt);
    for (status, message) in MESSAGES {
        if status.code() == code {
            let _ = rt.eprintln(message);
        }
    }
    ExitCode::from(code)
}

/// Checks the project of the current folder, and gives the number of the status.
fn check(rt: &HostRuntime) -> u8 {
    match words(rt) {
        Ok(words) => {
            let mut folder = RealFolder::here(rt);
            let mut sink = RealSink::standard(rt);
            rtcheck(rt.alloc(), &words, &mut folder, &mut sink)
        }
        Err(status) => status.code(),
    }
}

/// The words of the command line, the program's name first, or the status in their place: a word that
/// isn't UTF-8 is no command.
fn words(rt: &HostRuntime) -> Result<Vec<String>, Status> {
    match env::args(rt) {
        Ok(args) => args.collect(rt.alloc()).map_err(|_| Status::OutOfMemory),
        Err(error) if matches!(error.kind(), ErrorKind::OutOfMemory) => Err(Status::OutOfMemory),
        Err(_) => Err(Status::Usage),
    }
}
