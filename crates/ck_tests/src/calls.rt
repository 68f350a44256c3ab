//! Words that are no command, each call on the folder and each write that fails, and sinks without room.
use crate::outside::{AMPLE, Sink, answer};
use std::alloc::Global;
use std::test::Fail;

/// The file `main.i`, which is accepted.
const MAIN: &str = "\
    void chSysInit(void);\n\
    void chSysLock(void);\n\
    void chSysUnlock(void);\n\
    int main(void) {\n\
    chSysInit();\n\
    chSysLock();\n\
    chSysUnlock();\n\
    }\n";

/// Its report, of 49 bytes.
const ACCEPTED: &str = "\
    rtcheck 1\n\
    accepted\n\
    files 1 functions 1 entries 1\n";

const CHECK: &[&str] = &["rtcheck", "check"];

/// The words; the number of the folder's call that fails; how many bytes the sink takes in all and at
/// one write, and the number of its write that fails; the status; and how many bytes of the report the
/// sink took. No call has the number 0.
type Row = (&'static [&'static str], u64, usize, usize, u64, u8, usize);

const ROWS: [Row; 24] = [
    (CHECK, 0, AMPLE, AMPLE, 0, 0, 49),
    // words that are no command
    (&[], 0, AMPLE, AMPLE, 0, 3, 0),
    (&["rtcheck"], 0, AMPLE, AMPLE, 0, 3, 0),
    (&["check"], 0, AMPLE, AMPLE, 0, 3, 0),
    (&["rtcheck", "run"], 0, AMPLE, AMPLE, 0, 3, 0),
    (&["rtcheck", "Check"], 0, AMPLE, AMPLE, 0, 3, 0),
    (&["rtcheck", "check", "check"], 0, AMPLE, AMPLE, 0, 3, 0),
    // one call on the folder for the names, one for the bytes and one that meets their end
    (CHECK, 1, AMPLE, 8, 0, 5, 0),
    (CHECK, 2, AMPLE, 8, 0, 5, 0),
    (CHECK, 3, AMPLE, 8, 0, 5, 0),
    (CHECK, 4, AMPLE, 8, 0, 0, 49),
    // at 8 bytes a write, the 49 bytes take 7 writes
    (CHECK, 0, AMPLE, 8, 1, 6, 0),
    (CHECK, 0, AMPLE, 8, 2, 6, 8),
    (CHECK, 0, AMPLE, 8, 3, 6, 16),
    (CHECK, 0, AMPLE, 8, 4, 6, 24),
    (CHECK, 0, AMPLE, 8, 5, 6, 32),
    (CHECK, 0, AMPLE, 8, 6, 6, 40),
    (CHECK, 0, AMPLE, 8, 7, 6, 48),
    (CHECK, 0, AMPLE, 8, 8, 0, 49),
    // a sink without room
    (CHECK, 0, 0, AMPLE, 0, 6, 0),
    (CHECK, 0, 10, AMPLE, 0, 6, 10),
    (CHECK, 0, 48, AMPLE, 0, 6, 48),
    (CHECK, 0, 48, 1, 0, 6, 48),
    (CHECK, 0, 49, AMPLE, 0, 0, 49),
];

/// Whether the answer has the status of the row, and the sink took as much of the report.
fn is_right(alloc: Global, row: &Row) -> Result<bool, Fail> {
    let (words, fails, capacity, most, write_fails, status, count) = *row;
    let sink = Sink {
        capacity,
        most,
        fails: write_fails,
    };
    let (found, taken) = answer(alloc, words, MAIN.as_bytes(), fails, sink)?;
    let wanted = ACCEPTED.as_bytes().get(..count).unwrap_or_default();
    Ok(found == status && taken.as_slice() == wanted)
}

#[test]
fn what_fails_at_each_call(rt: HostRuntime) -> Result<(), Fail> {
    for (number, row) in ROWS.iter().enumerate() {
        assert!(rt; is_right(rt.alloc(), row)?, "row {number}");
    }
    Ok(())
}
