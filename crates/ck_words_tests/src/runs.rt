//! Runs of bytes of one class.
use ck_lexer::Class::{self, Blank, Name, NotStar};
use ck_lexer::class_run;

/// A hundred letters and a space.
const HUNDRED: &[u8] = b"\
    abcdefghijklmnopqrstuvwxyzabcdefghijklmnopqrstuvwx\
    abcdefghijklmnopqrstuvwxyzabcdefghijklmnopqrstuvwx\x20";

/// A text, an offset in it, a class, and how many bytes of the class are there.
const RUNS: [(&[u8], usize, Class, usize); 15] = [
    (HUNDRED, 0, Name, 100),
    (HUNDRED, 32, Name, 68),
    (HUNDRED, 100, Name, 0),
    (HUNDRED, 101, Name, 0),
    (HUNDRED, 0, Blank, 0),
    (HUNDRED, 100, Blank, 1),
    (HUNDRED, 0, NotStar, 101),
    (b"", 0, NotStar, 0),
    (b" \t\x0b\x0c\r\n ", 0, Blank, 5),
    (b" \n ", 1, Blank, 0),
    (b"aZ_09-a", 0, Name, 5),
    (b"@a[`{", 0, Name, 0),
    (b"\xe9", 0, Name, 0),
    (b"\xff\n/*/", 0, NotStar, 3),
    (b"**", 1, NotStar, 0),
];

/// Whether so many bytes from the offset on are of the class.
fn is_run(text: &[u8], at: usize, class: Class, count: usize) -> bool {
    at <= text.len() && class_run(text, at, &class) == count
}

#[test]
fn runs_of_one_class(rt: HostRuntime) {
    for (text, at, class, count) in RUNS {
        assert!(rt; is_run(text, at, class, count), "at {at} of {text:?}");
    }
}
