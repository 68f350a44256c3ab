//! Words of the command line with the command that they are, or with none; texts of the benchmark.
use ck_words::Command::{self, Bench, Check, Upgrade};
use ck_words::{WordsError, bench_text, command_of};
use std::alloc::{AllocError, Global};

/// The words after the program's name, parted by spaces, and the command that they are.
const COMMANDS: [(&str, Option<Command>); 41] = [
    ("check", Some(Check)),
    ("upgrade", Some(Upgrade)),
    ("bench --number 1", Some(Bench { number: 1 })),
    ("bench --number=1", Some(Bench { number: 1 })),
    ("--number 40 bench", Some(Bench { number: 40 })),
    ("--number=40 bench", Some(Bench { number: 40 })),
    ("bench --number 8000", Some(Bench { number: 8000 })),
    ("", None),
    ("Check", None),
    ("checks", None),
    ("check check", None),
    ("check upgrade", None),
    ("run", None),
    ("run --schedule s1", None),
    ("bench", None),
    ("bench 40", None),
    ("bench --number", None),
    ("bench --number=", None),
    ("bench --number 0", None),
    ("bench --number 8001", None),
    ("bench --number 4294967297", None),
    ("bench --number 040", None),
    ("bench --number=+40", None),
    ("bench --number -40", None),
    ("bench --number 4O", None),
    ("bench --number 40 40", None),
    ("bench --number 40 --number 40", None),
    ("bench --number=40 --number 41", None),
    ("--number=40 bench --number=40", None),
    ("bench --num 40", None),
    ("bench -number 40", None),
    ("bench --number=40 check", None),
    ("check --number 40", None),
    ("upgrade --number=40", None),
    ("-- check", None),
    ("check --", None),
    ("bench -- --number 40", None),
    ("bench --number -- 40", None),
    ("--help", None),
    ("-h", None),
    ("check -h", None),
];

/// The program's name, and these words.
fn words_of(alloc: Global, text: &str) -> Result<Vec<String>, AllocError> {
    let mut words = Vec::new(alloc);
    words.push(String::from_str(alloc, "rtcheck")?)?;
    for word in text.split_whitespace() {
        words.push(String::from_str(alloc, word)?)?;
    }
    Ok(words)
}

/// Whether these words are this command.
fn is_answered(alloc: Global, text: &str, command: Option<Command>) -> bool {
    let Ok(words) = words_of(alloc, text) else {
        return false;
    };
    match (command_of(alloc, &words), command) {
        (Ok(answer), Some(wanted)) => answer == wanted,
        (Err(error), None) => error == WordsError::Usage,
        _ => false,
    }
}

#[test]
fn words_and_their_commands(rt: HostRuntime) {
    for (text, command) in COMMANDS {
        assert!(rt; is_answered(rt.alloc(), text, command), "at {text}");
    }
}

#[test]
fn no_words(rt: HostRuntime) {
    assert!(rt; command_of(rt.alloc(), &[]) == Err(WordsError::Usage));
}

/// The benchmark for 2.
const TWO: &str = "void chSysInit(void);\n\
    void chSysLock(void);\n\
    void chSysUnlock(void);\n\
    int v;\n\
    void f0(void) { chSysLock(); chSysUnlock(); }\n\
    void f1(void) { if (v) f0(); else f0(); }\n\
    void f2(void) { if (v) f1(); else f1(); }\n\
    int main(void) { chSysInit(); f2(); }\n";

#[test]
fn the_benchmark_for_two(rt: HostRuntime) {
    let is_two = bench_text(rt.alloc(), 2).is_ok_and(|text| text.as_slice() == TWO.as_bytes());
    assert!(rt; is_two);
}

/// A number, and how many bytes the benchmark for it has.
const SIZES: [(u32, usize); 3] = [(1, 201), (40, 1931), (8000, 404_835)];

#[test]
fn sizes_of_benchmarks(rt: HostRuntime) {
    for (number, size) in SIZES {
        let right = bench_text(rt.alloc(), number).is_ok_and(|text| text.len() == size);
        assert!(rt; right, "at {number}");
    }
}
