//! Files as large as they may be, and a file of many line markers.
use crate::places::is_place;
use ck_base::{Fault, number};
use ck_lexer::lex;
use std::alloc::Global;
use std::test::Fail;

/// The greatest size of a file, in bytes.
const GREATEST: usize = 1_048_576;

/// How many tokens a text has and 0, or 0 and the number of its first fault.
fn cut(alloc: Global, text: &[u8]) -> Option<(usize, u8)> {
    if text.len() > GREATEST {
        return None;
    }
    match lex(alloc, 0, text) {
        Ok(tokens) => Some((tokens.len(), 0)),
        Err(Fault::Unsupported(refusal)) => Some((0, number(&refusal.kind))),
        Err(Fault::Memory) => None,
    }
}

/// A byte, and of the greatest file of that byte alone: the number of its tokens and of its fault,
/// and the line and column of its end.
const ONE_BYTE: [(u8, usize, u8, u32, u32); 8] = [
    (b'/', 0, 0, 1, 1_048_577),
    (b'"', 524_288, 0, 1, 1_048_577),
    (b'\'', 0, 3, 1, 1_048_577),
    (b'#', 0, 6, 1, 1_048_577),
    (b'a', 1, 0, 1, 1_048_577),
    (b'7', 0, 3, 1, 1_048_577),
    (b'+', 524_288, 0, 1, 1_048_577),
    (b'\n', 0, 0, 1_048_577, 1),
];

/// Whether the greatest file of a byte has so many tokens or this fault, and its end at this place.
fn is_right(
    alloc: Global,
    byte: u8,
    cuts: (usize, u8),
    line: u32,
    column: u32,
) -> Result<bool, Fail> {
    let text = vec![in alloc; byte; GREATEST]?;
    let placed = is_place(alloc, &text, GREATEST as u32, b"own", line, column)?;
    Ok(placed && cut(alloc, &text) == Some(cuts))
}

#[test]
fn the_greatest_files(rt: HostRuntime) -> Result<(), Fail> {
    for (byte, tokens, fault, line, column) in ONE_BYTE {
        let right = is_right(rt.alloc(), byte, (tokens, fault), line, column)?;
        assert!(rt; right, "a file of the byte {byte}");
    }
    Ok(())
}

/// A file of 1,000 line markers, each before a line with one token: the marker k names line 10 k of
/// the file `k.c`.
fn many_markers(alloc: Global) -> Result<String, Fail> {
    let mut text = String::new(alloc);
    for k in 1..1001u32 {
        write!(text, "# {k}0 \"{k}.c\"\nx\n")?;
    }
    Ok(text)
}

/// Whether the file of many line markers has a token after each, and the first and the last one have
/// the places that their markers give.
fn marks_each(alloc: Global) -> Result<bool, Fail> {
    let text = many_markers(alloc)?;
    let bytes = text.as_bytes();
    let Ok(last) = u32::try_from(bytes.len().saturating_sub(2)) else {
        return Ok(false);
    };
    let first = 11;
    Ok(
        cut(alloc, bytes) == Some((1000, 0))
            && is_place(alloc, bytes, first, b"1.c", 10, 1)?
            && is_place(alloc, bytes, last, b"1000.c", 10_000, 1)?,
    )
}

#[test]
fn a_thousand_line_markers(rt: HostRuntime) -> Result<(), Fail> {
    assert!(rt; marks_each(rt.alloc())?);
    Ok(())
}
