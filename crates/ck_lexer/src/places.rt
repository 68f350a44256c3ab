//! Names, lines and columns of a file's bytes (docs/TOKENS.md, "Places").
ghost use Rattle.std.specs.Prelude.{◌≡◌, ◌≤◌, ◌<◌, ◌++◌, ◌∷◌, ℕ};
ghost use Rattle.std.specs.Prelude.{[], List, length, slice_index_or, IfOk, OnOk, MatchOption};
ghost use Rattle.std.specs.List.Sorted.{IsNonDecreasingBy};
ghost use Rattle.ck_lexer.specs.Bytes.{most_bytes};
ghost use Rattle.ck_lexer.specs.Cuts.{IsLexeme};
ghost use Rattle.ck_lexer.specs.Mapping.{GoesOn, IsAtOrAfterFeed, IsLastBefore};
ghost use Rattle.ck_lexer.specs.Mapping.{IsMapped, IsMarked, IsNumbered, IsUnmarked};
ghost use Rattle.ck_lexer.specs.PlaceMaps.{HasStart, IsPlaceMapOf, names_of, place_of, start_of};
ghost use Rattle.ck_lexer.specs.Places.{IsPlace};
ghost use Rattle.ck_lexer.specs.Scanning as scan;
ghost use Rattle.ck_lexer.specs.declared.lexemes.Lexeme.{Lexeme};

use crate::lexemes::{is_clear, lexeme_at};
use crate::markers::{Marked, marker};
use ck_base::OutOfMemory;
use std::alloc::Global;

/// Where a byte is: the name and the line that the last line marker before it gives, or the
/// file's own, and the column. Lines and columns count from 1; the name is as it is in the marker.
#[derive(Clone, Copy)]
pub struct PlaceName<'a> {
    pub name: &'a [u8],
    pub line: u32,
    pub column: u32,
}

/// A line of a file: where it starts, its number, and its name's index.
#[derive(Clone, Copy)]
pub(crate) struct Line {
    start: u32,
    number: u32,
    name: usize,
}

/// The line and the offset after a lexeme.
#[derive(Clone, Copy)]
pub(crate) struct Passed {
    pub on: Line,
    pub at: usize,
}

/// The file's first line, as long as no marker comes.
pub(crate) const FIRST: Line = Line {
    start: 0,
    number: 1,
    name: 0,
};

/// The places of a file's bytes: its lines in order, and the names that hold on them.
#[derive(Drop)]
pub struct PlaceMap {
    names: Vec<Vec<u8>>,
    lines: Vec<Line>,
}

/// Adds a line at the end.
fn push_line(lines: &mut Vec<Line>, line: Line) -> Result<(), OutOfMemory>
    ensures { OnOk result (lines.new.items ≡ lines.old.items ++ line ∷ []) }
{
    lines.push(line)?;
    Ok(())
}

/// Adds a copy of a name at the end.
fn push_name(alloc: Global, names: &mut Vec<Vec<u8>>, name: &[u8]) -> Result<(), OutOfMemory>
    ensures { OnOk result (names_of names.new.items ≡ names_of names.old.items ++ name.now ∷ []) }
{
    names.push(Vec::from_slice(alloc, name)?)?;
    Ok(())
}

/// What the marker gives that takes the bytes from `at` to `end`, where a line feed comes after it.
fn marked_line(bytes: &[u8], at: usize, end: usize) -> Option<Marked<'_>>
    requires rises { at ≤ end }
    requires within { end ≤ length bytes.now }
    ensures { MatchOption result (IsUnmarked bytes.now at end) (IsMarked bytes.now at end) }
{
    let marked = marker(&bytes[at..end])?;
    if end < bytes.len() && is_clear(&bytes[..at]) {
        Some(marked)
    } else {
        None
    }
}

/// Adds a line for each line feed from `at` up to `end`, which follows the line `on`, and gives the
/// last.
fn push_lines(
    lines: &mut Vec<Line>,
    on: Line,
    bytes: &[u8],
    at: usize,
    end: usize,
) -> Result<Line, OutOfMemory>
    requires small { length bytes.now ≤ most_bytes }
    requires rises { at ≤ end }
    requires within { end ≤ length bytes.now }
    requires begun { on.start ≤ at }
    requires numbered { IsNumbered on }
    ensures numbered { IfOk result IsNumbered }
    ensures lines { IfOk result (λ next. GoesOn bytes.now lines.old.items on at lines.new.items next end) }
{
    let mut line = on;
    for feed in at..end {
        if bytes[feed] == b'\n' {
            line = Line {
                start: (feed + 1) as u32,
                number: line.number + 1,
                name: line.name,
            };
            push_line(lines, line)?;
        }
    }
    Ok(line)
}

/// The map of a file up to its start: one line, with the file's own name.
pub(crate) fn empty_map(alloc: Global, name: &str) -> Result<PlaceMap, OutOfMemory>
    ensures { IfOk result (λ map. (bytes : List ℕ) → IsMapped name.now bytes map FIRST 0) }
{
    let mut names = Vec::new(alloc);
    push_name(alloc, &mut names, name.as_bytes())?;
    let mut lines = Vec::new(alloc);
    push_line(&mut lines, FIRST)?;
    Ok(PlaceMap { names, lines })
}

/// Passes a lexeme that may hold line feeds or be a marker, as `pass` does.
fn pass_line_ends(
    alloc: Global,
    map: &mut PlaceMap,
    on: Line,
    bytes: &[u8],
    at: usize,
    end: usize,
) -> Result<Passed, OutOfMemory>
    requires small { length bytes.now ≤ most_bytes }
    requires rises { at ≤ end }
    requires within { end ≤ length bytes.now }
    requires begun { on.start ≤ at }
    requires numbered { IsNumbered on }
    ensures rises { IfOk result (λ next. end ≤ next.at) }
    ensures lines { IfOk result (λ next. (name : List ℕ) (lexeme : Lexeme) → IsLexeme bytes.now at end lexeme
        → IsMapped name bytes.now map.old on at → IsMapped name bytes.now map.new next.on next.at) }
    ensures feed { IfOk result (λ next. (lexeme : Lexeme) → IsLexeme bytes.now at end lexeme
        → IsAtOrAfterFeed bytes.now end next.at) }
{
    match marked_line(bytes, at, end) {
        Some(marked) => {
            let on = Line {
                start: (end + 1) as u32,
                number: marked.number,
                name: map.names.len(),
            };
            push_name(alloc, &mut map.names, marked.name)?;
            push_line(&mut map.lines, on)?;
            Ok(Passed { on, at: end + 1 })
        }
        None => {
            let on = push_lines(&mut map.lines, on, bytes, at, end)?;
            Ok(Passed { on, at: end })
        }
    }
}

/// Whether a lexeme that begins with this byte may hold a line feed or be a marker.
fn may_end_line(byte: u8) -> bool
    ensures { result ≡ scan.may_end_line byte }
{
    matches!(byte, b'\n' | b'/' | b'#')
}

/// Passes a lexeme that takes the bytes from `at` to `end`, and the line feed after it where it is a
/// marker: adds the lines that begin there, and the marker's name. `on` is the line of the lexeme's
/// first byte.
#[inline(always)]
pub(crate) fn pass(
    alloc: Global,
    map: &mut PlaceMap,
    on: Line,
    bytes: &[u8],
    at: usize,
    end: usize,
) -> Result<Passed, OutOfMemory>
    requires small { length bytes.now ≤ most_bytes }
    requires rises { at < end }
    requires within { end ≤ length bytes.now }
    requires begun { on.start ≤ at }
    requires numbered { IsNumbered on }
    ensures rises { IfOk result (λ next. end ≤ next.at) }
    ensures lines { IfOk result (λ next. (name : List ℕ) (lexeme : Lexeme) → IsLexeme bytes.now at end lexeme
        → IsMapped name bytes.now map.old on at → IsMapped name bytes.now map.new next.on next.at) }
    ensures feed { IfOk result (λ next. (lexeme : Lexeme) → IsLexeme bytes.now at end lexeme
        → IsAtOrAfterFeed bytes.now end next.at) }
{
    if may_end_line(bytes[at]) {
        pass_line_ends(alloc, map, on, bytes, at, end)
    } else {
        Ok(Passed { on, at: end })
    }
}

/// The places of a file's bytes, of which there are at most 1,048,576, in time that grows with them
/// (docs/TOKENS.md, "Places").
///
/// `name` is the file's own name, which holds until a line marker comes. Faults are passed over like
/// any lexeme of the file. Nothing is refused, but for want of memory.
pub fn place_map(alloc: Global, name: &str, bytes: &[u8]) -> Result<PlaceMap, OutOfMemory>
    requires { length bytes.now ≤ most_bytes }
    ensures { IfOk result (IsPlaceMapOf name.now bytes.now) }
{
    let mut map = empty_map(alloc, name)?;
    let mut on = FIRST;
    let mut at = 0;
    while at < bytes.len() {
        let end = at + lexeme_at(bytes, at).size;
        let next = pass(alloc, &mut map, on, bytes, at, end)?;
        on = next.on;
        at = next.at;
    }
    Ok(map)
}

/// The last line that starts at an offset or before it.
fn last_before(lines: &[Line], offset: u32) -> Line
    ensures { IsNonDecreasingBy start_of lines.now → HasStart lines.now 0 → IsLastBefore lines.now offset result }
{
    let count = lines.partition_point(|line| line.start <= offset);
    match lines.get(count.saturating_sub(1)) {
        Some(line) => *line,
        None => FIRST,
    }
}

/// The name at an index, or none.
fn name_at(names: &[Vec<u8>], index: usize) -> &[u8]
    ensures { result.now ≡ slice_index_or (names_of names.now) index [] }
{
    match names.get(index) {
        Some(name) => name.as_slice(),
        None => &[],
    }
}

/// The name, line and column of the byte at an offset, or of the file's end, by a binary search among
/// the file's lines (docs/TOKENS.md, "Places").
///
/// The offset is at most the file's length, and there it is the file's end; nothing is said of a greater one.
pub fn place(map: &PlaceMap, offset: u32) -> PlaceName<'_>
    ensures { (name bytes : List ℕ) → IsPlaceMapOf name bytes map.now → offset ≤ length bytes
        → IsPlace name bytes offset (place_of result) }
{
    let line = last_before(&map.lines, offset);
    PlaceName {
        name: name_at(&map.names, line.name),
        line: line.number,
        column: offset.saturating_sub(line.start).saturating_add(1),
    }
}
