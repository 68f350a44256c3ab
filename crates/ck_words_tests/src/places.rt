//! Texts with an offset and its place, worked out by hand from docs/TOKENS.md.
use ck_base::OutOfMemory;
use ck_lexer::{PlaceMap, place, place_map, scan};
use std::alloc::Global;
use std::test::Fail;

/// Texts with an offset, and its name, line and column. The file's own name is `own`.
const PLACES: [(&[u8], u32, &[u8], u32, u32); 18] = [
    (b"", 0, b"own", 1, 1),
    (b"int x;", 4, b"own", 1, 5),
    (b"a\nb", 1, b"own", 1, 2),
    (b"a\nb", 2, b"own", 2, 1),
    (b"a\n\n", 3, b"own", 3, 1),
    // a marker counts from its line feed on
    (b"# 7 \"main.c\"\nunion", 2, b"own", 1, 3),
    (b"# 7 \"main.c\"\nunion", 12, b"own", 1, 13),
    (b"# 7 \"main.c\"\nunion", 13, b"main.c", 7, 1),
    (b"# 7 \"main.c\"\nunion", 18, b"main.c", 7, 6),
    (b"# 7 \"a\"\nx\n# 3 \"b\" 1\n y", 10, b"a", 8, 1),
    (b"# 7 \"a\"\nx\n# 3 \"b\" 1\n y", 21, b"b", 3, 2),
    (b"# 7 \"a\"\n# 9 \"c\"\nz", 8, b"a", 7, 1),
    (
        b"# 999999999 \"a\\\"\xff\"\n\nz",
        20,
        b"a\\\"\xff",
        1_000_000_000,
        1,
    ),
    (b"# 1 \"a\"", 7, b"own", 1, 8),
    // a bad marker, a comment and an unclosed literal
    (b"# x\n# 5 \"c\"\nz", 12, b"c", 5, 1),
    (b"/*\n# 5 \"c\"\n*/ z", 14, b"own", 3, 4),
    (b"'/*\n# 5 \"c\"\nz", 12, b"c", 5, 1),
    (b"//*\n#5\"c\"\nz", 10, b"c", 5, 1),
];

/// Whether a map has an offset at a place.
fn has_place(map: &PlaceMap, offset: u32, name: &[u8], line: u32, column: u32) -> bool {
    let found = place(map, offset);
    found.name == name && found.line == line && found.column == column
}

/// Whether a text, no larger than a file may be, has an offset at a place, by each call that makes a
/// map.
pub fn is_place(
    alloc: Global,
    text: &[u8],
    offset: u32,
    name: &[u8],
    line: u32,
    column: u32,
) -> Result<bool, OutOfMemory> {
    if text.len() > 1_048_576 {
        return Ok(false);
    }
    let alone = has_place(&place_map(alloc, "own", text)?, offset, name, line, column);
    let scanned = scan(alloc, 0, "own", text)?;
    Ok(alone && has_place(&scanned.places, offset, name, line, column))
}

#[test]
fn places_of_offsets(rt: HostRuntime) -> Result<(), Fail> {
    for (text, offset, name, line, column) in PLACES {
        let right = is_place(rt.alloc(), text, offset, name, line, column)?;
        assert!(rt; right, "at {offset} of {text:?}");
    }
    Ok(())
}
