//! Refusals of two files, and their texts.
ghost use Rattle.std.specs.Prelude.{◌≡◌, map, string_bytes, IfOk};
ghost use Rattle.std.specs.Bool.{OnTrue};
ghost use Rattle.ck_texts.specs.Placed.{IsSpotOf};
ghost use Rattle.ck_texts.specs.Views.{file_of};
ghost use Rattle.ck_texts_tests.specs.Fitting.{IsSecond};

use crate::projects::map_of;
use ck_base::Unsupported::{self, U2, U5, U7, U13, U23, U25};
use ck_base::{OutOfMemory, Refusal, SourceFile, Span, Spot};
use ck_lexer::PlaceMap;
use ck_texts::refusal_text;
use std::alloc::Global;
use std::test::Fail;

/// A text of main.i, what is refused, the offset of its bytes, and the line that says so.
const AT_BYTES: [(&str, Unsupported, u32, &str); 5] = [
    (
        "# 7 \"main.c\"\nunion u { int a; };\n",
        U5,
        13,
        "unsupported U5 main.c:7:1 reserved word outside the subset",
    ),
    (
        "int main(void) { return 0; } /* end",
        U2,
        29,
        "unsupported U2 main.i:1:30 unclosed comment or literal",
    ),
    (
        "int main(void) { return 0 }\n",
        U7,
        26,
        "unsupported U7 main.i:1:27 syntax",
    ),
    // the file's end
    (
        "int main(void) {\n",
        U7,
        17,
        "unsupported U7 main.i:2:1 syntax",
    ),
    (
        "# 1 \"a\\\"b\"\nint main(void) { chPoolFree(0, 0); }",
        U13,
        28,
        "unsupported U13 a\\\"b:1:18 kernel name outside the table",
    ),
];

fn file(alloc: Global, name: &str, text: &str) -> Result<SourceFile, OutOfMemory>
    ensures name { IfOk result (λ file. string_bytes file.name ≡ name.now) }
    ensures bytes { IfOk result (λ file. file.bytes.items ≡ text.now) }
{
    Ok(SourceFile {
        name: String::from_str(alloc, name)?,
        bytes: Vec::from_slice(alloc, text.as_bytes())?,
    })
}

/// Whether a text is the first line and this one.
fn is_line(text: &[u8], line: &str) -> bool {
    match text.strip_prefix(b"rtcheck 1\n".as_slice()) {
        Some(rest) => rest.strip_suffix(b"\n".as_slice()) == Some(line.as_bytes()),
        None => false,
    }
}

/// Two files, of which the second is main.i with a text, and their maps.
#[derive(Drop)]
struct Files {
    list: Vec<SourceFile>,
    maps: Vec<PlaceMap>,
}

fn files_with(alloc: Global, text: &str) -> Result<Files, Fail>
    ensures { IfOk result (λ files. IsSecond files.list.items files.maps.items text.now) }
{
    let map = map_of(alloc, text)?.ok_or("too long")?;
    let empty = map_of(alloc, "")?.ok_or("too long")?;
    let big = file(alloc, "big.i", "")?;
    let main = file(alloc, "main.i", text)?;
    let mut list = Vec::new(alloc);
    list.push(big)?;
    list.push(main)?;
    let mut maps = Vec::new(alloc);
    maps.push(empty)?;
    maps.push(map)?;
    Ok(Files { list, maps })
}

/// Whether a spot is none, that of a file, or in the second file.
fn is_spot(files: &Files, text: &str, at: &Spot) -> bool
    requires { IsSecond files.now.list.items files.now.maps.items text.now }
    ensures { OnTrue result (IsSpotOf (map file_of files.now.list.items) files.now.maps.items at.now) }
{
    match *at {
        Spot::Nowhere => true,
        Spot::File(number) => (number as usize) < files.list.len(),
        Spot::At(span) => span.file == 1 && span.start as usize <= text.len(),
    }
}

/// Whether a refusal of the two files is told by this line.
fn is_told(
    alloc: Global,
    text: &str,
    kind: Unsupported,
    at: Spot,
    line: &str,
) -> Result<bool, Fail> {
    let files = files_with(alloc, text)?;
    let refusal = Refusal { kind, at };
    if is_spot(&files, text, &refusal.at) {
        let told = refusal_text(alloc, &files.list, &files.maps, &refusal)?;
        Ok(is_line(&told, line))
    } else {
        Ok(false)
    }
}

#[test]
fn texts_of_refusals_at_bytes(rt: HostRuntime) -> Result<(), Fail> {
    for (text, kind, start, line) in AT_BYTES {
        let at = Spot::At(Span {
            file: 1,
            start,
            end: start,
        });
        assert!(rt; is_told(rt.alloc(), text, kind, at, line)?, "{line}");
    }
    Ok(())
}

const ELSEWHERE: [(Unsupported, Spot, &str); 3] = [
    (
        U23,
        Spot::Nowhere,
        "unsupported U23 - main absent or of another type",
    ),
    (U25, Spot::File(0), "unsupported U25 big.i too large"),
    (U25, Spot::File(1), "unsupported U25 main.i too large"),
];

#[test]
fn texts_of_other_refusals(rt: HostRuntime) -> Result<(), Fail> {
    for (kind, at, line) in ELSEWHERE {
        assert!(rt; is_told(rt.alloc(), "", kind, at, line)?, "{line}");
    }
    Ok(())
}
