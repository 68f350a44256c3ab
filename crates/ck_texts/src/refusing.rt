//! The text of a refusal.
ghost use Rattle.std.specs.Prelude.{◌≡◌, ◌<◌, ◌++◌, map, length, string_bytes, IfOk, OnOk};
ghost use Rattle.ck_texts.specs.Placed.{IsRefusalText, IsSpotOf};
ghost use Rattle.ck_texts.specs.Printing.{file_name_of, spot_text};
ghost use Rattle.ck_texts.specs.Texts as spec;
ghost use Rattle.ck_texts.specs.Views.{file_of};

use crate::words::{place_at, push_line, push_number, push_place};
use ck_base::{OutOfMemory, Refusal, SourceFile, Spot, number, words};
use ck_lexer::PlaceMap;
use std::alloc::Global;

/// The text of a refusal of a project: what is refused, where, and why (docs/REPORT.md, "Refused").
///
/// The number in the refusal's spot is that of a file. Where the spot is at bytes of it, they begin within the
/// file or at its end, and the map of that number is the file's.
pub fn refusal_text(
    alloc: Global,
    files: &[SourceFile],
    maps: &[PlaceMap],
    refusal: &Refusal,
) -> Result<Vec<u8>, OutOfMemory>
    requires { IsSpotOf (map file_of files.now) maps.now refusal.now.at }
    ensures { IfOk result (λ text. IsRefusalText (map file_of files.now) refusal.now text.items) }
{
    let mut text = Vec::new(alloc);
    push_line(&mut text, "rtcheck 1")?;
    let number = number(&refusal.kind);
    push_number(alloc, &mut text, "unsupported U", number as u64, b' ')?;
    push_spot(alloc, &mut text, files, maps, &refusal.at)?;
    text.push(b' ')?;
    push_line(&mut text, words(&refusal.kind))?;
    Ok(text)
}

/// Adds a place, a file's name or `-`.
fn push_spot(
    alloc: Global,
    text: &mut Vec<u8>,
    files: &[SourceFile],
    maps: &[PlaceMap],
    spot: &Spot,
) -> Result<(), OutOfMemory>
    requires { IsSpotOf (map file_of files.now) maps.now spot.now }
    ensures { OnOk result (text.new.items ≡ text.old.items ++ spot_text (map file_of files.now) maps.now spot.now) }
{
    match *spot {
        Spot::Nowhere => text.push(b'-')?,
        Spot::File(file) => text.extend_from_slice(file_name(files, file))?,
        Spot::At(span) => push_place(alloc, text, place_at(maps, span))?,
    }
    Ok(())
}

/// The name of a file.
fn file_name(files: &[SourceFile], file: u32) -> &[u8]
    requires { file < length (map file_of files.now) }
    ensures { result.now ≡ file_name_of (map file_of files.now) file }
{
    files[file as usize].name.as_bytes()
}
