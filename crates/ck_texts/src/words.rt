//! What lines are made of: numbers, places, kinds and names.
ghost use Rattle.std.specs.Prelude.{◌≡◌, ◌<◌, [], ◌∷◌, ◌++◌, codes, length, slice_index_or, OnOk};
ghost use Rattle.std.specs.Fmt.{decimal};
ghost use Rattle.ck_lexer.specs.PlaceMaps.{place_of};
ghost use Rattle.ck_texts.specs.Lines.{kind_text, line, place_text, site_text};
ghost use Rattle.ck_texts.specs.Placed.{HasActName, HasPlace, IsSitePlaced};
ghost use Rattle.ck_texts.specs.Printing.{place_by};
ghost use Rattle.ck_texts.specs.Report as spec;
ghost use Rattle.ck_texts.specs.Views.{names_of};

use crate::names::NameBook;
use ck_base::{FnId, Kind, OutOfMemory, Span, Spot};
use ck_graph::ActName;
use ck_lexer::{PlaceMap, PlaceName, place};
use std::alloc::Global;

/// Adds a line.
pub(crate) fn push_line(text: &mut Vec<u8>, words: &str) -> Result<(), OutOfMemory>
    ensures { OnOk result (text.new.items ≡ text.old.items ++ line words.now) }
{
    text.extend_from_slice(words.as_bytes())?;
    text.push(b'\n')?;
    Ok(())
}

/// Adds words, a number and one byte more.
pub(crate) fn push_number(
    alloc: Global,
    text: &mut Vec<u8>,
    words: &str,
    number: u64,
    end: u8,
) -> Result<(), OutOfMemory>
    ensures { OnOk result (text.new.items ≡ text.old.items ++ (words.now ++ (decimal number ++ end ∷ []))) }
{
    let digits = format!(in alloc; "{number}")?;
    text.extend_from_slice(words.as_bytes())?;
    text.extend_from_slice(digits.as_bytes())?;
    text.push(end)?;
    Ok(())
}

/// Adds a name, a line and a column.
pub(crate) fn push_place(
    alloc: Global,
    text: &mut Vec<u8>,
    place: PlaceName<'_>,
) -> Result<(), OutOfMemory>
    ensures { OnOk result (text.new.items ≡ text.old.items ++ place_text (place_of place.entry)) }
{
    let line = place.line;
    let column = place.column;
    let numbers = format!(in alloc; ":{line}:{column}")?;
    text.extend_from_slice(place.name)?;
    text.extend_from_slice(numbers.as_bytes())?;
    Ok(())
}

/// Where a span begins.
pub(crate) fn place_at(maps: &[PlaceMap], span: Span) -> PlaceName<'_>
    requires { HasPlace maps.now span }
    ensures { place_of result ≡ place_by maps.now span }
{
    place(&maps[span.file as usize], span.start)
}

/// Adds the place of a point, or `-`.
pub(crate) fn push_spot(
    alloc: Global,
    text: &mut Vec<u8>,
    maps: &[PlaceMap],
    site: &Spot,
) -> Result<(), OutOfMemory>
    requires { IsSitePlaced maps.now site.now }
    ensures { OnOk result (text.new.items ≡ text.old.items ++ site_text (place_by maps.now) site.now) }
{
    match *site {
        Spot::At(span) => push_place(alloc, text, place_at(maps, span)),
        Spot::Nowhere => push_none(text),
        Spot::File(_) => push_none(text),
    }
}

/// Adds what stands for no place.
fn push_none(text: &mut Vec<u8>) -> Result<(), OutOfMemory>
    ensures { OnOk result (text.new.items ≡ text.old.items ++ codes "-") }
{
    text.push(b'-')?;
    Ok(())
}

/// Adds the kind of an alarm.
pub(crate) fn push_kind(alloc: Global, text: &mut Vec<u8>, kind: Kind) -> Result<(), OutOfMemory>
    ensures { OnOk result (text.new.items ≡ text.old.items ++ kind_text kind) }
{
    let words = match kind {
        Kind::Sv(number) => format!(in alloc; "SV#{number}")?,
        Kind::Order => String::from_str(alloc, "ORDER")?,
        Kind::P(number) => format!(in alloc; "P#{number}")?,
    };
    text.extend_from_slice(words.as_bytes())?;
    Ok(())
}

/// The name of a function.
pub(crate) fn function_name(names: &NameBook, function: FnId) -> &[u8]
    requires { function.0 < length (names_of names.now).functions }
    ensures { result.now ≡ spec.function_name (names_of names.now) function }
{
    names.functions[function.0 as usize].text.as_bytes()
}

/// The name of an outside function.
fn outside_name(names: &NameBook, number: u32) -> &[u8]
    requires { number < length (names_of names.now).outside }
    ensures { result.now ≡ slice_index_or (names_of names.now).outside number [] }
{
    names.outside[number as usize].as_bytes()
}

/// What an act is called.
pub(crate) fn act_name(names: &NameBook, act: ActName) -> &[u8]
    requires { HasActName (names_of names.now) act }
    ensures { result.now ≡ spec.act_name (names_of names.now) act }
{
    match act {
        ActName::Kernel(row) => ck_kernel::name(row).as_bytes(),
        ActName::Outside(number) => outside_name(names, number),
        ActName::Return => "return".as_bytes(),
        ActName::ThreadReturn => "thread return".as_bytes(),
        ActName::Entry => "entry".as_bytes(),
    }
}
