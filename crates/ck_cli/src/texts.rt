//! The texts of the report.
ghost use Rattle.std.specs.Prelude.{◌≡◌, ◌≤◌, ◌++◌, length, IfOk, OnOk};
ghost use Rattle.ck_lexer.specs.PlaceMaps.{place_of};
ghost use Rattle.ck_cli.specs.Placed.{IsAlarmText, IsRefusalText};
ghost use Rattle.ck_cli.specs.Sources.{AreWithin, HasPlaces};
ghost use Rattle.ck_cli.specs.Written.{IsActWritten, AreActsWritten};
ghost use Rattle.ck_cli.specs.Texts.{
  accepted_text,
  alarm_line,
  at_place,
  entry_lines,
  kind_text,
  line,
  place_text,
  unsupported_text,
};

use crate::calls::{KernelCall, name};
use crate::form::Call;
use crate::source::Source;
use crate::walk::FirstAlarm;
use ck_base::{Kind, OutOfMemory, Unsupported, number, words};
use ck_lexer::PlaceName;
use std::alloc::Global;

/// Adds a line.
fn push_line(text: &mut Vec<u8>, words: &str) -> Result<(), OutOfMemory>
    ensures { OnOk result (text.new.items ≡ text.old.items ++ line words.now) }
{
    text.extend_from_slice(words.as_bytes())?;
    text.push(b'\n')?;
    Ok(())
}

/// Adds a place.
fn push_place(alloc: Global, text: &mut Vec<u8>, place: PlaceName<'_>) -> Result<(), OutOfMemory>
    ensures { OnOk result (text.new.items ≡ text.old.items ++ place_text (place_of place.entry)) }
{
    let line = place.line;
    let column = place.column;
    let numbers = format!(in alloc; ":{line}:{column}")?;
    text.extend_from_slice(place.name)?;
    text.extend_from_slice(numbers.as_bytes())?;
    Ok(())
}

/// Adds a place and a name, and ends the line.
fn push_named(
    alloc: Global,
    text: &mut Vec<u8>,
    place: PlaceName<'_>,
    name: &str,
) -> Result<(), OutOfMemory>
    ensures { OnOk result (text.new.items ≡ text.old.items ++ at_place (place_of place.entry) name.now) }
{
    text.push(b' ')?;
    push_place(alloc, text, place)?;
    text.push(b' ')?;
    push_line(text, name)
}

/// Adds the kind of an alarm.
fn push_kind(alloc: Global, text: &mut Vec<u8>, kind: Kind) -> Result<(), OutOfMemory>
    ensures { OnOk result (text.new.items ≡ text.old.items ++ kind_text kind) }
{
    let words = match kind {
        Kind::Sv(number) => format!(in alloc; "SV#{number}")?,
        Kind::Order => String::from_str(alloc, "ORDER")?,
        Kind::P(number) => format!(in alloc; "P#{number}")?,
    };
    text.extend_from_slice(words.as_bytes())?;
    Ok(())
}

/// Adds the line of a call that was taken.
fn push_act(
    alloc: Global,
    text: &mut Vec<u8>,
    source: &Source<'_>,
    made: Call,
) -> Result<(), OutOfMemory>
    requires places { HasPlaces source.now }
    requires within { made.start ≤ length source.now.bytes.now }
    ensures { OnOk result (IsActWritten source.now.bytes.now made text.old.items text.new.items) }
{
    text.extend_from_slice("  act".as_bytes())?;
    push_named(alloc, text, source.place(made.start), name(made.call))
}

/// Adds a line for each call that was taken.
fn push_acts(
    alloc: Global,
    text: &mut Vec<u8>,
    source: &Source<'_>,
    calls: &[Call],
) -> Result<(), OutOfMemory>
    requires places { HasPlaces source.now }
    requires within { AreWithin source.now calls.now }
    ensures { OnOk result (AreActsWritten source.now.bytes.now calls.now text.old.items text.new.items) }
{
    for made in calls {
        push_act(alloc, text, source, *made)?;
    }
    Ok(())
}

/// Adds the line of the alarm.
fn push_alarm(
    alloc: Global,
    text: &mut Vec<u8>,
    place: PlaceName<'_>,
    call: KernelCall,
    kind: Kind,
) -> Result<(), OutOfMemory>
    ensures { OnOk result (text.new.items
        ≡ text.old.items ++ alarm_line (record { call = call; place = place_of place.entry }) kind) }
{
    text.extend_from_slice("alarm 1 ".as_bytes())?;
    push_kind(alloc, text, kind)?;
    push_named(alloc, text, place, name(call))
}

/// Adds the way from the entry into `main`.
fn push_entry(alloc: Global, text: &mut Vec<u8>, main: PlaceName<'_>) -> Result<(), OutOfMemory>
    ensures { OnOk result (text.new.items ≡ text.old.items ++ entry_lines (place_of main.entry)) }
{
    push_line(text, "entry main")?;
    push_line(text, "segment 1 [main]")?;
    text.extend_from_slice("  enter".as_bytes())?;
    push_named(alloc, text, main, "main")
}

/// The text of an accepted project.
pub(crate) fn accepted(alloc: Global) -> Result<Vec<u8>, OutOfMemory>
    ensures { IfOk result (λ text. text.items ≡ accepted_text) }
{
    let mut text = Vec::new(alloc);
    push_line(&mut text, "rtcheck 1")?;
    push_line(&mut text, "accepted")?;
    push_line(&mut text, "files 1 functions 1 entries 1")?;
    Ok(text)
}

/// The text of a refusal. `place` is what is printed for its place.
pub(crate) fn unsupported(
    alloc: Global,
    kind: Unsupported,
    place: &[u8],
) -> Result<Vec<u8>, OutOfMemory>
    ensures { IfOk result (λ text. text.items ≡ unsupported_text kind place.now) }
{
    let mut text = Vec::new(alloc);
    let number = number(&kind);
    let prefix = format!(in alloc; "unsupported U{number} ")?;
    push_line(&mut text, "rtcheck 1")?;
    text.extend_from_slice(prefix.as_bytes())?;
    text.extend_from_slice(place)?;
    text.push(b' ')?;
    push_line(&mut text, words(&kind))?;
    Ok(text)
}

/// The text of a refusal at an offset of `main.i`.
pub(crate) fn unsupported_at(
    alloc: Global,
    source: &Source<'_>,
    kind: Unsupported,
    offset: u32,
) -> Result<Vec<u8>, OutOfMemory>
    requires places { HasPlaces source.now }
    requires within { offset ≤ length source.now.bytes.now }
    ensures { IfOk result (λ text. IsRefusalText source.now.bytes.now kind offset text.items) }
{
    let mut place = Vec::new(alloc);
    push_place(alloc, &mut place, source.place(offset))?;
    unsupported(alloc, kind, &place)
}

/// The text of a rejected project: its alarm, and the walk to it. The name `main` begins at an offset.
pub(crate) fn rejected(
    alloc: Global,
    source: &Source<'_>,
    main: u32,
    alarm: &FirstAlarm<'_>,
) -> Result<Vec<u8>, OutOfMemory>
    requires places { HasPlaces source.now }
    requires entry { main ≤ length source.now.bytes.now }
    requires acts { AreWithin source.now alarm.now.before.now }
    requires last { alarm.now.call.start ≤ length source.now.bytes.now }
    ensures { IfOk result (λ text.
        IsAlarmText source.now.bytes.now main alarm.now.before.now alarm.now.call alarm.now.kind text.items) }
{
    let mut text = Vec::new(alloc);
    push_line(&mut text, "rtcheck 1")?;
    push_line(&mut text, "rejected 1")?;
    push_alarm(
        alloc,
        &mut text,
        source.place(alarm.call.start),
        alarm.call.call,
        alarm.kind,
    )?;
    push_entry(alloc, &mut text, source.place(main))?;
    push_line(&mut text, "segment 2 main")?;
    push_acts(alloc, &mut text, source, alarm.before)?;
    push_line(&mut text, "  alarm")?;
    Ok(text)
}
