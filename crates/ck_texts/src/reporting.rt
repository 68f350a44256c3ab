//! The report of a verdict.
ghost use Rattle.std.specs.Prelude.{◌≡◌, ◌<◌, ◌++◌, List, All, length, map, IfOk, OnOk};
ghost use Rattle.ck_graph.specs.Faults.{IsSound};
ghost use Rattle.ck_graph.specs.Flow.{function_count, point_at, point_count};
ghost use Rattle.ck_segments.specs.Plain.{segment_of};
ghost use Rattle.ck_texts.specs.Lines as lines;
ghost use Rattle.ck_texts.specs.Lines.{numbered};
ghost use Rattle.ck_texts.specs.Placed.{AreMapsOf, AreNamesOf, IsOutcomeOf, IsPathOf, IsReport, IsSegmentOf};
ghost use Rattle.ck_texts.specs.Printing.{place_by};
ghost use Rattle.ck_texts.specs.Report as spec;
ghost use Rattle.ck_texts.specs.Views.{File, names_of, outcome_of, path_of};

use crate::names::NameBook;
use crate::steps::{push_segment, push_site};
use crate::verdicts::{Alarm, Counts, Verdict};
use crate::words::{act_name, function_name, push_kind, push_line, push_number};
use ck_base::{FnId, OutOfMemory, PointId};
use ck_graph::{Graph, PointKind, Roots};
use ck_segments::Segment;
use ck_summary::AlarmAt;
use std::alloc::Global;

/// The report of a verdict: how much was accepted, or each alarm with the way to it (docs/REPORT.md).
///
/// The names are the graph's: there is one for each of its functions, one for each outside function that an
/// act names, each row that an act names is one of the kernel's table, and each site that has bytes begins
/// within the file of its map or at its end. Each root names a function of the graph. The numbers in each
/// alarm and its path are those of a root and of points and functions of the graph; a path that leads from a
/// root to the alarm has no others. Names and places are printed as their bytes are, also where these aren't
/// UTF-8.
pub fn report_text(
    alloc: Global,
    graph: &Graph,
    roots: &Roots,
    names: &NameBook,
    verdict: &Verdict,
) -> Result<Vec<u8>, OutOfMemory>
    requires names { AreNamesOf graph.now (names_of names.now) names.now.maps.items }
    requires roots { All (λ root. root.function.0 < function_count graph.now) roots.now.list.items }
    requires verdict { IsOutcomeOf graph.now roots.now.list.items (outcome_of verdict.now) }
    ensures { IfOk result (λ text. (files : List File) → AreMapsOf files names.now.maps.items
        → IsReport files graph.now roots.now.list.items (names_of names.now) (outcome_of verdict.now) text.items) }
{
    graph_is_sound(graph);
    match verdict {
        Verdict::Accepted(counts) => accepted(alloc, *counts),
        Verdict::Rejected(alarms) => rejected(alloc, graph, roots, names, alarms),
    }
}

/// A graph has no fault.
fn graph_is_sound(graph: &Graph)
    ensures { IsSound graph.now }
{
    let _points = graph.points();
}

/// The report of an accepted project.
fn accepted(alloc: Global, counts: Counts) -> Result<Vec<u8>, OutOfMemory>
    ensures { IfOk result (λ text. text.items ≡ spec.accepted_text counts) }
{
    let mut text = Vec::new(alloc);
    push_line(&mut text, "rtcheck 1")?;
    push_line(&mut text, "accepted")?;
    push_number(alloc, &mut text, "files ", counts.files as u64, b' ')?;
    push_number(
        alloc,
        &mut text,
        "functions ",
        counts.functions as u64,
        b' ',
    )?;
    push_number(alloc, &mut text, "entries ", counts.entries as u64, b'\n')?;
    Ok(text)
}

/// The report of a rejected project.
fn rejected(
    alloc: Global,
    graph: &Graph,
    roots: &Roots,
    names: &NameBook,
    alarms: &[Alarm],
) -> Result<Vec<u8>, OutOfMemory>
    requires sound { IsSound graph.now }
    requires names { AreNamesOf graph.now (names_of names.now) names.now.maps.items }
    requires roots { All (λ root. root.function.0 < function_count graph.now) roots.now.list.items }
    requires alarms { All (IsPathOf graph.now roots.now.list.items) (map path_of alarms.now) }
    ensures { IfOk result (λ text. text.items ≡ spec.rejected_text graph.now roots.now.list.items (names_of names.now)
        (place_by names.now.maps.items) (map path_of alarms.now)) }
{
    let mut text = Vec::new(alloc);
    push_line(&mut text, "rtcheck 1")?;
    push_number(alloc, &mut text, "rejected ", alarms.len() as u64, b'\n')?;
    push_alarms(alloc, &mut text, graph, roots, names, alarms)?;
    Ok(text)
}

/// Adds alarms, which are numbered from 1.
fn push_alarms(
    alloc: Global,
    text: &mut Vec<u8>,
    graph: &Graph,
    roots: &Roots,
    names: &NameBook,
    alarms: &[Alarm],
) -> Result<(), OutOfMemory>
    requires sound { IsSound graph.now }
    requires names { AreNamesOf graph.now (names_of names.now) names.now.maps.items }
    requires roots { All (λ root. root.function.0 < function_count graph.now) roots.now.list.items }
    requires alarms { All (IsPathOf graph.now roots.now.list.items) (map path_of alarms.now) }
    ensures { OnOk result (text.new.items ≡ text.old.items ++ numbered
        (spec.alarm_text graph.now roots.now.list.items (names_of names.now) (place_by names.now.maps.items)) 1
        (map path_of alarms.now)) }
{
    for index in 0..alarms.len() {
        push_alarm(alloc, text, graph, roots, names, index + 1, &alarms[index])?;
    }
    Ok(())
}

/// Adds an alarm and its number: its line, the entry, and the segments of the path.
fn push_alarm(
    alloc: Global,
    text: &mut Vec<u8>,
    graph: &Graph,
    roots: &Roots,
    names: &NameBook,
    number: usize,
    alarm: &Alarm,
) -> Result<(), OutOfMemory>
    requires sound { IsSound graph.now }
    requires names { AreNamesOf graph.now (names_of names.now) names.now.maps.items }
    requires roots { All (λ root. root.function.0 < function_count graph.now) roots.now.list.items }
    requires alarm { IsPathOf graph.now roots.now.list.items (path_of alarm.now) }
    ensures { OnOk result (text.new.items ≡ text.old.items ++ spec.alarm_text graph.now roots.now.list.items
        (names_of names.now) (place_by names.now.maps.items) number (path_of alarm.now)) }
{
    push_alarm_line(alloc, text, graph, names, number, &alarm.at)?;
    push_entry(text, names, root_function(roots, alarm.path.root))?;
    push_segments(alloc, text, graph, names, &alarm.path.list)
}

/// What the act of a point is called.
fn called_name<'a>(graph: &Graph, names: &'a NameBook, point: PointId) -> &'a [u8]
    requires names { AreNamesOf graph.now (names_of names.now) names.now.maps.items }
    requires there { point.0 < point_count graph.now }
    ensures { result.now ≡ spec.called_name (names_of names.now) (point_at graph.now point.0).kind }
{
    match *graph.kind(point) {
        PointKind::Act(_, act) => act_name(names, act),
        PointKind::Plain => &[],
        PointKind::Call(_) => &[],
        PointKind::Exit => &[],
    }
}

/// Adds the line of an alarm: its number, kind, place and name.
fn push_alarm_line(
    alloc: Global,
    text: &mut Vec<u8>,
    graph: &Graph,
    names: &NameBook,
    number: usize,
    at: &AlarmAt,
) -> Result<(), OutOfMemory>
    requires names { AreNamesOf graph.now (names_of names.now) names.now.maps.items }
    requires there { at.now.point.0 < point_count graph.now }
    ensures { OnOk result (text.new.items ≡ text.old.items ++ spec.alarm_line graph.now (names_of names.now)
        (place_by names.now.maps.items) number at.now) }
{
    push_number(alloc, text, "alarm ", number as u64, b' ')?;
    push_kind(alloc, text, at.kind)?;
    text.push(b' ')?;
    push_site(alloc, text, graph, names, at.point)?;
    text.push(b' ')?;
    text.extend_from_slice(called_name(graph, names, at.point))?;
    text.push(b'\n')?;
    Ok(())
}

/// A text without its first and its last byte.
fn within_brackets(text: &[u8]) -> &[u8]
    ensures { result.now ≡ lines.within_brackets text.now }
{
    match text {
        [_, inside @ .., _] => inside,
        _ => &[],
    }
}

/// The function of a root.
fn root_function(roots: &Roots, root: u32) -> FnId
    requires { root < length roots.now.list.items }
    ensures { result ≡ spec.root_function roots.now.list.items root }
{
    roots.list[root as usize].function
}

/// Adds the entry, by the name of the root's function.
fn push_entry(text: &mut Vec<u8>, names: &NameBook, function: FnId) -> Result<(), OutOfMemory>
    requires { function.0 < length (names_of names.now).functions }
    ensures { OnOk result (text.new.items ≡ text.old.items ++ spec.entry_line (names_of names.now) function) }
{
    text.extend_from_slice("entry ".as_bytes())?;
    text.extend_from_slice(within_brackets(function_name(names, function)))?;
    text.push(b'\n')?;
    Ok(())
}

/// Adds the segments of a path, which are numbered from 1.
fn push_segments(
    alloc: Global,
    text: &mut Vec<u8>,
    graph: &Graph,
    names: &NameBook,
    segments: &[Segment],
) -> Result<(), OutOfMemory>
    requires sound { IsSound graph.now }
    requires names { AreNamesOf graph.now (names_of names.now) names.now.maps.items }
    requires segments { All (IsSegmentOf graph.now) (map segment_of segments.now) }
    ensures { OnOk result (text.new.items ≡ text.old.items ++ numbered
        (spec.segment_text graph.now (names_of names.now) (place_by names.now.maps.items) (length segments.now)) 1
        (map segment_of segments.now)) }
{
    let count = segments.len();
    for index in 0..count {
        push_segment(
            alloc,
            text,
            graph,
            names,
            count,
            index + 1,
            &segments[index],
        )?;
    }
    Ok(())
}
