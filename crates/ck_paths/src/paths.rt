//! Paths to alarms.
ghost use Rattle.std.specs.Prelude.{◌≡◌, ◌<◌, ℕ, All, map, IfOk};
ghost use Rattle.ck_graph.specs.Flow.{function_count};
ghost use Rattle.ck_graph.specs.Forbidden.{ReachesAlarm, AreAlarms};
ghost use Rattle.ck_segments.specs.Plain.{segments_of};
ghost use Rattle.ck_segments.specs.Paths.{IsPathToAlarm};
ghost use Rattle.ck_summary.specs.Solution.{IsMadeFor};
ghost use Rattle.ck_summary.specs.Alarms.{alarm_of, alarms_of};
ghost use Rattle.ck_paths.specs.Justified.{AreJustified};
ghost use Rattle.ck_paths.specs.Search.{IsReady};
ghost use Rattle.ck_paths.specs.Tracing.{IsRaisedAt};
ghost use Rattle.ck_paths.specs.Promise.{HasPath, at_of};

use crate::building::{segments_to, unfinished};
use crate::exits::exits_for;
use crate::found::Found;
use crate::raising::raised_at;
use crate::search::search_from;
use ck_base::OutOfMemory;
use ck_graph::{Graph, Root, Roots};
use ck_segments::Segments;
use ck_summary::{AlarmAt, Table};
use ck_texts::Alarm;
use std::alloc::Global;

/// A path to an alarm that a walk from the roots reaches: segments in form that expand to a walk from
/// the root which they name to the alarm. The table was made for this graph. Which of several walks
/// comes is open. Many alarms of one graph are better asked of `paths_to`, which searches once.
pub fn path_to(
    alloc: Global,
    graph: &Graph,
    roots: &Roots,
    table: &Table,
    alarm: &AlarmAt,
) -> Result<Segments, OutOfMemory>
    requires table { IsMadeFor graph.now table.now }
    requires roots { All (λ root. root.function.0 < function_count graph.now) roots.now.list.items }
    requires alarm { ReachesAlarm graph.now roots.now.list.items (alarm_of alarm.now) }
    ensures { IfOk
        result
        (λ path. IsPathToAlarm graph.now roots.now.list.items (segments_of path) (alarm_of alarm.now)) }
{
    let found = search_from(alloc, graph, &roots.list, table)?;
    path_in(alloc, graph, &roots.list, &found, alarm)
}

/// The alarms that walks from the roots reach, as `alarms` gives them, each with a path to it. There
/// is one search for all.
pub fn paths_to(
    alloc: Global,
    graph: &Graph,
    roots: &Roots,
    table: &Table,
    alarms: &[AlarmAt],
) -> Result<Vec<Alarm>, OutOfMemory>
    requires table { IsMadeFor graph.now table.now }
    requires roots { All (λ root. root.function.0 < function_count graph.now) roots.now.list.items }
    requires alarms { AreAlarms graph.now roots.now.list.items (alarms_of alarms.now) }
    ensures same { IfOk result (λ list. map at_of list.items ≡ alarms.now) }
    ensures paths { IfOk result (λ list. All (HasPath graph.now roots.now.list.items) list.items) }
{
    let found = search_from(alloc, graph, &roots.list, table)?;
    let mut list = Vec::new(alloc);
    for alarm in alarms {
        let path = path_in(alloc, graph, &roots.list, &found, alarm)?;
        list.push(Alarm { at: *alarm, path })?;
    }
    Ok(list)
}

/// A path to an alarm that a place of a search raises.
fn path_in(
    alloc: Global,
    graph: &Graph,
    roots: &[Root],
    found: &Found,
    alarm: &AlarmAt,
) -> Result<Segments, OutOfMemory>
    requires ready { IsReady graph.now found.now.places.items found.now.last.items }
    requires justified { AreJustified graph.now roots.now found.now.places.items }
    requires raised { (n : ℕ) × IsRaisedAt graph.now found.now.places.items (alarm_of alarm.now) n }
    ensures { IfOk
        result
        (λ path. IsPathToAlarm graph.now roots.now (segments_of path) (alarm_of alarm.now)) }
{
    let _points = graph.points();
    let number = raised_at(graph, found, alarm);
    let exits = exits_for(alloc, graph, roots, found, number)?;
    let mut list = segments_to(alloc, graph, roots, found, &exits)?;
    let mut opened = unfinished(alloc, graph, roots, found, &exits, number)?;
    list.append(&mut opened.list)?;
    let root = opened.root;
    Ok(Segments { root, list })
}
