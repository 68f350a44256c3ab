//! A checker of paths. It takes a graph, roots, segments and an alarm, and walks the segments one by
//! one, each once; a finished one from each state.
ghost use Rattle.std.specs.Prelude.{◌<◌};
ghost use Rattle.ck_graph.specs.Flow.{point_count};

use ck_base::{FnId, PointId, State};
use ck_graph::{Graph, PointKind, Roots};
use ck_segments::{Segment, Segments, Step};
use ck_states::{Outcome, act};
use ck_summary::AlarmAt;
use std::alloc::Global;
use std::test::Fail;

const STATES: [State; 16] = [
    State::TI,
    State::TN,
    State::TS,
    State::TD,
    State::TL,
    State::TP,
    State::HB,
    State::HO,
    State::HL,
    State::HE,
    State::FF,
    State::XL,
    State::NL,
    State::NP,
    State::OX,
    State::ON,
];

/// Where a context is, and in which state.
#[derive(Clone, Copy)]
struct Here {
    point: PointId,
    state: State,
}

/// A function that was walked through, and the states in which it was entered and left.
#[derive(Drop)]
struct Through {
    function: FnId,
    ends: Vec<(State, State)>,
}

/// Along an edge of a plain point or an act.
fn along_edge(graph: &Graph, here: Here, edge: u32) -> Option<Here>
    requires { here.point.0 < point_count graph.now }
{
    let there = graph.edges(here.point).get(edge as usize)?;
    match graph.kind(here.point) {
        PointKind::Plain => Some(Here {
            point: there.to,
            state: here.state,
        }),
        PointKind::Act(op, _) => match act(*op, here.state) {
            Outcome::Next(state) => (edge == 0).then_some(Here {
                point: there.to,
                state,
            }),
            _ => None,
        },
        _ => None,
    }
}

/// Whether a point is a call that may enter a function.
fn may_enter(graph: &Graph, point: PointId, target: FnId) -> bool
    requires { point.0 < point_count graph.now }
{
    if !matches!(graph.kind(point), PointKind::Call(_)) {
        return false;
    }
    graph.targets(point).iter().any(|f| f.0 == target.0)
}

/// Over a call that returns, by the segment that it cites.
fn over_call(
    graph: &Graph,
    lower: &[Through],
    here: Here,
    target: FnId,
    segment: u32,
) -> Option<Here>
    requires { here.point.0 < point_count graph.now }
{
    let through = lower.get(segment as usize)?;
    if !may_enter(graph, here.point, target) || through.function.0 != target.0 {
        return None;
    }
    let there = graph.edges(here.point).first()?;
    for (entered, left) in &through.ends {
        if *entered == here.state {
            return Some(Here {
                point: there.to,
                state: *left,
            });
        }
    }
    None
}

/// A step that stays in its function.
fn step_on(graph: &Graph, lower: &[Through], here: Here, step: &Step) -> Option<Here> {
    if here.point.0 >= graph.points() {
        return None;
    }
    match *step {
        Step::Edge(edge) => along_edge(graph, here, edge),
        Step::Call { target, segment } => over_call(graph, lower, here, target, segment),
        Step::Enter { .. } => None,
    }
}

/// Where a function starts in a state.
fn start_of(graph: &Graph, function: FnId, state: State) -> Option<Here> {
    if function.0 >= graph.functions() {
        return None;
    }
    Some(Here {
        point: graph.first(function),
        state,
    })
}

/// The function that the last step goes into.
fn goes_into(segment: &Segment) -> Option<FnId> {
    match segment.steps.last()? {
        Step::Enter { target } => Some(*target),
        _ => None,
    }
}

/// Steps from a place on; the one that is gone into is left out.
fn run(graph: &Graph, lower: &[Through], start: Here, steps: &[Step]) -> Option<Here> {
    let mut here = start;
    for step in steps {
        here = step_on(graph, lower, here, step)?;
    }
    Some(here)
}

/// What a finished segment does: from each state in which it can be walked, to its function's exit.
fn walked_through(
    alloc: Global,
    graph: &Graph,
    lower: &[Through],
    segment: &Segment,
) -> Result<Through, Fail> {
    let function = segment.function;
    let mut ends = Vec::new(alloc);
    for state in STATES {
        if let Some(start) = start_of(graph, function, state)
            && let Some(end) = run(graph, lower, start, &segment.steps)
            && ends_at(graph, function, end.point)
        {
            ends.push((state, end.state))?;
        }
    }
    Ok(Through { function, ends })
}

/// How many segments are finished: those before the first that goes into a call, or before the last.
fn finished_count(path: &Segments) -> usize {
    let mut count = 0usize;
    for segment in &path.list {
        if goes_into(segment).is_some() {
            return count;
        }
        count = count.saturating_add(1);
    }
    count.saturating_sub(1)
}

/// Whether a step of one of the segments cites the segment of this number.
fn is_cited(path: &Segments, number: usize) -> bool {
    path.list.iter().any(|segment| {
        segment.steps.iter().any(|step| match step {
            Step::Call { segment, .. } => *segment as usize == number,
            _ => false,
        })
    })
}

/// The finished segments, each walked once, from the lowest number on. `None` where one leads nowhere
/// or isn't cited.
fn walked_finished(
    alloc: Global,
    graph: &Graph,
    path: &Segments,
) -> Result<Option<Vec<Through>>, Fail> {
    let mut lower: Vec<Through> = Vec::new(alloc);
    for (number, segment) in path.list.iter().take(finished_count(path)).enumerate() {
        let through = walked_through(alloc, graph, &lower, segment)?;
        if through.ends.is_empty() || !is_cited(path, number) {
            return Ok(None);
        }
        lower.push(through)?;
    }
    Ok(Some(lower))
}

/// Into the next segment: the steps before the last, and the call that the last goes into.
fn walk_into(graph: &Graph, lower: &[Through], start: Here, segment: &Segment) -> Option<Here> {
    let target = goes_into(segment)?;
    let (_, before) = segment.steps.split_last()?;
    let here = run(graph, lower, start, before)?;
    if here.point.0 >= graph.points() || !may_enter(graph, here.point, target) {
        return None;
    }
    start_of(graph, target, here.state)
}

/// Where the unfinished segments end, from the root on.
fn walked_open(graph: &Graph, roots: &Roots, lower: &[Through], path: &Segments) -> Option<Here> {
    let root = roots.list.get(path.root as usize)?;
    let mut here = start_of(graph, root.function, root.start)?;
    let (last, before) = path.list.get(lower.len()..)?.split_last()?;
    for segment in before {
        if !starts_at(graph, segment.function, here.point) {
            return None;
        }
        here = walk_into(graph, lower, here, segment)?;
    }
    if !starts_at(graph, last.function, here.point) {
        return None;
    }
    run(graph, lower, here, &last.steps)
}

/// Whether the segments are a path to the alarm.
pub fn replays(
    alloc: Global,
    graph: &Graph,
    roots: &Roots,
    path: &Segments,
    alarm: &AlarmAt,
) -> Result<bool, Fail> {
    let Some(lower) = walked_finished(alloc, graph, path)? else {
        return Ok(false);
    };
    let Some(end) = walked_open(graph, roots, &lower, path) else {
        return Ok(false);
    };
    if end.point.0 >= graph.points() || end.point.0 != alarm.point.0 {
        return Ok(false);
    }
    match graph.kind(end.point) {
        PointKind::Act(op, _) => Ok(act(*op, end.state) == Outcome::Alarm(alarm.kind)),
        _ => Ok(false),
    }
}

/// Whether a function returns at a point.
fn ends_at(graph: &Graph, function: FnId, point: PointId) -> bool {
    function.0 < graph.functions() && graph.exit(function).0 == point.0
}

/// Whether a function starts at a point.
fn starts_at(graph: &Graph, function: FnId, point: PointId) -> bool {
    function.0 < graph.functions() && graph.first(function).0 == point.0
}
