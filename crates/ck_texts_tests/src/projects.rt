//! Projects by hand: a text with sites, a graph, names, and a verdict with its paths.
ghost use Rattle.std.specs.Prelude.{◌<◌, ◌≤◌, ◌^◌, vec_len, codes, All, IfOk, IfSome};
ghost use Rattle.ck_lexer.specs.PlaceMaps.{IsPlaceMapOf};
ghost use Rattle.ck_texts_tests.specs.Fitting.{HasMap};

use crate::fitting::fits;
use ck_base::{FnId, Kind, Op, OutOfMemory, PointId, Span, Spot, State};
use ck_graph::{
    ActName, Edge, Entry, FunctionPart, Graph, Label, Parts, PointKind, PointPart, Root, Roots,
    checked,
};
use ck_kernel::row_of;
use ck_lexer::{PlaceMap, place_map};
use ck_segments::{Segment, Segments, Step};
use ck_summary::AlarmAt;
use ck_texts::{Alarm, Counts, FunctionName, NameBook, Verdict, report_text};
use std::alloc::{AllocError, Global};
use std::test::Fail;

/// The most points and edges of a point of a project.
const MOST: usize = 100;

/// What an act is called.
#[derive(Clone, Copy)]
pub enum Called {
    Kernel(&'static str),
    Outside(u32),
    Return,
    ThreadReturn,
    Entry,
}

/// What happens at a point.
#[derive(Clone, Copy)]
pub enum What {
    Plain,
    Act(Op, Called),
    Call,
    Exit,
}

/// A step: an edge, a call of a function with its segment, or a function that is gone into.
#[derive(Clone, Copy)]
pub enum Way {
    Edge(u32),
    Call(u32, u32),
    Enter(u32),
}

/// A point: what happens there, its function, the line and the column of its site (0: nowhere), the points
/// to which its edges lead with their labels, and its targets.
pub type Sketch = (
    What,
    u32,
    (u32, u32),
    &'static [(u32, Label)],
    &'static [u32],
);

/// An alarm: its point, its kind, its root, and the segments of its path, each with its function.
pub type Found = (u32, Kind, u32, &'static [(u32, &'static [Way])]);

/// A rejected project. Its text is main.i, maybe with a line marker first, and its roots are functions.
#[derive(Clone, Copy)]
pub struct Project {
    pub name: &'static str,
    pub text: &'static [&'static str],
    pub points: &'static [Sketch],
    /// The name of each function, its first point and its exit.
    pub functions: &'static [(&'static str, u32, u32)],
    pub outside: &'static [&'static str],
    pub roots: &'static [u32],
    pub alarms: &'static [Found],
    pub report: &'static [&'static str],
}

/// These lines, each with its line feed.
pub fn text_of(alloc: Global, lines: &[&str]) -> Result<String, AllocError> {
    let mut text = String::new(alloc);
    for line in lines {
        text.push_str(line)?;
        text.push('\n')?;
    }
    Ok(text)
}

/// The offset of a column of a line.
pub fn offset_of(text: &str, line: u32, column: u32) -> u32 {
    let mut at = 0u32;
    let mut on = 1u32;
    for byte in text.as_bytes() {
        if on == line {
            return at.saturating_add(column).saturating_sub(1);
        }
        at = at.saturating_add(1);
        if *byte == b'\n' {
            on = on.saturating_add(1);
        }
    }
    at
}

/// The site at a line and a column, where a marker on the first line is not counted.
fn site_at(text: &str, site: (u32, u32)) -> Spot {
    let (line, column) = site;
    if line == 0 {
        return Spot::Nowhere;
    }
    let marker = u32::from(text.starts_with('#'));
    let start = offset_of(text, line.saturating_add(marker), column);
    Spot::At(Span {
        file: 0,
        start,
        end: start,
    })
}

fn act_name(called: Called) -> ActName {
    match called {
        Called::Kernel(name) => match row_of(name) {
            Some(row) => ActName::Kernel(row),
            None => ActName::Outside(u32::MAX),
        },
        Called::Outside(number) => ActName::Outside(number),
        Called::Return => ActName::Return,
        Called::ThreadReturn => ActName::ThreadReturn,
        Called::Entry => ActName::Entry,
    }
}

fn edges_of(alloc: Global, ways: &[(u32, Label)]) -> Result<Vec<Edge>, AllocError>
    ensures { IfOk result (λ edges. vec_len edges ≤ 100) }
{
    let mut edges = Vec::new(alloc);
    for (to, label) in ways {
        if edges.len() < MOST {
            edges.push(Edge {
                to: PointId(*to),
                label: *label,
            })?;
        }
    }
    Ok(edges)
}

fn targets_of(alloc: Global, numbers: &[u32]) -> Result<Vec<FnId>, AllocError> {
    let mut targets = Vec::new(alloc);
    for number in numbers {
        targets.push(FnId(*number))?;
    }
    Ok(targets)
}

fn point_of(alloc: Global, text: &str, sketch: &Sketch) -> Result<PointPart, AllocError>
    ensures { IfOk result (λ part. vec_len part.edges < 2 ^ 32) }
{
    let (what, function, site, ways, targets) = *sketch;
    let kind = match what {
        What::Plain => PointKind::Plain,
        What::Act(op, called) => PointKind::Act(op, act_name(called)),
        What::Call => PointKind::Call(0),
        What::Exit => PointKind::Exit,
    };
    Ok(PointPart {
        kind,
        function: FnId(function),
        site: site_at(text, site),
        path: Vec::new(alloc),
        order: Vec::new(alloc),
        side: 1,
        edges: edges_of(alloc, ways)?,
        targets: targets_of(alloc, targets)?,
    })
}

fn parts_of(alloc: Global, project: &Project, text: &str) -> Result<Parts, AllocError>
    ensures points { IfOk result (λ parts. vec_len parts.points < 2 ^ 32) }
    ensures functions { IfOk result (λ parts. vec_len parts.functions < 2 ^ 32) }
    ensures edges { IfOk result (λ parts. All (λ part. vec_len part.edges < 2 ^ 32) parts.points.items) }
{
    let mut points = Vec::new(alloc);
    for sketch in project.points {
        if points.len() < MOST {
            points.push(point_of(alloc, text, sketch)?)?;
        }
    }
    let mut functions = Vec::new(alloc);
    for (_, first, exit) in project.functions {
        if functions.len() < MOST {
            functions.push(FunctionPart {
                first: PointId(*first),
                exit: PointId(*exit),
            })?;
        }
    }
    Ok(Parts { points, functions })
}

fn roots_of(alloc: Global, project: &Project) -> Result<Roots, AllocError> {
    let mut list = Vec::new(alloc);
    for function in project.roots {
        list.push(Root {
            entry: Entry::Main,
            function: FnId(*function),
            start: State::TI,
        })?;
    }
    Ok(Roots { list })
}

/// The places of a text that is no larger than a file may be.
pub fn map_of(alloc: Global, text: &str) -> Result<Option<PlaceMap>, OutOfMemory>
    ensures { IfOk result (λ found. IfSome found (IsPlaceMapOf (codes "main.i") text.now)) }
{
    if text.len() > 1_048_576 {
        return Ok(None);
    }
    Ok(Some(place_map(alloc, "main.i", text.as_bytes())?))
}

fn names_of(alloc: Global, project: &Project) -> Result<Vec<FunctionName>, AllocError> {
    let mut names = Vec::new(alloc);
    for (name, _, _) in project.functions {
        names.push(FunctionName {
            text: String::from_str(alloc, name)?,
            at: Spot::Nowhere,
        })?;
    }
    Ok(names)
}

fn outside_of(alloc: Global, project: &Project) -> Result<Vec<String>, AllocError> {
    let mut names = Vec::new(alloc);
    for name in project.outside {
        names.push(String::from_str(alloc, name)?)?;
    }
    Ok(names)
}

fn book_of(alloc: Global, project: &Project, text: &str) -> Result<NameBook, Fail>
    ensures { IfOk result (λ book. HasMap book.maps.items text.now) }
{
    let map = map_of(alloc, text)?.ok_or("too long")?;
    let functions = names_of(alloc, project)?;
    let outside = outside_of(alloc, project)?;
    let mut maps = Vec::new(alloc);
    maps.push(map)?;
    Ok(NameBook {
        maps,
        functions,
        outside,
    })
}

fn steps_of(alloc: Global, ways: &[Way]) -> Result<Vec<Step>, AllocError> {
    let mut steps = Vec::new(alloc);
    for way in ways {
        steps.push(match *way {
            Way::Edge(number) => Step::Edge(number),
            Way::Call(target, segment) => Step::Call {
                target: FnId(target),
                segment,
            },
            Way::Enter(target) => Step::Enter {
                target: FnId(target),
            },
        })?;
    }
    Ok(steps)
}

fn path_of(alloc: Global, found: &Found) -> Result<Segments, AllocError> {
    let (_, _, root, parts) = *found;
    let mut list = Vec::new(alloc);
    for (function, ways) in parts {
        list.push(Segment {
            function: FnId(*function),
            steps: steps_of(alloc, ways)?,
        })?;
    }
    Ok(Segments { root, list })
}

fn verdict_of(alloc: Global, project: &Project) -> Result<Verdict, AllocError> {
    let mut alarms = Vec::new(alloc);
    for found in project.alarms {
        let (point, kind, _, _) = *found;
        alarms.push(Alarm {
            at: AlarmAt {
                point: PointId(point),
                kind,
            },
            path: path_of(alloc, found)?,
        })?;
    }
    Ok(Verdict::Rejected(alarms))
}

fn graph_of(alloc: Global, project: &Project, text: &str) -> Result<Graph, Fail> {
    Ok(
        checked(parts_of(alloc, project, text)?)
            .ok()
            .ok_or("a fault")?,
    )
}

/// The report of a verdict on a project, or nothing where a number names nothing.
fn report_on(alloc: Global, project: &Project, verdict: Verdict) -> Result<Option<Vec<u8>>, Fail> {
    let text = text_of(alloc, project.text)?;
    let graph = graph_of(alloc, project, &text)?;
    let roots = roots_of(alloc, project)?;
    let book = book_of(alloc, project, &text)?;
    if fits(&graph, &roots, &book, &text, &verdict) {
        Ok(Some(report_text(alloc, &graph, &roots, &book, &verdict)?))
    } else {
        Ok(None)
    }
}

/// The report of a project's alarms.
pub fn report_of(alloc: Global, project: &Project) -> Result<Option<Vec<u8>>, Fail> {
    let verdict = verdict_of(alloc, project)?;
    report_on(alloc, project, verdict)
}

/// The report of a project as if it were accepted.
pub fn accepted_report(
    alloc: Global,
    project: &Project,
    counts: Counts,
) -> Result<Option<Vec<u8>>, Fail> {
    report_on(alloc, project, Verdict::Accepted(counts))
}
