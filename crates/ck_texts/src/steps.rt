//! The lines of a segment.
ghost use Rattle.std.specs.Prelude.{◌≡◌, ◌<◌, ◌++◌, codes, All, IfOk, OnOk, string_bytes};
ghost use Rattle.ck_graph.specs.Faults.{IsSound};
ghost use Rattle.ck_graph.specs.Flow.{function_at, function_count, point_at, point_count};
ghost use Rattle.ck_segments.specs.Expansion as segments;
ghost use Rattle.ck_segments.specs.Plain.{segment_of};
ghost use Rattle.ck_texts.specs.Lines.{site_text};
ghost use Rattle.ck_texts.specs.Placed.{AreNamesOf, HasActName, IsSegmentOf, IsSitePlaced, IsStepOf};
ghost use Rattle.ck_texts.specs.Printing as printing;
ghost use Rattle.ck_texts.specs.Printing.{place_by};
ghost use Rattle.ck_texts.specs.Report as spec;
ghost use Rattle.ck_texts.specs.Views.{names_of};

use crate::names::NameBook;
use crate::words::{act_name, function_name, push_line, push_number, push_spot};
use ck_base::{Op, OutOfMemory, PointId};
use ck_graph::{ActName, Edge, Graph, Label, PointKind};
use ck_segments::{Segment, Step};
use std::alloc::Global;

/// Adds the place of a point, or `-`.
pub(crate) fn push_site(
    alloc: Global,
    text: &mut Vec<u8>,
    graph: &Graph,
    names: &NameBook,
    point: PointId,
) -> Result<(), OutOfMemory>
    requires named { AreNamesOf graph.now (names_of names.now) names.now.maps.items }
    requires there { point.0 < point_count graph.now }
    ensures { OnOk result (text.new.items ≡ text.old.items ++
        spec.site graph.now (place_by names.now.maps.items) point.0) }
{
    push_spot(alloc, text, &names.maps, graph.site(point))
}

/// Adds the begin of a line: words, the place of a point, and a name.
fn push_named(
    alloc: Global,
    text: &mut Vec<u8>,
    words: &str,
    graph: &Graph,
    names: &NameBook,
    point: PointId,
    name: &[u8],
) -> Result<(), OutOfMemory>
    requires named { AreNamesOf graph.now (names_of names.now) names.now.maps.items }
    requires there { point.0 < point_count graph.now }
    ensures { OnOk result (text.new.items ≡ text.old.items ++ (words.now ++
        (spec.site graph.now (place_by names.now.maps.items) point.0 ++ (codes " " ++ name.now)))) }
{
    text.extend_from_slice(words.as_bytes())?;
    push_site(alloc, text, graph, names, point)?;
    text.push(b' ')?;
    text.extend_from_slice(name)?;
    Ok(())
}

/// Whether an act is one at the begin or the end of a function that keeps a status.
fn keeps_status(op: Op) -> bool
    ensures { result ≡ spec.keeps_status op }
{
    matches!(op, Op::PairEnter | Op::PairLeft)
}

/// Adds the line of an act that is passed, if it has one.
fn push_act(
    alloc: Global,
    text: &mut Vec<u8>,
    graph: &Graph,
    names: &NameBook,
    point: PointId,
    op: Op,
    act: ActName,
) -> Result<(), OutOfMemory>
    requires named { AreNamesOf graph.now (names_of names.now) names.now.maps.items }
    requires there { point.0 < point_count graph.now }
    requires act { HasActName (names_of names.now) act }
    ensures { OnOk result (text.new.items ≡ text.old.items ++ spec.act_line (names_of names.now)
        (spec.site graph.now (place_by names.now.maps.items) point.0) op act) }
{
    if keeps_status(op) {
        return Ok(());
    }
    push_named(
        alloc,
        text,
        "  act ",
        graph,
        names,
        point,
        act_name(names, act),
    )?;
    text.push(b'\n')?;
    Ok(())
}

/// Whether an edge is the one way on.
fn is_plain(label: Label) -> bool
    ensures { result ≡ spec.is_plain label }
{
    matches!(label, Label::Plain)
}

/// The word of a choice.
fn choice_word(alloc: Global, label: Label) -> Result<String, OutOfMemory>
    ensures { IfOk result (λ word. string_bytes word ≡ spec.choice_word label) }
{
    let word = match label {
        Label::Plain => String::new(alloc),
        Label::True => String::from_str(alloc, "true")?,
        Label::False => String::from_str(alloc, "false")?,
        Label::Case(number) => {
            let number = number as u64 + 1;
            format!(in alloc; "case {number}")?
        }
        Label::Default => String::from_str(alloc, "default")?,
        Label::Order(number) => format!(in alloc; "order {number}")?,
        Label::Pick(number) => format!(in alloc; "{number}")?,
    };
    Ok(word)
}

/// Adds the line of an edge that is taken at a plain point, if it has one.
fn push_choice(
    alloc: Global,
    text: &mut Vec<u8>,
    graph: &Graph,
    names: &NameBook,
    point: PointId,
    label: Label,
) -> Result<(), OutOfMemory>
    requires named { AreNamesOf graph.now (names_of names.now) names.now.maps.items }
    requires there { point.0 < point_count graph.now }
    ensures { OnOk result (text.new.items ≡ text.old.items ++ spec.choose_line
        (spec.site graph.now (place_by names.now.maps.items) point.0) label) }
{
    if is_plain(label) {
        return Ok(());
    }
    let word = choice_word(alloc, label)?;
    push_named(
        alloc,
        text,
        "  choose ",
        graph,
        names,
        point,
        word.as_bytes(),
    )?;
    text.push(b'\n')?;
    Ok(())
}

/// The edge of a number that leads from a point, or a plain edge back to the point where it has none.
fn edge_at(graph: &Graph, point: PointId, number: u32) -> Edge
    requires { point.0 < point_count graph.now }
    ensures { result ≡ spec.edge_at graph.now point.0 number }
{
    match graph.edges(point).get(number as usize) {
        Some(edge) => *edge,
        None => Edge {
            to: point,
            label: Label::Plain,
        },
    }
}

/// Adds the line of an edge that is taken, if it has one.
fn push_edge(
    alloc: Global,
    text: &mut Vec<u8>,
    graph: &Graph,
    names: &NameBook,
    point: PointId,
    number: u32,
) -> Result<(), OutOfMemory>
    requires named { AreNamesOf graph.now (names_of names.now) names.now.maps.items }
    requires there { point.0 < point_count graph.now }
    ensures { OnOk result (text.new.items ≡ text.old.items ++
        spec.edge_line (names_of names.now) (spec.site graph.now (place_by names.now.maps.items) point.0)
        (point_at graph.now point.0).kind (spec.edge_at graph.now point.0 number)) }
{
    match *graph.kind(point) {
        PointKind::Plain => {
            let edge = edge_at(graph, point, number);
            push_choice(alloc, text, graph, names, point, edge.label)
        }
        PointKind::Act(op, act) => push_act(alloc, text, graph, names, point, op, act),
        PointKind::Call(_) => Ok(()),
        PointKind::Exit => Ok(()),
    }
}

/// Adds the line of a step that is taken at a point, if it has one.
fn push_step(
    alloc: Global,
    text: &mut Vec<u8>,
    graph: &Graph,
    names: &NameBook,
    point: PointId,
    step: &Step,
) -> Result<(), OutOfMemory>
    requires named { AreNamesOf graph.now (names_of names.now) names.now.maps.items }
    requires there { point.0 < point_count graph.now }
    requires step { IsStepOf graph.now step.now }
    ensures { OnOk result (text.new.items ≡ text.old.items ++
        spec.step_line graph.now (names_of names.now) (place_by names.now.maps.items) point.0 step.now) }
{
    match *step {
        Step::Edge(number) => push_edge(alloc, text, graph, names, point, number),
        Step::Call { target, segment } => {
            push_named(
                alloc,
                text,
                "  call ",
                graph,
                names,
                point,
                function_name(names, target),
            )?;
            push_number(alloc, text, " ", segment as u64 + 1, b'\n')
        }
        Step::Enter { target } => {
            push_named(
                alloc,
                text,
                "  enter ",
                graph,
                names,
                point,
                function_name(names, target),
            )?;
            text.push(b'\n')?;
            Ok(())
        }
    }
}

/// The point after a step.
fn after_step(graph: &Graph, point: PointId, step: &Step) -> PointId
    requires sound { IsSound graph.now }
    requires there { point.0 < point_count graph.now }
    ensures point { result.0 ≡ spec.after_step graph.now point.0 step.now }
    ensures there { result.0 < point_count graph.now }
{
    match *step {
        Step::Edge(number) => edge_at(graph, point, number).to,
        Step::Call { .. } => edge_at(graph, point, 0).to,
        Step::Enter { .. } => point,
    }
}

/// Adds the lines of steps from a point on.
fn push_steps(
    alloc: Global,
    text: &mut Vec<u8>,
    graph: &Graph,
    names: &NameBook,
    first: PointId,
    steps: &[Step],
) -> Result<(), OutOfMemory>
    requires sound { IsSound graph.now }
    requires named { AreNamesOf graph.now (names_of names.now) names.now.maps.items }
    requires there { first.0 < point_count graph.now }
    requires steps { All (IsStepOf graph.now) steps.now }
    ensures { OnOk result (text.new.items ≡ text.old.items ++
        spec.step_lines graph.now (names_of names.now) (place_by names.now.maps.items) first.0 steps.now) }
{
    let mut point = first;
    for step in steps {
        push_step(alloc, text, graph, names, point, step)?;
        point = after_step(graph, point, step);
    }
    Ok(())
}

/// Whether a step goes into a call.
fn enters(step: &Step) -> bool
    ensures { result ≡ printing.enters step.now }
{
    match *step {
        Step::Edge(_) => false,
        Step::Call { .. } => false,
        Step::Enter { .. } => true,
    }
}

/// Whether the last step goes into a call.
fn goes_in(steps: &[Step]) -> bool
    ensures { result ≡ segments.goes_in steps.now }
{
    match steps.last() {
        Some(step) => enters(step),
        None => false,
    }
}

/// Adds the line that ends a segment, if it has one.
fn push_ending(text: &mut Vec<u8>, is_last: bool, enters: bool) -> Result<(), OutOfMemory>
    ensures { OnOk result (text.new.items ≡ text.old.items ++ spec.ending is_last enters) }
{
    if is_last {
        push_line(text, "  alarm")
    } else if enters {
        Ok(())
    } else {
        push_line(text, "  return")
    }
}

/// Adds a segment, its number and its lines. It is one of so many.
pub(crate) fn push_segment(
    alloc: Global,
    text: &mut Vec<u8>,
    graph: &Graph,
    names: &NameBook,
    count: usize,
    number: usize,
    segment: &Segment,
) -> Result<(), OutOfMemory>
    requires sound { IsSound graph.now }
    requires named { AreNamesOf graph.now (names_of names.now) names.now.maps.items }
    requires segment { IsSegmentOf graph.now (segment_of segment.now) }
    ensures { OnOk result (text.new.items ≡ text.old.items ++
        spec.segment_text graph.now (names_of names.now) (place_by names.now.maps.items) count number
        (segment_of segment.now)) }
{
    push_number(alloc, text, "segment ", number as u64, b' ')?;
    text.extend_from_slice(function_name(names, segment.function))?;
    text.push(b'\n')?;
    let first = graph.first(segment.function);
    push_steps(alloc, text, graph, names, first, &segment.steps)?;
    push_ending(text, number == count, goes_in(&segment.steps))
}
