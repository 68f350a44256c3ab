//! Whether a project by hand meets what a report requires.
ghost use Rattle.std.specs.Prelude.{◌<◌, ℕ, length, map, All};
ghost use Rattle.std.specs.Bool.{OnTrue};
ghost use Rattle.ck_graph.specs.Flow.{function_count, point_at, point_count};
ghost use Rattle.ck_segments.specs.Plain.{segment_of};
ghost use Rattle.ck_texts.specs.Placed.{HasActName, HasName, IsOutcomeOf, IsPathOf, IsSegmentOf, IsStepOf};
ghost use Rattle.ck_texts.specs.Views.{names_of, outcome_of, path_of};
ghost use Rattle.ck_texts_tests.specs.Fitting.{AllFits, Fits, HasMap, IsSiteIn};

use ck_base::{PointId, Spot};
use ck_graph::{ActName, Graph, PointKind, Roots};
use ck_segments::{Segment, Step};
use ck_texts::{Alarm, NameBook, Verdict};

fn is_in(site: &Spot, size: usize) -> bool
    ensures { OnTrue result (IsSiteIn site.now size) }
{
    match *site {
        Spot::At(span) => span.file == 0 && span.start as usize <= size,
        Spot::Nowhere => true,
        Spot::File(_) => true,
    }
}

#[tactic(auto, unfolding(ck_kernel::specs::KernelTable::kernel_table))]
fn has_name(act: ActName, book: &NameBook) -> bool
    ensures { OnTrue result (HasActName (names_of book.now) act) }
{
    match act {
        ActName::Kernel(row) => row.0 < 136,
        ActName::Outside(number) => (number as usize) < book.outside.len(),
        ActName::Return => true,
        ActName::ThreadReturn => true,
        ActName::Entry => true,
    }
}

fn is_named(kind: &PointKind, book: &NameBook) -> bool
    ensures { OnTrue result (HasName (names_of book.now) kind.now) }
{
    match *kind {
        PointKind::Act(_, act) => has_name(act, book),
        PointKind::Plain => true,
        PointKind::Call(_) => true,
        PointKind::Exit => true,
    }
}

fn point_fits(graph: &Graph, book: &NameBook, size: usize, point: PointId) -> bool
    requires { point.0 < point_count graph.now }
    ensures { OnTrue result (Fits (names_of book.now) size (point_at graph.now point.0)) }
{
    is_in(graph.site(point), size) && is_named(graph.kind(point), book)
}

fn points_fit(graph: &Graph, book: &NameBook, size: usize) -> bool
    ensures { OnTrue result ((n : ℕ) → n < point_count graph.now
        → Fits (names_of book.now) size (point_at graph.now n)) }
{
    for number in 0..graph.points() {
        if !point_fits(graph, book, size, PointId(number)) {
            return false;
        }
    }
    true
}

fn step_fits(graph: &Graph, step: &Step) -> bool
    ensures { OnTrue result (IsStepOf graph.now step.now) }
{
    match *step {
        Step::Edge(_) => true,
        Step::Call { target, .. } => target.0 < graph.functions(),
        Step::Enter { target } => target.0 < graph.functions(),
    }
}

fn steps_fit(graph: &Graph, steps: &[Step]) -> bool
    ensures { OnTrue result (All (IsStepOf graph.now) steps.now) }
{
    for step in steps {
        if !step_fits(graph, step) {
            return false;
        }
    }
    true
}

fn segment_fits(graph: &Graph, segment: &Segment) -> bool
    ensures { OnTrue result (IsSegmentOf graph.now (segment_of segment.now)) }
{
    segment.function.0 < graph.functions() && steps_fit(graph, &segment.steps)
}

fn segments_fit(graph: &Graph, segments: &[Segment]) -> bool
    ensures { OnTrue result (All (IsSegmentOf graph.now) (map segment_of segments.now)) }
{
    for segment in segments {
        if !segment_fits(graph, segment) {
            return false;
        }
    }
    true
}

fn alarm_fits(graph: &Graph, roots: &Roots, alarm: &Alarm) -> bool
    ensures { OnTrue result (IsPathOf graph.now roots.now.list.items (path_of alarm.now)) }
{
    alarm.at.point.0 < graph.points()
        && (alarm.path.root as usize) < roots.list.len()
        && segments_fit(graph, &alarm.path.list)
}

fn alarms_fit(graph: &Graph, roots: &Roots, alarms: &[Alarm]) -> bool
    ensures { OnTrue result (All (IsPathOf graph.now roots.now.list.items) (map path_of alarms.now)) }
{
    for alarm in alarms {
        if !alarm_fits(graph, roots, alarm) {
            return false;
        }
    }
    true
}

fn verdict_fits(graph: &Graph, roots: &Roots, verdict: &Verdict) -> bool
    ensures { OnTrue result (IsOutcomeOf graph.now roots.now.list.items (outcome_of verdict.now)) }
{
    match verdict {
        Verdict::Accepted(_) => true,
        Verdict::Rejected(alarms) => alarms_fit(graph, roots, alarms),
    }
}

fn roots_fit(graph: &Graph, roots: &Roots) -> bool
    ensures { OnTrue result (All (λ root. root.function.0 < function_count graph.now) roots.now.list.items) }
{
    for root in &roots.list {
        if root.function.0 >= graph.functions() {
            return false;
        }
    }
    true
}

/// Whether all numbers of a project name things, and its sites are in its one file.
pub fn fits(graph: &Graph, roots: &Roots, book: &NameBook, text: &str, verdict: &Verdict) -> bool
    requires { HasMap book.now.maps.items text.now }
    ensures { OnTrue result (AllFits graph.now roots.now.list.items (names_of book.now) book.now.maps.items
        (outcome_of verdict.now)) }
{
    if book.functions.len() != graph.functions() as usize {
        return false;
    }
    if !points_fit(graph, book, text.len()) {
        return false;
    }
    if !roots_fit(graph, roots) {
        return false;
    }
    verdict_fits(graph, roots, verdict)
}
