//! Which steps follow, whatever the state is and whatever the cited segment does.
use crate::cases::Way::{self, Edge, Into, Over};
use crate::drawings::What::{Act, Call, Exit, Plain};
use crate::drawings::{Drawing, function_named, graph_of, point_named};
use ck_base::Op::Halt;
use ck_segments::{Step, follows};
use std::alloc::Global;
use std::test::Fail;

/// A test, an act that is allowed in no state, and a call of one of two functions.
const DRAWING: Drawing = Drawing {
    points: &[
        ("test", Plain, "main", 10, &["halt", "call"], &[]),
        ("halt", Act(Halt), "main", 20, &["call"], &[]),
        ("call", Call, "main", 30, &["out"], &["f", "g"]),
        ("out", Exit, "main", 0, &[], &[]),
        ("f", Exit, "f", 0, &[], &[]),
        ("g", Exit, "g", 0, &[], &[]),
        ("h", Exit, "h", 0, &[], &[]),
    ],
    functions: &[
        ("main", "test", "out"),
        ("f", "f", "f"),
        ("g", "g", "g"),
        ("h", "h", "h"),
    ],
};

/// Points, a step, and whether it follows from the one to the other.
const ROWS: [(&str, Way, &str, bool); 18] = [
    ("test", Edge(0), "halt", true),
    ("test", Edge(1), "call", true),
    ("test", Edge(0), "call", false),
    ("test", Edge(2), "call", false),
    ("test", Into("g"), "g", false),
    ("test", Over("g", 0), "halt", false),
    ("halt", Edge(0), "call", true),
    ("halt", Edge(1), "call", false),
    ("call", Edge(0), "out", false),
    ("call", Over("f", 7), "out", true),
    ("call", Over("g", 0), "out", true),
    ("call", Over("h", 0), "out", false),
    ("call", Over("f", 0), "f", false),
    ("call", Into("g"), "g", true),
    ("call", Into("g"), "f", false),
    ("call", Into("h"), "h", false),
    ("out", Edge(0), "out", false),
    ("no such point", Edge(0), "halt", false),
];

fn step_of(way: Way) -> Step {
    match way {
        Edge(edge) => Step::Edge(edge),
        Over(name, segment) => Step::Call {
            target: function_named(&DRAWING, name),
            segment,
        },
        Into(name) => Step::Enter {
            target: function_named(&DRAWING, name),
        },
    }
}

/// Whether a row's step follows as the row says.
fn follows_as(alloc: Global, row: (&str, Way, &str, bool)) -> Result<bool, Fail> {
    let (from, way, to, answer) = row;
    let graph = graph_of(alloc, &DRAWING)?;
    let from = point_named(&DRAWING, from);
    let to = point_named(&DRAWING, to);
    Ok(follows(&graph, from, &step_of(way), to) == answer)
}

#[test]
fn steps_follow(rt: HostRuntime) -> Result<(), Fail> {
    let mut number = 0u32;
    for row in ROWS {
        assert!(rt; follows_as(rt.alloc(), row)?, "row {number}");
        number = number.saturating_add(1);
    }
    Ok(())
}
