//! Parts that `checked` refuses and hands back, and a graph that it takes.
use crate::drawings::What::{Act, Call, Exit, Plain};
use crate::drawings::{Drawing, graph_of, parts_of};
use ck_base::Op::Free;
use ck_base::{FnId, PointId, Span, Spot};
use ck_graph::{Edge, Graph, Label, PointKind, checked};
use std::alloc::{AllocError, Global};
use std::test::Fail;

/// Each drawing has one fault.
const FAULTY: [(&str, Drawing); 12] = [
    (
        "a point of no function",
        Drawing {
            points: &[("out", Exit, "nothing", 0, &[], &[])],
            functions: &[("main", "out", "out")],
        },
    ),
    (
        "an edge to no point",
        Drawing {
            points: &[
                ("start", Plain, "main", 0, &["nowhere"], &[]),
                ("out", Exit, "main", 0, &[], &[]),
            ],
            functions: &[("main", "start", "out")],
        },
    ),
    (
        "a target that is no function",
        Drawing {
            points: &[
                ("start", Call, "main", 0, &["out"], &["nothing"]),
                ("out", Exit, "main", 0, &[], &[]),
            ],
            functions: &[("main", "start", "out")],
        },
    ),
    (
        "an edge into another function",
        Drawing {
            points: &[
                ("start", Plain, "main", 0, &["out", "other"], &[]),
                ("out", Exit, "main", 0, &[], &[]),
                ("other", Exit, "f", 0, &[], &[]),
            ],
            functions: &[("main", "start", "out"), ("f", "other", "other")],
        },
    ),
    (
        "an act without an edge",
        Drawing {
            points: &[
                ("start", Act(Free), "main", 0, &[], &[]),
                ("out", Exit, "main", 0, &[], &[]),
            ],
            functions: &[("main", "start", "out")],
        },
    ),
    (
        "an act with two edges",
        Drawing {
            points: &[
                ("start", Act(Free), "main", 0, &["out", "out"], &[]),
                ("out", Exit, "main", 0, &[], &[]),
            ],
            functions: &[("main", "start", "out")],
        },
    ),
    (
        "a call with two edges",
        Drawing {
            points: &[
                ("start", Call, "main", 0, &["out", "out"], &["main"]),
                ("out", Exit, "main", 0, &[], &[]),
            ],
            functions: &[("main", "start", "out")],
        },
    ),
    (
        "an exit with an edge",
        Drawing {
            points: &[("out", Exit, "main", 0, &["out"], &[])],
            functions: &[("main", "out", "out")],
        },
    ),
    (
        "a first point of another function",
        Drawing {
            points: &[
                ("out", Exit, "main", 0, &[], &[]),
                ("other", Exit, "f", 0, &[], &[]),
            ],
            functions: &[("main", "other", "out"), ("f", "other", "other")],
        },
    ),
    (
        "an exit of another function",
        Drawing {
            points: &[
                ("start", Plain, "main", 0, &[], &[]),
                ("other", Exit, "f", 0, &[], &[]),
            ],
            functions: &[("main", "start", "other"), ("f", "other", "other")],
        },
    ),
    (
        "a second exit",
        Drawing {
            points: &[
                ("out", Exit, "main", 0, &[], &[]),
                ("second", Exit, "main", 0, &[], &[]),
            ],
            functions: &[("main", "out", "out")],
        },
    ),
    (
        "an exit of another kind",
        Drawing {
            points: &[("start", Plain, "main", 0, &[], &[])],
            functions: &[("main", "start", "start")],
        },
    ),
];

/// Whether a drawing's parts are refused, and handed back with as many points and functions.
fn is_handed_back(alloc: Global, drawing: &Drawing) -> Result<bool, AllocError> {
    match checked(parts_of(alloc, drawing)?) {
        Ok(_) => Ok(false),
        Err(bad) => Ok(
            bad.parts.points.len() == drawing.points.len()
                && bad.parts.functions.len() == drawing.functions.len(),
        ),
    }
}

#[test]
fn faults_of_parts(rt: HostRuntime) -> Result<(), Fail> {
    for (fault, drawing) in FAULTY {
        assert!(rt; is_handed_back(rt.alloc(), &drawing)?, "{fault}");
    }
    Ok(())
}

const CALLS_ITSELF: Drawing = Drawing {
    points: &[
        ("call", Call, "main", 7, &["out"], &["main"]),
        ("out", Exit, "main", 0, &[], &[]),
    ],
    functions: &[("main", "call", "out")],
};

/// Whether each reader of a graph of the drawing gives what was drawn.
fn reads_back(graph: &Graph) -> bool {
    if graph.points() != 2 || graph.functions() != 1 {
        return false;
    }
    let (call, exit, main) = (PointId(0), PointId(1), FnId(0));
    let site = Spot::At(Span {
        file: 0,
        start: 7,
        end: 7,
    });
    let edge = Edge {
        to: exit,
        label: Label::Plain,
    };
    let kinds = *graph.kind(call) == PointKind::Call(0) && *graph.kind(exit) == PointKind::Exit;
    let places = graph.function(call) == main && *graph.site(call) == site && graph.side(call) == 1;
    let ways = graph.path(exit) == [1].as_slice() && graph.order(call).is_empty();
    let edges = graph.edges(call) == [edge].as_slice() && graph.targets(call) == [main].as_slice();
    let ends = graph.first(main) == call && graph.exit(main) == exit;
    kinds && places && ways && edges && ends
}

#[test]
fn readers_of_a_graph(rt: HostRuntime) -> Result<(), Fail> {
    let graph = graph_of(rt.alloc(), &CALLS_ITSELF)?;
    assert!(rt; reads_back(&graph));
    Ok(())
}
