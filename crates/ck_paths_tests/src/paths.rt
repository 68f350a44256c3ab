//! Paths to the alarms of graphs by hand.
use crate::cases::{CASES, Case, PathCase, Way};
use crate::drawings::{Drawing, function_named, graph_of, point_named, roots_of};
use crate::replay::replays;
use ck_graph::{Graph, Roots};
use ck_paths::{path_to, paths_to};
use ck_segments::{Segments, Step};
use ck_summary::{Table, alarms, solve};
use ck_texts::Alarm;
use std::alloc::Global;
use std::test::Fail;

/// The graph of a case, its roots, and its alarms with their paths.
fn answered(alloc: Global, case: &Case) -> Result<(Graph, Roots, Vec<Alarm>), Fail> {
    let graph = graph_of(alloc, &case.drawing)?;
    let roots = roots_of(alloc, &case.drawing, &graph, case.roots)?;
    let mut table = Table::new(alloc, &graph)?;
    solve(&graph, &roots, &mut table);
    let found = alarms(alloc, &graph, &table)?;
    let list = paths_to(alloc, &graph, &roots, &table, &found)?;
    Ok((graph, roots, list))
}

/// Whether each alarm of a case comes, in order, with a path to it.
fn has_paths(alloc: Global, case: &Case) -> Result<bool, Fail> {
    let (graph, roots, list) = answered(alloc, case)?;
    if list.len() != case.alarms.len() {
        return Ok(false);
    }
    for (alarm, (name, kind)) in list.iter().zip(case.alarms) {
        let there = alarm.at.point == point_named(&case.drawing, name) && alarm.at.kind == *kind;
        if !there || !replays(alloc, &graph, &roots, &alarm.path, &alarm.at)? {
            return Ok(false);
        }
    }
    Ok(true)
}

#[test]
fn paths_of_graphs(rt: HostRuntime) -> Result<(), Fail> {
    for case in CASES {
        assert!(rt; has_paths(rt.alloc(), &case)?, "{}", case.name);
    }
    Ok(())
}

/// Whether a step is the one with names.
fn is_step(drawing: &Drawing, step: &Step, way: &Way) -> bool {
    match way {
        Way::Edge(edge) => *step == Step::Edge(*edge),
        Way::Over(name, segment) => {
            let target = function_named(drawing, name);
            *step
                == Step::Call {
                    target,
                    segment: *segment,
                }
        }
        Way::Into(name) => {
            let target = function_named(drawing, name);
            *step == Step::Enter { target }
        }
    }
}

/// Whether segments are the path with names.
fn is_path(drawing: &Drawing, path: &Segments, expected: &PathCase) -> bool {
    path.root == expected.root
        && path.list.len() == expected.segments.len()
        && path.list.iter().zip(expected.segments).all(|(segment, (name, ways))| {
            segment.function == function_named(drawing, name)
                && segment.steps.len() == ways.len()
                && segment
                    .steps
                    .iter()
                    .zip(*ways)
                    .all(|(step, way)| is_step(drawing, step, way))
        })
}

/// The path to the first alarm of a case, asked of alone.
fn path_alone(alloc: Global, case: &Case) -> Result<Option<Segments>, Fail> {
    let graph = graph_of(alloc, &case.drawing)?;
    let roots = roots_of(alloc, &case.drawing, &graph, case.roots)?;
    let mut table = Table::new(alloc, &graph)?;
    solve(&graph, &roots, &mut table);
    let found = alarms(alloc, &graph, &table)?;
    if found.len() > 0 {
        let path = path_to(alloc, &graph, &roots, &table, &found[0])?;
        return Ok(Some(path));
    }
    Ok(None)
}

/// Whether the path of a case with one walk to its alarm is that walk.
fn has_the_path(alloc: Global, case: &Case) -> Result<bool, Fail> {
    let Some(expected) = case.path else {
        return Ok(true);
    };
    match path_alone(alloc, case)? {
        Some(path) => Ok(is_path(&case.drawing, &path, &expected)),
        None => Ok(false),
    }
}

#[test]
fn the_one_path(rt: HostRuntime) -> Result<(), Fail> {
    for case in CASES {
        assert!(rt; has_the_path(rt.alloc(), &case)?, "{}", case.name);
    }
    Ok(())
}
