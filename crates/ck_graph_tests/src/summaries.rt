//! Summaries and alarms of graphs by hand. Expected alarms are worked out from the state table.
ghost use Rattle.std.specs.Prelude.{◌≡◌, ◌<◌, length, IfOk};
ghost use Rattle.ck_summary.specs.Solution.{IsMadeFor};

use crate::drawings::What::{Act, Call, Exit, Plain};
use crate::drawings::{Drawing, graph_of, point_named, roots_of};
use ck_base::Kind::{self, P, Sv};
use ck_base::Op::{Init, Lock, Unlock};
use ck_base::PointId;
use ck_base::State::{self, TI, TL, TN, TS};
use ck_graph::Graph;
use ck_rows::has_pair;
use ck_summary::{AlarmAt, Table, alarms, solve};
use std::alloc::Global;
use std::test::Fail;

/// A graph, its roots, and the alarms that walks from them reach.
#[derive(Clone, Copy)]
struct Case {
    name: &'static str,
    drawing: Drawing,
    roots: &'static [(&'static str, State)],
    alarms: &'static [(&'static str, Kind)],
}

/// Where the test goes past the lock, the unlock is SV#5.
const LOCK_IN_ONE_BRANCH: Case = Case {
    name: "lock in one branch",
    drawing: Drawing {
        points: &[
            ("init", Act(Init), "main", 10, &["test"], &[]),
            ("test", Plain, "main", 20, &["lock", "unlock"], &[]),
            ("lock", Act(Lock), "main", 30, &["unlock"], &[]),
            ("unlock", Act(Unlock), "main", 40, &["out"], &[]),
            ("out", Exit, "main", 0, &[], &[]),
            ("start", Call, "[main]", 0, &["end"], &["main"]),
            ("end", Exit, "[main]", 0, &[], &[]),
        ],
        functions: &[("main", "init", "out"), ("[main]", "start", "end")],
    },
    roots: &[("[main]", TI)],
    alarms: &[("unlock", Sv(5))],
};

/// A helper is called unlocked and locked. A return to the other call would be a second lock.
const HELPER_IN_TWO_STATES: Case = Case {
    name: "helper in two states",
    drawing: Drawing {
        points: &[
            ("init", Act(Init), "main", 10, &["first"], &[]),
            ("first", Call, "main", 20, &["lock"], &["helper"]),
            ("lock", Act(Lock), "main", 30, &["second"], &[]),
            ("second", Call, "main", 40, &["unlock"], &["helper"]),
            ("unlock", Act(Unlock), "main", 50, &["out"], &[]),
            ("out", Exit, "main", 0, &[], &[]),
            ("body", Plain, "helper", 0, &["back"], &[]),
            ("back", Exit, "helper", 0, &[], &[]),
            ("start", Call, "[main]", 0, &["end"], &["main"]),
            ("end", Exit, "[main]", 0, &[], &[]),
        ],
        functions: &[
            ("main", "init", "out"),
            ("helper", "body", "back"),
            ("[main]", "start", "end"),
        ],
    },
    roots: &[("[main]", TI)],
    alarms: &[],
};

/// `down` calls itself or unlocks, so the unlock of `main` after it is SV#5.
const RECURSION: Case = Case {
    name: "recursion",
    drawing: Drawing {
        points: &[
            ("init", Act(Init), "main", 10, &["lock"], &[]),
            ("lock", Act(Lock), "main", 20, &["call"], &[]),
            ("call", Call, "main", 30, &["again"], &["down"]),
            ("again", Act(Unlock), "main", 40, &["out"], &[]),
            ("out", Exit, "main", 0, &[], &[]),
            ("test", Plain, "down", 50, &["deeper", "unlock"], &[]),
            ("deeper", Call, "down", 60, &["back"], &["down"]),
            ("unlock", Act(Unlock), "down", 70, &["back"], &[]),
            ("back", Exit, "down", 0, &[], &[]),
            ("start", Call, "[main]", 0, &["end"], &["main"]),
            ("end", Exit, "[main]", 0, &[], &[]),
        ],
        functions: &[
            ("main", "init", "out"),
            ("down", "test", "back"),
            ("[main]", "start", "end"),
        ],
    },
    roots: &[("[main]", TI)],
    alarms: &[("again", Sv(5))],
};

/// `ping` calls `pong` or returns, and `pong` calls `ping` or unlocks. They start locked, so they end
/// locked or unlocked, and the unlock that follows is SV#5 in the second case.
const MUTUAL_RECURSION: Case = Case {
    name: "mutual recursion",
    drawing: Drawing {
        points: &[
            ("call", Call, "main", 10, &["after"], &["ping"]),
            ("after", Act(Unlock), "main", 20, &["out"], &[]),
            ("out", Exit, "main", 0, &[], &[]),
            ("ping", Plain, "ping", 30, &["to pong", "from ping"], &[]),
            ("to pong", Call, "ping", 40, &["from ping"], &["pong"]),
            ("from ping", Exit, "ping", 0, &[], &[]),
            ("pong", Plain, "pong", 50, &["to ping", "unlock"], &[]),
            ("to ping", Call, "pong", 60, &["from pong"], &["ping"]),
            ("unlock", Act(Unlock), "pong", 70, &["from pong"], &[]),
            ("from pong", Exit, "pong", 0, &[], &[]),
        ],
        functions: &[
            ("main", "call", "out"),
            ("ping", "ping", "from ping"),
            ("pong", "pong", "from pong"),
        ],
    },
    roots: &[("main", TL)],
    alarms: &[("after", Sv(5))],
};

/// A call that enters nothing never returns, so the unlock after it isn't reached.
const CALL_WITHOUT_TARGETS: Case = Case {
    name: "call without targets",
    drawing: Drawing {
        points: &[
            ("call", Call, "main", 10, &["unlock"], &[]),
            ("unlock", Act(Unlock), "main", 20, &["out"], &[]),
            ("out", Exit, "main", 0, &[], &[]),
        ],
        functions: &[("main", "call", "out")],
    },
    roots: &[("main", TN)],
    alarms: &[],
};

/// A lock that leads back to itself.
const LOCKS_FOR_EVER: Drawing = Drawing {
    points: &[
        ("lock", Act(Lock), "main", 10, &["lock"], &[]),
        ("out", Exit, "main", 0, &[], &[]),
    ],
    functions: &[("main", "lock", "out")],
};

/// The second lock is SV#4.
const SELF_LOOP: Case = Case {
    name: "self loop",
    drawing: LOCKS_FOR_EVER,
    roots: &[("main", TN)],
    alarms: &[("lock", Sv(4))],
};

const NO_ROOTS: Case = Case {
    name: "no roots",
    drawing: LOCKS_FOR_EVER,
    roots: &[],
    alarms: &[],
};

/// One function that starts in two states: its unlock is SV#5 in the one and allowed in the other.
const TWO_STARTS: Case = Case {
    name: "two starts",
    drawing: Drawing {
        points: &[
            ("unlock", Act(Unlock), "main", 10, &["out"], &[]),
            ("out", Exit, "main", 0, &[], &[]),
        ],
        functions: &[("main", "unlock", "out")],
    },
    roots: &[("main", TN), ("main", TL)],
    alarms: &[("unlock", Sv(5))],
};

/// Alarms come by function and by place in the text before the numbers of their points, and the kinds
/// of one point last: SV#4 in TL and P#4 in TS.
const ORDER_OF_ALARMS: Case = Case {
    name: "order of alarms",
    drawing: Drawing {
        points: &[
            ("in second", Act(Lock), "second", 20, &["second out"], &[]),
            ("second out", Exit, "second", 0, &[], &[]),
            ("at 40", Act(Lock), "first", 40, &["out"], &[]),
            ("out", Exit, "first", 0, &[], &[]),
            ("test", Plain, "first", 0, &["at 40", "at 30", "at 0"], &[]),
            ("at 30", Act(Lock), "first", 30, &["out"], &[]),
            ("at 0", Act(Lock), "first", 0, &["out"], &[]),
        ],
        functions: &[
            ("first", "test", "out"),
            ("second", "in second", "second out"),
        ],
    },
    roots: &[("first", TL), ("second", TS), ("second", TL)],
    alarms: &[
        ("at 0", Sv(4)),
        ("at 30", Sv(4)),
        ("at 40", Sv(4)),
        ("in second", Sv(4)),
        ("in second", P(4)),
    ],
};

const CASES: [Case; 9] = [
    LOCK_IN_ONE_BRANCH,
    HELPER_IN_TWO_STATES,
    RECURSION,
    MUTUAL_RECURSION,
    CALL_WITHOUT_TARGETS,
    SELF_LOOP,
    NO_ROOTS,
    TWO_STARTS,
    ORDER_OF_ALARMS,
];

/// The graph of a case with its solved table.
fn solved(alloc: Global, case: &Case) -> Result<(Graph, Table), Fail>
    ensures { IfOk result (λ pair. IsMadeFor pair.0 pair.1) }
{
    let graph = graph_of(alloc, &case.drawing)?;
    let roots = roots_of(alloc, &case.drawing, &graph, case.roots)?;
    let mut table = Table::new(alloc, &graph)?;
    solve(&graph, &roots, &mut table);
    Ok((graph, table))
}

/// The alarms of a case.
fn alarms_of(alloc: Global, case: &Case) -> Result<Vec<AlarmAt>, Fail> {
    let (graph, table) = solved(alloc, case)?;
    Ok(alarms(alloc, &graph, &table)?)
}

/// Whether a case has its alarms, in their order.
fn has_alarms(alloc: Global, case: &Case) -> Result<bool, Fail> {
    let found = alarms_of(alloc, case)?;
    Ok(
        found.len() == case.alarms.len()
            && found.iter().zip(case.alarms).all(|(alarm, (name, kind))| {
                alarm.point == point_named(&case.drawing, name) && alarm.kind == *kind
            }),
    )
}

#[test]
fn alarms_of_graphs(rt: HostRuntime) -> Result<(), Fail> {
    for case in CASES {
        assert!(rt; has_alarms(rt.alloc(), &case)?, "{}", case.name);
    }
    Ok(())
}

/// The codes of TN and TL.
const CODES: (usize, usize) = (1, 4);

/// Whether a table of two points has the pair of two states, by their codes, at a point.
fn has(table: &Table, point: u32, from: usize, to: usize) -> bool
    requires point { point < length table.now.rows }
    requires from { from < 16 }
    requires to { to < 16 }
{
    has_pair(table.rows(PointId(point)), from, to)
}

/// Whether the table of the two starts has just the pairs of both.
fn has_both_starts(table: &Table) -> bool
    requires { length table.now.rows ≡ 2 }
{
    let (tn, tl) = CODES;
    has(table, 0, tn, tn)
        && has(table, 0, tl, tl)
        && !has(table, 0, tn, tl)
        && has(table, 1, tl, tn)
        && !has(table, 1, tn, tn)
}

/// Solved again from one start, the table has no pair of the other.
fn forgets_the_other_start(alloc: Global) -> Result<bool, Fail> {
    let (graph, mut table) = solved(alloc, &TWO_STARTS)?;
    if graph.points() != 2 || !has_both_starts(&table) {
        return Ok(false);
    }
    let roots = roots_of(alloc, &TWO_STARTS.drawing, &graph, &[("main", TL)])?;
    solve(&graph, &roots, &mut table);
    let (tn, tl) = CODES;
    Ok(
        has(&table, 0, tl, tl)
            && !has(&table, 0, tn, tn)
            && alarms(alloc, &graph, &table)?.is_empty(),
    )
}

#[test]
fn pairs_of_two_starts(rt: HostRuntime) -> Result<(), Fail> {
    assert!(rt; forgets_the_other_start(rt.alloc())?);
    Ok(())
}
