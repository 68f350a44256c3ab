//! Graphs by hand with their alarms, each with the path to it where there is just one.
use crate::drawings::Drawing;
use crate::drawings::What::{Act, Call, Exit, Plain};
use ck_base::Kind::{self, P, Sv};
use ck_base::Op::{
    Epilogue, GetStatus, HandlerReturn, Init, Lock, LockIsr, Neutral, Normal, PairEnter, PairLeft,
    Prologue, RestoreStatus, Unlock, UnlockIsr,
};
use ck_base::State::{self, HB, TI, TL, TN};

/// A step with names: an edge, a call that the segment of a number describes, or one that is gone into.
#[derive(Clone, Copy)]
pub enum Way {
    Edge(u32),
    Over(&'static str, u32),
    Into(&'static str),
}

use Way::{Edge, Into, Over};

/// A path: the number of its root, and its segments, each with its function.
#[derive(Clone, Copy)]
pub struct PathCase {
    pub root: u32,
    pub segments: &'static [(&'static str, &'static [Way])],
}

/// A graph, its roots, and its alarms. Where the one alarm has one walk to it, that is `path`.
#[derive(Clone, Copy)]
pub struct Case {
    pub name: &'static str,
    pub drawing: Drawing,
    pub roots: &'static [(&'static str, State)],
    pub alarms: &'static [(&'static str, Kind)],
    pub path: Option<PathCase>,
}

/// Past the lock, the unlock is SV#5.
const LOCK_IN_ONE_BRANCH: Case = Case {
    name: "lock in one branch",
    drawing: Drawing {
        points: &[
            ("init", Act(Init), "main", 10, &["test"], &[]),
            ("test", Plain, "main", 20, &["lock", "unlock"], &[]),
            ("lock", Act(Lock), "main", 30, &["unlock"], &[]),
            ("unlock", Act(Unlock), "main", 40, &["out"], &[]),
            ("out", Exit, "main", 0, &[], &[]),
            ("start", Call, "[main]", 0, &["end"], &["main"]),
            ("end", Exit, "[main]", 0, &[], &[]),
        ],
        functions: &[("main", "init", "out"), ("[main]", "start", "end")],
    },
    roots: &[("[main]", TI)],
    alarms: &[("unlock", Sv(5))],
    path: Some(PathCase {
        root: 0,
        segments: &[("[main]", &[Into("main")]), ("main", &[Edge(0), Edge(1)])],
    }),
};

/// `down` calls itself or unlocks, so the unlock of `main` after it is SV#5.
const RECURSION: Case = Case {
    name: "recursion",
    drawing: Drawing {
        points: &[
            ("init", Act(Init), "main", 10, &["lock"], &[]),
            ("lock", Act(Lock), "main", 20, &["call"], &[]),
            ("call", Call, "main", 30, &["again"], &["down"]),
            ("again", Act(Unlock), "main", 40, &["out"], &[]),
            ("out", Exit, "main", 0, &[], &[]),
            ("test", Plain, "down", 50, &["deeper", "unlock"], &[]),
            ("deeper", Call, "down", 60, &["back"], &["down"]),
            ("unlock", Act(Unlock), "down", 70, &["back"], &[]),
            ("back", Exit, "down", 0, &[], &[]),
            ("start", Call, "[main]", 0, &["end"], &["main"]),
            ("end", Exit, "[main]", 0, &[], &[]),
        ],
        functions: &[
            ("main", "init", "out"),
            ("down", "test", "back"),
            ("[main]", "start", "end"),
        ],
    },
    roots: &[("[main]", TI)],
    alarms: &[("again", Sv(5))],
    path: None,
};

/// A vector's function that returns before its epilogue: the return of the handler is P#3.
const RETURN_BEFORE_EPILOGUE: Case = Case {
    name: "return before epilogue",
    drawing: Drawing {
        points: &[
            ("prologue", Act(Prologue), "Vector40", 10, &["test"], &[]),
            ("test", Plain, "Vector40", 20, &["out", "epilogue"], &[]),
            ("epilogue", Act(Epilogue), "Vector40", 30, &["out"], &[]),
            ("out", Exit, "Vector40", 0, &[], &[]),
            ("start", Call, "[vector]", 0, &["return"], &["Vector40"]),
            ("return", Act(HandlerReturn), "[vector]", 5, &["end"], &[]),
            ("end", Exit, "[vector]", 0, &[], &[]),
        ],
        functions: &[
            ("Vector40", "prologue", "out"),
            ("[vector]", "start", "end"),
        ],
    },
    roots: &[("[vector]", HB)],
    alarms: &[("return", P(3))],
    path: Some(PathCase {
        root: 0,
        segments: &[
            ("Vector40", &[Edge(0), Edge(0)]),
            ("[vector]", &[Over("Vector40", 0)]),
        ],
    }),
};

/// The timer's function calls each callback unlocked, in a handler, where a sleep is SV#4.
const SLEEP_IN_A_TIMER_CALLBACK: Case = Case {
    name: "sleep in a timer callback",
    drawing: Drawing {
        points: &[
            ("sleep", Act(Normal), "tick", 10, &["out"], &[]),
            ("out", Exit, "tick", 0, &[], &[]),
            ("prologue", Act(Prologue), "[timer]", 0, &["lock"], &[]),
            ("lock", Act(LockIsr), "[timer]", 0, &["pick"], &[]),
            ("pick", Plain, "[timer]", 0, &["unlock", "open"], &[]),
            ("open", Act(UnlockIsr), "[timer]", 0, &["call"], &[]),
            ("call", Call, "[timer]", 0, &["lock again"], &["tick"]),
            ("lock again", Act(LockIsr), "[timer]", 0, &["pick"], &[]),
            ("unlock", Act(UnlockIsr), "[timer]", 0, &["epilogue"], &[]),
            ("epilogue", Act(Epilogue), "[timer]", 0, &["return"], &[]),
            ("return", Act(HandlerReturn), "[timer]", 0, &["end"], &[]),
            ("end", Exit, "[timer]", 0, &[], &[]),
        ],
        functions: &[("tick", "sleep", "out"), ("[timer]", "prologue", "end")],
    },
    roots: &[("[timer]", HB)],
    alarms: &[("sleep", Sv(4))],
    path: Some(PathCase {
        root: 0,
        segments: &[
            (
                "[timer]",
                &[Edge(0), Edge(0), Edge(1), Edge(0), Into("tick")],
            ),
            ("tick", &[]),
        ],
    }),
};

/// `f() + g()`, where `f` locks and `g` unlocks: in the second order the unlock is SV#5.
const ORDER_OF_OPERANDS: Case = Case {
    name: "order of operands",
    drawing: Drawing {
        points: &[
            ("lock", Act(Lock), "f", 10, &["f out"], &[]),
            ("f out", Exit, "f", 0, &[], &[]),
            ("unlock", Act(Unlock), "g", 20, &["g out"], &[]),
            ("g out", Exit, "g", 0, &[], &[]),
            ("init", Act(Init), "main", 30, &["split"], &[]),
            ("split", Plain, "main", 40, &["f first", "g first"], &[]),
            ("f first", Call, "main", 41, &["g then"], &["f"]),
            ("g then", Call, "main", 45, &["out"], &["g"]),
            ("g first", Call, "main", 45, &["f then"], &["g"]),
            ("f then", Call, "main", 41, &["out"], &["f"]),
            ("out", Exit, "main", 0, &[], &[]),
            ("start", Call, "[main]", 0, &["end"], &["main"]),
            ("end", Exit, "[main]", 0, &[], &[]),
        ],
        functions: &[
            ("f", "lock", "f out"),
            ("g", "unlock", "g out"),
            ("main", "init", "out"),
            ("[main]", "start", "end"),
        ],
    },
    roots: &[("[main]", TI)],
    alarms: &[("unlock", Sv(5))],
    path: Some(PathCase {
        root: 0,
        segments: &[
            ("[main]", &[Into("main")]),
            ("main", &[Edge(0), Edge(1), Into("g")]),
            ("g", &[]),
        ],
    }),
};

/// A return inside of an open status pair: leaving the function is P#8.
const PAIR_LEFT_OPEN: Case = Case {
    name: "pair left open",
    drawing: Drawing {
        points: &[
            ("enter", Act(PairEnter), "bump", 10, &["get"], &[]),
            ("get", Act(GetStatus), "bump", 20, &["test"], &[]),
            ("test", Plain, "bump", 30, &["leave", "restore"], &[]),
            ("restore", Act(RestoreStatus), "bump", 40, &["leave"], &[]),
            ("leave", Act(PairLeft), "bump", 10, &["out"], &[]),
            ("out", Exit, "bump", 0, &[], &[]),
            ("init", Act(Init), "main", 50, &["call"], &[]),
            ("call", Call, "main", 60, &["loop"], &["bump"]),
            ("loop", Plain, "main", 70, &["loop"], &[]),
            ("main out", Exit, "main", 0, &[], &[]),
            ("start", Call, "[main]", 0, &["end"], &["main"]),
            ("end", Exit, "[main]", 0, &[], &[]),
        ],
        functions: &[
            ("bump", "enter", "out"),
            ("main", "init", "main out"),
            ("[main]", "start", "end"),
        ],
    },
    roots: &[("[main]", TI)],
    alarms: &[("leave", P(8))],
    path: Some(PathCase {
        root: 0,
        segments: &[
            ("[main]", &[Into("main")]),
            ("main", &[Edge(0), Into("bump")]),
            ("bump", &[Edge(0), Edge(0), Edge(0)]),
        ],
    }),
};

/// A helper that is called twice before the alarm is one finished segment, and so is what it calls.
const NESTED_CALLS: Case = Case {
    name: "nested calls",
    drawing: Drawing {
        points: &[
            ("rest", Act(Neutral), "inner", 10, &["inner out"], &[]),
            ("inner out", Exit, "inner", 0, &[], &[]),
            ("one", Call, "outer", 20, &["two"], &["inner"]),
            ("two", Call, "outer", 30, &["outer out"], &["inner"]),
            ("outer out", Exit, "outer", 0, &[], &[]),
            ("first", Call, "main", 40, &["second"], &["outer"]),
            ("second", Call, "main", 50, &["unlock"], &["outer"]),
            ("unlock", Act(Unlock), "main", 60, &["out"], &[]),
            ("out", Exit, "main", 0, &[], &[]),
        ],
        functions: &[
            ("inner", "rest", "inner out"),
            ("outer", "one", "outer out"),
            ("main", "first", "out"),
        ],
    },
    roots: &[("main", TN)],
    alarms: &[("unlock", Sv(5))],
    path: Some(PathCase {
        root: 0,
        segments: &[
            ("inner", &[Edge(0)]),
            ("outer", &[Over("inner", 0), Over("inner", 0)]),
            ("main", &[Over("outer", 1), Over("outer", 1)]),
        ],
    }),
};

/// A helper that locks where it is called unlocked, and unlocks where it is called locked, is a
/// finished segment for each.
const TWO_STATES: Case = Case {
    name: "two states",
    drawing: Drawing {
        points: &[
            ("test", Plain, "flip", 10, &["lock", "unlock"], &[]),
            ("lock", Act(Lock), "flip", 20, &["flip out"], &[]),
            ("unlock", Act(Unlock), "flip", 30, &["flip out"], &[]),
            ("flip out", Exit, "flip", 0, &[], &[]),
            ("first", Call, "main", 40, &["second"], &["flip"]),
            ("second", Call, "main", 50, &["again"], &["flip"]),
            ("again", Act(Unlock), "main", 60, &["out"], &[]),
            ("out", Exit, "main", 0, &[], &[]),
        ],
        functions: &[("flip", "test", "flip out"), ("main", "first", "out")],
    },
    roots: &[("main", TN)],
    alarms: &[("lock", Sv(4)), ("unlock", Sv(5)), ("again", Sv(5))],
    path: None,
};

/// The unlock is wrong from the second root alone.
const SECOND_ROOT: Case = Case {
    name: "second root",
    drawing: Drawing {
        points: &[
            ("unlock", Act(Unlock), "main", 10, &["out"], &[]),
            ("out", Exit, "main", 0, &[], &[]),
        ],
        functions: &[("main", "unlock", "out")],
    },
    roots: &[("main", TL), ("main", TN)],
    alarms: &[("unlock", Sv(5))],
    path: Some(PathCase {
        root: 1,
        segments: &[("main", &[])],
    }),
};

/// A call that may enter two functions enters the one that raises the alarm.
const TWO_TARGETS: Case = Case {
    name: "two targets",
    drawing: Drawing {
        points: &[
            ("rest", Act(Neutral), "good", 10, &["good out"], &[]),
            ("good out", Exit, "good", 0, &[], &[]),
            ("unlock", Act(Unlock), "bad", 20, &["bad out"], &[]),
            ("bad out", Exit, "bad", 0, &[], &[]),
            ("call", Call, "main", 30, &["out"], &["good", "bad"]),
            ("out", Exit, "main", 0, &[], &[]),
        ],
        functions: &[
            ("good", "rest", "good out"),
            ("bad", "unlock", "bad out"),
            ("main", "call", "out"),
        ],
    },
    roots: &[("main", TN)],
    alarms: &[("unlock", Sv(5))],
    path: Some(PathCase {
        root: 0,
        segments: &[("main", &[Into("bad")]), ("bad", &[])],
    }),
};

pub const CASES: [Case; 10] = [
    LOCK_IN_ONE_BRANCH,
    RECURSION,
    RETURN_BEFORE_EPILOGUE,
    SLEEP_IN_A_TIMER_CALLBACK,
    ORDER_OF_OPERANDS,
    PAIR_LEFT_OPEN,
    NESTED_CALLS,
    TWO_STATES,
    SECOND_ROOT,
    TWO_TARGETS,
];
