//! Whole reports, worked out by hand: each project's text, its graph as docs/REPORT.md names its points, a
//! path to each alarm, and the report.
use crate::projects::Called::{self, Kernel, Outside, Return, ThreadReturn};
use crate::projects::Way::{Call, Edge, Enter};
use crate::projects::What::{self, Act, Exit, Plain};
use crate::projects::{Project, accepted_report, report_of, text_of};
use ck_base::Kind::{Order as OrderBroken, P, Sv};
use ck_base::Op::{
    Disable, Enable, Epilogue, ExitNormal, GetStatus, HandlerReturn, Init, Lock, LockIsr, Neutral,
    Normal, PairEnter, PairLeft, Prologue, RestoreStatus, Unlock, UnlockIsr,
};
use ck_graph::Label::{self, Case, Default, False, Order, Pick, True};
use ck_texts::Counts;
use std::alloc::Global;
use std::test::Fail;

/// The one way on.
const ON: Label = Label::Plain;

/// The second lock is SV#4. The text has no line marker.
const DOUBLE_LOCK: Project = Project {
    name: "double lock",
    text: &[
        "void chSysInit(void);",
        "void chSysLock(void);",
        "int main(void) {",
        "  chSysInit();",
        "  chSysLock();",
        "  chSysLock();",
        "}",
    ],
    points: &[
        (Act(Init, Kernel("chSysInit")), 0, (4, 3), &[(1, ON)], &[]),
        (Act(Lock, Kernel("chSysLock")), 0, (5, 3), &[(2, ON)], &[]),
        (Act(Lock, Kernel("chSysLock")), 0, (6, 3), &[(3, ON)], &[]),
        (Exit, 0, (3, 5), &[], &[]),
        (What::Call, 1, (3, 5), &[(5, ON)], &[0]),
        (Exit, 1, (3, 5), &[], &[]),
    ],
    functions: &[("main", 0, 3), ("[main]", 4, 5)],
    outside: &[],
    roots: &[1],
    alarms: &[(2, Sv(4), 0, &[(1, &[Enter(0)]), (0, &[Edge(0), Edge(0)])])],
    report: &[
        "rtcheck 1",
        "rejected 1",
        "alarm 1 SV#4 main.i:6:3 chSysLock",
        "entry main",
        "segment 1 [main]",
        "  enter main.i:3:5 main",
        "segment 2 main",
        "  act main.i:4:3 chSysInit",
        "  act main.i:5:3 chSysLock",
        "  alarm",
    ],
};

/// Past the lock, the unlock is SV#5.
const LOCK_IN_ONE_BRANCH: Project = Project {
    name: "lock in one branch",
    text: &[
        "# 1 \"main.c\"",
        "int v;",
        "int main(void) {",
        "  chSysInit();",
        "  if (v) chSysLock();",
        "  chSysUnlock();",
        "  return 0;",
        "}",
    ],
    points: &[
        (Plain, 0, (2, 5), &[(1, ON)], &[]),
        (Act(Init, Kernel("chSysInit")), 0, (3, 3), &[(2, ON)], &[]),
        (Plain, 0, (4, 7), &[(3, True), (4, False)], &[]),
        (Act(Lock, Kernel("chSysLock")), 0, (4, 10), &[(4, ON)], &[]),
        (
            Act(Unlock, Kernel("chSysUnlock")),
            0,
            (5, 3),
            &[(5, ON)],
            &[],
        ),
        (Exit, 0, (2, 5), &[], &[]),
        (What::Call, 1, (2, 5), &[(7, ON)], &[0]),
        (Exit, 1, (2, 5), &[], &[]),
    ],
    functions: &[("main", 0, 5), ("[main]", 6, 7)],
    outside: &[],
    roots: &[1],
    alarms: &[(
        4,
        Sv(5),
        0,
        &[(1, &[Enter(0)]), (0, &[Edge(0), Edge(0), Edge(1)])],
    )],
    report: &[
        "rtcheck 1",
        "rejected 1",
        "alarm 1 SV#5 main.c:5:3 chSysUnlock",
        "entry main",
        "segment 1 [main]",
        "  enter main.c:2:5 main",
        "segment 2 main",
        "  act main.c:3:3 chSysInit",
        "  choose main.c:4:7 false",
        "  alarm",
    ],
};

/// The helper returns before its epilogue, which its return finds.
const RETURN_BEFORE_EPILOGUE: Project = Project {
    name: "return before epilogue",
    text: &[
        "# 1 \"main.c\"",
        "int v;",
        "void Vector40(void) {",
        "  CH_IRQ_PROLOGUE();",
        "  if (v) return;",
        "  CH_IRQ_EPILOGUE();",
        "}",
        "int main(void) { chSysInit(); while (1) {} }",
    ],
    points: &[
        (Plain, 0, (2, 6), &[(1, ON)], &[]),
        (
            Act(Prologue, Kernel("CH_IRQ_PROLOGUE")),
            0,
            (3, 3),
            &[(2, ON)],
            &[],
        ),
        (Plain, 0, (4, 7), &[(3, True), (4, False)], &[]),
        (Plain, 0, (4, 10), &[(5, ON)], &[]),
        (
            Act(Epilogue, Kernel("CH_IRQ_EPILOGUE")),
            0,
            (5, 3),
            &[(5, ON)],
            &[],
        ),
        (Exit, 0, (2, 6), &[], &[]),
        (Exit, 1, (7, 5), &[], &[]),
        (Exit, 2, (7, 5), &[], &[]),
        (What::Call, 3, (2, 6), &[(9, ON)], &[0]),
        (Act(HandlerReturn, Return), 3, (2, 6), &[(10, ON)], &[]),
        (Exit, 3, (2, 6), &[], &[]),
    ],
    functions: &[
        ("Vector40", 0, 5),
        ("main", 6, 6),
        ("[main]", 7, 7),
        ("[vector Vector40]", 8, 10),
    ],
    outside: &[],
    roots: &[2, 3],
    alarms: &[(
        9,
        P(3),
        1,
        &[
            (0, &[Edge(0), Edge(0), Edge(0), Edge(0)]),
            (3, &[Call(0, 0)]),
        ],
    )],
    report: &[
        "rtcheck 1",
        "rejected 1",
        "alarm 1 P#3 main.c:2:6 return",
        "entry vector Vector40",
        "segment 1 Vector40",
        "  act main.c:3:3 CH_IRQ_PROLOGUE",
        "  choose main.c:4:7 true",
        "  return",
        "segment 2 [vector Vector40]",
        "  call main.c:2:6 Vector40 1",
        "  alarm",
    ],
};

/// The points of the timer's function have no site.
const SLEEP_IN_A_TIMER_CALLBACK: Project = Project {
    name: "sleep in a timer callback",
    text: &[
        "# 1 \"main.c\"",
        "virtual_timer_t t;",
        "void tick(void *p) {",
        "  chThdSleep(10);",
        "}",
        "int main(void) {",
        "  chSysInit();",
        "  chVTSet(&t, 100, tick, 0);",
        "  while (1) {}",
        "}",
    ],
    points: &[
        (Plain, 0, (2, 6), &[(1, ON)], &[]),
        (
            Act(Normal, Kernel("chThdSleep")),
            0,
            (3, 3),
            &[(2, ON)],
            &[],
        ),
        (Exit, 0, (2, 6), &[], &[]),
        (Exit, 1, (5, 5), &[], &[]),
        (Exit, 2, (5, 5), &[], &[]),
        (
            Act(Prologue, Kernel("CH_IRQ_PROLOGUE")),
            3,
            (0, 0),
            &[(6, ON)],
            &[],
        ),
        (
            Act(LockIsr, Kernel("chSysLockFromISR")),
            3,
            (0, 0),
            &[(7, ON)],
            &[],
        ),
        (Plain, 3, (0, 0), &[(11, Pick(0)), (8, Pick(1))], &[]),
        (
            Act(UnlockIsr, Kernel("chSysUnlockFromISR")),
            3,
            (0, 0),
            &[(9, ON)],
            &[],
        ),
        (What::Call, 3, (0, 0), &[(10, ON)], &[0]),
        (
            Act(LockIsr, Kernel("chSysLockFromISR")),
            3,
            (0, 0),
            &[(7, ON)],
            &[],
        ),
        (
            Act(UnlockIsr, Kernel("chSysUnlockFromISR")),
            3,
            (0, 0),
            &[(12, ON)],
            &[],
        ),
        (
            Act(Epilogue, Kernel("CH_IRQ_EPILOGUE")),
            3,
            (0, 0),
            &[(13, ON)],
            &[],
        ),
        (Act(HandlerReturn, Return), 3, (0, 0), &[(14, ON)], &[]),
        (Exit, 3, (0, 0), &[], &[]),
    ],
    functions: &[
        ("tick", 0, 2),
        ("main", 3, 3),
        ("[main]", 4, 4),
        ("[timer]", 5, 14),
    ],
    outside: &[],
    roots: &[2, 3],
    alarms: &[(
        1,
        Sv(4),
        1,
        &[
            (3, &[Edge(0), Edge(0), Edge(1), Edge(0), Enter(0)]),
            (0, &[Edge(0)]),
        ],
    )],
    report: &[
        "rtcheck 1",
        "rejected 1",
        "alarm 1 SV#4 main.c:3:3 chThdSleep",
        "entry timer",
        "segment 1 [timer]",
        "  act - CH_IRQ_PROLOGUE",
        "  act - chSysLockFromISR",
        "  choose - 1",
        "  act - chSysUnlockFromISR",
        "  enter - tick",
        "segment 2 tick",
        "  alarm",
    ],
};

/// In the second order, `g` unlocks before `f` has locked.
const ORDER_OF_OPERANDS: Project = Project {
    name: "order of operands",
    text: &[
        "# 1 \"main.c\"",
        "int f(void) { chSysLock(); return 1; }",
        "int g(void) { chSysUnlock(); return 2; }",
        "int main(void) {",
        "  chSysInit();",
        "  return f() + g();",
        "}",
    ],
    points: &[
        (Plain, 0, (1, 5), &[(1, ON)], &[]),
        (Act(Lock, Kernel("chSysLock")), 0, (1, 15), &[(2, ON)], &[]),
        (Exit, 0, (1, 5), &[], &[]),
        (Plain, 1, (2, 5), &[(4, ON)], &[]),
        (
            Act(Unlock, Kernel("chSysUnlock")),
            1,
            (2, 15),
            &[(5, ON)],
            &[],
        ),
        (Exit, 1, (2, 5), &[], &[]),
        (Plain, 2, (3, 5), &[(7, ON)], &[]),
        (Act(Init, Kernel("chSysInit")), 2, (4, 3), &[(8, ON)], &[]),
        (Plain, 2, (5, 10), &[(9, Order(1)), (11, Order(2))], &[]),
        (What::Call, 2, (5, 10), &[(10, ON)], &[0]),
        (What::Call, 2, (5, 16), &[(13, ON)], &[1]),
        (What::Call, 2, (5, 16), &[(12, ON)], &[1]),
        (What::Call, 2, (5, 10), &[(13, ON)], &[0]),
        (Exit, 2, (3, 5), &[], &[]),
        (What::Call, 3, (3, 5), &[(15, ON)], &[2]),
        (Exit, 3, (3, 5), &[], &[]),
    ],
    functions: &[
        ("f", 0, 2),
        ("g", 3, 5),
        ("main", 6, 13),
        ("[main]", 14, 15),
    ],
    outside: &[],
    roots: &[3],
    alarms: &[(
        4,
        Sv(5),
        0,
        &[
            (3, &[Enter(2)]),
            (2, &[Edge(0), Edge(0), Edge(1), Enter(1)]),
            (1, &[Edge(0)]),
        ],
    )],
    report: &[
        "rtcheck 1",
        "rejected 1",
        "alarm 1 SV#5 main.c:2:15 chSysUnlock",
        "entry main",
        "segment 1 [main]",
        "  enter main.c:3:5 main",
        "segment 2 main",
        "  act main.c:4:3 chSysInit",
        "  choose main.c:5:10 order 2",
        "  enter main.c:5:16 g",
        "segment 3 g",
        "  alarm",
    ],
};

/// `bump` returns with its pair open. Its begin isn't printed.
const PAIR_LEFT_OPEN: Project = Project {
    name: "pair left open",
    text: &[
        "# 1 \"main.c\"",
        "int n;",
        "void bump(void) {",
        "  syssts_t s = chSysGetStatusAndLockX();",
        "  if (n) return;",
        "  chSysRestoreStatusX(s);",
        "}",
        "int main(void) { chSysInit(); bump(); while (1) {} }",
    ],
    points: &[
        (Plain, 0, (2, 6), &[(1, ON)], &[]),
        (Act(PairEnter, Called::Entry), 0, (2, 6), &[(2, ON)], &[]),
        (
            Act(GetStatus, Kernel("chSysGetStatusAndLockX")),
            0,
            (3, 16),
            &[(3, ON)],
            &[],
        ),
        (Plain, 0, (4, 7), &[(4, True), (5, False)], &[]),
        (Plain, 0, (4, 10), &[(6, ON)], &[]),
        (
            Act(RestoreStatus, Kernel("chSysRestoreStatusX")),
            0,
            (5, 3),
            &[(6, ON)],
            &[],
        ),
        (Act(PairLeft, Return), 0, (2, 6), &[(7, ON)], &[]),
        (Exit, 0, (2, 6), &[], &[]),
        (Plain, 1, (7, 5), &[(9, ON)], &[]),
        (Act(Init, Kernel("chSysInit")), 1, (7, 18), &[(10, ON)], &[]),
        (What::Call, 1, (7, 31), &[(11, ON)], &[0]),
        (Exit, 1, (7, 5), &[], &[]),
        (What::Call, 2, (7, 5), &[(13, ON)], &[1]),
        (Exit, 2, (7, 5), &[], &[]),
    ],
    functions: &[("bump", 0, 7), ("main", 8, 11), ("[main]", 12, 13)],
    outside: &[],
    roots: &[2],
    alarms: &[(
        6,
        P(8),
        0,
        &[
            (2, &[Enter(1)]),
            (1, &[Edge(0), Edge(0), Enter(0)]),
            (0, &[Edge(0), Edge(0), Edge(0), Edge(0), Edge(0)]),
        ],
    )],
    report: &[
        "rtcheck 1",
        "rejected 1",
        "alarm 1 P#8 main.c:2:6 return",
        "entry main",
        "segment 1 [main]",
        "  enter main.c:7:5 main",
        "segment 2 main",
        "  act main.c:7:18 chSysInit",
        "  enter main.c:7:31 bump",
        "segment 3 bump",
        "  act main.c:3:16 chSysGetStatusAndLockX",
        "  choose main.c:4:7 true",
        "  alarm",
    ],
};

/// Three alarms in a thread, which calls a helper twice by one finished segment, an outside function and a
/// `switch`, whose own names and lines come from two markers.
const SEVERAL_ALARMS: Project = Project {
    name: "several alarms",
    text: &[
        "# 1 \"main.c\"",
        "void help(void) { chSysUnlock(); }",
        "# 40 \"wo\\\"rk.c\"",
        "void work(void *p) {",
        "  help(); help(); led();",
        "  switch (v) { case 1: break; case 7: chSysDisable(); }",
        "  chSysEnable();",
        "}",
    ],
    points: &[
        (Plain, 0, (1, 6), &[(1, ON)], &[]),
        (
            Act(Unlock, Kernel("chSysUnlock")),
            0,
            (1, 19),
            &[(2, ON)],
            &[],
        ),
        (Exit, 0, (1, 6), &[], &[]),
        (What::Call, 1, (4, 3), &[(4, ON)], &[0]),
        (What::Call, 1, (4, 11), &[(5, ON)], &[0]),
        (Act(Neutral, Outside(1)), 1, (4, 19), &[(6, ON)], &[]),
        (
            Plain,
            1,
            (5, 11),
            &[(8, Case(0)), (7, Case(1)), (8, Default)],
            &[],
        ),
        (
            Act(Disable, Kernel("chSysDisable")),
            1,
            (5, 39),
            &[(8, ON)],
            &[],
        ),
        (
            Act(Enable, Kernel("chSysEnable")),
            1,
            (6, 3),
            &[(9, ON)],
            &[],
        ),
        (Exit, 1, (3, 6), &[], &[]),
        (What::Call, 2, (3, 6), &[(11, ON)], &[1]),
        (Act(ExitNormal, ThreadReturn), 2, (3, 6), &[(12, ON)], &[]),
        (Exit, 2, (3, 6), &[], &[]),
    ],
    functions: &[("help", 0, 2), ("work", 3, 9), ("[thread work]", 10, 12)],
    outside: &["lcd", "led"],
    roots: &[2],
    alarms: &[
        (
            1,
            OrderBroken,
            0,
            &[(2, &[Enter(1)]), (1, &[Enter(0)]), (0, &[Edge(0)])],
        ),
        (
            7,
            Sv(1),
            0,
            &[
                (0, &[Edge(0), Edge(0)]),
                (2, &[Enter(1)]),
                (1, &[Call(0, 0), Call(0, 0), Edge(0), Edge(1)]),
            ],
        ),
        (
            11,
            P(4),
            0,
            &[
                (0, &[Edge(0), Edge(0)]),
                (1, &[Call(0, 0), Call(0, 0), Edge(0), Edge(2), Edge(0)]),
                (2, &[Call(1, 1)]),
            ],
        ),
    ],
    report: &[
        "rtcheck 1",
        "rejected 3",
        "alarm 1 ORDER main.c:1:19 chSysUnlock",
        "entry thread work",
        "segment 1 [thread work]",
        "  enter wo\\\"rk.c:40:6 work",
        "segment 2 work",
        "  enter wo\\\"rk.c:41:3 help",
        "segment 3 help",
        "  alarm",
        "alarm 2 SV#1 wo\\\"rk.c:42:39 chSysDisable",
        "entry thread work",
        "segment 1 help",
        "  act main.c:1:19 chSysUnlock",
        "  return",
        "segment 2 [thread work]",
        "  enter wo\\\"rk.c:40:6 work",
        "segment 3 work",
        "  call wo\\\"rk.c:41:3 help 1",
        "  call wo\\\"rk.c:41:11 help 1",
        "  act wo\\\"rk.c:41:19 led",
        "  choose wo\\\"rk.c:42:11 case 2",
        "  alarm",
        "alarm 3 P#4 wo\\\"rk.c:40:6 thread return",
        "entry thread work",
        "segment 1 help",
        "  act main.c:1:19 chSysUnlock",
        "  return",
        "segment 2 work",
        "  call wo\\\"rk.c:41:3 help 1",
        "  call wo\\\"rk.c:41:11 help 1",
        "  act wo\\\"rk.c:41:19 led",
        "  choose wo\\\"rk.c:42:11 default",
        "  act wo\\\"rk.c:43:3 chSysEnable",
        "  return",
        "segment 3 [thread work]",
        "  call wo\\\"rk.c:40:6 work 2",
        "  alarm",
    ],
};

const PROJECTS: [Project; 7] = [
    DOUBLE_LOCK,
    LOCK_IN_ONE_BRANCH,
    RETURN_BEFORE_EPILOGUE,
    SLEEP_IN_A_TIMER_CALLBACK,
    ORDER_OF_OPERANDS,
    PAIR_LEFT_OPEN,
    SEVERAL_ALARMS,
];

/// Whether a project has its report, byte for byte.
fn has_report(alloc: Global, project: &Project) -> Result<bool, Fail> {
    let expected = text_of(alloc, project.report)?;
    match report_of(alloc, project)? {
        Some(text) => Ok(text.as_slice() == expected.as_bytes()),
        None => Ok(false),
    }
}

#[test]
fn reports_of_projects(rt: HostRuntime) -> Result<(), Fail> {
    for project in PROJECTS {
        assert!(rt; has_report(rt.alloc(), &project)?, "{}", project.name);
    }
    Ok(())
}

/// Whether the numbers of an accepted project stand in its report.
fn has_counts(alloc: Global) -> Result<bool, Fail> {
    let counts = Counts {
        files: 1,
        functions: 6,
        entries: 5,
    };
    let expected = text_of(
        alloc,
        &["rtcheck 1", "accepted", "files 1 functions 6 entries 5"],
    )?;
    match accepted_report(alloc, &DOUBLE_LOCK, counts)? {
        Some(text) => Ok(text.as_slice() == expected.as_bytes()),
        None => Ok(false),
    }
}

#[test]
fn report_of_an_accepted_project(rt: HostRuntime) -> Result<(), Fail> {
    assert!(rt; has_counts(rt.alloc())?);
    Ok(())
}
