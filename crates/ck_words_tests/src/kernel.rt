//! The table of kernel calls: rows by their names, and names of no row.
use ck_base::Op::{self, *};
use ck_base::RowId;
use ck_kernel::EntrySink::{self, Absent, Descriptor, Thread, Timer};
use ck_kernel::{entry_parameter, name, op, parameters, row_of};

/// A name, the number of its row, its op, its number of parameters, and which of them becomes a
/// function.
const ROWS: [(&str, u16, Op, u8, EntrySink); 20] = [
    ("chSysInit", 0, Init, 0, Absent),
    ("CH_IRQ_PROLOGUE", 8, Prologue, 0, Absent),
    ("chSysHalt", 10, Halt, 1, Absent),
    ("chThdCreateStatic", 11, Normal, 5, Thread(4)),
    ("chThdCreate", 12, Normal, 1, Descriptor),
    ("chThdYield", 20, Normal, 0, Absent),
    ("chVTSet", 60, Normal, 4, Timer(3)),
    ("chThdExit", 67, ExitNormal, 1, Absent),
    ("chThdExitS", 68, ExitS, 1, Absent),
    ("chSemSignalI", 75, IWakes, 1, Absent),
    ("chThdCreateSuspendedI", 88, IQuiet, 1, Descriptor),
    ("chVTSetI", 95, IQuiet, 4, Timer(3)),
    ("chVTDoSetI", 96, IQuiet, 4, Timer(3)),
    ("chSchRescheduleS", 102, SSettles, 0, Absent),
    ("chMtxUnlockS", 106, SWakes, 1, Absent),
    ("chMBFetchTimeoutS", 118, SPlain, 3, Absent),
    ("chThdGetSelfX", 120, Free, 0, Absent),
    ("chThdQueueObjectInit", 133, Free, 1, Absent),
    ("chSysGetStatusAndLockX", 134, GetStatus, 0, Absent),
    ("chSysRestoreStatusX", 135, RestoreStatus, 1, Absent),
];

/// Whether a name is that of the row of this number, with this op and these parameters.
fn is_row(text: &str, number: u16, does: Op, count: u8, entry: EntrySink) -> bool {
    match row_of(text) {
        Some(row) => {
            row == RowId(number)
                && name(row) == text
                && op(row) == does
                && parameters(row) == count
                && entry_parameter(row) == entry
        }
        None => false,
    }
}

#[test]
fn rows_of_the_call_table(rt: HostRuntime) {
    for (text, number, does, count, entry) in ROWS {
        assert!(rt; is_row(text, number, does, count, entry), "at {text}");
    }
}

/// bench/row_of.sh counts the instructions of these calls, and of those of the two tests below.
#[tactic(auto, unfolding(ck_kernel::specs::KernelTable::kernel_table))]
#[test]
fn names_of_all_rows(rt: HostRuntime) {
    for number in 0..136 {
        let row = RowId(number);
        assert!(rt; row_of(name(row)) == Some(row), "at {number}");
    }
}

/// Names of an application, and what begins like a name of the kernel's.
const OTHERS: [&str; 10] = [
    "main",
    "i",
    "gpt_cb",
    "palToggleLine",
    "GPTConfig",
    "commands",
    "uint32_t",
    "",
    "c",
    "Chsysinit",
];

#[test]
fn names_of_no_kernel_call(rt: HostRuntime) {
    for text in OTHERS {
        assert!(rt; row_of(text).is_none(), "at {text}");
    }
}

/// Names of the kernel that are outside the table, and almost those of rows.
const OUTSIDE: [&str; 8] = [
    "chSysUnconditionalLock",
    "chSchDoReschedule",
    "CH_IRQ_HANDLER",
    "chThdSleepMilliseconds",
    "chSysInit ",
    "chSysIni",
    "chsysinit",
    "channel",
];

#[test]
fn names_outside_the_table(rt: HostRuntime) {
    for text in OUTSIDE {
        assert!(rt; row_of(text).is_none(), "at {text}");
    }
}
