//! The table as data, in the order of its rows.

use crate::entries::EntrySink;
use ck_base::Op;

/// What a row of the table has.
#[derive(Clone, Copy)]
pub struct Call {
    pub name: &'static str,
    pub op: Op,
    pub parameters: u8,
    pub entry: EntrySink,
}

/// Rows, written as `NAME OP PARAMETERS ENTRY;`.
macro_rules! calls {
    ($($name:literal $op:ident $parameters:literal $entry:ident $(($number:literal))?;)*) => {
        [$(
            Call {
                name: $name,
                op: Op::$op,
                parameters: $parameters,
                entry: EntrySink::$entry $(($number))?,
            },
        )*]
    };
}

/// The rows by their numbers. tools/check_header.sh reads these lines.
pub static CALLS: [Call; 136] = calls! {
    // the system, and the ends of a handler
    "chSysInit" Init 0 Absent;
    "chSysDisable" Disable 0 Absent;
    "chSysSuspend" Suspend 0 Absent;
    "chSysEnable" Enable 0 Absent;
    "chSysLock" Lock 0 Absent;
    "chSysUnlock" Unlock 0 Absent;
    "chSysLockFromISR" LockIsr 0 Absent;
    "chSysUnlockFromISR" UnlockIsr 0 Absent;
    "CH_IRQ_PROLOGUE" Prologue 0 Absent;
    "CH_IRQ_EPILOGUE" Epilogue 0 Absent;
    "chSysHalt" Halt 1 Absent;
    // the normal class
    "chThdCreateStatic" Normal 5 Thread(4);
    "chThdCreate" Normal 1 Descriptor;
    "chThdCreateSuspended" Normal 1 Descriptor;
    "chThdStart" Normal 1 Absent;
    "chThdSetPriority" Normal 1 Absent;
    "chThdSleepUntil" Normal 1 Absent;
    "chThdSleepUntilWindowed" Normal 2 Absent;
    "chThdTerminate" Normal 1 Absent;
    "chThdSleep" Normal 1 Absent;
    "chThdYield" Normal 0 Absent;
    "chThdResume" Normal 2 Absent;
    "chThdWait" Normal 1 Absent;
    "chSemReset" Normal 2 Absent;
    "chSemWait" Normal 1 Absent;
    "chSemWaitTimeout" Normal 2 Absent;
    "chSemSignal" Normal 1 Absent;
    "chSemSignalWait" Normal 2 Absent;
    "chBSemWait" Normal 1 Absent;
    "chBSemWaitTimeout" Normal 2 Absent;
    "chBSemReset" Normal 2 Absent;
    "chBSemSignal" Normal 1 Absent;
    "chMtxLock" Normal 1 Absent;
    "chMtxTryLock" Normal 1 Absent;
    "chMtxUnlock" Normal 1 Absent;
    "chMtxUnlockAll" Normal 0 Absent;
    "chCondSignal" Normal 1 Absent;
    "chCondBroadcast" Normal 1 Absent;
    "chCondWait" Normal 1 Absent;
    "chEvtRegisterMask" Normal 3 Absent;
    "chEvtUnregister" Normal 2 Absent;
    "chEvtGetAndClearEvents" Normal 1 Absent;
    "chEvtAddEvents" Normal 1 Absent;
    "chEvtSignal" Normal 2 Absent;
    "chEvtBroadcastFlags" Normal 2 Absent;
    "chEvtBroadcast" Normal 1 Absent;
    "chEvtWaitOne" Normal 1 Absent;
    "chEvtWaitAny" Normal 1 Absent;
    "chEvtWaitAll" Normal 1 Absent;
    "chEvtWaitOneTimeout" Normal 2 Absent;
    "chEvtWaitAnyTimeout" Normal 2 Absent;
    "chEvtWaitAllTimeout" Normal 2 Absent;
    "chMsgSend" Normal 2 Absent;
    "chMsgWait" Normal 0 Absent;
    "chMsgRelease" Normal 2 Absent;
    "chMsgGet" Normal 1 Absent;
    "chMBReset" Normal 1 Absent;
    "chMBPostTimeout" Normal 3 Absent;
    "chMBPostAheadTimeout" Normal 3 Absent;
    "chMBFetchTimeout" Normal 3 Absent;
    "chVTSet" Normal 4 Timer(3);
    "chVTReset" Normal 1 Absent;
    "chVTIsArmed" Normal 1 Absent;
    "chVTGetSystemTime" Normal 0 Absent;
    "chHeapAlloc" Normal 2 Absent;
    "chHeapFree" Normal 1 Absent;
    "chCoreAlloc" Normal 1 Absent;
    // the ends of a thread
    "chThdExit" ExitNormal 1 Absent;
    "chThdExitS" ExitS 1 Absent;
    // I-class calls that may wake a thread
    "chThdCreateI" IWakes 1 Descriptor;
    "chThdStartI" IWakes 1 Absent;
    "chThdResumeI" IWakes 2 Absent;
    "chThdDequeueNextI" IWakes 2 Absent;
    "chThdDequeueAllI" IWakes 2 Absent;
    "chSemResetI" IWakes 2 Absent;
    "chSemSignalI" IWakes 1 Absent;
    "chSemAddCounterI" IWakes 2 Absent;
    "chBSemResetI" IWakes 2 Absent;
    "chBSemSignalI" IWakes 1 Absent;
    "chCondSignalI" IWakes 1 Absent;
    "chCondBroadcastI" IWakes 1 Absent;
    "chEvtSignalI" IWakes 2 Absent;
    "chEvtBroadcastFlagsI" IWakes 2 Absent;
    "chEvtBroadcastI" IWakes 1 Absent;
    "chMBResetI" IWakes 1 Absent;
    "chMBPostI" IWakes 2 Absent;
    "chMBPostAheadI" IWakes 2 Absent;
    "chMBFetchI" IWakes 2 Absent;
    // I-class calls that wake none
    "chThdCreateSuspendedI" IQuiet 1 Descriptor;
    "chSemFastSignalI" IQuiet 1 Absent;
    "chSemFastWaitI" IQuiet 1 Absent;
    "chSemGetCounterI" IQuiet 1 Absent;
    "chBSemGetStateI" IQuiet 1 Absent;
    "chMBGetUsedCountI" IQuiet 1 Absent;
    "chMBGetFreeCountI" IQuiet 1 Absent;
    "chVTSetI" IQuiet 4 Timer(3);
    "chVTDoSetI" IQuiet 4 Timer(3);
    "chVTResetI" IQuiet 1 Absent;
    "chVTDoResetI" IQuiet 1 Absent;
    "chVTIsArmedI" IQuiet 1 Absent;
    "chSchIsRescRequiredI" IQuiet 0 Absent;
    "chCoreAllocI" IQuiet 1 Absent;
    // S-class calls that always reschedule
    "chSchRescheduleS" SSettles 0 Absent;
    "chThdSleepS" SSettles 1 Absent;
    "chThdSuspendS" SSettles 1 Absent;
    "chCondWaitS" SSettles 1 Absent;
    // S-class calls that may wake a thread and don't reschedule
    "chMtxUnlockS" SWakes 1 Absent;
    // S-class calls that leave a due reschedule due
    "chThdSuspendTimeoutS" SPlain 2 Absent;
    "chThdResumeS" SPlain 2 Absent;
    "chThdEnqueueTimeoutS" SPlain 2 Absent;
    "chSemWaitS" SPlain 1 Absent;
    "chSemWaitTimeoutS" SPlain 2 Absent;
    "chBSemWaitS" SPlain 1 Absent;
    "chBSemWaitTimeoutS" SPlain 2 Absent;
    "chMtxLockS" SPlain 1 Absent;
    "chMtxTryLockS" SPlain 1 Absent;
    "chMBPostTimeoutS" SPlain 3 Absent;
    "chMBPostAheadTimeoutS" SPlain 3 Absent;
    "chMBFetchTimeoutS" SPlain 3 Absent;
    // calls that are allowed in any state
    "chRegSetThreadName" Free 1 Absent;
    "chThdGetSelfX" Free 0 Absent;
    "chThdGetPriorityX" Free 0 Absent;
    "chThdShouldTerminateX" Free 0 Absent;
    "chThdTerminatedX" Free 1 Absent;
    "chVTGetSystemTimeX" Free 0 Absent;
    "chVTTimeElapsedSinceX" Free 1 Absent;
    "chSemObjectInit" Free 2 Absent;
    "chBSemObjectInit" Free 2 Absent;
    "chMtxObjectInit" Free 1 Absent;
    "chCondObjectInit" Free 1 Absent;
    "chEvtObjectInit" Free 1 Absent;
    "chMBObjectInit" Free 3 Absent;
    "chVTObjectInit" Free 1 Absent;
    "chThdQueueObjectInit" Free 1 Absent;
    // the status pair
    "chSysGetStatusAndLockX" GetStatus 0 Absent;
    "chSysRestoreStatusX" RestoreStatus 1 Absent;
};
