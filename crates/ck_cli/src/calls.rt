//! The kernel calls of the file form.
ghost use Rattle.std.specs.Prelude.{◌≡◌, find};
ghost use Rattle.std.specs.Str.{bytes_eq};
ghost use Rattle.ck_cli.specs.Calls.{every_call, name_of, op_of};

use ck_base::Op;

/// A kernel call that the file form allows.
#[derive(Clone, Copy)]
pub(crate) enum KernelCall {
    Init,
    Disable,
    Suspend,
    Enable,
    Lock,
    Unlock,
}

/// Every one of them.
const EVERY_CALL: [KernelCall; 6] = [
    KernelCall::Init,
    KernelCall::Disable,
    KernelCall::Suspend,
    KernelCall::Enable,
    KernelCall::Lock,
    KernelCall::Unlock,
];

/// The call of this name, if there is one.
pub(crate) fn call_named(text: &[u8]) -> Option<KernelCall>
    ensures { result ≡ find (λ call. bytes_eq (name_of call) text.now) every_call }
{
    EVERY_CALL
        .iter()
        .copied()
        .find(|call| name(*call).as_bytes() == text)
}

/// The call's op.
pub(crate) fn op(call: KernelCall) -> Op
    ensures { result ≡ op_of call }
{
    match call {
        KernelCall::Init => Op::Init,
        KernelCall::Disable => Op::Disable,
        KernelCall::Suspend => Op::Suspend,
        KernelCall::Enable => Op::Enable,
        KernelCall::Lock => Op::Lock,
        KernelCall::Unlock => Op::Unlock,
    }
}

/// The call's name in C.
pub(crate) fn name(call: KernelCall) -> &'static str
    ensures { result.now ≡ name_of call }
{
    match call {
        KernelCall::Init => "chSysInit",
        KernelCall::Disable => "chSysDisable",
        KernelCall::Suspend => "chSysSuspend",
        KernelCall::Enable => "chSysEnable",
        KernelCall::Lock => "chSysLock",
        KernelCall::Unlock => "chSysUnlock",
    }
}
