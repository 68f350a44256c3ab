//! Synthetic functions, drawn step by step.
ghost use Rattle.std.specs.Prelude.{◌≡◌, ◌+◌, ◌*◌, ◌<◌, ◌^◌, ◌++◌, ◌∷◌, length, IfOk, OnOk};
ghost use Rattle.ck_contexts.specs.Synthetic as spec;

use crate::contexts::Context;
use crate::steps::Step;
use ck_base::{FnId, Op, OutOfMemory, RowId};
use ck_graph::ActName;
use std::alloc::Global;

/// The steps round a context. The number is that of the first call.
pub(crate) fn steps(alloc: Global, number: u32, context: &Context) -> Result<Vec<Step>, OutOfMemory>
    requires { number + length (spec.steps number context.now) < 2 ^ 32 }
    ensures { IfOk result (λ steps. steps.items ≡ spec.steps number context.now) }
{
    match context {
        Context::Main(main) => one_call(alloc, number, main.function, &[]),
        Context::Thread(thread) => one_call(alloc, number, thread.function, &[thread_return(2)]),
        Context::Vector { function, .. } => {
            one_call(alloc, number, function.function, &[handler_return(2)])
        }
        Context::Callback { functions, locked } => {
            if *locked {
                locked_callback(alloc, number, functions)
            } else {
                callback(alloc, number, functions)
            }
        }
        Context::Timer { functions } => timer(alloc, number, functions),
    }
}

/// The call of a function, and the steps after it.
fn one_call(
    alloc: Global,
    number: u32,
    function: FnId,
    after: &[Step],
) -> Result<Vec<Step>, OutOfMemory>
    ensures { IfOk result (λ steps. steps.items ≡ Step.Call number function 1 ∷ after.now) }
{
    let mut steps = Vec::from_slice(alloc, &[Step::Call(number, function, 1)])?;
    steps.extend_from_slice(after)?;
    Ok(steps)
}

/// The steps round a callback that isn't locked.
fn callback(alloc: Global, number: u32, functions: &[FnId]) -> Result<Vec<Step>, OutOfMemory>
    requires { number + length functions.now + 4 < 2 ^ 32 }
    ensures { IfOk result (λ steps. steps.items ≡ spec.callback number functions.now) }
{
    let after = 2 + functions.len() as u32;
    let mut steps = Vec::from_slice(alloc, &[prologue(1), pick(after, 2, 1, functions)])?;
    add_calls(&mut steps, number, functions, 1)?;
    steps.extend_from_slice(&[epilogue(after + 1), handler_return(after + 2)])?;
    Ok(steps)
}

/// The steps round a callback that is locked.
fn locked_callback(alloc: Global, number: u32, functions: &[FnId]) -> Result<Vec<Step>, OutOfMemory>
    requires { number + length functions.now + 6 < 2 ^ 32 }
    ensures { IfOk result (λ steps. steps.items ≡ spec.locked_callback number functions.now) }
{
    let after = 3 + functions.len() as u32;
    let mut steps = Vec::from_slice(alloc, &[prologue(1), lock(2), pick(after, 3, 1, functions)])?;
    add_calls(&mut steps, number, functions, 2)?;
    steps.extend_from_slice(&[
        unlock(after + 1),
        epilogue(after + 2),
        handler_return(after + 3),
    ])?;
    Ok(steps)
}

/// The steps round the timer.
fn timer(alloc: Global, number: u32, functions: &[FnId]) -> Result<Vec<Step>, OutOfMemory>
    requires { number + 3 * length functions.now + 6 < 2 ^ 32 }
    ensures { IfOk result (λ steps. steps.items ≡ spec.timer number functions.now) }
{
    let after = 3 + 3 * functions.len() as u32;
    let mut steps = Vec::from_slice(alloc, &[prologue(1), lock(2), pick(after, 3, 3, functions)])?;
    add_unlocked_calls(&mut steps, number, functions)?;
    steps.extend_from_slice(&[
        unlock(after + 1),
        epilogue(after + 2),
        handler_return(after + 3),
    ])?;
    Ok(steps)
}

/// Adds the calls of functions, each of which leads to a place.
fn add_calls(
    steps: &mut Vec<Step>,
    number: u32,
    functions: &[FnId],
    next: u32,
) -> Result<(), OutOfMemory>
    requires { number + length functions.now < 2 ^ 32 }
    ensures { OnOk result (steps.new.items ≡ steps.old.items ++ spec.calls number functions.now next) }
{
    for (k, function) in functions.iter().enumerate() {
        steps.push(Step::Call(number + k as u32, *function, next))?;
    }
    Ok(())
}

/// Adds the timer's calls of functions, each unlocked before and locked after.
fn add_unlocked_calls(
    steps: &mut Vec<Step>,
    number: u32,
    functions: &[FnId],
) -> Result<(), OutOfMemory>
    requires { number + 3 * length functions.now + 6 < 2 ^ 32 }
    ensures { OnOk result (steps.new.items ≡ steps.old.items ++ spec.unlocked_calls 3 number functions.now 2) }
{
    for (k, function) in functions.iter().enumerate() {
        let k = k as u32;
        let place = 3 + 3 * k;
        steps.extend_from_slice(&[
            unlock(place + 1),
            Step::Call(number + k, *function, place + 2),
            lock(2),
        ])?;
    }
    Ok(())
}

/// The choice of one of these functions, or of none.
fn pick(after: u32, part: u32, size: u32, functions: &[FnId]) -> Step
    requires { length functions.now < 2 ^ 32 }
    ensures { result ≡ Step.Pick after part size (length functions.now) }
{
    Step::Pick {
        after,
        part,
        size,
        functions: functions.len() as u32,
    }
}

/// chSysLockFromISR, a row of docs/KERNEL.md.
fn lock(next: u32) -> Step
    ensures { result ≡ spec.lock next }
{
    Step::Act(Op::LockIsr, ActName::Kernel(RowId(6)), next)
}

/// chSysUnlockFromISR.
fn unlock(next: u32) -> Step
    ensures { result ≡ spec.unlock next }
{
    Step::Act(Op::UnlockIsr, ActName::Kernel(RowId(7)), next)
}

/// CH_IRQ_PROLOGUE.
fn prologue(next: u32) -> Step
    ensures { result ≡ spec.prologue next }
{
    Step::Act(Op::Prologue, ActName::Kernel(RowId(8)), next)
}

/// CH_IRQ_EPILOGUE.
fn epilogue(next: u32) -> Step
    ensures { result ≡ spec.epilogue next }
{
    Step::Act(Op::Epilogue, ActName::Kernel(RowId(9)), next)
}

/// The return from an interrupt.
fn handler_return(next: u32) -> Step
    ensures { result ≡ spec.handler_return next }
{
    Step::Act(Op::HandlerReturn, ActName::Return, next)
}

/// The return of a thread's function.
fn thread_return(next: u32) -> Step
    ensures { result ≡ spec.thread_return next }
{
    Step::Act(Op::ExitNormal, ActName::ThreadReturn, next)
}
