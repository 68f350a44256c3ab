//! The table as a whole.
ghost use Rattle.std.specs.Prelude.{◌≡◌};
ghost use Rattle.ck_base.specs.Act.{act as table_entry};

use crate::classes::{exit_s, i_quiet, i_wakes, s_plain, s_settles, s_wakes};
use crate::handlers::{epilogue, handler_return, lock_isr, prologue, unlock_isr};
use crate::pairs::{get_status, pair_enter, pair_left, restore_status};
use crate::threads::{disable, enable, exit_normal, init, lock, normal, suspend, unlock};
use ck_base::{Kind, Op, Outcome, State};

/// What a call of `op` does in `state`, by the state table of docs/STATES.md. It looks at one context
/// alone. The number in `Kind::Sv` is 1 to 11, and that in `Kind::P` is 1 to 8.
pub fn act(op: Op, state: State) -> Outcome
    ensures { result ≡ table_entry op state }
{
    if matches!(state, State::FF) {
        return in_fast_handler(op);
    }
    match op {
        Op::Init => init(state),
        Op::Halt => Outcome::End,
        Op::Disable => disable(state),
        Op::Suspend => suspend(state),
        Op::Enable => enable(state),
        Op::Lock => lock(state),
        Op::Unlock => unlock(state),
        Op::LockIsr => lock_isr(state),
        Op::UnlockIsr => unlock_isr(state),
        Op::Prologue => prologue(state),
        Op::Epilogue => epilogue(state),
        Op::IQuiet => i_quiet(state),
        Op::IWakes => i_wakes(state),
        Op::SPlain => s_plain(state),
        Op::SWakes => s_wakes(state),
        Op::SSettles => s_settles(state),
        Op::Normal => normal(state),
        Op::ExitNormal => exit_normal(state),
        Op::ExitS => exit_s(state),
        Op::Free | Op::Neutral => Outcome::Next(state),
        Op::HandlerReturn => handler_return(state),
        Op::GetStatus => get_status(state),
        Op::RestoreStatus => restore_status(state),
        Op::PairEnter => pair_enter(state),
        Op::PairLeft => pair_left(state),
    }
}

/// In a fast handler: only its return, a neutral function and the halt of the system are allowed, and
/// the begin and end of a function that has a status variable.
fn in_fast_handler(op: Op) -> Outcome
    ensures { result ≡ table_entry op State.FF }
{
    match op {
        Op::Halt | Op::HandlerReturn => Outcome::End,
        Op::Neutral | Op::PairEnter | Op::PairLeft => Outcome::Next(State::FF),
        _ => Outcome::Alarm(Kind::P(5)),
    }
}
