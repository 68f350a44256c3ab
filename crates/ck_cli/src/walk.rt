//! The walk of a file over the state table.
ghost use Rattle.std.specs.Prelude.{◌≡◌, []};
ghost use Rattle.std.specs.Option.{option_map};
ghost use Rattle.ck_base.specs.declared.states.State.TheVariants.{TI};
ghost use Rattle.ck_cli.specs.Walking.{walk};

use crate::calls::op;
use crate::form::Call;
use ck_base::{Kind, Outcome, State};
use ck_states::act;

/// The first call that alarms, with the calls before it and the alarm's kind.
#[derive(Clone, Copy)]
pub(crate) struct FirstAlarm<'a> {
    pub(crate) before: &'a [Call],
    pub(crate) call: Call,
    pub(crate) kind: Kind,
}

/// The first alarm of the walk over these calls, if there is one.
pub(crate) fn first_alarm(calls: &[Call]) -> Option<FirstAlarm<'_>>
    ensures { option_map (λ a. (a.before.now, a.call, a.kind)) result ≡ walk State.TI [] calls.now }
{
    let mut state = State::TI;
    for (i, made) in calls.iter().enumerate() {
        match act(op(made.call), state) {
            Outcome::Next(next) => state = next,
            Outcome::Alarm(kind) => {
                return Some(FirstAlarm {
                    before: &calls[..i],
                    call: *made,
                    kind,
                });
            }
            Outcome::End => return None,
        }
    }
    None
}
