//! States as the numbers of a relation.
ghost use Rattle.std.specs.Prelude.{◌≡◌, ◌<◌, ◌↔◌, ℕ, IsTrue};
ghost use Rattle.ck_base.specs.Act.{state_code};
ghost use Rattle.ck_rows.specs.Relation.{Relates};
ghost use Rattle.ck_summary.specs.Growth.{AreEntries, IsStep};
ghost use Rattle.ck_summary.specs.Roots.{IsEntry};

use ck_base::{Op, State};
use ck_rows::{Rows, add_pair, has_pair, no_pairs};
use ck_states::{Outcome, act};

/// How many states there are.
pub(crate) const STATES: usize = 16;

/// The number of a state.
pub(crate) fn code(state: State) -> usize
    ensures code { result ≡ state_code state }
    ensures below { result < STATES }
{
    match state {
        State::TI => 0,
        State::TN => 1,
        State::TS => 2,
        State::TD => 3,
        State::TL => 4,
        State::TP => 5,
        State::HB => 6,
        State::HO => 7,
        State::HL => 8,
        State::HE => 9,
        State::FF => 10,
        State::XL => 11,
        State::NL => 12,
        State::NP => 13,
        State::OX => 14,
        State::ON => 15,
    }
}

/// The state of a number.
pub(crate) fn state_of(number: usize) -> State
    requires { number < STATES }
    ensures { state_code result ≡ number }
{
    match number {
        0 => State::TI,
        1 => State::TN,
        2 => State::TS,
        3 => State::TD,
        4 => State::TL,
        5 => State::TP,
        6 => State::HB,
        7 => State::HO,
        8 => State::HL,
        9 => State::HE,
        10 => State::FF,
        11 => State::XL,
        12 => State::NL,
        13 => State::NP,
        14 => State::OX,
        _ => State::ON,
    }
}

/// Where an op leads from each state in which it is allowed.
pub(crate) fn step_of(op: Op) -> Rows
    ensures { IsStep op result }
{
    let mut step = no_pairs();
    'states: for number in 0..STATES {
        if let Outcome::Next(next) = act(op, state_of(number)) {
            add_pair(&mut step, number, code(next));
        }
    }
    step
}

/// Whether a relation ends in a number.
pub(crate) fn is_reached(rows: &Rows, to: usize) -> bool
    requires { to < 16 }
    ensures { IsTrue result ↔ ((from : ℕ) × Relates rows.now from to) }
{
    for from in 0..16 {
        if has_pair(rows, from, to) {
            return true;
        }
    }
    false
}

/// What a relation ends in, each as a pair of itself: a function that is called where it ends is
/// entered so.
pub(crate) fn entries_of(rows: &Rows) -> Rows
    ensures { AreEntries rows.now result }
{
    let mut entries = no_pairs();
    'numbers: for to in 0..16 {
        if is_reached(rows, to) {
            add_pair(&mut entries, to, to);
        }
    }
    entries
}

/// The relation of a state and itself, with which a root's function is entered.
pub(crate) fn entry_of(state: State) -> Rows
    ensures { IsEntry state result }
{
    let number = code(state);
    let mut entry = no_pairs();
    add_pair(&mut entry, number, number);
    entry
}
