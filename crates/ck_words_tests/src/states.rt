//! The whole state table, as docs/STATES.md has it.
use ck_base::Op;
use ck_states::{Kind, Outcome, State, act};
use std::alloc::Global;
use std::test::Fail;

/// The columns of the table.
const STATES: [State; 16] = [
    State::TI,
    State::TN,
    State::TS,
    State::TD,
    State::TL,
    State::TP,
    State::HB,
    State::HO,
    State::HL,
    State::HE,
    State::FF,
    State::XL,
    State::NL,
    State::NP,
    State::OX,
    State::ON,
];

/// The ops of the rows.
const OPS: [Op; 26] = [
    Op::Init,
    Op::Halt,
    Op::Disable,
    Op::Suspend,
    Op::Enable,
    Op::Lock,
    Op::Unlock,
    Op::LockIsr,
    Op::UnlockIsr,
    Op::Prologue,
    Op::Epilogue,
    Op::IQuiet,
    Op::IWakes,
    Op::SPlain,
    Op::SWakes,
    Op::SSettles,
    Op::Normal,
    Op::ExitNormal,
    Op::ExitS,
    Op::Free,
    Op::Neutral,
    Op::HandlerReturn,
    Op::GetStatus,
    Op::RestoreStatus,
    Op::PairEnter,
    Op::PairLeft,
];

/// For each op and state: the next state, `End`, or the alarm.
const ROWS: [&str; 26] = [
    // op           TI    TN    TS    TD    TL    TP    HB    HO    HL    HE    FF    XL    NL    NP    OX    ON
    "Init          TN    P4    P4    P4    P4    P4    P2    P2    P2    P2    P5    P4    P4    P4    P2    P2",
    "Halt          End   End   End   End   End   End   End   End   End   End   End   End   End   End   End   End",
    "Disable       P4    TD    TD    TD    SV1   SV1   P2    SV1   SV1   P2    P5    SV1   SV1   SV1   SV1   SV1",
    "Suspend       P4    TS    TS    TS    SV2   SV2   P2    SV2   SV2   P2    P5    SV2   SV2   SV2   SV2   SV2",
    "Enable        P4    TN    TN    TN    SV3   SV3   P2    SV3   SV3   P2    P5    SV3   SV3   SV3   SV3   SV3",
    "Lock          P4    TL    P4    P4    SV4   SV4   P2    SV4   SV4   P2    P5    SV4   SV4   SV4   SV4   SV4",
    "Unlock        SV5   SV5   SV5   SV5   TN    ORDER SV5   SV5   SV5   SV5   P5    P8    P8    ORDER SV5   SV5",
    "LockIsr       SV6   SV6   SV6   SV6   SV6   SV6   SV6   HL    SV6   SV6   P5    SV6   SV6   SV6   SV6   SV6",
    "UnlockIsr     SV7   SV7   SV7   SV7   SV7   SV7   SV7   SV7   HO    SV7   P5    SV7   SV7   SV7   P8    P8",
    "Prologue      P1    P1    P1    P1    SV8   SV8   HO    P1    SV8   P2    P5    SV8   SV8   SV8   SV8   SV8",
    "Epilogue      SV9   SV9   SV9   SV9   SV9   SV9   SV9   HE    SV9   SV9   P5    SV9   SV9   SV9   SV9   SV9",
    "IQuiet        SV10  SV10  SV10  SV10  TL    TP    SV10  SV10  HL    SV10  P5    XL    NL    NP    OX    ON",
    "IWakes        SV10  SV10  SV10  SV10  TP    TP    SV10  SV10  HL    SV10  P5    XL    NP    NP    OX    ON",
    "SPlain        SV11  SV11  SV11  SV11  TL    TP    SV11  SV11  SV11  SV11  P5    XL    NL    NP    SV11  SV11",
    "SWakes        SV11  SV11  SV11  SV11  TP    TP    SV11  SV11  SV11  SV11  P5    XL    NP    NP    SV11  SV11",
    "SSettles      SV11  SV11  SV11  SV11  TL    TL    SV11  SV11  SV11  SV11  P5    XL    NL    NL    SV11  SV11",
    "Normal        P4    TN    P4    P4    SV4   SV4   P2    SV4   SV4   P2    P5    SV4   SV4   SV4   SV4   SV4",
    "ExitNormal    P4    End   P4    P4    SV4   SV4   P2    SV4   SV4   P2    P5    SV4   SV4   SV4   SV4   SV4",
    "ExitS         SV11  SV11  SV11  SV11  End   End   SV11  SV11  SV11  SV11  P5    End   End   End   SV11  SV11",
    "Free          TI    TN    TS    TD    TL    TP    HB    HO    HL    HE    P5    XL    NL    NP    OX    ON",
    "Neutral       TI    TN    TS    TD    TL    TP    HB    HO    HL    HE    FF    XL    NL    NP    OX    ON",
    "HandlerReturn P3    P3    P3    P3    P3    P3    P3    P3    P3    End   End   P3    P3    P3    P3    P3",
    "GetStatus     P4    XL    P4    P4    NL    NP    SV6   OX    ON    SV6   P5    P6    P6    P6    P6    P6",
    "RestoreStatus P7    P7    P7    P7    P7    P7    P7    P7    P7    P7    P5    TN    TL    TP    HO    HL",
    "PairEnter     TI    TN    TS    TD    TL    TP    HB    HO    HL    HE    FF    P6    P6    P6    P6    P6",
    "PairLeft      TI    TN    TS    TD    TL    TP    HB    HO    HL    HE    FF    P8    P8    P8    P8    P8",
];

/// Adds a blank and the word for an outcome.
fn push_outcome(line: &mut String, outcome: Outcome) -> Result<(), Fail> {
    match outcome {
        Outcome::Next(state) => write!(line, " {state:?}")?,
        Outcome::Alarm(Kind::Sv(halt)) => write!(line, " SV{halt}")?,
        Outcome::Alarm(Kind::Order) => line.push_str(" ORDER")?,
        Outcome::Alarm(Kind::P(protocol)) => write!(line, " P{protocol}")?,
        Outcome::End => line.push_str(" End")?,
    }
    Ok(())
}

/// Whether an op does what its row of the table says.
fn has_row(alloc: Global, op: Op, row: &str) -> Result<bool, Fail> {
    let mut line = format!(in alloc; "{op:?}")?;
    for state in STATES {
        push_outcome(&mut line, act(op, state))?;
    }
    Ok(line.split_whitespace().eq(row.split_whitespace()))
}

#[test]
fn rows_of_the_state_table(rt: HostRuntime) -> Result<(), Fail> {
    for (op, row) in OPS.iter().zip(ROWS) {
        assert!(rt; has_row(rt.alloc(), *op, row)?, "at {row}");
    }
    Ok(())
}
