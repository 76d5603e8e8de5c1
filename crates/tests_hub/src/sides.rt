//! Worked rows of hubs whose servers' sessions have limits of their own.

use crate::frames::{HI, NACK, YO};
use crate::hubs::SIDES;
use crate::play::check;
use crate::rows::{OPEN, THERE_AND_BACK};
use crate::steps::{Do, Told};
use mux_history::SessionId::{Client, Server};
use std::test::Fail;

/// The client's epoch ends after 12 records.
const SEALS_THE_CLIENT: &[(Do, Told)] = &[
    (Do::WantsRest(Server(0)), Told::Wanted(false)),
    (Do::Seal, Told::Sealed(1)),
    (Do::Seal, Told::Sealed(0)),
];

/// And the server's after 24.
const SEALS_BOTH: &[(Do, Told)] = &[
    (Do::WantsRest(Server(0)), Told::Wanted(true)),
    (Do::Seal, Told::Sealed(2)),
    (Do::Seal, Told::Sealed(0)),
];

#[test]
fn hub_seals_each_side(rt: HostRuntime) -> Result<(), Fail> {
    let mut steps = [THERE_AND_BACK; 16];
    steps[0] = OPEN;
    steps[5] = SEALS_THE_CLIENT;
    steps[10] = SEALS_THE_CLIENT;
    steps[15] = SEALS_BOTH;
    Ok(check(rt, SIDES, &steps, [64, 12, 12])?)
}

/// Of three dispatches the server holds two, and the third is nacked.
const TWO_OF_THREE: &[(Do, Told)] = &[
    (Do::Take(Client(1), 2, 5, HI, 0), Told::Done),
    (Do::Take(Client(1), 2, 6, HI, 0), Told::Done),
    (Do::Take(Client(1), 2, 7, HI, 0), Told::Done),
    (Do::TakeOut(Client(1), -2, 7, NACK), Told::Done),
];

/// Both are lost with the server. The client's next epoch begins, and the server's next session.
const LOSES_TWO: &[(Do, Told)] = &[
    (Do::Lose(Server(0), 0), Told::Done),
    (
        Do::TakeOut(Client(1), -128, 5, b"upstream lost"),
        Told::Done,
    ),
    (
        Do::TakeOut(Client(1), -128, 6, b"upstream lost"),
        Told::Done,
    ),
    (
        Do::Finish(Server(0)),
        Told::GaveUp {
            first: 0,
            lens: [5, 0],
            wrong: None,
            receipts: [0, 0],
        },
    ),
    (Do::Renew(Server(0)), Told::Done),
    (Do::RollOwn(Client(1)), Told::Done),
];

/// The next session holds as many, and has as many places: more than 16.
const NEXT: &[(Do, Told)] = &[
    (Do::RollOwn(Server(1)), Told::CameBack(16)),
    (Do::TakeOut(Server(1), 2, 2, HI), Told::Done),
    (Do::TakeOut(Server(1), 2, 3, HI), Told::Done),
    (Do::Take(Server(1), -2, 2, YO, 0), Told::Done),
    (Do::Take(Server(1), -2, 3, YO, 0), Told::Done),
    (Do::TakeOut(Client(1), -2, 5, YO), Told::Done),
    (Do::TakeOut(Client(1), -2, 6, YO), Told::Done),
];

#[test]
fn hub_holds_by_its_side(rt: HostRuntime) -> Result<(), Fail> {
    let steps = [OPEN, TWO_OF_THREE, LOSES_TWO, TWO_OF_THREE, NEXT];
    Ok(check(rt, SIDES, &steps, [26, 6, 6])?)
}
