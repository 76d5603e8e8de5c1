//! Worked rows of histories that are given up while the run goes on.

use crate::epochs::{List, Trial};
use crate::frames::YO;
use crate::hubs::SHORT;
use crate::play::{Fault, check};
use crate::rows::{BESIDE_IT, HUNG, OPEN, THERE_AND_BACK};
use crate::steps::{Do, Told};
use mux_history::SessionId;
use mux_history::SessionId::{Client, Server};
use std::alloc::AllocGlobal;
use std::sync::Wait;
use std::test::Fail;

/// Nobody has come yet, and some never will.
const NOT_THERE: &[(Do, Told)] = &[
    (Do::HasEnded(Client(0)), Told::Ended(false)),
    (Do::HasEnded(Client(1)), Told::Ended(false)),
    (Do::HasEnded(Client(2)), Told::Ended(false)),
    (Do::HasEnded(Server(0)), Told::Ended(false)),
    (Do::HasEnded(Server(1)), Told::Ended(false)),
    (
        Do::GiveUp(Client(0), List::Roomy, Trial::Left),
        Told::KeptBack(0),
    ),
    (
        Do::GiveUp(Client(1), List::Roomy, Trial::Left),
        Told::KeptBack(0),
    ),
    (
        Do::GiveUp(Client(2), List::Used, Trial::Left),
        Told::KeptBack(1),
    ),
    (
        Do::GiveUp(Server(0), List::Roomy, Trial::Left),
        Told::KeptBack(0),
    ),
    (
        Do::GiveUp(Server(1), List::Used, Trial::Left),
        Told::KeptBack(1),
    ),
];

/// Of four dispatches a session has the first in one epoch, the next two in another, and the fourth in a third. It
/// gives two epochs up at once, and then the next; they have so many records.
fn gives_up<R: Wait + AllocGlobal + Copy + Drop>(
    rt: R,
    session: SessionId,
    [first, second, third]: [usize; 3],
) -> Result<(), Fault> {
    let rolls = [
        (Do::RollOwn(session), Told::Done),
        (Do::HasEnded(session), Told::Ended(true)),
    ];
    let holds_back = [
        (
            Do::GiveUp(session, List::Roomless, Trial::Left),
            Told::KeptBack(0),
        ),
        (
            Do::GiveUp(session, List::Used, Trial::Left),
            Told::KeptBack(1),
        ),
        (Do::HasEnded(session), Told::Ended(true)),
    ];
    let gives_two = [(
        Do::GiveUp(session, List::Roomy, Trial::Left),
        Told::GaveUp {
            first: 0,
            lens: [first, second],
            wrong: None,
            receipts: [3, 0],
        },
    )];
    let gives_next = [(
        Do::GiveUp(session, List::Roomy, Trial::Left),
        Told::GaveUp {
            first: 2,
            lens: [third, 0],
            wrong: None,
            receipts: [1, 0],
        },
    )];
    let has_none = [
        (Do::HasEnded(session), Told::Ended(false)),
        (
            Do::GiveUp(session, List::Roomy, Trial::Left),
            Told::KeptBack(0),
        ),
        (
            Do::GiveUp(session, List::Used, Trial::Left),
            Told::KeptBack(1),
        ),
    ];
    let steps: [&[(Do, Told)]; 15] = [
        NOT_THERE,
        OPEN,
        &has_none,
        THERE_AND_BACK,
        &rolls,
        THERE_AND_BACK,
        THERE_AND_BACK,
        &rolls,
        &holds_back,
        &gives_two,
        &has_none,
        THERE_AND_BACK,
        &rolls,
        &gives_next,
        &has_none,
    ];
    check(rt, SHORT, &steps, [23, 4, 4])
}

/// A dispatch makes three records at its client, and two at its server. Each epoch but the first begins with one.
#[test]
fn hub_gives_up(rt: HostRuntime) -> Result<(), Fail> {
    gives_up(rt, Client(1), [3, 7, 4])?;
    Ok(gives_up(rt, Server(0), [2, 5, 3])?)
}

/// Of three dispatches a session has two in one epoch, with so many records, and the third in the next. The receipts of
/// its seat don't stand in another epoch, nor those of the other session's seat in these histories: nothing is dropped
/// then.
fn settles<R: Wait + AllocGlobal + Copy + Drop>(
    rt: R,
    session: SessionId,
    other: SessionId,
    [first, second]: [usize; 2],
) -> Result<(), Fault> {
    let rolls = [(Do::RollOwn(session), Told::Done)];
    let gives_first = [(
        Do::GiveUp(session, List::Roomy, Trial::Other(other)),
        Told::GaveUp {
            first: 0,
            lens: [first, 0],
            wrong: Some(0),
            receipts: [2, 1],
        },
    )];
    let gives_second = [(
        Do::GiveUp(session, List::Roomy, Trial::NextEpoch),
        Told::GaveUp {
            first: 1,
            lens: [second, 0],
            wrong: Some(0),
            receipts: [1, 0],
        },
    )];
    let steps: [&[(Do, Told)]; 8] = [
        OPEN,
        THERE_AND_BACK,
        THERE_AND_BACK,
        &rolls,
        THERE_AND_BACK,
        &gives_first,
        &rolls,
        &gives_second,
    ];
    check(rt, SHORT, &steps, [17, 3, 3])
}

#[test]
fn hub_settles(rt: HostRuntime) -> Result<(), Fail> {
    settles(rt, Client(1), Server(0), [6, 4])?;
    Ok(settles(rt, Server(0), Client(1), [4, 3])?)
}

const ROLL_CLIENT: &[(Do, Told)] = &[(Do::RollOwn(Client(1)), Told::Done)];

const ROLL_SERVER: &[(Do, Told)] = &[(Do::RollOwn(Server(0)), Told::Done)];

/// The dispatch that hung is answered. A session that is lost hands the history back.
const NO_MORE: &[(Do, Told)] = &[
    (Do::Take(Server(0), -2, 2, YO, 0), Told::Done),
    (Do::TakeOut(Client(1), -2, 9, YO), Told::Done),
    (Do::Lose(Client(1), 0), Told::Done),
    (Do::RollOwn(Client(1)), Told::CameBack(16)),
    (Do::Lose(Server(0), 0), Told::Done),
    (Do::RollOwn(Server(0)), Told::CameBack(16)),
];

/// A seat rolls its own session, whatever that has left, and with a dispatch that hangs.
#[test]
fn hub_rolls_its_own(rt: HostRuntime) -> Result<(), Fail> {
    let steps = [
        OPEN,
        ROLL_CLIENT,
        HUNG,
        ROLL_CLIENT,
        BESIDE_IT,
        ROLL_SERVER,
        ROLL_CLIENT,
        NO_MORE,
    ];
    Ok(check(rt, SHORT, &steps, [16, 2, 2])?)
}
