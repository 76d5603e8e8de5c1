//! Worked rows of slots that serve one session after another.

use crate::frames::{HI, LEASE, NACK, YO};
use crate::hubs::{ONE_SERVER, SHORT, TWO_SERVERS};
use crate::play::check;
use crate::rows::{HUNG, OPEN, THERE_AND_BACK};
use crate::steps::{Do, Told};
use hub::OrderFault;
use mux_history::SessionId::{Client, Server};
use std::test::Fail;

/// A session that isn't over stays, and so does one that is over while a server has a dispatch of it.
const STAYS: &[(Do, Told)] = &[
    (Do::Finish(Client(1)), Told::KeptBack(0)),
    (Do::Renew(Client(1)), Told::TooManySessions),
];

const LOST: &[(Do, Told)] = &[(Do::Lose(Client(1), 0), Told::Done)];

/// The server answers what was discarded. Then nothing of the session is under way.
const LEAVES: &[(Do, Told)] = &[
    (Do::Take(Server(0), -2, 2, YO, 0), Told::Done),
    (Do::RollOwn(Client(1)), Told::CameBack(16)),
    (Do::Renew(Client(1)), Told::TooManySessions),
    (
        Do::Finish(Client(1)),
        Told::GaveUp {
            first: 0,
            lens: [8, 0],
            wrong: None,
            receipts: [2, 0],
        },
    ),
    (Do::Finish(Client(1)), Told::KeptBack(0)),
    (Do::HasEnded(Client(1)), Told::Ended(false)),
    (Do::Status, Told::Report(1, 1)),
    (Do::Drain(1), Told::Failed(OrderFault::NoSuchSession)),
    (Do::OpenClient, Told::TooManySessions),
];

/// The next client uses the tags of the one before, whose writer gets none of its frames.
const NEXT: &[(Do, Told)] = &[
    (Do::Renew(Client(1)), Told::Done),
    (Do::Status, Told::Report(1, 2)),
    (Do::Finish(Client(2)), Told::KeptBack(0)),
    (Do::Renew(Client(2)), Told::TooManySessions),
    (Do::Take(Client(2), 2, 5, HI, 0), Told::Done),
    (Do::TakeOut(Server(0), 2, 2, HI), Told::NotThere),
    (Do::TakeOut(Server(0), 2, 2, HI), Told::Done),
    (Do::Take(Server(0), -2, 2, YO, 0), Told::Done),
    (Do::TakeOut(Client(1), -2, 5, YO), Told::NotThere),
    (Do::TakeOut(Client(2), -2, 5, YO), Told::Done),
    (Do::Drain(1), Told::Failed(OrderFault::NoSuchSession)),
    (Do::Drain(2), Told::Done),
];

/// A third client comes, and goes on until the end.
const THIRD: &[(Do, Told)] = &[
    (Do::Lose(Client(2), 0), Told::Done),
    (
        Do::Finish(Client(2)),
        Told::GaveUp {
            first: 0,
            lens: [5, 0],
            wrong: None,
            receipts: [1, 0],
        },
    ),
    (Do::Renew(Client(2)), Told::Done),
    (Do::Take(Client(3), 2, 7, HI, 0), Told::Done),
    (Do::TakeOut(Server(0), 2, 2, HI), Told::Done),
    (Do::Take(Server(0), -2, 2, YO, 0), Told::Done),
    (Do::TakeOut(Client(3), -2, 7, YO), Told::Done),
];

#[test]
fn hub_renews(rt: HostRuntime) -> Result<(), Fail> {
    let steps = [
        OPEN,
        STAYS,
        THERE_AND_BACK,
        STAYS,
        HUNG,
        LOST,
        STAYS,
        LEAVES,
        NEXT,
        THIRD,
    ];
    Ok(check(rt, SHORT, &steps, [25, 4, 3])?)
}

/// A session that isn't over stays.
const SERVER_STAYS: &[(Do, Told)] = &[
    (Do::Finish(Server(0)), Told::KeptBack(0)),
    (Do::Renew(Server(0)), Told::TooManySessions),
];

/// What the server had is answered at once. The slot's session takes no dispatch any more.
const SERVER_LOST: &[(Do, Told)] = &[
    (Do::Lose(Server(0), 0), Told::Done),
    (
        Do::TakeOut(Client(1), -128, 9, b"upstream lost"),
        Told::Done,
    ),
    (Do::Take(Client(1), 2, 6, HI, 0), Told::Done),
    (Do::TakeOut(Client(1), -2, 6, NACK), Told::Done),
    (Do::Renew(Server(0)), Told::TooManySessions),
];

const SERVER_LEAVES: &[(Do, Told)] = &[
    (
        Do::Finish(Server(0)),
        Told::GaveUp {
            first: 0,
            lens: [5, 0],
            wrong: None,
            receipts: [1, 0],
        },
    ),
    (Do::Finish(Server(0)), Told::KeptBack(0)),
    (Do::HasEnded(Server(0)), Told::Ended(false)),
    (Do::WantsRest(Server(0)), Told::Wanted(false)),
    (Do::Status, Told::Report(1, 1)),
    (Do::Take(Client(1), 2, 7, HI, 0), Told::Done),
    (Do::TakeOut(Client(1), -2, 7, NACK), Told::Done),
    (Do::OpenServer(0), Told::TooManySessions),
];

/// The next session uses the tags of the one before, whose writer gets none of its frames. A discard comes late of a
/// dispatch that the first one had.
const SERVER_NEXT: &[(Do, Told)] = &[
    (Do::Renew(Server(0)), Told::Done),
    (Do::Status, Told::Report(1, 2)),
    (Do::Finish(Server(1)), Told::KeptBack(0)),
    (Do::Renew(Server(1)), Told::TooManySessions),
    (Do::Take(Client(1), 66, 0, b"\0\0\x09x", 0), Told::Done),
    (Do::Take(Client(1), 2, 5, HI, 0), Told::Done),
    (Do::TakeOut(Server(0), 2, 2, HI), Told::NotThere),
    (Do::TakeOut(Server(1), 2, 2, HI), Told::Done),
    (Do::TakeOut(Server(1), 2, 2, HI), Told::NotThere),
    (Do::Take(Server(1), -2, 2, YO, 0), Told::Done),
    (Do::TakeOut(Client(1), -2, 5, YO), Told::Done),
];

/// A third session comes, and goes on until the end.
const SERVER_THIRD: &[(Do, Told)] = &[
    (Do::Lose(Server(1), 0), Told::Done),
    (
        Do::Finish(Server(1)),
        Told::GaveUp {
            first: 0,
            lens: [3, 0],
            wrong: None,
            receipts: [1, 0],
        },
    ),
    (Do::Renew(Server(1)), Told::Done),
    (Do::Take(Client(1), 2, 8, HI, 0), Told::Done),
    (Do::TakeOut(Server(2), 2, 2, HI), Told::Done),
    (Do::Take(Server(2), -2, 2, YO, 0), Told::Done),
    (Do::TakeOut(Client(1), -2, 8, YO), Told::Done),
];

#[test]
fn hub_renews_a_server(rt: HostRuntime) -> Result<(), Fail> {
    let steps = [
        OPEN,
        SERVER_STAYS,
        THERE_AND_BACK,
        SERVER_STAYS,
        HUNG,
        SERVER_LOST,
        SERVER_LEAVES,
        SERVER_NEXT,
        SERVER_THIRD,
    ];
    Ok(check(rt, ONE_SERVER, &steps, [27, 6, 6])?)
}

/// The slot of the first of two servers has its second session, whose number is 2. What it nacks goes to the other
/// server, and what that one loses isn't its own.
const SECOND_OF_TWO: &[(Do, Told)] = &[
    (Do::OpenServer(1), Told::Done),
    (Do::Take(Server(0), 67, 0, LEASE, 0), Told::Done),
    (Do::Lose(Server(0), 0), Told::Done),
    (
        Do::Finish(Server(0)),
        Told::GaveUp {
            first: 0,
            lens: [2, 0],
            wrong: None,
            receipts: [1, 0],
        },
    ),
    (Do::Renew(Server(0)), Told::Done),
    (Do::Take(Client(1), 2, 5, HI, 0), Told::Done),
    (Do::TakeOut(Server(2), 2, 2, HI), Told::Done),
    (Do::Take(Server(2), -2, 2, NACK, 0), Told::Done),
    (Do::TakeOut(Server(2), 2, 2, HI), Told::NotThere),
    (Do::TakeOut(Server(1), 2, 2, HI), Told::Done),
    (Do::Take(Server(1), -2, 2, YO, 0), Told::Done),
    (Do::TakeOut(Client(1), -2, 5, YO), Told::Done),
    (Do::TakeTwo(Client(1), 2, [6, 7], HI, HI), Told::Anything),
    (Do::TakeOut(Server(2), 2, 2, HI), Told::Done),
    (Do::TakeOut(Server(1), 2, 2, HI), Told::Done),
    (Do::Lose(Server(2), 0), Told::Done),
    (
        Do::TakeOut(Client(1), -128, 6, b"upstream lost"),
        Told::Done,
    ),
    (Do::Take(Server(1), -2, 2, YO, 0), Told::Done),
    (Do::TakeOut(Client(1), -2, 7, YO), Told::Done),
];

#[test]
fn hub_renews_one_of_two(rt: HostRuntime) -> Result<(), Fail> {
    Ok(check(rt, TWO_SERVERS, &[OPEN, SECOND_OF_TWO], [22, 3, 3])?)
}
