//! Worked rows.

use crate::frames::{HI, HI_TO_B, LEASE, MOMENT, NACK, YO};
use crate::hubs::{NARROW, ONE_SERVER, SHORT, TWO_ROUTES, TWO_SERVERS};
use crate::play::{Fault, Readers, check, totals};
use crate::steps::{Do, Told};
use hub::{OrderFault, OrderRefusal};
use mux_history::KindCounts;
use mux_history::SessionId::{Client, Server};
use server_session::DrainRefusal;
use std::test::Fail;
use translate_book::StepRefusal;

pub const OPEN: &[(Do, Told)] = &[
    (Do::OpenClient, Told::Done),
    (Do::OpenServer(0), Told::Done),
];

const ROW_4: &[(Do, Told)] = &[
    (Do::Take(Client(1), 2, 5, HI, 0), Told::Done),
    (Do::TakeOut(Server(0), 2, 2, HI), Told::Done),
    (Do::TakeOut(Server(0), 2, 2, HI), Told::NotThere),
    (Do::Take(Server(0), -2, 2, YO, 0), Told::Done),
    (Do::TakeOut(Client(1), -2, 5, YO), Told::Done),
    (Do::TakeOut(Client(1), -2, 5, YO), Told::NotThere),
];

#[test]
fn hub_row_4(rt: HostRuntime) -> Result<(), Fail> {
    Ok(check(rt, ONE_SERVER, &[OPEN, ROW_4], [5, 1, 1])?)
}

const SESSIONS: &[(Do, Told)] = &[
    (Do::OpenClient, Told::Done),
    (Do::OpenClient, Told::TooManySessions),
    (Do::OpenServer(0), Told::Done),
    (Do::OpenServer(0), Told::TooManySessions),
    (Do::OpenServer(1), Told::TooManySessions),
    (Do::Status, Told::Report(1, 2)),
    (Do::Quit, Told::Bye),
];

#[test]
fn hub_sessions(rt: HostRuntime) -> Result<(), Fail> {
    Ok(check(rt, ONE_SERVER, &[SESSIONS], [0, 0, 0])?)
}

/// A seat for a client, one for a server, and no reader of the routes for another one.
const FEW: &[(Do, Told)] = &[
    (Do::OpenClient, Told::Done),
    (Do::OpenServer(0), Told::Done),
    (Do::OpenClient, Told::NoReader),
    (Do::OpenServer(0), Told::NoReader),
    (Do::Status, Told::Report(1, 2)),
];

#[test]
fn hub_readers(rt: HostRuntime) -> Result<(), Fail> {
    totals(rt, ONE_SERVER, Readers::Two, &[FEW])?;
    Ok(())
}

/// A lease lapses by the clock, and is granted again; then both sessions are lost.
const ORDERS: &[(Do, Told)] = &[
    (Do::Take(Server(0), 67, 0, LEASE, 0), Told::Done),
    (Do::Clock(10_000), Told::Done),
    (Do::Take(Client(1), 2, 5, HI, 0), Told::Done),
    (Do::TakeOut(Client(1), -2, 5, NACK), Told::Done),
    (Do::TakeOut(Server(0), 2, 2, HI), Told::NotThere),
    (Do::Take(Server(0), 67, 0, LEASE, 0), Told::Done),
    (Do::Take(Client(1), 2, 6, HI, 0), Told::Done),
    (Do::TakeOut(Server(0), 2, 2, HI), Told::Done),
    (Do::Lose(Server(0), 0), Told::Done),
    (
        Do::TakeOut(Client(1), -128, 6, b"upstream lost"),
        Told::Done,
    ),
    (Do::Drain(2), Told::Failed(OrderFault::NoSuchSession)),
    (Do::Drain(1), Told::Done),
    (Do::TakeOut(Client(1), 64, 1, b""), Told::Done),
    (
        Do::Drain(1),
        Told::Failed(OrderFault::Refused(OrderRefusal::Drain(DrainRefusal::AlreadyDraining))),
    ),
    (Do::Lose(Client(1), 0), Told::Done),
    (
        Do::Take(Client(1), 65, 1, b"", 0),
        Told::Refused(StepRefusal::Closed),
    ),
];

/// A dispatch that was placed is recalled, and the server retires.
const RETIRED: &[(Do, Told)] = &[
    (Do::Take(Client(1), 2, 5, HI, 0), Told::Done),
    (Do::Take(Client(1), 66, 0, b"\0\0\x05x", 0), Told::Done),
    (Do::TakeOut(Client(1), -66, 5, b""), Told::Done),
    (Do::TakeOut(Server(0), 2, 2, HI), Told::Done),
    (Do::TakeOut(Server(0), 66, 0, b"\0\0\x02x"), Told::Done),
    (Do::Retire("b"), Told::Failed(OrderFault::UnknownServer)),
    (Do::Retire("a"), Told::Done),
    (Do::Take(Client(1), 2, 6, HI, 0), Told::Done),
    (Do::TakeOut(Client(1), -2, 6, NACK), Told::Done),
];

/// A dispatch is offered at the reading at which it came. The clock leaves what is queued.
const LAST_MOMENT: &[(Do, Told)] = &[
    (Do::Take(Server(0), 67, 0, MOMENT, 0), Told::Done),
    (Do::Take(Client(1), 2, 5, HI, 0), Told::Done),
    (Do::Clock(1), Told::Done),
    (Do::TakeOut(Server(0), 2, 2, HI), Told::Done),
    (Do::Take(Client(1), 2, 6, HI, 1), Told::Done),
    (Do::TakeOut(Client(1), -2, 6, NACK), Told::Done),
];

#[test]
fn hub_orders(rt: HostRuntime) -> Result<(), Fail> {
    check(rt, ONE_SERVER, &[OPEN, ORDERS], [13, 2, 2])?;
    check(rt, ONE_SERVER, &[OPEN, LAST_MOMENT], [7, 2, 1])?;
    Ok(check(rt, ONE_SERVER, &[OPEN, RETIRED], [8, 2, 2])?)
}

/// A dispatch that comes when the lease has lapsed is nacked, though no clock told the server's session of it.
const LAPSES: &[(Do, Told)] = &[
    (Do::Take(Server(0), 67, 0, LEASE, 0), Told::Done),
    (Do::Take(Client(1), 2, 5, HI, 9_999), Told::Done),
    (Do::TakeOut(Server(0), 2, 2, HI), Told::Done),
    (Do::Take(Client(1), 2, 6, HI, 10_000), Told::Done),
    (Do::TakeOut(Client(1), -2, 6, NACK), Told::Done),
    (Do::TakeOut(Server(0), 2, 3, HI), Told::NotThere),
];

#[test]
fn hub_lapses(rt: HostRuntime) -> Result<(), Fail> {
    Ok(check(rt, ONE_SERVER, &[OPEN, LAPSES], [6, 2, 1])?)
}

const NONE: KindCounts = KindCounts {
    took: 0,
    took_drained: 0,
    discarded: 0,
    noted: 0,
    passed: 0,
    nacked: 0,
    unrouted: 0,
    failed: 0,
    retried: 0,
    late: 0,
    offered: 0,
    settled: 0,
    settled_nack: 0,
    lost_one: 0,
};

/// A dispatch there and back: three records at the client, two at the server.
pub const THERE_AND_BACK: &[(Do, Told)] = &[
    (Do::Take(Client(1), 2, 5, HI, 0), Told::Done),
    (Do::TakeOut(Server(0), 2, 2, HI), Told::Done),
    (Do::Take(Server(0), -2, 2, YO, 0), Told::Done),
    (Do::TakeOut(Client(1), -2, 5, YO), Told::Done),
];

const SEALS_ONE: &[(Do, Told)] = &[(Do::Seal, Told::Sealed(1)), (Do::Seal, Told::Sealed(0))];

/// Six dispatches, over all epochs.
const SIX_IN_ALL: &[(Do, Told)] = &[(
    Do::Count,
    Told::Counted(KindCounts {
        took: 6,
        noted: 6,
        passed: 6,
        offered: 6,
        settled: 6,
        ..NONE
    }),
)];

/// The client's epoch ends after 12 records, and the server's after as many, two dispatches later.
#[test]
fn hub_seals(rt: HostRuntime) -> Result<(), Fail> {
    let mut steps = [THERE_AND_BACK; 10];
    steps[0] = OPEN;
    steps[5] = SEALS_ONE;
    steps[8] = SEALS_ONE;
    steps[9] = SIX_IN_ALL;
    Ok(check(rt, SHORT, &steps, [32, 6, 6])?)
}

/// A dispatch that isn't answered, and one beside it that is.
pub const HUNG: &[(Do, Told)] = &[
    (Do::Take(Client(1), 2, 9, HI, 0), Told::Done),
    (Do::TakeOut(Server(0), 2, 2, HI), Told::Done),
];

pub const BESIDE_IT: &[(Do, Told)] = &[
    (Do::Take(Client(1), 2, 5, HI, 0), Told::Done),
    (Do::TakeOut(Server(0), 2, 3, HI), Told::Done),
    (Do::Take(Server(0), -2, 3, YO, 0), Told::Done),
    (Do::TakeOut(Client(1), -2, 5, YO), Told::Done),
];

const NOTHING_WANTS_REST: &[(Do, Told)] = &[
    (Do::WantsRest(Client(1)), Told::Wanted(false)),
    (Do::WantsRest(Server(0)), Told::Wanted(false)),
    (Do::Roll, Told::Rolled(0)),
];

/// What holds a dispatch isn't sealed.
const ROLLS_CLIENT: &[(Do, Told)] = &[
    (Do::WantsRest(Client(1)), Told::Wanted(true)),
    (Do::WantsRest(Server(0)), Told::Wanted(false)),
    (Do::Seal, Told::Sealed(0)),
    (Do::Roll, Told::Rolled(1)),
];

const ROLLS_SERVER: &[(Do, Told)] = &[
    (Do::WantsRest(Client(1)), Told::Wanted(false)),
    (Do::WantsRest(Server(0)), Told::Wanted(true)),
    (Do::Seal, Told::Sealed(0)),
    (Do::Roll, Told::Rolled(1)),
];

const ROLLS_BOTH: &[(Do, Told)] = &[
    (Do::WantsRest(Client(1)), Told::Wanted(true)),
    (Do::WantsRest(Server(0)), Told::Wanted(true)),
    (Do::Seal, Told::Sealed(0)),
    (Do::Roll, Told::Rolled(2)),
];

/// The reply to the dispatch that hung comes to its client. Nine dispatches, over all epochs.
const HUNG_NO_MORE: &[(Do, Told)] = &[
    (Do::Take(Server(0), -2, 2, YO, 0), Told::Done),
    (Do::TakeOut(Client(1), -2, 9, YO), Told::Done),
    (
        Do::Count,
        Told::Counted(KindCounts {
            took: 9,
            noted: 9,
            passed: 9,
            offered: 9,
            settled: 9,
            ..NONE
        }),
    ),
];

/// Beside a dispatch that hangs eight are answered. Each of them makes three records at the client, beside the two of
/// the one that hangs or the one of a roll: from eight records on at most four places are left there. It makes two at
/// the server, beside one: from nine on. So the client's epochs end after 2, 5 and 8 of the eight, and the server's
/// after 4 and 8.
#[test]
fn hub_rolls(rt: HostRuntime) -> Result<(), Fail> {
    let steps = [
        OPEN,
        NOTHING_WANTS_REST,
        HUNG,
        NOTHING_WANTS_REST,
        BESIDE_IT,
        NOTHING_WANTS_REST,
        BESIDE_IT,
        ROLLS_CLIENT,
        NOTHING_WANTS_REST,
        BESIDE_IT,
        NOTHING_WANTS_REST,
        BESIDE_IT,
        ROLLS_SERVER,
        NOTHING_WANTS_REST,
        BESIDE_IT,
        ROLLS_CLIENT,
        BESIDE_IT,
        NOTHING_WANTS_REST,
        BESIDE_IT,
        NOTHING_WANTS_REST,
        BESIDE_IT,
        ROLLS_BOTH,
        NOTHING_WANTS_REST,
        HUNG_NO_MORE,
        NOTHING_WANTS_REST,
    ];
    Ok(check(rt, SHORT, &steps, [50, 9, 9])?)
}

/// Three dispatches take three places and keep six: the client's session finds no room for them in a next epoch, and
/// takes no fourth, until one is answered.
const TOO_MANY: &[(Do, Told)] = &[
    (Do::Take(Client(1), 2, 5, HI, 0), Told::Done),
    (Do::Take(Client(1), 2, 6, HI, 0), Told::Done),
    (Do::Take(Client(1), 2, 7, HI, 0), Told::Done),
    (
        Do::Take(Client(1), 2, 8, HI, 0),
        Told::Refused(StepRefusal::Spent),
    ),
    (Do::WantsRest(Client(1)), Told::Wanted(true)),
    (Do::WantsRest(Server(0)), Told::Wanted(false)),
    (Do::Roll, Told::Rolled(0)),
    (Do::WantsRest(Client(1)), Told::Wanted(true)),
    (Do::Take(Server(0), -2, 3, YO, 0), Told::Done),
    (Do::Roll, Told::Rolled(1)),
    (Do::WantsRest(Client(1)), Told::Wanted(false)),
    (Do::Take(Client(1), 2, 8, HI, 0), Told::Done),
    (Do::Take(Server(0), -2, 2, YO, 0), Told::Done),
    (Do::Take(Server(0), -2, 3, YO, 0), Told::Done),
    (Do::Take(Server(0), -2, 4, YO, 0), Told::Done),
    (Do::TakeOut(Client(1), -2, 6, YO), Told::Done),
    (Do::TakeOut(Client(1), -2, 5, YO), Told::Done),
    (Do::TakeOut(Client(1), -2, 8, YO), Told::Done),
    (Do::TakeOut(Client(1), -2, 7, YO), Told::Done),
];

#[test]
fn hub_rolls_no_room(rt: HostRuntime) -> Result<(), Fail> {
    Ok(check(rt, NARROW, &[OPEN, TOO_MANY], [21, 4, 4])?)
}

const OPEN_TWO_SERVERS: &[(Do, Told)] = &[
    (Do::OpenClient, Told::Done),
    (Do::OpenServer(0), Told::Done),
    (Do::OpenServer(1), Told::Done),
];

/// The nack of the second server reaches the client.
const ROW_28: &[(Do, Told)] = &[
    (Do::Take(Client(1), 2, 5, HI, 0), Told::Done),
    (Do::TakeOut(Server(0), 2, 2, HI), Told::Done),
    (Do::Take(Server(0), -2, 2, NACK, 0), Told::Done),
    (Do::TakeOut(Client(1), -2, 5, NACK), Told::NotThere),
    (Do::TakeOut(Server(1), 2, 2, HI), Told::Done),
    (Do::Take(Server(1), -2, 2, NACK, 0), Told::Done),
    (Do::TakeOut(Client(1), -2, 5, NACK), Told::Done),
];

#[test]
fn hub_row_28(rt: HostRuntime) -> Result<(), Fail> {
    Ok(check(
        rt,
        TWO_SERVERS,
        &[OPEN_TWO_SERVERS, ROW_28, BOTH_TRIES],
        [9, 1, 1],
    )?)
}

/// Both tries of a dispatch, each of them nacked.
const BOTH_TRIES: &[(Do, Told)] = &[(
    Do::Count,
    Told::Counted(KindCounts {
        took: 1,
        noted: 2,
        passed: 1,
        retried: 1,
        offered: 2,
        settled_nack: 2,
        ..NONE
    }),
)];

/// One that is discarded, whose reply comes late; one that its server is lost with; one that no server takes, one
/// without a route, and one after the client's Rdrain.
const EACH_END: &[(Do, Told)] = &[
    (Do::Take(Client(1), 2, 5, HI, 0), Told::Done),
    (Do::Take(Client(1), 66, 0, b"\0\0\x05x", 0), Told::Done),
    (Do::Take(Server(0), -2, 2, YO, 0), Told::Done),
    (Do::Take(Client(1), 2, 6, HI, 0), Told::Done),
    (Do::Lose(Server(0), 0), Told::Done),
    (Do::Take(Client(1), 2, 7, HI, 0), Told::Done),
    (Do::Unroute, Told::Done),
    (Do::Learn(1), Told::Done),
    (Do::Take(Client(1), 2, 8, HI, 0), Told::Done),
    (Do::Drain(1), Told::Done),
    (Do::Take(Client(1), -64, 1, b"", 0), Told::Done),
    (Do::Take(Client(1), 2, 9, HI, 0), Told::Done),
    (
        Do::Count,
        Told::Counted(KindCounts {
            took: 4,
            took_drained: 1,
            discarded: 1,
            noted: 2,
            nacked: 1,
            unrouted: 1,
            failed: 1,
            late: 1,
            offered: 2,
            settled: 1,
            lost_one: 1,
            ..NONE
        }),
    ),
];

/// A session's counts are those of all its records, also once it has ended.
#[test]
fn hub_counts(rt: HostRuntime) -> Result<(), Fail> {
    totals(rt, ONE_SERVER, Readers::Enough, &[OPEN, EACH_END])?;
    Ok(())
}

/// Each session on which a step was made is rung for once, and none while more frames wait.
const BELLS: &[(Do, Told)] = &[
    (Do::Take(Server(0), 67, 0, MOMENT, 0), Told::Done),
    (Do::Take(Server(1), 67, 0, MOMENT, 0), Told::Done),
    (
        Do::TakeTwo(Client(1), 2, [5, 6], HI, HI),
        Told::Rung([[0, 0, 0, 0], [1, 1, 1, 0]]),
    ),
    (Do::TakeOut(Server(0), 2, 2, HI), Told::Done),
    (Do::TakeOut(Server(1), 2, 2, HI), Told::Done),
    (Do::Take(Server(0), -2, 2, YO, 0), Told::Done),
    (Do::Take(Server(1), -2, 2, YO, 0), Told::Done),
];

/// A batch is offered at the reading at which it came, and each of its frames is taken.
const BATCHES: &[(Do, Told)] = &[
    (Do::Take(Server(0), 67, 0, MOMENT, 0), Told::Done),
    (
        Do::TakeTwo(Client(1), 2, [5, 6], HI, HI),
        Told::Rung([[0, 0, 0, 0], [1, 1, 0, 0]]),
    ),
    (Do::TakeOut(Server(0), 2, 2, HI), Told::Done),
    (Do::TakeOut(Server(0), 2, 3, HI), Told::Done),
    (
        Do::TakeTwo(Server(0), -2, [2, 3], YO, YO),
        Told::Rung([[0, 0, 0, 0], [1, 1, 0, 0]]),
    ),
    (Do::TakeOut(Client(1), -2, 5, YO), Told::Done),
    (Do::TakeOut(Client(1), -2, 6, YO), Told::Done),
];

#[test]
fn hub_bells(rt: HostRuntime) -> Result<(), Fail> {
    check(rt, ONE_SERVER, &[OPEN, BATCHES], [11, 2, 2])?;
    Ok(check(rt, TWO_SERVERS, &[OPEN_TWO_SERVERS, BELLS], [12, 2, 2])?)
}

/// Dispatches of one batch go each to the server of its own destination.
const TWO_WAYS: &[(Do, Told)] = &[
    (
        Do::TakeTwo(Client(1), 2, [5, 6], HI, HI_TO_B),
        Told::Rung([[0, 0, 0, 0], [1, 1, 1, 0]]),
    ),
    (Do::TakeOut(Server(0), 2, 2, HI), Told::Done),
    (Do::TakeOut(Server(1), 2, 2, HI_TO_B), Told::Done),
    (Do::Take(Server(1), -2, 2, YO, 0), Told::Done),
    (Do::TakeOut(Client(1), -2, 6, YO), Told::Done),
    (Do::Take(Server(0), -2, 2, YO, 0), Told::Done),
    (Do::TakeOut(Client(1), -2, 5, YO), Told::Done),
];

#[test]
fn hub_two_ways(rt: HostRuntime) -> Result<(), Fail> {
    Ok(check(rt, TWO_ROUTES, &[OPEN_TWO_SERVERS, TWO_WAYS], [10, 2, 2])?)
}

/// An order of a route that the client's seat was told of is used by the seat's next frame.
const TO_B: &[(Do, Told)] = &[
    (Do::Route("b"), Told::Done),
    (Do::Learn(1), Told::Done),
    (Do::Find(Client(1)), Told::Found(Some(1))),
    (Do::Take(Client(1), 2, 5, HI, 0), Told::Done),
    (Do::TakeOut(Server(1), 2, 2, HI), Told::Done),
    (Do::Take(Server(1), -2, 2, YO, 0), Told::Done),
    (Do::TakeOut(Client(1), -2, 5, YO), Told::Done),
];

const TO_A: &[(Do, Told)] = &[
    (Do::Route("a"), Told::Done),
    (Do::Learn(1), Told::Done),
    (Do::Find(Server(1)), Told::Found(Some(0))),
    (Do::Take(Client(1), 2, 5, HI, 0), Told::Done),
    (Do::TakeOut(Server(0), 2, 2, HI), Told::Done),
    (Do::Take(Server(0), -2, 2, YO, 0), Told::Done),
    (Do::TakeOut(Client(1), -2, 5, YO), Told::Done),
];

const TO_NOBODY: &[(Do, Told)] = &[
    (Do::Route("c"), Told::Failed(OrderFault::UnknownServer)),
    (Do::Unroute, Told::Done),
    (Do::Learn(1), Told::Done),
    (Do::Find(Client(1)), Told::Found(None)),
    (Do::Take(Client(1), 2, 5, HI, 0), Told::Done),
    (Do::TakeOut(Client(1), -128, 5, b"no route"), Told::Done),
    (Do::Unroute, Told::Failed(OrderFault::NoRoute)),
];

/// A hundred orders, and then none.
#[test]
fn route_fresh(rt: HostRuntime) -> Result<(), Fail> {
    let mut steps = [TO_B; 102];
    for place in 0..50 {
        steps[2 * place + 2] = TO_A;
    }
    steps[0] = OPEN_TWO_SERVERS;
    steps[101] = TO_NOBODY;
    Ok(check(rt, TWO_SERVERS, &steps, [502, 101, 101])?)
}

/// Row 4, a discard that finds nothing, and a second dispatch, whatever they lead to.
const LOST: &[(Do, Told)] = &[
    (Do::OpenClient, Told::Anything),
    (Do::OpenServer(0), Told::Anything),
    (Do::Take(Client(1), 2, 5, HI, 0), Told::Anything),
    (Do::TakeOut(Server(0), 2, 2, HI), Told::Anything),
    (Do::Take(Server(0), -2, 2, YO, 0), Told::Anything),
    (Do::TakeOut(Client(1), -2, 5, YO), Told::Anything),
    (Do::Take(Client(1), 66, 0, b"\0\0\x05x", 0), Told::Anything),
    (Do::Take(Client(1), 2, 6, HI, 0), Told::Anything),
];

const LOSE_CLIENT: &[(Do, Told)] = &[(Do::Lose(Client(1), 0), Told::Anything)];

const LOSE_SERVER: &[(Do, Told)] = &[(Do::Lose(Server(0), 0), Told::Anything)];

/// The client or the server is lost after each call in turn.
#[test]
fn hub_loss_everywhere(rt: HostRuntime) -> Result<(), Fail> {
    for place in 0..=LOST.len() {
        let (before, after) = LOST.split_at(place);
        totals(
            rt,
            ONE_SERVER,
            Readers::Enough,
            &[before, LOSE_CLIENT, after],
        )?;
        totals(
            rt,
            ONE_SERVER,
            Readers::Enough,
            &[before, LOSE_SERVER, after],
        )?;
    }
    Ok(())
}

const ROUTE: &[(Do, Told)] = &[(Do::Route("a"), Told::Done), (Do::Learn(1), Told::Done)];

/// Once more, if memory was refused before the hub was open. `check/allocation_sweep.py` refuses each
/// allocation in turn; what finds no memory is done again.
#[test]
fn hub_sweep(rt: HostRuntime) -> Result<(), Fail> {
    let steps = [OPEN, ROUTE, ROW_4];
    let mut checked = check(rt, ONE_SERVER, &steps, [5, 1, 1]);
    if let Err(Fault::NotOpened) = checked {
        checked = check(rt, ONE_SERVER, &steps, [5, 1, 1]);
    }
    Ok(checked?)
}
