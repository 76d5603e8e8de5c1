//! The runs.

use super::check;
use crate::events::{
    BUSY, DISCARD, FRAGMENT, INIT, LEASE, NACK, PROBE, client, discard, dispatch, from_client,
    from_server, ignored, offer, reply, server, spend, stray,
};
use mux_history::InitMode;
use router_core::{ClientStep, Event, ServerStep, Use};
use std::test::Fail;

// Two clients and two servers. A reply comes before its note, a nack is passed on, and tickets are answered by the router.
#[test]
fn answers(rt: HostRuntime) -> Result<(), Fail> {
    check(
        rt.alloc(),
        0,
        &[
            Event::OpenClient,
            Event::OpenClient,
            Event::OpenServer(InitMode::Plain),
            Event::OpenServer(InitMode::Plain),
            dispatch(1, 5),
            dispatch(2, 6),
            offer(1, 1, 4),
            reply(1, 2),
            spend(4, Use::Settle),
            offer(2, 2, 2),
            spend(3, Use::Note),
            spend(5, Use::Note),
            from_server(2, -2, 2, NACK, 5),
            spend(6, Use::Settle),
            dispatch(1, 7),
            dispatch(1, 8),
            spend(8, Use::Unroute),
            spend(7, Use::Nack),
        ],
    )
}

// Discarded before its note, and after it; a recall that comes too late; a ticket that is answered late.
#[test]
fn recalls(rt: HostRuntime) -> Result<(), Fail> {
    check(
        rt.alloc(),
        0,
        &[
            Event::OpenClient,
            Event::OpenServer(InitMode::Plain),
            dispatch(1, 5),
            offer(1, 1, 4),
            discard(1),
            spend(2, Use::Note),
            spend(3, Use::Recall { now: 5 }),
            reply(1, 2),
            spend(4, Use::Settle),
            dispatch(1, 5),
            offer(5, 1, 7),
            spend(6, Use::Note),
            discard(1),
            reply(1, 2),
            spend(7, Use::Recall { now: 8 }),
            spend(8, Use::Settle),
            dispatch(1, 5),
            discard(1),
            spend(9, Use::Nack),
        ],
    )
}

// The first sending goes to the server with the greater number.
#[test]
fn sent_again(rt: HostRuntime) -> Result<(), Fail> {
    check(
        rt.alloc(),
        1,
        &[
            Event::OpenClient,
            Event::OpenServer(InitMode::Plain),
            Event::OpenServer(InitMode::Plain),
            dispatch(1, 5),
            offer(1, 2, 4),
            spend(2, Use::Note),
            from_server(2, -2, 2, NACK, 5),
            spend(3, Use::Settle),
            offer(4, 1, 5),
            spend(5, Use::Note),
            reply(1, 2),
            spend(6, Use::Settle),
        ],
    )
}

// The second nack, which is another one, is passed on.
#[test]
fn nacked_twice(rt: HostRuntime) -> Result<(), Fail> {
    check(
        rt.alloc(),
        1,
        &[
            Event::OpenClient,
            Event::OpenServer(InitMode::Plain),
            Event::OpenServer(InitMode::Plain),
            dispatch(1, 5),
            offer(1, 2, 4),
            spend(2, Use::Note),
            from_server(2, -2, 2, NACK, 5),
            spend(3, Use::Settle),
            offer(4, 1, 5),
            from_server(1, -2, 2, BUSY, 6),
            spend(5, Use::Note),
            spend(6, Use::Settle),
        ],
    )
}

// No server takes it the second time.
#[test]
fn nacked_at_last(rt: HostRuntime) -> Result<(), Fail> {
    check(
        rt.alloc(),
        1,
        &[
            Event::OpenClient,
            Event::OpenServer(InitMode::Plain),
            dispatch(1, 5),
            offer(1, 1, 4),
            spend(2, Use::Note),
            from_server(1, -2, 2, NACK, 5),
            spend(3, Use::Settle),
            spend(4, Use::Nack),
        ],
    )
}

// A server is lost with two dispatches, and each client with one.
#[test]
fn losses(rt: HostRuntime) -> Result<(), Fail> {
    check(
        rt.alloc(),
        0,
        &[
            Event::OpenClient,
            Event::OpenClient,
            Event::OpenServer(InitMode::Plain),
            Event::OpenServer(InitMode::Plain),
            dispatch(1, 5),
            dispatch(2, 5),
            offer(1, 1, 4),
            offer(2, 1, 4),
            spend(3, Use::Note),
            spend(4, Use::Note),
            server(1, ServerStep::Lose(7)),
            server(1, ServerStep::LoseNext),
            server(1, ServerStep::LoseNext),
            spend(5, Use::Fail),
            client(2, ClientStep::Lose(8)),
            spend(6, Use::Fail),
            dispatch(1, 6),
            offer(7, 2, 8),
            spend(8, Use::Note),
            client(1, ClientStep::Lose(9)),
            client(1, ClientStep::LoseNext),
            spend(9, Use::Recall { now: 9 }),
            reply(2, 2),
            spend(10, Use::Settle),
        ],
    )
}

// Initiation with the probe, a ping, a lease, the clock, and frames of each other kind.
#[test]
fn of_a_server(rt: HostRuntime) -> Result<(), Fail> {
    check(
        rt.alloc(),
        0,
        &[
            Event::OpenServer(InitMode::Probe),
            from_server(1, -128, 1, PROBE, 0),
            from_server(1, -68, 1, INIT, 1),
            server(1, ServerStep::Ping(2)),
            from_server(1, -65, 1, b"", 3),
            from_server(1, 67, 0, LEASE, 4),
            server(1, ServerStep::Clock(5)),
            from_server(1, 65, 3, b"", 5),
            from_server(1, 64, 4, b"", 5),
            server(1, ServerStep::Retire(6)),
            stray(),
            from_server(1, 1, 3, b"\0\0", 6),
            from_server(1, 66, 0, DISCARD, 6),
            from_server(1, 65, FRAGMENT, b"", 7),
        ],
    )
}

// The probe, initiation, a drain, and frames of each other kind.
#[test]
fn of_a_client(rt: HostRuntime) -> Result<(), Fail> {
    check(
        rt.alloc(),
        0,
        &[
            Event::OpenClient,
            from_client(1, -128, 1, PROBE),
            from_client(1, 68, 1, INIT),
            from_client(1, 68, 1, INIT),
            from_client(1, 65, 2, b""),
            from_client(1, 1, 3, b"\0\0"),
            ignored(),
            client(1, ClientStep::Drain),
            from_client(1, -64, 1, b""),
            dispatch(1, 5),
            from_client(1, 65, FRAGMENT, b""),
        ],
    )
}

// Both sides go on in a second epoch.
#[test]
fn epochs(rt: HostRuntime) -> Result<(), Fail> {
    check(
        rt.alloc(),
        0,
        &[
            Event::OpenClient,
            Event::OpenServer(InitMode::Plain),
            ignored(),
            stray(),
            ignored(),
            stray(),
            ignored(),
            stray(),
            ignored(),
            stray(),
            ignored(),
            stray(),
            ignored(),
            stray(),
            ignored(),
            stray(),
            ignored(),
            stray(),
            ignored(),
            stray(),
            ignored(),
            stray(),
            ignored(),
            stray(),
            client(1, ClientStep::Seal),
            server(1, ServerStep::Seal),
            dispatch(1, 5),
            offer(1, 1, 2),
            reply(1, 2),
            spend(3, Use::Settle),
            spend(2, Use::Note),
        ],
    )
}

// A dispatch is sent twice and discarded, with a roll of either side between its steps.
#[test]
fn rolls(rt: HostRuntime) -> Result<(), Fail> {
    check(
        rt.alloc(),
        1,
        &[
            Event::OpenClient,
            Event::OpenServer(InitMode::Plain),
            dispatch(1, 5),
            client(1, ClientStep::Roll),
            offer(1, 1, 4),
            server(1, ServerStep::Roll),
            spend(2, Use::Note),
            from_server(1, -2, 2, NACK, 5),
            spend(3, Use::Settle),
            client(1, ClientStep::Roll),
            offer(4, 1, 6),
            spend(5, Use::Note),
            discard(1),
            server(1, ServerStep::Roll),
            spend(6, Use::Recall { now: 6 }),
            client(1, ClientStep::Roll),
            reply(1, 2),
            spend(7, Use::Settle),
        ],
    )
}
