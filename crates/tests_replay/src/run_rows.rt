//! Runs of the core, by the lists that they leave.

ghost use Rattle.router_core.specs.Runs.{AllRead};

use crate::events::{discard, dispatch, offer, reply, spend};
use mux_history::{InitMode, Limits, Name, RecordKind, SessionId};
use mux_model::{Pair, pairs};
use router_core::{CoreConfig, Event, HandKind, Run, Side, Use, run};
use std::alloc::AllocError;
use std::process::Abort;
use std::test::Fail;

fn name(boot: u64, client: u64, seq: u64) -> Name {
    Name { boot, client, seq }
}

fn play(rt: &HostRuntime, events: &[Event]) -> Result<Run, Fail>
    requires { AllRead events.now }
{
    let limits = Limits::new(65_536, 16, 64, 64, 0).ok_or(AllocError)?;
    Ok(run(rt.alloc(), CoreConfig { limits, boot: 1 }, events)?)
}

// The list of a session, by what was recorded.
fn check(
    rt: &impl Abort,
    side: &Side,
    boot: u64,
    session: SessionId,
    want: &[RecordKind],
) -> Result<(), Fail> {
    assert_eq!(rt; side.boot, boot);
    assert_eq!(rt; side.session, session);
    assert_eq!(rt; side.entries.len(), want.len());
    for (entry, kind) in side.entries.iter().zip(want) {
        assert!(rt; entry.rec.is_some_and(|record| record.kind() == *kind));
    }
    Ok(())
}

#[test]
fn run_row_9(rt: HostRuntime) -> Result<(), Fail> {
    let ran = play(
        &rt,
        &[
            Event::OpenClient,
            Event::OpenClient,
            Event::OpenServer(InitMode::Plain),
            dispatch(1, 5),
            offer(1, 1, 0),
            spend(2, Use::Note),
            discard(1),
            reply(1, 2),
            dispatch(2, 5),
            offer(5, 1, 0),
            spend(3, Use::Recall { now: 0 }),
            spend(4, Use::Settle),
        ],
    )?;
    let [first, second, server] = ran.sides.as_slice() else {
        return Err("sides".into());
    };
    check(
        &rt,
        first,
        1,
        SessionId::Client(1),
        &[
            RecordKind::Took,
            RecordKind::Noted { recalled: false },
            RecordKind::Discarded { recalled: true },
            RecordKind::Late { whole: false },
        ],
    )?;
    check(&rt, second, 1, SessionId::Client(2), &[RecordKind::Took])?;
    // The stale recall leaves no entry.
    check(
        &rt,
        server,
        1,
        SessionId::Server(1),
        &[
            RecordKind::Offered,
            RecordKind::Settled(-2),
            RecordKind::Offered,
        ],
    )?;
    let names = [name(1, 1, 1), name(1, 1, 1), name(1, 2, 1)];
    for (entry, name) in server.entries.iter().zip(&names) {
        assert!(rt; entry.rec.is_some_and(|record| record.name() == Some(*name)));
    }
    for entry in &server.entries {
        let Some(message) = entry.taken.as_ref().or(entry.sent.as_ref()) else {
            return Err("message".into());
        };
        assert_eq!(rt; message.tag(), 2);
    }
    let [hand] = ran.hands.as_slice() else {
        return Err("hands".into());
    };
    assert_eq!(rt; hand.number, 6);
    assert_eq!(rt; hand.kind, HandKind::Placed);
    assert_eq!(rt; hand.name, name(1, 2, 1));
    assert_eq!(rt; hand.server, Some(1));
    assert_eq!(rt; hand.tag, 2);
    assert!(rt; ran.refused.is_empty());
    Ok(())
}

// The client's list of row 7 has two pairs.
#[test]
fn pairs_row_7(rt: HostRuntime) -> Result<(), Fail> {
    let ran = play(
        &rt,
        &[
            Event::OpenClient,
            Event::OpenServer(InitMode::Plain),
            dispatch(1, 5),
            offer(1, 1, 0),
            spend(2, Use::Note),
            discard(1),
            dispatch(1, 5),
            offer(4, 1, 0),
            reply(1, 2),
            spend(6, Use::Settle),
            reply(1, 3),
            spend(7, Use::Settle),
        ],
    )?;
    let Some(client) = ran.sides.first() else {
        return Err("sides".into());
    };
    let found = pairs(rt.alloc(), client.session, &client.entries)?;
    let want = [
        Pair {
            dispatch: 0,
            reply: 2,
        },
        Pair {
            dispatch: 3,
            reply: 5,
        },
    ];
    assert!(rt; found.as_slice() == want.as_slice());
    Ok(())
}

// A value of the boot before is gone: the event that asks for it is refused.
#[test]
fn run_row_18(rt: HostRuntime) -> Result<(), Fail> {
    let ran = play(
        &rt,
        &[
            Event::OpenClient,
            dispatch(1, 5),
            dispatch(1, 6),
            Event::Restart,
            spend(1, Use::Nack),
            Event::OpenClient,
            dispatch(1, 5),
        ],
    )?;
    let [before, after] = ran.sides.as_slice() else {
        return Err("sides".into());
    };
    let client = SessionId::Client(1);
    check(
        &rt,
        before,
        1,
        client,
        &[RecordKind::Took, RecordKind::Took],
    )?;
    check(&rt, after, 2, client, &[RecordKind::Took])?;
    let [hand] = ran.hands.as_slice() else {
        return Err("hands".into());
    };
    assert_eq!(rt; hand.number, 3);
    assert_eq!(rt; hand.name, name(2, 1, 1));
    assert!(rt; ran.refused.as_slice() == [4].as_slice());
    Ok(())
}
