//! Records that a rolling audit doesn't take, each with its cause.

use mux_history::SessionId::{Client, Server};
use mux_history::{InitMode, Name, Record, RecordKind, SessionId};
use rolling_audit::{RecordFault, RollingAudit, RollingFault};
use std::alloc::{AllocError, Global};
use std::test::Fail;

/// The parts of a record, at reading 0.
type Met = (RecordKind, u32, Option<Name>);

/// The first dispatch of the first client of boot 1.
const FIRST: Option<Name> = Some(Name {
    boot: 1,
    client: 1,
    seq: 1,
});

const THIRD: Option<Name> = Some(Name {
    boot: 1,
    client: 1,
    seq: 3,
});

const OF_ANOTHER_CLIENT: Option<Name> = Some(Name {
    boot: 1,
    client: 2,
    seq: 1,
});

const OF_ANOTHER_BOOT: Option<Name> = Some(Name {
    boot: 2,
    client: 1,
    seq: 1,
});

const NOTHING: Met = (RecordKind::Clock, 0, None);

const TOOK: Met = (RecordKind::Took, 5, FIRST);

/// Records of a session, of which the last is at fault.
type Row = (SessionId, [Met; 3], RecordFault);

fn of_a_client() -> [Row; 7] {
    [
        (
            Client(1),
            [NOTHING, NOTHING, (RecordKind::Took, 5, None)],
            RecordFault::Nameless,
        ),
        (
            Client(1),
            [NOTHING, TOOK, (RecordKind::Passed, 5, OF_ANOTHER_BOOT)],
            RecordFault::OtherBoot,
        ),
        (
            Client(1),
            [NOTHING, TOOK, (RecordKind::Retried, 5, OF_ANOTHER_CLIENT)],
            RecordFault::OtherClient,
        ),
        (
            Client(1),
            [NOTHING, TOOK, (RecordKind::Took, 6, THIRD)],
            RecordFault::NotNext,
        ),
        (
            Client(1),
            [NOTHING, TOOK, (RecordKind::Took, 6, FIRST)],
            RecordFault::NotNext,
        ),
        (
            Client(1),
            [NOTHING, TOOK, (RecordKind::Rolled { number: 2 }, 0, None)],
            RecordFault::BadEpoch,
        ),
        (
            Client(1),
            [NOTHING, NOTHING, (RecordKind::Passed, 5, FIRST)],
            RecordFault::TagOpen,
        ),
    ]
}

fn of_a_server() -> [Row; 6] {
    let offered = (RecordKind::Offered, 2, FIRST);
    [
        (
            Server(0),
            [NOTHING, NOTHING, (RecordKind::Offered, 2, None)],
            RecordFault::Nameless,
        ),
        (
            Server(0),
            [NOTHING, NOTHING, (RecordKind::Offered, 2, OF_ANOTHER_BOOT)],
            RecordFault::OtherBoot,
        ),
        (
            Server(0),
            [NOTHING, (RecordKind::Drained, 0, None), offered],
            RecordFault::AfterDrain,
        ),
        (
            Server(0),
            [NOTHING, (RecordKind::Leased(0), 0, None), offered],
            RecordFault::Lapsed,
        ),
        (
            Server(0),
            [NOTHING, offered, (RecordKind::Offered, 2, THIRD)],
            RecordFault::TagOpen,
        ),
        (
            Server(0),
            [
                NOTHING,
                (RecordKind::TookDrained, 2, FIRST),
                (RecordKind::TookDrained, 2, FIRST),
            ],
            RecordFault::AnsweredTwice,
        ),
    ]
}

fn made((kind, tag, name): Met) -> Record {
    if kind.is_plain() {
        return Record::new(kind, tag, name, 0);
    }
    Record::new(kind, tag, None, 0)
}

/// What an audit says of these records of a session.
fn told(
    alloc: Global,
    session: SessionId,
    met: [Met; 3],
) -> Result<Result<(), RollingFault>, AllocError> {
    let mut audit = RollingAudit::new(alloc, 1, 1)?;
    if audit.open(session, InitMode::Plain).is_err() {
        return Err(AllocError);
    }
    let [first, second, third] = met;
    Ok(audit.take(session, &[made(first), made(second), made(third)]))
}

fn first_wrong(alloc: Global, rows: &[Row]) -> Result<(), Fail> {
    for (place, (session, met, cause)) in rows.iter().enumerate() {
        let fault = RollingFault::Record {
            session: *session,
            place: 2,
            cause: *cause,
        };
        if told(alloc, *session, *met)? != Err(fault) {
            return Err(Fail::from(place));
        }
    }
    Ok(())
}

#[test]
fn records_of_a_client_refused_for_their_causes(rt: HostRuntime) -> Result<(), Fail> {
    let rows = of_a_client();
    first_wrong(rt.alloc(), &rows)
}

#[test]
fn records_of_a_server_refused_for_their_causes(rt: HostRuntime) -> Result<(), Fail> {
    let rows = of_a_server();
    first_wrong(rt.alloc(), &rows)
}

#[test]
fn a_session_that_is_not_open(rt: HostRuntime) -> Result<(), Fail> {
    let mut audit = RollingAudit::new(rt.alloc(), 1, 1)?;
    let session = Client(1);
    assert!(rt; audit.take(session, &[made(TOOK)]) == Err(RollingFault::NotOpen { session }));
    Ok(())
}
