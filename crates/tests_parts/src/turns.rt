//! Sessions that take a slot one after the other, in audits of a run that goes on.

use mux_history::SessionId::{Client, Server};
use mux_history::{InitMode, InitState, Name, Record, RecordKind, SessionId, Standing};
use rolling_audit::{OpenFault, RollingAudit, RunAudit, RunFault};
use std::alloc::Global;
use std::test::Fail;

#[derive(Clone, Copy)]
enum Do {
    /// An epoch of a session is handed in.
    Take(SessionId, u32),
    End(SessionId),
    /// Which epoch is next is asked.
    Next(SessionId),
}

#[derive(Clone, Copy, PartialEq, Eq)]
enum Told {
    Taken,
    OutOfTurn,
    AtFault,
    Ended,
    IsNext(u32),
    NoneIsNext,
}

/// A dispatch that a client sends in an epoch, behind the record with which the epoch begins.
fn dispatch_of(client: u64, epoch: u32) -> [Record; 3] {
    let name = Some(Name {
        boot: 1,
        client,
        seq: (epoch as u64).saturating_add(1),
    });
    [
        Record::new(RecordKind::Rolled { number: epoch }, 0, None, 0),
        Record::new(RecordKind::Took, 5, name, 0),
        Record::new(RecordKind::Nacked, 5, name, 0),
    ]
}

fn took(taken: Result<(), RunFault>, session: SessionId) -> Told {
    match taken {
        Ok(()) => Told::Taken,
        Err(RunFault::OutOfTurn { session: of }) if of == session => Told::OutOfTurn,
        Err(_fault) => Told::AtFault,
    }
}

fn take(audit: &mut RunAudit, session: SessionId, epoch: u32) -> Told {
    let taken = match session {
        Client(client) => {
            let records = dispatch_of(client, epoch);
            let all = records.as_slice();
            let first = if epoch == 0 { 1 } else { 0 };
            audit.take(session, epoch, all.get(first..).unwrap_or(all))
        }
        Server(_server) => audit.take(session, epoch, &[]),
    };
    took(taken, session)
}

fn does(audit: &mut RunAudit, step: Do) -> Told {
    match step {
        Do::Take(session, epoch) => take(audit, session, epoch),
        Do::End(session) => {
            audit.end(session);
            Told::Ended
        }
        Do::Next(session) => match audit.next_epoch(session) {
            Some(epoch) => Told::IsNext(epoch),
            None => Told::NoneIsNext,
        },
    }
}

/// Two slots: clients 1, 3, 5 and 7 are of the first, 2 and 4 of the second.
const STEPS: &[(Do, Told)] = &[
    (Do::Next(Client(0)), Told::NoneIsNext),
    (Do::Take(Client(0), 0), Told::OutOfTurn),
    (Do::Next(Client(1)), Told::IsNext(0)),
    (Do::Take(Client(1), 0), Told::Taken),
    (Do::Take(Client(2), 0), Told::Taken),
    // Client 1 hasn't ended.
    (Do::Next(Client(3)), Told::NoneIsNext),
    (Do::Take(Client(3), 0), Told::OutOfTurn),
    (Do::End(Client(3)), Told::Ended),
    (Do::Take(Client(1), 1), Told::Taken),
    (Do::Next(Client(1)), Told::IsNext(2)),
    (Do::End(Client(1)), Told::Ended),
    (Do::Next(Client(1)), Told::NoneIsNext),
    (Do::Take(Client(1), 2), Told::OutOfTurn),
    (Do::Take(Client(1), 0), Told::OutOfTurn),
    // Client 3 takes the slot.
    (Do::Take(Client(3), 2), Told::OutOfTurn),
    (Do::Take(Client(3), 0), Told::Taken),
    (Do::Take(Client(1), 2), Told::OutOfTurn),
    (Do::Take(Client(5), 0), Told::OutOfTurn),
    (Do::Take(Client(3), 1), Told::Taken),
    (Do::Take(Client(2), 1), Told::Taken),
    // Client 2 hasn't ended.
    (Do::Take(Client(4), 0), Told::OutOfTurn),
    (Do::End(Client(3)), Told::Ended),
    // A number may be passed over, and isn't used then.
    (Do::Take(Client(7), 0), Told::Taken),
    (Do::Take(Client(5), 0), Told::OutOfTurn),
    (Do::End(Client(7)), Told::Ended),
    (Do::Take(Client(5), 0), Told::OutOfTurn),
    (Do::Next(Client(9)), Told::IsNext(0)),
    (Do::Take(Server(0), 0), Told::Taken),
    (Do::Take(Server(1), 0), Told::OutOfTurn),
    (Do::End(Server(0)), Told::Ended),
    (Do::Take(Server(0), 1), Told::OutOfTurn),
    (Do::Take(Server(1), 0), Told::Taken),
];

/// Two servers: the sessions 0, 2, 4 and 6 are of the first, 1 and 3 of the second.
const SERVERS: &[(Do, Told)] = &[
    (Do::Next(Server(0)), Told::IsNext(0)),
    (Do::Next(Server(1)), Told::IsNext(0)),
    (Do::Next(Server(2)), Told::NoneIsNext),
    (Do::Take(Server(0), 0), Told::Taken),
    // Session 0 hasn't ended.
    (Do::Take(Server(2), 0), Told::OutOfTurn),
    (Do::End(Server(2)), Told::Ended),
    (Do::Take(Server(0), 1), Told::Taken),
    (Do::End(Server(0)), Told::Ended),
    (Do::Next(Server(0)), Told::NoneIsNext),
    (Do::Take(Server(0), 2), Told::OutOfTurn),
    (Do::Take(Server(0), 0), Told::OutOfTurn),
    // Session 2 takes the slot.
    (Do::Take(Server(2), 2), Told::OutOfTurn),
    (Do::Take(Server(2), 0), Told::Taken),
    (Do::Take(Server(0), 2), Told::OutOfTurn),
    (Do::Take(Server(4), 0), Told::OutOfTurn),
    (Do::Take(Server(2), 1), Told::Taken),
    // Session 1 hasn't ended.
    (Do::Take(Server(3), 0), Told::OutOfTurn),
    (Do::Take(Server(1), 0), Told::Taken),
    (Do::End(Server(2)), Told::Ended),
    // A number may be passed over, and isn't used then.
    (Do::Take(Server(6), 0), Told::Taken),
    (Do::Take(Server(4), 0), Told::OutOfTurn),
    (Do::End(Server(6)), Told::Ended),
    (Do::Take(Server(4), 0), Told::OutOfTurn),
    (Do::Next(Server(8)), Told::IsNext(0)),
    (Do::Next(Server(9)), Told::NoneIsNext),
    (Do::Take(Client(1), 0), Told::OutOfTurn),
];

/// The place of the first step that is told otherwise.
fn first_wrong(audit: &mut RunAudit, steps: &[(Do, Told)]) -> Result<(), Fail> {
    for (place, (step, told)) in steps.iter().enumerate() {
        if does(audit, *step) != *told {
            return Err(Fail::from(place));
        }
    }
    Ok(())
}

#[test]
fn clients_take_a_slot_in_turn(rt: HostRuntime) -> Result<(), Fail> {
    let mut audit = RunAudit::new(rt.alloc(), 1, 2, &[InitMode::Plain])?;
    first_wrong(&mut audit, STEPS)?;
    assert!(rt; audit.close().is_ok());
    assert_eq!(rt; audit.records(), 17);
    Ok(())
}

#[test]
fn servers_take_a_slot_in_turn(rt: HostRuntime) -> Result<(), Fail> {
    let mut audit = RunAudit::new(rt.alloc(), 1, 0, &[InitMode::Plain, InitMode::Plain])?;
    first_wrong(&mut audit, SERVERS)?;
    assert!(rt; audit.close().is_ok());
    assert_eq!(rt; audit.records(), 0);
    Ok(())
}

/// Whether a session's second epoch may begin as that of one which is open, though no probe came back in the first.
fn is_open_at_once(audit: &mut RunAudit, session: SessionId) -> bool {
    let standing = Standing::Up {
        init: InitState::Open,
        drained: false,
        retired: false,
        ping: false,
        leased: false,
        lapse: 0,
    };
    let begins = [Record::new(
        RecordKind::Epoch {
            number: 1,
            standing,
        },
        0,
        None,
        0,
    )];
    audit.take(session, 0, &[]).is_ok() && audit.take(session, 1, &begins).is_ok()
}

#[test]
fn a_server_has_the_mode_of_its_slot(rt: HostRuntime) -> Result<(), Fail> {
    let mut audit = RunAudit::new(rt.alloc(), 1, 0, &[InitMode::Plain, InitMode::Probe])?;
    audit.end(Server(0));
    audit.end(Server(1));
    assert!(rt; is_open_at_once(&mut audit, Server(2)));
    assert!(rt; !is_open_at_once(&mut audit, Server(3)));
    Ok(())
}

#[test]
fn a_run_without_slots(rt: HostRuntime) -> Result<(), Fail> {
    let mut audit = RunAudit::new(rt.alloc(), 1, 0, &[])?;
    assert!(rt; take(&mut audit, Client(1), 0) == Told::OutOfTurn);
    assert!(rt; audit.close().is_ok());
    Ok(())
}

/// Ends the session if it is told to, and opens it.
fn opens(audit: &mut RollingAudit, (session, ended): (SessionId, bool)) -> Result<(), OpenFault> {
    if ended {
        audit.end(session);
    }
    audit.open(session, InitMode::Plain)
}

fn all_open(
    alloc: Global,
    slots: usize,
    rows: &[((SessionId, bool), Result<(), OpenFault>)],
) -> Result<(), Fail> {
    let mut audit = RollingAudit::new(alloc, 1, slots)?;
    for (place, (step, want)) in rows.iter().enumerate() {
        if opens(&mut audit, *step) != *want {
            return Err(Fail::from(place));
        }
    }
    Ok(())
}

#[test]
fn numbers_of_a_slot_rise(rt: HostRuntime) -> Result<(), Fail> {
    let rows = [
        ((Client(0), false), Err(OpenFault::NumberUsed)),
        ((Client(3), false), Ok(())),
        ((Client(3), false), Err(OpenFault::NumberUsed)),
        ((Client(3), true), Err(OpenFault::NumberUsed)),
        ((Client(1), false), Err(OpenFault::NumberUsed)),
        // Of the other slot.
        ((Client(2), false), Ok(())),
        ((Client(5), false), Ok(())),
        ((Client(u64::MAX), false), Ok(())),
        ((Client(7), false), Err(OpenFault::NumberUsed)),
        ((Server(0), false), Ok(())),
        ((Server(0), false), Err(OpenFault::IsOpen)),
        ((Server(0), true), Ok(())),
    ];
    all_open(rt.alloc(), 2, &rows)?;
    all_open(
        rt.alloc(),
        0,
        &[((Client(1), false), Err(OpenFault::NumberUsed))],
    )
}
