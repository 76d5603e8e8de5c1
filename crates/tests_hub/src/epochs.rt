//! Histories that a session ends by its own seat, and gives up.

use crate::steps::{Do, Told, Way, does, fault, seat_of, server_seat_of};
use hub::{EpochRefusal, EpochRefused, Hub, HubLedger, OpenGate, Seats};
use mux_history::{History, SessionId};
use published_routes::Publish;
use rolling_audit::RunAudit;
use std::alloc::{AllocError, Global};
use std::sync::Wait;

/// How many records a history has places for.
const PLACES: usize = 16;

/// The list into which histories are given up.
#[derive(Clone, Copy)]
pub enum List {
    /// With room for one.
    Roomy,
    Roomless,
    /// With a history in it already.
    Used,
}

/// Which receipts are held against histories that don't have them, before the session's own are.
#[derive(Clone, Copy)]
pub enum Trial {
    Left,
    /// The session's own, where the histories are said to be those of the epochs from the next one on.
    NextEpoch,
    /// Those of the seat of this session.
    Other(SessionId),
}

fn list_of(alloc: Global, list: List) -> Result<Vec<History>, AllocError> {
    match list {
        List::Roomy => Vec::with_capacity(alloc, 1),
        List::Roomless => Ok(Vec::new(alloc)),
        List::Used => {
            let mut used = Vec::with_capacity(alloc, 2)?;
            used.push(History::with_room(alloc, PLACES)?)?;
            Ok(used)
        }
    }
}

/// What comes back has to be the empty history that was handed in.
fn came_back(history: &History) -> Told {
    if !history.records().is_empty() {
        return Told::AtFault;
    }
    Told::CameBack(history.room())
}

/// The seat of a session ends its present history.
fn roll_own<L: HubLedger, B: Publish<L>, R: Wait>(
    rt: &R,
    alloc: Global,
    hub: &Hub<OpenGate, L, B>,
    seats: &mut Seats<L>,
    session: SessionId,
) -> Told {
    let Ok(fresh) = History::with_room(alloc, PLACES) else {
        return Told::Memory;
    };
    let rolled = match session {
        SessionId::Client(client) => match seat_of(&mut seats.clients, client) {
            Some(seat) => hub.roll_client(rt, seat, fresh),
            None => return Told::NoSeat,
        },
        SessionId::Server(server) => match server_seat_of(&mut seats.servers, server) {
            Some(seat) => hub.roll_server(rt, seat, fresh),
            None => return Told::NoSeat,
        },
    };
    match rolled {
        Ok(()) => Told::Done,
        Err(
            EpochRefused {
                why: EpochRefusal::Memory,
                ..
            },
        ) => Told::Memory,
        Err(EpochRefused { fresh, .. }) => came_back(&fresh),
    }
}

/// Holds the receipts of a session's seat against epochs: how many were dropped and are left, or the place of the first
/// wrong one. None if no such session was opened.
fn settle<L: HubLedger>(
    seats: &mut Seats<L>,
    session: SessionId,
    first: u32,
    epochs: &[History],
) -> Option<Result<[usize; 2], usize>> {
    let (before, settled, after) = match session {
        SessionId::Client(client) => {
            let seat = seat_of(&mut seats.clients, client)?;
            let before = seat.receipts().len();
            let settled = seat.settle(first, epochs);
            (before, settled, seat.receipts().len())
        }
        SessionId::Server(server) => {
            let seat = server_seat_of(&mut seats.servers, server)?;
            let before = seat.receipts().len();
            let settled = seat.settle(first, epochs);
            (before, settled, seat.receipts().len())
        }
    };
    match settled {
        Ok(()) => Some(Ok([before.saturating_sub(after), after])),
        Err(place) => Some(Err(place)),
    }
}

/// The place of the receipt that a trial finds wrong.
fn tried<L: HubLedger>(
    seats: &mut Seats<L>,
    session: SessionId,
    trial: Trial,
    first: u32,
    epochs: &[History],
) -> Option<usize> {
    let settled = match trial {
        Trial::Left => return None,
        Trial::NextEpoch => settle(seats, session, first.saturating_add(1), epochs),
        Trial::Other(other) => settle(seats, other, first, epochs),
    };
    match settled {
        Some(Err(place)) => Some(place),
        Some(Ok(_)) | None => None,
    }
}

/// Whether the audit takes these epochs of a session.
fn takes(audit: &mut RunAudit, session: SessionId, first: u32, epochs: &[History]) -> bool {
    let mut epoch = first;
    for history in epochs {
        if audit.take(session, epoch, history.records()).is_err() {
            return false;
        }
        epoch = epoch.saturating_add(1);
    }
    true
}

/// How many records the epoch at this place has, or 0.
fn len_at(epochs: &[History], place: usize) -> usize {
    match epochs.get(place) {
        Some(history) => history.records().len(),
        None => 0,
    }
}

/// A session gives its histories up that have ended.
fn give_up<L: HubLedger, B: Publish<L>, R: Wait>(
    rt: &R,
    hub: &Hub<OpenGate, L, B>,
    seats: &mut Seats<L>,
    audit: &mut RunAudit,
    session: SessionId,
    mut ended: Vec<History>,
    trial: Trial,
) -> Told {
    let Some(first) = hub.take_ended(rt, session, &mut ended) else {
        return Told::KeptBack(ended.len());
    };
    let epochs = ended.as_slice();
    let wrong = tried(seats, session, trial, first, epochs);
    let Some(Ok(receipts)) = settle(seats, session, first, epochs) else {
        return Told::AtFault;
    };
    if !takes(audit, session, first, epochs) {
        return Told::AtFault;
    }
    Told::GaveUp {
        first,
        lens: [len_at(epochs, 0), len_at(epochs, 1)],
        wrong,
        receipts,
    }
}

/// What a session had left when it was taken out. None if it stays, or has no seat.
fn left_of<L: HubLedger, B: Publish<L>, R: Wait>(
    rt: &R,
    hub: &Hub<OpenGate, L, B>,
    seats: &mut Seats<L>,
    session: SessionId,
) -> Option<(u32, Vec<History>)> {
    match session {
        SessionId::Client(client) => hub.finish_client(rt, seat_of(&mut seats.clients, client)?),
        SessionId::Server(server) => {
            hub.finish_server(rt, server_seat_of(&mut seats.servers, server)?)
        }
    }
}

/// A session is taken out, and ends for the audit.
fn finish<L: HubLedger, B: Publish<L>, R: Wait>(
    rt: &R,
    hub: &Hub<OpenGate, L, B>,
    seats: &mut Seats<L>,
    audit: &mut RunAudit,
    session: SessionId,
) -> Told {
    let Some((first, left)) = left_of(rt, hub, seats, session) else {
        return Told::KeptBack(0);
    };
    let epochs = left.as_slice();
    let Some(Ok(receipts)) = settle(seats, session, first, epochs) else {
        return Told::AtFault;
    };
    if !takes(audit, session, first, epochs) {
        return Told::AtFault;
    }
    audit.end(session);
    Told::GaveUp {
        first,
        lens: [len_at(epochs, 0), len_at(epochs, 1)],
        wrong: None,
        receipts,
    }
}

fn renew<L: HubLedger, B: Publish<L>, R: Wait>(
    rt: &R,
    alloc: Global,
    hub: &Hub<OpenGate, L, B>,
    seats: &mut Seats<L>,
    session: SessionId,
) -> Told {
    let renewed = match session {
        SessionId::Client(client) => match seat_of(&mut seats.clients, client) {
            Some(seat) => hub.renew_client(rt, alloc, seat),
            None => return Told::NoSeat,
        },
        SessionId::Server(server) => match server_seat_of(&mut seats.servers, server) {
            Some(seat) => hub.renew_server(rt, alloc, seat),
            None => return Told::NoSeat,
        },
    };
    match renewed {
        Ok(()) => Told::Done,
        Err(why) => fault(why),
    }
}

/// What a step leads to, where an audit takes what sessions give up.
pub fn acts<L: HubLedger, B: Publish<L>, R: Wait>(
    rt: &R,
    alloc: Global,
    hub: &Hub<OpenGate, L, B>,
    seats: &mut Seats<L>,
    audit: &mut RunAudit,
    way: Way,
    step: Do,
) -> Told {
    match step {
        Do::RollOwn(session) => roll_own(rt, alloc, hub, seats, session),
        Do::HasEnded(session) => Told::Ended(hub.has_ended(session)),
        Do::GiveUp(session, list, trial) => match list_of(alloc, list) {
            Ok(ended) => give_up(rt, hub, seats, audit, session, ended, trial),
            Err(_) => Told::Memory,
        },
        Do::Finish(session) => finish(rt, hub, seats, audit, session),
        Do::Renew(session) => renew(rt, alloc, hub, seats, session),
        _ => does(rt, alloc, hub, seats, way, step),
    }
}
