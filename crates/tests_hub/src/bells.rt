//! A bell that writes down for whom it was rung.

use crate::steps::{Told, seat_of, server_seat_of};
use bytes::Bytes;
use hub::{Batch, Bell, Hub, HubFault, HubLedger, OpenGate, Seats};
use mux_frame::Frame;
use mux_history::SessionId;
use published_routes::Publish;
use std::alloc::{AllocError, Global};
use std::sync::Wait;
use std::sync::atomic::{AtomicU32, Ordering};

/// How often it was rung for a client, for the servers 0 and 1, and for all.
#[derive(Drop)]
struct Rung {
    client: AtomicU32,
    servers: [AtomicU32; 2],
    all: AtomicU32,
}

impl Bell for Rung {
    fn ring(&self, session: SessionId) {
        match session {
            SessionId::Client(_) => self.client.fetch_add(1, Ordering::SeqCst),
            SessionId::Server(0) => self.servers[0].fetch_add(1, Ordering::SeqCst),
            SessionId::Server(_) => self.servers[1].fetch_add(1, Ordering::SeqCst),
        };
    }

    fn ring_all(&self) {
        self.all.fetch_add(1, Ordering::SeqCst);
    }
}

impl Rung {
    fn new() -> Rung {
        Rung {
            client: AtomicU32::new(0),
            servers: [AtomicU32::new(0), AtomicU32::new(0)],
            all: AtomicU32::new(0),
        }
    }

    fn counts(&self) -> [u32; 4] {
        [
            self.client.load(Ordering::SeqCst),
            self.servers[0].load(Ordering::SeqCst),
            self.servers[1].load(Ordering::SeqCst),
            self.all.load(Ordering::SeqCst),
        ]
    }
}

/// Two frames of one type.
fn two(
    alloc: Global,
    kind: i8,
    tags: [u16; 2],
    bodies: [&'static [u8]; 2],
) -> Result<Batch, AllocError> {
    let mut batch = Batch::new(alloc)?;
    for at in 0..2 {
        let body = Bytes::from_static(bodies[at]);
        let _full = batch.push(Frame::read(kind, u32::from(tags[at]), body));
    }
    Ok(batch)
}

/// Hands a batch in. None if no such session was opened.
pub fn hand_in<L: HubLedger, B: Publish<L>, R: Wait>(
    rt: &R,
    hub: &Hub<OpenGate, L, B>,
    seats: &mut Seats<L>,
    session: SessionId,
    batch: &mut Batch,
    now: u64,
) -> Option<Result<(), HubFault>> {
    match session {
        SessionId::Client(client) => {
            let seat = seat_of(&mut seats.clients, client)?;
            Some(hub.client_frames(rt, seat, batch, now))
        }
        SessionId::Server(server) => {
            let seat = server_seat_of(&mut seats.servers, server)?;
            Some(hub.server_frames(rt, seat, batch, now))
        }
    }
}

/// Two frames come in one batch from the other side of a session: the bells that are rung after it,
/// and then those that are rung once no more waits.
pub fn take_two<L: HubLedger, B: Publish<L>, R: Wait>(
    rt: &R,
    alloc: Global,
    hub: &Hub<OpenGate, L, B>,
    seats: &mut Seats<L>,
    session: SessionId,
    (kind, tags, bodies): (i8, [u16; 2], [&'static [u8]; 2]),
) -> Told {
    let Ok(mut batch) = two(alloc, kind, tags, bodies) else {
        return Told::Memory;
    };
    match hand_in(rt, hub, seats, session, &mut batch, 0) {
        Some(Ok(())) => {}
        Some(Err(_)) => return Told::NotTaken,
        None => return Told::NoSeat,
    }
    if !batch.is_empty() {
        return Told::NotTaken;
    }
    let bell = Rung::new();
    batch.ring(&bell, true);
    let first = bell.counts();
    batch.ring(&bell, false);
    Told::Rung([first, bell.counts()])
}
