//! The slot of a connection.
ghost use Rattle.std.specs.Prelude.{◌≡◌};
ghost use Rattle.router_state.specs.Sides.{is_held_by};

use crate::halves::Halves;
use crate::notify::Notify;
use crate::probe::Probe;
use mux_history::SessionId;
use operator_port::End;
use std::net::SocketAddr;
use std::sync::atomic::{AtomicBool, AtomicU64, Ordering};
use std::sync::{Mutex, Wait};
use tokio::net::OwnedWriteHalf;

/// No cause was told.
const UNTOLD: u64 = u64::MAX;

/// Where the reader and the writer of one connection meet.
///
/// A client's slot is free, or it is held by both tasks: the reader is given a connection, opens its session and
/// hands the half to write on to the writer. Once both have let go it is free for the next client. A server's
/// slot is held so for each connection to it, one after another.
#[derive(Drop)]
pub struct Slot {
    /// At which its reader waits.
    pub reader: Notify,
    /// At which its writer waits.
    pub writer: Notify,
    /// Of its client's dispatches.
    pub probe: Probe,
    // The place of the thread that carries it.
    worker: usize,
    is_clients: bool,
    given: Mutex<Option<Halves>>,
    to_write: Mutex<Option<OwnedWriteHalf>>,
    // The address at the other end of its connection.
    peer: Mutex<Option<SocketAddr>>,
    // The number of its session.
    session: AtomicU64,
    // The reading at which frames came over its connection last.
    heard: AtomicU64,
    // How many tasks have it.
    held: AtomicU64,
    is_over: AtomicBool,
    // For how many ticks more what was taken out may be written then.
    grace: AtomicU64,
    waits: AtomicBool,
    // Whether nobody wrote to its connection when that was last asked.
    was_idle: AtomicBool,
    // The number of the cause for which its connection ends.
    told: AtomicU64,
}

impl Slot {
    /// A free slot for clients, or one for a server, that the thread at this place carries.
    pub(crate) fn new(worker: usize, is_clients: bool) -> Slot {
        Slot {
            worker,
            is_clients,
            reader: Notify::new(),
            writer: Notify::new(),
            probe: Probe::new(),
            given: Mutex::new(None),
            to_write: Mutex::new(None),
            peer: Mutex::new(None),
            session: AtomicU64::new(0),
            heard: AtomicU64::new(0),
            held: AtomicU64::new(0),
            is_over: AtomicBool::new(false),
            grace: AtomicU64::new(0),
            waits: AtomicBool::new(false),
            was_idle: AtomicBool::new(false),
            told: AtomicU64::new(UNTOLD),
        }
    }

    /// The place of the thread that carries the connection of this slot.
    pub fn worker(&self) -> usize {
        self.worker
    }

    /// Whether clients have it, and no server.
    pub(crate) fn is_clients(&self) -> bool {
        self.is_clients
    }

    /// Whether no task has it.
    pub fn is_free(&self) -> bool {
        self.held.load(Ordering::SeqCst) == 0
    }

    /// Both tasks have it from now on.
    pub fn hold(&self) {
        self.is_over.store(false, Ordering::SeqCst);
        self.grace.store(0, Ordering::SeqCst);
        self.waits.store(false, Ordering::SeqCst);
        self.was_idle.store(false, Ordering::SeqCst);
        self.session.store(0, Ordering::SeqCst);
        self.told.store(UNTOLD, Ordering::SeqCst);
        self.probe.reset();
        // Last, so that no other thread finds what the client before has left.
        self.held.store(2, Ordering::SeqCst);
    }

    /// A task lets go of it: whether it was the last one.
    pub(crate) fn leave(&self) -> bool {
        self.held.fetch_sub(1, Ordering::SeqCst) <= 1
    }

    /// Hands a client's connection to the reader.
    pub fn give<R: Wait>(&self, rt: &R, halves: Halves) {
        self.hold();
        let mut given = self.given.lock(rt);
        *given = Some(halves);
        drop(given);
        self.reader.notify();
    }

    /// The connection that it was given, once.
    pub fn take_given<R: Wait>(&self, rt: &R) -> Option<Halves> {
        self.given.lock(rt).take()
    }

    /// Its session is open, and the writer may begin.
    pub fn begin<R: Wait>(&self, rt: &R, session: u64, to_write: OwnedWriteHalf) {
        self.session.store(session, Ordering::SeqCst);
        let mut place = self.to_write.lock(rt);
        *place = Some(to_write);
        drop(place);
        self.writer.notify();
    }

    /// The half to write of the connection whose session was opened, once.
    pub fn take_to_write<R: Wait>(&self, rt: &R) -> Option<OwnedWriteHalf> {
        self.to_write.lock(rt).take()
    }

    /// The number of its session, once that is open.
    pub fn session(&self) -> u64 {
        self.session.load(Ordering::Relaxed)
    }

    /// The reader has a connection, at whose other end is this address.
    pub fn meet<R: Wait>(&self, rt: &R, peer: Option<SocketAddr>) {
        *self.peer.lock(rt) = peer;
    }

    /// The address at the other end of its connection, or of the last one that it had.
    pub fn peer<R: Wait>(&self, rt: &R) -> Option<SocketAddr> {
        *self.peer.lock(rt)
    }

    /// The address at the other end of a session's connection, if its tasks have this slot. A server's has it for each
    /// session in turn.
    pub fn peer_of<R: Wait>(&self, rt: &R, session: SessionId) -> Option<SocketAddr> {
        if is_held_by(self.is_free(), self.session(), session) {
            return self.peer(rt);
        }
        None
    }

    /// Whether nobody writes to its connection, also when this was last asked: it has no session yet, or its writer is
    /// done.
    pub fn is_idle_still(&self) -> bool {
        let is_idle = match self.held.load(Ordering::SeqCst) {
            0 => false,
            1 => true,
            _ => self.session() == 0,
        };
        self.was_idle.swap(is_idle, Ordering::SeqCst) && is_idle
    }

    /// At this reading frames came over its connection, or it began.
    #[inline(always)]
    pub fn hear(&self, now: u64) {
        self.heard.store(now, Ordering::Relaxed);
    }

    /// The reading at which frames came last.
    pub fn heard(&self) -> u64 {
        self.heard.load(Ordering::Relaxed)
    }

    /// No more frames go through it.
    pub fn end(&self) {
        self.is_over.store(true, Ordering::SeqCst);
        self.ring_both();
    }

    /// Its connection ends for this cause, unless another one was told before.
    pub fn tell(&self, end: End) {
        let _ = self
            .told
            .compare_exchange(UNTOLD, end.code(), Ordering::SeqCst, Ordering::SeqCst);
    }

    /// The cause that was told.
    pub fn told(&self) -> Option<End> {
        End::at(self.told.load(Ordering::SeqCst))
    }

    /// No more frames go through it, for this cause.
    pub fn end_for(&self, end: End) {
        self.tell(end);
        self.end();
    }

    /// Whether no more frames go through it.
    pub fn is_over(&self) -> bool {
        self.is_over.load(Ordering::SeqCst)
    }

    /// What was taken out may be written for so many ticks more once it is over.
    pub fn bear(&self, ticks: u64) {
        self.grace.store(ticks, Ordering::SeqCst);
    }

    /// For how many ticks more what was taken out may be written.
    pub fn grace(&self) -> u64 {
        self.grace.load(Ordering::SeqCst)
    }

    /// Whether the reader waits until frames were taken out.
    pub fn set_waits(&self, waits: bool) {
        self.waits.store(waits, Ordering::SeqCst);
    }

    /// Whether the reader waits until frames were taken out, as it last said.
    pub fn waits(&self) -> bool {
        self.waits.load(Ordering::Relaxed)
    }

    /// A step was made on its session.
    pub fn ring(&self) {
        self.writer.notify();
        if self.waits() {
            self.reader.notify();
        }
    }

    pub(crate) fn ring_both(&self) {
        self.writer.notify();
        self.reader.notify();
    }
}

/// Whether a slot's tasks are those of this session, where the slot's own session has this number.
fn is_held_by(is_free: bool, number: u64, session: SessionId) -> bool
    ensures { result ≡ is_held_by is_free number session }
{
    match session {
        SessionId::Client(client) => !is_free && number == client,
        SessionId::Server(_) => !is_free,
    }
}
