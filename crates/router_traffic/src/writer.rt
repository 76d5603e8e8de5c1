//! The task that writes a connection.
//!
//! Its twin is `reader`, which is longer by what opens and loses a session.
ghost use Rattle.futures.specs.Poll.{OnPending};
ghost use Rattle.futures.specs.Task.{IsArmed, Keeps};

use crate::ends::told_of;
use crate::source::HubSource;
use futures::task::{Context, Poll};
use futures::{Future, ready};
use mux_history::SessionId;
use operator_port::End;
use router_state::{Control, Side, Slot, is_ready, put, wait_at};
use std::alloc::AllocError;
use std::sync::Wait;
use std::time::Clock;
use tokio::net::OwnedWriteHalf;
use tokio_sessions::{WriteEnd, WriteSession};

/// How many bytes a write gathers.
const GATHER: usize = 64 * 1024;

type Writing<'a, H, R> = WriteSession<OwnedWriteHalf, HubSource<'a, H, R>>;

/// Writes what the hub has queued for the connections of a slot, one after another.
///
/// Once the session is over it writes what was taken out before. If bytes are still missing at the next tick it lets
/// go of the connection: the other side doesn't read. A client that was drained for its silence has more ticks.
#[derive(Drop)]
pub struct WriteTask<'a, H: Control, R: Wait + Clock> {
    rt: &'a R,
    /// What it shares with the other tasks.
    pub router: &'a H,
    slot: &'a Slot,
    side: Side,
    session: Option<Writing<'a, H, R>>,
    // The tick at which its session was found to be over.
    over_at: Option<u64>,
}

impl<'a, H: Control, R: Wait + Clock> WriteTask<'a, H, R> {
    /// The writer of the client's slot at this place.
    pub fn of_client(
        rt: &'a R,
        router: &'a H,
        slot: &'a Slot,
        place: usize,
    ) -> WriteTask<'a, H, R> {
        WriteTask::of(rt, router, slot, Side::Client { place })
    }

    /// The writer of a server.
    pub fn of_server(rt: &'a R, router: &'a H, slot: &'a Slot, server: u64) -> WriteTask<'a, H, R> {
        WriteTask::of(rt, router, slot, Side::Server(server))
    }

    fn of(rt: &'a R, router: &'a H, slot: &'a Slot, side: Side) -> WriteTask<'a, H, R> {
        router.shared().switchboard.begin_carrying();
        WriteTask {
            rt,
            router,
            slot,
            side,
            session: None,
            over_at: None,
        }
    }

    // A session over the half of the connection whose session was opened.
    fn begin(&mut self, to_write: OwnedWriteHalf) -> Result<(), AllocError> {
        let router = self.router;
        let number = self.slot.session();
        let id = match self.side {
            Side::Client { .. } => SessionId::Client(number),
            Side::Server(_) => SessionId::Server(number),
        };
        let source = HubSource::new(self.rt, router, self.slot, id)?;
        let session = WriteSession::new(router.shared().alloc, to_write, source, GATHER)?;
        put(&mut self.session, session);
        Ok(())
    }

    // Whether the other side had until a tick to read what is missing.
    fn is_late(&mut self) -> bool {
        let switchboard = &self.router.shared().switchboard;
        if switchboard.is_abandoned() {
            return true;
        }
        if !self.slot.is_over() && !switchboard.is_stopped() {
            return false;
        }
        let now = switchboard.ticks();
        let grace = if switchboard.is_stopped() {
            0
        } else {
            self.slot.grace()
        };
        match self.over_at {
            Some(tick) => now > tick.saturating_add(grace),
            None => {
                self.over_at = Some(now);
                false
            }
        }
    }

    // Polls the session until it is over.
    fn poll_session(&mut self, cx: &mut Context<'_>) -> Poll<()>
        ensures registered { OnPending result (IsArmed cx.new) }
        ensures kept { Keeps cx.old cx.new }
    {
        let Some(session) = &mut self.session else {
            return Poll::Ready(());
        };
        if let Poll::Ready(end) = session.poll(cx) {
            self.tell(end);
            return Poll::Ready(());
        }
        if self.is_late() {
            return Poll::Ready(());
        }
        if is_ready(self.slot.writer.poll_notified(cx)) {
            return cx.yield_now();
        }
        Poll::Pending
    }

    // Tells why the connection ends, if it isn't known.
    fn tell(&self, end: WriteEnd) {
        let is_stopped = self.router.shared().switchboard.is_stopped();
        if let Some(end) = told_of(end, is_stopped) {
            self.slot.tell(end);
        }
    }

    // The connection is done. A client that the router lets go hears that, and what it sends until it closes is read:
    // else it would lose what it hasn't read.
    fn finish(&mut self) {
        self.session = None;
        self.over_at = None;
        if !self.lets_go() {
            self.slot.end();
        }
        self.router.shared().switchboard.leave(self.slot);
    }

    fn lets_go(&self) -> bool {
        match self.side {
            Side::Client { .. } => self.router.shared().switchboard.lets_go(),
            Side::Server(_) => false,
        }
    }
}

impl<H: Control, R: Wait + Clock> Future for WriteTask<'_, H, R> {
    type Output = ();

    fn poll(&mut self, cx: &mut Context<'_>) -> Poll<()> {
        let switchboard = &self.router.shared().switchboard;
        if self.session.is_none() {
            wait_at(&self.slot.writer, cx);
            let Some(to_write) = self.slot.take_to_write(self.rt) else {
                if switchboard.is_stopped() {
                    return Poll::Ready(());
                }
                return Poll::Pending;
            };
            // With no session the connection is closed: there was no memory for it.
            if self.begin(to_write).is_err() {
                self.slot.tell(End::Memory);
            }
        }
        ready!(self.poll_session(cx));
        self.finish();
        cx.yield_now()
    }
}
