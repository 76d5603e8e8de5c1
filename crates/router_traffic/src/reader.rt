//! The task that reads a connection.
//!
//! Its twin is `writer`: tasks of one shape, of which the one waits for what comes and the other for what goes out.
ghost use Rattle.futures.specs.Poll.{OnPending};
ghost use Rattle.futures.specs.Task.{IsArmed, Keeps};

use crate::ends::{Last, end_of};
use crate::silence::Watch;
use crate::sink::HubSink;
use crate::start::waits_for_memory;
use futures::task::{Context, Poll};
use futures::{Future, ready};
use mux_history::ServerId;
use operator_port::{End, EventRow};
use router_state::{
    Control, Ending, Halves, Host, Leaving, Seated, Side, Slot, Upstream, is_ready, leaving_of,
    put, wait_at,
};
use std::alloc::AllocError;
use std::net::{Net, SocketAddr};
use std::sync::Wait;
use std::time::Clock;
use tokio::net::{ConnectFuture, OwnedReadHalf, TcpStream};
use tokio::reactor::Handle;
use tokio_sessions::{ReadEnd, ReadSession};

/// What a read of small frames is offered, in bytes.
const ROOM: usize = 16 * 1024;

type Reading<'a, H, R> = ReadSession<OwnedReadHalf, HubSink<'a, H, R>>;

/// Reads the connections of a slot, one after another: those that a client's slot is given, or those that it makes to a
/// server.
///
/// It opens the session of a connection, and loses it when the connection ends, spells no frame, or was closed by a
/// frame, or when there is no memory for the frames of a client. A server that can't be connected to at the start is
/// opened and lost at once.
///
/// At each tick it looks whether the connection was silent for too long.
#[derive(Drop)]
pub struct ReadTask<'a, H: Host + Control, R: Wait + Clock> {
    rt: &'a R,
    /// What it shares with the other tasks.
    pub router: &'a H,
    slot: &'a Slot,
    side: Side,
    // What waits for a connection to a server. None at the slot of a client.
    reactor: Option<Handle>,
    connecting: Option<Connecting>,
    session: Option<Reading<'a, H, R>>,
    watch: Watch,
}

/// A connection that is being made, to this address.
#[derive(Drop)]
struct Connecting {
    address: SocketAddr,
    stream: ConnectFuture,
}

impl<'a, H: Host + Control, R: Wait + Clock> ReadTask<'a, H, R> {
    /// The reader of the client's slot at this place.
    pub fn of_client(rt: &'a R, router: &'a H, slot: &'a Slot, place: usize) -> ReadTask<'a, H, R> {
        ReadTask::of(rt, router, slot, Side::Client { place }, None)
    }

    /// The reader of the server at this place.
    pub fn of_server(
        rt: &'a R,
        router: &'a H,
        slot: &'a Slot,
        server: ServerId,
        reactor: Handle,
    ) -> ReadTask<'a, H, R> {
        ReadTask::of(rt, router, slot, Side::Server(server), Some(reactor))
    }

    fn of(
        rt: &'a R,
        router: &'a H,
        slot: &'a Slot,
        side: Side,
        reactor: Option<Handle>,
    ) -> ReadTask<'a, H, R> {
        router.shared().switchboard.begin_carrying();
        ReadTask {
            rt,
            router,
            slot,
            side,
            reactor,
            connecting: None,
            session: None,
            watch: Watch::new(),
        }
    }

    // That of its server. None at the slot of a client.
    fn upstream(&self) -> Option<&'a Upstream> {
        let router = self.router;
        match self.side {
            Side::Client { .. } => None,
            Side::Server(server) => router.shared().switchboard.upstreams().get(server as usize),
        }
    }

    // A session over the connection. Its sink opens it at the first poll.
    fn begin(&mut self, halves: Halves) -> Result<(), AllocError> {
        let Halves { to_read, to_write } = halves;
        self.slot.meet(self.rt, to_read.peer_addr().ok());
        let router = self.router;
        let sink = HubSink::new(self.rt, router, self.slot, self.side, to_write);
        let max_frame = router.shared().limits.clients.max_frame();
        let session = ReadSession::new(router.shared().alloc, to_read, sink, max_frame, ROOM)?;
        put(&mut self.session, session);
        self.watch = Watch::new();
        self.slot.hear(router.shared().now(self.rt));
        Ok(())
    }

    // The connection's session is over.
    fn finish(&mut self, read: ReadEnd) {
        let Some(session) = self.session.take() else {
            return;
        };
        let (_, sink) = session.into_parts();
        match sink.into_seat() {
            Some(seat) => self.lose(seat, read),
            None => self.refuse(end_of(self.slot.told(), read, &self.unopened())),
        }
    }

    // How it stands with no session.
    fn unopened(&self) -> Last {
        Last {
            is_opened: false,
            is_closed: false,
            leave: None,
            is_stopped: self.router.shared().switchboard.is_stopped(),
        }
    }

    // How it stands with the session of a seat.
    fn opened(&self, seat: &H::Seat, leave: Option<End>) -> Last {
        Last {
            is_opened: true,
            is_closed: seat.is_closed(),
            leave,
            is_stopped: self.router.shared().switchboard.is_stopped(),
        }
    }

    // Counts and notes the end of the connection of a seat's session: how that leaves it.
    fn note(&self, seat: &H::Seat, read: ReadEnd) -> Leaving {
        let shared = self.router.shared();
        let session = seat.session();
        let leaving = leaving_of(self.rt, self.router, session);
        let end = end_of(self.slot.told(), read, &self.opened(seat, leaving.cause));
        shared.endings.count(self.side, true, end);
        let event = EventRow {
            elapsed: shared.now(self.rt),
            session,
            peer: self.slot.peer(self.rt),
            end,
            open: leaving.open,
        };
        shared.endings.note(self.rt, event);
        leaving
    }

    // Its session was open.
    fn lose(&self, seat: H::Seat, read: ReadEnd) {
        let leaving = self.note(&seat, read);
        let now = self.router.shared().now(self.rt);
        match self.upstream() {
            Some(upstream) if leaving.is_opening => upstream.fail(now),
            Some(upstream) => upstream.lose(now),
            None => {}
        }
        self.router.lose(self.rt, seat);
        self.slot.end();
        self.router.shared().switchboard.leave(self.slot);
    }

    // No session could be opened for the connection. The writer was given nothing.
    fn refuse(&self, end: End) {
        self.router.shared().endings.count(self.side, false, end);
        if let Some(upstream) = self.upstream() {
            upstream.fail(self.router.shared().now(self.rt));
            if upstream.is_first() {
                self.router.shared().switchboard.end(Ending::Memory);
            }
        }
        self.leave_all();
    }

    // Neither this task nor the writer needs the slot.
    fn leave_all(&self) {
        self.slot.end();
        self.router.shared().switchboard.leave(self.slot);
        self.router.shared().switchboard.leave(self.slot);
    }

    // Polls the session until it is over.
    fn poll_session(&mut self, cx: &mut Context<'_>) -> Poll<ReadEnd>
        ensures registered { OnPending result (IsArmed cx.new) }
        ensures kept { Keeps cx.old cx.new }
    {
        let Some(session) = &mut self.session else {
            return Poll::Ready(ReadEnd::Stopped);
        };
        match session.poll(cx) {
            Poll::Pending => {
                if self.watch.is_due(self.router.shared().switchboard.ticks()) {
                    let is_midway = session.is_midway();
                    self.watch
                        .look(self.rt, self.router, self.slot, self.side, is_midway);
                }
            }
            // It waits for a tick alone, and its peer for it.
            Poll::Ready(_) if waits_for_memory(self.side) && session.retry() => self.watch.forget(),
            Poll::Ready(end) => return Poll::Ready(end),
        }
        // A socket alone doesn't hear the end of the router, nor a tick.
        if is_ready(self.slot.reader.poll_notified(cx)) {
            return cx.yield_now();
        }
        Poll::Pending
    }
}

impl<H: Host + Control, R: Wait + Clock + Net> ReadTask<'_, H, R> {
    // The next connection. None if the task is to end.
    fn poll_halves(&mut self, cx: &mut Context<'_>) -> Poll<Option<Halves>>
        ensures registered { OnPending result (IsArmed cx.new) }
        ensures kept { Keeps cx.old cx.new }
    {
        wait_at(&self.slot.reader, cx);
        if self.router.shared().switchboard.is_stopped() {
            return Poll::Ready(None);
        }
        match self.side {
            Side::Client { .. } => match self.slot.take_given(self.rt) {
                Some(halves) => Poll::Ready(Some(halves)),
                None => Poll::Pending,
            },
            Side::Server(_) => self.poll_server(cx),
        }
    }

    // The next connection to the server, once it is to be made and can be.
    fn poll_server(&mut self, cx: &mut Context<'_>) -> Poll<Option<Halves>>
        requires { IsArmed cx.old }
        ensures registered { OnPending result (IsArmed cx.new) }
        ensures kept { Keeps cx.old cx.new }
    {
        if !self.is_begun() {
            return Poll::Pending;
        }
        let made = ready!(self.poll_made(cx));
        self.slot.hold();
        match made {
            Some(halves) => Poll::Ready(Some(halves)),
            None => {
                self.lose_absent();
                cx.yield_now()
            }
        }
    }

    // Whether a connection is being made: from now on, if one is due and no task has the slot. To a server without an
    // address none can be.
    fn is_begun(&mut self) -> bool {
        if self.connecting.is_some() {
            return true;
        }
        let Some(upstream) = self.upstream() else {
            return false;
        };
        if !upstream.is_due(self.router.shared().now(self.rt)) || !self.slot.is_free() {
            return false;
        }
        upstream.begin();
        if let (Some(reactor), Some(address)) = (&self.reactor, upstream.address(self.rt)) {
            let stream = TcpStream::connect(self.rt, address, reactor);
            put(&mut self.connecting, Connecting { address, stream });
        }
        true
    }

    // The connection. None if it couldn't be made, or an operator retired or moved the server meanwhile.
    fn poll_made(&mut self, cx: &mut Context<'_>) -> Poll<Option<Halves>>
        ensures registered { OnPending result (IsArmed cx.new) }
        ensures kept { Keeps cx.old cx.new }
    {
        let Some(connecting) = &mut self.connecting else {
            return Poll::Ready(None);
        };
        let halves = match ready!(connecting.stream.poll(cx)) {
            Ok(stream) => Halves::of(stream),
            Err(_) => None,
        };
        let address = connecting.address;
        self.connecting = None;
        match self.upstream() {
            Some(upstream) if halves.is_some() && !upstream.meets(self.rt, address) => {
                Poll::Ready(None)
            }
            _ => Poll::Ready(halves),
        }
    }

    // The server isn't there. At the start that is the end of its first session.
    fn lose_absent(&self) {
        let router = self.router;
        let Some(upstream) = self.upstream() else {
            return;
        };
        upstream.fail(router.shared().now(self.rt));
        if upstream.is_first() {
            match router.open(self.rt, self.side) {
                Ok(seat) => router.lose(self.rt, seat),
                Err(_) => router.shared().switchboard.end(Ending::Memory),
            }
            router.shared().switchboard.tried();
        }
        self.leave_all();
    }
}

impl<H: Host + Control, R: Wait + Clock + Net> Future for ReadTask<'_, H, R> {
    type Output = ();

    fn poll(&mut self, cx: &mut Context<'_>) -> Poll<()> {
        if self.session.is_none() {
            let Some(halves) = ready!(self.poll_halves(cx)) else {
                return Poll::Ready(());
            };
            if self.begin(halves).is_err() {
                self.refuse(End::Memory);
            }
        }
        let read = ready!(self.poll_session(cx));
        self.finish(read);
        cx.yield_now()
    }
}
