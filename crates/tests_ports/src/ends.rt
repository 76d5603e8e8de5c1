//! Transports that wait, fail or give little, a book of orders, and the end of a connection of lines.
//!
//! `Pauses`, `Trickle` and `Narrow` have twins in tests_futures, which give and take a byte at a time.

ghost use Rattle.std.specs.Prelude.{⊤};

use admin_port::Orders;
use futures::task::{Context, Poll};
use futures::test::MockTask;
use hub::{AdminOrder, AdminReply, OrderFault, OrderRefusal, Row};
use hub_close::{DownWord, UpWord};
use line_session::{Answers, LineEnd, LineSession};
use server_session::DrainRefusal;
use std::alloc::{AllocError, Global};
use std::io;
use std::io::ErrorKind;
use tokio::io::{AsyncRead, AsyncWrite};

/// Waits every other time that it is asked.
#[derive(Clone, Copy)]
pub struct Pauses {
    waits: bool,
    has_waited: bool,
}

impl Pauses {
    pub fn new(waits: bool) -> Pauses {
        Pauses {
            waits,
            has_waited: false,
        }
    }

    fn is_due(&mut self) -> bool {
        self.has_waited = self.waits && !self.has_waited;
        self.has_waited
    }
}

/// Gives at most `size` bytes at a time, and then ends, or fails in this way.
#[derive(Drop)]
pub struct Trickle<'a> {
    pub rest: &'a [u8],
    pub size: usize,
    pub pauses: Pauses,
    pub fails: Option<ErrorKind>,
}

impl AsyncRead for Trickle<'_> {
    ghost reads = { λ _ _ _. ⊤ };

    ghost is_at_end = { λ _. ⊤ };

    ghost reads_nothing = { λ _. tt };

    ghost reads_in_order = { λ _ _ _ _ _ _ _. tt };

    fn poll_read(&mut self, cx: &mut Context<'_>, buf: &mut [u8]) -> Poll<io::Result<usize>> {
        if self.pauses.is_due() {
            return cx.yield_now();
        }
        if let (true, Some(kind)) = (self.rest.is_empty(), self.fails) {
            return Poll::Ready(Err(kind.into()));
        }
        let count = self.rest.len().min(buf.len()).min(self.size);
        let (front, rest) = self.rest.split_at(count);
        buf[..count].copy_from_slice(front);
        self.rest = rest;
        Poll::Ready(Ok(count))
    }
}

/// Takes at most `size` bytes at a time, and fails in this way once it has taken `room` bytes.
#[derive(Drop)]
pub struct Narrow {
    pub bytes: Vec<u8>,
    pub size: usize,
    pub room: usize,
    pub fails: Option<ErrorKind>,
    pub pauses: Pauses,
    /// How many bytes there were when the write half was shut down.
    pub shut_at: Option<usize>,
}

impl Narrow {
    pub fn new(alloc: Global, size: usize, waits: bool) -> Narrow {
        Narrow {
            bytes: Vec::new(alloc),
            size,
            room: 100_000,
            fails: None,
            pauses: Pauses::new(waits),
            shut_at: None,
        }
    }
}

impl AsyncWrite for Narrow {
    ghost writes = { λ _ _ _. ⊤ };

    ghost writes_nothing = { λ _. tt };

    ghost writes_in_order = { λ _ _ _ _ _ _ _. tt };

    fn poll_write(&mut self, cx: &mut Context<'_>, buf: &[u8]) -> Poll<io::Result<usize>> {
        if self.pauses.is_due() {
            return cx.yield_now();
        }
        let room = self.room.saturating_sub(self.bytes.len());
        if let (0, Some(kind)) = (room, self.fails) {
            return Poll::Ready(Err(kind.into()));
        }
        let count = buf.len().min(room).min(self.size);
        match self.bytes.extend_from_slice(&buf[..count]) {
            Ok(()) => Poll::Ready(Ok(count)),
            Err(e) => Poll::Ready(Err(io::Error::from(e))),
        }
    }

    fn poll_flush(&mut self, _cx: &mut Context<'_>) -> Poll<io::Result<()>> {
        Poll::Ready(Ok(()))
    }

    fn poll_shutdown(&mut self, cx: &mut Context<'_>) -> Poll<io::Result<()>> {
        if self.pauses.is_due() {
            return cx.yield_now();
        }
        self.shut_at = Some(self.bytes.len());
        Poll::Ready(Ok(()))
    }
}

/// Polls up to the end, and once more.
pub fn end_of<R: AsyncRead, W: AsyncWrite, A: Answers>(
    task: &MockTask,
    session: &mut LineSession<R, W, A>,
) -> Option<LineEnd> {
    for _ in 0..100_000 {
        if let Poll::Ready(end) = task.poll(session) {
            return (task.poll(session) == Poll::Ready(end)).then_some(end);
        }
    }
    None
}

/// Knows the clients 1 and 2, of which 2 drains already, and no server.
#[derive(Drop)]
pub struct Book {
    pub alloc: Global,
    /// How many orders it was given.
    pub orders: usize,
}

impl Orders for Book {
    ghost obeys = { λ _ _ _. ⊤ };

    ghost obeys_nothing = { λ _. tt };

    ghost obeys_in_order = { λ _ _ _ _ _ _ _. tt };

    fn order(&mut self, order: AdminOrder) -> Result<AdminReply, OrderFault> {
        self.orders = self.orders.saturating_add(1);
        match order {
            AdminOrder::Status => report(self.alloc).map_err(|_| OrderFault::Memory),
            AdminOrder::DrainClient(1) => Ok(AdminReply::Done),
            AdminOrder::DrainClient(2) => {
                Err(OrderFault::Refused(OrderRefusal::Drain(DrainRefusal::AlreadyDraining)))
            }
            AdminOrder::DrainClient(_) => Err(OrderFault::NoSuchSession),
            AdminOrder::Retire(_) => Err(OrderFault::UnknownServer),
            AdminOrder::Route { .. } => Ok(AdminReply::Done),
            AdminOrder::Unroute(_) => Err(OrderFault::NoRoute),
            AdminOrder::Quit => Ok(AdminReply::Bye),
        }
    }
}

/// One client and one server.
pub fn report(alloc: Global) -> Result<AdminReply, AllocError> {
    let mut rows = Vec::new(alloc);
    rows.push(Row::Client {
        number: 1,
        word: DownWord::Open,
        entries: 0,
        records: 1,
    })
    .map_err(AllocError::from)?;
    rows.push(Row::Server {
        name: String::from_str(alloc, "a")?,
        word: UpWord::Open,
        load: 0,
        records: 0,
    })
    .map_err(AllocError::from)?;
    Ok(AdminReply::Report { boot: 1, rows })
}
