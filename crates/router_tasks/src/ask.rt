//! The task of a port where figures are asked for: several connections at a time.
ghost use Rattle.std.specs.Prelude.{◌≡◌, if◌then◌else◌};
ghost use Rattle.futures.specs.Task.{Keeps};

use crate::drains::Drains;
use crate::status::Status;
use crate::talk::{Lane, Talk};
use futures::task::{Context, Poll};
use futures::{Future, ready};
use http_page::HttpSession;
use line_session::LineSession;
use operator_port::Operator;
use router_state::{Admin, Control, Halves, Notify, add, is_ready, poll_accept};
use std::alloc::AllocError;
use std::sync::{Mutex, Wait};
use std::time::{Clock, Duration};
use tokio::net::{OwnedReadHalf, OwnedWriteHalf, TcpListener};
use tokio::time::Sleep;

/// Turns of one poll.
const BUDGET: usize = 16;

/// So long a request over HTTP may take until its response is written, and its client to close then, in milliseconds: a
/// client that sends or reads a byte at a time, or doesn't close, keeps nobody from the port.
fn request_limit(is_answered: bool) -> u64
    ensures { result ≡ (if is_answered then 1000 else 5000) }
{
    if is_answered { 1_000 } else { 5_000 }
}

/// In what form a port is asked.
#[derive(Clone, Copy, Debug, PartialEq, Eq)]
pub enum Speech {
    /// In lines.
    Lines,
    /// In HTTP/1.1, one request a connection.
    Http,
}

type Lines<'a, H, R> = LineSession<OwnedReadHalf, OwnedWriteHalf, Operator<Status<'a, H, R>>>;

type Request<'a, H, R> = HttpSession<OwnedReadHalf, OwnedWriteHalf, Status<'a, H, R>>;

/// One connection.
#[derive(Drop)]
enum Asking<'a, H: Control + Admin, R: Wait + Clock> {
    Lines(Lines<'a, H, R>),
    Http(Request<'a, H, R>),
}

impl<H: Control + Admin, R: Wait + Clock> Talk for Asking<'_, H, R> {
    fn poll_talk(&mut self, cx: &mut Context<'_>) -> Poll<()> {
        match self {
            Asking::Lines(session) => {
                ready!(session.poll(cx));
            }
            Asking::Http(session) => {
                ready!(session.poll(cx));
            }
        }
        Poll::Ready(())
    }

    fn progress(&self) -> u64 {
        match self {
            Asking::Lines(session) => session.progress(),
            Asking::Http(session) => session.is_answered() as u64,
        }
    }

    fn limit(&self, idle: Duration) -> Duration {
        match self {
            Asking::Lines(_) => idle,
            Asking::Http(session) => {
                let limit = Duration::from_millis(request_limit(session.is_answered()));
                if limit < idle { limit } else { idle }
            }
        }
    }
}

/// Takes connections in which figures are asked for, up to one for each of its places at once; one more waits until
/// another ends. One that is silent for `admin_idle` is closed, and one over HTTP at its limits.
#[derive(Drop)]
pub struct AskTask<'a, H: Control + Admin, R: Wait + Clock> {
    rt: &'a R,
    router: &'a H,
    drains: &'a Drains,
    listener: &'a Mutex<TcpListener>,
    speech: Speech,
    lanes: Vec<Lane<Asking<'a, H, R>>>,
}

impl<'a, H: Control + Admin, R: Wait + Clock> AskTask<'a, H, R> {
    /// A task with a place for each of these timers. Out of memory is the one error.
    pub fn new(
        rt: &'a R,
        router: &'a H,
        drains: &'a Drains,
        listener: &'a Mutex<TcpListener>,
        speech: Speech,
        silences: Vec<Sleep>,
    ) -> Result<AskTask<'a, H, R>, AllocError> {
        let mut lanes: Vec<Lane<Asking<'a, H, R>>> = Vec::new(router.shared().alloc);
        for silence in silences {
            add(&mut lanes, Lane::new(silence))?;
        }
        Ok(AskTask {
            rt,
            router,
            drains,
            listener,
            speech,
            lanes,
        })
    }

    fn notify(&self) -> &'a Notify {
        let switchboard = &self.router.shared().switchboard;
        match self.speech {
            Speech::Lines => &switchboard.operator,
            Speech::Http => &switchboard.scraper,
        }
    }

    // A connection has come. One that finds no memory is closed.
    fn begin(&mut self, halves: Halves) {
        let (rt, router, drains) = (self.rt, self.router, self.drains);
        let Halves { to_read, to_write } = halves;
        let knows = Status { rt, router, drains };
        let alloc = router.shared().alloc;
        let talk = match self.speech {
            Speech::Lines => {
                match LineSession::new(alloc, to_read, to_write, Operator { alloc, knows }) {
                    Ok(session) => Asking::Lines(session),
                    Err(_) => return,
                }
            }
            Speech::Http => Asking::Http(HttpSession::new(alloc, to_read, to_write, knows)),
        };
        for lane in &mut self.lanes {
            if !lane.is_taken() {
                lane.begin(rt, router.shared().timing.admin_idle, talk);
                return;
            }
        }
    }

    // Polls every connection.
    fn poll_lanes(&mut self, cx: &mut Context<'_>)
        ensures kept { Keeps cx.old cx.new }
    {
        let idle = self.router.shared().timing.admin_idle;
        for lane in &mut self.lanes {
            let _ = lane.poll(self.rt, idle, cx);
        }
    }

    fn has_room(&self) -> bool {
        for lane in &self.lanes {
            if !lane.is_taken() {
                return true;
            }
        }
        false
    }
}

impl<H: Control + Admin, R: Wait + Clock> Future for AskTask<'_, H, R> {
    type Output = ();

    fn poll(&mut self, cx: &mut Context<'_>) -> Poll<()> {
        for _ in 0..BUDGET {
            if self.router.shared().switchboard.is_stopped() {
                return Poll::Ready(());
            }
            if is_ready(self.notify().poll_notified(cx)) {
                continue;
            }
            self.poll_lanes(cx);
            if !self.has_room() {
                return Poll::Pending;
            }
            // An accept that the system refuses is tried again at the next tick.
            let Poll::Ready(Ok((stream, _))) = poll_accept(self.rt, self.listener, cx) else {
                return Poll::Pending;
            };
            if let Some(halves) = Halves::of(stream) {
                self.begin(halves);
            }
        }
        cx.yield_now()
    }
}
