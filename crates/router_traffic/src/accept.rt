//! The task that accepts clients.
//!
//! Each turn repeats the clauses of a turn: by whom it is woken.
ghost use Rattle.futures.specs.Poll.{OnPending};
ghost use Rattle.futures.specs.Task.{IsArmed, Keeps};

use futures::task::{Context, Poll};
use futures::{Future, ready};
use router_state::{Control, Halves, Worker, close, is_ready, poll_client};
use std::sync::{Mutex, Wait};
use tokio::net::TcpListener;

/// Turns of one poll.
const BUDGET: usize = 64;

/// Accepts the clients of one thread, whenever it has a free slot and no other thread with room has less work. A
/// connection that finds no slot isn't accepted yet. If the system refuses an accept it is tried again at the next
/// tick. Once the router lets its clients go it takes those that wait and find a slot, and closes the port.
#[derive(Drop)]
pub struct AcceptTask<'a, H: Control, R: Wait> {
    pub rt: &'a R,
    pub router: &'a H,
    /// The place of its thread.
    pub place: usize,
}

// The event loop drops what happens at a socket before it is first polled. If the client has closed by then, nothing
// else tells that.
fn hear(halves: &mut Halves, cx: &mut Context<'_>)
    ensures kept { Keeps cx.old cx.new }
{
    let _ = halves.to_read.readable().poll(cx);
}

impl<H: Control, R: Wait> AcceptTask<'_, H, R> {
    // Ready once a client was let in. Closes the port if no more are to come.
    fn poll_port(
        &self,
        worker: &Worker,
        port: &Mutex<Option<TcpListener>>,
        cx: &mut Context<'_>,
    ) -> Poll<()>
        requires { IsArmed cx.old }
        ensures registered { OnPending result (IsArmed cx.new) }
        ensures kept { Keeps cx.old cx.new }
    {
        let polled = self.poll_next(worker, port, cx);
        if polled.is_pending() {
            self.see_close(port);
        }
        polled
    }

    fn see_close(&self, port: &Mutex<Option<TcpListener>>) {
        let switchboard = &self.router.shared().switchboard;
        if switchboard.lets_go() && close(self.rt, port) {
            switchboard.ticker.notify();
        }
    }

    // Ready once a client was let in.
    fn poll_next(
        &self,
        worker: &Worker,
        port: &Mutex<Option<TcpListener>>,
        cx: &mut Context<'_>,
    ) -> Poll<()>
        requires { IsArmed cx.old }
        ensures registered { OnPending result (IsArmed cx.new) }
        ensures kept { Keeps cx.old cx.new }
    {
        let switchboard = &self.router.shared().switchboard;
        let _turn = switchboard.turn.lock(self.rt);
        if !switchboard.takes_clients() {
            return Poll::Pending;
        }
        let Some(slot) = switchboard.free_slot(self.place) else {
            return Poll::Pending;
        };
        match poll_client(self.rt, port, cx) {
            Poll::Ready(Ok((stream, _))) => {
                if let Some(mut halves) = Halves::of(stream) {
                    hear(&mut halves, cx);
                    slot.give(self.rt, halves);
                    switchboard.let_in(worker);
                }
                Poll::Ready(())
            }
            Poll::Ready(Err(_)) | Poll::Pending => Poll::Pending,
        }
    }
}

impl<H: Control, R: Wait> Future for AcceptTask<'_, H, R> {
    type Output = ();

    fn poll(&mut self, cx: &mut Context<'_>) -> Poll<()> {
        let switchboard = &self.router.shared().switchboard;
        let Some(worker) = switchboard.workers.get(self.place) else {
            return Poll::Ready(());
        };
        let Some(port) = self.router.shared().ports.clients.get(self.place) else {
            return Poll::Ready(());
        };
        worker.run();
        for _ in 0..BUDGET {
            if switchboard.is_stopped() {
                return Poll::Ready(());
            }
            if is_ready(worker.accepter.poll_notified(cx)) {
                continue;
            }
            ready!(self.poll_port(worker, port, cx));
        }
        cx.yield_now()
    }
}
