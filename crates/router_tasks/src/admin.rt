//! The task of the admin port: one connection at a time.
ghost use Rattle.std.specs.Prelude.{⊤};
ghost use Rattle.futures.specs.Poll.{OnPending};
ghost use Rattle.futures.specs.Task.{IsArmed, Keeps};

use crate::talk::{Lane, Talk};
use admin_port::{AdminLines, Orders};
use futures::task::{Context, Poll};
use futures::{Future, ready};
use hub::{AdminOrder, AdminReply, Bell, OrderFault};
use line_session::LineSession;
use router_state::{Control, Ending, Halves, is_ready, poll_accept};
use std::sync::Wait;
use std::time::{Clock, Duration};
use tokio::net::{OwnedReadHalf, OwnedWriteHalf};
use tokio::time::Sleep;

/// Turns of one poll.
const BUDGET: usize = 64;

type Session<'a, H, R> = LineSession<OwnedReadHalf, OwnedWriteHalf, AdminLines<Operator<'a, H, R>>>;

/// Carries orders out in the hub.
#[derive(Drop)]
struct Operator<'a, H: Control, R: Wait> {
    rt: &'a R,
    router: &'a H,
}

impl<H: Control, R: Wait> Orders for Operator<'_, H, R> {
    ghost obeys = { λ _ _ _. ⊤ };

    ghost obeys_nothing = { λ _. tt };

    ghost obeys_in_order = { λ _ _ _ _ _ _ _. tt };

    fn order(&mut self, order: AdminOrder) -> Result<AdminReply, OrderFault> {
        let router = self.router;
        let retired = match &order {
            AdminOrder::Retire(name) => router.shared().server_named(name.as_str()),
            _ => None,
        };
        let reply = router.order(self.rt, order);
        if let Ok(AdminReply::Done) = &reply
            && let Some(place) = retired
            && let Some(upstream) = router.shared().switchboard.upstreams().get(place)
        {
            upstream.retire();
        }
        if let Ok(AdminReply::Bye) = &reply {
            router.shared().switchboard.end(Ending::Quit);
        }
        router.shared().switchboard.ring_all();
        reply
    }
}

impl<H: Control, R: Wait> Talk for Session<'_, H, R> {
    fn poll_talk(&mut self, cx: &mut Context<'_>) -> Poll<()> {
        ready!(self.poll(cx));
        Poll::Ready(())
    }

    fn progress(&self) -> u64 {
        LineSession::progress(self)
    }

    fn limit(&self, idle: Duration) -> Duration {
        idle
    }
}

/// Takes the connections of operators, one after another. One that is silent for `admin_idle` is closed, so that
/// nobody keeps the next operator from the port. `quit` ends the router. Whenever the router ends, the operator's
/// connection ends behind what came over it up to then.
#[derive(Drop)]
pub struct AdminTask<'a, H: Control, R: Wait + Clock> {
    rt: &'a R,
    router: &'a H,
    lane: Lane<Session<'a, H, R>>,
}

impl<'a, H: Control, R: Wait + Clock> AdminTask<'a, H, R> {
    /// A task with no connection yet, which measures an operator's silence by this sleep.
    pub fn new(rt: &'a R, router: &'a H, silence: Sleep) -> AdminTask<'a, H, R> {
        AdminTask {
            rt,
            router,
            lane: Lane::new(silence),
        }
    }

    // A connection has come. One that finds no memory is closed.
    fn begin(&mut self, halves: Halves) {
        let (rt, router) = (self.rt, self.router);
        let lines = AdminLines {
            alloc: router.shared().alloc,
            orders: Operator { rt, router },
        };
        let Halves { to_read, to_write } = halves;
        if let Ok(talk) = LineSession::new(router.shared().alloc, to_read, to_write, lines) {
            self.lane.begin(rt, router.shared().timing.admin_idle, talk);
        }
    }

    // Ready at the end of the connection.
    fn poll_lane(&mut self, cx: &mut Context<'_>) -> Poll<()>
        ensures registered { OnPending result (IsArmed cx.new) }
        ensures kept { Keeps cx.old cx.new }
    {
        self.lane
            .poll(self.rt, self.router.shared().timing.admin_idle, cx)
    }

    // What the operator has sent up to the end is carried out, and answered.
    fn hear_out(&mut self, cx: &mut Context<'_>)
        ensures kept { Keeps cx.old cx.new }
    {
        let _ = self.poll_lane(cx);
    }
}

impl<H: Control, R: Wait + Clock> Future for AdminTask<'_, H, R> {
    type Output = ();

    fn poll(&mut self, cx: &mut Context<'_>) -> Poll<()> {
        let switchboard = &self.router.shared().switchboard;
        for _ in 0..BUDGET {
            if switchboard.is_stopped() {
                self.hear_out(cx);
                return Poll::Ready(());
            }
            if is_ready(switchboard.admin.poll_notified(cx)) {
                continue;
            }
            if self.lane.is_taken() {
                ready!(self.poll_lane(cx));
                continue;
            }
            // An accept that the system refuses is tried again at the next tick.
            let port = &self.router.shared().ports.admin;
            let Poll::Ready(Ok((stream, _))) = poll_accept(self.rt, port, cx) else {
                return Poll::Pending;
            };
            if let Some(halves) = Halves::of(stream) {
                self.begin(halves);
            }
        }
        cx.yield_now()
    }
}
