//! The task that looks at the clock.
ghost use Rattle.std.specs.Prelude.{◌≡◌};
ghost use Rattle.futures.specs.Task.{Keeps};
ghost use Rattle.router_tasks.specs.Rejoins.{done_by};
ghost use Rattle.router_tasks.specs.Stops.{ends_by};

use crate::drains::{Drains, drain_turn};
use futures::task::{Context, Poll};
use futures::{Future, ready};
use hub_close::UpWord;
use operator_port::End;
use router_state::{Admin, Control, Ending, is_ready, server_leave};
use std::sync::Wait;
use std::time::{Clock, Duration, Instant};
use tokio::time::{Interval, Sleep};

/// Turns of one poll.
const BUDGET: usize = 8;

/// Between two turns in which clients are asked to send no more dispatches, in milliseconds.
const PAUSE: u64 = 50;

/// In this time from the start each thread has begun, in milliseconds.
const BEGIN: u64 = 5_000;

/// Hands the clock's reading to the servers' sessions at each tick, ends the epochs of sessions that have few places
/// left and whose readers don't, and has all other tasks look again.
///
/// It ends the router if the system refused a thread. Once the router ends it goes on until all readers and writers
/// have ended: at the next tick writers let go of connections that aren't read.
///
/// Where the router lets its clients go, it asks them to send no more dispatches once nobody comes in any more, and
/// ends the router once none is left, or in time. It asks them in turns, as it does those that an operator's order
/// left.
#[derive(Drop)]
pub struct Ticker<'a, H: Control + Admin, R: Wait + Clock> {
    rt: &'a R,
    router: &'a H,
    interval: Interval,
    drains: &'a Drains,
    // Between two turns.
    pause: Sleep,
    // The places of the clients of the next turns.
    rest: Option<(usize, usize)>,
    // Whether clients were asked to send no more dispatches.
    has_asked: bool,
}

/// For which cause the connection of a server's session with this word is closed, if it is done with: it holds so many
/// dispatches and queued frames.
fn done_for(word: UpWord, load: usize, queued: usize) -> Option<End>
    ensures { result ≡ done_by word load queued }
{
    if queued > 0 {
        return None;
    }
    server_leave(word, load)
}

/// Whether a router that lets its clients go ends at the reading `now`: nobody comes in any more, and no connection of
/// a client is left, or it is time.
fn ends_now(is_listening: bool, clients: u64, now: u64, deadline: u64) -> bool
    ensures { result ≡ ends_by is_listening clients now deadline }
{
    (!is_listening && clients == 0) || deadline <= now
}

impl<'a, H: Control + Admin, R: Wait + Clock> Ticker<'a, H, R> {
    /// One that looks at the clock at each tick of this interval, with a timer of its own.
    pub fn new(
        rt: &'a R,
        router: &'a H,
        drains: &'a Drains,
        interval: Interval,
        pause: Sleep,
    ) -> Ticker<'a, H, R> {
        Ticker {
            rt,
            router,
            interval,
            drains,
            pause,
            rest: None,
            has_asked: false,
        }
    }

    // Asks the next of the clients in these places. The others wait for the next turn.
    fn ask(&mut self, from: usize, end: usize) {
        let turn = drain_turn(self.rt, self.router, from, end);
        self.put_off(turn.next, end);
    }

    // The next turn, if there is one, begins a pause from now on.
    fn put_off(&mut self, next: Option<usize>, end: usize) {
        self.rest = next.map(|place| (place, end));
        if self.rest.is_some()
            && let Ok(now) = Instant::now(self.rt)
            && let Some(deadline) = now.checked_add(Duration::from_millis(PAUSE))
        {
            self.pause.reset(deadline);
        }
    }

    // Whether it is time for the next turn.
    fn is_turn(&mut self, cx: &mut Context<'_>) -> bool
        ensures kept { Keeps cx.old cx.new }
    {
        self.rest.is_some() && self.pause.poll_elapsed(cx).is_ready()
    }

    fn next_turn(&mut self) {
        if let Some((from, end)) = self.rest {
            self.ask(from, end);
        }
    }

    // Sees to clients that are drained, and to those that are let go, also when one has left.
    fn see_clients(&mut self) {
        let (rt, router) = (self.rt, self.router);
        if let Some((next, end)) = self.drains.take() {
            self.put_off(Some(next), end);
        }
        let switchboard = &router.shared().switchboard;
        let Some(deadline) = switchboard.deadline() else {
            return;
        };
        let is_listening = router.shared().is_listening(rt);
        if !is_listening && !self.has_asked {
            self.has_asked = true;
            self.ask(0, router.shared().opened());
        }
        let (clients, now) = (switchboard.count_clients(), router.shared().now(rt));
        if ends_now(is_listening, clients, now, deadline) {
            switchboard.end(Ending::Quit);
        }
    }

    // Asks the clients that weren't there before, or couldn't be asked. A connection to which nobody writes has a
    // tick: for its first frame, or to be closed by its client.
    fn ask_again(&mut self) {
        let switchboard = &self.router.shared().switchboard;
        if !self.has_asked {
            return;
        }
        if self.rest.is_none() {
            self.ask(0, self.router.shared().opened());
        }
        for slot in switchboard.clients() {
            if slot.is_idle_still() {
                slot.end_for(End::Drained);
            }
        }
    }

    // Closes the connections of servers that are done with, if they are connected to again.
    fn end_done(&self) {
        let switchboard = &self.router.shared().switchboard;
        for (place, slot) in switchboard.servers().iter().enumerate() {
            if let Some(upstream) = switchboard.upstreams().get(place)
                && upstream.reconnects()
                && let Some(shown) = self.router.server_figures(self.rt, place as u64)
                && let Some(end) = done_for(shown.word, shown.load, shown.queued)
            {
                slot.end_for(end);
            }
        }
    }

    fn tick(&mut self) {
        let (rt, router) = (self.rt, self.router);
        let switchboard = &self.router.shared().switchboard;
        if !switchboard.is_stopped() {
            self.end_done();
            router.tick(rt, router.shared().now(rt));
            self.ask_again();
            if router.shared().now(rt) >= BEGIN && !switchboard.runs() {
                switchboard.end(Ending::Threads);
            }
        }
        switchboard.tick();
    }
}

impl<H: Control + Admin, R: Wait + Clock> Future for Ticker<'_, H, R> {
    type Output = ();

    fn poll(&mut self, cx: &mut Context<'_>) -> Poll<()> {
        let switchboard = &self.router.shared().switchboard;
        for _ in 0..BUDGET {
            let is_notified = is_ready(switchboard.ticker.poll_notified(cx));
            if switchboard.is_stopped() && !switchboard.is_carrying() {
                return Poll::Ready(());
            }
            if is_notified {
                self.see_clients();
                continue;
            }
            if self.is_turn(cx) {
                self.next_turn();
                continue;
            }
            if ready!(self.interval.poll_tick(cx)).is_err() {
                switchboard.end(Ending::Events);
                return Poll::Ready(());
            }
            self.tick();
        }
        cx.yield_now()
    }
}
