//! What becomes of a connection that is silent. All times are in milliseconds.
ghost use Rattle.std.specs.Prelude.{◌≡◌, ◌==◌, None, false, not};
ghost use Rattle.router_traffic.specs.Silences.{activity_by, begun_by, ends_by, server_activity_by, serving_by, silence_by};

use hub::AdminOrder;
use hub_close::{DownWord, UpWord};
use operator_port::End;
use router_state::{Control, Patience, Side, Slot, client_figures};
use std::sync::Wait;
use std::time::Clock;

/// In this time a server has to answer its opening, if `server_silent_ms` isn't set.
const OPENING: u64 = 10_000;

/// What becomes of a connection at a tick.
#[derive(Clone, Copy, Debug, PartialEq, Eq)]
pub enum Silence {
    GoesOn,
    /// Its client is asked to send no more dispatches.
    Drains,
    /// Its server is sent a ping.
    Pings,
    /// It is closed, once what was taken out for it is written.
    Finishes,
    /// It is closed, or lost if it is a server's.
    Closes,
}

/// What the peer of a connection is about.
#[derive(Clone, Copy, Debug, PartialEq, Eq)]
pub enum Activity {
    /// A server that holds no dispatch, a client of which one is open, or one of which nobody asks.
    Busy,
    /// A client without a session: it sent no whole frame.
    Unopened,
    /// A client of which nothing is open.
    Idle,
    /// The same, and it was asked to drain for its silence.
    Asked,
    /// It has answered, and no frame is queued for it.
    Done,
    /// A server that hasn't answered its opening.
    Opening,
    /// A server that holds dispatches.
    Serving,
}

/// What a client is about whose session has this word, so many dispatches and so many frames that wait to be sent.
fn activity_of(word: DownWord, entries: usize, queued: usize, is_asked: bool) -> Activity
    ensures { result ≡ activity_by word entries queued is_asked }
{
    if entries > 0 {
        return Activity::Busy;
    }
    match (is_asked, word) {
        (false, _) => Activity::Idle,
        (true, DownWord::Drained) if queued == 0 => Activity::Done,
        (true, _) => Activity::Asked,
    }
}

/// What a server is about whose session has this word and so many dispatches.
fn server_activity(word: UpWord, load: usize) -> Activity
    ensures { result ≡ server_activity_by word load }
{
    match word {
        UpWord::Opening => Activity::Opening,
        UpWord::Open | UpWord::Drained | UpWord::Retired if load > 0 => Activity::Serving,
        UpWord::Open | UpWord::Drained | UpWord::Retired | UpWord::Closed => Activity::Busy,
    }
}

/// What becomes of a connection whose peer is about this at the reading `now`. `begun`: the reading at which a frame
/// was found begun that isn't whole. `since`: that at which a frame came last, or it was busy, or its client was asked
/// to drain.
pub fn silence_of(
    patience: Patience,
    activity: Activity,
    begun: Option<u64>,
    since: u64,
    now: u64,
) -> Silence
    ensures { result ≡ silence_by patience.idle patience.frame patience.server activity begun since now }
{
    if let Some(begun) = begun {
        return end_after(
            Some(patience.frame),
            now.saturating_sub(begun),
            Silence::Closes,
        );
    }
    let silent = now.saturating_sub(since);
    match activity {
        Activity::Busy => Silence::GoesOn,
        Activity::Done => Silence::Finishes,
        Activity::Idle => end_after(patience.idle, silent, Silence::Drains),
        Activity::Unopened | Activity::Asked => end_after(patience.idle, silent, Silence::Closes),
        Activity::Opening => {
            let time = patience.server.unwrap_or(OPENING);
            end_after(Some(time), silent, Silence::Closes)
        }
        Activity::Serving => serving(patience.server, silent),
    }
}

/// This end, once it was silent for this time.
fn end_after(time: Option<u64>, silent: u64, end: Silence) -> Silence
    ensures { result ≡ ends_by time silent end }
{
    match time {
        Some(time) if time <= silent => end,
        Some(_) | None => Silence::GoesOn,
    }
}

/// What becomes of a server that holds dispatches: it is sent a ping once half of this time is over.
fn serving(time: Option<u64>, silent: u64) -> Silence
    ensures { result ≡ serving_by time silent }
{
    match time {
        Some(time) if time.saturating_sub(silent) <= silent && silent < time => Silence::Pings,
        _ => end_after(time, silent, Silence::Closes),
    }
}

/// Since when a frame has been begun that isn't whole: `is_midway` says whether there is one, and `begun` what was
/// found at the tick before. If a frame came since then (`heard`), another one has begun.
fn begun_of(is_midway: bool, begun: Option<u64>, heard: u64, now: u64) -> Option<u64>
    ensures { result ≡ begun_by is_midway begun heard now }
{
    match begun {
        _ if !is_midway => None,
        Some(begun) if heard < begun => Some(begun),
        _ => Some(now),
    }
}

/// What a reader remembers of a connection from one tick to the next.
#[derive(Drop)]
pub struct Watch {
    ticks: u64,
    begun: Option<u64>,
    // The reading at which it was busy last, or its client was asked to drain.
    busy: u64,
    is_asked: bool,
}

impl Watch {
    /// One that has seen nothing.
    pub fn new() -> Watch
        ensures { result ≡ record { ticks = 0; begun = None; busy = 0; is_asked = false } }
    {
        Watch {
            ticks: 0,
            begun: None,
            busy: 0,
            is_asked: false,
        }
    }

    /// Whether this is another number of ticks than the last time.
    #[inline(always)]
    pub fn is_due(&mut self, ticks: u64) -> bool
        ensures due { result ≡ not (self.old.ticks == ticks) }
        ensures seen { self.new ≡ record self.old { ticks = ticks } }
    {
        let is_due = self.ticks != ticks;
        self.ticks = ticks;
        is_due
    }

    /// No frame has begun, as far as is known.
    pub fn forget(&mut self)
        ensures { self.new ≡ record self.old { begun = None } }
    {
        self.begun = None;
    }

    /// At a tick: a connection that was silent for too long is drained, or closed.
    #[cold]
    #[inline(never)]
    pub fn look<H: Control, R: Wait + Clock>(
        &mut self,
        rt: &R,
        router: &H,
        slot: &Slot,
        side: Side,
        is_midway: bool,
    ) {
        let (timing, now) = (&router.shared().timing, router.shared().now(rt));
        let (heard, activity) = (slot.heard(), self.activity(rt, router, slot, side));
        self.begun = begun_of(is_midway, self.begun, heard, now);
        if activity == Activity::Busy {
            self.busy = now;
        }
        match silence_of(
            timing.patience,
            activity,
            self.begun,
            heard.max(self.busy),
            now,
        ) {
            Silence::GoesOn => {}
            Silence::Drains => {
                ask(rt, router, slot);
                self.busy = now;
                self.is_asked = true;
            }
            Silence::Pings => {
                router.ping(rt, slot.session(), now);
                slot.writer.notify();
            }
            Silence::Finishes => {
                slot.bear(timing.idle_ticks());
                slot.end_for(End::Silent);
            }
            Silence::Closes => slot.end_for(End::Silent),
        }
    }

    fn activity<H: Control, R: Wait + Clock>(
        &self,
        rt: &R,
        router: &H,
        slot: &Slot,
        side: Side,
    ) -> Activity {
        if let Side::Server(place) = side {
            return match router.server_figures(rt, place) {
                Some(shown) => server_activity(shown.word, shown.load),
                None => Activity::Busy,
            };
        }
        if router.shared().timing.patience.idle.is_none() {
            return Activity::Busy;
        }
        let client = slot.session();
        if client == 0 {
            return Activity::Unopened;
        }
        match client_figures(rt, router, client) {
            Some(shown) => activity_of(shown.word, shown.entries, shown.queued, self.is_asked),
            None => Activity::Busy,
        }
    }
}

// Asks the client to send no more dispatches. One that can't be asked is treated as one that doesn't answer.
fn ask<H: Control, R: Wait>(rt: &R, router: &H, slot: &Slot) {
    let _ = router.order(rt, AdminOrder::DrainClient(slot.session()));
    slot.writer.notify();
}
