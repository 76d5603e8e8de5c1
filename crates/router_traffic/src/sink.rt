//! From a connection into the hub.
//!
//! Calls that offer a frame repeat the clauses of an offer: what was handed in, and what comes back.
ghost use Rattle.std.specs.Prelude.{◌≡◌, [], ⊤, false, IfErr, IsTrue, None};
ghost use Rattle.futures.specs.Task.{IsArmed, Keeps};
ghost use Rattle.tokio_sessions.specs.Passing.{frames_taken, HandsBack, OnLater};
ghost use Rattle.router_traffic.specs.Handing.{frames_put, HandsIn};
ghost use Rattle.router_traffic.specs.Inflows.{inflow};

use crate::conduct::{Seen, ejection_of};
use crate::intake::{Handed, Intake, Refusal};
use crate::places::{Next, next_of, rolls_now};
use crate::start::{Start, start_of};
use futures::task::{Context, Poll};
use mux_frame::Frame;
use mux_history::{ServerId, SessionId};
use mux_message::MessageKind;
use router_state::{
    Control, Glance, Host, Recorder, Rolled, Side, Slot, Tally, Tape, Way, is_ready,
};
use std::sync::Wait;
use std::time::Clock;
use tokio::net::OwnedWriteHalf;
use tokio_sessions::{FrameSink, Offered, ReadBuffer};

/// How often frames are handed in again at once.
const TRIES: usize = 4;

/// Hands the frames of one connection to the hub, in batches.
///
/// A server's session is opened in the first poll, when nothing that could be refused is left to be made, and a
/// client's once its first whole frame came. A frame that the session is too busy for stays in front of the batch.
/// Between two batches the session's epoch is ended once few places are left, and at once where a frame finds none.
#[derive(Drop)]
pub struct HubSink<'a, H: Host, R: Wait + Clock> {
    rt: &'a R,
    slot: &'a Slot,
    side: Side,
    // What the writer is given once the session is open.
    to_write: Option<OwnedWriteHalf>,
    intake: Intake<'a, H>,
    // How many frames were taken since the reader ended an epoch.
    since: usize,
    // Whether the epoch began with few places: the session holds nearly too much.
    is_crowded: bool,
    // Whether the epoch was ended for the frame in front, and none was taken since.
    is_new: bool,
    // What is to be recorded of the frames in the batch.
    tape: Tape,
    // What was taken.
    seen: Seen,
    puts_off: bool,
}

impl<'a, H: Host + Control, R: Wait + Clock> HubSink<'a, H, R> {
    /// One whose session isn't open yet.
    pub fn new(
        rt: &'a R,
        router: &'a H,
        slot: &'a Slot,
        side: Side,
        to_write: OwnedWriteHalf,
    ) -> HubSink<'a, H, R>
        ensures { inflow result.intake ≡ record {
          router = router.entry.now;
          seat = None;
          waits = [];
          is_over = false;
        } }
    {
        HubSink {
            rt,
            slot,
            side,
            to_write: Some(to_write),
            intake: Intake::new(router),
            since: 0,
            is_crowded: false,
            is_new: false,
            tape: Tape::new(router.shared().alloc),
            seen: Seen::new(ejection_of(router.shared().timing.ejection, side)),
            puts_off: false,
        }
    }

    /// The seat, if the session was opened. Without it the writer was given nothing.
    pub fn into_seat(mut self) -> Option<H::Seat> {
        self.count_taken();
        self.intake.into_seat()
    }

    // Ends the session's epoch if few of its places are left, and hands over what has ended, if histories are looked at
    // while the run goes on.
    #[inline(always)]
    fn see_places(&mut self)
        ensures { HandsIn H.runs H.is_same H.goes_on (inflow self.old.intake) [] (inflow self.new.intake) }
    {
        let Some(session) = self.intake.session() else {
            return;
        };
        let router = self.intake.router;
        let limits = router.shared().limits.of(session);
        let (wants_rest, history) = (router.wants_rest(session), limits.history());
        if rolls_now(wants_rest, self.is_crowded, self.since, history) {
            self.since = 0;
            let _: Rolled = self.intake.roll(self.rt);
            self.is_crowded = router.wants_rest(session);
        }
        self.intake.take_ended(self.rt);
    }

    // A frame found no place.
    #[cold]
    #[inline(never)]
    fn make_places(&mut self) -> Next
        ensures { HandsIn H.runs H.is_same H.goes_on (inflow self.old.intake) [] (inflow self.new.intake) }
    {
        let rolled = self.intake.roll(self.rt);
        let next = next_of(rolled, self.is_new);
        self.since = 0;
        self.is_new = true;
        next
    }

    // Opens the session, once that is to be.
    #[tactic(auto, using(crate::specs::HandingLaws::nothing))]
    #[inline(always)]
    fn begin(&mut self)
        ensures { HandsIn H.runs H.is_same H.goes_on (inflow self.old.intake) [] (inflow self.new.intake) }
    {
        if self.intake.is_unopened() {
            self.start();
        }
    }

    #[tactic(auto, using(crate::specs::HandingLaws::nothing))]
    #[cold]
    #[inline(never)]
    fn start(&mut self)
        requires { self.old.intake.seat ≡ None }
        ensures { HandsIn H.runs H.is_same H.goes_on (inflow self.old.intake) [] (inflow self.new.intake) }
    {
        let start = match self.side {
            Side::Client { .. } => {
                let has_place = self.intake.router.has_place(self.rt);
                start_of(self.intake.waiting() > 0, has_place)
            }
            Side::Server(_) => Start::Opens,
        };
        match start {
            Start::Opens => self.open(),
            Start::Waits => {}
            Start::Closes => self.intake.end(),
        }
    }

    fn open(&mut self)
        requires { self.old.intake.seat ≡ None }
        ensures { HandsIn H.runs H.is_same H.goes_on (inflow self.old.intake) [] (inflow self.new.intake) }
    {
        let Some(session) = self.intake.open(self.rt, self.side) else {
            return;
        };
        let number = match session {
            SessionId::Client(client) => client,
            SessionId::Server(server) => server,
        };
        match self.side {
            Side::Client { place } => self
                .intake
                .router
                .shared()
                .switchboard
                .place_client(number, place),
            Side::Server(place) => self.see_server(place),
        }
        if let Some(to_write) = self.to_write.take() {
            self.slot.begin(self.rt, number, to_write);
        }
    }

    // A server's session was opened.
    fn see_server(&self, place: ServerId) {
        let switchboard = &self.intake.router.shared().switchboard;
        if let Some(upstream) = switchboard.upstreams().get(place as usize) {
            upstream.open(self.intake.router.shared().now(self.rt));
            if upstream.is_first() {
                switchboard.tried();
            }
        }
    }

    // Puts a frame into the batch. It comes back if there is no place, or no memory for a batch.
    #[inline(always)]
    fn put(&mut self, frame: Frame) -> Result<(), Frame>
        requires { IsTrue frame.as_read }
        ensures back { IfErr result (λ f. f ≡ frame) }
        ensures frames { HandsIn H.runs H.is_same H.goes_on (inflow self.old.intake) (frames_put frame result)
            (inflow self.new.intake) }
    {
        self.intake.ready(self.rt, self.slot);
        self.intake.put(frame)
    }

    // Puts a frame into the batch, and has it recorded if that is to be. It comes back if it finds no place.
    #[inline(always)]
    fn push(&mut self, frame: Frame) -> Result<(), Frame>
        requires { IsTrue frame.as_read }
        ensures back { IfErr result (λ f. f ≡ frame) }
        ensures frames { HandsIn H.runs H.is_same H.goes_on (inflow self.old.intake) (frames_put frame result)
            (inflow self.new.intake) }
    {
        let router = self.intake.router;
        match &router.shared().recorder {
            None => self.put(frame),
            Some(recorder) => self.push_recorded(recorder, frame),
        }
    }

    // The same, and the frame is recorded if it found a place.
    #[inline(always)]
    fn push_recorded(&mut self, recorder: &Recorder, frame: Frame) -> Result<(), Frame>
        requires { IsTrue frame.as_read }
        ensures back { IfErr result (λ f. f ≡ frame) }
        ensures frames { HandsIn H.runs H.is_same H.goes_on (inflow self.old.intake) (frames_put frame result)
            (inflow self.new.intake) }
    {
        let is_dispatch = MessageKind::of(frame.kind()) == MessageKind::Tdispatch;
        let is_kept = recorder.tape(&mut self.tape, &frame, is_dispatch);
        let pushed = self.put(frame);
        if is_kept && pushed.is_err() {
            self.tape.pop();
        }
        pushed
    }

    // Has what came kept, before the session sees it.
    #[inline(always)]
    fn keep_tape(&mut self)
        ensures { self.new.intake ≡ self.old.intake }
    {
        if let Some(recorder) = &self.intake.router.shared().recorder
            && !self.tape.is_empty()
            && let Some(session) = self.intake.session()
        {
            recorder.keep(self.rt, session, &mut self.tape);
        }
    }

    // Hands the batch in. What is left of it was put off, or the session is over.
    fn hand_in(&mut self)
        ensures { HandsIn H.runs H.is_same H.goes_on (inflow self.old.intake) [] (inflow self.new.intake) }
    {
        self.puts_off = false;
        self.keep_tape();
        for _ in 0..TRIES {
            if !self.intake.has_next() {
                return;
            }
            match self.try_once() {
                Next::Again => {}
                Next::Wait => break,
                Next::End => self.intake.end(),
            }
        }
        if self.intake.has_next() {
            self.puts_off = true;
            self.slot.set_waits(true);
        }
    }

    // Hands on what a poll brought.
    #[inline(always)]
    fn hand_on(&mut self, more: bool)
        ensures { HandsIn H.runs H.is_same H.goes_on (inflow self.old.intake) [] (inflow self.new.intake) }
    {
        self.begin();
        self.count_taken();
        if self.intake.waiting() > 0 {
            self.hand_in();
        }
        self.see_places();
        self.intake.ring(self.rt, self.slot, more);
        if !more {
            self.intake.let_go(self.rt, self.slot);
        }
    }

    // Whether the batch has as many frames as are handed in at once.
    #[inline(always)]
    fn is_full(&self) -> bool {
        self.intake.waiting() >= self.intake.router.shared().batch
    }

    // Whether a client leaves so many bytes of replies unread that nothing more is taken from it.
    #[inline(always)]
    fn is_backlogged(&self) -> bool {
        match (self.side, self.intake.session()) {
            (Side::Client { .. }, Some(session)) => self.intake.router.is_backlogged(session),
            _ => false,
        }
    }

    // Hands the batch in once. `Again` if all of it was taken, too.
    #[tactic(auto, using(crate::specs::HandingLaws::nothing))]
    fn try_once(&mut self) -> Next
        requires { self.old.intake.is_over ≡ false }
        ensures { HandsIn H.runs H.is_same H.goes_on (inflow self.old.intake) [] (inflow self.new.intake) }
    {
        let now = self.intake.router.shared().now(self.rt);
        self.slot.hear(now);
        if self.is_backlogged() {
            return self.wait_for_outs();
        }
        self.judge(now);
        let offered = self.intake.waiting();
        match self.intake.hand_in(self.rt, now) {
            Handed::All => {
                self.count(offered);
                self.intake.see_end();
                Next::Again
            }
            Handed::Refused(refusal) => {
                let left = self.intake.waiting();
                self.count(offered.saturating_sub(left));
                self.refused(refusal)
            }
            Handed::Lost => {
                // The refused frame isn't in the batch now.
                let left = self.intake.waiting().saturating_add(1);
                self.count(offered.saturating_sub(left));
                Next::End
            }
        }
    }

    // So many frames were taken.
    #[inline(always)]
    fn count(&mut self, taken: usize)
        ensures { self.new.intake ≡ self.old.intake }
    {
        if taken > 0 {
            self.since = self.since.saturating_add(taken);
            self.is_new = false;
        }
    }

    // A frame was refused.
    #[tactic(auto, using(crate::specs::HandingLaws::nothing))]
    fn refused(&mut self, refusal: Refusal) -> Next
        ensures { HandsIn H.runs H.is_same H.goes_on (inflow self.old.intake) [] (inflow self.new.intake) }
    {
        match refusal {
            Refusal::Spent => self.make_places(),
            Refusal::Busy => self.wait_for_outs(),
            Refusal::SeatFull => {
                if self.intake.grow().is_ok() {
                    Next::Again
                } else {
                    Next::Wait
                }
            }
        }
    }

    // The session is too busy for a frame.
    fn wait_for_outs(&self) -> Next {
        // Frames may have been taken out before the reader was said to wait: so it tries once more then.
        let has_waited = self.slot.waits();
        self.slot.set_waits(true);
        if has_waited { Next::Wait } else { Next::Again }
    }

    // Offers a frame for which the batch has no place, or behind frames that were put off.
    #[cold]
    #[inline(never)]
    fn poll_late(&mut self, cx: &mut Context<'_>, frame: Frame) -> Offered
        requires { IsTrue frame.as_read }
        ensures frames { HandsIn H.runs H.is_same H.goes_on (inflow self.old.intake) (frames_taken frame result)
            (inflow self.new.intake) }
        ensures back { HandsBack frame result }
        ensures armed { OnLater result (IsArmed cx.new) }
        ensures kept { Keeps cx.old cx.new }
    {
        self.begin();
        self.hand_in();
        self.see_places();
        if self.intake.is_over {
            return Offered::Stop;
        }
        if self.puts_off {
            self.wait(cx);
            return Offered::Later(frame);
        }
        match self.push(frame) {
            Ok(()) => Offered::Taken,
            Err(frame) => {
                self.wait(cx);
                Offered::Later(frame)
            }
        }
    }

    // Offers a frame, before it is counted.
    #[inline(always)]
    fn offer(&mut self, cx: &mut Context<'_>, frame: Frame) -> Offered
        requires { IsTrue frame.as_read }
        ensures frames { HandsIn H.runs H.is_same H.goes_on (inflow self.old.intake) (frames_taken frame result)
            (inflow self.new.intake) }
        ensures back { HandsBack frame result }
        ensures armed { OnLater result (IsArmed cx.new) }
        ensures kept { Keeps cx.old cx.new }
    {
        if self.puts_off || self.is_full() {
            return self.poll_late(cx, frame);
        }
        match self.push(frame) {
            Ok(()) => Offered::Taken,
            Err(frame) => self.poll_late(cx, frame),
        }
    }

    // Has the server asked last, if it failed too often.
    #[inline(always)]
    fn judge(&mut self, now: u64)
        ensures { self.new.intake ≡ self.old.intake }
    {
        if self.seen.conduct.is_to_judge()
            && let Some(until) = self.seen.conduct.judge(now)
            && let Side::Server(place) = self.side
        {
            self.intake.router.ask_last(place, until);
        }
    }

    // The time of a client's dispatch is taken if that of no other one is.
    #[inline(always)]
    fn note(&mut self, taken: &Glance)
        ensures { self.new.intake ≡ self.old.intake }
    {
        if taken.kind == MessageKind::Tdispatch && self.measures_next() {
            self.measure(taken.tag);
        }
    }

    // Whether the time of the next dispatch is taken.
    #[inline(always)]
    fn measures_next(&self) -> bool {
        match self.side {
            Side::Client { .. } => self.slot.probe.is_idle(),
            Side::Server(_) => false,
        }
    }

    // How many frames may go into the batch together: none while each is looked at, or the next one is put off.
    #[inline(always)]
    fn room(&self) -> usize {
        if self.puts_off || self.intake.router.shared().recorder.is_some() || self.measures_next() {
            return 0;
        }
        self.intake
            .router
            .shared()
            .batch
            .saturating_sub(self.intake.waiting())
    }

    #[cold]
    #[inline(never)]
    fn measure(&self, tag: u32) {
        let now = self.intake.router.shared().microseconds(self.rt);
        self.slot.probe.begin(tag, now);
    }

    // Adds what was taken to the counts of the router.
    #[inline(always)]
    fn count_taken(&mut self)
        ensures { self.new.intake ≡ self.old.intake }
    {
        let way = match self.side {
            Side::Client { .. } => Way::FromClient,
            Side::Server(place) => Way::FromServer(place),
        };
        self.intake
            .router
            .shared()
            .meter
            .count(way, &self.seen.tally);
        self.seen.tally = Tally::new();
    }

    // Has the task woken by the next ring, or at once if it rang since the session was looked at.
    fn wait(&self, cx: &mut Context<'_>)
        ensures armed { IsArmed cx.new }
        ensures kept { Keeps cx.old cx.new }
    {
        if self.intake.is_over || is_ready(self.slot.reader.poll_notified(cx)) {
            let _: Poll<()> = cx.yield_now();
        }
    }
}

impl<H: Host + Control, R: Wait + Clock> FrameSink for HubSink<'_, H, R> {
    ghost use Rattle.router_traffic.specs.Handing.{HandsIn};
    ghost use Rattle.router_traffic.specs.HandingLaws.{hands_then, nothing};
    ghost use Rattle.router_traffic.specs.Inflows.{inflow};

    ghost takes = { λ a fs b. HandsIn H.runs H.is_same H.goes_on (inflow a.intake) fs (inflow b.intake) };

    ghost says = { λ _ _. ⊤ };

    ghost takes_nothing = { λ s. nothing (inflow s.intake) };

    ghost takes_in_order = { λ _ xs _ ys _ p q. hands_then xs ys p q };

    #[inline(always)]
    fn poll_frame(&mut self, cx: &mut Context<'_>, frame: Frame) -> Offered {
        let glance = Glance::of(&frame);
        let offered = self.offer(cx, frame);
        if let Offered::Taken = &offered {
            self.seen.add(&glance);
            self.note(&glance);
        }
        offered
    }

    #[inline(always)]
    fn take_run(&mut self, read: &mut ReadBuffer, max_frame: usize, most: usize) -> usize {
        let most = most.min(self.room());
        self.intake.fill(&mut self.seen, read, max_frame, most)
    }

    fn stopped(&self) -> bool {
        self.intake.is_over
            || self.slot.is_over()
            || self.intake.router.shared().switchboard.is_stopped()
    }

    fn flush(&mut self, cx: &mut Context<'_>, more: bool) {
        self.hand_on(more);
        if self.intake.is_over || self.puts_off {
            self.wait(cx);
        }
    }
}
