//! What a reader hands in of what comes over its connection.
//!
//! `fill` stands at a batch and at the intake, each with the clause of `take_run` over its own words.
ghost use Rattle.std.specs.Prelude.{◌≡◌, ◌≤◌, true, false, [], ◌∷◌, ◌++◌, length, IfErr, IfSome, IsTrue, OnOk, Option, Some, None};
ghost use Rattle.mux_frame.specs.Views.{FrameView};
ghost use Rattle.hub_base.specs.Batching.{handed_back};
ghost use Rattle.tokio_sessions.specs.Passing.{TakesRun};
ghost use Rattle.router_traffic.specs.Handing.{frames_put, in_front, waits_in, HandsIn};
ghost use Rattle.router_traffic.specs.Inflows.{inflow};

use crate::bell::ReaderBell;
use crate::conduct::{Counts, Seen};
use hub::{Batch, Bell, HubFault};
use mux_frame::Frame;
use mux_history::SessionId;
use router_state::{Control, Host, Rolled, Seated, Side, Slot, put};
use std::alloc::AllocError;
use std::marker::Model;
use std::sync::Wait;
use tokio_sessions::ReadBuffer;
use translate_book::StepRefusal;

/// Why a frame was refused that is taken later, and stands in front of the others.
#[derive(Clone, Copy, Debug)]
pub enum Refusal {
    /// The epoch has no place for its record.
    Spent,
    /// The session is too busy.
    Busy,
    /// The seat has no room for a receipt.
    SeatFull,
}

/// What came of a batch that was handed in.
#[derive(Clone, Copy, Debug)]
pub enum Handed {
    /// All of it was taken.
    All,
    /// The frame in front was refused, and waits.
    Refused(Refusal),
    /// The frame in front is lost, and nothing more is handed in.
    Lost,
}

/// Frames that wait to be handed in. No value is in hand between two calls of the hub.
#[derive(Drop)]
struct Waiting {
    batch: Batch,
}

impl Model for Waiting {
    ghost use Rattle.std.specs.Prelude.{◌≡◌, List, []};
    ghost use Rattle.mux_frame.specs.Views.{FrameView};

    ghost Value = { List FrameView };

    ghost view = { λ w. w.batch.frames };

    ghost invariant = { λ w. w.batch.errands ≡ [] };
}

impl Waiting {
    #[inline(always)]
    fn len(&self) -> usize
        ensures { result ≡ length self.now }
    {
        self.batch.len()
    }

    // A frame behind the others.
    #[inline(always)]
    fn push(&mut self, frame: Frame) -> Result<(), Frame>
        requires { IsTrue frame.as_read }
        ensures back { IfErr result (λ f. f ≡ frame) }
        ensures came { self.new ≡ self.old ++ frames_put frame result }
    {
        self.batch.push(frame)
    }

    // A frame in front of the others.
    fn put_back(&mut self, frame: Frame) -> bool
        requires { IsTrue frame.as_read }
        ensures put { result ≡ true → self.new ≡ frame ∷ self.old }
        ensures full { result ≡ false → self.new ≡ self.old }
    {
        self.batch.put_back(frame).is_ok()
    }

    // Hands them in.
    #[inline(always)]
    fn hand_in<H: Host, R: Wait>(
        &mut self,
        router: &H,
        rt: &R,
        seat: &mut H::Seat,
        now: u64,
    ) -> Result<(), HubFault>
        ensures ok { OnOk result (H.runs router.now now self.old self.new seat.old seat.new) }
        ensures err { IfErr result (λ e. (f : FrameView) × (handed_back e ≡ Some f)
            × H.runs router.now now self.old (f ∷ self.new) seat.old seat.new) }
        ensures same { H.is_same router.now seat.old seat.new }
        ensures read { IfErr result (λ e. IfSome (handed_back e) (λ f. IsTrue f.as_read)) }
    {
        router.frames(rt, seat, &mut self.batch, now)
    }

    // Wakes those for whom its frames made steps, unless more of them come at once.
    #[inline(always)]
    fn ring<K: Bell>(&mut self, bell: &K, more: bool)
        ensures { self.new ≡ self.old }
    {
        self.batch.ring(bell, more);
    }

    // Frames off the front of what was read, at most so many.
    #[inline(always)]
    fn fill(
        &mut self,
        seen: &mut Seen,
        read: &mut ReadBuffer,
        max_frame: usize,
        most: usize,
    ) -> usize
        requires { max_frame ≤ 16777216 }
        ensures run { TakesRun (λ a fs b. b ≡ a ++ fs) max_frame result self.old read.old self.new read.new }
        ensures bound { result ≤ most }
    {
        if seen.looks() {
            fill(&mut self.batch, seen, read, max_frame, most)
        } else {
            fill(&mut self.batch, &mut seen.tally, read, max_frame, most)
        }
    }
}

/// The frames of one connection on their way to its session: they wait in a batch, and are handed in with the seat.
#[derive(Drop)]
pub struct Intake<'a, H: Host> {
    pub router: &'a H,
    seat: Option<H::Seat>,
    // None while no frame waits to be handed in.
    batch: Option<Waiting>,
    pub is_over: bool,
}

impl<'a, H: Host + Control> Intake<'a, H> {
    /// One whose session isn't open yet.
    pub fn new(router: &'a H) -> Intake<'a, H>
        ensures { inflow result ≡ record { router = router.entry.now; seat = None; waits = []; is_over = false } }
    {
        Intake {
            router,
            seat: None,
            batch: None,
            is_over: false,
        }
    }

    /// The seat, if the session was opened.
    pub fn into_seat(self) -> Option<H::Seat> {
        self.seat
    }

    /// The session, if it is open.
    #[inline(always)]
    pub fn session(&self) -> Option<SessionId> {
        match &self.seat {
            Some(seat) => Some(seat.session()),
            None => None,
        }
    }

    /// Whether the session is to be opened.
    #[inline(always)]
    pub fn is_unopened(&self) -> bool
        ensures { result ≡ true → self.now.seat ≡ None }
    {
        self.seat.is_none() && !self.is_over
    }

    /// How many frames wait to be handed in.
    #[inline(always)]
    pub fn waiting(&self) -> usize
        ensures { result ≡ length (waits_in self.now.batch) }
    {
        match &self.batch {
            Some(waiting) => waiting.len(),
            None => 0,
        }
    }

    /// Whether frames wait that can be handed in.
    #[inline(always)]
    pub fn has_next(&self) -> bool
        ensures { result ≡ true → self.now.is_over ≡ false }
    {
        !self.is_over && self.waiting() > 0
    }

    /// Nothing more is handed in.
    #[inline(always)]
    pub fn end(&mut self)
        ensures { HandsIn H.runs H.is_same H.goes_on (inflow self.old) [] (inflow self.new) }
    {
        self.is_over = true;
    }

    /// Opens the session: which it is. None at a fault, which ends it.
    pub fn open<R: Wait>(&mut self, rt: &R, side: Side) -> Option<SessionId>
        requires { self.old.seat ≡ None }
        ensures { HandsIn H.runs H.is_same H.goes_on (inflow self.old) [] (inflow self.new) }
    {
        let Ok(seat) = self.router.open(rt, side) else {
            self.is_over = true;
            return None;
        };
        let session = seat.session();
        put(&mut self.seat, seat);
        Some(session)
    }

    /// Ends the session's epoch.
    pub fn roll<R: Wait>(&mut self, rt: &R) -> Rolled
        ensures { HandsIn H.runs H.is_same H.goes_on (inflow self.old) [] (inflow self.new) }
    {
        match &mut self.seat {
            Some(seat) => self.router.roll(rt, seat),
            None => Rolled::Refused,
        }
    }

    /// Hands over what has ended of the session's history.
    #[inline(always)]
    pub fn take_ended<R: Wait>(&mut self, rt: &R)
        ensures { HandsIn H.runs H.is_same H.goes_on (inflow self.old) [] (inflow self.new) }
    {
        if let Some(seat) = &mut self.seat {
            self.router.take_ended(rt, seat);
        }
    }

    /// Makes room for more receipts.
    pub fn grow(&mut self) -> Result<(), AllocError>
        ensures { HandsIn H.runs H.is_same H.goes_on (inflow self.old) [] (inflow self.new) }
    {
        match &mut self.seat {
            Some(seat) => self.router.grow(seat),
            None => Err(AllocError),
        }
    }

    /// Takes a batch of its thread's if it has none, and if there is memory for one.
    #[tactic(auto, using(crate::specs::HandingLaws::nothing))]
    #[inline(always)]
    pub fn ready<R: Wait>(&mut self, rt: &R, slot: &Slot)
        ensures { HandsIn H.runs H.is_same H.goes_on (inflow self.old) [] (inflow self.new) }
    {
        if self.batch.is_none() {
            self.take_batch(rt, slot);
        }
    }

    fn take_batch<R: Wait>(&mut self, rt: &R, slot: &Slot)
        requires { self.old.batch ≡ None }
        ensures { HandsIn H.runs H.is_same H.goes_on (inflow self.old) [] (inflow self.new) }
    {
        let router = self.router;
        let Some(batches) = router.shared().switchboard.batches(slot) else {
            return;
        };
        if let Ok(batch) = batches.take(rt, router.shared().alloc) {
            put(&mut self.batch, Waiting { batch });
        }
    }

    /// Lets its thread have the batch again, if no frame waits in it.
    pub fn let_go<R: Wait>(&mut self, rt: &R, slot: &Slot)
        ensures { HandsIn H.runs H.is_same H.goes_on (inflow self.old) [] (inflow self.new) }
    {
        let waits = self.waiting();
        if waits > 0 {
            return;
        }
        let Some(Waiting { batch }) = self.batch.take() else {
            return;
        };
        if let Some(batches) = self.router.shared().switchboard.batches(slot) {
            batches.give_back(rt, batch);
        }
    }

    /// Puts a frame into the batch. It comes back if there is no place, or no batch.
    #[inline(always)]
    pub fn put(&mut self, frame: Frame) -> Result<(), Frame>
        requires { IsTrue frame.as_read }
        ensures back { IfErr result (λ f. f ≡ frame) }
        ensures frames { HandsIn H.runs H.is_same H.goes_on (inflow self.old) (frames_put frame result)
            (inflow self.new) }
    {
        match &mut self.batch {
            Some(waiting) => waiting.push(frame),
            None => Err(frame),
        }
    }

    /// Frames off the front of what was read go into the batch, at most so many and while it has places: how many. They
    /// are counted.
    #[inline(always)]
    pub fn fill(
        &mut self,
        seen: &mut Seen,
        read: &mut ReadBuffer,
        max_frame: usize,
        most: usize,
    ) -> usize
        requires { max_frame ≤ 16777216 }
        ensures run { TakesRun (λ a fs b. HandsIn H.runs H.is_same H.goes_on (inflow a) fs
            (inflow b)) max_frame result self.old
            read.old self.new read.new }
        ensures bound { result ≤ most }
    {
        match &mut self.batch {
            Some(waiting) => waiting.fill(seen, read, max_frame, most),
            None => 0,
        }
    }

    /// Hands the batch in once.
    pub fn hand_in<R: Wait>(&mut self, rt: &R, now: u64) -> Handed
        requires { self.old.is_over ≡ false }
        ensures { HandsIn H.runs H.is_same H.goes_on (inflow self.old) [] (inflow self.new) }
    {
        let Some(seat) = &mut self.seat else {
            return self.lose();
        };
        let Some(waiting) = &mut self.batch else {
            return self.lose();
        };
        match waiting.hand_in(self.router, rt, seat, now) {
            Ok(()) => Handed::All,
            Err(fault) => self.refused(fault),
        }
    }

    // A frame was refused. It stands in front again if it is taken later.
    fn refused(&mut self, fault: HubFault) -> Handed
        requires { IfSome (handed_back fault) (λ f. IsTrue f.as_read) }
        ensures { HandsIn H.runs H.is_same H.goes_on (in_front (handed_back fault) (inflow self.old)) []
            (inflow self.new) }
    {
        match fault {
            HubFault::Session(StepRefusal::Spent, frame) => self.put_back(frame, Refusal::Spent),
            HubFault::Session(StepRefusal::Busy, frame) => self.put_back(frame, Refusal::Busy),
            HubFault::SeatFull(frame) => self.put_back(frame, Refusal::SeatFull),
            _ => self.lose(),
        }
    }

    // Puts a frame in front of the others again.
    fn put_back(&mut self, frame: Frame, refusal: Refusal) -> Handed
        requires { IsTrue frame.as_read }
        ensures { HandsIn H.runs H.is_same H.goes_on (in_front (Some frame) (inflow self.old)) [] (inflow self.new) }
    {
        match &mut self.batch {
            Some(waiting) => {
                if waiting.put_back(frame) {
                    Handed::Refused(refusal)
                } else {
                    self.lose()
                }
            }
            None => self.lose(),
        }
    }

    // A frame was lost, if one came back: nothing more is handed in.
    fn lose(&mut self) -> Handed
        ensures { (o : Option FrameView) → HandsIn H.runs H.is_same H.goes_on (in_front o
            (inflow self.old)) [] (inflow self.new) }
    {
        self.is_over = true;
        Handed::Lost
    }

    /// Nothing more is handed in if the last frame that was taken closed the session.
    pub fn see_end(&mut self)
        ensures { HandsIn H.runs H.is_same H.goes_on (inflow self.old) [] (inflow self.new) }
    {
        let Some(seat) = &self.seat else {
            return;
        };
        if seat.is_closed() {
            self.is_over = true;
        }
    }

    /// Wakes those for whom the batch made steps, unless more frames come at once.
    #[inline(always)]
    pub fn ring<R: Wait>(&mut self, rt: &R, slot: &Slot, more: bool)
        ensures { HandsIn H.runs H.is_same H.goes_on (inflow self.old) [] (inflow self.new) }
    {
        let bell = ReaderBell {
            rt,
            router: self.router,
            slot,
            own: self.session(),
        };
        if let Some(waiting) = &mut self.batch {
            waiting.ring(&bell, more);
        }
    }
}

// Frames off the front of what was read go behind those of a batch, while it has places: how many. They are counted.
#[inline(never)]
fn fill<C: Counts>(
    batch: &mut Batch,
    counts: &mut C,
    read: &mut ReadBuffer,
    max_frame: usize,
    most: usize,
) -> usize
    requires { max_frame ≤ 16777216 }
    ensures run { TakesRun (λ a fs b. b.frames ≡ a.frames ++ fs) max_frame result batch.old read.old batch.new
        read.new }
    ensures errands { batch.new.errands ≡ batch.old.errands }
    ensures bound { result ≤ most }
{
    let room = most.min(batch.free());
    for count in 0..room {
        let Some(frame) = read.cut_frame(max_frame) else {
            return count;
        };
        counts.count(&frame);
        let Ok(()) = batch.push(frame) else {
            unreachable!()
        };
    }
    room
}
