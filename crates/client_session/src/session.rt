//! A session towards one server.
//!
//! `write`, the head of `frame` and what shows a session (`queued`, `last_out`, `into_history`) have twins in
//! server_session: each reads fields of its own session, under that side's clauses.

ghost use Rattle.std.specs.Prelude.{◌≡◌, ◌≤◌, ◌<◌, ◌-◌, ◌*◌, false, true, Ok, None, [], length, reverse, map as map_list, IfOk, IfErr, IsTrue, OnErr};
ghost use Rattle.std.specs.Option.{option_copied};
ghost use Rattle.std.specs.FinMap as map;
ghost use Rattle.std.specs.VecDeque.{deque_len, deque_capacity};
ghost use Rattle.mux_history.specs.Counting.{IsCount};
ghost use Rattle.mux_history.specs.Readings.{written, sendings, epoch_of};
ghost use Rattle.mux_model.specs.Entries.{said_by};
ghost use Rattle.mux_model.specs.Steps.{ClockCall, RetireCall, PingCall, entries, records, sent_count};
ghost use Rattle.mux_model.specs.World.{first_step};
ghost use Rattle.client_session.specs.Past.{sent_of};
ghost use Rattle.client_session.specs.Inside.{frames_of};

mod entries;
mod figures;
mod messages;
mod sending;

use crate::answers::{PingRefusal, Recalled, UpStep};
use gate::{DrainIn, Lease};
use mux_frame::Frame;
use mux_history::{Delays, History, InitMode, KindCounts, Limits, Record, RecordKind, ServerId};
use mux_message::made::{probe, tdiscarded, tping};
use mux_message::parse;
use mux_model::cause_of;
use session_init::ClientInit;
use std::alloc::{AllocError, Global};
use std::collections::VecDeque;
use std::marker::Model;
use std::mem;
use tag_pool::TagPool;
use translate_book::{
    Lost, OfferRefusal, Placed, Recall, RollRefusal, SealRefusal, Sent, StepRefusal, Ticket, Why,
};

/// An entry of the tag pool: the mark of a dispatch that was sent, at which reading, and whether it was recalled.
#[derive(Drop)]
struct Holding {
    sent: Sent,
    since: u64,
    recalled: bool,
}

impl Model for Holding {
    ghost use Rattle.std.specs.Prelude.{Some};
    ghost use Rattle.client_session.specs.Past.{Dispatch};
    ghost use Rattle.client_session.specs.State.{frame_in};

    ghost Value = { Dispatch };

    ghost view = { λ h. record {
      name = Some h.sent.name;
      since = h.since;
      again = frame_in h.sent.again;
      recalled = h.recalled;
    } };
}

/// A session towards one server. In each call `now` is a reading of the clock, in milliseconds since the
/// router's start.
///
/// Contracts see the session as its `State`, which belongs to the list of its steps.
#[derive(Drop)]
pub struct ClientSession {
    server: ServerId,
    limits: Limits,
    // The number of the present epoch, and the records of the present history.
    epoch: u32,
    history: History,
    queue: VecDeque<Frame>,
    entries: TagPool<Holding>,
    delays: Delays,
    // How many of the entries were not recalled: each keeps room for its Tdiscarded.
    fresh: usize,
    lease: Lease,
    reading: u64,
    init: ClientInit,
    drain: DrainIn,
    retired: bool,
    // A ping is out.
    ping: bool,
    closed: bool,
}

impl Model for ClientSession {
    ghost use Rattle.client_session.specs.State.{State};
    ghost use Rattle.std.specs.Coded.{codes};
    ghost use Rattle.std.specs.FinMap as map;

    ghost Value = { State };

    ghost coded = { Prim.hlevel (codes, map.code) };

    ghost use Rattle.client_session.specs.Inside.{state_of, IsSound};

    ghost view = { state_of };

    ghost invariant = { IsSound };
}

impl ClientSession {
    ghost use Rattle.client_session.specs.Past.{Past, begun, delays_of, figures_of, last_queued};
    ghost use Rattle.client_session.specs.Belonging.{Belongs, StepsBy};
    ghost use Rattle.client_session.specs.Decide.{is_idle};
    ghost use Rattle.client_session.specs.Steps.{OfferStep, FrameStep, RecallStep, NoteStep, PingStep, LoseStep, LoseNextStep, TakeOutStep, TakeOutsStep, SealStep, RollStep};

    /// A session towards the server `id`. All room is made here: no step takes memory but an offer of
    /// a ticket with a try left.
    ///
    /// In mode Probe the probe is the first frame out. Out of memory is the one error, also if
    /// the tags can't have their room.
    pub fn open(
        alloc: Global,
        id: ServerId,
        mode: InitMode,
        limits: Limits,
    ) -> Result<ClientSession, AllocError>
        ensures { IfOk result (λ s. Belongs s (begun (record { limits = limits; number = id; mode = mode }))) }
    {
        let history = History::with_room(alloc, limits.history())?;
        let queue = first_queue(alloc, limits.out(), mode)?;
        let Ok(entries) = TagPool::with_room(alloc, limits.window()) else {
            return Err(AllocError);
        };
        Ok(ClientSession {
            server: id,
            limits,
            epoch: 0,
            history,
            queue,
            entries,
            delays: Delays::none(),
            fresh: 0,
            lease: Lease::none(),
            reading: 0,
            init: ClientInit::new(mode),
            drain: DrainIn::Running,
            retired: false,
            ping: false,
            closed: false,
        })
    }

    /// Sends a dispatch on a free tag, or hands its ticket back with the first cause not to.
    ///
    /// Of a ticket with a try left a copy is kept, to be sent again. If that finds no memory, the
    /// session is unchanged; this is the last cause to be told.
    #[inline(always)]
    pub fn offer(&mut self, ticket: Ticket, now: u64) -> Result<Placed, (OfferRefusal, Ticket)>
        ensures step { StepsBy self.old self.new (λ p q. OfferStep p ticket now result q) }
        ensures err { IfErr result (λ e. (e.1 ≡ ticket) × (self.new ≡ self.old)) }
    {
        if let Some(refusal) = self.offer_refusal(now) {
            return Err((refusal, ticket));
        }
        match ticket.into_sent(*self.queue.allocator()) {
            Ok((sent, frame)) => Ok(self.accept(sent, frame, now)),
            Err((_, ticket)) => Err((OfferRefusal::Memory, ticket)),
        }
    }

    /// Takes a frame of the server as a decoder gives it (`Frame::as_read`), or hands it back.
    ///
    /// A frame with a fault closes the session, and a final reply to a dispatch settles it: neither
    /// is refused for want of room.
    #[inline(always)]
    pub fn frame(&mut self, frame: Frame, now: u64) -> Result<UpStep, (StepRefusal, Frame)>
        requires { IsTrue frame.as_read }
        ensures step { StepsBy self.old self.new (λ p q. FrameStep p frame now result q) }
        ensures err { IfErr result (λ e. (e.1 ≡ frame) × (self.new ≡ self.old)) }
    {
        if self.closed {
            return Err((StepRefusal::Closed, frame));
        }
        match parse(frame) {
            Ok(message) => self.message(message, now),
            Err((fault, _)) => {
                let cause = cause_of(fault);
                self.close_for(cause, now);
                Ok(UpStep::Closing(cause))
            }
        }
    }

    /// Asks the server to discard a dispatch. Only the dispatch of that very name is recalled, and
    /// once.
    pub fn recall(&mut self, recall: Recall, now: u64) -> Recalled
        ensures step { StepsBy self.old self.new (λ p q. RecallStep p recall now result q) }
        ensures stale { result ≡ Recalled.Stale → self.new ≡ self.old }
    {
        let name = recall.name();
        let tag = recall.tag();
        if !self.can_recall(tag, name) {
            return Recalled::Stale;
        }
        let (_, _, _, why) = recall.into_parts();
        self.mark(tag);
        self.write(
            now,
            RecordKind::Discarding,
            tag,
            Some(name),
            Some(tdiscarded(tag, why.into_bytes())),
        );
        Recalled::Sent
    }

    /// Hands a reading of the clock in.
    pub fn clock(&mut self, now: u64) -> Result<(), StepRefusal>
        ensures step { StepsBy self.old self.new (λ p q. NoteStep p (ClockCall now) result q) }
        ensures err { OnErr result (self.new ≡ self.old) }
    {
        if let Some(refusal) = self.record_refusal() {
            return Err(refusal);
        }
        self.write(now, RecordKind::Clock, 0, None, None);
        Ok(())
    }

    /// The session takes no more dispatches. A second call changes no more than its record.
    pub fn retire(&mut self, now: u64) -> Result<(), StepRefusal>
        ensures step { StepsBy self.old self.new (λ p q. NoteStep p (RetireCall now) result q) }
        ensures err { OnErr result (self.new ≡ self.old) }
    {
        if let Some(refusal) = self.record_refusal() {
            return Err(refusal);
        }
        self.retired = true;
        self.write(now, RecordKind::Retired, 0, None, None);
        Ok(())
    }

    /// Sends a ping, of which one may be out.
    pub fn ping(&mut self, now: u64) -> Result<(), PingRefusal>
        ensures step { StepsBy self.old self.new (λ p q. PingStep p (PingCall now) result q) }
        ensures err { OnErr result (self.new ≡ self.old) }
    {
        if let Some(refusal) = self.ping_refusal() {
            return Err(refusal);
        }
        self.ping = true;
        self.write(now, RecordKind::PingSent, 1, None, Some(tping()));
        Ok(())
    }

    /// The connection is lost. On a closed session this changes nothing.
    pub fn lose(&mut self, now: u64)
        ensures step { StepsBy self.old self.new (λ p q. LoseStep p now q) }
    {
        if !self.closed {
            self.close(RecordKind::Lost, now);
        }
    }

    /// The dispatch of a closed session at the least tag, whose answer can't come any more. None
    /// if none is left, or the session isn't closed.
    pub fn lose_next(&mut self) -> Option<Lost>
        ensures step { StepsBy self.old self.new (λ p q. LoseNextStep p result q) }
    {
        if !self.closed {
            return None;
        }
        let Some((tag, holding)) = self.release_first() else {
            return None;
        };
        let Holding { sent, .. } = holding;
        self.write(0, RecordKind::LostOne, tag, Some(sent.name()), None);
        Some(sent.lost())
    }

    /// The next frame to be sent, in the order of the steps. None once the session is closed.
    pub fn take_out(&mut self) -> Option<Frame>
        ensures step { StepsBy self.old self.new (λ p q. TakeOutStep p result q) }
    {
        if self.closed {
            return None;
        }
        self.queue.pop_front()
    }

    /// All frames that are queued, in the order of the steps, by one exchange: what `take_out` gives
    /// until it gives None. The deque that is handed in is empty and has room for the limit `out`.
    pub fn take_outs(&mut self, frames: &mut VecDeque<Frame>)
        requires empty { deque_len frames.old ≡ 0 }
        requires room { self.old.limits.out ≤ deque_capacity frames.old }
        ensures step { StepsBy self.old self.new (λ p q. TakeOutsStep p frames.new.items q) }
        ensures room { self.old.limits.out ≤ deque_capacity frames.new }
    {
        if !self.closed {
            mem::swap(&mut self.queue, frames);
        }
    }

    /// Ends the present epoch: its history is handed back, and the next one begins in the empty
    /// history that is handed in, which has room for the limit `history`. The order of free tags
    /// goes on.
    pub fn seal(&mut self, fresh: History) -> Result<History, (SealRefusal, History)>
        requires empty { fresh.records ≡ [] }
        requires room { fresh.room ≡ self.old.limits.history }
        ensures step { StepsBy self.old self.new (λ p q. SealStep p fresh result q) }
        ensures err { IfErr result (λ e. (e.1 ≡ fresh) × (self.new ≡ self.old)) }
    {
        if let Some(refusal) = self.seal_refusal() {
            return Err((refusal, fresh));
        }
        let standing = self.standing();
        self.epoch += 1;
        let number = self.epoch;
        let sealed = mem::replace(&mut self.history, fresh);
        self.write(0, RecordKind::Epoch { number, standing }, 0, None, None);
        Ok(sealed)
    }

    /// Ends the present epoch, also while dispatches are held: its history is handed back, and the
    /// next one begins in the empty history that is handed in, which has room for the limit
    /// `history`.
    ///
    /// It takes and sends nothing. What is held, the frames queued, the lease and the order of free
    /// tags go on. Refused once the session is closed, where what is held keeps too much room of a
    /// history, and in the last epoch. With a limit `history` of at least six times `window` it is
    /// never refused for lack of room.
    pub fn roll(&mut self, fresh: History) -> Result<History, (RollRefusal, History)>
        requires empty { fresh.records ≡ [] }
        requires room { fresh.room ≡ self.old.limits.history }
        ensures step { StepsBy self.old self.new (λ p q. RollStep p fresh result q) }
        ensures err { IfErr result (λ e. (e.1 ≡ fresh) × (self.new ≡ self.old)) }
        ensures ample { IfErr result (λ e. e.0 ≡ RollRefusal.NoRoom
            → self.old.limits.history < 6 * self.old.limits.window) }
    {
        if let Some(refusal) = self.roll_refusal() {
            return Err((refusal, fresh));
        }
        self.epoch += 1;
        let number = self.epoch;
        let rolled = mem::replace(&mut self.history, fresh);
        self.write(0, RecordKind::Rolled { number }, 0, None, None);
        Ok(rolled)
    }

    /// The limits that it was opened with.
    pub fn limits(&self) -> Limits
        ensures { result ≡ self.now.limits }
    {
        self.limits
    }

    /// The number of the present epoch. The first is 0.
    pub fn epoch(&self) -> u32
        ensures value { result ≡ self.now.epoch }
        ensures told { (p : Past) → Belongs self.now p → result ≡ epoch_of (records p.steps) }
    {
        self.epoch
    }

    /// Whether the session has ended.
    pub fn is_closed(&self) -> bool
        ensures { result ≡ self.now.closed }
    {
        self.closed
    }

    /// How many dispatches are held.
    pub fn load(&self) -> usize
        ensures value { result ≡ map.len self.now.entries }
        ensures told { (p : Past) → Belongs self.now p → result ≡ length (sendings (records p.steps)) }
    {
        self.entries.len()
    }

    /// The records of the present history, the oldest first.
    pub fn history(&self) -> &[Record]
        ensures value { result.now ≡ self.now.records }
        ensures told { (p : Past) → Belongs self.now p → result.now ≡ reverse (written (records p.steps)) }
    {
        self.history.records()
    }

    /// How many records of the present history are of each kind that is counted.
    pub fn counts(&self) -> KindCounts
        ensures { IsCount result self.now.records }
    {
        self.history.counts()
    }

    /// How long the dispatches took that were answered, from the reading at which each was sent to that of its reply.
    pub fn delays(&self) -> Delays
        ensures value { result ≡ self.now.delays }
        ensures told { (p : Past) → Belongs self.now p → result ≡ delays_of p.steps }
    {
        self.delays
    }

    /// How many frames are queued, also once the session is closed.
    pub fn queued(&self) -> usize
        ensures value { result ≡ length self.now.queue }
        ensures told { (p : Past) → Belongs self.now p → result ≡ sent_count (entries p.steps) - length p.out }
    {
        self.queue.len()
    }

    /// The last of the frames queued, also once the session is closed.
    pub fn last_out(&self) -> Option<&Frame>
        ensures { (p : Past) → Belongs self.now p → said_by (option_copied result) ≡ last_queued p }
    {
        self.queue.back()
    }

    /// The present history, of a session that is done with.
    pub fn into_history(self) -> History
        ensures { (p : Past) → Belongs self p
            → result ≡ record { records = reverse (written (records p.steps)); room = p.session.limits.history } }
    {
        self.history
    }

    /// No dispatch is held, and none will be any more.
    pub fn is_finished(&self) -> bool
        ensures { (p : Past) → Belongs self.now p → result ≡ is_idle (figures_of p) }
    {
        self.is_idle()
    }
}

/// The queue of a session that begins, with so much room.
fn first_queue(alloc: Global, room: usize, mode: InitMode) -> Result<VecDeque<Frame>, AllocError>
    requires { 1 ≤ room }
    ensures queue { IfOk result (λ q. frames_of q.items ≡ sent_of (entries (first_step mode))) }
    ensures room { IfOk result (λ q. (room ≤ deque_capacity q) × (deque_len q ≤ 1)) }
{
    let mut queue = VecDeque::with_capacity(alloc, room)?;
    match mode {
        InitMode::Plain => Ok(queue),
        InitMode::Probe => {
            queue.push_back_reserved(probe(-128));
            Ok(queue)
        }
    }
}
