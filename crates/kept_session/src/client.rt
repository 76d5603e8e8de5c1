//! A session with the fact that its own calls have led to its state.
//!
//! Its twin is `server`: delegates of one line each, under the clauses of that side.

ghost use Rattle.std.specs.Prelude.{◌≡◌, ◌<◌, ◌≤◌, ◌+◌, ◌*◌, [], true, None, Some, vec_capacity, Ok, length, slice_get, IfOk, IfErr, IsTrue, OnOk, OnErr};
ghost use Rattle.std.specs.Option.{option_copied};
ghost use Rattle.std.specs.VecDeque.{deque_len, deque_capacity};
ghost use Rattle.mux_history.specs.Counting.{IsCount};
ghost use Rattle.mux_history.specs.Log.{Log};
ghost use Rattle.mux_history.specs.Readings.{has_ended, sendings};
ghost use Rattle.mux_history.specs.Standings.{up_standing};
ghost use Rattle.mux_model.specs.Entries.{said_by};
ghost use Rattle.mux_model.specs.Steps.{ClockCall, RetireCall, PingCall, records};
ghost use Rattle.client_session.specs.Past.{Past, begun, delays_of, last_queued};
ghost use Rattle.client_session.specs.State.{figures_in};
ghost use Rattle.client_session.specs.Decide.{is_idle, offer_refusal};
ghost use Rattle.client_session.specs.Belonging as belonging;
ghost use Rattle.client_session.specs.Belonging.{Belongs};
ghost use Rattle.kept_session.specs.Ending.{EndStep};
ghost use Rattle.client_session.specs.Steps.{OfferStep, FrameStep, RecallStep, NoteStep, PingStep, LoseStep, LoseNextStep, TakeOutStep, TakeOutsStep};

use crate::ending::{EpochEnd, EpochRefusal, EpochRefused};
use client_session::{ClientSession, PingRefusal, Recalled, UpStep};
use mux_frame::Frame;
use mux_history::{Delays, History, InitMode, KindCounts, Limits, Record, ServerId, Standing};
use std::alloc::{AllocError, Global};
use std::collections::VecDeque;
use std::marker::Model;
use std::mem;
use translate_book::{Lost, OfferRefusal, Placed, Recall, RollRefusal, StepRefusal, Ticket};

/// A session towards a server that its own calls have led to its state, with its histories that ended and the
/// place for the present one.
///
/// Each call is that of `ClientSession` by the same name; `now` is a reading of the clock, in milliseconds.
#[derive(Drop)]
pub struct KeptClientSession {
    mode: InitMode,
    session: ClientSession,
    ended: Vec<History>,
}

impl Model for KeptClientSession {
    ghost use Rattle.std.specs.Coded.{codes};
    ghost use Rattle.std.specs.FinMap as map;
    ghost use Rattle.std.specs.Prelude.{◌+◌, ◌≤◌, vec_len, vec_capacity};
    ghost use Rattle.kept_session.specs.Reached.{Kept, IsKept, WereKept};

    ghost Value = { Kept };

    ghost coded = { Prim.hlevel (codes, map.code) };

    ghost view = { λ k. record { mode = k.mode; ended = k.ended.items; state = k.session } };

    ghost invariant = { λ k. (vec_len k.ended + 1 ≤ vec_capacity k.ended) × WereKept k.ended.items
        × IsKept (record { mode = k.mode; ended = k.ended.items; state = k.session }) };
}

impl KeptClientSession {
    ghost use Rattle.kept_session.specs.Histories.{with_present};
    ghost use Rattle.kept_session.specs.Reached.{IsAllOfOne, IsKept, StepsBy, WereKept};
    ghost use Rattle.kept_session.specs.Ending.{EndsEpoch};
    ghost use Rattle.kept_session.specs.Outlined.{IsOutlined, IsHistory, IsFaultless};
    ghost use Rattle.kept_session.specs.Recorded.{IsRecordOf};

    /// A session towards the server `id`. All room is made here: no step takes memory but an offer of
    /// a ticket with a try left.
    ///
    /// Out of memory is the one error.
    pub fn open(
        alloc: Global,
        id: ServerId,
        mode: InitMode,
        limits: Limits,
    ) -> Result<KeptClientSession, AllocError>
        ensures mode { IfOk result (λ k. k.mode ≡ mode) }
        ensures ended { IfOk result (λ k. k.ended ≡ []) }
        ensures begun { IfOk result (λ k.
            Belongs k.state (begun (record { limits = limits; number = id; mode = mode }))) }
    {
        let ended = Vec::with_capacity(alloc, 1)?;
        let session = ClientSession::open(alloc, id, mode, limits)?;
        Ok(KeptClientSession {
            mode,
            session,
            ended,
        })
    }

    /// Sends a dispatch on a free tag, or hands its ticket back with the first cause not to.
    #[inline(always)]
    pub fn offer(&mut self, ticket: Ticket, now: u64) -> Result<Placed, (OfferRefusal, Ticket)>
        ensures step { StepsBy self.old self.new (λ p q. OfferStep p ticket now result q) }
        ensures err { IfErr result (λ e. (e.1 ≡ ticket) × (self.new ≡ self.old)) }
    {
        let _dispatch = ticket.frame();
        self.session.offer(ticket, now)
    }

    /// Whether a dispatch that can't be sent again is taken at this reading. `offer` takes it as well where it can be.
    #[inline(always)]
    pub fn takes(&self, ticket: &Ticket, now: u64) -> bool
        ensures room { result ≡ true → offer_refusal (figures_in self.now.state) now ≡ None }
        ensures last { result ≡ true → ticket.now.left ≡ 0 }
    {
        self.session.takes(ticket, now)
    }

    /// Sends a dispatch that `takes` takes, on a free tag. It takes no memory.
    #[inline(always)]
    pub fn send(&mut self, ticket: Ticket, now: u64) -> Placed
        requires room { offer_refusal (figures_in self.old.state) now ≡ None }
        requires last { ticket.left ≡ 0 }
        ensures { StepsBy self.old self.new (λ p q. OfferStep p ticket now (Ok result) q) }
    {
        let _dispatch = ticket.frame();
        self.session.send(ticket, now)
    }

    /// Takes a frame of the server as a decoder gives it (`Frame::as_read`), or hands it back.
    #[inline(always)]
    pub fn frame(&mut self, frame: Frame, now: u64) -> Result<UpStep, (StepRefusal, Frame)>
        requires { IsTrue frame.as_read }
        ensures step { StepsBy self.old self.new (λ p q. FrameStep p frame now result q) }
        ensures grown { OnOk result (length self.new.state.records ≡ length self.old.state.records + 1) }
        // The last record is one of this very frame.
        ensures record { OnOk result ((r : Record)
            → slice_get self.new.state.records (length self.old.state.records) ≡ Some r → IsRecordOf frame.frame r) }
        ensures err { IfErr result (λ e. (e.1 ≡ frame) × (self.new ≡ self.old)) }
    {
        self.session.frame(frame, now)
    }

    /// Asks the server to discard a dispatch. Only the dispatch of that very name is recalled, and
    /// once.
    pub fn recall(&mut self, recall: Recall, now: u64) -> Recalled
        ensures step { StepsBy self.old self.new (λ p q. RecallStep p recall now result q) }
        ensures stale { result ≡ Recalled.Stale → self.new ≡ self.old }
    {
        self.session.recall(recall, now)
    }

    /// Hands a reading of the clock in.
    pub fn clock(&mut self, now: u64) -> Result<(), StepRefusal>
        ensures step { StepsBy self.old self.new (λ p q. NoteStep p (ClockCall now) result q) }
        ensures err { OnErr result (self.new ≡ self.old) }
    {
        self.session.clock(now)
    }

    /// The session takes no more dispatches. A second call changes no more than its record.
    pub fn retire(&mut self, now: u64) -> Result<(), StepRefusal>
        ensures step { StepsBy self.old self.new (λ p q. NoteStep p (RetireCall now) result q) }
        ensures err { OnErr result (self.new ≡ self.old) }
    {
        self.session.retire(now)
    }

    /// Sends a ping, of which one may be out.
    pub fn ping(&mut self, now: u64) -> Result<(), PingRefusal>
        ensures step { StepsBy self.old self.new (λ p q. PingStep p (PingCall now) result q) }
        ensures err { OnErr result (self.new ≡ self.old) }
    {
        self.session.ping(now)
    }

    /// The connection is lost. On a closed session this changes nothing.
    pub fn lose(&mut self, now: u64)
        ensures { StepsBy self.old self.new (λ p q. LoseStep p now q) }
    {
        self.session.lose(now);
    }

    /// The dispatch of a closed session at the least tag, whose answer can't come any more. None
    /// if none is left, or the session isn't closed.
    pub fn lose_next(&mut self) -> Option<Lost>
        ensures { StepsBy self.old self.new (λ p q. LoseNextStep p result q) }
    {
        self.session.lose_next()
    }

    /// The next frame to be sent, in the order of the steps. None once the session is closed.
    #[inline(always)]
    pub fn take_out(&mut self) -> Option<Frame>
        ensures { StepsBy self.old self.new (λ p q. TakeOutStep p result q) }
    {
        self.session.take_out()
    }

    /// All frames that are queued, in the order of the steps, by one exchange: what `take_out` gives
    /// until it gives None. The deque that is handed in is empty and has room for the limit `out`.
    #[inline(always)]
    pub fn take_outs(&mut self, frames: &mut VecDeque<Frame>)
        requires empty { deque_len frames.old ≡ 0 }
        requires room { self.old.state.limits.out ≤ deque_capacity frames.old }
        ensures step { StepsBy self.old self.new (λ p q. TakeOutsStep p frames.new.items q) }
        ensures room { self.old.state.limits.out ≤ deque_capacity frames.new }
    {
        self.session.take_outs(frames);
    }

    /// Ends the present epoch: its history is put behind those that ended before, and the next one begins in the
    /// empty history that is handed in, which has room for the limit `history`. To be sealed the session has to be
    /// quiet; when it is rolled, all that is held goes on.
    pub fn end_epoch(&mut self, how: EpochEnd, fresh: History) -> Result<(), EpochRefused>
        requires empty { fresh.records ≡ [] }
        requires room { fresh.room ≡ self.old.state.limits.history }
        ensures step { EndsEpoch how fresh self.old self.new result }
        ensures ample { IfErr result (λ e. e.why ≡ EpochRefusal.Roll RollRefusal.NoRoom
            → self.old.state.limits.history < 6 * self.old.state.limits.window) }
        ensures err { OnErr result (self.new ≡ self.old) }
        ensures back { IfErr result (λ e. e.fresh ≡ fresh) }
    {
        if self.ended.reserve(2).is_err() {
            let why = EpochRefusal::Memory;
            return Err(EpochRefused { why, fresh });
        }
        match end_history(&mut self.session, how, fresh) {
            Ok(ended) => {
                self.ended.push_reserved(ended);
                Ok(())
            }
            Err(refused) => Err(refused),
        }
    }

    /// The limits that it was opened with.
    #[inline(always)]
    pub fn limits(&self) -> Limits
        ensures { result ≡ self.now.state.limits }
    {
        self.session.limits()
    }

    /// The number of the present epoch: how often the session was sealed or rolled.
    #[inline(always)]
    pub fn epoch(&self) -> u32
        ensures { result ≡ self.now.state.epoch }
    {
        self.session.epoch()
    }

    /// How many records the present history has.
    #[inline(always)]
    pub fn held(&self) -> usize
        ensures count { result ≡ length self.now.state.records }
        ensures kept { IsKept self.now }
        ensures ended { WereKept self.now.ended }
    {
        self.session.history().len()
    }

    /// The histories that ended before the present one and weren't given up, the oldest first.
    pub fn ended(&self) -> &[History]
        ensures { result.now ≡ self.now.ended }
    {
        self.ended.as_slice()
    }

    /// How many histories it has given up: the number of the first epoch that it still has.
    pub fn given_up(&self) -> u32
        ensures { result + length self.now.ended ≡ self.now.state.epoch }
    {
        self.session.epoch() - self.ended.len() as u32
    }

    /// Gives its histories up that have ended, the oldest first: they are exchanged for those of `ended`, which
    /// has none, and room for one.
    pub fn take_ended(&mut self, ended: &mut Vec<History>)
        requires empty { ended.old.items ≡ [] }
        requires room { 1 ≤ vec_capacity ended.old }
        ensures given { ended.new.items ≡ self.old.ended }
        ensures left { self.new ≡ record self.old { ended = [] } }
        ensures kept { WereKept ended.new.items }
    {
        mem::swap(&mut self.ended, ended);
    }

    /// The records of the present history, the oldest first. The session is what they say, with those of the
    /// histories before them since it was last at rest, if a roll began this one.
    #[inline(always)]
    pub fn history(&self) -> &[Record]
        ensures records { result.now ≡ self.now.state.records }
        ensures kept { IsKept self.now }
        ensures outlined { IsOutlined self.now }
        ensures follow { IsHistory self.now }
        // They show no fault by themselves.
        ensures alone { IsFaultless self.now }
    {
        self.session.history()
    }

    /// How many records of the present history are of each kind that is counted.
    pub fn counts(&self) -> KindCounts
        ensures { IsCount result self.now.state.records }
    {
        self.session.counts()
    }

    /// How long the dispatches took that were answered, in milliseconds.
    pub fn delays(&self) -> Delays
        ensures { (p : Past) → Belongs self.now.state p → result ≡ delays_of p.steps }
    {
        self.session.delays()
    }

    /// Whether the session has ended, as all its records say.
    pub fn is_closed(&self) -> bool
        ensures { (p : Past) → Belongs self.now.state p → result ≡ has_ended (records p.steps) }
    {
        self.session.is_closed()
    }

    /// How the session stands, as all its records say: what a next epoch would begin with.
    pub fn standing(&self) -> Standing
        ensures { (p : Past) → p.session.mode ≡ self.now.mode → Belongs self.now.state p
            → result ≡ up_standing self.now.mode (records p.steps) }
    {
        self.session.standing()
    }

    /// How the session was begun.
    pub fn mode(&self) -> InitMode
        ensures { result ≡ self.now.mode }
    {
        self.mode
    }

    /// How many dispatches are held: those that all records tell.
    #[inline(always)]
    pub fn load(&self) -> usize
        ensures { (p : Past) → Belongs self.now.state p → result ≡ length (sendings (records p.steps)) }
    {
        self.session.load()
    }

    /// How many frames are queued, also once the session is closed.
    pub fn queued(&self) -> usize
        ensures { result ≡ length self.now.state.queue }
    {
        self.session.queued()
    }

    /// The last of the frames queued, also once the session is closed.
    pub fn last_out(&self) -> Option<&Frame>
        ensures { (p : Past) → Belongs self.now.state p → said_by (option_copied result) ≡ last_queued p }
    {
        self.session.last_out()
    }

    /// All histories of a session that is done with but those that it gave up, the oldest first. It takes no memory.
    pub fn into_histories(self) -> Vec<History>
        ensures value { result.items ≡ with_present self.ended self.state.records self.state.limits.history }
        ensures kept { WereKept result.items }
        ensures whole { IsAllOfOne result.items }
    {
        let KeptClientSession {
            session,
            mut ended,
            ..
        } = self;
        ended.push_reserved(session.into_history());
        ended
    }

    /// No dispatch is held, and none will be any more.
    pub fn is_finished(&self) -> bool
        ensures { result ≡ is_idle (figures_in self.now.state) }
    {
        self.session.is_finished()
    }
}

/// Ends the present history, which comes back.
fn end_history(
    session: &mut ClientSession,
    how: EpochEnd,
    fresh: History,
) -> Result<History, EpochRefused>
    requires empty { fresh.records ≡ [] }
    requires room { fresh.room ≡ session.old.limits.history }
    ensures step { belonging.StepsBy session.old session.new (λ p q. EndStep how p fresh result q) }
    ensures ample { IfErr result (λ e. e.why ≡ EpochRefusal.Roll RollRefusal.NoRoom
        → session.old.limits.history < 6 * session.old.limits.window) }
    ensures err { IfErr result (λ e. (e.fresh ≡ fresh) × (session.new ≡ session.old)) }
{
    match how {
        EpochEnd::Seal => match session.seal(fresh) {
            Ok(ended) => Ok(ended),
            Err((why, fresh)) => Err(EpochRefused {
                why: EpochRefusal::Seal(why),
                fresh,
            }),
        },
        EpochEnd::Roll => match session.roll(fresh) {
            Ok(ended) => Ok(ended),
            Err((why, fresh)) => Err(EpochRefused {
                why: EpochRefusal::Roll(why),
                fresh,
            }),
        },
    }
}
