//! A session towards a client with the fact that its own calls have led to its state.
//!
//! Its twin is `client`: delegates of one line each, under the clauses of that side.

ghost use Rattle.std.specs.Prelude.{◌≡◌, ◌<◌, ◌≤◌, ◌+◌, ◌*◌, [], None, Some, Ok, vec_capacity, length, slice_get, IfOk, IfErr, IfSome, IsTrue, OnOk, OnErr};
ghost use Rattle.std.specs.Option.{option_copied};
ghost use Rattle.std.specs.VecDeque.{deque_len, deque_capacity};
ghost use Rattle.mux_history.specs.Counting.{IsCount};
ghost use Rattle.mux_history.specs.Log.{Log};
ghost use Rattle.mux_history.specs.Readings.{book as book_of, has_ended};
ghost use Rattle.mux_history.specs.Standings.{down_standing};
ghost use Rattle.mux_model.specs.Entries.{said_by};
ghost use Rattle.mux_model.specs.Steps.{records};
ghost use Rattle.server_session.specs.Past.{Past, begun, last_queued};
ghost use Rattle.server_session.specs.State.{figures_in, OwesNote, OwesReply};
ghost use Rattle.server_session.specs.Decide.{is_idle};
ghost use Rattle.server_session.specs.Belonging.{Belongs};
ghost use Rattle.kept_session.specs.Ending.{EndStepDown};
ghost use Rattle.server_session.specs.Inside.{frames_of};
ghost use Rattle.server_session.specs.Steps.{LeadsOn, FrameStep, NoteStep, SettleStep, NackStep, UnrouteStep, FailStep, DrainStep, LoseStep, LoseNextStep, TakeOutStep, TakeOutsStep};

use crate::ending::{EpochEnd, EpochRefusal, EpochRefused};
use mux_frame::Frame;
use mux_history::{History, KindCounts, Limits, Record, Standing};
use server_session::{Answer, DownStep, DrainRefusal, Owed, ServerSession};
use std::alloc::{AllocError, Global};
use std::collections::VecDeque;
use std::marker::Model;
use std::mem;
use translate_book::{Lost, Placed, Recall, RollRefusal, Settled, StepRefusal, Ticket};

/// A session towards a client that its own calls have led to its state, with its histories that ended and the
/// place for the present one.
///
/// Each call is that of `ServerSession` by the same name; `now` is a reading of the clock, in milliseconds.
#[derive(Drop)]
pub struct KeptServerSession {
    session: ServerSession,
    ended: Vec<History>,
}

impl Model for KeptServerSession {
    ghost use Rattle.std.specs.Prelude.{◌+◌, ◌≤◌, vec_len, vec_capacity};
    ghost use Rattle.kept_session.specs.ReachedDown.{KeptDown, IsKeptDown, WereKeptDown};

    ghost Value = { KeptDown };

    ghost view = { λ k. record { ended = k.ended.items; state = k.session } };

    ghost invariant = { λ k. (vec_len k.ended + 1 ≤ vec_capacity k.ended) × WereKeptDown k.ended.items
        × IsKeptDown (record { ended = k.ended.items; state = k.session }) };
}

impl KeptServerSession {
    ghost use Rattle.kept_session.specs.Histories.{with_present};
    ghost use Rattle.kept_session.specs.ReachedDown.{IsAllOfOneDown, IsKeptDown, StepsDown, WereKeptDown};
    ghost use Rattle.kept_session.specs.Ending.{EndsEpochDown};
    ghost use Rattle.kept_session.specs.OutlinedDown.{IsOutlinedDown, IsHistoryDown, IsFaultlessDown};
    ghost use Rattle.kept_session.specs.RecordedDown.{IsRecordOfDown};
    ghost use Rattle.server_session.specs.declared.answers.Answer.TheVariants as whether;

    /// A session towards the client `id` of this boot. All room is made here: no step takes memory.
    ///
    /// Out of memory is the one error.
    pub fn open(
        alloc: Global,
        boot: u64,
        id: u64,
        limits: Limits,
    ) -> Result<KeptServerSession, AllocError>
        ensures ended { IfOk result (λ k. k.ended ≡ []) }
        ensures begun { IfOk result (λ k.
            Belongs k.state (begun (record { limits = limits; boot = boot; number = id }))) }
    {
        let ended = Vec::with_capacity(alloc, 1)?;
        let session = ServerSession::open(alloc, boot, id, limits)?;
        Ok(KeptServerSession { session, ended })
    }

    /// Takes a frame of the client as a decoder gives it (`Frame::as_read`), or hands it back.
    #[inline(always)]
    pub fn frame(&mut self, frame: Frame, now: u64) -> Result<DownStep, (StepRefusal, Frame)>
        requires { IsTrue frame.as_read }
        ensures step { StepsDown self.old self.new (λ p q. FrameStep p frame now result q) }
        ensures grown { OnOk result (length self.new.state.records ≡ length self.old.state.records + 1) }
        // The last record is one of this very frame.
        ensures record { OnOk result ((r : Record)
            → slice_get self.new.state.records (length self.old.state.records) ≡ Some r → IsRecordOfDown frame.frame r) }
        ensures err { IfErr result (λ e. (e.1 ≡ frame) × (self.new ≡ self.old)) }
    {
        self.session.frame(frame, now)
    }

    /// The place of a dispatch is known. It is recalled at once where the client has discarded it.
    #[inline(always)]
    pub fn note(&mut self, placed: Placed) -> Result<Option<Recall>, Placed>
        ensures step { StepsDown self.old self.new (λ p q. NoteStep p placed result q) }
        ensures err { IfErr result (λ e. (e ≡ placed) × (self.new ≡ self.old)) }
    {
        self.session.note(placed)
    }

    /// The final reply to a dispatch goes out on the client's tag, or the dispatch may be sent again.
    #[inline(always)]
    pub fn settle(&mut self, settled: Settled) -> Result<Answer, Settled>
        ensures step { StepsDown self.old self.new (λ p q. SettleStep p settled result q) }
        ensures err { IfErr result (λ e. (e ≡ settled) × (self.new ≡ self.old)) }
    {
        let _dispatch = settled.again();
        self.session.settle(settled)
    }

    /// The open dispatch whose place this is, where its note is due.
    #[inline(always)]
    pub fn owes_note(&self, placed: &Placed) -> Option<Owed>
        ensures { IfSome result (λ o. OwesNote self.now.state placed.now.name o.tag) }
    {
        self.session.owes_note(placed)
    }

    /// Notes the place of a dispatch for which `owes_note` gave this. No recall is due of it.
    #[inline(always)]
    pub fn note_owed(&mut self, owed: Owed, placed: Placed)
        requires { OwesNote self.old.state placed.name owed.tag }
        ensures { StepsDown self.old self.new (λ p q. NoteStep p placed (Ok None) q) }
    {
        self.session.note_owed(owed, placed);
    }

    /// The open dispatch to which this is the reply, where its place is noted, and it can't be sent again.
    #[inline(always)]
    pub fn owes_reply(&self, settled: &Settled) -> Option<Owed>
        ensures last { IfSome result (λ o. settled.now.again ≡ None) }
        ensures due { IfSome result (λ o. OwesReply self.now.state settled.now.name o.tag) }
    {
        self.session.owes_reply(settled)
    }

    /// Passes the reply on to a dispatch for which `owes_reply` gave this.
    #[inline(always)]
    pub fn pass_owed(&mut self, owed: Owed, settled: Settled)
        requires last { settled.again ≡ None }
        requires due { OwesReply self.old.state settled.name owed.tag }
        ensures { StepsDown self.old self.new (λ p q. SettleStep p settled (Ok whether.Answered) q) }
    {
        let _dispatch = settled.again();
        self.session.pass_owed(owed, settled);
    }

    /// No server takes a dispatch now: it is nacked.
    pub fn nack(&mut self, ticket: Ticket) -> Result<Answer, Ticket>
        ensures step { StepsDown self.old self.new (λ p q. NackStep p ticket result q) }
        ensures err { IfErr result (λ e. (e ≡ ticket) × (self.new ≡ self.old)) }
    {
        self.session.nack(ticket)
    }

    /// No server is known for a dispatch's destination.
    pub fn unroute(&mut self, ticket: Ticket) -> Result<Answer, Ticket>
        ensures step { StepsDown self.old self.new (λ p q. UnrouteStep p ticket result q) }
        ensures err { IfErr result (λ e. (e ≡ ticket) × (self.new ≡ self.old)) }
    {
        self.session.unroute(ticket)
    }

    /// The server that a dispatch was sent to is gone.
    pub fn fail(&mut self, lost: Lost) -> Result<Answer, Lost>
        ensures step { StepsDown self.old self.new (λ p q. FailStep p lost result q) }
        ensures err { IfErr result (λ e. (e ≡ lost) × (self.new ≡ self.old)) }
    {
        self.session.fail(lost)
    }

    /// Asks the client to send no more dispatches, once.
    pub fn drain(&mut self) -> Result<(), DrainRefusal>
        ensures step { StepsDown self.old self.new (λ p q. DrainStep p result q) }
        ensures err { OnErr result (self.new ≡ self.old) }
    {
        self.session.drain()
    }

    /// The connection is lost. On a closed session this changes nothing.
    pub fn lose(&mut self, now: u64)
        ensures { StepsDown self.old self.new (λ p q. LoseStep p now q) }
    {
        self.session.lose(now);
    }

    /// The recall of the least dispatch that owes one, once the client is gone. None if none is left,
    /// or the session isn't closed.
    pub fn lose_next(&mut self) -> Option<Recall>
        ensures { StepsDown self.old self.new (λ p q. LoseNextStep p result q) }
    {
        self.session.lose_next()
    }

    /// The next frame to be sent, in the order of the steps. None once the session is closed.
    #[inline(always)]
    pub fn take_out(&mut self) -> Option<Frame>
        ensures { StepsDown self.old self.new (λ p q. TakeOutStep p result q) }
    {
        self.session.take_out()
    }

    /// All frames that are queued, in the order of the steps, by one exchange: what `take_out` gives
    /// until it gives None. The deque that is handed in is empty and has room for the limit `out`.
    #[inline(always)]
    pub fn take_outs(&mut self, frames: &mut VecDeque<Frame>)
        requires empty { deque_len frames.old ≡ 0 }
        requires room { self.old.state.limits.out ≤ deque_capacity frames.old }
        ensures step { StepsDown self.old self.new (λ p q. TakeOutsStep p (frames_of frames.new.items) q) }
        ensures room { self.new.state.limits.out ≤ deque_capacity frames.new }
    {
        self.session.take_outs(frames);
    }

    /// Ends the present epoch: its history is put behind those that ended before, and the next one begins in the
    /// empty history that is handed in, which has room for the limit `history`. To be sealed the session has to be
    /// quiet; when it is rolled, all that is held goes on.
    pub fn end_epoch(&mut self, how: EpochEnd, fresh: History) -> Result<(), EpochRefused>
        requires empty { fresh.records ≡ [] }
        requires room { fresh.room ≡ self.old.state.limits.history }
        ensures step { EndsEpochDown how fresh self.old self.new result }
        ensures ample { IfErr result (λ e. e.why ≡ EpochRefusal.Roll RollRefusal.NoRoom
            → self.old.state.limits.history
            < 2 * ((4 + 2 * self.old.state.limits.retries) * self.old.state.limits.window)) }
        ensures err { OnErr result (self.new ≡ self.old) }
        ensures back { IfErr result (λ e. e.fresh ≡ fresh) }
    {
        if self.ended.reserve(2).is_err() {
            let why = EpochRefusal::Memory;
            return Err(EpochRefused { why, fresh });
        }
        match end_history(&mut self.session, how, fresh) {
            Ok(ended) => {
                self.ended.push_reserved(ended);
                Ok(())
            }
            Err(refused) => Err(refused),
        }
    }

    /// The limits that it was opened with.
    #[inline(always)]
    pub fn limits(&self) -> Limits
        ensures { result ≡ self.now.state.limits }
    {
        self.session.limits()
    }

    /// The number of the present epoch: how often the session was sealed or rolled.
    #[inline(always)]
    pub fn epoch(&self) -> u32
        ensures { result ≡ self.now.state.epoch }
    {
        self.session.epoch()
    }

    /// How many records the present history has.
    #[inline(always)]
    pub fn held(&self) -> usize
        ensures count { result ≡ length self.now.state.records }
        ensures kept { IsKeptDown self.now }
        ensures ended { WereKeptDown self.now.ended }
    {
        self.session.history().len()
    }

    /// The histories that ended before the present one and weren't given up, the oldest first.
    pub fn ended(&self) -> &[History]
        ensures { result.now ≡ self.now.ended }
    {
        self.ended.as_slice()
    }

    /// How many histories it has given up: the number of the first epoch that it still has.
    pub fn given_up(&self) -> u32
        ensures { result + length self.now.ended ≡ self.now.state.epoch }
    {
        self.session.epoch() - self.ended.len() as u32
    }

    /// Gives its histories up that have ended, the oldest first: they are exchanged for those of `ended`, which
    /// has none, and room for one.
    pub fn take_ended(&mut self, ended: &mut Vec<History>)
        requires empty { ended.old.items ≡ [] }
        requires room { 1 ≤ vec_capacity ended.old }
        ensures given { ended.new.items ≡ self.old.ended }
        ensures left { self.new ≡ record self.old { ended = [] } }
        ensures kept { WereKeptDown ended.new.items }
    {
        mem::swap(&mut self.ended, ended);
    }

    /// The records of the present history, the oldest first. The session is what they say, with those of the
    /// histories before them since it was last at rest, if a roll began this one.
    #[inline(always)]
    pub fn history(&self) -> &[Record]
        ensures records { result.now ≡ self.now.state.records }
        ensures kept { IsKeptDown self.now }
        ensures outlined { IsOutlinedDown self.now }
        ensures follow { IsHistoryDown self.now }
        // They show no fault by themselves.
        ensures alone { IsFaultlessDown self.now }
    {
        self.session.history()
    }

    /// How many records of the present history are of each kind that is counted.
    pub fn counts(&self) -> KindCounts
        ensures { IsCount result self.now.state.records }
    {
        self.session.counts()
    }

    /// Whether the session has ended, as all its records say.
    pub fn is_closed(&self) -> bool
        ensures { (p : Past) → Belongs self.now.state p → result ≡ has_ended (records p.steps) }
    {
        self.session.is_closed()
    }

    /// How the session stands, as all its records say: what a next epoch would begin with.
    pub fn standing(&self) -> Standing
        ensures { (p : Past) → Belongs self.now.state p → result ≡ down_standing (records p.steps) }
    {
        self.session.standing()
    }

    /// How many dispatches wait for a note or an answer: those that all records tell.
    #[inline(always)]
    pub fn load(&self) -> usize
        ensures { (p : Past) → Belongs self.now.state p → result ≡ length (book_of (records p.steps)) }
    {
        self.session.load()
    }

    /// How many frames are queued, also once the session is closed.
    pub fn queued(&self) -> usize
        ensures { result ≡ length self.now.state.queue }
    {
        self.session.queued()
    }

    /// The last of the frames queued, also once the session is closed.
    pub fn last_out(&self) -> Option<&Frame>
        ensures { (p : Past) → Belongs self.now.state p → said_by (option_copied result) ≡ last_queued p }
    {
        self.session.last_out()
    }

    /// All histories of a session that is done with but those that it gave up, the oldest first. It takes no memory.
    pub fn into_histories(self) -> Vec<History>
        ensures value { result.items ≡ with_present self.ended self.state.records self.state.limits.history }
        ensures kept { WereKeptDown result.items }
        ensures whole { IsAllOfOneDown result.items }
    {
        let KeptServerSession { session, mut ended } = self;
        ended.push_reserved(session.into_history());
        ended
    }

    /// No dispatch waits for anything, and none will any more.
    pub fn is_finished(&self) -> bool
        ensures { result ≡ is_idle (figures_in self.now.state) }
    {
        self.session.is_finished()
    }
}

/// Ends the present history, which comes back.
fn end_history(
    session: &mut ServerSession,
    how: EpochEnd,
    fresh: History,
) -> Result<History, EpochRefused>
    requires empty { fresh.records ≡ [] }
    requires room { fresh.room ≡ session.old.limits.history }
    ensures step { LeadsOn session.old (λ p q. EndStepDown how p fresh result q) session.new }
    ensures ample { (p : Past) → Belongs session.old p → IfErr result (λ e. e.why ≡ EpochRefusal.Roll RollRefusal.NoRoom
        → session.old.limits.history < 2 * ((4 + 2 * session.old.limits.retries) * session.old.limits.window)) }
    ensures err { IfErr result (λ e. (e.fresh ≡ fresh) × (session.new ≡ session.old)) }
{
    match how {
        EpochEnd::Seal => match session.seal(fresh) {
            Ok(ended) => Ok(ended),
            Err((why, fresh)) => Err(EpochRefused {
                why: EpochRefusal::Seal(why),
                fresh,
            }),
        },
        EpochEnd::Roll => match session.roll(fresh) {
            Ok(ended) => Ok(ended),
            Err((why, fresh)) => Err(EpochRefused {
                why: EpochRefusal::Roll(why),
                fresh,
            }),
        },
    }
}
