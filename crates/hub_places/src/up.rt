//! What is done with the place of a session towards a server.
//!
//! Its twin is `down`.
ghost use Rattle.std.specs.Prelude.{Option, ◌≡◌, ◌≢◌, ◌≤◌, ◌<◌, ◌+◌, ◌-◌, ◌^◌, ◌∷◌, [], ℕ, length, min, OnOk, OnErr, Err, IfErr, IfSome, IsTrue, None, Some, true, false, vec_capacity};
ghost use Rattle.std.specs.VecDeque.{deque_capacity};
ghost use Rattle.mux_frame.specs.Views.{FrameView};
ghost use Rattle.mux_history.specs.declared.session.SessionId.{SessionId};
ghost use Rattle.mux_model.specs.Steps.{ClockCall, PingCall, RetireCall};
ghost use Rattle.client_session.specs.Belonging.{Belongs};
ghost use Rattle.client_session.specs.Past.{begun};
ghost use Rattle.client_session.specs.Steps.{LoseNextStep, LoseStep, NoteStep, OfferStep, PingStep, RecallStep, TakeOutStep};
ghost use Rattle.server_session.specs.Inside.{frames_of};
ghost use Rattle.server_session.specs.Steps.{recall_of, ticket_of};
ghost use Rattle.hub_base.specs.Batching.{handed_back};
ghost use Rattle.hub_base.specs.Errands.{server_at};
ghost use Rattle.hub_steps.specs.Batches.{ServesUp, TakesAllUp};
ghost use Rattle.hub_steps.specs.Counts.{Counts};
ghost use Rattle.hub_steps.specs.Giving.{TakesEnded};
ghost use Rattle.hub_steps.specs.Leaving.{Leaves};
ghost use Rattle.hub_steps.specs.Up.{Ends, Makes, TakesOut, held};
ghost use Rattle.hub_log.specs.Moves.{slot_of};
ghost use Rattle.hub_places.specs.Holding.{HasClaims, Holds, IsGone, alone, beside, left_by_offer, lost_if};
ghost use Rattle.hub_places.specs.Numbering.{KeepsUp};

use crate::goals::{Claimed, Gone, Left, Losses, Nothing, Offered, WentOut};
use crate::log::enter;
use crate::place::{Place, may_begin};
use client_session::{PingRefusal, Recalled};
use hub_base::{Batch, Errands, Gate, HubFault};
use hub_close::Receipts;
use hub_log::{Book, Pass, Room};
use hub_steps::up_batch::{serve_all, start_all};
use hub_steps::up_steps as steps;
use kept_session::{EpochEnd, EpochRefused, KeptClientSession};
use mux_frame::Frame;
use mux_history::{History, ServerId, SessionId};
use std::collections::VecDeque;
use translate_book::{Lost, OfferRefusal, Placed, Recall, StepRefusal, Ticket};

impl<B: Room> Place<KeptClientSession, B> {
    /// Lends what is so of each place: it keeps a session of its number in a state that its calls led to, or none.
    #[inline(always)]
    pub fn kept(&self, server: ServerId)
        requires { self.now.number ≡ server }
        ensures { KeepsUp server self.now.session }
    {
        let _held = steps::held_by(&self.session);
    }

    /// Puts the session of this number in, which was just opened: whether it did. It doesn't, and drops the session, if one is
    /// there, if this slot isn't at `at`, or if it had one of this number or of a greater one.
    pub fn put(
        &mut self,
        book: &Book<B>,
        server: ServerId,
        at: u64,
        session: KeptClientSession,
    ) -> bool
        requires begun { Belongs session.state
            (begun (record { limits = B.terms.server_limits; number = server; mode = session.mode })) }
        requires slot { slot_of B.terms (SessionId.Server server) ≡ at }
        ensures yes { result ≡ true → self.new ≡ record { number = server; session = Some session } }
        ensures no { result ≡ false → self.new ≡ self.old }
    {
        let Place {
            session: there,
            logger,
        } = self;
        if !may_begin(there.is_some(), logger.home, logger.next, server, at) {
            return false;
        }
        logger.number = server;
        logger.next = server + 1;
        *there = Some(session);
        let _none = logger.log::<_, _, Nothing>(book, &*there, &());
        true
    }

    /// The steps of the frames of a batch that has no values yet, up to the first that is refused: what they give is
    /// held by the batch, and the pass that comes with it has a claim for each value.
    #[inline(always)]
    pub fn start_all<G: Gate>(
        &mut self,
        book: &Book<B>,
        gate: &G,
        server: ServerId,
        batch: &mut Batch,
        receipts: &mut Receipts,
        now: u64,
    ) -> (Result<(), HubFault>, Pass<B>)
        requires none { batch.old.errands ≡ [] }
        ensures took { OnOk result.0 (TakesAllUp now self.old.session self.new.session batch.old batch.new
            receipts.old receipts.new) }
        ensures all { OnOk result.0 (length batch.new.frames ≡ 0) }
        ensures refused { IfErr result.0 (λ e. (f : FrameView) × (handed_back e ≡ Some f)
            × TakesAllUp now self.old.session self.new.session batch.old
            (record batch.new { frames = f ∷ batch.new.frames }) receipts.old receipts.new) }
        ensures read { IfErr result.0 (λ e. IfSome (handed_back e) (λ f. IsTrue f.as_read)) }
        ensures shut { IfErr result.0 (λ e. (f : FrameView) → e ≡ HubFault.GateShut f
            → G.may_shut gate.now (SessionId.Server server)) }
        ensures full { IfErr result.0 (λ e. (f : FrameView) → e ≡ HubFault.SeatFull f
            → receipts.old.room ≤ length receipts.new.list) }
        ensures number { self.new.number ≡ self.old.number }
        ensures claims { HasClaims result.1 batch.new.errands }
    {
        let Place { session, logger } = self;
        let result = start_all(gate, &mut *session, server, batch, receipts, now);
        let claims = logger.log::<_, _, Claimed>(book, &*session, &batch.errands);
        (result, claims)
    }

    /// Hands all values on that go to the session of this number.
    #[inline(always)]
    pub fn serve_all(
        &mut self,
        book: &Book<B>,
        server: ServerId,
        errands: &mut Errands,
        claims: &mut Pass<B>,
        now: u64,
        made: &mut u64,
    )
        requires number { self.old.number ≡ server }
        requires claims { HasClaims claims.old errands.old.items }
        ensures event { ServesUp now server self.old.session errands.old.items self.new.session errands.new.items }
        ensures gone { (i : ℕ) → server_at errands.new.items i ≢ Some server }
        ensures counted { Counts (held self.old.session) (held self.new.session) made.old made.new }
        ensures same { (length errands.new.items ≡ length errands.old.items) × (errands.new.room ≡ errands.old.room) }
        ensures number { self.new.number ≡ self.old.number }
        ensures claims { HasClaims claims.new errands.new.items }
    {
        let Place { session, logger } = self;
        enter(book, &mut logger.pass, claims.value(book));
        serve_all(&mut *session, server, errands, now, made);
        *claims = logger.log::<_, _, Claimed>(book, &*session, errands);
    }

    /// Offers a dispatch that was taken out of a batch: what it leaves in hand has a claim, beside the batch's values.
    #[inline(always)]
    pub fn offer(
        &mut self,
        book: &Book<B>,
        ticket: Ticket,
        errands: &Errands,
        claims: &mut Pass<B>,
        now: u64,
        made: &mut u64,
    ) -> Result<Placed, (OfferRefusal, Ticket)>
        requires claims { Holds claims.old (beside (Some (ticket_of ticket)) errands.now.items) }
        ensures event { Makes self.old.session self.new.session (λ p q. OfferStep p ticket now result q) }
        ensures counted { Counts (held self.old.session) (held self.new.session) made.old made.new }
        ensures err { IfErr result (λ e. e.1 ≡ ticket) }
        ensures none { self.old.session ≡ None → result ≡ Err (OfferRefusal.Closed, ticket) }
        ensures number { self.new.number ≡ self.old.number }
        ensures claims { Holds claims.new (beside (left_by_offer result) errands.now.items) }
    {
        let Place { session, logger } = self;
        enter(book, &mut logger.pass, claims.value(book));
        let result = steps::offer(&mut *session, ticket, now, made);
        let offered = Offered {
            result: &result,
            errands,
        };
        *claims = logger.log::<_, _, Left>(book, &*session, &offered);
        result
    }

    /// Asks the server to discard a dispatch.
    pub fn recall(
        &mut self,
        book: &Book<B>,
        recall: Recall,
        claim: Pass<B>,
        now: u64,
        made: &mut u64,
    ) -> Recalled
        requires number { self.old.number ≡ recall.server }
        requires claim { Holds claim (alone (Some (recall_of recall))) }
        ensures event { Makes self.old.session self.new.session (λ p q. RecallStep p recall now result q) }
        ensures counted { Counts (held self.old.session) (held self.new.session) made.old made.new }
        ensures none { self.old.session ≡ None → result ≡ Recalled.Stale }
        ensures number { self.new.number ≡ self.old.number }
    {
        let Place { session, logger } = self;
        enter(book, &mut logger.pass, claim);
        let result = steps::recall(&mut *session, recall, now, made);
        let _none = logger.log::<_, _, Nothing>(book, &*session, &());
        result
    }

    /// Hands a reading of the clock in.
    pub fn clock(&mut self, book: &Book<B>, now: u64, made: &mut u64) -> Result<(), StepRefusal>
        ensures event { Makes self.old.session self.new.session (λ p q. NoteStep p (ClockCall now) result q) }
        ensures counted { Counts (held self.old.session) (held self.new.session) made.old made.new }
        ensures none { self.old.session ≡ None → result ≡ Err StepRefusal.Closed }
        ensures number { self.new.number ≡ self.old.number }
    {
        let Place { session, logger } = self;
        let result = steps::clock(&mut *session, now, made);
        let _none = logger.log::<_, _, Nothing>(book, &*session, &());
        result
    }

    /// The session takes no more dispatches.
    pub fn retire(&mut self, book: &Book<B>, now: u64, made: &mut u64) -> Result<(), StepRefusal>
        ensures event { Makes self.old.session self.new.session (λ p q. NoteStep p (RetireCall now) result q) }
        ensures counted { Counts (held self.old.session) (held self.new.session) made.old made.new }
        ensures none { self.old.session ≡ None → result ≡ Err StepRefusal.Closed }
        ensures number { self.new.number ≡ self.old.number }
    {
        let Place { session, logger } = self;
        let result = steps::retire(&mut *session, now, made);
        let _none = logger.log::<_, _, Nothing>(book, &*session, &());
        result
    }

    /// Sends a ping.
    pub fn ping(&mut self, book: &Book<B>, now: u64, made: &mut u64) -> Result<(), PingRefusal>
        ensures event { Makes self.old.session self.new.session (λ p q. PingStep p (PingCall now) result q) }
        ensures counted { Counts (held self.old.session) (held self.new.session) made.old made.new }
        ensures none { self.old.session ≡ None → result ≡ Err PingRefusal.Closed }
        ensures number { self.new.number ≡ self.old.number }
    {
        let Place { session, logger } = self;
        let result = steps::ping(&mut *session, now, made);
        let _none = logger.log::<_, _, Nothing>(book, &*session, &());
        result
    }

    /// The connection is lost.
    pub fn lose(&mut self, book: &Book<B>, now: u64, made: &mut u64)
        ensures event { Makes self.old.session self.new.session (λ p q. LoseStep p now q) }
        ensures counted { Counts (held self.old.session) (held self.new.session) made.old made.new }
        ensures number { self.new.number ≡ self.old.number }
    {
        let Place { session, logger } = self;
        steps::lose(&mut *session, now, made);
        let _none = logger.log::<_, _, Nothing>(book, &*session, &());
    }

    /// The next dispatch of a closed session whose answer can't come any more.
    pub fn lose_next(&mut self, book: &Book<B>, made: &mut u64) -> (Option<Lost>, Pass<B>)
        ensures event { Makes self.old.session self.new.session (λ p q. LoseNextStep p result.0 q) }
        ensures counted { Counts (held self.old.session) (held self.new.session) made.old made.new }
        ensures none { self.old.session ≡ None → result.0 ≡ None }
        ensures number { self.new.number ≡ self.old.number }
        ensures claim { Holds result.1 (alone (lost_if result.0)) }
    {
        let Place { session, logger } = self;
        let result = steps::lose_next(&mut *session, made);
        let claim = logger.log::<_, _, Losses>(book, &*session, &result);
        (result, claim)
    }

    /// The next frame to be sent.
    pub fn take_out(&mut self, book: &Book<B>) -> Option<Frame>
        ensures event { Makes self.old.session self.new.session (λ p q. TakeOutStep p result q) }
        ensures none { self.old.session ≡ None → result ≡ None }
        ensures number { self.new.number ≡ self.old.number }
    {
        let Place { session, logger } = self;
        let result = steps::take_out(&mut *session);
        let _none = logger.log::<_, _, Nothing>(book, &*session, &());
        result
    }

    /// All frames to be sent, by one exchange. So many came; the pass knows a log whose last move took
    /// them out.
    #[inline(always)]
    pub fn take_outs(
        &mut self,
        book: &Book<B>,
        server: ServerId,
        frames: &mut VecDeque<Frame>,
    ) -> (usize, Pass<B>)
        requires number { self.old.number ≡ server }
        ensures event { TakesOut self.old.session self.new.session frames.old.items (deque_capacity frames.old)
            frames.new.items result.0 }
        ensures number { self.new.number ≡ self.old.number }
        ensures gone { 0 < result.0 → IsGone B.terms (SessionId.Server server) (frames_of frames.new.items) result.1 }
    {
        let Place { session, logger } = self;
        if session.is_none() {
            return (0, logger.pass.note(book));
        }
        let came = steps::take_outs(&mut *session, frames);
        let gone = Gone {
            session: SessionId::Server(server),
            came,
            frames: &*frames,
        };
        let known = logger.log::<_, _, WentOut<B>>(book, &*session, &gone);
        (came, known)
    }

    /// Ends the present epoch in this way. The empty history that is handed in takes the next one.
    pub fn end_epoch(
        &mut self,
        book: &Book<B>,
        how: EpochEnd,
        fresh: History,
        made: &mut u64,
    ) -> Result<(), EpochRefused>
        ensures event { Ends self.old.session self.new.session how fresh result }
        ensures counted { OnOk result (made.new ≡ min (made.old + 1) (2 ^ 64 - 1)) }
        ensures more { made.old ≤ made.new }
        ensures err { OnErr result (made.new ≡ made.old) }
        ensures spare { IfErr result (λ e. e.fresh ≡ fresh) }
        ensures number { self.new.number ≡ self.old.number }
    {
        let Place { session, logger } = self;
        let result = steps::end_epoch(&mut *session, how, fresh, made);
        let _none = logger.log::<_, _, Nothing>(book, &*session, &());
        result
    }

    /// Gives the histories up that have ended, the oldest first, into the list that is handed in.
    pub fn take_ended(&mut self, ended: &mut Vec<History>) -> Option<u32>
        ensures event { TakesEnded self.old.session self.new.session ended.old.items (vec_capacity ended.old)
            ended.new.items result }
        ensures number { self.new.number ≡ self.old.number }
    {
        steps::take_ended(&mut self.session, ended)
    }

    /// Takes the session out that is over, with all its histories. None, and it stays, if it isn't over.
    pub fn take_finished(&mut self) -> Option<KeptClientSession>
        ensures event { Leaves self.old.session self.new.session result }
        ensures number { self.new.number ≡ self.old.number }
    {
        steps::take_finished(&mut self.session)
    }
}
