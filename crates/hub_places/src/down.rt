//! What is done with the place of a session towards a client.
//!
//! Its twin is `up`: heads are alike, each body is a function of the steps of its side, and the log.
ghost use Rattle.std.specs.Prelude.{Option, ◌≡◌, ◌≢◌, ◌≤◌, ◌<◌, ◌+◌, ◌-◌, ◌^◌, ◌∷◌, [], ℕ, length, min, OnOk, OnErr, Err, IfErr, IfSome, IsTrue, None, Some, true, false, vec_capacity};
ghost use Rattle.std.specs.VecDeque.{deque_capacity};
ghost use Rattle.mux_frame.specs.Views.{FrameView};
ghost use Rattle.mux_history.specs.declared.session.SessionId.{SessionId};
ghost use Rattle.mux_model.specs.Steps.{LostOf};
ghost use Rattle.server_session.specs.Belonging.{Belongs};
ghost use Rattle.server_session.specs.Inside.{frames_of};
ghost use Rattle.server_session.specs.Past.{begun};
ghost use Rattle.server_session.specs.Steps.{DrainStep, FailStep, LoseNextStep, LoseStep, TakeOutStep};
ghost use Rattle.hub_base.specs.Batching.{handed_back};
ghost use Rattle.hub_base.specs.Errands.{client_at};
ghost use Rattle.hub_steps.specs.Batches.{AnswersDown, TakesAllDown};
ghost use Rattle.hub_steps.specs.Down.{EndsDown, MakesDown, TakesOutDown, held_down};
ghost use Rattle.hub_steps.specs.Counts.{Counts};
ghost use Rattle.hub_steps.specs.Giving.{TakesEndedDown};
ghost use Rattle.hub_steps.specs.Leaving.{LeavesDown};
ghost use Rattle.hub_log.specs.Moves.{slot_of};
ghost use Rattle.hub_places.specs.Holding.{HasClaims, Holds, IsGone, alone, recall_if};
ghost use Rattle.hub_places.specs.Numbering.{KeepsDown};

use crate::goals::{Claimed, Gone, Nothing, Recalls, WentOut};
use crate::log::enter;
use crate::place::{Place, may_begin};
use hub_base::{Batch, Errands, Gate, HubFault};
use hub_close::Receipts;
use hub_log::{Book, Pass, Room};
use hub_steps::down_batch::{answer_all, start_all};
use hub_steps::down_steps as steps;
use kept_session::{EpochEnd, EpochRefused, KeptServerSession};
use mux_frame::Frame;
use mux_history::{History, SessionId};
use server_session::{Answer, DrainRefusal};
use std::collections::VecDeque;
use translate_book::{Lost, Recall};

impl<B: Room> Place<KeptServerSession, B> {
    /// Lends what is so of each place: it keeps a session of its number in a state that its calls led to, or none.
    #[inline(always)]
    pub fn kept(&self, client: u64)
        requires { self.now.number ≡ client }
        ensures { KeepsDown client self.now.session }
    {
        let _held = steps::held_by(&self.session);
    }

    /// Puts this client's session in, which was just opened: whether it did. It doesn't, and drops the session, if one is
    /// there, if this slot isn't at `at`, or if it had a client of this number or of a greater one.
    pub fn put(&mut self, book: &Book<B>, client: u64, at: u64, session: KeptServerSession) -> bool
        requires begun { Belongs session.state
            (begun (record { limits = B.terms.limits; boot = B.terms.boot; number = client })) }
        requires slot { slot_of B.terms (SessionId.Client client) ≡ at }
        ensures yes { result ≡ true → self.new ≡ record { number = client; session = Some session } }
        ensures no { result ≡ false → self.new ≡ self.old }
    {
        let Place {
            session: there,
            logger,
        } = self;
        if !may_begin(there.is_some(), logger.home, logger.next, client, at) {
            return false;
        }
        logger.number = client;
        logger.next = client + 1;
        *there = Some(session);
        let _none = logger.log::<_, _, Nothing>(book, &*there, &());
        true
    }

    /// The steps of the frames of a batch that has no values yet, up to the first that is refused: what they give is
    /// held by the batch, and the pass that comes with it has a claim for each value.
    #[inline(always)]
    pub fn start_all<G: Gate>(
        &mut self,
        book: &Book<B>,
        gate: &G,
        client: u64,
        batch: &mut Batch,
        receipts: &mut Receipts,
        now: u64,
    ) -> (Result<(), HubFault>, Pass<B>)
        requires none { batch.old.errands ≡ [] }
        ensures took { OnOk result.0 (TakesAllDown now self.old.session self.new.session batch.old batch.new
            receipts.old receipts.new) }
        ensures all { OnOk result.0 (length batch.new.frames ≡ 0) }
        ensures refused { IfErr result.0 (λ e. (f : FrameView) × (handed_back e ≡ Some f)
            × TakesAllDown now self.old.session self.new.session batch.old
            (record batch.new { frames = f ∷ batch.new.frames }) receipts.old receipts.new) }
        ensures read { IfErr result.0 (λ e. IfSome (handed_back e) (λ f. IsTrue f.as_read)) }
        ensures shut { IfErr result.0 (λ e. (f : FrameView) → e ≡ HubFault.GateShut f
            → G.may_shut gate.now (SessionId.Client client)) }
        ensures full { IfErr result.0 (λ e. (f : FrameView) → e ≡ HubFault.SeatFull f
            → receipts.old.room ≤ length receipts.new.list) }
        ensures number { self.new.number ≡ self.old.number }
        ensures claims { HasClaims result.1 batch.new.errands }
    {
        let Place { session, logger } = self;
        let result = start_all(gate, &mut *session, client, batch, receipts, now);
        let claims = logger.log::<_, _, Claimed>(book, &*session, &batch.errands);
        (result, claims)
    }

    /// Hands all values on that go to this client.
    #[inline(always)]
    pub fn answer_all(
        &mut self,
        book: &Book<B>,
        client: u64,
        errands: &mut Errands,
        claims: &mut Pass<B>,
        made: &mut u64,
    )
        requires number { self.old.number ≡ client }
        requires claims { HasClaims claims.old errands.old.items }
        ensures event { AnswersDown client self.old.session errands.old.items self.new.session errands.new.items }
        ensures gone { (i : ℕ) → client_at errands.new.items i ≢ Some client }
        ensures counted { Counts (held_down self.old.session) (held_down self.new.session) made.old made.new }
        ensures same { (length errands.new.items ≡ length errands.old.items) × (errands.new.room ≡ errands.old.room) }
        ensures number { self.new.number ≡ self.old.number }
        ensures claims { HasClaims claims.new errands.new.items }
    {
        let Place { session, logger } = self;
        enter(book, &mut logger.pass, claims.value(book));
        answer_all(&mut *session, client, errands, made);
        *claims = logger.log::<_, _, Claimed>(book, &*session, errands);
    }

    /// The server that a dispatch was sent to is gone.
    pub fn fail(
        &mut self,
        book: &Book<B>,
        lost: Lost,
        claim: Pass<B>,
        made: &mut u64,
    ) -> Result<Answer, Lost>
        requires number { self.old.number ≡ lost.name.client }
        requires claim { Holds claim (alone (Some (LostOf lost.name))) }
        ensures event { MakesDown self.old.session self.new.session (λ p q. FailStep p lost result q) }
        ensures counted { Counts (held_down self.old.session) (held_down self.new.session) made.old made.new }
        ensures err { IfErr result (λ e. e ≡ lost) }
        ensures none { self.old.session ≡ None → result ≡ Err lost }
        ensures number { self.new.number ≡ self.old.number }
    {
        let Place { session, logger } = self;
        enter(book, &mut logger.pass, claim);
        let result = steps::fail(&mut *session, lost, made);
        let _none = logger.log::<_, _, Nothing>(book, &*session, &());
        result
    }

    /// Asks the client to send no more dispatches.
    pub fn drain(&mut self, book: &Book<B>, made: &mut u64) -> Result<(), DrainRefusal>
        ensures event { MakesDown self.old.session self.new.session (λ p q. DrainStep p result q) }
        ensures counted { Counts (held_down self.old.session) (held_down self.new.session) made.old made.new }
        ensures none { self.old.session ≡ None → result ≡ Err DrainRefusal.Closed }
        ensures number { self.new.number ≡ self.old.number }
    {
        let Place { session, logger } = self;
        let result = steps::drain(&mut *session, made);
        let _none = logger.log::<_, _, Nothing>(book, &*session, &());
        result
    }

    /// The connection is lost.
    pub fn lose(&mut self, book: &Book<B>, now: u64, made: &mut u64)
        ensures event { MakesDown self.old.session self.new.session (λ p q. LoseStep p now q) }
        ensures counted { Counts (held_down self.old.session) (held_down self.new.session) made.old made.new }
        ensures number { self.new.number ≡ self.old.number }
    {
        let Place { session, logger } = self;
        steps::lose(&mut *session, now, made);
        let _none = logger.log::<_, _, Nothing>(book, &*session, &());
    }

    /// The recall of the next dispatch of a closed session that owes one.
    pub fn lose_next(&mut self, book: &Book<B>, made: &mut u64) -> (Option<Recall>, Pass<B>)
        ensures event { MakesDown self.old.session self.new.session (λ p q. LoseNextStep p result.0 q) }
        ensures counted { Counts (held_down self.old.session) (held_down self.new.session) made.old made.new }
        ensures none { self.old.session ≡ None → result.0 ≡ None }
        ensures number { self.new.number ≡ self.old.number }
        ensures claim { Holds result.1 (alone (recall_if result.0)) }
    {
        let Place { session, logger } = self;
        let result = steps::lose_next(&mut *session, made);
        let claim = logger.log::<_, _, Recalls>(book, &*session, &result);
        (result, claim)
    }

    /// The next frame to be sent.
    pub fn take_out(&mut self, book: &Book<B>) -> Option<Frame>
        ensures event { MakesDown self.old.session self.new.session (λ p q. TakeOutStep p result q) }
        ensures none { self.old.session ≡ None → result ≡ None }
        ensures number { self.new.number ≡ self.old.number }
    {
        let Place { session, logger } = self;
        let result = steps::take_out(&mut *session);
        let _none = logger.log::<_, _, Nothing>(book, &*session, &());
        result
    }

    /// All frames to be sent, by one exchange. So many came; the pass knows a log whose last move took
    /// them out.
    #[inline(always)]
    pub fn take_outs(
        &mut self,
        book: &Book<B>,
        client: u64,
        frames: &mut VecDeque<Frame>,
    ) -> (usize, Pass<B>)
        requires number { self.old.number ≡ client }
        ensures event { TakesOutDown self.old.session self.new.session frames.old.items (deque_capacity frames.old)
            frames.new.items result.0 }
        ensures number { self.new.number ≡ self.old.number }
        ensures gone { 0 < result.0 → IsGone B.terms (SessionId.Client client) (frames_of frames.new.items) result.1 }
    {
        let Place { session, logger } = self;
        if session.is_none() {
            return (0, logger.pass.note(book));
        }
        let came = steps::take_outs(&mut *session, frames);
        let gone = Gone {
            session: SessionId::Client(client),
            came,
            frames: &*frames,
        };
        let known = logger.log::<_, _, WentOut<B>>(book, &*session, &gone);
        (came, known)
    }

    /// Ends the present epoch in this way. The empty history that is handed in takes the next one.
    pub fn end_epoch(
        &mut self,
        book: &Book<B>,
        how: EpochEnd,
        fresh: History,
        made: &mut u64,
    ) -> Result<(), EpochRefused>
        ensures event { EndsDown self.old.session self.new.session how fresh result }
        ensures counted { OnOk result (made.new ≡ min (made.old + 1) (2 ^ 64 - 1)) }
        ensures more { made.old ≤ made.new }
        ensures err { OnErr result (made.new ≡ made.old) }
        ensures spare { IfErr result (λ e. e.fresh ≡ fresh) }
        ensures number { self.new.number ≡ self.old.number }
    {
        let Place { session, logger } = self;
        let result = steps::end_epoch(&mut *session, how, fresh, made);
        let _none = logger.log::<_, _, Nothing>(book, &*session, &());
        result
    }

    /// Gives the histories up that have ended, the oldest first, into the list that is handed in.
    pub fn take_ended(&mut self, ended: &mut Vec<History>) -> Option<u32>
        ensures event { TakesEndedDown self.old.session self.new.session ended.old.items (vec_capacity ended.old)
            ended.new.items result }
        ensures number { self.new.number ≡ self.old.number }
    {
        steps::take_ended(&mut self.session, ended)
    }

    /// Takes the session out that is over, with all its histories. None, and it stays, if it isn't over.
    pub fn take_finished(&mut self) -> Option<KeptServerSession>
        ensures event { LeavesDown self.old.session self.new.session result }
        ensures number { self.new.number ≡ self.old.number }
    {
        steps::take_finished(&mut self.session)
    }
}
