//! A slot for a session towards a client.
//!
//! Its twin is `up_slot`: heads are alike, each body is a few calls of the steps of its side.
ghost use Rattle.std.specs.Prelude.{◌⊎◌, Option, ◌≡◌, ◌≢◌, ◌≤◌, ◌<◌, ◌+◌, ◌-◌, ◌^◌, ◌∷◌, [], ℕ, length, min, OnOk, OnErr, Err, IfOk, IfErr, IfSome, IsTrue, None, Some, take, vec_capacity};
ghost use Rattle.std.specs.Option.{ForSome};
ghost use Rattle.std.specs.VecDeque.{deque_capacity};
ghost use Rattle.mux_frame.specs.Views.{FrameView};
ghost use Rattle.mux_history.specs.declared.session.SessionId.{SessionId};
ghost use Rattle.kept_session.specs.RecordedDown.{IsRecordOfDown};
ghost use Rattle.hub_base.specs.Batching.{handed_back};
ghost use Rattle.hub_base.specs.Errands.{client_at};
ghost use Rattle.hub_steps.specs.Batches.{AnswersDown, Takes, TakesAllDown};
ghost use Rattle.kept_session.specs.ReachedDown.{KeptDown};
ghost use Rattle.hub_steps.specs.Down.{EndsDown, MayKeepDown, TakesOutDown};
ghost use Rattle.hub_steps.specs.Figures.{ShowsDown};
ghost use Rattle.hub_steps.specs.Giving.{TakesEndedDown};
ghost use Rattle.hub_steps.specs.Leaving.{LeavesDown};
ghost use Rattle.hub_steps.specs.Records.{CountsDown, down_past};
ghost use Rattle.hub_slots.specs.Ending.{IsEarly};
ghost use Rattle.hub_slots.specs.Locked.{LockedDown};
ghost use Rattle.hub_places.specs.Numbering.{KeepsDown};
ghost use Rattle.hub_places.specs.Seating.{AtHome};
ghost use Rattle.hub_slots.specs.Showing.{ShowsNumbered};
ghost use Rattle.mux_model.specs.Steps.{LostOf};
ghost use Rattle.server_session.specs.Belonging.{Belongs};
ghost use Rattle.server_session.specs.Inside.{frames_of};
ghost use Rattle.server_session.specs.Past.{begun};
ghost use Rattle.server_session.specs.Steps.{DrainStep, FailStep, LoseNextStep, LoseStep, TakeOutStep};
ghost use Rattle.hub_log.specs.Moves.{slot_of};
ghost use Rattle.hub_places.specs.Holding.{HasClaims, Holds, IsGone, alone, recall_if};

use hub_base::{AdaptiveMutex, Backlog, Batch, Errands, Gate, HubFault, Rest};
use hub_close::Receipts;
use hub_log::{Book, Pass, Room};
use hub_places::{Place, Places};
use hub_steps::{DownFigures, down_counts, down_figures, down_records, down_steps as steps};
use kept_session::{EpochEnd, EpochRefusal, EpochRefused, KeptServerSession};
use mux_frame::Frame;
use mux_history::{History, KindCounts, Record, SessionId};
use server_session::{Answer, DrainRefusal};
use std::alloc::{AllocError, Global};
use std::collections::VecDeque;
use std::sync::Wait;
use std::sync::atomic::{AtomicBool, Ordering};
use translate_book::{Lost, Recall};

/// Of its places for records this share, 1 in so many, is written before a session is rolled that nobody asked for.
const LEAST_SHARE: usize = 8;

/// A slot for a session towards a client, under a lock of its own. In each call `now` is a reading of the
/// clock, in milliseconds since the router's start.
///
/// It serves one client after another. A call that is made for a client, as from its connection, or that brings a
/// value which names it, is as that of a slot with no session if the session there is another's. The calls
/// with `any` are about whoever is there.
///
/// Each call but `wants_rest`, `is_backlogged`, `has_ended` and `into_seated` waits for the lock, lends what it keeps to
/// the step of its name, and lets go of it. Those that make records add their number to `made`, and
/// show the session's figures before they let go of it.
#[derive(Drop)]
pub struct DownSlot<B: Room> {
    lock: AdaptiveMutex<Places<KeptServerSession, B>>,
    rest: Rest,
    backlog: Backlog,
    // Whether histories have ended that the session hasn't given up.
    has_ended: AtomicBool,
}

impl<B: Room> DownSlot<B> {
    /// A slot with no session, which stands at this place among all, with the pass that adds for it alone. Each session
    /// has too many bytes queued above `most`.
    pub fn new(home: u64, pass: Pass<B>, most: u64) -> DownSlot<B>
        requires fresh { (pass.seen ≡ []) × (pass.told ≡ []) × (pass.hands ≡ []) }
        requires home { AtHome (Some home) pass }
    {
        DownSlot {
            // Clients are numbered from 1.
            lock: AdaptiveMutex::new(Places::new(Place::new(0, home, pass))),
            rest: Rest::new(),
            backlog: Backlog::new(most),
            has_ended: AtomicBool::new(false),
        }
    }

    /// Puts this client's session in, which was just opened: whether it did. It doesn't, and drops the session, if the
    /// slot has one, if it doesn't stand at `at`, or had a client of this number or of a greater one.
    pub fn put<R: Wait>(
        &self,
        rt: &R,
        book: &Book<B>,
        client: u64,
        at: u64,
        session: KeptServerSession,
    ) -> bool
        requires begun { Belongs session.state
            (begun (record { limits = B.terms.limits; boot = B.terms.boot; number = client })) }
        requires slot { slot_of B.terms (SessionId.Client client) ≡ at }
    {
        let mut seated = self.lock.lock(rt);
        let is_in = seated.own.put(book, client, at, session);
        if is_in {
            // None of its histories has ended.
            self.has_ended.store(false, Ordering::SeqCst);
            self.backlog.show(0, 0);
            steps::show(&self.rest, seated.own.session());
        }
        is_in
    }

    /// Takes the client's session out, with all its histories, if it is closed and no dispatch waits for anything.
    pub fn take_finished<R: Wait>(
        &self,
        rt: &R,
        book: &Book<B>,
        client: u64,
    ) -> Option<KeptServerSession>
        ensures { (s : Option KeptDown) × (t : Option KeptDown) × LeavesDown s t result
            × KeepsDown client s × KeepsDown client t }
    {
        let mut seated = self.lock.lock(rt);
        let place = seated.of(book, client);
        place.kept(client);
        let session = place.take_finished();
        if session.is_some() {
            self.has_ended.store(false, Ordering::SeqCst);
            // Nobody is there whose epoch should end.
            self.rest.show(1, 0);
        }
        place.kept(client);
        session
    }

    /// Whether at most a quarter of the session's places for records were free after its last step,
    /// each held dispatch counted with all records that it may still need. It asks for no lock.
    pub fn wants_rest(&self) -> bool {
        self.rest.is_wanted()
    }

    /// Whether more bytes of replies wait to be sent than should, after the session's last step. It asks for no lock.
    pub fn is_backlogged(&self) -> bool {
        self.backlog.is_over()
    }

    /// The steps of the frames of a batch that has no values yet, under one lock, up to the first that is refused. Their
    /// receipts are kept, and what they give is held by the batch; the pass that comes with it has a claim for each value.
    pub fn start_all<G: Gate, R: Wait>(
        &self,
        rt: &R,
        book: &Book<B>,
        gate: &G,
        client: u64,
        batch: &mut Batch,
        receipts: &mut Receipts,
        now: u64,
    ) -> (Result<(), HubFault>, Pass<B>)
        requires none { batch.old.errands ≡ [] }
        ensures event { OnOk result.0 ((s : Option KeptDown) × (t : Option KeptDown)
            × KeepsDown client s × KeepsDown client t × TakesAllDown now s t batch.old batch.new receipts.old receipts.new) }
        ensures stopped { IfErr result.0 (λ e. (f : FrameView) × (handed_back e ≡ Some f)
            × (s : Option KeptDown) × (t : Option KeptDown) × KeepsDown client s × KeepsDown client t
            × TakesAllDown now s t batch.old
            (record batch.new { frames = f ∷ batch.new.frames }) receipts.old receipts.new) }
        ensures took { OnOk result.0 (Takes IsRecordOfDown batch.old.frames
            batch.new.frames receipts.old.list receipts.new.list) }
        ensures all { OnOk result.0 (length batch.new.frames ≡ 0) }
        ensures refused { IfErr result.0 (λ e. (f : FrameView) × (handed_back e ≡ Some f)
            × Takes IsRecordOfDown batch.old.frames (f ∷ batch.new.frames)
            receipts.old.list receipts.new.list) }
        ensures read { IfErr result.0 (λ e. IfSome (handed_back e) (λ f. IsTrue f.as_read)) }
        ensures shut { IfErr result.0 (λ e. (f : FrameView) → e ≡ HubFault.GateShut f
            → G.may_shut gate.now (SessionId.Client client)) }
        ensures full { IfErr result.0 (λ e. (f : FrameView) → e ≡ HubFault.SeatFull f
            → receipts.old.room ≤ length receipts.new.list) }
        ensures same { receipts.new ≡ record receipts.old { list = receipts.new.list } }
        ensures grown { length receipts.old.list ≤ length receipts.new.list }
        ensures claims { HasClaims result.1 batch.new.errands }
    {
        let mut seated = self.lock.lock(rt);
        let place = seated.of(book, client);
        place.kept(client);
        let result = place.start_all(book, gate, client, batch, receipts, now);
        place.kept(client);
        steps::show(&self.rest, place.session());
        result
    }

    /// Hands all values on that go to this client, under one lock. The pass has a claim for each value of the batch.
    pub fn answer_all<R: Wait>(
        &self,
        rt: &R,
        book: &Book<B>,
        client: u64,
        errands: &mut Errands,
        claims: &mut Pass<B>,
        made: &mut u64,
    )
        requires claims { HasClaims claims.old errands.old.items }
        ensures event { (s : Option KeptDown) × (t : Option KeptDown)
            × AnswersDown client s errands.old.items t errands.new.items × KeepsDown client s × KeepsDown client t }
        ensures gone { (i : ℕ) → client_at errands.new.items i ≢ Some client }
        ensures more { made.old ≤ made.new }
        ensures same { (length errands.new.items ≡ length errands.old.items) × (errands.new.room ≡ errands.old.room) }
        ensures claims { HasClaims claims.new errands.new.items }
    {
        let mut seated = self.lock.lock(rt);
        let place = seated.of(book, client);
        place.kept(client);
        let before = errands.taken();
        place.answer_all(book, client, errands, claims, made);
        place.kept(client);
        let more = errands.taken().wrapping_sub(before);
        self.backlog
            .show(steps::queued_by(seated.own.session()), more);
        steps::show(&self.rest, seated.own.session());
    }

    /// The server that a dispatch was sent to is gone.
    pub fn fail<R: Wait>(
        &self,
        rt: &R,
        book: &Book<B>,
        lost: Lost,
        claim: Pass<B>,
        made: &mut u64,
    ) -> Result<Answer, Lost>
        requires claim { Holds claim (alone (Some (LostOf lost.name))) }
        ensures event { LockedDown (KeepsDown lost.name.client) (λ p q. FailStep p lost result q) (result ≡ Err lost) }
        ensures more { made.old ≤ made.new }
    {
        let mut seated = self.lock.lock(rt);
        let client = lost.name().client;
        let place = seated.of(book, client);
        place.kept(client);
        let result = place.fail(book, lost, claim, made);
        place.kept(client);
        steps::show(&self.rest, place.session());
        result
    }

    /// Asks the client to send no more dispatches.
    pub fn drain<R: Wait>(
        &self,
        rt: &R,
        book: &Book<B>,
        client: u64,
        made: &mut u64,
    ) -> Result<(), DrainRefusal>
        ensures event { LockedDown (KeepsDown client) (λ p q. DrainStep p result q)
            (result ≡ Err DrainRefusal.Closed) }
        ensures more { made.old ≤ made.new }
    {
        let mut seated = self.lock.lock(rt);
        let place = seated.of(book, client);
        place.kept(client);
        let result = place.drain(book, made);
        place.kept(client);
        steps::show(&self.rest, place.session());
        result
    }

    /// The connection is lost.
    pub fn lose<R: Wait>(&self, rt: &R, book: &Book<B>, client: u64, now: u64, made: &mut u64)
        ensures event { LockedDown (KeepsDown client) (λ p q. LoseStep p now q) (Unit {0}) }
        ensures more { made.old ≤ made.new }
    {
        let mut seated = self.lock.lock(rt);
        let place = seated.of(book, client);
        place.kept(client);
        place.lose(book, now, made);
        place.kept(client);
        steps::show(&self.rest, place.session());
    }

    /// The recall of the next dispatch of a closed session that owes one.
    pub fn lose_next<R: Wait>(
        &self,
        rt: &R,
        book: &Book<B>,
        client: u64,
        made: &mut u64,
    ) -> (Option<Recall>, Pass<B>)
        ensures event { LockedDown (KeepsDown client) (λ p q. LoseNextStep p result.0 q) (result.0 ≡ None) }
        ensures claim { Holds result.1 (alone (recall_if result.0)) }
        ensures more { made.old ≤ made.new }
    {
        let mut seated = self.lock.lock(rt);
        let place = seated.of(book, client);
        place.kept(client);
        let result = place.lose_next(book, made);
        place.kept(client);
        steps::show(&self.rest, place.session());
        result
    }

    /// The next frame to be sent.
    pub fn take_out<R: Wait>(&self, rt: &R, book: &Book<B>, client: u64) -> Option<Frame>
        ensures { LockedDown (KeepsDown client) (λ p q. TakeOutStep p result q) (result ≡ None) }
    {
        let mut seated = self.lock.lock(rt);
        let place = seated.of(book, client);
        place.kept(client);
        let frame = place.take_out(book);
        place.kept(client);
        self.backlog.show(steps::queued_by(seated.own.session()), 0);
        frame
    }

    /// All frames to be sent, by one exchange. So many came; the pass knows a log whose last move took them out.
    pub fn take_outs<R: Wait>(
        &self,
        rt: &R,
        book: &Book<B>,
        client: u64,
        frames: &mut VecDeque<Frame>,
    ) -> (usize, Pass<B>)
        ensures event { (s : Option KeptDown) × (t : Option KeptDown)
            × TakesOutDown s t frames.old.items (deque_capacity frames.old) frames.new.items result.0
            × KeepsDown client s × KeepsDown client t }
        ensures gone { 0 < result.0 → IsGone B.terms (SessionId.Client client) (frames_of frames.new.items) result.1 }
    {
        let mut seated = self.lock.lock(rt);
        let place = seated.of(book, client);
        place.kept(client);
        let taken = place.take_outs(book, client, frames);
        place.kept(client);
        self.backlog.show(steps::queued_by(seated.own.session()), 0);
        taken
    }

    /// Ends the present epoch of the client in this way. The empty history that is handed in takes the next one.
    pub fn end_epoch<R: Wait>(
        &self,
        rt: &R,
        book: &Book<B>,
        client: u64,
        how: EpochEnd,
        fresh: History,
        made: &mut u64,
    ) -> Result<(), EpochRefused>
        ensures event { (s : Option KeptDown) × (t : Option KeptDown) × EndsDown s t how fresh result
            × KeepsDown client s × KeepsDown client t }
        ensures counted { OnOk result (made.new ≡ min (made.old + 1) (2 ^ 64 - 1)) }
        ensures more { made.old ≤ made.new }
        ensures err { OnErr result (made.new ≡ made.old) }
        ensures spare { IfErr result (λ e. e.fresh ≡ fresh) }
    {
        let mut seated = self.lock.lock(rt);
        self.end_in(book, seated.of(book, client), how, fresh, made)
    }

    /// The same of whoever is there. A session isn't rolled while so little is written that it would get few places by it.
    pub fn end_any<R: Wait>(
        &self,
        rt: &R,
        book: &Book<B>,
        how: EpochEnd,
        fresh: History,
        made: &mut u64,
    ) -> Result<(), EpochRefused>
        ensures event { (s : Option KeptDown) × (t : Option KeptDown)
            × (EndsDown s t how fresh result ⊎ IsEarly s t how fresh result) × MayKeepDown s × MayKeepDown t }
        ensures counted { OnOk result (made.new ≡ min (made.old + 1) (2 ^ 64 - 1)) }
        ensures more { made.old ≤ made.new }
        ensures err { OnErr result (made.new ≡ made.old) }
        ensures spare { IfErr result (λ e. e.fresh ≡ fresh) }
    {
        let mut seated = self.lock.lock(rt);
        let place = &mut seated.own;
        if how == EpochEnd::Roll && place.held() < fresh.room() / LEAST_SHARE {
            let why = EpochRefusal::Early;
            return Err(EpochRefused { why, fresh });
        }
        self.end_in(book, place, how, fresh, made)
    }

    fn end_in(
        &self,
        book: &Book<B>,
        place: &mut Place<KeptServerSession, B>,
        how: EpochEnd,
        fresh: History,
        made: &mut u64,
    ) -> Result<(), EpochRefused>
        ensures event { EndsDown place.old.session place.new.session how fresh result
            × KeepsDown place.old.number place.old.session × KeepsDown place.old.number place.new.session }
        ensures counted { OnOk result (made.new ≡ min (made.old + 1) (2 ^ 64 - 1)) }
        ensures more { made.old ≤ made.new }
        ensures err { OnErr result (made.new ≡ made.old) }
        ensures spare { IfErr result (λ e. e.fresh ≡ fresh) }
    {
        let client = place.number();
        place.kept(client);
        let result = place.end_epoch(book, how, fresh, made);
        self.show_ended(result.is_ok());
        place.kept(client);
        steps::show(&self.rest, place.session());
        result
    }

    // Shows that a history has ended, if one has.
    fn show_ended(&self, has_ended: bool) {
        if has_ended {
            self.has_ended.store(true, Ordering::SeqCst);
        }
    }

    /// Whether histories of the session have ended that it hasn't given up. It asks for no lock.
    pub fn has_ended(&self) -> bool {
        self.has_ended.load(Ordering::Relaxed)
    }

    /// Gives those histories up, the oldest first, into the list that is handed in: the number of the first one's
    /// epoch. None, and nothing is done, if the slot has no session, or none has ended, or the list isn't empty, or
    /// has no room.
    pub fn take_ended<R: Wait>(
        &self,
        rt: &R,
        book: &Book<B>,
        client: u64,
        ended: &mut Vec<History>,
    ) -> Option<u32>
        ensures { (s : Option KeptDown) × (t : Option KeptDown)
            × TakesEndedDown s t ended.old.items (vec_capacity ended.old) ended.new.items result
            × KeepsDown client s × KeepsDown client t }
    {
        let mut seated = self.lock.lock(rt);
        let place = seated.of(book, client);
        place.kept(client);
        let first = place.take_ended(ended);
        if first.is_some() {
            self.has_ended.store(false, Ordering::SeqCst);
        }
        place.kept(client);
        first
    }

    /// What an operator is shown of the session. None if the slot has none.
    pub fn shown<R: Wait>(&self, rt: &R, book: &Book<B>, client: u64) -> Option<DownFigures>
        ensures { (s : Option KeptDown) × ShowsDown s result × KeepsDown client s }
    {
        let mut seated = self.lock.lock(rt);
        let place = seated.of(book, client);
        place.kept(client);
        down_figures(place.session())
    }

    /// The same of whoever is there, with that client's number.
    pub fn shown_any<R: Wait>(&self, rt: &R) -> Option<(u64, DownFigures)>
        ensures { (s : Option KeptDown) × ShowsNumbered s result × MayKeepDown s }
    {
        let seated = self.lock.lock(rt);
        let place = &seated.own;
        let client = place.number();
        place.kept(client);
        let figures = down_figures(place.session())?;
        Some((client, figures))
    }

    /// The first records of the session over all its epochs, the oldest first, at most `most`: none if the slot has no
    /// session. They are copied under the lock. Out of memory is the one error.
    pub fn records<R: Wait>(
        &self,
        rt: &R,
        book: &Book<B>,
        client: u64,
        alloc: Global,
        most: usize,
    ) -> Result<Vec<Record>, AllocError>
        ensures { IfOk result (λ v. (s : Option KeptDown) × (v.items ≡ take most (down_past s)) × KeepsDown client s) }
    {
        let mut seated = self.lock.lock(rt);
        let place = seated.of(book, client);
        place.kept(client);
        down_records(place.session(), alloc, most)
    }

    /// How many records of the session that is there, over all its epochs, are of each kind that is counted. None if the slot
    /// has no session.
    pub fn counts_any<R: Wait>(&self, rt: &R) -> Option<KindCounts>
        ensures { (s : Option KeptDown) × CountsDown s result × MayKeepDown s }
    {
        let seated = self.lock.lock(rt);
        let place = &seated.own;
        place.kept(place.number());
        down_counts(place.session())
    }

    /// The session that the slot keeps, if it has one, with its client's number.
    pub fn into_seated(self) -> Option<(u64, KeptServerSession)>
        ensures { ForSome result (λ r. r.1.state.client ≡ r.0) }
    {
        let DownSlot { lock, .. } = self;
        let Places { own, .. } = lock.into_inner();
        own.into_session()
    }
}
