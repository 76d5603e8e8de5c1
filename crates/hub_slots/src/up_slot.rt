//! A slot for a session towards a server.
//!
//! Its twin is `down_slot`: heads are alike, each body is a few calls of the steps of its side.
ghost use Rattle.std.specs.Prelude.{Option, ◌≡◌, ◌≢◌, ◌≤◌, ◌<◌, ◌+◌, ◌-◌, ◌^◌, ◌∷◌, [], ℕ, length, min, OnOk, OnErr, Err, IfOk, IfErr, IfSome, IsTrue, None, Some, take, vec_capacity};
ghost use Rattle.std.specs.Option.{ForSome};
ghost use Rattle.std.specs.VecDeque.{deque_capacity};
ghost use Rattle.mux_frame.specs.Views.{FrameView};
ghost use Rattle.mux_history.specs.declared.session.SessionId.{SessionId};
ghost use Rattle.kept_session.specs.Recorded.{IsRecordOf};
ghost use Rattle.hub_base.specs.Batching.{handed_back};
ghost use Rattle.hub_base.specs.Errands.{server_at};
ghost use Rattle.hub_steps.specs.Batches.{ServesUp, Takes, TakesAllUp};
ghost use Rattle.kept_session.specs.Reached.{Kept};
ghost use Rattle.mux_model.specs.Steps.{ClockCall, PingCall, RetireCall};
ghost use Rattle.client_session.specs.Belonging.{Belongs};
ghost use Rattle.client_session.specs.Past.{begun};
ghost use Rattle.server_session.specs.Inside.{frames_of};
ghost use Rattle.server_session.specs.Steps.{recall_of, ticket_of};
ghost use Rattle.hub_log.specs.Moves.{slot_of};
ghost use Rattle.hub_places.specs.Holding.{HasClaims, Holds, IsGone, alone, beside, left_by_offer, lost_if};
ghost use Rattle.client_session.specs.Steps.{LoseNextStep, LoseStep, NoteStep, OfferStep, PingStep, RecallStep, TakeOutStep};
ghost use Rattle.hub_slots.specs.Locked.{LockedUp};
ghost use Rattle.hub_places.specs.Numbering.{KeepsUp};
ghost use Rattle.hub_places.specs.Seating.{AtHome};
ghost use Rattle.hub_steps.specs.Up.{Ends, MayKeep, TakesOut};
ghost use Rattle.hub_steps.specs.Figures.{ShowsUp};
ghost use Rattle.hub_steps.specs.Giving.{TakesEnded};
ghost use Rattle.hub_steps.specs.Leaving.{Leaves};
ghost use Rattle.hub_steps.specs.Records.{CountsUp, up_past};

use client_session::{PingRefusal, Recalled};
use hub_base::{AdaptiveMutex, Backlog, Batch, Errands, Gate, HubFault, Load, Rest};
use hub_close::Receipts;
use hub_log::{Book, Pass, Room};
use hub_places::{Place, Places};
use hub_steps::{UpCounts, UpFigures, up_counts, up_figures, up_records, up_steps as steps};
use kept_session::{EpochEnd, EpochRefused, KeptClientSession};
use mux_frame::Frame;
use mux_history::{History, Record, ServerId, SessionId};
use std::alloc::{AllocError, Global};
use std::collections::VecDeque;
use std::sync::Wait;
use std::sync::atomic::{AtomicBool, AtomicU64, Ordering};
use translate_book::{Lost, OfferRefusal, Placed, Recall, StepRefusal, Ticket};

/// A slot for a session towards a server, under a lock of its own. In each call `now` is a reading of the
/// clock, in milliseconds since the router's start.
///
/// It holds one session after another. A call that is made for one of them, as from its connection, or that brings a value
/// which names it, has its number, and is as that of a slot with no session if the session there is another one. An offer,
/// and the calls without a number, are about whoever is there.
///
/// Each call but `load`, `ask_last`, `last_until`, `number`, `wants_rest`, `is_backlogged`, `has_ended` and `into_seated`
/// waits for the lock, lends what it keeps to the step of its name, and lets go of it. Those that make records add their
/// number to `made`, and show the session's figures before they let go of it.
#[derive(Drop)]
pub struct UpSlot<B: Room> {
    lock: AdaptiveMutex<Places<KeptClientSession, B>>,
    // The number of the session that is there, or was there last.
    number: AtomicU64,
    load: Load,
    rest: Rest,
    backlog: Backlog,
    // Whether histories have ended that the session hasn't given up.
    has_ended: AtomicBool,
}

impl<B: Room> UpSlot<B> {
    /// A slot with no session, which stands at this place among all, with the pass that adds for it alone. Its first
    /// session has this number, and each has too many bytes queued above `most`.
    pub fn new(first: ServerId, home: u64, pass: Pass<B>, most: u64) -> UpSlot<B>
        requires fresh { (pass.seen ≡ []) × (pass.told ≡ []) × (pass.hands ≡ []) }
        requires home { AtHome (Some home) pass }
    {
        UpSlot {
            lock: AdaptiveMutex::new(Places::new(Place::new(first, home, pass))),
            number: AtomicU64::new(first),
            load: Load::new(),
            rest: Rest::new(),
            backlog: Backlog::new(most),
            has_ended: AtomicBool::new(false),
        }
    }

    /// Puts the session of this number in, which was just opened: whether it did. It doesn't, and drops the session, if
    /// the slot has one, if it doesn't stand at `at`, or had one of this number or of a greater one.
    pub fn put<R: Wait>(
        &self,
        rt: &R,
        book: &Book<B>,
        server: ServerId,
        at: u64,
        session: KeptClientSession,
    ) -> bool
        requires begun { Belongs session.state
            (begun (record { limits = B.terms.server_limits; number = server; mode = session.mode })) }
        requires slot { slot_of B.terms (SessionId.Server server) ≡ at }
    {
        let mut seated = self.lock.lock(rt);
        let is_in = seated.own.put(book, server, at, session);
        if is_in {
            // None of its histories has ended.
            self.number.store(server, Ordering::SeqCst);
            self.has_ended.store(false, Ordering::SeqCst);
            self.backlog.show(0, 0);
            steps::show(&self.load, &self.rest, seated.own.session());
        }
        is_in
    }

    /// Takes the session of this number out, with all its histories, if it is closed and holds no dispatch.
    pub fn take_finished<R: Wait>(
        &self,
        rt: &R,
        book: &Book<B>,
        server: ServerId,
    ) -> Option<KeptClientSession>
        ensures { (s : Option Kept) × (t : Option Kept) × Leaves s t result × KeepsUp server s × KeepsUp server t }
    {
        let mut seated = self.lock.lock(rt);
        let place = seated.of(book, server);
        place.kept(server);
        let session = place.take_finished();
        if session.is_some() {
            self.has_ended.store(false, Ordering::SeqCst);
            // Nobody is there whose epoch should end, and an offer comes last.
            self.rest.show(1, 0);
            steps::show(&self.load, &self.rest, place.session());
        }
        place.kept(server);
        session
    }

    /// The number of the session that is there, or was there last; before the first that of the first one. It asks for no
    /// lock.
    #[inline(always)]
    pub fn number(&self) -> ServerId {
        self.number.load(Ordering::Relaxed)
    }

    /// How many dispatches the session held after its last step; more than any holds if it is asked last at the reading
    /// `now`, and more than that if it takes none. It asks for no lock.
    #[inline(always)]
    pub fn load(&self, now: u64) -> u32 {
        self.load.get(now)
    }

    /// Its sessions are asked last up to this reading. It asks for no lock.
    pub fn ask_last(&self, until: u64) {
        self.load.ask_last(until);
    }

    /// The reading up to which its sessions are asked last. It asks for no lock.
    pub fn last_until(&self) -> u64 {
        self.load.last_until()
    }

    /// One dispatch more is to be offered: the load that is shown counts it, up to the next step.
    pub fn expect_one(&self) {
        self.load.expect_one();
    }

    /// Whether at most a quarter of the session's places for records were free after its last step,
    /// each held dispatch counted as two. It asks for no lock.
    pub fn wants_rest(&self) -> bool {
        self.rest.is_wanted()
    }

    /// Whether more bytes of dispatches wait to be sent than should, after the session's last step. It asks for no lock.
    pub fn is_backlogged(&self) -> bool {
        self.backlog.is_over()
    }

    /// The steps of the frames of a batch that has no values yet, under one lock, up to the first that is refused. Their
    /// receipts are kept, and what they give is held by the batch; the pass that comes with it has a claim for each value.
    pub fn start_all<G: Gate, R: Wait>(
        &self,
        rt: &R,
        book: &Book<B>,
        gate: &G,
        server: ServerId,
        batch: &mut Batch,
        receipts: &mut Receipts,
        now: u64,
    ) -> (Result<(), HubFault>, Pass<B>)
        requires none { batch.old.errands ≡ [] }
        ensures event { OnOk result.0 ((s : Option Kept) × (t : Option Kept) × KeepsUp server s × KeepsUp server t
            × TakesAllUp now s t batch.old batch.new receipts.old receipts.new) }
        ensures stopped { IfErr result.0 (λ e. (f : FrameView) × (handed_back e ≡ Some f)
            × (s : Option Kept) × (t : Option Kept) × KeepsUp server s × KeepsUp server t
            × TakesAllUp now s t batch.old
            (record batch.new { frames = f ∷ batch.new.frames }) receipts.old receipts.new) }
        ensures took { OnOk result.0 (Takes IsRecordOf batch.old.frames
            batch.new.frames receipts.old.list receipts.new.list) }
        ensures all { OnOk result.0 (length batch.new.frames ≡ 0) }
        ensures refused { IfErr result.0 (λ e. (f : FrameView) × (handed_back e ≡ Some f)
            × Takes IsRecordOf batch.old.frames (f ∷ batch.new.frames)
            receipts.old.list receipts.new.list) }
        ensures read { IfErr result.0 (λ e. IfSome (handed_back e) (λ f. IsTrue f.as_read)) }
        ensures shut { IfErr result.0 (λ e. (f : FrameView) → e ≡ HubFault.GateShut f
            → G.may_shut gate.now (SessionId.Server server)) }
        ensures full { IfErr result.0 (λ e. (f : FrameView) → e ≡ HubFault.SeatFull f
            → receipts.old.room ≤ length receipts.new.list) }
        ensures same { receipts.new ≡ record receipts.old { list = receipts.new.list } }
        ensures grown { length receipts.old.list ≤ length receipts.new.list }
        ensures claims { HasClaims result.1 batch.new.errands }
    {
        let mut seated = self.lock.lock(rt);
        let place = seated.of(book, server);
        place.kept(server);
        let result = place.start_all(book, gate, server, batch, receipts, now);
        place.kept(server);
        steps::show(&self.load, &self.rest, seated.own.session());
        result
    }

    /// Hands all values on that go to this server, under one lock. The pass has a claim for each value of the batch.
    pub fn serve_all<R: Wait>(
        &self,
        rt: &R,
        book: &Book<B>,
        server: ServerId,
        errands: &mut Errands,
        claims: &mut Pass<B>,
        now: u64,
        made: &mut u64,
    )
        requires claims { HasClaims claims.old errands.old.items }
        ensures event { (s : Option Kept) × (t : Option Kept)
            × ServesUp now server s errands.old.items t errands.new.items × KeepsUp server s × KeepsUp server t }
        ensures gone { (i : ℕ) → server_at errands.new.items i ≢ Some server }
        ensures more { made.old ≤ made.new }
        ensures same { (length errands.new.items ≡ length errands.old.items) × (errands.new.room ≡ errands.old.room) }
        ensures claims { HasClaims claims.new errands.new.items }
    {
        let mut seated = self.lock.lock(rt);
        let place = seated.of(book, server);
        place.kept(server);
        let before = errands.taken();
        place.serve_all(book, server, errands, claims, now, made);
        place.kept(server);
        let more = errands.taken().wrapping_sub(before);
        self.backlog
            .show(steps::queued_by(seated.own.session()), more);
        steps::show(&self.load, &self.rest, seated.own.session());
    }

    /// Offers a dispatch that was taken out of a batch to the session of this number, which takes it, or refuses it and
    /// hands it back. What that leaves in hand has a claim of the pass, beside the values of the batch.
    pub fn offer<R: Wait>(
        &self,
        rt: &R,
        book: &Book<B>,
        server: ServerId,
        ticket: Ticket,
        errands: &Errands,
        claims: &mut Pass<B>,
        now: u64,
        made: &mut u64,
    ) -> Result<Placed, (OfferRefusal, Ticket)>
        requires claims { Holds claims.old (beside (Some (ticket_of ticket)) errands.now.items) }
        ensures event { LockedUp (KeepsUp server) (λ p q. OfferStep p ticket now result q)
            (result ≡ Err (OfferRefusal.Closed, ticket)) }
        ensures more { made.old ≤ made.new }
        ensures err { IfErr result (λ e. e.1 ≡ ticket) }
        ensures claims { Holds claims.new (beside (left_by_offer result) errands.now.items) }
    {
        let mut seated = self.lock.lock(rt);
        let place = seated.of(book, server);
        place.kept(server);
        let more = ticket.frame().body_len();
        let result = place.offer(book, ticket, errands, claims, now, made);
        place.kept(server);
        self.backlog
            .show(steps::queued_by(seated.own.session()), more);
        steps::show(&self.load, &self.rest, seated.own.session());
        result
    }

    /// Asks the server to discard a dispatch.
    pub fn recall<R: Wait>(
        &self,
        rt: &R,
        book: &Book<B>,
        recall: Recall,
        claim: Pass<B>,
        now: u64,
        made: &mut u64,
    ) -> Recalled
        requires claim { Holds claim (alone (Some (recall_of recall))) }
        ensures event { LockedUp (KeepsUp recall.server) (λ p q. RecallStep p recall now result q)
            (result ≡ Recalled.Stale) }
        ensures more { made.old ≤ made.new }
    {
        let mut seated = self.lock.lock(rt);
        let server = recall.server();
        let place = seated.of(book, server);
        place.kept(server);
        let result = place.recall(book, recall, claim, now, made);
        place.kept(server);
        steps::show(&self.load, &self.rest, seated.own.session());
        result
    }

    /// Hands a reading of the clock in.
    pub fn clock<R: Wait>(
        &self,
        rt: &R,
        book: &Book<B>,
        now: u64,
        made: &mut u64,
    ) -> Result<(), StepRefusal>
        ensures event { LockedUp MayKeep (λ p q. NoteStep p (ClockCall now) result q)
            (result ≡ Err StepRefusal.Closed) }
        ensures more { made.old ≤ made.new }
    {
        let mut seated = self.lock.lock(rt);
        let place = &mut seated.own;
        let server = place.number();
        place.kept(server);
        let result = place.clock(book, now, made);
        place.kept(server);
        steps::show(&self.load, &self.rest, place.session());
        result
    }

    /// The session takes no more dispatches.
    pub fn retire<R: Wait>(
        &self,
        rt: &R,
        book: &Book<B>,
        now: u64,
        made: &mut u64,
    ) -> Result<(), StepRefusal>
        ensures event { LockedUp MayKeep (λ p q. NoteStep p (RetireCall now) result q)
            (result ≡ Err StepRefusal.Closed) }
        ensures more { made.old ≤ made.new }
    {
        let mut seated = self.lock.lock(rt);
        let place = &mut seated.own;
        let server = place.number();
        place.kept(server);
        let result = place.retire(book, now, made);
        place.kept(server);
        steps::show(&self.load, &self.rest, place.session());
        result
    }

    /// Sends a ping.
    pub fn ping<R: Wait>(
        &self,
        rt: &R,
        book: &Book<B>,
        server: ServerId,
        now: u64,
        made: &mut u64,
    ) -> Result<(), PingRefusal>
        ensures event { LockedUp (KeepsUp server) (λ p q. PingStep p (PingCall now) result q)
            (result ≡ Err PingRefusal.Closed) }
        ensures more { made.old ≤ made.new }
    {
        let mut seated = self.lock.lock(rt);
        let place = seated.of(book, server);
        place.kept(server);
        let result = place.ping(book, now, made);
        place.kept(server);
        steps::show(&self.load, &self.rest, seated.own.session());
        result
    }

    /// The connection is lost.
    pub fn lose<R: Wait>(&self, rt: &R, book: &Book<B>, server: ServerId, now: u64, made: &mut u64)
        ensures event { LockedUp (KeepsUp server) (λ p q. LoseStep p now q) (Unit {0}) }
        ensures more { made.old ≤ made.new }
    {
        let mut seated = self.lock.lock(rt);
        let place = seated.of(book, server);
        place.kept(server);
        place.lose(book, now, made);
        place.kept(server);
        steps::show(&self.load, &self.rest, seated.own.session());
    }

    /// The next dispatch of a closed session whose answer can't come any more.
    pub fn lose_next<R: Wait>(
        &self,
        rt: &R,
        book: &Book<B>,
        server: ServerId,
        made: &mut u64,
    ) -> (Option<Lost>, Pass<B>)
        ensures event { LockedUp (KeepsUp server) (λ p q. LoseNextStep p result.0 q) (result.0 ≡ None) }
        ensures claim { Holds result.1 (alone (lost_if result.0)) }
        ensures more { made.old ≤ made.new }
    {
        let mut seated = self.lock.lock(rt);
        let place = seated.of(book, server);
        place.kept(server);
        let result = place.lose_next(book, made);
        place.kept(server);
        steps::show(&self.load, &self.rest, seated.own.session());
        result
    }

    /// The next frame to be sent.
    pub fn take_out<R: Wait>(&self, rt: &R, book: &Book<B>, server: ServerId) -> Option<Frame>
        ensures { LockedUp (KeepsUp server) (λ p q. TakeOutStep p result q) (result ≡ None) }
    {
        let mut seated = self.lock.lock(rt);
        let place = seated.of(book, server);
        place.kept(server);
        let frame = place.take_out(book);
        place.kept(server);
        self.backlog.show(steps::queued_by(seated.own.session()), 0);
        frame
    }

    /// All frames to be sent, by one exchange. So many came; the pass knows a log whose last move took them out.
    pub fn take_outs<R: Wait>(
        &self,
        rt: &R,
        book: &Book<B>,
        server: ServerId,
        frames: &mut VecDeque<Frame>,
    ) -> (usize, Pass<B>)
        ensures event { (s : Option Kept) × (t : Option Kept)
            × TakesOut s t frames.old.items (deque_capacity frames.old) frames.new.items result.0
            × KeepsUp server s × KeepsUp server t }
        ensures gone { 0 < result.0 → IsGone B.terms (SessionId.Server server) (frames_of frames.new.items) result.1 }
    {
        let mut seated = self.lock.lock(rt);
        let place = seated.of(book, server);
        place.kept(server);
        let taken = place.take_outs(book, server, frames);
        place.kept(server);
        self.backlog.show(steps::queued_by(seated.own.session()), 0);
        taken
    }

    /// Ends the present epoch of the server in this way. The empty history that is handed in takes the next one.
    pub fn end_epoch<R: Wait>(
        &self,
        rt: &R,
        book: &Book<B>,
        server: ServerId,
        how: EpochEnd,
        fresh: History,
        made: &mut u64,
    ) -> Result<(), EpochRefused>
        ensures event { (s : Option Kept) × (t : Option Kept) × Ends s t how fresh result
            × KeepsUp server s × KeepsUp server t }
        ensures counted { OnOk result (made.new ≡ min (made.old + 1) (2 ^ 64 - 1)) }
        ensures more { made.old ≤ made.new }
        ensures err { OnErr result (made.new ≡ made.old) }
        ensures spare { IfErr result (λ e. e.fresh ≡ fresh) }
    {
        let mut seated = self.lock.lock(rt);
        self.end_in(book, seated.of(book, server), how, fresh, made)
    }

    /// The same of whoever is there.
    pub fn end_any<R: Wait>(
        &self,
        rt: &R,
        book: &Book<B>,
        how: EpochEnd,
        fresh: History,
        made: &mut u64,
    ) -> Result<(), EpochRefused>
        ensures event { (s : Option Kept) × (t : Option Kept) × Ends s t how fresh result × MayKeep s × MayKeep t }
        ensures counted { OnOk result (made.new ≡ min (made.old + 1) (2 ^ 64 - 1)) }
        ensures more { made.old ≤ made.new }
        ensures err { OnErr result (made.new ≡ made.old) }
        ensures spare { IfErr result (λ e. e.fresh ≡ fresh) }
    {
        let mut seated = self.lock.lock(rt);
        self.end_in(book, &mut seated.own, how, fresh, made)
    }

    fn end_in(
        &self,
        book: &Book<B>,
        place: &mut Place<KeptClientSession, B>,
        how: EpochEnd,
        fresh: History,
        made: &mut u64,
    ) -> Result<(), EpochRefused>
        ensures event { Ends place.old.session place.new.session how fresh result
            × KeepsUp place.old.number place.old.session × KeepsUp place.old.number place.new.session }
        ensures counted { OnOk result (made.new ≡ min (made.old + 1) (2 ^ 64 - 1)) }
        ensures more { made.old ≤ made.new }
        ensures err { OnErr result (made.new ≡ made.old) }
        ensures spare { IfErr result (λ e. e.fresh ≡ fresh) }
    {
        let server = place.number();
        place.kept(server);
        let result = place.end_epoch(book, how, fresh, made);
        self.show_ended(result.is_ok());
        place.kept(server);
        steps::show(&self.load, &self.rest, place.session());
        result
    }

    // Shows that a history has ended, if one has.
    fn show_ended(&self, has_ended: bool) {
        if has_ended {
            self.has_ended.store(true, Ordering::SeqCst);
        }
    }

    /// Whether histories of the session have ended that it hasn't given up. It asks for no lock.
    pub fn has_ended(&self) -> bool {
        self.has_ended.load(Ordering::Relaxed)
    }

    /// Gives those histories up, the oldest first, into the list that is handed in: the number of the first one's
    /// epoch. None, and nothing is done, if the slot has no session, or none has ended, or the list isn't empty, or
    /// has no room.
    pub fn take_ended<R: Wait>(
        &self,
        rt: &R,
        book: &Book<B>,
        server: ServerId,
        ended: &mut Vec<History>,
    ) -> Option<u32>
        ensures { (s : Option Kept) × (t : Option Kept)
            × TakesEnded s t ended.old.items (vec_capacity ended.old) ended.new.items result
            × KeepsUp server s × KeepsUp server t }
    {
        let mut seated = self.lock.lock(rt);
        let place = seated.of(book, server);
        place.kept(server);
        let first = place.take_ended(ended);
        if first.is_some() {
            self.has_ended.store(false, Ordering::SeqCst);
        }
        place.kept(server);
        first
    }

    /// What an operator is shown of the session that is there. None if the slot has none.
    pub fn shown_any<R: Wait>(&self, rt: &R) -> Option<UpFigures>
        ensures { (s : Option Kept) × ShowsUp s result × MayKeep s }
    {
        let seated = self.lock.lock(rt);
        let place = &seated.own;
        place.kept(place.number());
        up_figures(place.session())
    }

    /// The first records of the session that is there, over all its epochs, the oldest first, at most `most`: none if the
    /// slot has no session. They are copied under the lock. Out of memory is the one error.
    pub fn records_any<R: Wait>(
        &self,
        rt: &R,
        alloc: Global,
        most: usize,
    ) -> Result<Vec<Record>, AllocError>
        ensures { IfOk result (λ v. (s : Option Kept) × (v.items ≡ take most (up_past s)) × MayKeep s) }
    {
        let seated = self.lock.lock(rt);
        let place = &seated.own;
        place.kept(place.number());
        up_records(place.session(), alloc, most)
    }

    /// How many records of the session that is there, over all its epochs, are of each kind that is counted, and how long
    /// its dispatches took. None if the slot has no session.
    pub fn counts_any<R: Wait>(&self, rt: &R) -> Option<UpCounts>
        ensures { (s : Option Kept) × CountsUp s result × MayKeep s }
    {
        let seated = self.lock.lock(rt);
        let place = &seated.own;
        place.kept(place.number());
        up_counts(place.session())
    }

    /// The session that the slot keeps, if it has one, with its number.
    pub fn into_seated(self) -> Option<(ServerId, KeptClientSession)>
        ensures { ForSome result (λ r. r.1.state.server ≡ r.0) }
    {
        let UpSlot { lock, .. } = self;
        let Places { own, .. } = lock.into_inner();
        own.into_session()
    }
}
