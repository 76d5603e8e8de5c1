//! A session towards one client.
//!
//! `write`, the head of `frame` and what shows a session (`queued`, `last_out`, `into_history`) have twins in
//! client_session: each reads fields of its own session, under that side's clauses.

ghost use Rattle.std.specs.Prelude.{◌≡◌, ◌<◌, ◌≤◌, ◌+◌, ◌-◌, ◌*◌, ◌^◌, ◌&&◌, ◌||◌, ◌==◌, max, false, true, Ok, None, Some, [], length, reverse, ℕ, if◌then◌else◌, IfOk, IfErr, IfNone, IfSome, IsSome, IsSomeAnd, IsTrue, OnErr, OnSome, MatchOption};
ghost use Rattle.std.specs.Option.{option_to_list, option_copied};
ghost use Rattle.std.specs.VecDeque.{deque_len, deque_capacity};
ghost use Rattle.mux_history.specs.Counting.{IsCount};
ghost use Rattle.mux_history.specs.Packing.{MayHold};
ghost use Rattle.mux_history.specs.Readings.{book as book_of, epoch_of, written};
ghost use Rattle.mux_model.specs.Entries.{said_by};
ghost use Rattle.mux_model.specs.Steps.{entries, records, queued as queued_of};
ghost use Rattle.translate_book.specs.Book.{entry_at, open_at, changed, open_count};
ghost use Rattle.server_session.specs.Inside.{frames_of};
ghost use Rattle.server_session.specs.State.{weight_due, opening_due};
ghost use Rattle.translate_book.specs.Entries.{is_open, is_note_due, applied, effect_of, owes_recall};

mod answering;
mod draining;
mod frames;
mod owed;

use gate::DrainOut;
use mux_frame::Frame;
use mux_history::{Cause, History, KindCounts, Limits, Name, Record, RecordKind};
pub use owed::Owed;
use session_init::ServerInit;
use std::alloc::{AllocError, Global};
use std::collections::VecDeque;
use std::marker::Model;
use std::mem;
use translate_book::{Change, DownBook, Dues, Effect, Place, Recall};

/// A session towards one client. In each call `now` is a reading of the clock, in milliseconds since the
/// router's start.
///
/// Contracts see the session as its `State`, which belongs to the list of its steps.
#[derive(Drop)]
pub struct ServerSession {
    boot: u64,
    client: u64,
    limits: Limits,
    // The number of the present epoch, and the records of the present history.
    epoch: u32,
    history: History,
    queue: VecDeque<Frame>,
    book: DownBook,
    // How many entries are open: each keeps room for its reply.
    in_use: usize,
    // How many records are kept for the entries.
    kept: usize,
    // How many dispatches got a name.
    dispatches: u64,
    reading: u64,
    init: ServerInit,
    drain: DrainOut,
    closed: bool,
}

impl Model for ServerSession {
    ghost use Rattle.server_session.specs.State.{State};
    ghost use Rattle.server_session.specs.Inside.{state_of, IsSound};

    ghost Value = { State };

    ghost view = { state_of };

    ghost invariant = { IsSound };
}

impl ServerSession {
    ghost use Rattle.server_session.specs.Past.{Past, begun, figures_of, last_queued};
    ghost use Rattle.server_session.specs.State.{State, figures_in, naming, noted, changing, numbering, taking, closing, weight, opening, kept_in, shut_down, MayApply, HasEntry, ForEntry, owes_at, calling_back};
    ghost use Rattle.server_session.specs.Belonging.{Belongs};
    ghost use Rattle.server_session.specs.Decide.{free_out, free_records, is_idle};
    ghost use Rattle.server_session.specs.Steps.{LeadsOn, LoseStep, LoseNextStep, TakeOutStep, TakeOutsStep};

    /// A session towards the client `id` of this boot. All room is made here: no step takes memory.
    ///
    /// Want of memory is the one error.
    pub fn open(
        alloc: Global,
        boot: u64,
        id: u64,
        limits: Limits,
    ) -> Result<ServerSession, AllocError>
        ensures { IfOk result (λ s. Belongs s (begun (record { limits = limits; boot = boot; number = id }))) }
    {
        let history = History::with_room(alloc, limits.history())?;
        let queue = VecDeque::with_capacity(alloc, limits.out())?;
        let book = DownBook::with_room(alloc, limits.window())?;
        Ok(ServerSession {
            boot,
            client: id,
            limits,
            epoch: 0,
            history,
            queue,
            book,
            in_use: 0,
            kept: 0,
            dispatches: 0,
            reading: 0,
            init: ServerInit::new(),
            drain: DrainOut::Running,
            closed: false,
        })
    }

    /// The connection is lost. On a closed session this changes nothing.
    pub fn lose(&mut self, now: u64)
        ensures step { LeadsOn self.old (λ p q. LoseStep p now q) self.new }
    {
        if !self.closed {
            self.close(RecordKind::Lost, now);
        }
    }

    /// The next frame to be sent, in the order of the steps. None once the session is closed.
    pub fn take_out(&mut self) -> Option<Frame>
        ensures step { LeadsOn self.old (λ p q. TakeOutStep p result q) self.new }
    {
        if self.closed {
            return None;
        }
        self.queue.pop_front()
    }

    /// All frames to be sent, in the order of the steps, which the empty queue that is handed in
    /// takes; that queue has room for as many as this session queues. None once it is closed.
    pub fn take_outs(&mut self, into: &mut VecDeque<Frame>)
        requires empty { deque_len into.old ≡ 0 }
        requires room { self.old.limits.out ≤ deque_capacity into.old }
        ensures step { LeadsOn self.old (λ p q. TakeOutsStep p (frames_of into.new.items) q) self.new }
        ensures room { self.new.limits.out ≤ deque_capacity into.new }
    {
        if !self.closed {
            mem::swap(&mut self.queue, into);
        }
    }

    /// The recall of the least dispatch that owes one, once the client is gone. None where none is
    /// left, or the session isn't closed.
    pub fn lose_next(&mut self) -> Option<Recall>
        ensures step { LeadsOn self.old (λ p q. LoseNextStep p result q) self.new }
    {
        if !self.closed {
            return None;
        }
        let _held = self.book.len();
        let Some(seq) = self.book.first_due() else {
            return None;
        };
        Some(self.recall_next(seq))
    }

    /// The limits that the session was opened with.
    pub fn limits(&self) -> Limits
        ensures { result ≡ self.now.limits }
    {
        self.limits
    }

    /// The number of the present epoch, from 0.
    pub fn epoch(&self) -> u32
        ensures value { result ≡ self.now.epoch }
        ensures told { (p : Past) → Belongs self.now p → result ≡ epoch_of (records p.steps) }
    {
        self.epoch
    }

    /// Whether the session has ended.
    pub fn is_closed(&self) -> bool
        ensures { result ≡ self.now.closed }
    {
        self.closed
    }

    /// How many dispatches wait for a note or an answer.
    pub fn load(&self) -> usize
        ensures value { result ≡ length self.now.book }
        ensures told { (p : Past) → Belongs self.now p → result ≡ length (book_of (records p.steps)) }
    {
        self.book.len()
    }

    /// The records of the present history, the oldest first.
    pub fn history(&self) -> &[Record]
        ensures value { result.now ≡ self.now.records }
        ensures told { (p : Past) → Belongs self.now p → result.now ≡ reverse (written (records p.steps)) }
    {
        self.history.records()
    }

    /// How many records of the present history are of each kind that is counted.
    pub fn counts(&self) -> KindCounts
        ensures { IsCount result self.now.records }
    {
        self.history.counts()
    }

    /// How many frames are queued, also once the session is closed.
    pub fn queued(&self) -> usize
        ensures value { result ≡ length self.now.queue }
        ensures told { (p : Past) → Belongs self.now p → result ≡ queued_of (entries p.steps) (length p.out) }
    {
        self.queue.len()
    }

    /// The last of the frames queued, also once the session is closed.
    pub fn last_out(&self) -> Option<&Frame>
        ensures { (p : Past) → Belongs self.now p → said_by (option_copied result) ≡ last_queued p }
    {
        self.queue.back()
    }

    /// The present history of a session that is done with.
    pub fn into_history(self) -> History
        ensures { (p : Past) → Belongs self p
            → result ≡ record { records = reverse (written (records p.steps)); room = p.session.limits.history } }
    {
        self.history
    }

    /// No dispatch waits for anything, and none will any more.
    pub fn is_finished(&self) -> bool
        ensures { (p : Past) → Belongs self.now p → result ≡ is_idle (figures_of p) }
    {
        self.is_idle()
    }

    fn is_idle(&self) -> bool
        ensures { result ≡ is_idle (figures_in self.now) }
    {
        self.book.is_empty() && (self.closed || self.drain.is_acked())
    }

    fn free_out(&self) -> usize
        ensures { result ≡ free_out (figures_in self.now) }
    {
        self.limits.out() - self.queued() - self.in_use
    }

    fn free_records(&self) -> usize
        ensures { result ≡ free_records (figures_in self.now) }
    {
        let end = if self.closed { 0 } else { 1 };
        let kept = self.history().len() + end;
        self.limits.history() - kept - self.kept
    }

    /// The name of a dispatch of this session.
    fn naming(&self, seq: u64) -> Name
        ensures { result ≡ naming self.now seq }
    {
        Name {
            boot: self.boot,
            client: self.client,
            seq,
        }
    }

    /// Changes the entry of a dispatch, which was seen at this index of the book, and the counts of
    /// what is kept for it.
    #[inline(always)]
    fn change(&mut self, index: usize, seq: u64, change: Change) -> Effect
        requires { HasEntry self.old.book seq (λ e. MayApply change e) }
        ensures new { self.new ≡ changing self.old seq change }
        ensures effect { ForEntry self.old.book seq (λ e. result ≡ effect_of change e) }
        ensures owes { ForEntry self.old.book seq (λ e. owes_at (entry_at seq self.new.book)
            ≡ owes_recall (applied change e)) }
        ensures records { ForEntry self.old.book seq (λ e. free_records (figures_in self.old) + weight e
            ≡ free_records (figures_in self.new) + weight (applied change e)) }
        ensures out { ForEntry self.old.book seq (λ e. free_out (figures_in self.old) + opening e
            ≡ free_out (figures_in self.new) + opening (applied change e)) }
    {
        let _held = self.book.len();
        let Some(effect) = self.book.change_at(index, seq, change) else {
            unreachable!()
        };
        let was = Counts::of(effect.was);
        let is = Counts::of(effect.is);
        self.in_use -= was.in_use - is.in_use;
        self.kept -= was.kept - is.kept;
        effect
    }

    /// Keeps the place of a dispatch whose note is due, as `change` does: one record less is kept for it.
    #[inline(always)]
    fn change_noted(&mut self, index: usize, seq: u64, place: Place) -> Effect
        requires { HasEntry self.old.book seq (λ e. is_note_due e ≡ true) }
        ensures new { self.new ≡ changing self.old seq (Change.Note place) }
        ensures effect { ForEntry self.old.book seq (λ e. result ≡ effect_of (Change.Note place) e) }
        ensures owes { ForEntry self.old.book seq (λ e. owes_at (entry_at seq self.new.book)
            ≡ owes_recall (applied (Change.Note place) e)) }
        ensures records { ForEntry self.old.book seq (λ e. free_records (figures_in self.old) + weight e
            ≡ free_records (figures_in self.new) + weight (applied (Change.Note place) e)) }
        ensures out { ForEntry self.old.book seq (λ e. free_out (figures_in self.old) + opening e
            ≡ free_out (figures_in self.new) + opening (applied (Change.Note place) e)) }
    {
        let _held = self.book.len();
        let Some(effect) = self.book.change_at(index, seq, Change::Note(place)) else {
            unreachable!()
        };
        self.kept -= 1;
        effect
    }

    /// The number of a dispatch that is open, if there is one.
    fn first_open(&self) -> Option<u64>
        ensures some { IfSome result (λ seq. HasEntry self.now.book seq (λ e. is_open e ≡ true)) }
        ensures none { IfNone result ((t : ℕ) → open_at t self.now.book ≡ None) }
    {
        let _held = self.book.len();
        let (_, seq) = self.book.open_tags().get_index(0)?;
        Some(*seq)
    }

    /// The client has all tags back.
    #[cold]
    fn shut_down(&mut self)
        ensures new { self.new ≡ record self.old { book = shut_down self.old.book } }
        ensures records { free_records (figures_in self.old) ≤ free_records (figures_in self.new) }
    {
        while let Some(seq) = self.first_open() {
            let index = self.book.index_of(seq);
            let _effect = self.change(index, seq, Change::Shut(None));
        }
    }

    #[cold]
    fn close(&mut self, kind: RecordKind, now: u64)
        requires { self.old.closed ≡ false }
        ensures { self.new ≡ noted (closing self.old) now kind 0 None None }
    {
        self.shut_down();
        self.closed = true;
        self.write(now, kind, 0, None, None);
    }

    /// The client broke the protocol.
    #[cold]
    #[inline(never)]
    fn close_for(&mut self, cause: Cause, now: u64)
        requires { self.old.closed ≡ false }
        ensures { self.new ≡ noted (closing self.old) now (RecordKind.Closed cause) 0 None None }
    {
        self.close(RecordKind::Closed(cause), now);
    }

    /// Appends the record of a step, and queues its frame.
    #[inline(always)]
    fn write(
        &mut self,
        now: u64,
        kind: RecordKind,
        tag: u32,
        name: Option<Name>,
        sent: Option<Frame>,
    )
        requires held { MayHold kind name }
        requires records { 1 ≤ free_records (figures_in self.old) }
        requires out { length (option_to_list sent) ≤ free_out (figures_in self.old) }
        ensures { self.new ≡ noted self.old now kind tag name (said_by sent) }
    {
        self.reading = self.reading.max(now);
        let reading = self.reading;
        self.history.push(Record::new(kind, tag, name, reading));
        if let Some(frame) = sent {
            self.queue.push_back_reserved(frame);
        }
    }
}

/// What is kept for an entry: a place for its reply, and records.
#[derive(Clone, Copy)]
struct Counts {
    in_use: usize,
    kept: usize,
}

impl Counts {
    /// A place for its reply while it is open. A record for its note, one for its answer, one for its
    /// recall, and while it is open two for each try that is left.
    fn of(dues: Dues) -> Counts
        ensures in_use { result.in_use ≡ opening_due dues }
        ensures kept { result.kept ≡ weight_due dues }
    {
        let note = if dues.note { 1 } else { 0 };
        let answer = match (dues.answer, dues.recalled) {
            (false, _) => 0,
            (true, true) => 1,
            (true, false) => 2,
        };
        let tries = if dues.in_use {
            2 * usize::from(dues.left)
        } else {
            0
        };
        Counts {
            in_use: if dues.in_use { 1 } else { 0 },
            kept: note + answer + tries,
        }
    }
}
