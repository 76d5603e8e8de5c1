//! What sessions gave up, on its way to the audit.
//!
//! An `Unaudited` can't be dropped, since its type has no `Drop`. So whoever has one hands it in, and whoever takes one
//! out of the queue has it looked at to its end, puts it back, or tells why the run is at fault.
ghost use Rattle.std.specs.Prelude.{◌≡◌, ◌==◌, ◌||◌, ◌&&◌, ◌∷◌, ◌++◌, [], false, true, not, length, IfErr, IfOk, IsOk, IsTrue, MatchOption, ◌+◌, ◌<◌};
ghost use Rattle.std.specs.VecDeque.{deque_capacity, deque_len};
ghost use Rattle.mux_history.specs.declared.session.SessionId.{SessionId};
ghost use Rattle.rolling_audit.specs.declared.run_fault.RunFault.{RunFault};
ghost use Rattle.router_state.specs.Giving.{IsLookedAt, StopsSo};

use crate::given::Given;
use mux_history::{History, SessionId};
use rolling_audit::{RunAudit, RunFault};
use std::alloc::{AllocError, AllocFailed, Global};
use std::collections::VecDeque;

/// What a session gave up, until an audit has looked at all of it.
pub(crate) struct Unaudited {
    given: Given,
}

/// Why an audit hasn't looked at all of it.
pub(crate) enum AuditStop {
    /// Memory was refused. It goes on where it is.
    Memory(Unaudited),
    /// A record or the order is at fault. No more is told of the run.
    Fault(RunFault),
}

impl Unaudited {
    /// Some histories that have ended.
    pub fn new(session: SessionId, first: u32, histories: Vec<History>) -> Unaudited
        ensures { result.given
            ≡ record { session = session; first = first; histories = histories; is_all = false; seen = 0 } }
    {
        Unaudited {
            given: Given::new(session, first, histories),
        }
    }

    /// All that were left of a session that was taken out.
    pub fn last(session: SessionId, first: u32, histories: Vec<History>) -> Unaudited
        ensures { result.given
            ≡ record { session = session; first = first; histories = histories; is_all = true; seen = 0 } }
    {
        Unaudited {
            given: Given::last(session, first, histories),
        }
    }

    /// What was given up.
    pub fn given(&self) -> &Given
        ensures { result.now ≡ self.now.given }
    {
        &self.given
    }

    /// Has an audit look at what it hasn't seen of it.
    pub fn look(self, audit: &mut RunAudit) -> Result<(), AuditStop>
        ensures ok { IsOk result → IsLookedAt self.given audit.old audit.new }
        ensures err { IfErr result (λ stop. StopsSo stop self.given audit.old audit.new) }
    {
        let Unaudited { mut given } = self;
        match given.look(audit) {
            Ok(()) => Ok(()),
            Err(RunFault::Memory) => Err(AuditStop::Memory(Unaudited { given })),
            Err(fault) => Err(AuditStop::Fault(fault)),
        }
    }

    /// There is no room for it to wait in, which no run goes on without.
    pub fn refuse(self) -> RunFault
        ensures { result ≡ RunFault.Memory }
    {
        let Unaudited { given: _ } = self;
        RunFault::Memory
    }
}

/// What waits to be looked at, the oldest first.
#[derive(Drop)]
pub(crate) struct AuditQueue {
    given: VecDeque<Given>,
    // Whether memory was refused for the first one, and none was handed in since.
    is_starved: bool,
    // Whether the thread that looks is to end.
    has_ended: bool,
}

impl AuditQueue {
    /// Nothing waits, and there is room for so many. Out of memory is the one error.
    pub fn with_room(alloc: Global, places: usize) -> Result<AuditQueue, AllocError>
        ensures { IfOk result (λ q. (q.given.items ≡ []) × (q.is_starved ≡ false) × (q.has_ended ≡ false)) }
    {
        Ok(AuditQueue {
            given: VecDeque::with_capacity(alloc, places)?,
            is_starved: false,
            has_ended: false,
        })
    }

    /// Whether nobody has to look.
    pub fn rests(&self) -> bool
        ensures { result ≡ (not self.now.has_ended && (self.now.is_starved || length self.now.given.items == 0)) }
    {
        !self.has_ended && (self.is_starved || self.given.is_empty())
    }

    /// How many wait.
    pub fn len(&self) -> usize
        ensures { result ≡ length self.now.given.items }
    {
        self.given.len()
    }

    /// Whether there is room for one more, or one that was made.
    pub fn has_room(&mut self) -> bool
        ensures room { IsTrue result → deque_len self.new.given < deque_capacity self.new.given }
        ensures full { result ≡ false → deque_capacity self.old.given < deque_len self.old.given + 1 }
        ensures given { self.new.given.items ≡ self.old.given.items }
        ensures flags { (self.new.is_starved ≡ self.old.is_starved) × (self.new.has_ended ≡ self.old.has_ended) }
    {
        self.given.reserve(1).is_ok()
    }

    /// It waits behind all others. Without memory for a place it comes back.
    pub fn push(&mut self, unaudited: Unaudited) -> Result<(), Unaudited>
        ensures succeeds { deque_len self.old.given < deque_capacity self.old.given → IsOk result }
        ensures ok { IsOk result → self.new.given.items ≡ self.old.given.items ++ (unaudited.given ∷ []) }
        ensures err { IfErr result (λ u. (u ≡ unaudited) × (self.new.given.items ≡ self.old.given.items)) }
        ensures flags { (self.new.is_starved ≡ false) × (self.new.has_ended ≡ self.old.has_ended) }
    {
        let Unaudited { given } = unaudited;
        self.is_starved = false;
        match self.given.push_back(given) {
            Ok(()) => Ok(()),
            Err(AllocFailed { value }) => Err(Unaudited { given: value }),
        }
    }

    /// It waits before all others: memory was refused for it. Without memory for a place it comes back.
    pub fn put_back(&mut self, unaudited: Unaudited) -> Result<(), Unaudited>
        ensures succeeds { deque_len self.old.given < deque_capacity self.old.given → IsOk result }
        ensures ok { IsOk result → self.new.given.items ≡ unaudited.given ∷ self.old.given.items }
        ensures err { IfErr result (λ u. (u ≡ unaudited) × (self.new.given.items ≡ self.old.given.items)) }
        ensures flags { (self.new.is_starved ≡ true) × (self.new.has_ended ≡ self.old.has_ended) }
    {
        let Unaudited { given } = unaudited;
        self.is_starved = true;
        match self.given.push_front(given) {
            Ok(()) => Ok(()),
            Err(AllocFailed { value }) => Err(Unaudited { given: value }),
        }
    }

    /// What waits first.
    pub fn pop(&mut self) -> Option<Unaudited>
        ensures given { MatchOption result ((self.old.given.items ≡ []) × (self.new.given.items ≡ []))
            (λ u. self.old.given.items ≡ u.given ∷ self.new.given.items) }
        ensures flags { (self.new.is_starved ≡ self.old.is_starved) × (self.new.has_ended ≡ self.old.has_ended) }
    {
        match self.given.pop_front() {
            Some(given) => Some(Unaudited { given }),
            None => None,
        }
    }

    /// Nothing waits any more: a run that has a fault is told no more of.
    pub fn clear(&mut self)
        ensures given { self.new.given.items ≡ [] }
        ensures flags { (self.new.is_starved ≡ self.old.is_starved) × (self.new.has_ended ≡ self.old.has_ended) }
    {
        self.given.clear();
    }

    /// The thread that looks is to end.
    pub fn end(&mut self)
        ensures given { self.new.given.items ≡ self.old.given.items }
        ensures flags { (self.new.is_starved ≡ self.old.is_starved) × (self.new.has_ended ≡ true) }
    {
        self.has_ended = true;
    }

    /// Whether the thread that looks is to end.
    pub fn has_ended(&self) -> bool
        ensures { result ≡ self.now.has_ended }
    {
        self.has_ended
    }
}
