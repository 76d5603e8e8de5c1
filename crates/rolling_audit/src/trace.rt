//! How often records tell something of one dispatch.
ghost use Rattle.std.specs.Prelude.{◌≡◌, ◌≤◌, IfSome, IsNone, IsTrue};
ghost use Rattle.rolling_audit.specs.Counted.{BearsKind, CountsOne, GoesOn, counted_of, end_by, none_counted};
ghost use Rattle.rolling_audit.specs.Counted.{faultless_by, lost_by, nacked_by, twice_by, unfounded_by};

use mux_history::RecordKind;

/// How often records tell something of one dispatch.
#[derive(Clone, Copy)]
pub struct Trace {
    pub offered: u8,
    pub retried: u8,
    pub nacked_back: u8,
    pub settled: u8,
    /// A client's session took it.
    pub taken: bool,
    /// Its server was lost with it.
    pub missing: bool,
    /// It came when the client was drained.
    pub refused: bool,
    /// It was answered with a nack or `no route`.
    pub nacked: bool,
    /// A server was asked to discard it.
    pub recalled: bool,
}

impl Trace {
    /// Of no records.
    pub fn none() -> Trace
        ensures { result ≡ none_counted }
    {
        Trace {
            offered: 0,
            retried: 0,
            nacked_back: 0,
            settled: 0,
            taken: false,
            missing: false,
            refused: false,
            nacked: false,
            recalled: false,
        }
    }

    /// With one record of the dispatch more, of a client's session or a server's. None where a count has
    /// no room.
    #[tactic(auto, using(crate::proofs::Counts::goes_on_if))]
    #[inline(always)]
    pub fn count(self, of_client: bool, kind: RecordKind) -> Option<Trace>
        ensures one { IfSome result (λ d. CountsOne self of_client kind d) }
        ensures law { IfSome result (λ d. GoesOn self of_client kind d) }
        ensures none { IsNone result → 255 ≤ counted_of self }
    {
        self.counted(of_client, kind)
    }

    #[inline(always)]
    fn counted(self, of_client: bool, kind: RecordKind) -> Option<Trace>
        ensures one { IfSome result (λ d. CountsOne self of_client kind d) }
        ensures none { IsNone result → 255 ≤ counted_of self }
    {
        let mut next = self;
        match kind {
            RecordKind::Offered => next.offered = self.offered.checked_add(1)?,
            RecordKind::Retried => next.retried = self.retried.checked_add(1)?,
            RecordKind::SettledNack => next.nacked_back = self.nacked_back.checked_add(1)?,
            RecordKind::Settled(_) => next.settled = self.settled.checked_add(1)?,
            RecordKind::LostOne => next.missing = true,
            RecordKind::Discarding => next.recalled = true,
            RecordKind::Nacked | RecordKind::Unrouted => next.nacked = true,
            RecordKind::Took => next.taken = of_client || self.taken,
            RecordKind::TookDrained => {
                next.taken = of_client || self.taken;
                next.refused = true;
            }
            _ => {}
        }
        Some(next)
    }

    #[inline(always)]
    fn is_twice(&self, kind: RecordKind) -> bool
        ensures { result ≡ twice_by self.now kind }
    {
        match kind {
            RecordKind::Offered => self.offered as u16 > self.retried as u16 + 1,
            RecordKind::Retried => self.retried > self.nacked_back,
            _ => false,
        }
    }

    #[inline(always)]
    fn is_unfounded(&self, kind: RecordKind) -> bool
        ensures { result ≡ unfounded_by self.now kind }
    {
        let replied = self.settled as u16 + self.nacked_back as u16;
        match kind {
            RecordKind::Offered => !self.taken,
            RecordKind::Passed => !(self.offered > 0
                && replied > 0
                && self.offered as u16 <= replied),
            RecordKind::Failed => !(self.offered > 0),
            _ => false,
        }
    }

    #[inline(always)]
    fn is_nacked(&self, kind: RecordKind) -> bool
        ensures { result ≡ nacked_by self.now kind }
    {
        matches!(kind, RecordKind::Offered)
            && (self.refused || (self.nacked && self.offered > self.nacked_back))
    }

    #[inline(always)]
    fn is_lost(&self, kind: RecordKind) -> bool
        ensures { result ≡ lost_by self.now kind }
    {
        matches!(kind, RecordKind::Failed)
            && (self.offered > 0 && (self.settled > 0 || !self.missing))
    }

    /// Whether a recall of the dispatch was sent, or it has an end: a reply that isn't a nack to be sent again, or a
    /// loss.
    pub fn has_end(&self) -> bool
        ensures { result ≡ end_by self.now }
    {
        self.recalled || self.settled > 0 || self.missing || self.nacked_back > self.retried
    }

    /// Whether a record of the dispatch has none of the causes that ask for counts alone.
    #[tactic(auto, using(crate::proofs::Counts::bears_kind))]
    #[inline(always)]
    pub fn bears(&self, kind: RecordKind) -> bool
        ensures value { result ≡ faultless_by self.now kind }
        ensures law { IsTrue result → BearsKind self.now kind }
    {
        self.is_faultless(kind)
    }

    #[inline(always)]
    fn is_faultless(&self, kind: RecordKind) -> bool
        ensures { result ≡ faultless_by self.now kind }
    {
        if self.is_twice(kind) {
            return false;
        }
        !(self.is_unfounded(kind) || self.is_nacked(kind) || self.is_lost(kind))
    }
}
