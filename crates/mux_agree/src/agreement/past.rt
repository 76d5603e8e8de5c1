//! The records of a session before one of its records, over its epochs.
ghost use Rattle.std.specs.Prelude.{◌≡◌, ◌+◌, false, length, reverse};
ghost use Rattle.mux_history.specs.Standings.{leads_to, stands_so};
ghost use Rattle.mux_agree.specs.Outlines.{any_after, any_since, is_free, is_held, outline_of};
ghost use Rattle.mux_agree.specs.Seen.{past_of};
ghost use Rattle.mux_agree.specs.Walk.{joined, place_at};

use crate::agreement::fact::{Fact, has, has_among};
use crate::agreement::kinds::is_epoch;
use crate::agreement::outline::Outline;
use mux_history::{History, InitMode, Name, Record, RecordKind, SessionId, Standing};

/// The epochs before a record's own, and the records before it in its own, the oldest first.
#[derive(Clone, Copy)]
pub struct Past<'a> {
    pub older: &'a [History],
    pub present: &'a [Record],
}

impl Past<'_> {
    ghost use Rattle.std.specs.List.{list_any};
    ghost use Rattle.mux_agree.specs.Agree.{has};
    ghost use Rattle.mux_agree.specs.Facts.{shows};

    /// How many records there are.
    pub fn place(self) -> usize
        ensures { result ≡ place_at (length (past_of self.entry)) }
    {
        let mut place = 0usize;
        for epoch in self.older {
            place = place.saturating_add(epoch.records().len());
        }
        place.saturating_add(self.present.len())
    }

    /// Whether one of the records shows this of the name.
    #[tactic(auto, using(crate::proofs::Searches::has_past))]
    pub fn has(self, fact: Fact, name: Name) -> bool
        ensures { result ≡ has (shows fact) name (past_of self.entry) }
    {
        has_among(fact, name, self.older) || has(fact, name, self.present)
    }

    /// What the records tell of the session, and of the dispatch of a record.
    pub fn outline(self, about: Record) -> Outline
        ensures { result ≡ outline_of about (past_of self.entry) }
    {
        let mut outline = Outline::empty();
        for epoch in self.older {
            outline = outline.after_all(about, epoch.records());
        }
        outline.after_all(about, self.present)
    }

    /// Whether the dispatch of a record waits: a client's for its note or answer, a server's for
    /// its final reply or loss.

    fn is_held(self, session: SessionId, entry: &Record) -> bool
        ensures { result ≡ is_held session (past_of self.entry) entry.now }
    {
        match session {
            SessionId::Client(_) => {
                matches!(entry.kind(), RecordKind::Took) && self.outline(*entry).is_due()
            }
            SessionId::Server(_) => {
                matches!(entry.kind(), RecordKind::Offered) && self.outline(*entry).sent
            }
        }
    }

    /// Whether a dispatch waits, after a record more.
    fn holds_with(self, session: SessionId, entry: &Record, before: bool) -> bool
        ensures { result ≡ any_after (is_held session (past_of self.entry)) entry.now before }
    {
        !is_epoch(entry.kind()) && (before || self.is_held(session, entry))
    }

    /// Whether a dispatch waits, after more records.
    fn holds_after(self, session: SessionId, records: &[Record], before: bool) -> bool
        ensures { result ≡ any_since (is_held session (past_of self.entry)) before (reverse records.now) }
    {
        let mut holds = before;
        for entry in records {
            holds = self.holds_with(session, entry, holds);
        }
        holds
    }

    /// Whether a dispatch of the present epoch waits.
    fn holds_one(self, session: SessionId) -> bool
        ensures { let past = past_of self.entry in
            result ≡ any_since (is_held session past) false past }
    {
        let mut holds = false;
        for epoch in self.older {
            holds = self.holds_after(session, epoch.records(), holds);
        }
        self.holds_after(session, self.present, holds)
    }

    /// Whether no dispatch of the present epoch waits.
    fn is_free(self, session: SessionId) -> bool
        ensures { result ≡ is_free session (past_of self.entry) }
    {
        !self.holds_one(session)
    }

    /// Whether the session may begin an epoch where it stands so.

    fn stands_so(
        self,
        mode: InitMode,
        session: SessionId,
        about: Record,
        standing: Standing,
    ) -> bool
        ensures { result ≡ stands_so mode session (past_of self.entry) standing }
    {
        match session {
            SessionId::Client(_) => {
                self.is_free(session) && self.outline(about).is_down_so(standing)
            }
            SessionId::Server(_) => {
                self.is_free(session) && self.outline(about).is_up_so(mode, standing)
            }
        }
    }

    /// Whether an `Epoch` is what the records lead to; another record always is.
    pub fn leads_to(self, mode: InitMode, session: SessionId, entry: &Record) -> bool
        ensures { result ≡ leads_to mode session (past_of self.entry) entry.now entry.now.kind }
    {
        match entry.kind() {
            RecordKind::Epoch { number, standing } => {
                self.outline(*entry).leads_to(number, entry.reading())
                    && self.stands_so(mode, session, *entry, standing)
            }
            RecordKind::Rolled { number } => self.outline(*entry).leads_to(number, entry.reading()),
            _ => true,
        }
    }
}
