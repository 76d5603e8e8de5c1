//! Histories with the numbers of the sessions that kept them.
ghost use Rattle.std.specs.Prelude.{◌≡◌, ◌+◌, ◌<◌, ◌^◌, nat_lt};
ghost use Rattle.std.specs.List.{list_any};

use crate::agreement::fact::{Fact, has_among, times_among};
use crate::agreement::tally::Tally;
use mux_history::{History, InitMode, Name, ServerId};

/// What the session of a client wrote down, epoch by epoch.
#[derive(Drop)]
pub struct DownHistory {
    /// The client's number.
    pub client: u64,
    pub epochs: Vec<History>,
}

/// What the session of a server wrote down, epoch by epoch.
#[derive(Drop)]
pub struct UpHistory {
    pub server: ServerId,
    pub mode: InitMode,
    pub epochs: Vec<History>,
}

/// Histories in the order of the walk: those of the clients come first.
#[derive(Clone, Copy)]
pub struct Histories<'a> {
    pub downs: &'a [DownHistory],
    pub ups: &'a [UpHistory],
}

impl Histories<'_> {
    ghost use Rattle.mux_agree.specs.Agree.{has, times};
    ghost use Rattle.mux_agree.specs.Facts.{shows};
    ghost use Rattle.mux_agree.specs.Seen.{clients_of, records_of};
    ghost use Rattle.mux_agree.specs.Tallies.{tallied};

    /// Whether a client's record shows this of the name.
    #[tactic(auto, using(crate::proofs::Searches::has_clients))]
    pub fn client_has(self, fact: Fact, name: Name) -> bool
        ensures { result ≡ has (shows fact) name (clients_of self.entry) }
    {
        self.is_down(fact, name)
    }

    /// Whether one of the clients' epochs shows this of the name.
    fn is_down(self, fact: Fact, name: Name) -> bool
        ensures { result
            ≡ list_any (λ h. list_any (λ e. has (shows fact) name e.records) h.epochs.items) self.entry.downs.now }
    {
        self.downs
            .iter()
            .any(|down| has_among(fact, name, &down.epochs))
    }

    /// Whether one of the servers' epochs shows this of the name.
    fn is_up(self, fact: Fact, name: Name) -> bool
        ensures { result
            ≡ list_any (λ h. list_any (λ e. has (shows fact) name e.records) h.epochs.items) self.entry.ups.now }
    {
        self.ups.iter().any(|up| has_among(fact, name, &up.epochs))
    }

    /// Whether a record shows this of the name.
    #[tactic(auto, using(crate::proofs::Searches::has_all))]
    pub fn has(self, fact: Fact, name: Name) -> bool
        ensures { result ≡ has (shows fact) name (records_of self.entry) }
    {
        self.is_down(fact, name) || self.is_up(fact, name)
    }

    /// How many records show this of the name.
    pub fn times(self, fact: Fact, name: Name) -> Tally
        ensures value { tallied result ≡ times (shows fact) name (records_of self.entry) }
        ensures within { result.wraps + 1 < 2 ^ 64 }
    {
        let mut all = Tally { wraps: 0, rest: 0 };
        for down in self.downs {
            all = all.plus(times_among(fact, name, &down.epochs));
        }
        for up in self.ups {
            all = all.plus(times_among(fact, name, &up.epochs));
        }
        all
    }

    /// Whether more records show one thing of the name than another.
    pub fn has_more(self, many: Fact, few: Fact, name: Name) -> bool
        ensures { let all = records_of self.entry in
            result ≡ nat_lt (times (shows few) name all) (times (shows many) name all) }
    {
        self.times(many, name).is_above(self.times(few, name))
    }
}
