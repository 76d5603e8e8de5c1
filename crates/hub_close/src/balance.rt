//! Whether every value that a step gave was used.
//!
//! The loops over clients and servers are twins: their histories are two types with two definitions.
ghost use Rattle.std.specs.Prelude.{◌≡◌, ◌<◌, ◌^◌, ◌↔◌, List, IsTrue, length};
ghost use Rattle.std.specs.List.{list_all};
ghost use Rattle.mux_agree.specs.Seen.{records_of};
ghost use Rattle.mux_agree.specs.Walk.{histories, all_records};
ghost use Rattle.mux_history.specs.Counting.{IsCount};
ghost use Rattle.mux_history.specs.declared.record.Record.{Record};
ghost use Rattle.rolling_audit.specs.Recalls.{AreEnded, is_ended};
ghost use Rattle.hub_close.specs.Totals.{AreUsed, IsBalanced};

use crate::count::{Class, count};
use crate::kinds::kind_counts;
use mux_agree::{DownHistory, Fact, Histories, UpHistory};
use mux_history::{History, KindCounts, Record};
use rolling_audit::gives_recall;

/// Whether no value was dropped: tickets, replies and losses were used as often as steps gave them,
/// every place was noted, and each dispatch that gave a recall has one that was sent, or an end. If
/// an audit didn't see that, each recall is looked for among all records.
pub fn is_balanced(are_ended: bool, downs: &[DownHistory], ups: &[UpHistory]) -> bool
    requires few { length (all_records (histories downs.now ups.now)) < 2 ^ 64 }
    requires seen { IsTrue are_ended → AreEnded (all_records (histories downs.now ups.now)) }
    ensures { IsTrue result ↔ IsBalanced (all_records (histories downs.now ups.now)) }
{
    if !are_used(kind_counts(downs, ups)) {
        return false;
    }
    are_ended || are_read_ended(Histories { downs, ups })
}

/// Whether tickets, replies and losses were used as often as steps gave them, and every place was noted, by how
/// many records are of each kind.
pub fn are_used(counts: KindCounts) -> bool
    ensures { (all : List Record) → IsCount counts all → length all < 2 ^ 64 → (IsTrue result ↔ AreUsed all) }
{
    if count(Class::Gained, counts) != count(Class::Used, counts) {
        return false;
    }
    count(Class::Noted, counts) == count(Class::Offered, counts)
}

/// Whether the record gave no recall, or that recall has an end.
fn is_ended(all: Histories, kept: Record) -> bool
    ensures { result ≡ is_ended (records_of all.entry) kept }
{
    if !gives_recall(kept.kind()) {
        return true;
    }
    let Some(name) = kept.name() else {
        return false;
    };
    all.has(Fact::Recalled, name)
        || all.has(Fact::Settled, name)
        || all.has(Fact::Missing, name)
        || all.has_more(Fact::NackedBack, Fact::SentAgain, name)
}

fn are_ended(all: Histories, records: &[Record]) -> bool
    ensures { result ≡ list_all (λ r. is_ended (records_of all.entry) r) records.now }
{
    records.iter().all(|record| is_ended(all, *record))
}

fn are_epochs_ended(all: Histories, epochs: &[History]) -> bool
    ensures { result ≡ list_all (λ h. list_all (λ r. is_ended (records_of all.entry) r) h.records) epochs.now }
{
    epochs.iter().all(|epoch| are_ended(all, epoch.records()))
}

fn are_downs_ended(all: Histories) -> bool
    ensures { let ended = is_ended (records_of all.entry) in
        result ≡ list_all (λ d. list_all (λ h. list_all ended h.records) d.epochs.items) all.entry.downs.now }
{
    all.downs
        .iter()
        .all(|down| are_epochs_ended(all, down.epochs.as_slice()))
}

fn are_ups_ended(all: Histories) -> bool
    ensures { let ended = is_ended (records_of all.entry) in
        result ≡ list_all (λ u. list_all (λ h. list_all ended h.records) u.epochs.items) all.entry.ups.now }
{
    all.ups
        .iter()
        .all(|up| are_epochs_ended(all, up.epochs.as_slice()))
}

/// Whether each record of all histories gave no recall, or one with an end, as they are read.
#[tactic(auto, using(crate::proofs::Everywhere::all_records_all))]
fn are_read_ended(all: Histories) -> bool
    ensures { result ≡ list_all (λ r. is_ended (records_of all.entry) r) (records_of all.entry) }
{
    are_downs_ended(all) && are_ups_ended(all)
}
