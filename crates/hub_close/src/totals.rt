//! The totals of a run.
ghost use Rattle.std.specs.Prelude.{◌≡◌, ◌-◌, ◌^◌, List, min, length};
ghost use Rattle.mux_history.specs.Counting.{IsCount, capped};
ghost use Rattle.mux_history.specs.declared.record.Record.{Record};
ghost use Rattle.mux_agree.specs.Walk.{histories, all_records};
ghost use Rattle.hub_close.specs.declared.count.Class.TheVariants.{Dispatch, Reply};
ghost use Rattle.hub_close.specs.Totals.{count_of};

use crate::count::{Class, count};
use crate::kinds::kind_counts;
use crate::lengths::record_count;
use mux_agree::{DownHistory, UpHistory};
use mux_history::KindCounts;

/// What all histories hold, each at most the greatest number of its type.
#[derive(Clone, Copy, Debug, PartialEq, Eq)]
pub struct Totals {
    pub records: u64,
    /// Dispatches that got a name.
    pub dispatches: u64,
    /// Answers to clients, the ones that they gave up included.
    pub replies: u64,
}

/// The totals over all epochs of these histories.
pub fn totals_of(downs: &[DownHistory], ups: &[UpHistory]) -> Totals
    ensures records { result.records ≡ min (length (all_records (histories downs.now ups.now))) (2 ^ 64 - 1) }
    ensures dispatches { let all = all_records (histories downs.now ups.now) in
        result.dispatches ≡ min (count_of Dispatch all) (2 ^ 64 - 1) }
    ensures replies { let all = all_records (histories downs.now ups.now) in
        result.replies ≡ min (count_of Reply all) (2 ^ 64 - 1) }
{
    run_totals(kind_counts(downs, ups), record_count(downs, ups))
}

/// The totals of so many records, with these counts by kind.
pub fn run_totals(counts: KindCounts, records: u64) -> Totals
    ensures records { result.records ≡ records }
    ensures dispatches { (all : List Record) → IsCount counts all → result.dispatches ≡ capped (count_of Dispatch all) }
    ensures replies { (all : List Record) → IsCount counts all → result.replies ≡ capped (count_of Reply all) }
{
    Totals {
        records,
        dispatches: count(Class::Dispatch, counts),
        replies: count(Class::Reply, counts),
    }
}
