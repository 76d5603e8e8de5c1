//! Counts of records by class, as sums of the counts of their kinds.
//!
//! Which kinds answer a dispatch is said here by the sum of `Class::Reply`, and by `Fact::is_shown_by` of mux_agree: each
//! is the word of its own crate's definitions.
ghost use Rattle.std.specs.Prelude.{◌≡◌, ◌+◌, List};
ghost use Rattle.mux_history.specs.Counting.{IsCount, capped};
ghost use Rattle.mux_history.specs.declared.record.Record.{Record};
ghost use Rattle.hub_close.specs.Totals.{count_of};

use mux_history::KindCounts;

/// What is counted.
#[derive(Clone, Copy)]
pub enum Class {
    /// A dispatch got a name.
    Dispatch,
    /// The client got its answer, or gave the dispatch up.
    Reply,
    /// A step gave a value that has to be used.
    Gained,
    /// A step used such a value.
    Used,
    /// A place was noted.
    Noted,
    /// A dispatch was sent, which gives a place to note.
    Offered,
}

/// How many records are of a class, by how many are of each kind: at most the greatest number of the type.
pub(crate) fn count(class: Class, counts: KindCounts) -> u64
    ensures { (all : List Record) → IsCount counts all → result ≡ capped (count_of class all) }
{
    match class {
        Class::Dispatch => counts.took.saturating_add(counts.took_drained),
        Class::Reply => answered(counts)
            .saturating_add(counts.discarded)
            .saturating_add(counts.took_drained),
        Class::Gained => counts
            .took
            .saturating_add(counts.settled)
            .saturating_add(counts.settled_nack)
            .saturating_add(counts.lost_one),
        Class::Used => answered(counts)
            .saturating_add(counts.offered)
            .saturating_add(counts.late),
        Class::Noted => counts.noted,
        Class::Offered => counts.offered,
    }
}

/// How many answers to clients used a value.
fn answered(counts: KindCounts) -> u64
    ensures { result ≡ capped (counts.passed + counts.nacked + counts.unrouted + counts.failed) }
{
    counts
        .passed
        .saturating_add(counts.nacked)
        .saturating_add(counts.unrouted)
        .saturating_add(counts.failed)
}
