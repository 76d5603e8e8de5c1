//! What both kinds of session have in common.
ghost use Rattle.std.specs.Prelude.{◌≡◌, ◌<◌, ◌++◌, List, length, slice_get, Some};
ghost use Rattle.mux_history.specs.Counting.{IsCount};
ghost use Rattle.mux_history.specs.declared.record.Record.{Record};
ghost use Rattle.mux_agree.specs.Walk.{joined};
ghost use Rattle.hub_steps.specs.Counts.{Counts};

use hub_close::epoch_counts;
use mux_history::{History, KindCounts, Record};

/// Counts the records that a step made: so many were there before it, and so many after it.
#[inline(always)]
pub(crate) fn end_step(made: &mut u64, before: usize, after: usize)
    ensures { Counts before after made.old made.new }
{
    let records = after.saturating_sub(before);
    *made = made.saturating_add(records as u64);
}

/// The record at this place.
#[inline(always)]
pub(crate) fn record_at(records: &[Record], place: usize) -> Record
    requires { place < length records.now }
    ensures { slice_get records.now place ≡ Some result }
{
    records[place]
}

/// How many records of these epochs and of the present one are of each kind that is counted.
pub(crate) fn joined_counts(epochs: &[History], present: KindCounts) -> KindCounts
    ensures { (rs : List Record) → IsCount present rs → IsCount result (joined epochs.now ++ rs) }
{
    epoch_counts(epochs).plus(present)
}
