//! How many records of histories are of each kind that is counted, in as many steps as there are epochs.
//!
//! The loops over clients and servers are twins: their histories are two types with two definitions.
ghost use Rattle.std.specs.Prelude.{map};
ghost use Rattle.mux_history.specs.Counting.{IsCount};
ghost use Rattle.mux_agree.specs.Walk.{all_records, histories, joined, kept_down, kept_up};

use mux_agree::{DownHistory, UpHistory};
use mux_history::{History, KindCounts};

/// The counts over these epochs.
pub fn epoch_counts(epochs: &[History]) -> KindCounts
    ensures { IsCount result (joined epochs.now) }
{
    let mut counts = KindCounts::none();
    for epoch in epochs {
        counts = counts.plus(epoch.counts());
    }
    counts
}

fn down_counts(downs: &[DownHistory]) -> KindCounts
    ensures { IsCount result (all_records (map kept_down downs.now)) }
{
    let mut counts = KindCounts::none();
    for down in downs {
        counts = counts.plus(epoch_counts(down.epochs.as_slice()));
    }
    counts
}

fn up_counts(ups: &[UpHistory]) -> KindCounts
    ensures { IsCount result (all_records (map kept_up ups.now)) }
{
    let mut counts = KindCounts::none();
    for up in ups {
        counts = counts.plus(epoch_counts(up.epochs.as_slice()));
    }
    counts
}

/// The counts over all epochs of these histories.
pub fn kind_counts(downs: &[DownHistory], ups: &[UpHistory]) -> KindCounts
    ensures { IsCount result (all_records (histories downs.now ups.now)) }
{
    down_counts(downs).plus(up_counts(ups))
}
