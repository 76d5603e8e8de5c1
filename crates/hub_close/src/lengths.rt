//! How many records histories hold, in as many steps as there are epochs.
//!
//! The loops over clients and servers are twins: their histories are two types with two definitions.
ghost use Rattle.std.specs.Prelude.{◌≡◌, length};
ghost use Rattle.mux_history.specs.Counting.{capped};
ghost use Rattle.mux_agree.specs.Walk.{all_records, histories, joined};

use mux_agree::{DownHistory, UpHistory};
use mux_history::History;

fn epochs_length(epochs: &[History]) -> u64
    ensures { result ≡ capped (length (joined epochs.now)) }
{
    let mut records = 0u64;
    for epoch in epochs {
        records = records.saturating_add(epoch.records().len() as u64);
    }
    records
}

/// How many records all epochs of these histories hold, at most the greatest number of the type.
pub(crate) fn record_count(downs: &[DownHistory], ups: &[UpHistory]) -> u64
    ensures { result ≡ capped (length (all_records (histories downs.now ups.now))) }
{
    let mut records = 0u64;
    for down in downs {
        records = records.saturating_add(epochs_length(down.epochs.as_slice()));
    }
    for up in ups {
        records = records.saturating_add(epochs_length(up.epochs.as_slice()));
    }
    records
}
