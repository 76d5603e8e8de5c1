//! What a session has recorded: copies, and counts.
//!
//! Clients and servers have twins here, each under the words of that side.
ghost use Rattle.std.specs.Prelude.{◌≡◌, ◌≤◌, ◌-◌, ◌++◌, [], IfOk, OnOk, length, take, vec_len};
ghost use Rattle.mux_agree.specs.Walk.{joined};
ghost use Rattle.mux_history.specs.Counting.{IsCount, IsSum};
ghost use Rattle.mux_history.specs.Delaying.{AreBoth, no_delay};
ghost use Rattle.hub_steps.specs.Records.{CountsDown, CountsUp, down_past, up_past};

use crate::counts::joined_counts;
use kept_session::{KeptClientSession, KeptServerSession};
use mux_history::{Delays, History, KindCounts, Record};
use std::alloc::{AllocError, Global};

/// Appends the first of `more`, until there are `most` records. Out of memory is the one error.
fn fill(records: &mut Vec<Record>, more: &[Record], most: usize) -> Result<(), AllocError>
    ensures { OnOk result (records.new.items
        ≡ records.old.items ++ take (most - length records.old.items) more.now) }
{
    let room = most.saturating_sub(records.len()).min(more.len());
    records.extend_from_slice(&more[..room])
}

/// The first records of these epochs and of the present one, at most `most`.
fn joined_up_to(
    alloc: Global,
    epochs: &[History],
    present: &[Record],
    most: usize,
) -> Result<Vec<Record>, AllocError>
    ensures { IfOk result (λ v. v.items ≡ take most (joined epochs.now ++ present.now)) }
{
    let mut records = Vec::new(alloc);
    for epoch in epochs {
        fill(&mut records, epoch.records(), most)?;
    }
    fill(&mut records, present, most)?;
    Ok(records)
}

/// The first records of the session of a slot over all its epochs, at most `most`: none if it has no session. Out of
/// memory is the one error.
pub fn down_records(
    slot: &Option<KeptServerSession>,
    alloc: Global,
    most: usize,
) -> Result<Vec<Record>, AllocError>
    ensures { IfOk result (λ v. v.items ≡ take most (down_past slot.now)) }
{
    match slot {
        Some(session) => { joined_up_to(alloc, session.ended(), session.history(), most) }
        None => Ok(Vec::new(alloc)),
    }
}

/// The same of a session towards a server.
pub fn up_records(
    slot: &Option<KeptClientSession>,
    alloc: Global,
    most: usize,
) -> Result<Vec<Record>, AllocError>
    ensures { IfOk result (λ v. v.items ≡ take most (up_past slot.now)) }
{
    match slot {
        Some(session) => { joined_up_to(alloc, session.ended(), session.history(), most) }
        None => Ok(Vec::new(alloc)),
    }
}

/// How many records of the session of a slot, over all its epochs, are of each kind that is counted. None if it has no
/// session. It takes longer for many epochs, but not for many records.
pub fn down_counts(slot: &Option<KeptServerSession>) -> Option<KindCounts>
    ensures { CountsDown slot.now result }
{
    match slot {
        Some(session) => Some(joined_counts(session.ended(), session.counts())),
        None => None,
    }
}

/// What a session towards a server did.
#[derive(Clone, Copy, Debug, PartialEq, Eq)]
pub struct UpCounts {
    /// How many of its records are of each kind that is counted.
    pub steps: KindCounts,
    /// How long the dispatches took that were answered, in all its epochs.
    pub delays: Delays,
}

impl UpCounts {
    /// Nothing was done.
    pub fn none() -> UpCounts
        ensures steps { IsCount result.steps [] }
        ensures delays { result.delays ≡ no_delay }
    {
        UpCounts {
            steps: KindCounts::none(),
            delays: Delays::none(),
        }
    }

    /// What both did.
    pub fn plus(self, other: UpCounts) -> UpCounts
        ensures steps { IsSum self.steps other.steps result.steps }
        ensures delays { AreBoth self.delays other.delays result.delays }
    {
        UpCounts {
            steps: self.steps.plus(other.steps),
            delays: self.delays.plus(other.delays),
        }
    }
}

/// The same of a session towards a server, with how long its dispatches took.
pub fn up_counts(slot: &Option<KeptClientSession>) -> Option<UpCounts>
    ensures { CountsUp slot.now result }
{
    let Some(session) = slot else {
        return None;
    };
    Some(UpCounts {
        steps: joined_counts(session.ended(), session.counts()),
        delays: session.delays(),
    })
}
