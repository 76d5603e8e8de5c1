//! How many records are of each kind that is counted.
ghost use Rattle.std.specs.Prelude.{[], ◌<◌, ◌-◌, ◌^◌};
ghost use Rattle.mux_history.specs.Counting.{CountsOne, Each, IsCount, IsSum};

use crate::record::Record;
use crate::shape::Shape;

/// How many records are of each of these kinds, each count up to the greatest number of its type. What the kinds say stands at
/// [`RecordKind`](crate::RecordKind).
#[derive(Clone, Copy, Debug, PartialEq, Eq)]
pub struct KindCounts {
    pub took: u64,
    pub took_drained: u64,
    pub discarded: u64,
    pub noted: u64,
    pub passed: u64,
    pub nacked: u64,
    pub unrouted: u64,
    pub failed: u64,
    pub retried: u64,
    pub late: u64,
    pub offered: u64,
    pub settled: u64,
    pub settled_nack: u64,
    pub lost_one: u64,
}

impl KindCounts {
    /// The counts of no records.
    pub fn none() -> KindCounts
        ensures { IsCount result [] }
    {
        KindCounts {
            took: 0,
            took_drained: 0,
            discarded: 0,
            noted: 0,
            passed: 0,
            nacked: 0,
            unrouted: 0,
            failed: 0,
            retried: 0,
            late: 0,
            offered: 0,
            settled: 0,
            settled_nack: 0,
            lost_one: 0,
        }
    }

    /// The counts of these records.
    pub fn of(records: &[Record]) -> KindCounts
        ensures { IsCount result records.now }
    {
        let mut counts = KindCounts::none();
        for met in records {
            counts.add(met.shape());
        }
        counts
    }

    /// Counts a record of this shape.
    #[inline(always)]
    pub(crate) fn add(&mut self, shape: Shape)
        requires { Each (λ _ count. count self.old < 2 ^ 64 - 1) }
        ensures { CountsOne shape self.old self.new }
    {
        match shape {
            Shape::Took => self.took += 1,
            Shape::TookDrained => self.took_drained += 1,
            Shape::Discarded { .. } => self.discarded += 1,
            Shape::Noted { .. } => self.noted += 1,
            Shape::Passed => self.passed += 1,
            Shape::Nacked => self.nacked += 1,
            Shape::Unrouted => self.unrouted += 1,
            Shape::Failed => self.failed += 1,
            Shape::Retried => self.retried += 1,
            Shape::Late { .. } => self.late += 1,
            Shape::Offered => self.offered += 1,
            Shape::Settled(_) => self.settled += 1,
            Shape::SettledNack => self.settled_nack += 1,
            Shape::LostOne => self.lost_one += 1,
            _ => {}
        }
    }

    /// The sums of both.
    pub fn plus(self, other: KindCounts) -> KindCounts
        ensures { IsSum self other result }
    {
        KindCounts {
            took: self.took.saturating_add(other.took),
            took_drained: self.took_drained.saturating_add(other.took_drained),
            discarded: self.discarded.saturating_add(other.discarded),
            noted: self.noted.saturating_add(other.noted),
            passed: self.passed.saturating_add(other.passed),
            nacked: self.nacked.saturating_add(other.nacked),
            unrouted: self.unrouted.saturating_add(other.unrouted),
            failed: self.failed.saturating_add(other.failed),
            retried: self.retried.saturating_add(other.retried),
            late: self.late.saturating_add(other.late),
            offered: self.offered.saturating_add(other.offered),
            settled: self.settled.saturating_add(other.settled),
            settled_nack: self.settled_nack.saturating_add(other.settled_nack),
            lost_one: self.lost_one.saturating_add(other.lost_one),
        }
    }
}
