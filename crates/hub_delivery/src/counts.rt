//! How many dispatches went to each destination, for whoever runs the router.
//!
//! The counts are atomics, of which no clause speaks: clauses say which run a dispatch is added to, and where it is counted.
ghost use Rattle.std.specs.Prelude.{◌≡◌};
ghost use Rattle.hub_delivery.specs.Counting.{counted, counter_of};

use mux_history::ServerId;
use published_routes::MARKS;
use std::alloc::{AllocError, Global};
use std::sync::atomic::{AtomicU64, Ordering};

/// How many dispatches to a destination were counted.
#[derive(Clone, Copy, Drop)]
pub struct DestinationCount {
    /// Those that clients sent while it had a route. One that is sent to another server isn't counted again.
    pub dispatches: u64,
    /// Those among them that no server could take.
    pub nacks: u64,
}

/// Dispatches to one destination that stand in a row.
#[derive(Clone, Copy, Drop)]
pub(crate) struct Run {
    pub mark: Option<u8>,
    /// How many of them are to be counted.
    count: u64,
}

impl Run {
    /// No dispatch yet to the destination with this mark.
    #[inline(always)]
    pub(crate) fn new(mark: Option<u8>) -> Run
        ensures { result ≡ record { mark = mark; count = 0 } }
    {
        Run { mark, count: 0 }
    }

    /// One more that has a route: it is counted, unless it was sent to a server before.
    #[inline(always)]
    pub(crate) fn add(&mut self, sent_to: Option<ServerId>)
        ensures { self.new ≡ counted sent_to self.old }
    {
        if sent_to.is_none() {
            self.count = self.count.wrapping_add(1);
        }
    }
}

#[derive(Drop)]
struct Counter {
    dispatches: AtomicU64,
    nacks: AtomicU64,
}

/// The counts of dispatches by the marks of their destinations.
#[derive(Drop)]
pub struct DestinationCounts {
    // One for each mark, and one for all destinations that have none.
    counters: Vec<Counter>,
}

impl DestinationCounts {
    /// Nothing is counted yet. Out of memory is the one error.
    pub fn new(alloc: Global) -> Result<DestinationCounts, AllocError> {
        let mut counters = Vec::with_capacity(alloc, MARKS + 1)?;
        for _ in 0..=MARKS {
            let counter = Counter {
                dispatches: AtomicU64::new(0),
                nacks: AtomicU64::new(0),
            };
            counters.push(counter).map_err(AllocError::from)?;
        }
        Ok(DestinationCounts { counters })
    }

    /// What was counted for the destination with this mark, or for all that have none. It asks for no lock.
    pub fn of(&self, mark: Option<u8>) -> DestinationCount {
        match self.counters.get(counter_of(mark)) {
            Some(counter) => DestinationCount {
                dispatches: counter.dispatches.load(Ordering::Relaxed),
                nacks: counter.nacks.load(Ordering::Relaxed),
            },
            None => DestinationCount {
                dispatches: 0,
                nacks: 0,
            },
        }
    }

    /// Counts a run. Each atomic step costs as much as many plain ones.
    #[inline(always)]
    pub(crate) fn add(&self, run: Run) {
        if run.count == 0 {
            return;
        }
        if let Some(counter) = self.counters.get(counter_of(run.mark)) {
            counter.dispatches.fetch_add(run.count, Ordering::Relaxed);
        }
    }

    /// Counts a dispatch that no server of its route took.
    #[cold]
    #[inline(never)]
    pub(crate) fn add_nack(&self, mark: Option<u8>) {
        if let Some(counter) = self.counters.get(counter_of(mark)) {
            counter.nacks.fetch_add(1, Ordering::Relaxed);
        }
    }
}

/// The place of a mark's counter.
#[inline(always)]
fn counter_of(mark: Option<u8>) -> usize
    ensures { result ≡ counter_of mark }
{
    match mark {
        Some(mark) => usize::from(mark),
        None => MARKS,
    }
}
