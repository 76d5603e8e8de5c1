//! How long a client's dispatch takes.

use std::sync::atomic::{AtomicU64, Ordering};

/// The dispatch of a client's connection whose time is taken: one at a time, so that most frames need no clock.
#[derive(Drop)]
pub struct Probe {
    // One more than its tag. 0: there is none.
    tag: AtomicU64,
    // When it was read, in microseconds since the router's start.
    since: AtomicU64,
}

impl Probe {
    /// No time is taken.
    pub fn new() -> Probe {
        Probe {
            tag: AtomicU64::new(0),
            since: AtomicU64::new(0),
        }
    }

    /// As for a new connection.
    pub fn reset(&self) {
        self.tag.store(0, Ordering::SeqCst);
    }

    /// Whether the time of no dispatch is taken.
    #[inline(always)]
    pub fn is_idle(&self) -> bool {
        self.tag.load(Ordering::Relaxed) == 0
    }

    /// A dispatch with this tag was read at `now`.
    pub fn begin(&self, tag: u32, now: u64) {
        self.since.store(now, Ordering::SeqCst);
        self.tag
            .store(u64::from(tag).wrapping_add(1), Ordering::SeqCst);
    }

    /// Whether it is the dispatch with this tag.
    #[inline(always)]
    pub fn is_of(&self, tag: u32) -> bool {
        self.tag.load(Ordering::Relaxed) == u64::from(tag).wrapping_add(1)
    }

    /// The dispatch was answered at `now`: how long that took, in microseconds.
    pub fn end(&self, now: u64) -> u64 {
        self.reset();
        now.saturating_sub(self.since.load(Ordering::Relaxed))
    }
}
