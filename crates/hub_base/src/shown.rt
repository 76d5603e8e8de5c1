//! What is known of a session without its lock: figures after its last step. A step that is being made
//! isn't in them.
//!
//! A store waits for all stores before it, so none is made of what is shown already.
ghost use Rattle.std.specs.Prelude.{◌≡◌};
ghost use Rattle.hub_base.specs.Shown.{asked_load, is_too_much, waiting_bytes};

use std::sync::atomic::{AtomicBool, AtomicU32, AtomicU64, Ordering};

/// What the load of a session that is asked last counts more: less than that of one that takes no dispatch.
const LAST: u32 = 1 << 30;

/// How many dispatches a session holds, and how long it is asked last.
#[derive(Drop)]
pub struct Load {
    word: AtomicU32,
    last_until: AtomicU64,
}

impl Load {
    /// Of no session.
    pub fn new() -> Load {
        Load {
            word: AtomicU32::new(0),
            last_until: AtomicU64::new(0),
        }
    }

    /// How many dispatches the session held after its last step, with those that were expected since; 2^30 more at a
    /// reading at which it is asked last.
    #[inline(always)]
    pub fn get(&self, now: u64) -> u32 {
        let until = self.last_until.load(Ordering::Relaxed);
        asked_load(self.word.load(Ordering::Relaxed), until, now)
    }

    /// The session, and each after it in its slot, is asked last up to this reading.
    pub fn ask_last(&self, until: u64) {
        self.last_until.store(until, Ordering::Relaxed);
    }

    /// The reading up to which it is asked last.
    pub fn last_until(&self) -> u64 {
        self.last_until.load(Ordering::Relaxed)
    }

    /// One dispatch more, up to the next step.
    pub fn expect_one(&self) {
        self.word.fetch_add(1, Ordering::Relaxed);
    }

    /// Shows how many dispatches the session holds, and at most `u32::MAX`.
    #[inline(always)]
    pub fn show(&self, load: usize) {
        let load = u32::try_from(load).unwrap_or(u32::MAX);
        if self.word.load(Ordering::Relaxed) != load {
            self.word.store(load, Ordering::Relaxed);
        }
    }
}

/// The load by which a session is chosen that holds so many, and is asked last up to `until`.
#[inline(always)]
fn asked_load(load: u32, until: u64, now: u64) -> u32
    ensures { result ≡ asked_load load until now }
{
    if now < until {
        load.saturating_add(LAST)
    } else {
        load
    }
}

/// How many bytes of bodies wait in a session's queue, and how many are enough.
#[derive(Drop)]
pub struct Backlog {
    bytes: AtomicU64,
    most: u64,
}

impl Backlog {
    /// Of no session; more than `most` bytes are too many.
    pub fn new(most: u64) -> Backlog {
        Backlog {
            bytes: AtomicU64::new(0),
            most,
        }
    }

    /// Whether too many bytes waited after the last step.
    #[inline(always)]
    pub fn is_over(&self) -> bool {
        is_too_much(self.bytes.load(Ordering::Relaxed), self.most)
    }

    /// Shows that so many frames wait, and that bodies of so many bytes came to those that waited before.
    #[inline(always)]
    pub fn show(&self, frames: usize, more: usize) {
        let before = self.bytes.load(Ordering::Relaxed);
        let bytes = waiting_bytes(before, frames, more);
        if bytes != before {
            self.bytes.store(bytes, Ordering::Relaxed);
        }
    }
}

/// Whether so many bytes wait that no more is taken.
#[inline(always)]
fn is_too_much(bytes: u64, most: u64) -> bool
    ensures { result ≡ is_too_much bytes most }
{
    most < bytes
}

/// How many bytes wait where so many did, and bodies of so many came, if so many frames wait now.
#[inline(always)]
fn waiting_bytes(before: u64, frames: usize, more: usize) -> u64
    ensures { result ≡ waiting_bytes before frames more }
{
    if frames == 0 {
        0
    } else {
        before.saturating_add(more as u64)
    }
}

/// Whether a session's epoch should end.
#[derive(Drop)]
pub struct Rest {
    word: AtomicBool,
}

impl Rest {
    /// Of no session.
    pub fn new() -> Rest {
        Rest {
            word: AtomicBool::new(false),
        }
    }

    /// Whether the session's epoch should end, as was shown last.
    #[inline(always)]
    pub fn is_wanted(&self) -> bool {
        self.word.load(Ordering::Relaxed)
    }

    /// Shows it by the records that may still be written, each held dispatch apart, and the records of
    /// an epoch.
    #[inline(always)]
    pub fn show(&self, free: usize, history: usize) {
        let is_wanted = free <= history / 4;
        if self.is_wanted() != is_wanted {
            self.word.store(is_wanted, Ordering::Relaxed);
        }
    }
}
