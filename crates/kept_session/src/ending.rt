//! How a session's epoch ends, and why it doesn't.

use mux_history::History;
use translate_book::{RollRefusal, SealRefusal};

/// How the epoch of a session ends.
#[derive(Clone, Copy, Debug, PartialEq, Eq)]
pub enum EpochEnd {
    /// The session is sealed. It has to be quiet.
    Seal,
    /// The session is rolled. What it holds goes on in the next epoch.
    Roll,
}

/// Why an epoch didn't end.
#[derive(Clone, Copy, Debug, PartialEq, Eq)]
pub enum EpochRefusal {
    /// There is no session.
    NoSession,
    /// The history that was handed in isn't empty, or its room isn't the limit `history`.
    Misfit,
    /// So few records are written that the next history would have few more places.
    Early,
    /// The session wasn't sealed.
    Seal(SealRefusal),
    /// The session wasn't rolled.
    Roll(RollRefusal),
    /// A growth was refused.
    Memory,
}

/// An epoch didn't end, and nothing was done. The history that was handed in comes back.
#[derive(Drop)]
pub struct EpochRefused {
    pub why: EpochRefusal,
    pub fresh: History,
}
