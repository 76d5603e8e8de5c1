//! What the steps of a session answer.

use mux_history::Cause;
use translate_book::Settled;

/// What a frame of the server led to.
#[derive(Drop)]
pub enum UpStep {
    /// It was recorded, and answered where it asks for an answer.
    Nothing,
    /// It is the final reply to a dispatch.
    Settled(Settled),
    /// It is a reply that nothing asked for.
    Dropped,
    /// It closed the session.
    Closing(Cause),
}

/// What became of a recall.
#[derive(Clone, Copy, Debug, PartialEq, Eq)]
pub enum Recalled {
    /// A Tdiscarded goes out.
    Sent,
    /// The session is closed, or the dispatch is gone or was recalled before.
    Stale,
}

/// Why no ping was sent, in the order in which the causes are looked at.
#[derive(Clone, Copy, Debug, PartialEq, Eq)]
pub enum PingRefusal {
    Closed,
    /// Initiation hasn't ended.
    NotOpen,
    /// The last ping has no answer yet.
    Outstanding,
    /// No frame can be queued.
    Busy,
    /// No record can be kept.
    Spent,
}
