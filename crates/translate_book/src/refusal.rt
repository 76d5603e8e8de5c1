//! Why a session refused a step.
//!
//! `Refusal` of core_world has some of these causes once more: each layer has others beside them.

use thiserror::Error;

/// Why a step of a session was refused, in the order in which the causes are looked at.
#[derive(Clone, Copy, Debug, Error, PartialEq, Eq)]
pub enum StepRefusal {
    #[error("Closed")]
    Closed,
    /// No frame can be queued, or the book is full where a dispatch was to be taken.
    #[error("Busy")]
    Busy,
    /// Too few records can be kept.
    #[error("Spent")]
    Spent,
}

/// Why an offer was refused, in the order in which the causes are looked at.
#[derive(Clone, Copy, Debug, Error, PartialEq, Eq)]
pub enum OfferRefusal {
    #[error("Closed")]
    Closed,
    /// Initiation hasn't ended.
    #[error("NotOpen")]
    NotOpen,
    #[error("Drained")]
    Drained,
    #[error("Retired")]
    Retired,
    /// The server's lease has lapsed.
    #[error("Lapsed")]
    Lapsed,
    /// The window is used up, or too few frames can be queued.
    #[error("Full")]
    Full,
    /// Too few records can be kept.
    #[error("Spent")]
    Spent,
    /// The copy of a dispatch that may be sent again found no memory.
    #[error("Memory")]
    Memory,
}

/// Why a session wasn't sealed, in the order in which the causes are looked at.
#[derive(Clone, Copy, Debug, Error, PartialEq, Eq)]
pub enum SealRefusal {
    #[error("Closed")]
    Closed,
    /// It holds an entry, or a frame is queued.
    #[error("NotQuiet")]
    NotQuiet,
    /// More than a quarter of the places for records are free.
    #[error("NotFull")]
    NotFull,
    /// The epoch has the greatest number.
    #[error("LastEpoch")]
    LastEpoch,
}

/// Why a session wasn't rolled, in the order in which the causes are looked at.
#[derive(Clone, Copy, Debug, Error, PartialEq, Eq)]
pub enum RollRefusal {
    #[error("Closed")]
    Closed,
    /// Its entries, and the places for records that they keep, would take more than half of a history.
    #[error("NoRoom")]
    NoRoom,
    /// The epoch has the greatest number.
    #[error("LastEpoch")]
    LastEpoch,
}
