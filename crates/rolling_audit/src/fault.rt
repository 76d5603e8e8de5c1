//! What is told where records don't bear each other out.

use mux_history::{Name, SessionId};
use thiserror::Error;

/// Why a record is at fault.
#[derive(Clone, Copy, Debug, Error, PartialEq, Eq)]
pub enum RecordFault {
    /// It names a dispatch of another boot.
    #[error("OtherBoot")]
    OtherBoot,
    /// It is a `Took`, `TookDrained`, `Offered`, `Passed` or `Failed`, or gave a recall, and names no dispatch.
    #[error("Nameless")]
    Nameless,
    /// It is a client's, and names a dispatch of another client.
    #[error("OtherClient")]
    OtherClient,
    /// It gives a name that isn't its client's next one.
    #[error("NotNext")]
    NotNext,
    /// It is an `Offered` after a `Drained` of its session.
    #[error("AfterDrain")]
    AfterDrain,
    /// It is an `Offered` on a lapsed lease.
    #[error("Lapsed")]
    Lapsed,
    /// It is an `Epoch` or a `Rolled` that isn't what the records of its session before it lead to.
    #[error("BadEpoch")]
    BadEpoch,
    /// A dispatch begins on an open tag, or one ends whose tag isn't open under its own name.
    #[error("TagOpen")]
    TagOpen,
    /// It answers a dispatch that was answered.
    #[error("AnsweredTwice")]
    AnsweredTwice,
    /// More records name its dispatch, or pings of its session were made, than are counted.
    #[error("Uncounted")]
    Uncounted,
}

/// Which records of a dispatch aren't borne out by the others.
#[derive(Clone, Copy, Debug, Error, PartialEq, Eq)]
pub enum Flaw {
    /// It was named, and no client took it; or it was named again after it was done with.
    #[error("Untaken")]
    Untaken,
    /// An `Offered`, as SentTwice, NeverSent or NackOfSent.
    #[error("Offered")]
    Offered,
    /// A `Retried`, as SentTwice.
    #[error("Retried")]
    Retried,
    /// A `Passed`, as NeverSent.
    #[error("Passed")]
    Passed,
    /// A `Failed`, as NeverSent or LostButSettled.
    #[error("Failed")]
    Failed,
}

/// Why an audit ends, or doesn't go on.
#[derive(Clone, Copy, Debug, Error, PartialEq, Eq)]
pub enum RollingFault {
    /// Out of memory. So many of the records were taken; the others may be handed in again.
    #[error("Memory")]
    Memory {
        taken: usize,
    },
    /// The session isn't open.
    #[error("NotOpen")]
    NotOpen {
        session: SessionId,
    },
    /// The record at this place of its session's history, counted from 0, is at fault.
    #[error("{cause}")]
    Record {
        session: SessionId,
        place: u64,
        cause: RecordFault,
    },
    /// The records of a dispatch are at fault.
    #[error("{flaw}")]
    Dispatch {
        name: Name,
        flaw: Flaw,
    },
}

/// Why a session isn't opened.
#[derive(Clone, Copy, Debug, PartialEq, Eq)]
pub enum OpenFault {
    Memory,
    /// It is open.
    IsOpen,
    /// A client's number isn't above those of its slot before, or it has no slot.
    NumberUsed,
}
