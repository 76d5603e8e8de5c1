//! Why records of a run aren't taken.

use crate::fault::RollingFault;
use mux_history::SessionId;
use thiserror::Error;

/// Why the history of an epoch isn't taken.
#[derive(Clone, Copy, Debug, Error, PartialEq, Eq)]
pub enum RunFault {
    /// Out of memory. Handed in again, the same history goes on where it was.
    #[error("Memory")]
    Memory,
    /// Another epoch of the session is next, the history is shorter than what was taken of it, or there is no such
    /// session: it has ended, or its slot's present one hasn't.
    #[error("OutOfTurn")]
    OutOfTurn { session: SessionId },
    /// A record is at fault. No more is told of the run.
    #[error("{0}")]
    Rolling(RollingFault),
}
