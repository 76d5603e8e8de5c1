//! What the steps of a session answer.

ghost use Rattle.std.specs.Prelude.{◌≡◌, if◌then◌else◌};

use mux_history::Cause;
use thiserror::Error;
use translate_book::{Recall, Ticket};

/// What a frame of the client led to.
#[derive(Drop)]
pub enum DownStep {
    /// It was recorded, and answered where it asks for an answer.
    Nothing,
    /// It is a dispatch, which was taken.
    Take(Ticket),
    /// It discards a dispatch that was sent to a server.
    Recall(Recall),
    /// It closed the session.
    Closing(Cause),
}

/// What became of an answer to a dispatch.
#[derive(Drop)]
pub enum Answer {
    /// It goes out to the client.
    Answered,
    /// The client waits for it no more: it discarded the dispatch, or is gone.
    Late,
    /// It is a server's nack, and the dispatch may be sent again: nothing goes out.
    Again(Ticket),
}

impl Answer {
    /// What became of an answer that goes out, or doesn't.
    #[inline(always)]
    pub(crate) fn of(sent: bool) -> Answer
        ensures { result ≡ (if sent then Answer.Answered else Answer.Late) }
    {
        if sent { Answer::Answered } else { Answer::Late }
    }
}

/// Why no Tdrain was sent, in the order in which the causes are looked at.
#[derive(Clone, Copy, Debug, Error, PartialEq, Eq)]
pub enum DrainRefusal {
    #[error("Closed")]
    Closed,
    #[error("AlreadyDraining")]
    AlreadyDraining,
    /// No frame can be queued.
    #[error("Busy")]
    Busy,
    /// No record can be kept.
    #[error("Spent")]
    Spent,
}
