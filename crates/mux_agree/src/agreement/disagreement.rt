//! What is told where histories disagree.

use mux_history::SessionId;
use thiserror::Error;

/// Why a record is at fault, in the order in which the causes are looked for.
///
/// A tag is open under the name of the last `Took` or `Offered` on it, where no `Discarded`,
/// `Passed`, `Nacked`, `Unrouted`, `Failed` or `Settled` on it came after that in the history.
///
/// A record whose cause asks for a name, and which has none, is at fault: an `Offered`, `Passed` or
/// `Failed` as NeverSent; a `Settled`, `Discarded`, `Nacked` or `Unrouted` as TagOpen. A `Took`
/// or `TookDrained` without a name is at fault on an open tag alone, and opens none.
#[derive(Clone, Copy, Debug, Error, PartialEq, Eq)]
pub enum DisagreementCause {
    /// An `Offered` of a name with more `Offered` than one and its `Retried`; or a `Retried` of one
    /// with more `Retried` than `SettledNack`.
    #[error("SentTwice")]
    SentTwice,
    /// A second record of a name among `Discarded`, `TookDrained`, `Passed`, `Nacked`, `Unrouted`
    /// and `Failed`.
    #[error("AnsweredTwice")]
    AnsweredTwice,
    /// An `Offered` of a name without a `Took` or `TookDrained`, a `Passed` of a name without both an
    /// `Offered` and a final reply or with more of those than of these, or a `Failed` of a name
    /// without an `Offered`.
    #[error("NeverSent")]
    NeverSent,
    /// An `Offered` of a name with a `TookDrained`; or with a `Nacked` or `Unrouted` and more
    /// `Offered` than `SettledNack`.
    #[error("NackOfSent")]
    NackOfSent,
    /// A `Failed` of a name with an `Offered`, and with a `Settled` or without a `LostOne`.
    #[error("LostButSettled")]
    LostButSettled,
    /// A `Took`, `TookDrained` or `Offered` on an open tag; or a `Settled`, `Discarded`, `Passed`,
    /// `Nacked`, `Unrouted` or `Failed` whose tag isn't open under its own name.
    #[error("TagOpen")]
    TagOpen,
    /// An `Offered` after a `Drained` of its history.
    #[error("AfterDrain")]
    AfterDrain,
    /// An `Offered` whose reading isn't below the lapse of the last `Leased` before it in its history:
    /// that record's reading and its milliseconds, capped at `u64::MAX`.
    #[error("Lapsed")]
    Lapsed,
    /// An `Epoch` that isn't what the records of its session before it lead to.
    #[error("BadEpoch")]
    BadEpoch,
}

/// The first record at fault: its session, its place in that session's history, counted from 0, and
/// its least cause.
#[derive(Clone, Copy, Debug, PartialEq, Eq)]
pub struct Disagreement {
    pub session: SessionId,
    pub place: usize,
    pub cause: DisagreementCause,
}
