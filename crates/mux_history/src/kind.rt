//! What a recorded step did.
//!
//! The kinds stand three times in this crate: here, without their numbers in `shape`, and as numbers that are compared
//! in `same`.

use crate::session::{DrainState, InitState};
use thiserror::Error;

/// Why a frame closed its session, in the order in which the causes are looked at.
#[derive(Clone, Copy, Debug, Error, PartialEq, Eq)]
pub enum Cause {
    /// The top bit of the tag is set: a fragment of a message.
    #[error("Fragment")]
    Fragment,
    /// The field that begins at this place of the body doesn't fit.
    #[error("BadBody {place}")]
    BadBody { place: usize },
    /// A Tdispatch on tag 0.
    #[error("TagZero")]
    TagZero,
    /// A message that asks for an answer, on a tag whose dispatch isn't answered yet.
    #[error("TagInUse")]
    TagInUse,
}

/// What a quiet session keeps from one epoch to the next, by its side.
#[derive(Clone, Copy, Debug, PartialEq, Eq)]
pub enum Standing {
    /// A session of a client.
    Down {
        /// No Rinit was sent and no name was given.
        fresh: bool,
        drain: DrainState,
        /// How many dispatches were taken: the last sequence number.
        dispatches: u64,
    },
    /// A session of a server.
    Up {
        init: InitState,
        drained: bool,
        retired: bool,
        ping: bool,
        /// A lease was granted.
        leased: bool,
        /// The reading from which on the last lease has lapsed, or 0 if none was granted.
        lapse: u64,
    },
}

/// What a recorded step did. `Ponged`, `InitDone`, `Unsupported`, `Ignored`, `Closed`, `Lost`,
/// `Epoch` and `Rolled` stand on both sides; those before `Lost` are of a client's session, those
/// after it of a server's.
#[derive(Clone, Copy, Debug, PartialEq, Eq)]
pub enum RecordKind {
    /// A Tdispatch was taken.
    Took,
    /// A Tdispatch came after the client's Rdrain, and got a nack.
    TookDrained,
    /// A Tdiscarded of an open tag was answered; `recalled` where it gave a recall.
    Discarded { recalled: bool },
    /// A Tping was answered.
    Ponged,
    /// Initiation has ended.
    InitDone,
    /// The probe was sent back.
    Echoed,
    /// A Tinit came where none may.
    OutOfPlace,
    /// A message that asks for what the router doesn't do was answered so.
    Unsupported,
    /// The client answered the Tdrain.
    DrainAcked,
    /// The frame asked for nothing.
    Ignored,
    /// The place of a dispatch was noted; `recalled` where it gave a recall.
    Noted { recalled: bool },
    /// The server's reply was passed on.
    Passed,
    /// A nack was sent.
    Nacked,
    /// `no route` was sent.
    Unrouted,
    /// `upstream lost` was sent.
    Failed,
    /// The server nacked the dispatch, which may be sent again: no frame went out.
    Retried,
    /// An answer came for a dispatch that isn't open any more; `whole` where its note came too.
    Late { whole: bool },
    /// A Tdrain was sent.
    DrainAsked,
    /// A frame closed the session.
    Closed(Cause),
    /// A dispatch of a closed session gave its recall.
    Recalled,
    /// The connection was lost.
    Lost,
    /// A dispatch was sent.
    Offered,
    /// The final reply to a dispatch came, with this type byte.
    Settled(i8),
    /// The final reply to a dispatch came: an Rdispatch with status 2.
    SettledNack,
    /// A reply came that nothing asked for.
    Dropped,
    /// A ping was answered.
    PingDone,
    /// A lease of so many milliseconds was granted.
    Leased(u64),
    /// A Tdrain was answered.
    Drained,
    /// The probe came back, and Tinit was sent.
    InitAsked,
    /// A Tdiscarded was sent.
    Discarding,
    /// A reading of the clock was handed in.
    Clock,
    /// The session was retired: it takes no more dispatches.
    Retired,
    /// A Tping was sent.
    PingSent,
    /// The loss of a dispatch was told.
    LostOne,
    /// The session was sealed: an epoch begins, by its number, where the session stood so.
    Epoch { number: u32, standing: Standing },
    /// The session was rolled: an epoch begins, by its number, and all that is held goes on.
    Rolled { number: u32 },
}
