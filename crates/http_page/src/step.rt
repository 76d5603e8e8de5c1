//! One turn of a poll, and where a session stands.

use crate::HttpEnd;

/// What a turn leads to.
#[derive(Clone, Copy)]
pub(crate) enum Step {
    /// Another turn.
    Again,
    /// A wake: something was registered at.
    Wait,
    Over(HttpEnd),
}

/// What a session does next.
#[derive(Clone, Copy)]
pub(crate) enum Stage {
    /// It reads up to the end of the request's head.
    Reading,
    /// It writes the response.
    Writing,
    /// It shuts the write half down.
    Closing,
    /// It reads what is still sent, up to as many bytes, and throws it away.
    Draining(usize),
}
