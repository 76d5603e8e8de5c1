//! One turn of a poll, and where a session stands.

use crate::LineEnd;

/// What a turn leads to.
#[derive(Clone, Copy)]
pub enum Step {
    /// Another turn.
    Again,
    /// A wake: something was registered at.
    Wait,
    Over(LineEnd),
}

/// What a session does once nothing is left to be written.
#[derive(Clone, Copy)]
pub enum Stage {
    /// It takes the next line.
    Open,
    /// It ends: `quit` was carried out.
    Leaving,
    /// It shuts the write half down: a line was refused.
    Refusing,
    /// It reads what is still sent, up to as many bytes, and throws it away.
    Draining(usize),
}
