//! One turn of a poll.

/// What a turn leads to.
pub enum Step<E> {
    /// Another turn.
    Again,
    /// A wake: something was registered at.
    Wait,
    Over(E),
}
