//! Calls of a session as values, and what they answer, in one form for both kinds of session.

ghost use Rattle.std.specs.Prelude.{◌≡◌, Some, None, IfOk};

use crate::hands::Held;
use mux_frame::{Frame, Memory};
use mux_history::{Cause, Name};
use translate_book::{Lost, Placed, Recall, Settled, Ticket};

/// What an accepted call tells beside the value that it gives.
#[derive(Clone, Copy)]
pub enum Told {
    Nothing,
    /// The frame is a reply that nothing asked for.
    Dropped,
    /// The frame closed the session.
    Closing(Cause),
    Noted(Name),
    Answered(Name),
    /// The client waits for the answer no more.
    Late(Name),
    /// A server's nack: the dispatch may be sent again.
    Again(Name),
    Recalled(Name),
    /// The dispatch is gone, or was recalled before.
    Stale(Name),
    /// Nothing is left to be lost.
    NoMore,
    /// The epoch that has begun, with nothing held.
    Sealed(u32),
    /// The epoch that has begun, with all that is held.
    Rolled(u32),
}

/// What an accepted call gave.
#[derive(Drop)]
pub struct Gave {
    pub told: Told,
    pub given: Option<Held>,
}

/// A step of a server's session that needs no value; the last number is the reading of the clock, in
/// milliseconds.
#[derive(Drop)]
pub enum ServerStep {
    /// A frame as a decoder gives it.
    Frame(Frame, u64),
    Clock(u64),
    Ping(u64),
    Retire(u64),
    Lose(u64),
    LoseNext,
    Seal,
    Roll,
}

/// A step of a client's session that needs no value; the last number is the reading of the clock, in
/// milliseconds.
#[derive(Drop)]
pub enum ClientStep {
    /// A frame as a decoder gives it.
    Frame(Frame, u64),
    Drain,
    Lose(u64),
    LoseNext,
    Seal,
    Roll,
}

/// A call of a server's session: a step that needs no value, or one that uses a value up. The numbers are
/// readings of the clock, in milliseconds.
#[derive(Drop)]
pub enum ServerCall {
    Step(ServerStep),
    Offer(Ticket, u64),
    Recall(Recall, u64),
}

/// A call of a client's session: a step that needs no value, or one that uses a value up.
#[derive(Drop)]
pub enum ClientCall {
    Step(ClientStep),
    Note(Placed),
    Settle(Settled),
    Nack(Ticket),
    Unroute(Ticket),
    Fail(Lost),
}

impl Gave {
    /// An answer that says nothing and gives no value.
    pub fn nothing() -> Gave
        ensures { result ≡ record { told = Told.Nothing; given = None } }
    {
        Gave::telling(Told::Nothing)
    }

    /// An answer that says this and gives no value.
    pub fn telling(told: Told) -> Gave
        ensures { result ≡ record { told = told; given = None } }
    {
        Gave { told, given: None }
    }

    /// An answer that says nothing and gives this value.
    pub fn giving(held: Held) -> Gave
        ensures { result ≡ record { told = Told.Nothing; given = Some held } }
    {
        Gave {
            told: Told::Nothing,
            given: Some(held),
        }
    }
}

impl ServerStep {
    /// An equal step, whose frame shares its bytes.
    pub fn try_copy(&self) -> Result<ServerStep, Memory>
        ensures { IfOk result (λ e. e ≡ self.now) }
    {
        Ok(match self {
            ServerStep::Frame(frame, now) => ServerStep::Frame(frame.try_copy()?, *now),
            ServerStep::Clock(now) => ServerStep::Clock(*now),
            ServerStep::Ping(now) => ServerStep::Ping(*now),
            ServerStep::Retire(now) => ServerStep::Retire(*now),
            ServerStep::Lose(now) => ServerStep::Lose(*now),
            ServerStep::LoseNext => ServerStep::LoseNext,
            ServerStep::Seal => ServerStep::Seal,
            ServerStep::Roll => ServerStep::Roll,
        })
    }
}

impl ClientStep {
    /// An equal step, whose frame shares its bytes.
    pub fn try_copy(&self) -> Result<ClientStep, Memory>
        ensures { IfOk result (λ e. e ≡ self.now) }
    {
        Ok(match self {
            ClientStep::Frame(frame, now) => ClientStep::Frame(frame.try_copy()?, *now),
            ClientStep::Drain => ClientStep::Drain,
            ClientStep::Lose(now) => ClientStep::Lose(*now),
            ClientStep::LoseNext => ClientStep::LoseNext,
            ClientStep::Seal => ClientStep::Seal,
            ClientStep::Roll => ClientStep::Roll,
        })
    }
}
