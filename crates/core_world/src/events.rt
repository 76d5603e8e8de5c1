//! What happens to the core, and what it tells.

ghost use Rattle.std.specs.Prelude.{◌≡◌, IfOk};

use crate::calls::{ClientStep, ServerStep, Told};
use crate::hands::Hand;
use mux_frame::{Frame, Memory};
use mux_history::{InitMode, SessionId};

/// One event: a session that is opened, one step of a session, or a restart. Sessions of a side are
/// numbered from 1 as they are opened.
#[derive(Drop)]
pub enum Event {
    OpenClient,
    OpenServer(InitMode),
    Client { number: u64, step: ClientStep },
    Server { number: u64, step: ServerStep },
    /// The value of this number is used up by a step.
    Spend { hand: u64, by: Use },
    /// The next frame of those queued is taken out.
    TakeOut(SessionId),
    /// All sessions and values are gone; the next boot begins.
    Restart,
}

/// What a value in hand is used for; `now` is the reading of the clock, in milliseconds.
#[derive(Clone, Copy, Debug, PartialEq, Eq)]
pub enum Use {
    /// A ticket is offered to a server.
    Offer { server: u64, now: u64 },
    /// The place of a dispatch is noted by its client's session.
    Note,
    /// A reply goes to the client.
    Settle,
    /// A ticket is answered with a nack.
    Nack,
    /// A ticket is answered with `no route`.
    Unroute,
    /// A loss is answered with `upstream lost`.
    Fail,
    /// A recall goes to the server that it names.
    Recall { now: u64 },
}

/// What an accepted event told.
#[derive(Drop)]
pub enum Note {
    Opened(SessionId),
    /// What a step told, and the value that it gave.
    Told { told: Told, hand: Option<Hand> },
    /// The frame that was taken out; none where none is queued, or the session is closed.
    Out(Option<Frame>),
    /// The number of the boot that has begun.
    Booted(u64),
}

impl Event {
    /// An equal event, whose frame shares its bytes.
    pub fn try_copy(&self) -> Result<Event, Memory>
        ensures { IfOk result (λ e. e ≡ self.now) }
    {
        Ok(match self {
            Event::OpenClient => Event::OpenClient,
            Event::OpenServer(mode) => Event::OpenServer(*mode),
            Event::Client { number, step } => Event::Client {
                number: *number,
                step: step.try_copy()?,
            },
            Event::Server { number, step } => Event::Server {
                number: *number,
                step: step.try_copy()?,
            },
            Event::Spend { hand, by } => Event::Spend {
                hand: *hand,
                by: *by,
            },
            Event::TakeOut(session) => Event::TakeOut(*session),
            Event::Restart => Event::Restart,
        })
    }
}
