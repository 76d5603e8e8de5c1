//! Who acts in the hub for a connection.
ghost use Rattle.router_state.specs.Seats.{GoesOn};

use crate::host::Seated;
use hub::{ClientSeat, HubLedger, ServerSeat};
use hub_close::Receipts;
use mux_agree::kinds;
use mux_history::{History, ServerId, SessionId};
use std::alloc::AllocError;

/// On which side of the router a connection is.
#[derive(Clone, Copy, Drop)]
pub enum Side {
    /// Its slot is at this place.
    Client { place: usize },
    /// It is the one to the server at this place.
    Server(ServerId),
}

/// What came of the wish to end the present history of a session.
#[derive(Clone, Copy, Debug, PartialEq, Eq)]
pub enum Rolled {
    /// The next one has begun.
    Begun,
    /// There was no memory for it.
    NoMemory,
    /// The session is closed, or holds too much for another history, or its number of epochs is the greatest.
    Refused,
}

/// The seat of a connection.
#[derive(Drop)]
pub enum AnySeat<L: HubLedger> {
    /// That of a client.
    Client(ClientSeat<L>),
    /// That of a server.
    Server(ServerSeat<L>),
}

impl<L: HubLedger> AnySeat<L> {
    /// Makes room for as many more receipts as an epoch has records. Out of memory is the one error, and changes
    /// nothing.
    pub fn grow(&mut self) -> Result<(), AllocError>
        ensures { GoesOn self.old self.new }
    {
        match self {
            AnySeat::Client(seat) => seat.grow(),
            AnySeat::Server(seat) => seat.grow(),
        }
    }

    /// Holds its receipts of these epochs, the first of which has this number, against them, and drops them; or the
    /// place of the first that is wrong.
    pub(crate) fn settle(&mut self, first: u32, epochs: &[History]) -> Result<(), usize>
        ensures { GoesOn self.old self.new }
    {
        match self {
            AnySeat::Client(seat) => seat.settle(first, epochs),
            AnySeat::Server(seat) => seat.settle(first, epochs),
        }
    }

    // The receipts of all frames that were taken and weren't dropped, the oldest first.
    fn receipts(&self) -> &Receipts {
        match self {
            AnySeat::Client(seat) => seat.receipts(),
            AnySeat::Server(seat) => seat.receipts(),
        }
    }
}

impl<L: HubLedger> Seated for AnySeat<L> {
    fn session(&self) -> SessionId {
        match self {
            AnySeat::Client(seat) => SessionId::Client(seat.client()),
            AnySeat::Server(seat) => SessionId::Server(seat.server()),
        }
    }

    fn is_closed(&self) -> bool {
        let receipts = self.receipts();
        !receipts.is_empty() && kinds::ends(receipts.last().kept.kind())
    }
}
