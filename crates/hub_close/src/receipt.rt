//! Receipts, and what a seat keeps of them.
ghost use Rattle.std.specs.Prelude.{◌≡◌};
ghost use Rattle.hub_close.specs.Receipts.{stub_of};

use mux_history::{Record, SessionId};

/// What a seat keeps of a receipt, whose session is the seat's own.
#[derive(Clone, Copy, Debug)]
pub struct Stub {
    pub kept: Record,
    /// Places count from 0, in each epoch anew.
    pub place: usize,
    /// Epochs count from 0.
    pub epoch: u32,
}

/// That a step left this record at this place of an epoch of the session's history.
#[derive(Clone, Copy, Debug)]
pub struct Receipt {
    pub session: SessionId,
    /// Epochs count from 0.
    pub epoch: u32,
    /// Places count from 0, in each epoch anew.
    pub place: usize,
    pub kept: Record,
}

impl Receipt {
    /// The receipt of this session.
    pub fn of(session: SessionId, stub: Stub) -> Receipt
        ensures session { result.session ≡ session }
        ensures stub { stub_of result ≡ stub }
    {
        let Stub { kept, place, epoch } = stub;
        Receipt {
            session,
            epoch,
            place,
            kept,
        }
    }
}
