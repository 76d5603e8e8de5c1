//! Why a call of the hub did nothing.

use mux_frame::Frame;
use translate_book::StepRefusal;

/// Why a call of the hub did nothing, in the order in which the causes are numbered. The frame of a
/// refused call comes back.
#[derive(Drop)]
pub enum HubFault {
    /// The session refused the frame.
    Session(StepRefusal, Frame),
    /// The gate was shut to the session.
    GateShut(Frame),
    /// The session can't be opened. To a client: each client's slot has had its session, or that of a slot that is to
    /// be used again wasn't taken out. To a server: it has joined before, or the configuration has no server of this
    /// number.
    TooManySessions,
    /// A growth was refused.
    Memory,
    /// The room of the seat's receipts is used up. `grow` makes more.
    SeatFull(Frame),
    /// The published routes had no reader to give. The call may be made again.
    NoReader,
}
