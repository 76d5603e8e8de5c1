//! What both kinds of session read of a frame.

ghost use Rattle.std.specs.Prelude.{◌≡◌};
ghost use Rattle.mux_model.specs.Steps.{cause_of as cause_in, is_nack as is_nack_of};

use mux_frame::Frame;
use mux_history::Cause;
use mux_message::{MessageFault, MessageKind};

/// The cause that a frame with a fault closes its session with.
pub fn cause_of(fault: MessageFault) -> Cause
    ensures { result ≡ cause_in fault }
{
    match fault {
        MessageFault::Fragment => Cause::Fragment,
        MessageFault::BadBody { place } => Cause::BadBody { place },
    }
}

/// The frame is an Rdispatch with status 2, whatever follows the status.
pub fn is_nack(frame: &Frame) -> bool
    ensures { result ≡ is_nack_of frame.now.frame }
{
    match MessageKind::of(frame.kind()) {
        MessageKind::Rdispatch if frame.body_len() > 0 => frame.body_byte(0) == 2,
        _ => false,
    }
}
