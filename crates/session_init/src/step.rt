//! What a step of initiation gives.

use mux_frame::Frame;

/// `Opened` and `NotInit` send nothing.
#[derive(Drop)]
pub enum InitStep {
    /// The message is one of initiation, and this frame answers it.
    Send(Frame),
    /// The message ended initiation.
    Opened,
    /// The message is none of initiation, or comes where it means nothing.
    NotInit,
}
