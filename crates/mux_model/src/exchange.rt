//! What one step did on the wire.

use mux_frame::Frame;
use mux_history::Record;
use std::marker::Model;

/// One step of a session: its record, the message that it took, and then the message that it sent.
#[derive(Drop)]
pub struct Exchange {
    pub rec: Option<Record>,
    pub taken: Option<Frame>,
    pub sent: Option<Frame>,
}

impl Model for Exchange {
    ghost use Rattle.mux_model.specs.Entries.{Exchange, said_by};

    ghost Value = { Exchange };

    ghost view = { λ e. record { rec = e.rec; taken = said_by e.taken; sent = said_by e.sent } };
}
