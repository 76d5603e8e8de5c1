//! The script of an incident: what `mux_replay` is given to take the steps of a router's sessions again.
//!
//! Each step of a session that isn't refused writes one record, and each record is the mark of one
//! command of a script (`command`). [`script`] writes these commands in an order in which each value in
//! hand is there when it is used.
#![tactic(auto)]

mod command;
mod incident;
mod laws;
mod script_writer;
mod sendings;
mod shown;
mod text;
mod values;
mod writing;

pub use command::{Command, Order, Purpose, ValueKind, down_command, up_command, value_of};
pub use incident::{Conversation, Incident, Server};
pub use laws::records_tell_calls;
pub use writing::script;
