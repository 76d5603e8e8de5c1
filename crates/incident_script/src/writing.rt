//! The script of an incident.

use crate::incident::Incident;
use crate::script_writer::ScriptWriter;
use std::alloc::{AllocError, Global};

/// The script that takes the steps of all sessions of a boot again, each session's in their order:
/// played by `mux_replay`, it sends the frames that went out.
///
/// A step is written once the value in hand that it uses is there, and of those that may be written
/// the one with the least reading first. What can't be written is left out, and with it what comes
/// later in that session: a record whose frame isn't there, or whose value comes of a record that
/// isn't there. So the script takes the first steps of each session.
///
/// Out of memory is the one error. The steps grow as `n log s` with the number of records and of
/// sessions; with `retries` above 0 the offers are sorted once, too.
pub fn script(alloc: Global, incident: &Incident) -> Result<String, AllocError> {
    ScriptWriter::open(alloc, incident)?.play()
}
