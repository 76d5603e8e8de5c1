//! The tasks that carry a router's frames: one on each thread that accepts, a reader and a writer for each client's
//! slot and for each server.
//!
//! A reader hands the frames of its connection to the hub in batches, and ends its session's epoch once that has few
//! places left. A writer takes what the hub has queued. At the end of a connection its seat comes back to the router.
#![tactic(auto)]

mod accept;
mod bell;
mod conduct;
mod ends;
mod intake;
mod places;
mod reader;
mod silence;
mod sink;
mod source;
mod start;
mod writer;

pub use accept::AcceptTask;
pub use reader::ReadTask;
pub use writer::WriteTask;
