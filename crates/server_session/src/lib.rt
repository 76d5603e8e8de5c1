//! The router as the server of one client: its dispatches are taken, and each is answered once at
//! most, on the tag that it came with.
//!
//! A session keeps the list of its steps as records and frames. Each call does what the step
//! relation of `mux_model` says of that list, and none after `ServerSession::open` takes memory.
#![tactic(auto)]

mod answers;
mod session;

pub use answers::{Answer, DownStep, DrainRefusal};
pub use session::{Owed, ServerSession};
