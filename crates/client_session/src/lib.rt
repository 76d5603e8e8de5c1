//! The router as the client of one server: dispatches go out on tags of its own, and what the
//! server sends is answered, settled or dropped.
//!
//! A session keeps the list of its steps as records and frames. Each call does what the step
//! relation of `mux_model` says of that list, and none after `ClientSession::open` takes memory but an
//! offer of a dispatch that may be sent again.
#![tactic(auto)]

mod answers;
mod session;

pub use answers::{PingRefusal, Recalled, UpStep};
pub use session::ClientSession;
