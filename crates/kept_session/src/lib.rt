//! Sessions whose state is what their own records say.
//!
//! `KeptClientSession` is a `ClientSession`, and `KeptServerSession` a `ServerSession`, with the fact
//! that its own calls have led to its state. So whoever takes it from behind a lock, with no list of
//! its steps at hand, finds the dispatches that it holds and its flags as a reader of its history
//! finds them.
#![tactic(auto)]

mod client;
mod ending;
mod server;

pub use client::KeptClientSession;
pub use ending::{EpochEnd, EpochRefusal, EpochRefused};
pub use server::KeptServerSession;
