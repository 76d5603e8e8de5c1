//! Initiation of sessions: the optional Tinit of a client, and what the router sends towards a
//! server before the first dispatch.
//!
//! The steps take no memory and refuse nothing: a message that is none of initiation is told so.
#![tactic(auto)]

mod client;
mod server;
mod step;

pub use client::ClientInit;
pub use server::ServerInit;
pub use step::InitStep;
