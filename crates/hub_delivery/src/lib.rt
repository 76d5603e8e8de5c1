//! The slots of all sessions of a hub, and how what a step gave comes to the sessions that it is for:
//! each under its own lock, one after another.
//!
//! It needs neither a gate nor the board of routes: a reader of the routes finds a dispatch's servers.
#![tactic(auto)]

mod carry;
mod counts;
mod epochs;
mod losses;
mod others;
mod slots;

pub use counts::{DestinationCount, DestinationCounts};
pub use epochs::SealFault;
pub use slots::{Slots, client_place, server_place};
