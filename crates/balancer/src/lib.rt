//! Which server a dispatch goes to: the one with the least load, or the one with the least load that takes it.
//!
//! Nothing here takes memory or waits.
#![tactic(auto)]

mod choice;
mod least;
mod offers;
mod places;

pub use choice::order;
pub use least::{Loads, choose};
pub use offers::{Offerer, place};
pub use places::Order;
