//! Whether more may be sent on a session: leases and draining. Nothing here takes memory or waits.
#![tactic(auto)]

mod drain;
mod lease;

pub use drain::{DrainIn, DrainOut};
pub use lease::{Lease, granted};
