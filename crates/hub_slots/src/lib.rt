//! The slots of a hub: each holds one session under a lock of its own.
//!
//! A method of a slot takes the lock, calls a method of the `Place` that it keeps, none of which can wait for
//! another lock, and lets go of it before it returns.
#![tactic(auto)]

mod choice;
mod down_slot;
mod histories;
mod up_slot;

pub use choice::choose;
pub use down_slot::DownSlot;
pub use histories::{no_downs, no_ups, of_clients, of_servers};
pub use up_slot::UpSlot;
