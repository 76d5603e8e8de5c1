//! A place for a session, as the lock of a slot keeps it: the session, and the pass by which all that it does is
//! added to the hub's log.
//!
//! Each method makes the steps of one function of `hub_steps`, and adds them as moves before it returns. So whoever
//! finds a place finds a session whose past is what the log has of it. Values come with a pass that has a claim for
//! each of them, and those that the steps give leave with one.
#![tactic(auto)]

mod down;
mod goals;
mod log;
mod place;
mod up;

pub use place::{Numbered, Place, Places};
