//! Scripts of events for the router's core.
//!
//! [`replay`] reads a script line by line, hands the events of each line to the core, and prints what
//! they gave. A line is first read as a command (`command`); the engine then makes events of it. The
//! printed names of faults and refusals are the texts of their types.
#![tactic(auto)]

mod command;
mod connections;
mod end;
mod engine;
mod events;
mod judging;
mod placing;
mod printer;
mod reads;
mod receiving;
mod router;
mod scripts;
mod shown;
mod stream;
mod touched;
mod words;

pub use end::ReplayEnd;
pub use reads::Counted;
pub use scripts::replay;
