//! What the slots of a hub and the hub itself speak in: batches of frames with what their steps give,
//! bells, the gate, faults, locks, and the figures that are read without one.
#![tactic(auto)]

mod adaptive;
mod batch;
mod bell;
mod door;
mod errands;
mod fault;
mod shown;

pub use adaptive::AdaptiveMutex;
pub use batch::Batch;
pub use bell::{Bell, Rings};
pub use door::{Gate, GateShut, OpenGate};
pub use errands::{Back, Errand, Errands, Value};
pub use fault::HubFault;
pub use shown::{Backlog, Load, Rest};
