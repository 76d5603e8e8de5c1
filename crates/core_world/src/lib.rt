//! What the core of the router has to do with a world, whatever its sessions are: values in hand,
//! events and what they tell, calls of sessions in one form for both sides, and the lemmas by which
//! one call of one session is one event of the world.
#![tactic(auto)]

mod calls;
mod events;
mod hands;
mod refusal;

pub use calls::{ClientCall, ClientStep, Gave, ServerCall, ServerStep, Told};
pub use events::{Event, Note, Use};
pub use hands::{Hand, HandKind, Held};
pub use refusal::{EventRefusal, Refusal};
