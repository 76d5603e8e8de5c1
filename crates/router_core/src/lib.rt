//! The core of the router, on one thread: events in, notes and frames out.
#![tactic(auto)]

mod bag;
mod clients;
mod entering;
mod kept;
mod meeting;
mod reads;
mod router;
mod runs;
mod servers;
mod sides;
mod spending;

pub use core_world::{
    ClientStep, Event, EventRefusal, Hand, HandKind, Note, Refusal, ServerStep, Told, Use,
};
pub use kept::KeptCore;
pub use router::{Core, CoreConfig};
pub use runs::run;
pub use sides::{Run, Side};

/// Out of memory, where nothing else can be refused.
pub type Memory = std::alloc::AllocError;
