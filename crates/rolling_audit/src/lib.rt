//! Whether the records of a run bear each other out, told while the run goes on.
//!
//! Records come by session, as many at a time as one likes, in any order of sessions. What is kept of them grows with
//! the dispatches that are under way and with the sessions that are open, however long the run is. A `RunAudit` takes
//! them epoch by epoch, and knows which is next.
#![tactic(auto)]

mod dues;
mod fault;
mod laws;
mod life;
mod lives;
mod near;
mod rolling;
mod run;
mod run_fault;
mod sent;
mod session;
mod slot;
mod start;
mod tags;
mod trace;
mod trail;
mod turns;
mod verdict;
mod walk;

pub use dues::Due;
pub use fault::{Flaw, OpenFault, RecordFault, RollingFault};
pub use laws::accuse_rightly;
pub use life::{Life, gives_recall};
pub use rolling::RollingAudit;
pub use run::RunAudit;
pub use run_fault::RunFault;
pub use slot::{server_slot, slot_of};
pub use trace::Trace;
pub use verdict::{audit, audit_recalls};
