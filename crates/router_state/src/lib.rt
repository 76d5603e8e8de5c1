//! What all tasks of a router share.
//!
//! A [`Router`] has the hub with the sessions and the seats that came back, and what is [`Shared`] beside them: a
//! [`Switchboard`] with a [`Slot`] for each connection, the [`Notify`]s at which tasks wait, and the [`Stage`] of the
//! router. Tasks know it as a [`Host`] of sessions, a [`Control`] and an [`Admin`]: so what is proved of them names no
//! hub.
#![tactic(auto)]

mod auditor;
mod batches;
mod endings;
mod given;
mod gone;
mod halves;
mod host;
mod kinds;
mod large;
mod leaving;
mod limits;
mod meter;
mod notify;
mod outcome;
mod ports;
mod probe;
mod recorder;
mod renewal;
mod router;
mod seat;
mod shared;
mod slot;
mod stage;
mod switchboard;
mod unaudited;
mod upstream;
mod wait;
mod worker;

pub use auditor::Auditor;
pub use batches::Batches;
pub use endings::Endings;
pub use gone::{client_figures, is_done_with};
pub use halves::Halves;
pub use host::{Admin, Control, Host, Routed, Seated};
pub use large::{add, put};
pub use leaving::{Leaving, leaving_of, server_leave};
pub use limits::SideLimits;
pub use meter::{Glance, Meter, Tally, Way};
pub use notify::Notify;
pub use outcome::Outcome;
pub use ports::{Ports, close, poll_accept, poll_client};
pub use probe::Probe;
pub use recorder::{Kept, Recorder, Tape};
pub use router::{Fittings, Router};
pub use seat::{AnySeat, Rolled, Side};
pub use shared::{Ejection, Patience, Shared, Timing};
pub use slot::Slot;
pub use stage::{Ending, Stage};
pub use switchboard::Switchboard;
pub use upstream::{LONGEST, MOST_DOUBLINGS, Upstream, whole_wait};
pub use wait::{is_ready, wait_at};
pub use worker::Worker;
