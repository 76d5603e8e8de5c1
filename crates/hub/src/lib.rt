//! The core of a router under running threads: each session lies under a lock of its own, and one
//! book counts what the seats did.
//!
//! Whoever acts in a hub holds a seat: one for each client, one for each server, two for those who
//! give orders. A call makes the step of its own session first, and then those that it leads to, each
//! under the lock of its session, one after another. `Hub::close` takes all seats back and reports
//! whether the histories of all sessions bear each other out.
#![tactic(auto)]

mod admin;
mod batches;
mod close;
mod desk;
mod epochs;
mod figures;
mod flow;
mod hub;
mod laws;
mod ledger;
mod obey;
mod open;
mod orders;
mod receipts;
mod remains;
mod renewal;
mod rests;
mod run;
mod seat;

pub use admin::{AdminOrder, AdminReply, OrderFault, OrderRefusal, Row};
pub use close::{CloseFault, Closed};
pub use hub::{Hub, TakenOut, parts, terms};
pub use hub_base::{Batch, Bell, Gate, GateShut, HubFault, OpenGate};
pub use hub_close::{Receipt, Receipts, Stub};
pub use hub_delivery::{DestinationCount, SealFault, client_place, server_place};
pub use hub_log::{Laid, Terms};
pub use hub_steps::{DownFigures, UpCounts, UpFigures};
pub use kept_session::{EpochRefusal, EpochRefused};
pub use laws::{a_dispatch_goes_on, a_reply_goes_home, what_goes_out_stands};
pub use ledger::HubLedger;
pub use remains::Remains;
pub use seat::{ClientSeat, OrderSeat, Seats, ServerSeat};
