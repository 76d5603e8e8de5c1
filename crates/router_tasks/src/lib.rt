//! All tasks of a router over sockets: those of `router_traffic`, one for the admin port, one for each port where
//! figures are asked for, and the ticker.
//!
//! Each of them is a [`Task`], a future that a runtime polls. They share a `Router` of `router_state`. The ticker has
//! the others look again, and ends epochs.
#![tactic(auto)]

mod admin;
mod ask;
mod drains;
mod incident;
mod rows;
mod servers;
mod status;
mod talk;
mod task;
mod ticker;

pub use admin::AdminTask;
pub use ask::{AskTask, Speech};
pub use drains::Drains;
pub use task::Task;
pub use ticker::Ticker;
