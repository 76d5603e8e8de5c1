//! A router over sockets, from its configuration to its end.
//!
//! [`serve`] reads a configuration, listens, opens a hub, runs the tasks of `router_tasks` on as many threads as the
//! configuration says until an operator's `quit`, and closes the hub, whose audit says whether the run was in order.
#![tactic(auto)]

mod boxed;
mod end;
mod ports;
mod run;
mod serving;

pub use end::ServeEnd;
pub use serving::{serve, serve_input};
