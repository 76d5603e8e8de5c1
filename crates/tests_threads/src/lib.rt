//! Tests that start threads: of the hub through its public calls, of its log, and of routes.
#![tactic(auto)]

#[cfg(test)]
mod batches;
#[cfg(test)]
mod client;
#[cfg(test)]
mod frames;
#[cfg(test)]
mod held;
#[cfg(test)]
mod jobs;
pub mod round;
#[cfg(test)]
mod routes;
#[cfg(test)]
mod run;
#[cfg(test)]
mod server;
#[cfg(test)]
mod sides;
#[cfg(test)]
mod threads;
