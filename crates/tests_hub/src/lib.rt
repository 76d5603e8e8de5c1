//! Tests of the hub through its public calls, on one thread.
#![tactic(auto)]

#[cfg(test)]
mod bells;
#[cfg(test)]
mod epochs;
#[cfg(test)]
mod frames;
#[cfg(test)]
mod given_up;
#[cfg(test)]
mod hubs;
#[cfg(test)]
mod play;
#[cfg(test)]
mod renewed;
#[cfg(test)]
mod rows;
#[cfg(test)]
mod sides;
#[cfg(test)]
mod steps;
