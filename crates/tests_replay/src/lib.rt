//! Tests of the core: runs by the lists that they leave, scripts of replays, and scripts of incidents.
#![tactic(auto)]

#[cfg(test)]
mod events;
#[cfg(test)]
mod incidents;
#[cfg(test)]
mod run_rows;
#[cfg(test)]
mod scripts;
