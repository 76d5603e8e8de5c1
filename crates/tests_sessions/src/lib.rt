//! Tests of sessions through their public calls, with what their records say: towards clients, and towards servers.
#![tactic(auto)]

#[cfg(test)]
mod client_rolls;
#[cfg(test)]
mod client_rows;
#[cfg(test)]
mod frames;
#[cfg(test)]
mod play;
#[cfg(test)]
mod server_rolls;
#[cfg(test)]
mod server_rows;
#[cfg(test)]
mod towards_clients;
#[cfg(test)]
mod towards_servers;
