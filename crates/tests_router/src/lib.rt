//! Tests of a whole router over sockets of 127.0.0.1: its clients, a server and an operator are played here.
#![tactic(auto)]

#[cfg(test)]
mod loopback;
#[cfg(test)]
mod peers;
#[cfg(test)]
mod rolling;
#[cfg(test)]
mod run;
#[cfg(test)]
mod stages;
