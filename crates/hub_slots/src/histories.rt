//! The histories of all sessions, at the end.
//!
//! Clients and servers have twins here: their histories are two types, under two definitions.
ghost use Rattle.std.specs.Prelude.{◌≡◌, ◌<◌, ◌≤◌, All, IfOk, length, vec_len};
ghost use Rattle.hub_slots.specs.Histories.{AreOfOne, HasNoDown, HasNoUp, IsKeptDown, IsKeptUp};

use crate::down_slot::DownSlot;
use crate::up_slot::UpSlot;
use hub_log::Room;
use mux_agree::{DownHistory, UpHistory};
use mux_history::{History, ServerId};
use route_table::Server;
use std::alloc::{AllocError, Global};

/// The histories of the clients' sessions, at the places of their slots, with the clients' numbers. It takes no memory.
pub fn of_clients<B: Room>(slots: Vec<DownSlot<B>>, histories: Vec<DownHistory>) -> Vec<DownHistory>
    requires { (vec_len slots ≤ vec_len histories) × All HasNoDown histories.items }
    ensures { All IsKeptDown result.items }
{
    let mut histories = histories;
    let mut slots = slots;
    while let Some(slot) = slots.pop() {
        if let Some((client, session)) = slot.into_seated() {
            let epochs = session.into_histories();
            put_client(&mut histories, slots.len(), DownHistory { client, epochs });
        }
    }
    histories
}

fn put_client(histories: &mut Vec<DownHistory>, at: usize, history: DownHistory)
    requires { (at < vec_len histories.old) × All IsKeptDown histories.old.items × IsKeptDown history }
    ensures { (vec_len histories.new ≡ vec_len histories.old) × All IsKeptDown histories.new.items }
{
    histories[at] = history;
}

/// The histories of the servers' sessions, at the places of their slots, with the sessions' numbers. It takes no memory.
pub fn of_servers<B: Room>(slots: Vec<UpSlot<B>>, histories: Vec<UpHistory>) -> Vec<UpHistory>
    requires { (vec_len slots ≤ vec_len histories) × All HasNoUp histories.items }
    ensures { All IsKeptUp result.items }
{
    let mut histories = histories;
    let mut slots = slots;
    while let Some(slot) = slots.pop() {
        if let Some((server, session)) = slot.into_seated() {
            put_server(
                &mut histories,
                slots.len(),
                server,
                session.into_histories(),
            );
        }
    }
    histories
}

fn put_server(histories: &mut Vec<UpHistory>, at: usize, server: ServerId, epochs: Vec<History>)
    requires { (at < vec_len histories.old) × All IsKeptUp histories.old.items × AreOfOne epochs.items }
    ensures { (vec_len histories.new ≡ vec_len histories.old) × All IsKeptUp histories.new.items }
{
    let history = &mut histories[at];
    history.server = server;
    history.epochs = epochs;
}

/// A history with no epoch for each of so many clients.
pub fn no_downs(alloc: Global, count: u64) -> Result<Vec<DownHistory>, AllocError>
    ensures { IfOk result (λ v. (vec_len v ≡ count) × All HasNoDown v.items) }
{
    let mut histories = Vec::with_capacity(alloc, count as usize)?;
    for place in 0..count {
        histories.push_reserved(DownHistory {
            client: place + 1,
            epochs: Vec::new(alloc),
        });
    }
    Ok(histories)
}

/// A history with no epoch for each of these servers.
pub fn no_ups(alloc: Global, servers: &[Server]) -> Result<Vec<UpHistory>, AllocError>
    ensures { IfOk result (λ v. (vec_len v ≡ length servers.now) × All HasNoUp v.items) }
{
    let mut histories = Vec::with_capacity(alloc, servers.len())?;
    for (place, server) in servers.iter().enumerate() {
        histories.push_reserved(UpHistory {
            server: place as u64,
            mode: server.init,
            epochs: Vec::new(alloc),
        });
    }
    Ok(histories)
}
