//! What can be read of the values in hand and of the sessions.

ghost use Rattle.std.specs.Prelude.{◌≡◌, map, option_copied, IfOk};
ghost use Rattle.std.specs.Option.{option_map};
ghost use Rattle.core_world.specs.Hands.{shown};
ghost use Rattle.mux_history.specs.declared.session.SessionId.TheVariants.{Client, Server};
ghost use Rattle.mux_model.specs.Events.{hand_at};
ghost use Rattle.router_core.specs.Bags.{IsRising, hands_of};
ghost use Rattle.router_core.specs.Sides.{UpAt, DownAt};
ghost use Rattle.router_core.specs.Looks.{IsDstOf, LoadOfOne, capped, kind_at, records_in};

use crate::Memory;
use crate::bag::{Item, find};
use client_session::ClientSession;
use core_world::{Hand, HandKind, Held};
use mux_history::Record;
use server_session::ServerSession;
use std::alloc::Global;

/// What the value of this number is.
pub fn hand(hands: &[Item], number: u64) -> Option<Hand>
    requires { IsRising hands.now }
    ensures { result ≡ option_map shown (hand_at number (hands_of hands.now)) }
{
    let Some(held) = find(hands, number) else {
        return None;
    };
    Some(held.shown(number))
}

/// The values in hand, by rising numbers.
///
/// # Errors
///
/// Out of memory alone.
pub fn hands(hands: &[Item], alloc: Global) -> Result<Vec<Hand>, Memory>
    ensures { IfOk result (λ l. l.items ≡ map shown (hands_of hands.now)) }
{
    let mut all = Vec::new(alloc);
    for item in hands {
        if let Some(held) = &item.held {
            all.push(held.shown(item.number))?;
        }
    }
    Ok(all)
}

/// The kind of the value of this number.
pub fn kind(hands: &[Item], number: u64) -> Option<HandKind>
    requires { IsRising hands.now }
    ensures { result ≡ kind_at number (hands_of hands.now) }
{
    let Some(held) = find(hands, number) else {
        return None;
    };
    Some(held.shown(number).kind)
}

/// The destination of the ticket of this number.
pub fn dst(hands: &[Item], number: u64) -> Option<&[u8]>
    requires { IsRising hands.now }
    ensures { IsDstOf (hand_at number (hands_of hands.now)) (option_copied result) }
{
    match find(hands, number) {
        Some(Held::Ticket(ticket)) => {
            let _spelled = ticket.frame();
            Some(ticket.dst())
        }
        _ => None,
    }
}

/// The records of the present epoch of the client's session of this number.
pub fn client_records(clients: &[ServerSession], number: u64) -> Option<&[Record]>
    ensures { option_map (λ r. r.now) result ≡ records_in (λ s. s.records) clients.now number }
{
    if number == 0 {
        return None;
    }
    let Some(session) = clients.get((number - 1) as usize) else {
        return None;
    };
    Some(session.history())
}

/// The records of the present epoch of the server's session of this number.
pub fn server_records(servers: &[ClientSession], number: u64) -> Option<&[Record]>
    ensures { option_map (λ r. r.now) result ≡ records_in (λ s. s.records) servers.now number }
{
    if number == 0 {
        return None;
    }
    let Some(session) = servers.get((number - 1) as usize) else {
        return None;
    };
    Some(session.history())
}

fn capped(count: usize) -> u32
    ensures { result ≡ capped count }
{
    if count <= u32::MAX as usize {
        count as u32
    } else {
        u32::MAX
    }
}

/// How many dispatches the client's session of this number holds.
pub fn client_load(clients: &[ServerSession], number: u64) -> Option<u32>
    ensures { LoadOfOne DownAt Client clients.now number result }
{
    if number == 0 {
        return None;
    }
    let Some(session) = clients.get((number - 1) as usize) else {
        return None;
    };
    Some(capped(session.load()))
}

/// How many dispatches the server's session of this number holds.
pub fn server_load(servers: &[ClientSession], number: u64) -> Option<u32>
    ensures { LoadOfOne UpAt Server servers.now number result }
{
    if number == 0 {
        return None;
    }
    let Some(session) = servers.get((number - 1) as usize) else {
        return None;
    };
    Some(capped(session.load()))
}
