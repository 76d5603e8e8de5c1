//! The session that an event goes to, read before and after the event.
//!
//! Looks at clients and servers are twins, each by that side's definition.

ghost use Rattle.std.specs.Prelude.{◌≡◌, ℕ, reverse, IfOk, Some, option_copied};
ghost use Rattle.core_world.specs.Events.{call_in, event_of, use_of};
ghost use Rattle.core_world.specs.Sides.{At};
ghost use Rattle.mux_history.specs.Bounds.{Bounds};
ghost use Rattle.mux_model.specs.Entries.{said_by};
ghost use Rattle.mux_model.specs.Events.{connection_at};
ghost use Rattle.mux_model.specs.Steps.{Call};
ghost use Rattle.mux_model.specs.World.{Connection, World};
ghost use Rattle.router_core.specs.Entries.{IsLook, LooksAt, OutAt, goes_to, newest};
ghost use Rattle.router_core.specs.Runs.{GivesLast, IsMet};
ghost use Rattle.router_core.specs.Sides.{DownAt, UpAt};
ghost use Rattle.router_core.specs.Worlds.{IsCoreOf};

use crate::Memory;
use crate::entering::Look;
use crate::router::Core;
use client_session::ClientSession;
use core_world::{Event, Hand, Use};
use mux_frame::Frame;
use mux_history::{Record, SessionId};
use server_session::ServerSession;

/// The session that an event goes to, as it stood before.
#[derive(Clone, Copy)]
pub struct Met {
    pub session: SessionId,
    pub look: Look,
}

fn last_of(history: &[Record]) -> Option<Record>
    ensures { result ≡ newest (reverse history.now) }
{
    if history.is_empty() {
        return None;
    }
    Some(history[history.len() - 1])
}

fn look_down(session: &ServerSession) -> Look
    ensures { (limits : Bounds) (number : ℕ) (c : Connection) → DownAt limits number session.now c → IsLook result c }
{
    let history = session.history();
    Look {
        epoch: session.epoch(),
        count: history.len(),
        last: last_of(history),
        queued: session.queued(),
    }
}

fn look_up(session: &ClientSession) -> Look
    ensures { (limits : Bounds) (number : ℕ) (c : Connection) → UpAt limits number session.now c → IsLook result c }
{
    let history = session.history();
    Look {
        epoch: session.epoch(),
        count: history.len(),
        last: last_of(history),
        queued: session.queued(),
    }
}

fn look_client(clients: &[ServerSession], number: u64) -> Option<Look>
    ensures { LooksAt DownAt clients.now number result }
{
    if number == 0 {
        return None;
    }
    let Some(session) = clients.get((number - 1) as usize) else {
        return None;
    };
    Some(look_down(session))
}

fn look_server(servers: &[ClientSession], number: u64) -> Option<Look>
    ensures { LooksAt UpAt servers.now number result }
{
    if number == 0 {
        return None;
    }
    let Some(session) = servers.get((number - 1) as usize) else {
        return None;
    };
    Some(look_up(session))
}

/// How a session stands.
pub fn look(core: &Core, session: SessionId) -> Option<Look>
    ensures { (w : World) → IsCoreOf core.now w → At IsLook result (connection_at w.boot session w.connections) }
{
    match session {
        SessionId::Client(number) => look_client(core.clients(), number),
        SessionId::Server(number) => look_server(core.servers(), number),
    }
}

fn copy_of(frame: Option<&Frame>) -> Result<Option<Frame>, Memory>
    ensures { IfOk result (λ f. said_by f ≡ said_by (option_copied frame.entry)) }
{
    match frame {
        Some(frame) => Ok(Some(frame.try_copy()?)),
        None => Ok(None),
    }
}

fn out_client(clients: &[ServerSession], number: u64) -> Result<Option<Frame>, Memory>
    ensures { IfOk result (λ f. OutAt DownAt clients.now number (said_by f)) }
{
    if number == 0 {
        return Ok(None);
    }
    let Some(session) = clients.get((number - 1) as usize) else {
        return Ok(None);
    };
    copy_of(session.last_out())
}

fn out_server(servers: &[ClientSession], number: u64) -> Result<Option<Frame>, Memory>
    ensures { IfOk result (λ f. OutAt UpAt servers.now number (said_by f)) }
{
    if number == 0 {
        return Ok(None);
    }
    let Some(session) = servers.get((number - 1) as usize) else {
        return Ok(None);
    };
    copy_of(session.last_out())
}

/// A copy of the last of the frames that a session has queued.
pub fn last_out(core: &Core, session: SessionId) -> Result<Option<Frame>, Memory>
    ensures { GivesLast core.now session result }
{
    match session {
        SessionId::Client(number) => out_client(core.clients(), number),
        SessionId::Server(number) => out_server(core.servers(), number),
    }
}

fn goes_to(hand: &Hand, by: Use) -> Option<SessionId>
    ensures { result ≡ goes_to hand.now (use_of by) }
{
    match by {
        Use::Offer { server, .. } => Some(SessionId::Server(server)),
        Use::Recall { .. } => match hand.server {
            Some(server) => Some(SessionId::Server(server)),
            None => None,
        },
        Use::Note | Use::Settle | Use::Nack | Use::Unroute | Use::Fail => {
            Some(SessionId::Client(hand.name.client))
        }
    }
}

/// The session that an event goes to. None if it goes to none, or its value isn't in hand.
pub fn session_of(core: &Core, event: &Event) -> Option<SessionId>
    ensures { (a : SessionId × Call) → call_in core.now.hands (event_of event.now) ≡ Some a → result ≡ Some a.0 }
{
    match event {
        Event::Client { number, .. } => Some(SessionId::Client(*number)),
        Event::Server { number, .. } => Some(SessionId::Server(*number)),
        Event::Spend { hand, by } => {
            let Some(hand) = core.hand(*hand) else {
                return None;
            };
            goes_to(&hand, *by)
        }
        _ => None,
    }
}

/// The session that an event goes to. None where there is no such session.
pub fn meet(core: &Core, event: &Event) -> Option<Met>
    ensures { (w : World) → IsCoreOf core.now w → IsMet w (event_of event.now) result }
{
    let Some(session) = session_of(core, event) else {
        return None;
    };
    let Some(look) = look(core, session) else {
        return None;
    };
    Some(Met { session, look })
}
