//! A value in hand as the call that uses it up.

ghost use Rattle.std.specs.Prelude.{◌≡◌, true, Some, IfOk, IfErr, IfSome, is_some};
ghost use Rattle.mux_model.specs.Events.{spent};
ghost use Rattle.core_world.specs.Hands.{held_of};
ghost use Rattle.core_world.specs.Events.{use_of};
ghost use Rattle.router_core.specs.Uses.{DoesAt, IsReadAimed, aimed_call, gives_by, held_by, may_give, missing_in};

use crate::{clients, servers};
use client_session::ClientSession;
use core_world::{ClientCall, EventRefusal, Gave, Held, ServerCall, Use};
use server_session::ServerSession;
use std::alloc::Global;

/// A call, and the number of the session that it goes to.
#[derive(Drop)]
pub enum Aimed {
    Client(u64, ClientCall),
    Server(u64, ServerCall),
}

/// It is an offer to a server that isn't there.
pub fn is_missing(servers: &[ClientSession], by: Use) -> bool
    ensures { result ≡ missing_in servers.now (use_of by) }
{
    match by {
        Use::Offer { server, .. } => !servers::is_there(servers, server),
        _ => false,
    }
}

/// The value is of the kind that this use takes.
pub fn fits(held: &Held, by: Use) -> bool
    ensures { result ≡ is_some (spent (held_of held.now) (use_of by)) }
{
    match by {
        Use::Offer { .. } | Use::Nack | Use::Unroute => matches!(held, Held::Ticket(_)),
        Use::Note => matches!(held, Held::Placed(_)),
        Use::Settle => matches!(held, Held::Settled(_)),
        Use::Fail => matches!(held, Held::Lost(_)),
        Use::Recall { .. } => matches!(held, Held::Recall(_)),
    }
}

/// The call of a value that fits.
pub fn aim(held: Held, by: Use) -> Aimed
    requires { is_some (spent (held_of held) (use_of by)) ≡ true }
    ensures call { spent (held_of held) (use_of by) ≡ Some (aimed_call result) }
    ensures held { held_by result ≡ Some held }
    ensures read { IsReadAimed result }
{
    match (held, by) {
        (Held::Ticket(ticket), Use::Offer { server, now }) => {
            Aimed::Server(server, ServerCall::Offer(ticket, now))
        }
        (Held::Ticket(ticket), Use::Nack) => {
            Aimed::Client(ticket.name().client, ClientCall::Nack(ticket))
        }
        (Held::Ticket(ticket), Use::Unroute) => {
            Aimed::Client(ticket.name().client, ClientCall::Unroute(ticket))
        }
        (Held::Placed(placed), Use::Note) => {
            Aimed::Client(placed.name().client, ClientCall::Note(placed))
        }
        (Held::Settled(settled), Use::Settle) => {
            Aimed::Client(settled.name().client, ClientCall::Settle(settled))
        }
        (Held::Lost(lost), Use::Fail) => Aimed::Client(lost.name().client, ClientCall::Fail(lost)),
        (Held::Recall(recall), Use::Recall { now }) => {
            Aimed::Server(recall.server(), ServerCall::Recall(recall, now))
        }
        _ => unreachable!(),
    }
}

/// The use may give a value.
pub fn use_grows(by: Use) -> bool
    ensures { result ≡ may_give (use_of by) }
{
    match by {
        Use::Offer { .. } | Use::Note | Use::Settle => true,
        Use::Nack | Use::Unroute | Use::Fail | Use::Recall { .. } => false,
    }
}

/// The call is done by its session, if there is room for the value that it may give.
///
/// # Errors
///
/// Why it is refused, and the value; nothing has changed then.
pub fn use_up(
    clients: &mut Vec<ServerSession>,
    servers: &mut Vec<ClientSession>,
    alloc: Global,
    room: bool,
    aimed: Aimed,
) -> Result<Gave, (EventRefusal, Option<Held>)>
    requires { IsReadAimed aimed }
    ensures step { DoesAt clients.old.items clients.new.items servers.old.items servers.new.items aimed result }
    ensures room { IfOk result (λ g. IfSome g.given (λ h. (room ≡ true) × (gives_by aimed ≡ true))) }
    ensures held { IfErr result (λ e. e.1 ≡ held_by aimed) }
    ensures clients { IfErr result (λ e. clients.new.items ≡ clients.old.items) }
    ensures servers { IfErr result (λ e. servers.new.items ≡ servers.old.items) }
{
    match aimed {
        Aimed::Client(number, call) => clients::use_up(clients, alloc, room, number, call),
        Aimed::Server(number, call) => servers::use_up(servers, alloc, room, number, call),
    }
}
