//! Offers of one dispatch to several servers.
ghost use Rattle.std.specs.Prelude.{◌≡◌, ℕ, ◌≤◌, List, length, Result};
ghost use Rattle.balancer.specs.Order.{IsOrder, loads_of, servers_in};
ghost use Rattle.balancer.specs.Offers.{Offered};
ghost use Rattle.translate_book.specs.Values.{TicketView};
ghost use Rattle.translate_book.specs.declared.refusal.OfferRefusal.{OfferRefusal};
ghost use Rattle.translate_book.specs.declared.placed.Placed.{Placed};

use crate::choice::order;
use mux_history::ServerId;
use translate_book::{OfferRefusal, Placed, Ticket};

/// Whoever can offer a dispatch to a server.
pub trait Offerer: Drop {
    /// An offer of this ticket to this server may have this result, and leave the offerer in this
    /// state.
    ghost offers: { Self → ℕ → TicketView → Result Placed (OfferRefusal × TicketView) → Self → Type 0 };

    /// Offers a ticket to a server, which takes it, or refuses it and hands it back.
    fn offer(&mut self, server: ServerId, ticket: Ticket) -> Result<Placed, (OfferRefusal, Ticket)>
        ensures { offers self.old server ticket result self.new };
}

/// Offers a ticket to these candidates, each a server with its load, in their `order` up to the
/// first that takes it.
///
/// There are at most 64 candidates. The ticket comes back only when each of them refused it. Only
/// the offers may allocate.
pub fn place<O: Offerer>(
    ticket: Ticket,
    candidates: &[(ServerId, u32)],
    offerer: &mut O,
) -> Result<Placed, Ticket>
    requires { length candidates.now ≤ 64 }
    ensures { (tried : List ℕ)
        × IsOrder (loads_of candidates.now) tried
        × Offered O.offers (servers_in candidates.now tried) offerer.old ticket result offerer.new }
{
    let mut ticket = ticket;
    for place in order(candidates).as_slice() {
        let (server, _) = candidates[*place];
        match offerer.offer(server, ticket) {
            Ok(placed) => return Ok(placed),
            Err((_, refused)) => ticket = refused,
        }
    }
    Err(ticket)
}
