//! Looks at routes, and losses.
ghost use Rattle.std.specs.Prelude.{◌≡◌, ◌<◌, ◌≤◌, Option};
ghost use mathlib.Core.List.{IsPrefix};
ghost use Rattle.client_session.specs.Steps as up;
ghost use Rattle.server_session.specs.Steps as down;
ghost use Rattle.hub_slots.specs.Locked.{LockedDown, LockedUp};
ghost use Rattle.hub_places.specs.Numbering.{KeepsDown, KeepsUp};
ghost use Rattle.hub_delivery.specs.Losing.{FailsAll, RecallsAll};
ghost use Rattle.published_routes.specs.Orders.{route_in};

use crate::hub::Hub;
use crate::ledger::HubLedger;
use crate::seat::{ClientSeat, ServerSeat};
use hub_base::Gate;
use published_routes::{Publish, Servers};
use std::sync::Wait;

impl<G: Gate + Drop, L: HubLedger, B: Publish<L>> Hub<G, L, B> {
    /// The servers of a destination, after orders that begin with all that the seat had seen or was
    /// told of, and which it then has seen. It asks for no lock, waits for no order, and takes no
    /// memory.
    pub fn find<R: Wait>(&self, rt: &R, seat: &mut ClientSeat<L>, dst: &[u8]) -> Option<Servers>
        ensures same { seat.new ≡ record seat.old { orders = seat.new.orders } }
        ensures later { IsPrefix seat.old.orders seat.new.orders }
        ensures value { result ≡ route_in dst.now seat.new.orders }
    {
        seat.seat.find(rt, dst)
    }

    /// The same for the seat of a server.
    pub fn find_server<R: Wait>(
        &self,
        rt: &R,
        seat: &mut ServerSeat<L>,
        dst: &[u8],
    ) -> Option<Servers>
        ensures same { seat.new ≡ record seat.old { orders = seat.new.orders } }
        ensures later { IsPrefix seat.old.orders seat.new.orders }
        ensures value { result ≡ route_in dst.now seat.new.orders }
    {
        seat.seat.find(rt, dst)
    }

    /// The seat's client is lost: the loss is recorded, and each dispatch that it has at a server is
    /// recalled. On a closed session nothing is done. It takes no memory.
    pub fn lose_client<R: Wait>(&self, rt: &R, seat: &mut ClientSeat<L>, now: u64)
        ensures event { LockedDown (KeepsDown seat.old.number) (λ p q. down.LoseStep p now q) (Unit {0}) }
        ensures all { RecallsAll now L.sessions L.servers self.now.slots.window seat.old.number }
        ensures same { seat.new ≡ record seat.old { amount = seat.new.amount } }
        ensures more { seat.old.amount ≤ seat.new.amount }
    {
        let client = seat.client();
        let mut made = 0u64;
        self.down(client)
            .lose(rt, &self.slots.book, client, now, &mut made);
        self.slots.recall_all(rt, client, now, &mut made);
        seat.seat.count(&mut *self.count.lock(rt), made);
    }

    /// The seat's server is lost: the loss is recorded, and each dispatch that it has fails. On a
    /// closed session nothing is done. It takes no memory.
    pub fn lose_server<R: Wait>(&self, rt: &R, seat: &mut ServerSeat<L>, now: u64)
        ensures event { LockedUp (KeepsUp seat.old.number) (λ p q. up.LoseStep p now q) (Unit {0}) }
        ensures all { FailsAll L.sessions L.servers self.now.slots.server_window seat.old.number }
        ensures same { seat.new ≡ record seat.old { amount = seat.new.amount } }
        ensures more { seat.old.amount ≤ seat.new.amount }
    {
        let server = seat.server();
        let mut made = 0u64;
        self.up(server)
            .lose(rt, &self.slots.book, server, now, &mut made);
        self.slots.fail_all(rt, server, &mut made);
        seat.seat.count(&mut *self.count.lock(rt), made);
    }
}
