//! Orders of whoever runs the router, the clock, pings, and the ends of epochs.
ghost use Rattle.std.specs.Prelude.{◌≡◌, ◌+◌, ◌≤◌, Err, IfErr, IfOk, OnOk, OnErr, vec_len};
ghost use Rattle.mux_model.specs.Steps.{PingCall};
ghost use Rattle.client_session.specs.Steps.{PingStep};
ghost use Rattle.hub_slots.specs.Locked.{LockedUp};
ghost use Rattle.hub_delivery.specs.Clocking.{Clocks};
ghost use Rattle.hub_places.specs.Numbering.{KeepsUp};
ghost use Rattle.hub.specs.Obeying.{IsReplyTo, MayFail, Obeys};

use crate::admin::{AdminOrder, AdminReply, OrderFault};
use crate::hub::Hub;
use crate::ledger::HubLedger;
use crate::seat::OrderSeat;
use client_session::PingRefusal;
use hub_base::Gate;
use hub_delivery::SealFault;
use kept_session::EpochEnd;
use mux_history::ServerId;
use published_routes::Publish;
use std::alloc::Global;
use std::sync::Wait;

impl<G: Gate + Drop, L: HubLedger, B: Publish<L>> Hub<G, L, B> {
    /// Hands a reading of the clock, in milliseconds, in to each server's session. Refusals are passed
    /// over. It takes no memory.
    pub fn clock<R: Wait>(&self, rt: &R, seat: &mut OrderSeat<L>, now: u64)
        ensures all { Clocks now L.servers }
        ensures same { seat.new ≡ record seat.old { amount = seat.new.amount } }
        ensures more { seat.old.amount ≤ seat.new.amount }
    {
        let mut made = 0u64;
        self.slots.clock_all(rt, now, &mut made);
        seat.count(&mut *self.count.lock(rt), made);
    }

    /// Sends a ping to the server of this session's number, at a reading in milliseconds. The caller rings for it. If
    /// there is no such session, it is closed. It takes no memory.
    pub fn ping<R: Wait>(
        &self,
        rt: &R,
        seat: &mut OrderSeat<L>,
        server: ServerId,
        now: u64,
    ) -> Result<(), PingRefusal>
        ensures event { LockedUp (KeepsUp server) (λ p q. PingStep p (PingCall now) result q)
            (result ≡ Err PingRefusal.Closed) }
        ensures same { seat.new ≡ record seat.old { amount = seat.new.amount } }
        ensures more { seat.old.amount ≤ seat.new.amount }
    {
        let Some(slot) = self.slots.find_up(server) else {
            return Err(PingRefusal::Closed);
        };
        let mut made = 0u64;
        let result = slot.ping(rt, &self.slots.book, server, now, &mut made);
        seat.count(&mut *self.count.lock(rt), made);
        result
    }

    /// Ends the epoch of each session that is quiet and has few places left, and begins its next one:
    /// how many it was.
    ///
    /// Memory is the one error. The sessions sealed before it stay sealed, and are counted.
    pub fn seal<R: Wait>(
        &self,
        rt: &R,
        alloc: Global,
        seat: &mut OrderSeat<L>,
    ) -> Result<u32, SealFault>
        ensures ok { IfOk result (λ n. seat.old.amount + n ≤ seat.new.amount) }
        ensures same { seat.new ≡ record seat.old { amount = seat.new.amount } }
        ensures more { seat.old.amount ≤ seat.new.amount }
    {
        self.end_epochs(rt, alloc, seat, EpochEnd::Seal)
    }

    /// Ends the epoch of each session that has few places left, be it quiet or not, and begins its next
    /// one, into which all goes on that is held: how many it was. A session whose dispatches would keep
    /// more than half of the next history's places stays as it is, and so does a client's of which less than an
    /// eighth of the present one is written.
    ///
    /// Memory is the one error. The sessions rolled before it stay rolled, and are counted.
    pub fn roll<R: Wait>(
        &self,
        rt: &R,
        alloc: Global,
        seat: &mut OrderSeat<L>,
    ) -> Result<u32, SealFault>
        ensures ok { IfOk result (λ n. seat.old.amount + n ≤ seat.new.amount) }
        ensures same { seat.new ≡ record seat.old { amount = seat.new.amount } }
        ensures more { seat.old.amount ≤ seat.new.amount }
    {
        self.end_epochs(rt, alloc, seat, EpochEnd::Roll)
    }

    fn end_epochs<R: Wait>(
        &self,
        rt: &R,
        alloc: Global,
        seat: &mut OrderSeat<L>,
        how: EpochEnd,
    ) -> Result<u32, SealFault>
        ensures ok { IfOk result (λ n. seat.old.amount + n ≤ seat.new.amount) }
        ensures same { seat.new ≡ record seat.old { amount = seat.new.amount } }
        ensures more { seat.old.amount ≤ seat.new.amount }
    {
        let mut made = 0u64;
        let (room, server_room) = (self.limits.history(), self.server_limits.history());
        let result = self
            .slots
            .end_epochs(rt, alloc, how, room, server_room, &mut made);
        seat.count(&mut *self.count.lock(rt), made);
        result?;
        Ok(u32::try_from(made).unwrap_or(u32::MAX))
    }

    /// Carries out an order, and gives the answer that goes with it. It may wait for another one, and for those who
    /// look a route up.
    ///
    /// With an error no session made a step, and the seat knows no more orders than before. A change of
    /// the routes that is answered Memory may have been kept, and then the next one publishes it first.
    pub fn order<R: Wait>(
        &self,
        rt: &R,
        alloc: Global,
        seat: &mut OrderSeat<L>,
        order: AdminOrder,
    ) -> Result<AdminReply, OrderFault>
        ensures ok { OnOk result (Obeys self.now.servers.items order seat.old seat.new) }
        ensures reply { IfOk result (IsReplyTo self.now.boot (vec_len self.now.slots.downs)
            (vec_len self.now.servers) order) }
        ensures err { OnErr result (seat.new ≡ seat.old) }
        ensures fault { IfErr result (MayFail self.now.servers.items order seat.old) }
    {
        match order {
            AdminOrder::Status => self.report(rt, alloc),
            AdminOrder::DrainClient(client) => self.drain(rt, seat, client),
            AdminOrder::Retire(name) => self.retire(rt, seat, name.as_str()),
            AdminOrder::Route { dst, names } => {
                self.route(rt, alloc, seat, dst.as_slice(), names.as_slice())
            }
            AdminOrder::Unroute(dst) => self.unroute_to(rt, alloc, seat, dst.as_slice()),
            AdminOrder::Quit => Ok(AdminReply::Bye),
        }
    }
}
