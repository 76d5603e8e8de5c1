//! Seats: who may act in the hub, with a share of its ledger and a reader of its routes.
//!
//! `ClientSeat` and `ServerSeat` are twins: two types, so that nobody can hand one's seat in for the other's.
ghost use Rattle.std.specs.Prelude.{◌≡◌, ◌⊎◌, ◌+◌, ◌<◌, ◌≤◌, ◌^◌, [], drop, length, nat_le, false, true, IfErr, IfOk, OnOk, OnErr};
ghost use mathlib.Core.List.{IsPrefix};
ghost use Rattle.hub_base.specs.Batching.{empty};
ghost use Rattle.hub_close.specs.Receipts.{IsFirstWrongFrom, Settles, is_behind};
ghost use Rattle.published_routes.specs.Orders.{route_in};

use crate::ledger::HubLedger;
use hub_base::Batch;
use hub_close::{Count, Receipts};
use mux_history::{History, ServerId};
use published_routes::{Found, RouteOrders, RouteReader, Servers};
use std::alloc::{AllocError, Global};
use std::marker::Model;
use std::sync::Wait;
use std::sync::ledger::Share;

/// Who acts for a session, whose number it has. A client's counts from 1, a server's from 0.
#[derive(Drop)]
pub struct Seat<L: HubLedger> {
    number: u64,
    share: Share<L>,
    pub(crate) receipts: Receipts,
    pub(crate) routes: RouteReader<L>,
}

impl<L: HubLedger> Model for Seat<L> {
    ghost use Rattle.std.specs.Prelude.{◌≡◌};
    ghost use Rattle.hub.specs.Seats.{Seat};

    ghost Value = { Seat };

    ghost view = { λ s. record {
      number = s.number;
      amount = s.share.amount;
      receipts = s.receipts.list;
      room = s.receipts.room;
      step = s.receipts.step;
      orders = s.routes;
    } };

    ghost invariant = { λ s. s.share.parts ≡ 1 };
}

impl<L: HubLedger> Seat<L> {
    /// A seat with one part of a share. Out of memory is the one error, and takes no part.
    pub(crate) fn open(
        alloc: Global,
        number: u64,
        room: usize,
        routes: RouteReader<L>,
        share: &mut Share<L>,
    ) -> Result<Seat<L>, AllocError>
        requires share { (0 < share.old.parts) × (share.old.amount ≡ 0) }
        ensures ok { IfOk result (λ s. s
            ≡ record { number = number; amount = 0; receipts = []; room = room; step = room; orders = routes }) }
        ensures part { OnOk result ((share.new.parts + 1 ≡ share.old.parts) × (share.new.amount ≡ 0)) }
        ensures err { OnErr result (share.new ≡ share.old) }
    {
        let receipts = Receipts::with_room(alloc, room)?;
        Ok(Seat {
            number,
            share: share.split_off(1, 0),
            receipts,
            routes,
        })
    }

    /// The number of its session.
    pub fn number(&self) -> u64
        ensures { result ≡ self.now.number }
    {
        self.number
    }

    /// Whether the room for receipts is used up. `grow` makes more.
    pub fn is_full(&self) -> bool
        ensures { result ≡ nat_le self.now.room (length self.now.receipts) }
    {
        self.receipts.is_full()
    }

    /// The receipts of all frames that were taken, the oldest first.
    pub fn receipts(&self) -> &Receipts
        ensures { result.now.list ≡ self.now.receipts }
    {
        &self.receipts
    }

    /// How many receipts it has.
    pub fn receipt_count(&self) -> usize
        ensures { result ≡ length self.now.receipts }
    {
        self.receipts.len()
    }

    /// Takes the number that is so much more. False, and nothing is changed, if a receipt is left, or no number is that
    /// great.
    pub(crate) fn renew(&mut self, more: u64) -> bool
        ensures yes { result ≡ true → (self.new ≡ record self.old { number = self.old.number + more })
            × (self.old.receipts ≡ []) }
        ensures no { result ≡ false → (self.new ≡ self.old)
            × ((0 < length self.old.receipts) ⊎ (2 ^ 64 ≤ self.old.number + more)) }
    {
        if !self.receipts.is_empty() {
            return false;
        }
        let Some(number) = self.number.checked_add(more) else {
            return false;
        };
        self.number = number;
        true
    }

    /// Counts records that a call of this seat made.
    pub fn count(&mut self, count: &mut Count<L>, records: u64)
        ensures { self.new ≡ record self.old { amount = self.old.amount + records } }
    {
        count.add(&mut self.share, records);
    }

    /// What this seat counted. Without the seat its hub doesn't close.
    pub fn into_share(self) -> Share<L>
        ensures parts { result.parts ≡ 1 }
        ensures amount { result.amount ≡ self.amount }
    {
        let Seat { share, .. } = self;
        share
    }

    /// The servers of a destination, by all orders that it knows now; none if it has no route. It waits for
    /// no order.
    pub fn find<R: Wait>(&mut self, rt: &R, dst: &[u8]) -> Option<Servers>
        ensures same { self.new ≡ record self.old { orders = self.new.orders } }
        ensures later { IsPrefix self.old.orders self.new.orders }
        ensures value { result ≡ route_in dst.now self.new.orders }
    {
        self.routes.find(rt, dst)
    }

    /// From now on it knows all orders that were carried out with that seat. It takes no memory.
    pub fn learn(&mut self, orders: &OrderSeat<L>)
        ensures same { self.new ≡ record self.old { orders = self.new.orders } }
        ensures kept { IsPrefix self.old.orders self.new.orders }
        ensures told { IsPrefix orders.now.orders self.new.orders }
    {
        self.routes.learn(&orders.routes);
    }

    /// Makes room for as many more receipts as an epoch has records. Out of memory is the one error, and
    /// changes nothing.
    pub fn grow(&mut self) -> Result<(), AllocError>
        ensures ok { OnOk result (self.new ≡ record self.old { room = self.old.room + self.old.step }) }
        ensures err { OnErr result (self.new ≡ self.old) }
    {
        self.receipts.grow()
    }

    /// Holds the receipts of these epochs, the first of which has the number `first`, against them, and
    /// drops them. It takes no memory.
    ///
    /// These are all receipts before the first of a later epoch. The error is the place of the first of
    /// them that doesn't stand, which one of an epoch below `first` never does, or isn't above the one
    /// before it, and changes nothing.
    pub fn settle(&mut self, first: u32, epochs: &[History]) -> Result<(), usize>
        ensures settled { OnOk result (Settles first epochs.now self.old.receipts self.new.receipts) }
        ensures same { OnOk result (self.new ≡ record self.old { receipts = self.new.receipts }) }
        ensures wrong { IfErr result (IsFirstWrongFrom first epochs.now self.old.receipts) }
        ensures within { IfErr result (λ at. is_behind (first + length epochs.now) (drop at self.old.receipts) ≡ true) }
        ensures err { OnErr result (self.new ≡ self.old) }
    {
        self.receipts.settle(first, epochs)
    }
}

/// Who acts for a client.
#[derive(Drop)]
pub struct ClientSeat<L: HubLedger> {
    pub(crate) seat: Seat<L>,
    // The batch of a single frame, which holds nothing between calls.
    pub(crate) one: Batch,
}

impl<L: HubLedger> Model for ClientSeat<L> {
    ghost use Rattle.std.specs.Prelude.{◌≡◌, ◌<◌};
    ghost use Rattle.hub_base.specs.Batching.{empty};
    ghost use Rattle.hub.specs.Seats.{Seat};

    ghost Value = { Seat };

    ghost view = { λ s. s.seat };

    ghost invariant = { λ s. (0 < s.seat.number) × (0 < L.sessions) × (s.one ≡ empty 1) };
}

impl<L: HubLedger> ClientSeat<L> {
    pub(crate) fn new(seat: Seat<L>, one: Batch) -> ClientSeat<L>
        requires { (0 < seat.number) × (0 < L.sessions) × (one ≡ empty 1) }
        ensures { result ≡ seat }
    {
        ClientSeat { seat, one }
    }

    /// The client's number, from 1.
    pub fn client(&self) -> u64
        ensures is { result ≡ self.now.number }
        ensures there { (0 < result) × (0 < L.sessions) }
    {
        self.seat.number()
    }

    /// From now on it acts for the next client of its slot, whose number is `sessions` more: that of all slots. Whether
    /// it does.
    ///
    /// It doesn't, and nothing is changed, if a receipt is left, or no number is that great.
    pub fn renew(&mut self, sessions: u64) -> bool
        requires { sessions ≡ L.sessions }
        ensures yes { result ≡ true → (self.new ≡ record self.old { number = self.old.number + sessions })
            × (self.old.receipts ≡ []) }
        ensures no { result ≡ false → (self.new ≡ self.old)
            × ((0 < length self.old.receipts) ⊎ (2 ^ 64 ≤ self.old.number + sessions)) }
    {
        self.seat.renew(sessions)
    }

    /// The receipts of all frames that were taken, the oldest first.
    pub fn receipts(&self) -> &Receipts
        ensures { result.now.list ≡ self.now.receipts }
    {
        self.seat.receipts()
    }

    /// From now on it knows all orders that were carried out with that seat. It takes no memory.
    pub fn learn(&mut self, orders: &mut OrderSeat<L>)
        ensures same { self.new ≡ record self.old { orders = self.new.orders } }
        ensures kept { IsPrefix self.old.orders self.new.orders }
        ensures told { IsPrefix orders.old.orders self.new.orders }
        ensures orders { orders.new ≡ orders.old }
    {
        self.seat.learn(orders);
    }

    /// Makes room for as many more receipts as an epoch has records. Out of memory is the one error,
    /// and changes nothing.
    pub fn grow(&mut self) -> Result<(), AllocError>
        ensures ok { OnOk result (self.new ≡ record self.old { room = self.old.room + self.old.step }) }
        ensures err { OnErr result (self.new ≡ self.old) }
    {
        self.seat.grow()
    }

    /// Holds the receipts of these epochs, the first of which has the number `first`, against them, and
    /// drops them. It takes no memory.
    ///
    /// These are all receipts before the first of a later epoch. The error is the place of the first of
    /// them that doesn't stand, which one of an epoch below `first` never does, or isn't above the one
    /// before it, and changes nothing.
    pub fn settle(&mut self, first: u32, epochs: &[History]) -> Result<(), usize>
        ensures settled { OnOk result (Settles first epochs.now self.old.receipts self.new.receipts) }
        ensures same { OnOk result (self.new ≡ record self.old { receipts = self.new.receipts }) }
        ensures wrong { IfErr result (IsFirstWrongFrom first epochs.now self.old.receipts) }
        ensures within { IfErr result (λ at. is_behind (first + length epochs.now) (drop at self.old.receipts) ≡ true) }
        ensures err { OnErr result (self.new ≡ self.old) }
    {
        self.seat.settle(first, epochs)
    }

    /// What this seat counted. Without the seat its hub doesn't close.
    pub fn into_share(self) -> Share<L>
        ensures parts { result.parts ≡ 1 }
        ensures amount { result.amount ≡ self.amount }
    {
        let ClientSeat { seat, .. } = self;
        seat.into_share()
    }
}

/// Who acts for a server.
#[derive(Drop)]
pub struct ServerSeat<L: HubLedger> {
    pub(crate) seat: Seat<L>,
    // The batch of a single frame, which holds nothing between calls.
    pub(crate) one: Batch,
}

impl<L: HubLedger> Model for ServerSeat<L> {
    ghost use Rattle.std.specs.Prelude.{◌≡◌, ◌<◌};
    ghost use Rattle.hub_base.specs.Batching.{empty};
    ghost use Rattle.hub.specs.Seats.{Seat};

    ghost Value = { Seat };

    ghost view = { λ s. s.seat };

    ghost invariant = { λ s. (0 < L.servers) × (s.one ≡ empty 1) };
}

impl<L: HubLedger> ServerSeat<L> {
    pub(crate) fn new(seat: Seat<L>, one: Batch) -> ServerSeat<L>
        requires { (0 < L.servers) × (one ≡ empty 1) }
        ensures { result ≡ seat }
    {
        ServerSeat { seat, one }
    }

    /// The number of the server's session. That of its first one is its place in the configuration.
    pub fn server(&self) -> ServerId
        ensures is { result ≡ self.now.number }
        ensures there { 0 < L.servers }
    {
        self.seat.number()
    }

    /// From now on it acts for the next session of its slot, whose number is `servers` more: that of all slots. Whether
    /// it does.
    ///
    /// It doesn't, and nothing is changed, if a receipt is left, or no number is that great.
    pub fn renew(&mut self, servers: u64) -> bool
        requires { servers ≡ L.servers }
        ensures yes { result ≡ true → (self.new ≡ record self.old { number = self.old.number + servers })
            × (self.old.receipts ≡ []) }
        ensures no { result ≡ false → (self.new ≡ self.old)
            × ((0 < length self.old.receipts) ⊎ (2 ^ 64 ≤ self.old.number + servers)) }
    {
        self.seat.renew(servers)
    }

    /// The receipts of all frames that were taken, the oldest first.
    pub fn receipts(&self) -> &Receipts
        ensures { result.now.list ≡ self.now.receipts }
    {
        self.seat.receipts()
    }

    /// From now on it knows all orders that were carried out with that seat. It takes no memory.
    pub fn learn(&mut self, orders: &mut OrderSeat<L>)
        ensures same { self.new ≡ record self.old { orders = self.new.orders } }
        ensures kept { IsPrefix self.old.orders self.new.orders }
        ensures told { IsPrefix orders.old.orders self.new.orders }
        ensures orders { orders.new ≡ orders.old }
    {
        self.seat.learn(orders);
    }

    /// Makes room for as many more receipts as an epoch has records. Out of memory is the one error,
    /// and changes nothing.
    pub fn grow(&mut self) -> Result<(), AllocError>
        ensures ok { OnOk result (self.new ≡ record self.old { room = self.old.room + self.old.step }) }
        ensures err { OnErr result (self.new ≡ self.old) }
    {
        self.seat.grow()
    }

    /// Holds the receipts of these epochs, the first of which has the number `first`, against them, and
    /// drops them. It takes no memory.
    ///
    /// These are all receipts before the first of a later epoch. The error is the place of the first of
    /// them that doesn't stand, which one of an epoch below `first` never does, or isn't above the one
    /// before it, and changes nothing.
    pub fn settle(&mut self, first: u32, epochs: &[History]) -> Result<(), usize>
        ensures settled { OnOk result (Settles first epochs.now self.old.receipts self.new.receipts) }
        ensures same { OnOk result (self.new ≡ record self.old { receipts = self.new.receipts }) }
        ensures wrong { IfErr result (IsFirstWrongFrom first epochs.now self.old.receipts) }
        ensures within { IfErr result (λ at. is_behind (first + length epochs.now) (drop at self.old.receipts) ≡ true) }
        ensures err { OnErr result (self.new ≡ self.old) }
    {
        self.seat.settle(first, epochs)
    }

    /// What this seat counted. Without the seat its hub doesn't close.
    pub fn into_share(self) -> Share<L>
        ensures parts { result.parts ≡ 1 }
        ensures amount { result.amount ≡ self.amount }
    {
        let ServerSeat { seat, .. } = self;
        seat.into_share()
    }
}

/// Who gives orders.
#[derive(Drop)]
pub struct OrderSeat<L: HubLedger> {
    number: u64,
    share: Share<L>,
    pub(crate) routes: RouteOrders<L>,
}

impl<L: HubLedger> Model for OrderSeat<L> {
    ghost use Rattle.std.specs.Prelude.{◌≡◌};
    ghost use Rattle.hub.specs.Seats.{Orders};

    ghost Value = { Orders };

    ghost view = { λ s. record { amount = s.share.amount; orders = s.routes } };

    ghost invariant = { λ s. s.share.parts ≡ 1 };
}

impl<L: HubLedger> OrderSeat<L> {
    /// A seat with one part of the ledger, which knows these orders.
    pub fn new(number: u64, share: Share<L>, routes: RouteOrders<L>) -> OrderSeat<L>
        requires { share.parts ≡ 1 }
        ensures { result ≡ record { amount = share.amount; orders = routes } }
    {
        OrderSeat {
            number,
            share,
            routes,
        }
    }

    /// Counts records that a call of this seat made.
    pub fn count(&mut self, count: &mut Count<L>, records: u64)
        ensures { self.new ≡ record self.old { amount = self.old.amount + records } }
    {
        count.add(&mut self.share, records);
    }

    /// What this seat counted. Without the seat its hub doesn't close.
    pub fn into_share(self) -> Share<L>
        ensures parts { result.parts ≡ 1 }
        ensures amount { result.amount ≡ self.amount }
    {
        let OrderSeat { share, .. } = self;
        share
    }
}

/// All seats of a hub.
#[derive(Drop)]
pub struct Seats<L: HubLedger> {
    pub clients: Vec<ClientSeat<L>>,
    pub servers: Vec<ServerSeat<L>>,
    pub orders: [OrderSeat<L>; 2],
}
