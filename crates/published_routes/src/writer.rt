//! Where orders are given: the writer of the routes, with the whole history. It lies under a lock.
ghost use Rattle.std.specs.Prelude.{◌≡◌, ◌^◌, ◌<◌, [], ◌∷◌, ◌++◌, is_some, Err, IsTrue, IfOk, OnOk, OnErr};
ghost use mathlib.Core.List.{IsPrefix};
ghost use Rattle.route_table.specs.Routes.{set, remove, is_server_list};
ghost use Rattle.published_routes.specs.Orders.{route_in, Gave, Removes, HasNoRoute, opening, with_route};

use crate::change::RouteChange;
use crate::fault::RouteFault;
use crate::front::{Front, HistoryLength, Naming, is_same};
use crate::seat::RouteOrders;
use crate::table::{Operation, Table};
use left_right::{Absorb, ReadHandleFactory, WriteHandle};
use mux_history::ServerId;
use route_table::{Route, is_server_list};
use std::alloc::{AllocError, Global};
use std::sync::Wait;

/// More orders than any run gives. Their count stays below this.
const MOST_ORDERS: u64 = 1 << 62;

/// How many operations the writer's list has to have room for: two are pending at most.
const ROOM: u8 = 4;

/// The writer of the routes, and the history of all orders, published or not.
#[derive(Drop)]
pub struct RouteWriter<J: Naming, R: Wait + Drop>
where
    Table<J>: Absorb<Option<Operation<J>>, State = [RouteChange; 0]>,
{
    writer: WriteHandle<Table<J>, Option<Operation<J>>, R>,
    front: Front<J>,
    /// An order that is in the history, and that the writer had no room for.
    waiting: Option<Operation<J>>,
}

/// Writes an order into the history. Nobody else writes into it, so it is the next one; if it
/// weren't, that would be answered as out of memory.
fn record<J: Naming>(
    head: &HistoryLength<J>,
    front: &mut Front<J>,
    order: RouteChange,
) -> Result<Operation<J>, AllocError>
    ensures ok { IfOk result (λ o. (o ≡ front.old ++ order ∷ []) × (front.new ≡ front.old ++ order ∷ [])) }
    ensures err { OnErr result (front.new ≡ front.old) }
{
    let mut longer = front.again();
    if longer.len() >= MOST_ORDERS || !longer.add(head, &order) {
        return Err(AllocError);
    }
    let operation = Operation::new(order, front, longer.again());
    *front = longer;
    Ok(operation)
}

/// Enters a route of a configuration into both copies, unless its list of servers is one that no
/// route may have.
fn enter<J: Naming>(
    alloc: Global,
    head: &HistoryLength<J>,
    front: &mut Front<J>,
    first: &mut Table<J>,
    second: &mut Table<J>,
    route: &Route,
) -> Result<(), AllocError>
    requires { (first.old ≡ front.old) × (second.old ≡ front.old) }
    ensures { OnOk result ((front.new ≡ with_route front.old route.now)
        × (first.new ≡ with_route front.old route.now) × (second.new ≡ with_route front.old route.now)) }
{
    let servers = route.servers.as_slice();
    if !is_server_list(servers) {
        return Ok(());
    }
    let order = RouteChange::set(alloc, route.dst.as_bytes(), servers)?;
    let operation = record(head, front, order)?;
    first.take_in(&operation)?;
    second.take_in(&operation)
}

/// The two copies of the routes of a configuration, and the orders that made them.
#[tactic(auto, using(crate::proofs::Following::opening_more))]
fn tables<J: Naming>(
    alloc: Global,
    head: &HistoryLength<J>,
    front: Front<J>,
    routes: &[Route],
) -> Result<(Table<J>, Table<J>, Front<J>), AllocError>
    requires { front ≡ [] }
    ensures { IfOk result (λ t. (t.0 ≡ opening routes.now) × (t.1 ≡ opening routes.now) × (t.2 ≡ opening routes.now)) }
{
    let mut front = front;
    let mut first = Table::new(alloc, front.again())?;
    let mut second = Table::new(alloc, front.again())?;
    for route in routes {
        enter(alloc, head, &mut front, &mut first, &mut second, route)?;
    }
    Ok((first, second, front))
}

impl<J: Naming, R: Wait + Drop> RouteWriter<J, R>
where
    Table<J>: Absorb<Option<Operation<J>>, State = [RouteChange; 0]>,
{
    /// The writer, with room in its list for the operations that can be pending at once.
    pub(crate) fn new(
        alloc: Global,
        rt: R,
        head: &HistoryLength<J>,
        front: Front<J>,
        routes: &[Route],
        readers: usize,
    ) -> Result<RouteWriter<J, R>, AllocError>
        requires { (front ≡ []) × (0 < readers) × (readers < 2 ^ 32) }
        ensures { IfOk result (λ d. d.front ≡ opening routes.now) }
    {
        let (first, second, front) = tables(alloc, head, front, routes)?;
        let mut writer = WriteHandle::new(alloc, rt, first, second, readers)?;
        for _ in 0..ROOM {
            if writer.append(None).is_err() {
                return Err(AllocError);
            }
        }
        writer.publish()?;
        writer.publish()?;
        Ok(RouteWriter {
            writer,
            front,
            waiting: None,
        })
    }

    pub(crate) fn readers(&self) -> Result<ReadHandleFactory<Table<J>>, AllocError> {
        self.writer.factory()
    }

    /// All orders.
    pub(crate) fn known(&self) -> Front<J>
        ensures { result ≡ self.now.front }
    {
        self.front.again()
    }

    /// Publishes what is pending. At `Err` it still is.
    fn flush(&mut self) -> Result<(), AllocError>
        ensures front { self.new.front ≡ self.old.front }
    {
        if let Some(operation) = self.waiting.take() {
            if let Err(operation) = self.writer.append(Some(operation)) {
                self.waiting = operation;
                return Err(AllocError);
            }
        }
        self.writer.flush()
    }

    /// Learns what the seat knows, and publishes what is pending.
    fn begin(&mut self, seat: &RouteOrders<J>) -> Result<(), AllocError>
        ensures { IsPrefix seat.now self.new.front }
    {
        self.front = self.front.longer(&seat.front);
        self.flush()
    }

    /// Publishes an order, which stays pending if it can't be.
    fn show(&mut self, operation: Operation<J>) -> Result<(), AllocError>
        ensures front { self.new.front ≡ self.old.front }
    {
        if let Err(operation) = self.writer.append(Some(operation)) {
            self.waiting = operation;
            return Err(AllocError);
        }
        self.writer.publish()
    }

    /// Gives an order to all readers.
    fn give(
        &mut self,
        head: &HistoryLength<J>,
        seat: &mut RouteOrders<J>,
        order: RouteChange,
    ) -> Result<(), AllocError>
        ensures ok { OnOk result (seat.new ≡ self.old.front ++ order ∷ []) }
        ensures err { OnErr result (seat.new ≡ seat.old) }
    {
        let operation = record(head, &mut self.front, order)?;
        self.show(operation)?;
        seat.front = self.front.again();
        Ok(())
    }

    /// Whether a destination has servers in the published table, which has all orders once nothing
    /// is pending; if it hadn't, that would be answered as out of memory.
    fn has_route(&self, dst: &[u8]) -> Result<bool, AllocError>
        ensures { IfOk result (λ b. b ≡ is_some (route_in dst.now self.now.front)) }
    {
        let table = self.writer.published();
        if !is_same(table.front(), &self.front) {
            return Err(AllocError);
        }
        Ok(table.find(dst).is_some())
    }

    /// Gives a destination these servers.
    pub(crate) fn route(
        &mut self,
        alloc: Global,
        head: &HistoryLength<J>,
        seat: &mut RouteOrders<J>,
        dst: &[u8],
        servers: &[ServerId],
    ) -> Result<(), AllocError>
        requires { IsTrue (is_server_list servers.now) }
        ensures ok { OnOk result (Gave seat.old (set dst.now servers.now) seat.new) }
        ensures err { OnErr result (seat.new ≡ seat.old) }
    {
        self.begin(seat)?;
        let order = RouteChange::set(alloc, dst, servers)?;
        self.give(head, seat, order)
    }

    /// Takes a destination's servers away.
    pub(crate) fn unroute(
        &mut self,
        alloc: Global,
        head: &HistoryLength<J>,
        seat: &mut RouteOrders<J>,
        dst: &[u8],
    ) -> Result<(), RouteFault>
        ensures ok { OnOk result (Removes seat.old dst.now seat.new) }
        ensures no_route { result ≡ Err (RouteFault.NoRoute) → HasNoRoute seat.old dst.now }
        ensures err { OnErr result (seat.new ≡ seat.old) }
    {
        self.begin(seat)?;
        if !self.has_route(dst)? {
            return Err(RouteFault::NoRoute);
        }
        let order = RouteChange::remove(alloc, dst)?;
        self.give(head, seat, order)?;
        Ok(())
    }
}
