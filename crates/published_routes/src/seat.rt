//! Seats: what is known of the history of orders, and a reader of the routes.
ghost use Rattle.std.specs.Prelude.{◌≡◌, true, false, map, reverse, IfNone, IfOk, IfSome};
ghost use Rattle.route_table.specs.Routes.{LeadsTo, routing};
ghost use mathlib.Core.List.{IsPrefix};
ghost use Rattle.published_routes.specs.Marks.{mark_in, marked};
ghost use Rattle.published_routes.specs.Orders.{route_in};

use crate::front::{Front, Naming, begins};
use crate::servers::{Found, Servers};
use crate::table::{Listing, Table};
use left_right::ReadHandle;
use std::alloc::{AllocError, Global};
use std::marker::Model;
use std::sync::Wait;
use std::thread;

/// Who looks routes up. Contracts see the orders that it has seen or was told of, the oldest first.
#[derive(Drop)]
pub struct RouteReader<J: Naming> {
    reader: ReadHandle<Table<J>>,
    front: Front<J>,
}

impl<J: Naming> Model for RouteReader<J> {
    ghost use Rattle.std.specs.Prelude.{List};
    ghost use Rattle.route_table.specs.Routes.{Change};

    ghost Value = { List Change };

    ghost view = { λ s. s.front };
}

/// What whoever gives orders knows. Contracts see a beginning of the history, the oldest order
/// first, which has all orders that were carried out with it.
#[derive(Drop)]
pub struct RouteOrders<J: Naming> {
    pub(crate) front: Front<J>,
}

impl<J: Naming> Model for RouteOrders<J> {
    ghost use Rattle.std.specs.Prelude.{List};
    ghost use Rattle.route_table.specs.Routes.{Change};

    ghost Value = { List Change };

    ghost view = { λ s. s.front };
}

impl<J: Naming> RouteReader<J> {
    pub(crate) fn new(reader: ReadHandle<Table<J>>, front: Front<J>) -> RouteReader<J>
        ensures { result ≡ front }
    {
        RouteReader { reader, front }
    }

    /// A destination's servers after the orders that are then known, which begin with all that were
    /// known before.
    ///
    /// It asks for no lock, takes no memory, and waits for no order. While the board lives, no guard
    /// of this reader was forgotten, and each order that was told of was published before, the first
    /// look finds the table; else it looks again.
    pub fn find<R: Wait>(&mut self, rt: &R, dst: &[u8]) -> Option<Servers>
        ensures later { IsPrefix self.old self.new }
        ensures value { result ≡ route_in dst.now self.new }
    {
        let mut found = Found::new();
        let _mark = self.find_into(rt, dst, &mut found);
        match found.servers() {
            Some(servers) => Some(Servers::of(servers)),
            None => None,
        }
    }

    /// The same, with the servers in a place that the caller lends, and with the destination's mark: its place among the
    /// first 256 that were given servers. None if it isn't one of these.
    pub fn find_into<R: Wait>(&mut self, rt: &R, dst: &[u8], found: &mut Found) -> Option<u8>
        ensures later { IsPrefix self.old self.new }
        ensures value { found.new ≡ route_in dst.now self.new }
        ensures mark { result ≡ mark_in dst.now self.new }
    {
        let RouteReader { reader, front } = self;
        look_until(rt, reader, front, dst, found)
    }

    /// Each destination that has servers then, with them, and each that has a mark; known and waited for as in `find`. Out
    /// of memory is the one error.
    pub fn list<R: Wait>(&mut self, rt: &R, alloc: Global) -> Result<Listing, AllocError>
        ensures later { IsPrefix self.old self.new }
        ensures routes { IfOk result (λ l. LeadsTo (reverse self.new) (map routing l.routes.items)) }
        ensures marked { IfOk result (λ l. map (λ d. d.items) l.marked.items ≡ marked self.new) }
    {
        let RouteReader { reader, front } = self;
        list_until(rt, alloc, reader, front)
    }

    /// From now on it knows all that these know.
    pub fn learn(&mut self, orders: &RouteOrders<J>)
        ensures kept { IsPrefix self.old self.new }
        ensures told { IsPrefix orders.now self.new }
    {
        self.front = self.front.longer(&orders.front);
    }
}

fn look_until<J: Naming, R: Wait>(
    rt: &R,
    reader: &mut ReadHandle<Table<J>>,
    front: &mut Front<J>,
    dst: &[u8],
    found: &mut Found,
) -> Option<u8>
    ensures later { IsPrefix front.old front.new }
    ensures value { found.new ≡ route_in dst.now front.new }
    ensures mark { result ≡ mark_in dst.now front.new }
{
    let mut mark = None;
    for _ in rt.forever() {
        if look(reader, front, dst, found, &mut mark) {
            return mark;
        }
        thread::yield_now();
    }
    unreachable!()
}

/// One look at the table, and whether it was a good one. It isn't if the table is gone, or older than
/// what is known.
fn look<J: Naming>(
    reader: &mut ReadHandle<Table<J>>,
    front: &mut Front<J>,
    dst: &[u8],
    found: &mut Found,
    mark: &mut Option<u8>,
) -> bool
    ensures later { IsPrefix front.old front.new }
    ensures value { result ≡ true → found.new ≡ route_in dst.now front.new }
    ensures mark { result ≡ true → mark.new ≡ mark_in dst.now front.new }
    ensures none { result ≡ false → front.new ≡ front.old }
{
    let Some(guard) = reader.enter() else {
        return false;
    };
    let table: &Table<J> = &guard;
    if !begins(front, table.front()) {
        return false;
    }
    *front = table.front().again();
    found.put(table.find(dst));
    *mark = table.mark(dst);
    true
}

fn list_until<J: Naming, R: Wait>(
    rt: &R,
    alloc: Global,
    reader: &mut ReadHandle<Table<J>>,
    front: &mut Front<J>,
) -> Result<Listing, AllocError>
    ensures later { IsPrefix front.old front.new }
    ensures routes { IfOk result (λ l. LeadsTo (reverse front.new) (map routing l.routes.items)) }
    ensures marked { IfOk result (λ l. map (λ d. d.items) l.marked.items ≡ marked front.new) }
{
    for _ in rt.forever() {
        if let Some(listed) = list_once(alloc, reader, front) {
            return listed;
        }
        thread::yield_now();
    }
    unreachable!()
}

/// One look at the whole table. None if the table is gone, or older than what is known.
fn list_once<J: Naming>(
    alloc: Global,
    reader: &mut ReadHandle<Table<J>>,
    front: &mut Front<J>,
) -> Option<Result<Listing, AllocError>>
    ensures later { IsPrefix front.old front.new }
    ensures routes { IfSome result (λ r. IfOk r (λ l. LeadsTo (reverse front.new) (map routing l.routes.items))) }
    ensures marked { IfSome result (λ r. IfOk r (λ l. map (λ d. d.items) l.marked.items ≡ marked front.new)) }
    ensures none { IfNone result (front.new ≡ front.old) }
{
    let guard = reader.enter()?;
    let table: &Table<J> = &guard;
    if !begins(front, table.front()) {
        return None;
    }
    *front = table.front().again();
    Some(table.list(alloc))
}
