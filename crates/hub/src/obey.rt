//! How orders are carried out.
ghost use Rattle.std.specs.Prelude.{◌≡◌, ◌<◌, ◌≤◌, [], IfErr, IfOk, IfSome, IsPermutation, IsTrue, List, OnOk, OnErr, Option, length, vec_len};
ghost use Rattle.route_table.specs.Routes.{is_server_list, set};
ghost use Rattle.published_routes.specs.Orders.{Gave, Removes};
ghost use Rattle.kept_session.specs.Reached.{Kept};
ghost use Rattle.kept_session.specs.ReachedDown.{KeptDown};
ghost use Rattle.hub_steps.specs.Down.{MayKeepDown};
ghost use Rattle.hub_steps.specs.Up.{MayKeep};
ghost use Rattle.hub.specs.declared.admin.AdminOrder.{AdminOrder};
ghost use Rattle.hub.specs.Naming.{AreNamed, place_of};
ghost use Rattle.hub.specs.Obeying.{AddsRoute, IsReplyTo, MayNotDrain, MayNotPublish, MayNotRetire, MayNotRoute, MayNotUnroute};
ghost use Rattle.hub.specs.Reporting.{AddsRow, AddsRows, AreRows, IsOfClient, IsOfServer};

use crate::admin::{AdminReply, OrderFault, OrderRefusal, Row};
use crate::hub::{Hub, Known};
use crate::ledger::HubLedger;
use crate::seat::OrderSeat;
use arrayvec::ArrayVec;
use hub_base::Gate;
use hub_delivery::Slots;
use hub_slots::{DownSlot, UpSlot};
use mux_history::ServerId;
use published_routes::{Publish, RouteFault};
use route_table::is_server_list;
use std::alloc::{AllocError, Global};
use std::sync::Wait;

impl<G: Gate + Drop, L: HubLedger, B: Publish<L>> Hub<G, L, B> {
    pub(crate) fn drain<R: Wait>(
        &self,
        rt: &R,
        seat: &mut OrderSeat<L>,
        client: u64,
    ) -> Result<AdminReply, OrderFault>
        ensures ok { OnOk result ((seat.new.orders ≡ seat.old.orders) × (seat.old.amount ≤ seat.new.amount)) }
        ensures err { OnErr result (seat.new ≡ seat.old) }
        ensures reply { IfOk result (λ reply. reply ≡ AdminReply.Done) }
        ensures fault { IfErr result MayNotDrain }
    {
        let Some(slot) = self.slots.find_down(client) else {
            return Err(OrderFault::NoSuchSession);
        };
        if slot.shown(rt, &self.slots.book, client).is_none() {
            return Err(OrderFault::NoSuchSession);
        }
        let mut made = 0u64;
        if let Err(refusal) = slot.drain(rt, &self.slots.book, client, &mut made) {
            return Err(OrderFault::Refused(OrderRefusal::Drain(refusal)));
        }
        seat.count(&mut *self.count.lock(rt), made);
        Ok(AdminReply::Done)
    }

    pub(crate) fn retire<R: Wait>(
        &self,
        rt: &R,
        seat: &mut OrderSeat<L>,
        name: &str,
    ) -> Result<AdminReply, OrderFault>
        ensures ok { OnOk result ((seat.new.orders ≡ seat.old.orders) × (seat.old.amount ≤ seat.new.amount)) }
        ensures err { OnErr result (seat.new ≡ seat.old) }
        ensures reply { IfOk result (λ reply. reply ≡ AdminReply.Done) }
        ensures fault { IfErr result (MayNotRetire self.now.servers.items name.now) }
    {
        let Some(server) = place_of(self.servers.as_slice(), name) else {
            return Err(OrderFault::UnknownServer);
        };
        let slot = self.up(server as u64);
        let mut made = 0u64;
        if let Err(refusal) = slot.retire(rt, &self.slots.book, 0, &mut made) {
            return Err(OrderFault::Refused(OrderRefusal::Retire(refusal)));
        }
        seat.count(&mut *self.count.lock(rt), made);
        Ok(AdminReply::Done)
    }

    pub(crate) fn route<R: Wait>(
        &self,
        rt: &R,
        alloc: Global,
        seat: &mut OrderSeat<L>,
        dst: &[u8],
        names: &[String],
    ) -> Result<AdminReply, OrderFault>
        ensures ok { OnOk result (AddsRoute self.now.servers.items seat.old.orders dst.now names.now seat.new.orders) }
        ensures err { OnErr result (seat.new ≡ seat.old) }
        ensures reply { IfOk result (λ reply. reply ≡ AdminReply.Done) }
        ensures fault { IfErr result (MayNotRoute self.now.servers.items names.now) }
    {
        match places_of(self.servers.as_slice(), names) {
            Ok(places) => self.publish(rt, alloc, seat, dst, places.as_slice()),
            Err(fault) => Err(fault),
        }
    }

    /// Publishes a route.
    fn publish<R: Wait>(
        &self,
        rt: &R,
        alloc: Global,
        seat: &mut OrderSeat<L>,
        dst: &[u8],
        servers: &[ServerId],
    ) -> Result<AdminReply, OrderFault>
        ensures ok { OnOk result (IsTrue (is_server_list servers.now)
            × Gave seat.old.orders (set dst.now servers.now) seat.new.orders) }
        ensures err { OnErr result (seat.new ≡ seat.old) }
        ensures reply { IfOk result (λ reply. reply ≡ AdminReply.Done) }
        ensures fault { IfErr result (MayNotPublish servers.now) }
    {
        if !is_server_list(servers) {
            return Err(OrderFault::BadCommand);
        }
        match self.board.route(rt, alloc, &mut seat.routes, dst, servers) {
            Ok(()) => Ok(AdminReply::Done),
            Err(AllocError) => Err(OrderFault::Memory),
        }
    }

    pub(crate) fn unroute_to<R: Wait>(
        &self,
        rt: &R,
        alloc: Global,
        seat: &mut OrderSeat<L>,
        dst: &[u8],
    ) -> Result<AdminReply, OrderFault>
        ensures ok { OnOk result (Removes seat.old.orders dst.now seat.new.orders) }
        ensures err { OnErr result (seat.new ≡ seat.old) }
        ensures reply { IfOk result (λ reply. reply ≡ AdminReply.Done) }
        ensures fault { IfErr result (MayNotUnroute seat.old.orders dst.now) }
    {
        match self.board.unroute(rt, alloc, &mut seat.routes, dst) {
            Ok(()) => Ok(AdminReply::Done),
            Err(RouteFault::NoRoute) => Err(OrderFault::NoRoute),
            Err(RouteFault::Memory) => Err(OrderFault::Memory),
        }
    }

    /// How every session stands.
    pub(crate) fn report<R: Wait>(&self, rt: &R, alloc: Global) -> Result<AdminReply, OrderFault>
        ensures reply { IfOk result (IsReplyTo self.now.boot (vec_len self.now.slots.downs)
            (vec_len self.now.servers) AdminOrder.Status) }
        ensures fault { IfErr result (λ e. e ≡ OrderFault.Memory) }
    {
        match rows(rt, alloc, &self.slots, self.servers.as_slice()) {
            Ok(rows) => Ok(AdminReply::Report {
                boot: self.boot,
                rows,
            }),
            Err(AllocError) => Err(OrderFault::Memory),
        }
    }
}

/// The number of the server of this name.
fn place_of(servers: &[Known], name: &str) -> Option<usize>
    ensures value { result ≡ place_of servers.now name.now }
    ensures within { IfSome result (λ place. place < length servers.now) }
{
    servers
        .iter()
        .position(|server| server.name.as_str() == name)
}

/// The numbers of the servers of these names, in their order. It takes no memory.
fn places_of(servers: &[Known], names: &[String]) -> Result<ArrayVec<ServerId, 64>, OrderFault>
    ensures ok { IfOk result (λ places. AreNamed servers.now names.now places.items) }
    ensures fault { IfErr result (MayNotRoute servers.now names.now) }
{
    if names.len() > 64 {
        return Err(OrderFault::BadCommand);
    }
    let mut places = ArrayVec::new();
    for name in names {
        let Some(server) = place_of(servers, name.as_str()) else {
            return Err(OrderFault::UnknownServer);
        };
        places.push(server as u64);
    }
    Ok(places)
}

/// A row for each session.
fn rows<L: HubLedger, R: Wait>(
    rt: &R,
    alloc: Global,
    slots: &Slots<L>,
    servers: &[Known],
) -> Result<Vec<Row>, AllocError>
    ensures { IfOk result (λ rows. AreRows (vec_len slots.now.downs) (length servers.now) rows.items) }
{
    let mut rows = client_rows(rt, alloc, slots.downs.as_slice())?;
    add_servers(rt, alloc, slots.ups.as_slice(), servers, &mut rows)?;
    Ok(rows)
}

fn client_rows<L: HubLedger, R: Wait>(
    rt: &R,
    alloc: Global,
    slots: &[DownSlot<L>],
) -> Result<Vec<Row>, AllocError>
    ensures { IfOk result (λ rows. (found : List Row)
        × AddsRows MayKeepDown IsOfClient (length slots.now) [] found × IsPermutation found rows.items) }
{
    let mut rows = Vec::new(alloc);
    for slot in slots {
        add_client(rt, slot, &mut rows)?;
    }
    rows.sort_unstable_by_key(number_of);
    Ok(rows)
}

fn add_client<L: HubLedger, R: Wait>(
    rt: &R,
    slot: &DownSlot<L>,
    rows: &mut Vec<Row>,
) -> Result<(), AllocError>
    ensures { OnOk result ((s : Option KeptDown) × MayKeepDown s
        × AddsRow IsOfClient s rows.old.items rows.new.items) }
{
    let Some((number, figures)) = slot.shown_any(rt) else {
        return Ok(());
    };
    rows.push(Row::Client {
        number,
        word: figures.word,
        entries: figures.entries,
        records: figures.records,
    })?;
    Ok(())
}

/// The number of a client's row.
fn number_of(row: &Row) -> u64 {
    match row {
        Row::Client { number, .. } => *number,
        Row::Server { .. } => u64::MAX,
    }
}

fn add_servers<L: HubLedger, R: Wait>(
    rt: &R,
    alloc: Global,
    slots: &[UpSlot<L>],
    servers: &[Known],
    rows: &mut Vec<Row>,
) -> Result<(), AllocError>
    ensures { OnOk result (AddsRows MayKeep IsOfServer (length servers.now) rows.old.items rows.new.items) }
{
    for (place, server) in servers.iter().enumerate() {
        add_server(rt, alloc, slots.get(place), server, rows)?;
    }
    Ok(())
}

fn add_server<L: HubLedger, R: Wait>(
    rt: &R,
    alloc: Global,
    slot: Option<&UpSlot<L>>,
    server: &Known,
    rows: &mut Vec<Row>,
) -> Result<(), AllocError>
    ensures { OnOk result ((s : Option Kept) × MayKeep s × AddsRow IsOfServer s rows.old.items rows.new.items) }
{
    let Some(slot) = slot else {
        return Ok(());
    };
    let Some(figures) = slot.shown_any(rt) else {
        return Ok(());
    };
    rows.push(Row::Server {
        name: String::from_str(alloc, server.name.as_str())?,
        word: figures.word,
        load: figures.load,
        records: figures.records,
    })?;
    Ok(())
}
