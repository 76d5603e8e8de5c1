//! Opening a hub, and the sessions in it.
ghost use Rattle.std.specs.Prelude.{◌≡◌, ◌+◌, ◌-◌, ◌<◌, [], ◌∷◌, All, IfOk, IfErr, OnOk, vec_len, length};
ghost use Rattle.client_session.specs.Belonging.{Belongs as BelongsUp};
ghost use Rattle.client_session.specs.Past.{begun as begun_up};
ghost use Rattle.server_session.specs.Belonging.{Belongs};
ghost use Rattle.server_session.specs.Past.{begun};
ghost use Rattle.hub_log.specs.Rule.{first_view};
ghost use Rattle.hub_slots.specs.Histories.{HasNoDown, HasNoUp};
ghost use Rattle.hub.specs.Opening.{IsFresh};

use crate::desk::Desk;
use crate::hub::{Hub, Known};
use crate::ledger::HubLedger;
use crate::seat::{ClientSeat, OrderSeat, ServerSeat};
use hub_base::{AdaptiveMutex, Gate, HubFault};
use hub_close::Count;
use hub_delivery::{DestinationCounts, Slots, client_place, server_place};
use hub_log::{Book, Laid, Pass, Terms};
use hub_slots::{DownSlot, UpSlot, no_downs, no_ups};
use kept_session::{KeptClientSession, KeptServerSession};
use mux_agree::{DownHistory, UpHistory};
use mux_history::ServerId;
use published_routes::Publish;
use route_table::{Config, Server};
use std::alloc::{AllocError, Global};
use std::sync::ledger::Blank;
use std::sync::{Mutex, Wait};

impl<G: Gate + Drop, L: HubLedger, B: Publish<L>> Hub<G, L, B> {
    /// A hub with a slot for each session of this configuration, and the room that `close` needs, over
    /// routes that are published by `board`, and over a log that was laid for the same terms.
    ///
    /// Memory is the one error.
    pub fn open(
        alloc: Global,
        config: &Config,
        terms: &Terms,
        gate: G,
        board: B,
        blank: Blank,
        laid: Laid,
    ) -> Result<(Hub<G, L, B>, [OrderSeat<L>; 2]), HubFault>
        requires blank { (blank.name ≡ L.name) × (blank.parts ≡ L.parts) }
        requires laid { (laid.table.shared.table_id ≡ L.table) × (laid.table.shared.key ≡ L.terms)
            × (L.terms ≡ terms.now) }
        requires terms { (terms.now.clients ≡ L.sessions) × (terms.now.servers ≡ L.servers) }
        requires slots { (config.now.sessions ≡ L.sessions) × (vec_len config.now.servers ≡ L.servers)
            × (L.all ≡ L.sessions + L.servers + 2) × (L.all ≡ L.parts) }
        ensures gate { IfOk result (λ t. t.0.gate ≡ gate) }
        ensures orders { IfOk result (λ t. t.1
            ≡ record { amount = 0; orders = B.first_orders board } ∷ record {
              amount = 0;
              orders = B.first_orders
                  board;
            } ∷ []) }
        ensures memory { IfErr result (λ e. e ≡ HubFault.Memory) }
    {
        let (log, mut pass) = laid.named::<L>();
        let Ok(rooms) = make_rooms(alloc, config, &log, &mut pass) else {
            return Err(HubFault::Memory);
        };
        let Rooms {
            servers,
            joined,
            downs,
            ups,
            down_histories,
            up_histories,
            counts,
        } = rooms;
        let (book, mut rest) = blank.open::<L>();
        let first = OrderSeat::new(0, rest.split_off(1, 0), board.orders());
        let second = OrderSeat::new(1, rest.split_off(1, 0), board.orders());
        let hub = Hub {
            gate,
            board,
            boot: terms.boot,
            limits: terms.limits,
            server_limits: terms.server_limits,
            servers,
            slots: Slots {
                book: log,
                downs,
                ups,
                window: terms.limits.window(),
                server_window: terms.server_limits.window(),
                counts,
            },
            down_histories,
            up_histories,
            desk: Mutex::new(Desk::new(rest, config.sessions, joined)),
            count: AdaptiveMutex::new(Count::new(book)),
        };
        Ok((hub, [first, second]))
    }

    /// A session for the next client, and its seat, which knows the routes of the configuration.
    ///
    /// The errors are NoReader, TooManySessions and Memory, and with each nothing was done.
    /// TooManySessions says that each client's slot has had its session. It waits for no order.
    pub fn open_client<R: Wait>(&self, rt: &R, alloc: Global) -> Result<ClientSeat<L>, HubFault>
        ensures { IfOk result (λ s. (s.amount ≡ 0) × (s.receipts ≡ []) × (s.orders ≡ B.first_orders self.now.board)) }
    {
        let Ok(routes) = self.board.reader() else {
            return Err(HubFault::NoReader);
        };
        let mut desk = self.desk.lock(rt);
        let Some(client) = desk.next_client() else {
            return Err(HubFault::TooManySessions);
        };
        let session = KeptServerSession::open(alloc, self.boot, client, self.limits);
        let opened = desk.open(alloc, self.limits.history(), routes, session);
        drop(desk);
        let Ok((seat, session)) = opened else {
            return Err(HubFault::Memory);
        };
        let client = seat.client();
        if !self.put_client(rt, client, session) {
            return Err(HubFault::TooManySessions);
        }
        Ok(seat)
    }

    /// The first session towards a server, once for each, and its seat, which knows the routes of the
    /// configuration. `renew_server` makes the later ones.
    ///
    /// The errors are NoReader, TooManySessions and Memory, and with each nothing was done.
    /// TooManySessions says that the configuration has no server of this number, or that this server has
    /// joined before. It waits for no order.
    pub fn open_server<R: Wait>(
        &self,
        rt: &R,
        alloc: Global,
        server: ServerId,
    ) -> Result<ServerSeat<L>, HubFault>
        ensures { IfOk result (λ s. (s.number ≡ server) × (s.amount ≡ 0) × (s.receipts ≡ [])
            × (s.orders ≡ B.first_orders self.now.board)) }
    {
        let Some(known) = self.servers.get(server as usize) else {
            return Err(HubFault::TooManySessions);
        };
        let Ok(routes) = self.board.reader() else {
            return Err(HubFault::NoReader);
        };
        let mut desk = self.desk.lock(rt);
        if !desk.may_join(server) {
            return Err(HubFault::TooManySessions);
        }
        let session = KeptClientSession::open(alloc, server, known.mode, self.server_limits);
        let room = self.server_limits.history();
        let joined = desk.join(alloc, server, room, routes, session);
        drop(desk);
        let Ok((seat, session)) = joined else {
            return Err(HubFault::Memory);
        };
        let server = seat.server();
        if !self.put_server(rt, server, session) {
            return Err(HubFault::TooManySessions);
        }
        Ok(seat)
    }

    /// Puts a client's session into its slot: whether it did. It doesn't, if the slot has one, or had a later client.
    pub(crate) fn put_client<R: Wait>(
        &self,
        rt: &R,
        client: u64,
        session: KeptServerSession,
    ) -> bool
        requires begun { Belongs session.state
            (begun (record { limits = L.terms.limits; boot = L.terms.boot; number = client })) }
        requires there { (0 < client) × (0 < L.sessions) }
    {
        let Some(place) = client_place(self.slots.downs.len(), client) else {
            return false;
        };
        self.down(client)
            .put(rt, &self.slots.book, client, place as u64, session)
    }

    /// Puts a server's session into its slot: whether it did. It doesn't, if the slot has one, or had a later one.
    pub(crate) fn put_server<R: Wait>(
        &self,
        rt: &R,
        server: ServerId,
        session: KeptClientSession,
    ) -> bool
        requires begun { BelongsUp session.state
            (begun_up (record { limits = L.terms.server_limits; number = server; mode = session.mode })) }
        requires there { 0 < L.servers }
    {
        let Some(place) = server_place(self.slots.ups.len(), server) else {
            return false;
        };
        let Some(at) = (place as u64).checked_add(self.slots.downs.len() as u64) else {
            return false;
        };
        self.up(server)
            .put(rt, &self.slots.book, server, at, session)
    }
}

/// What a hub has for each session and each server.
struct Rooms<L: HubLedger> {
    servers: Vec<Known>,
    joined: Vec<bool>,
    downs: Vec<DownSlot<L>>,
    ups: Vec<UpSlot<L>>,
    down_histories: Vec<DownHistory>,
    up_histories: Vec<UpHistory>,
    counts: DestinationCounts,
}

fn make_rooms<L: HubLedger>(
    alloc: Global,
    config: &Config,
    log: &Book<L>,
    pass: &mut Pass<L>,
) -> Result<Rooms<L>, AllocError>
    requires first { pass.old ≡ first_view L.terms }
    requires terms { (L.terms.clients ≡ config.now.sessions) × (L.terms.servers ≡ vec_len config.now.servers) }
    ensures sessions { IfOk result (λ r. (vec_len r.downs ≡ config.now.sessions)
        × (vec_len r.down_histories ≡ config.now.sessions)) }
    ensures servers { IfOk result (λ r. (vec_len r.ups ≡ vec_len config.now.servers)
        × (vec_len r.up_histories ≡ vec_len config.now.servers) × (vec_len r.servers ≡ vec_len config.now.servers)
        × (vec_len r.joined ≡ vec_len config.now.servers)) }
    ensures unused { IfOk result (λ r. All HasNoDown r.down_histories.items × All HasNoUp r.up_histories.items) }
{
    Ok(Rooms {
        servers: known(alloc, config.servers.as_slice())?,
        joined: none_joined(alloc, config.servers.len())?,
        downs: down_slots(alloc, config.sessions, config.out_bytes, log, pass)?,
        ups: up_slots(
            alloc,
            config.sessions,
            config.servers.len(),
            config.out_bytes,
            log,
            pass,
        )?,
        down_histories: no_downs(alloc, config.sessions)?,
        up_histories: no_ups(alloc, config.servers.as_slice())?,
        counts: DestinationCounts::new(alloc)?,
    })
}

fn known(alloc: Global, servers: &[Server]) -> Result<Vec<Known>, AllocError>
    ensures { IfOk result (λ v. vec_len v ≡ length servers.now) }
{
    let mut all = Vec::with_capacity(alloc, servers.len())?;
    for server in servers {
        all.push_reserved(Known {
            name: String::from_str(alloc, server.name.as_str())?,
            mode: server.init,
        });
    }
    Ok(all)
}

fn none_joined(alloc: Global, count: usize) -> Result<Vec<bool>, AllocError>
    ensures { IfOk result (λ v. vec_len v ≡ count) }
{
    let mut joined = Vec::with_capacity(alloc, count)?;
    for _ in 0..count {
        joined.push_reserved(false);
    }
    Ok(joined)
}

fn down_slots<L: HubLedger>(
    alloc: Global,
    count: u64,
    out_bytes: u64,
    log: &Book<L>,
    pass: &mut Pass<L>,
) -> Result<Vec<DownSlot<L>>, AllocError>
    requires fresh { IsFresh 0 count pass.old }
    ensures count { IfOk result (λ v. vec_len v ≡ count) }
    ensures left { OnOk result (pass.new ≡ record pass.old { low = count }) }
{
    let mut slots = Vec::with_capacity(alloc, count as usize)?;
    for place in 0..count {
        let own = pass.first(log);
        slots.push_reserved(DownSlot::new(place, own, out_bytes));
    }
    Ok(slots)
}

fn up_slots<L: HubLedger>(
    alloc: Global,
    first: u64,
    count: usize,
    out_bytes: u64,
    log: &Book<L>,
    pass: &mut Pass<L>,
) -> Result<Vec<UpSlot<L>>, AllocError>
    requires fresh { IsFresh first count pass.old }
    ensures { IfOk result (λ v. vec_len v ≡ count) }
{
    let mut slots = Vec::with_capacity(alloc, count)?;
    for place in 0..count {
        let number = place as u64;
        let Some(home) = first.checked_add(number) else {
            return Err(AllocError);
        };
        let own = pass.first(log);
        slots.push_reserved(UpSlot::new(number, home, own, out_bytes));
    }
    Ok(slots)
}
