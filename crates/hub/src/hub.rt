//! The hub: its slots, its gate, its routes, and its book.
ghost use Rattle.std.specs.Prelude.{◌≡◌, ◌+◌, ◌-◌, ◌^◌, ◌<◌, ℕ, All, List, IfErr, IfOk, IfSome, OnOk, Some, min, vec_len};
ghost use Rattle.mux_agree.specs.declared.agreement.histories.DownHistory.{DownHistory};
ghost use Rattle.mux_agree.specs.declared.agreement.histories.UpHistory.{UpHistory};
ghost use Rattle.std.specs.VecDeque.{deque_capacity};
ghost use Rattle.hub_slots.specs.Histories.{HasNoDown, HasNoUp, IsKeptDown, IsKeptUp};
ghost use Rattle.hub.specs.Closing.{IsClosed, IsStopped, parts_back};
ghost use Rattle.hub.specs.Ending.{AreKept};
ghost use Rattle.server_session.specs.Inside.{frames_of};
ghost use Rattle.hub_log.specs.Views.{View};
ghost use Rattle.hub_places.specs.Holding.{IsGone};
ghost use Rattle.hub.specs.Taking.{IsNextOut, IsTakenOut};

use crate::close::{CloseFault, Closed};
use crate::desk::Desk;
use crate::ledger::HubLedger;
use crate::remains::Remains;
use crate::seat::Seats;
use hub_base::{AdaptiveMutex, Gate};
use hub_close::Count;
use hub_delivery::Slots;
use hub_log::{Pass, Terms};
use hub_slots::{DownSlot, UpSlot, of_clients, of_servers};
use mux_agree::{DownHistory, UpHistory};
use mux_frame::Frame;
use mux_history::{InitMode, Limits, ServerId, SessionId};
use published_routes::Publish;
use route_table::Config;
use std::collections::VecDeque;
use std::sync::{Mutex, Wait};

/// How many parts the ledger of a hub with this configuration has: one for each client's session, one
/// for each server, and two for those who give orders.
pub fn parts(config: &Config) -> u64
    ensures { result ≡ min (min (config.now.sessions + vec_len config.now.servers) (2 ^ 64 - 1) + 2) (2 ^ 64 - 1) }
{
    let servers = config.servers.len() as u64;
    config.sessions.saturating_add(servers).saturating_add(2)
}

/// What the log of a hub with this configuration has to know.
pub fn terms(config: &Config) -> Terms
    ensures clients { result.clients ≡ config.now.sessions }
    ensures servers { result.servers ≡ vec_len config.now.servers }
    ensures boot { result.boot ≡ config.now.boot }
{
    Terms {
        boot: config.boot,
        limits: config.limits(),
        server_limits: config.server_limits(),
        clients: config.sessions,
        servers: config.servers.len() as u64,
    }
}

/// A server, as the configuration names it.
#[derive(Drop)]
pub(crate) struct Known {
    pub name: String,
    pub mode: InitMode,
}

/// What was taken out of a session.
#[derive(Drop)]
pub struct TakenOut<L: HubLedger> {
    /// How many frames came.
    pub came: usize,
    /// A pass that knows the hub's log up to the move that took them out. It has no bytes.
    pub known: Option<Pass<L>>,
}

impl<L: HubLedger> TakenOut<L> {
    fn nothing() -> TakenOut<L>
        ensures { result.came ≡ 0 }
    {
        TakenOut {
            came: 0,
            known: None,
        }
    }
}

/// The sessions of a router under running threads, each under a lock of its own. In each call `now` is a
/// reading of the clock, in milliseconds since the router's start.
///
/// `G` is asked before each frame's step, and `B` publishes the routes. No call but `open` and
/// `close` holds more than one lock at a time, and none holds a lock while it looks a route up.
#[derive(Drop)]
pub struct Hub<G: Gate + Drop, L: HubLedger, B: Publish<L>> {
    pub gate: G,
    pub(crate) board: B,
    pub(crate) boot: u64,
    pub(crate) limits: Limits,
    pub(crate) server_limits: Limits,
    pub(crate) servers: Vec<Known>,
    pub(crate) slots: Slots<L>,
    // Where the histories go at the end: one with no epoch for each slot.
    pub(crate) down_histories: Vec<DownHistory>,
    pub(crate) up_histories: Vec<UpHistory>,
    pub(crate) desk: Mutex<Desk<L>>,
    pub(crate) count: AdaptiveMutex<Count<L>>,
    ghost clients: { (vec_len slots.downs ≡ L.sessions) × (vec_len down_histories ≡ L.sessions) },
    ghost named: { (vec_len slots.ups ≡ L.servers) × (vec_len up_histories ≡ L.servers)
        × (vec_len servers ≡ L.servers) },
    ghost terms: { L.terms ≡ record {
      boot = boot;
      limits = limits;
      server_limits = server_limits;
      clients = L.sessions;
      servers = L.servers;
    } },
    ghost unused: { All HasNoDown down_histories.items × All HasNoUp up_histories.items },
}

impl<G: Gate + Drop, L: HubLedger, B: Publish<L>> Hub<G, L, B> {
    pub(crate) fn down(&self, client: u64) -> &DownSlot<L>
        requires { (0 < client) × (0 < L.sessions) }
    {
        match self.slots.find_down(client) {
            Some(slot) => slot,
            None => unreachable!(),
        }
    }

    pub(crate) fn up(&self, server: ServerId) -> &UpSlot<L>
        requires { 0 < L.servers }
    {
        match self.slots.find_up(server) {
            Some(slot) => slot,
            None => unreachable!(),
        }
    }

    /// The next frame to be sent by this session. None if there is none, or no such session.
    ///
    /// It waits for the session's lock, and takes no memory.
    pub fn next_out<R: Wait>(&self, rt: &R, session: SessionId) -> Option<Frame>
        ensures { IfSome result (λ f. IsNextOut session (Some f)) }
    {
        match session {
            SessionId::Client(client) => self
                .slots
                .find_down(client)?
                .take_out(rt, &self.slots.book, client),
            SessionId::Server(server) => self
                .slots
                .find_up(server)?
                .take_out(rt, &self.slots.book, server),
        }
    }

    /// All frames to be sent by this session, in their order, by one exchange: how many came. The log of the hub has
    /// them: by `what_goes_out_stands` each reply to a client is its server's, or the router's own nack.
    ///
    /// None comes if the deque that is handed in isn't empty, or has less room than the limit `out`.
    /// It waits for the session's lock, and takes no memory.
    pub fn next_outs<R: Wait>(
        &self,
        rt: &R,
        session: SessionId,
        frames: &mut VecDeque<Frame>,
    ) -> TakenOut<L>
        ensures event { IsTakenOut session frames.old.items (deque_capacity frames.old) frames.new.items result.came }
        ensures stands { 0 < result.came → (log : View) × (result.known ≡ Some log)
            × IsGone L.terms session (frames_of frames.new.items) log }
    {
        let book = &self.slots.book;
        let taken = match session {
            SessionId::Client(client) => match self.slots.find_down(client) {
                Some(slot) => slot.take_outs(rt, book, client, frames),
                None => return TakenOut::nothing(),
            },
            SessionId::Server(server) => match self.slots.find_up(server) {
                Some(slot) => slot.take_outs(rt, book, server, frames),
                None => return TakenOut::nothing(),
            },
        };
        let (came, known) = taken;
        TakenOut {
            came,
            known: Some(known),
        }
    }

    /// Whether this session's epoch should end, by a seal or a roll: at most a quarter of its
    /// places for records would be free if each dispatch that it holds used all it may need. It
    /// asks for no lock.
    pub fn wants_rest(&self, session: SessionId) -> bool {
        match session {
            SessionId::Client(client) => match self.slots.find_down(client) {
                Some(slot) => slot.wants_rest(),
                None => false,
            },
            SessionId::Server(server) => match self.slots.find_up(server) {
                Some(slot) => slot.wants_rest(),
                None => false,
            },
        }
    }

    /// Whether more bytes of dispatches or replies wait to be sent by this session than should: a server's session
    /// takes no dispatch then. It asks for no lock.
    pub fn is_backlogged(&self, session: SessionId) -> bool {
        match session {
            SessionId::Client(client) => match self.slots.find_down(client) {
                Some(slot) => slot.is_backlogged(),
                None => false,
            },
            SessionId::Server(server) => match self.slots.find_up(server) {
                Some(slot) => slot.is_backlogged(),
                None => false,
            },
        }
    }

    /// The sessions with the server at this place are asked last up to this reading: they get a dispatch only if no
    /// other server of its route takes it. It asks for no lock.
    pub fn ask_last(&self, server: ServerId, until: u64) {
        if let Some(slot) = self.slots.find_up(server) {
            slot.ask_last(until);
        }
    }

    /// The reading up to which the server at this place is asked last: one that has passed, if it isn't. It asks for no
    /// lock.
    pub fn last_until(&self, server: ServerId) -> u64 {
        match self.slots.find_up(server) {
            Some(slot) => slot.last_until(),
            None => 0,
        }
    }

    /// The end: how much was done, if all seats came back, the histories bear each other out, each
    /// receipt stands, the counts agree, and no value was dropped; else the first of these that isn't
    /// so. Its steps and its memory are those of [`Remains::judge`].
    pub fn close(self, seats: Seats<L>) -> Result<Closed, CloseFault>
        requires { L.all ≡ L.parts }
        ensures ok { IfOk result (λ c. (downs : List DownHistory) × (ups : List UpHistory)
            × IsClosed downs ups seats.clients.items seats.servers.items seats.orders c) }
        ensures back { OnOk result ((rest : ℕ)
            × (parts_back rest seats.clients.items seats.servers.items ≡ L.parts)) }
        ensures stopped { IfErr result (λ e. (rest : ℕ) × (downs : List DownHistory) × (ups : List UpHistory)
            × All IsKeptDown downs × All IsKeptUp ups
            × IsStopped L.parts rest downs ups seats.clients.items seats.servers.items seats.orders e) }
    {
        self.end(seats).judge()
    }

    /// What is left of the hub, with the seats that came back: for whoever judges it later, or on another thread. Of
    /// each session's histories it has those that weren't given up (`take_ended`). Routes are published no more. It
    /// takes no memory.
    pub fn end(self, seats: Seats<L>) -> Remains<L>
        ensures seats { result.seats ≡ seats }
        ensures kept { AreKept result.downs.items result.ups.items }
    {
        let Hub {
            slots,
            down_histories,
            up_histories,
            desk,
            count,
            ..
        } = self;
        let (opened, joined, rest) = desk.into_inner().into_rest();
        let Slots { downs, ups, .. } = slots;
        Remains {
            opened,
            joined,
            rest,
            count: count.into_inner(),
            downs: of_clients(downs, down_histories),
            ups: of_servers(ups, up_histories),
            seats,
        }
    }
}
