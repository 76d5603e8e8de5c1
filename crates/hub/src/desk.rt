//! Who was let in, and the parts of the ledger that are left.
//!
//! `open` and `join` are twins: one gives the next client's seat, the other that of a server which is named.
ghost use Rattle.std.specs.Prelude.{◌≡◌, ◌+◌, ◌<◌, ◌≤◌, [], IfOk, None, Ok, OnErr, OnOk, Some, false, if◌then◌else◌, nat_lt, slice_get, slice_set, true, vec_len};

use crate::ledger::HubLedger;
use crate::seat::{ClientSeat, Seat, ServerSeat};
use hub_base::Batch;
use mux_history::ServerId;
use published_routes::RouteReader;
use std::alloc::{AllocError, Global};
use std::sync::ledger::Share;

/// Gives out the seats of a hub's sessions, each once, and keeps the parts of the ledger that are left.
#[derive(Drop)]
pub struct Desk<L: HubLedger> {
    opened: u64,
    joined: u64,
    sessions: u64,
    // For each server whether it has joined.
    servers: Vec<bool>,
    rest: Share<L>,
    ghost left: { rest.parts + opened + joined + 2 ≡ L.all },
    ghost empty: { rest.amount ≡ 0 },
    ghost slots: { (sessions ≡ L.sessions) × (vec_len servers ≡ L.servers) },
    ghost within: { (opened ≤ L.sessions) × (joined ≤ L.servers) },
    ghost all: { L.all ≡ L.sessions + L.servers + 2 },
}

impl<L: HubLedger> Desk<L> {
    /// A desk that has let nobody in. `servers` says of each server whether it has joined; `rest` has all
    /// parts of the ledger but two, which are those of whoever gives orders.
    pub fn new(rest: Share<L>, sessions: u64, servers: Vec<bool>) -> Desk<L>
        requires rest { (rest.parts + 2 ≡ L.all) × (rest.amount ≡ 0) }
        requires slots { (sessions ≡ L.sessions) × (vec_len servers ≡ L.servers)
            × (L.all ≡ L.sessions + L.servers + 2) }
        ensures { (result.opened ≡ 0) × (result.joined ≡ 0)
            × (result.sessions ≡ sessions) × (result.servers ≡ servers) }
    {
        Desk {
            opened: 0,
            joined: 0,
            sessions,
            servers,
            rest,
        }
    }

    /// The number of the next client, from 1. None if each slot was used.
    pub fn next_client(&self) -> Option<u64>
        ensures { result ≡ (if nat_lt self.now.opened self.now.sessions then Some (self.now.opened + 1) else None) }
    {
        if self.opened < self.sessions {
            Some(self.opened + 1)
        } else {
            None
        }
    }

    /// Lets the next client in: its seat, with room for so many receipts, beside its session.
    ///
    /// Out of memory is the one error, also where the session is that error: nobody was let in.
    pub fn open<S: Drop>(
        &mut self,
        alloc: Global,
        room: usize,
        routes: RouteReader<L>,
        session: Result<S, AllocError>,
    ) -> Result<(ClientSeat<L>, S), AllocError>
        requires { self.old.opened < self.old.sessions }
        ensures seat { IfOk result (λ t. t.0 ≡ record {
          number = self.old.opened + 1;
          amount = 0;
          receipts = [];
          room = room;
          step = room;
          orders = routes;
        }) }
        ensures session { IfOk result (λ t. session ≡ Ok t.1) }
        ensures let_in { OnOk result ((self.new.opened ≡ self.old.opened + 1) × (self.new.joined ≡ self.old.joined)
            × (self.new.sessions ≡ self.old.sessions) × (self.new.servers ≡ self.old.servers)) }
        ensures err { OnErr result ((self.new.opened ≡ self.old.opened) × (self.new.joined ≡ self.old.joined)
            × (self.new.servers ≡ self.old.servers) × (self.new.rest ≡ self.old.rest)) }
    {
        let session = session?;
        let one = Batch::of_one(alloc)?;
        let client = self.opened + 1;
        let Ok(seat) = Seat::open(alloc, client, room, routes, &mut self.rest) else {
            return Err(AllocError);
        };
        self.opened = client;
        Ok((ClientSeat::new(seat, one), session))
    }

    /// Whether this server may join: it is configured, and hasn't joined.
    pub fn may_join(&self, server: ServerId) -> bool
        ensures yes { result ≡ true → (slice_get self.now.servers.items server ≡ Some false)
            × (self.now.joined < vec_len self.now.servers) }
        ensures no { result ≡ false → slice_get self.now.servers.items server ≡ Some false
            → vec_len self.now.servers ≤ self.now.joined }
    {
        let place = server as usize;
        place < self.servers.len()
            && !self.servers[place]
            && self.joined < self.servers.len() as u64
    }

    /// Lets a server in: its seat, with room for so many receipts, beside its session.
    ///
    /// Out of memory is the one error, also where the session is that error: nobody was let in.
    pub fn join<S: Drop>(
        &mut self,
        alloc: Global,
        server: ServerId,
        room: usize,
        routes: RouteReader<L>,
        session: Result<S, AllocError>,
    ) -> Result<(ServerSeat<L>, S), AllocError>
        requires { (server < vec_len self.old.servers) × (self.old.joined < vec_len self.old.servers) }
        ensures seat { IfOk result (λ t. t.0 ≡ record {
          number = server;
          amount = 0;
          receipts = [];
          room = room;
          step = room;
          orders = routes;
        }) }
        ensures session { IfOk result (λ t. session ≡ Ok t.1) }
        ensures let_in { OnOk result ((self.new.opened ≡ self.old.opened) × (self.new.joined ≡ self.old.joined + 1)
            × (self.new.sessions ≡ self.old.sessions)
            × (self.new.servers.items ≡ slice_set self.old.servers.items server true)) }
        ensures err { OnErr result ((self.new.opened ≡ self.old.opened) × (self.new.joined ≡ self.old.joined)
            × (self.new.servers ≡ self.old.servers) × (self.new.rest ≡ self.old.rest)) }
    {
        let session = session?;
        let one = Batch::of_one(alloc)?;
        let Ok(seat) = Seat::open(alloc, server, room, routes, &mut self.rest) else {
            return Err(AllocError);
        };
        self.joined += 1;
        self.servers[server as usize] = true;
        Ok((ServerSeat::new(seat, one), session))
    }

    /// How many clients and servers were let in, and the parts that are left.
    pub fn into_rest(self) -> (u64, u64, Share<L>)
        ensures left { result.2.parts + result.0 + result.1 + 2 ≡ L.all }
        ensures empty { result.2.amount ≡ 0 }
    {
        let Desk {
            opened,
            joined,
            rest,
            ..
        } = self;
        (opened, joined, rest)
    }
}
