//! Which epoch of each session is next.
ghost use Rattle.std.specs.Prelude.{◌≡◌, ◌≤◌, ℕ, Some, None, IfOk, IfSome, IsNone, IsSome, replicate};
ghost use Rattle.rolling_audit.specs.Turns.{AreFirst, Closes, IsTurn, Puts, Sets, begins_at, first_turn, next_behind, next_in, numbers_of};

use crate::slot::{server_slot, slot_of};
use mux_history::SessionId;
use std::alloc::{AllocError, Global};

/// How far the records of a session were taken.
#[derive(Clone, Copy, Debug, PartialEq, Eq)]
pub struct Progress {
    /// The epoch that is next.
    pub epoch: u32,
    /// How many of its records were taken already.
    pub within: usize,
}

impl Progress {
    /// Before the first epoch.
    fn first() -> Progress
        ensures { result ≡ first_turn }
    {
        Progress {
            epoch: 0,
            within: 0,
        }
    }
}

/// The present session of a slot.
#[derive(Clone, Copy)]
pub struct Present {
    /// Its number. Clients are numbered from 1, so it is 0 before the first one.
    pub number: u64,
    /// How far its records were taken. None once it has ended, and before the first client.
    pub next: Option<Progress>,
}

impl Present {
    /// How far the records of a session of the slot were taken. A greater number follows once the present session has
    /// ended.
    fn next_behind(self, number: u64) -> Option<Progress>
        ensures { result ≡ next_behind self number }
    {
        if self.number == number {
            return self.next;
        }
        if number < self.number || self.next.is_some() {
            return None;
        }
        Some(Progress::first())
    }
}

/// How far the records of each session were taken. Clients are numbered from 1, servers from 0. Both take their slots
/// in turn: the first server of each is there from the beginning.
#[derive(Drop)]
pub struct Turns {
    clients: Vec<Present>,
    servers: Vec<Present>,
}

impl Turns {
    /// Before any record, of so many slots for clients and so many servers. Out of memory is the only error.
    pub(crate) fn new(alloc: Global, slots: usize, servers: usize) -> Result<Turns, AllocError>
        ensures next { IfOk result (λ t. (id : SessionId) → next_in t id ≡ begins_at slots servers id) }
        ensures numbers { IfOk result (λ t. numbers_of t ≡ replicate slots 0) }
    {
        let none = Present {
            number: 0,
            next: None,
        };
        let clients = vec![in alloc; none; slots]?;
        let servers = first_servers(alloc, servers)?;
        Ok(Turns { clients, servers })
    }

    /// How far those of one session were taken. None if there is no such session.
    pub(crate) fn get(&self, session: SessionId) -> Option<Progress>
        ensures { result ≡ next_in self.now session }
    {
        match session {
            SessionId::Client(client) => {
                let slot = slot_of(client, self.clients.len())?;
                self.clients[slot].next_behind(client)
            }
            SessionId::Server(server) => {
                let slot = server_slot(server, self.servers.len())?;
                self.servers[slot].next_behind(server)
            }
        }
    }

    /// How many records of a history of so many were taken, if it is that of the epoch that is next.
    pub(crate) fn within(&self, session: SessionId, epoch: u32, len: usize) -> Option<usize>
        ensures turn { IfSome result (λ within. IsTurn self.now session epoch len within) }
        ensures out_of_turn { IsNone result → (within : ℕ) → IsTurn self.now session epoch len within → ⊥ }
    {
        let next = self.get(session)?;
        if next.epoch != epoch || epoch == u32::MAX || len < next.within {
            return None;
        }
        Some(next.within)
    }

    /// Notes how far those of a session were taken.
    pub(crate) fn set(&mut self, session: SessionId, next: Progress)
        requires { IsSome (next_in self.old session) }
        ensures { Sets self.old session next self.new }
    {
        self.put(session, Some(next));
    }

    /// Notes that a session has ended.
    pub(crate) fn end(&mut self, session: SessionId)
        requires { IsSome (next_in self.old session) }
        ensures { Closes self.old session self.new }
    {
        self.put(session, None);
    }

    fn put(&mut self, session: SessionId, next: Option<Progress>)
        requires { IsSome (next_in self.old session) }
        ensures { Puts self.old session next self.new }
    {
        match session {
            SessionId::Client(client) => {
                if let Some(slot) = slot_of(client, self.clients.len()) {
                    let number = client;
                    self.clients[slot] = Present { number, next };
                }
            }
            SessionId::Server(server) => {
                if let Some(slot) = server_slot(server, self.servers.len()) {
                    let number = server;
                    self.servers[slot] = Present { number, next };
                }
            }
        }
    }
}

/// The first servers of so many slots. Out of memory is the only error.
fn first_servers(alloc: Global, slots: usize) -> Result<Vec<Present>, AllocError>
    ensures { IfOk result (λ v. AreFirst v.items slots) }
{
    let mut servers = Vec::new(alloc);
    for server in 0..slots {
        let next = Some(Progress::first());
        let number = server as u64;
        servers.push(Present { number, next })?;
    }
    Ok(servers)
}
