//! The audit of a run that goes on.
ghost use Rattle.std.specs.Prelude.{◌≡◌, ◌+◌, ◌==◌, ◌∷◌, [], List, None, Some, false, replicate, IfErr, IfOk, IfSome, IsErr, IsOk, IsTrue, is_some};
ghost use Rattle.std.specs.Result.{result_err};
ghost use Rattle.std.specs.List.Sorted.{IsPermutation};
ghost use Rattle.indexmap.specs.IndexMap.{index_map_len};
ghost use Rattle.mux_history.specs.declared.session.SessionId.TheVariants.{Client, Server};
ghost use Rattle.mux_agree.specs.Walk.{BearOut, Kept, all_records};
ghost use Rattle.rolling_audit.specs.declared.fault.RollingFault.TheVariants.{NotOpen};
ghost use Rattle.rolling_audit.specs.Histories.{behind, unwritten};
ghost use Rattle.rolling_audit.specs.Lives.{is_done};
ghost use Rattle.rolling_audit.specs.Recalls.{AreEnded};
ghost use Rattle.rolling_audit.specs.Steps.{Ends, IsAtFault, IsRefused, LeftBy, OpensIn, Rests, SameOpen, Stays, TakesAll};
ghost use Rattle.rolling_audit.specs.Slots.{lasts_with, used_in};
ghost use Rattle.rolling_audit.specs.Taken.{AreFine, IsTaken, life_of, trail_of};

use crate::fault::{OpenFault, RollingFault};
use crate::life::Life;
use crate::lives::Lives;
use crate::slot::slot_of;
use crate::trail::Trail;
use crate::walk::walk;
use indexmap::IndexMap;
use mux_history::{InitMode, Name, Record, SessionId};
use std::alloc::{AllocError, Global};

/// What is kept of the records that were taken, of one boot of a router.
#[derive(Drop)]
pub struct RollingAudit {
    alloc: Global,
    /// For each slot the greatest number of a client whose session was opened in it; 0 before the first.
    lasts: Vec<u64>,
    clients: IndexMap<u64, Trail>,
    servers: IndexMap<u64, Trail>,
    lives: Lives,
}

impl RollingAudit {
    /// Before any session, with so many slots for clients. Out of memory is the only error.
    pub fn new(alloc: Global, boot: u64, slots: usize) -> Result<RollingAudit, AllocError>
        ensures taken { IfOk result (λ a. IsTaken [] a) }
        ensures boot { IfOk result (λ a. a.lives.boot ≡ boot) }
        ensures lasts { IfOk result (λ a. a.lasts.items ≡ replicate slots 0) }
    {
        let lasts = vec![in alloc; 0; slots]?;
        Ok(RollingAudit {
            alloc,
            lasts,
            clients: IndexMap::new(alloc),
            servers: IndexMap::new(alloc),
            lives: Lives::of(alloc, boot),
        })
    }

    /// The boot whose records it takes.
    pub fn boot(&self) -> u64
        ensures { result ≡ self.now.lives.boot }
    {
        self.lives.boot()
    }

    /// Whether a client was opened, or can't be opened any more: the numbers of a slot rise.
    pub fn is_used(&self, client: u64) -> bool
        ensures { result ≡ used_in self.now.lasts.items client }
    {
        match slot_of(client, self.lasts.len()) {
            Some(slot) => client <= self.lasts[slot],
            None => true,
        }
    }

    /// Whether a session was opened, and hasn't ended.
    pub fn is_open(&self, session: SessionId) -> bool
        ensures { result ≡ is_some (trail_of self.now session) }
    {
        match session {
            SessionId::Client(client) => self.clients.contains_key(&client),
            SessionId::Server(server) => self.servers.contains_key(&server),
        }
    }

    /// How many dispatches aren't done with.
    pub fn len(&self) -> usize
        ensures { result ≡ index_map_len self.now.lives.lives }
    {
        self.lives.len()
    }

    /// Whether there are none.
    pub fn is_empty(&self) -> bool
        ensures { result ≡ (index_map_len self.now.lives.lives == 0) }
    {
        self.lives.len() == 0
    }

    /// How many sessions are open.
    pub fn sessions(&self) -> usize
        ensures { result ≡ index_map_len self.now.clients + index_map_len self.now.servers }
    {
        self.clients.len() + self.servers.len()
    }

    /// What is kept of a dispatch that isn't done with.
    pub fn get(&self, name: Name) -> Option<Life>
        ensures value { result ≡ life_of self.now.lives name }
        ensures undone { (hs : List Kept) → IsTaken hs self.now → IfSome result (λ l. is_done l ≡ false) }
    {
        self.lives.get(name)
    }

    /// Opens a session, before its first record. The numbers of the clients of one slot rise; a server may be opened
    /// again once it has ended.
    pub fn open(&mut self, session: SessionId, mode: InitMode) -> Result<(), OpenFault>
        ensures ok { IsOk result → (hs : List Kept) → IsTaken hs self.old
            → IsTaken (unwritten session mode ∷ hs) self.new }
        ensures trails { IsOk result → OpensIn self.old session mode self.new }
        ensures lasts { IsOk result → self.new.lasts.items ≡ lasts_with session self.old.lasts.items }
        ensures err { IsErr result → Stays self.old self.new }
        ensures rests { IsErr result → Rests self.old self.new }
        ensures lives { self.new.lives ≡ self.old.lives }
        ensures why { IfErr result (λ e. IsRefused e self.old session) }
    {
        match session {
            SessionId::Client(client) => self.open_client(client, mode),
            SessionId::Server(server) => self.open_server(server, mode),
        }
    }

    fn open_client(&mut self, client: u64, mode: InitMode) -> Result<(), OpenFault>
        ensures ok { IsOk result → OpensIn self.old (Client client) mode self.new }
        ensures lasts { IsOk result → self.new.lasts.items ≡ lasts_with (Client client) self.old.lasts.items }
        ensures why { IfErr result (λ e. IsRefused e self.old (Client client)) }
        ensures lives { self.new.lives ≡ self.old.lives }
        ensures err { IsErr result → Rests self.old self.new }
    {
        let Some(slot) = slot_of(client, self.lasts.len()) else {
            return Err(OpenFault::NumberUsed);
        };
        if client <= self.lasts[slot] {
            return Err(OpenFault::NumberUsed);
        }
        if self.clients.contains_key(&client) {
            return Err(OpenFault::IsOpen);
        }
        let trail = Trail::begin(self.alloc, SessionId::Client(client), mode);
        if self.clients.insert(client, trail).is_err() {
            return Err(OpenFault::Memory);
        }
        self.lasts[slot] = client;
        Ok(())
    }

    fn open_server(&mut self, server: u64, mode: InitMode) -> Result<(), OpenFault>
        ensures ok { IsOk result → OpensIn self.old (Server server) mode self.new }
        ensures lasts { IsOk result → self.new.lasts ≡ self.old.lasts }
        ensures why { IfErr result (λ e. IsRefused e self.old (Server server)) }
        ensures lives { self.new.lives ≡ self.old.lives }
        ensures err { IsErr result → Rests self.old self.new }
    {
        if self.servers.contains_key(&server) {
            return Err(OpenFault::IsOpen);
        }
        let trail = Trail::begin(self.alloc, SessionId::Server(server), mode);
        if self.servers.insert(server, trail).is_err() {
            return Err(OpenFault::Memory);
        }
        Ok(())
    }

    /// Takes the next records of a session, the oldest first.
    pub fn take(&mut self, session: SessionId, records: &[Record]) -> Result<(), RollingFault>
        ensures ok { IsOk result → TakesAll self.old session records.now self.new }
        ensures err { IfErr result (λ e. LeftBy e self.old session records.now self.new) }
        ensures shut { trail_of self.old session ≡ None → result_err result ≡ Some (NotOpen session) }
        ensures open { SameOpen self.old self.new }
        ensures lasts { self.new.lasts ≡ self.old.lasts }
        ensures boot { self.new.lives.boot ≡ self.old.lives.boot }
    {
        match session {
            SessionId::Client(client) => self.take_client(client, records),
            SessionId::Server(server) => self.take_server(server, records),
        }
    }

    fn take_client(&mut self, client: u64, records: &[Record]) -> Result<(), RollingFault>
        ensures ok { IsOk result → TakesAll self.old (Client client) records.now self.new }
        ensures err { IfErr result (λ e. LeftBy e self.old (Client client) records.now self.new) }
        ensures shut { trail_of self.old (Client client) ≡ None → result_err result ≡ Some (NotOpen (Client client)) }
        ensures open { SameOpen self.old self.new }
        ensures lasts { self.new.lasts ≡ self.old.lasts }
        ensures boot { self.new.lives.boot ≡ self.old.lives.boot }
    {
        let session = SessionId::Client(client);
        let Some(trail) = self.clients.get_mut(&client) else {
            return Err(RollingFault::NotOpen { session });
        };
        walk(trail, &mut self.lives, session, records)
    }

    fn take_server(&mut self, server: u64, records: &[Record]) -> Result<(), RollingFault>
        ensures ok { IsOk result → TakesAll self.old (Server server) records.now self.new }
        ensures err { IfErr result (λ e. LeftBy e self.old (Server server) records.now self.new) }
        ensures shut { trail_of self.old (Server server) ≡ None → result_err result ≡ Some (NotOpen (Server server)) }
        ensures open { SameOpen self.old self.new }
        ensures lasts { self.new.lasts ≡ self.old.lasts }
        ensures boot { self.new.lives.boot ≡ self.old.lives.boot }
    {
        let session = SessionId::Server(server);
        let Some(trail) = self.servers.get_mut(&server) else {
            return Err(RollingFault::NotOpen { session });
        };
        walk(trail, &mut self.lives, session, records)
    }

    /// Forgets a session of which no record will come.
    pub fn end(&mut self, session: SessionId)
        ensures stays { Stays self.old self.new }
        ensures trails { Ends (trail_of self.old) session (trail_of self.new) }
        ensures gone { trail_of self.new session ≡ None }
        ensures lasts { self.new.lasts ≡ self.old.lasts }
        ensures lives { self.new.lives ≡ self.old.lives }
    {
        self.remove_trail(session);
    }

    fn remove_trail(&mut self, session: SessionId)
        ensures trails { Ends (trail_of self.old) session (trail_of self.new) }
        ensures lasts { self.new.lasts ≡ self.old.lasts }
        ensures lives { self.new.lives ≡ self.old.lives }
    {
        match session {
            SessionId::Client(client) => {
                self.clients.swap_remove(&client);
            }
            SessionId::Server(server) => {
                self.servers.swap_remove(&server);
            }
        }
    }

    /// Whether all records that were taken bear each other out, once no more will come. A dispatch may be
    /// under way.
    pub fn close(&self) -> Result<(), RollingFault>
        ensures ok { IsOk result → (hs : List Kept) → IsTaken hs self.now → BearOut hs }
        ensures err { IfErr result (λ e. IsAtFault e self.now) }
        ensures order { IsOk result → (hs ks : List Kept) → IsTaken hs self.now → IsPermutation hs ks → BearOut ks }
        ensures fine { IsOk result → AreFine (life_of self.now.lives) }
    {
        match self.lives.flawed() {
            Some((name, flaw)) => Err(RollingFault::Dispatch { name, flaw }),
            None => Ok(()),
        }
    }

    /// Whether each recall that a step gave was sent, or its dispatch has an end, in an audit that closes with Ok.
    pub fn are_recalls_ended(&self) -> bool
        ensures yes { IsTrue result → (hs ks : List Kept) → IsTaken hs self.now → IsPermutation hs ks
            → AreEnded (all_records ks) }
        ensures no { result ≡ false → AreFine (life_of self.now.lives) → (hs : List Kept) → IsTaken hs self.now
            → ¬ AreEnded (all_records hs) }
    {
        self.lives.are_ended()
    }
}
