//! The sessions that may have frames queued.

ghost use Rattle.std.specs.Prelude.{◌≡◌, ◌∷◌, [], IfNone, IfSome, OnOk};
ghost use Rattle.replay_script.specs.Touched.{listed, listed_with};

use mux_history::{ServerId, SessionId};
use std::alloc::{AllocError, Global};
use std::collections::BTreeSet;

/// The sessions that events touched since frames were last taken out of them.
#[derive(Drop)]
pub struct Touched {
    clients: BTreeSet<u64>,
    servers: BTreeSet<ServerId>,
}

impl Touched {
    /// No sessions.
    pub fn new(alloc: Global) -> Touched
        ensures { listed result.clients.keys result.servers.keys ≡ [] }
    {
        Touched {
            clients: BTreeSet::new(alloc),
            servers: BTreeSet::new(alloc),
        }
    }

    /// Adds a session, unless it is there. Out of memory is the one error.
    pub fn add(&mut self, session: SessionId) -> Result<(), AllocError>
        ensures { OnOk result (listed self.new.clients.keys self.new.servers.keys
            ≡ listed_with session self.old.clients.keys self.old.servers.keys) }
    {
        match session {
            SessionId::Client(number) => {
                self.clients.insert(number)?;
            }
            SessionId::Server(number) => {
                self.servers.insert(number)?;
            }
        }
        Ok(())
    }

    /// The first of them, which is then no longer one: clients before servers, each by rising number.
    pub fn pop(&mut self) -> Option<SessionId>
        ensures some { IfSome result (λ session. listed self.old.clients.keys self.old.servers.keys
            ≡ session ∷ listed self.new.clients.keys self.new.servers.keys) }
        ensures none { IfNone result (listed self.old.clients.keys self.old.servers.keys ≡ []) }
    {
        match self.clients.pop_first() {
            Some(number) => Some(SessionId::Client(number)),
            None => match self.servers.pop_first() {
                Some(number) => Some(SessionId::Server(number)),
                None => None,
            },
        }
    }

    /// Forgets all of them.
    pub fn clear(&mut self)
        ensures { listed self.new.clients.keys self.new.servers.keys ≡ [] }
    {
        self.clients.clear();
        self.servers.clear();
    }
}
