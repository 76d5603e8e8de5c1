//! What is counted of sessions that are over, and of histories that were given up.
ghost use Rattle.std.specs.Prelude.{◌≡◌, All, [], length, slice_get, None, IfOk, IfSome};
ghost use Rattle.mux_history.specs.Counting.{IsCount};
ghost use Rattle.router_state.specs.Counted.{DelaysMore, Gives, IsNothing, StepsMore, place_of};

use crate::given::Given;
use hub::{UpCounts, server_place};
use mux_history::{Delays, KindCounts, SessionId};
use std::alloc::{AllocError, Global};

/// How many records of each kind sessions had in histories that they gave up.
#[derive(Drop)]
pub(crate) struct Kinds {
    given: KindCounts,
    // Of these, those of each server's sessions, and how long the dispatches to those took that were taken out.
    by_server: Vec<UpCounts>,
}

// The place of the server whose session it is, among so many.
fn place_of(servers: usize, session: SessionId) -> Option<usize>
    ensures { result ≡ place_of servers session }
{
    match session {
        SessionId::Client(_) => None,
        SessionId::Server(server) => server_place(servers, server),
    }
}

impl Kinds {
    /// Nothing was given up yet in a router with so many servers. Out of memory is the one error.
    pub fn none(alloc: Global, servers: usize) -> Result<Kinds, AllocError>
        ensures given { IfOk result (λ k. IsCount k.given []) }
        ensures by_server { IfOk result (λ k. (length k.by_server.items ≡ servers) × All IsNothing k.by_server.items) }
    {
        let mut by_server = Vec::with_capacity(alloc, servers)?;
        for _ in 0..servers {
            by_server.push(UpCounts::none())?;
        }
        Ok(Kinds {
            given: KindCounts::none(),
            by_server,
        })
    }

    /// A session gave histories up.
    pub fn give(&mut self, given: &Given)
        ensures { Gives given.now self.old self.new }
    {
        let counts = given.counts();
        self.given = self.given.plus(counts);
        if let Some(place) = place_of(self.by_server.len(), given.session) {
            self.add(place, counts);
        }
    }

    // The server at this place had so many more steps in them.
    fn add(&mut self, place: usize, counts: KindCounts)
        ensures given { self.new.given ≡ self.old.given }
        ensures own { StepsMore place counts self.old.by_server.items self.new.by_server.items }
    {
        if let Some(own) = self.by_server.get_mut(place) {
            own.steps = own.steps.plus(counts);
        }
    }

    /// The session of the server at this place was taken out, to which dispatches took so long.
    pub fn end(&mut self, place: usize, delays: Delays)
        ensures given { self.new.given ≡ self.old.given }
        ensures own { DelaysMore place delays self.old.by_server.items self.new.by_server.items }
    {
        if let Some(own) = self.by_server.get_mut(place) {
            own.delays = own.delays.plus(delays);
        }
    }

    /// How many records were given up.
    pub fn given(&self) -> KindCounts
        ensures { result ≡ self.now.given }
    {
        self.given
    }

    /// What is left of the sessions of the server at this place: nothing, if there is none.
    pub fn given_of(&self, place: usize) -> UpCounts
        ensures some { IfSome (slice_get self.now.by_server.items place) (λ own. result ≡ own) }
        ensures none { slice_get self.now.by_server.items place ≡ None → IsNothing result }
    {
        match self.by_server.get(place) {
            Some(given) => *given,
            None => UpCounts::none(),
        }
    }
}
