//! Knows how a router stands.
ghost use Rattle.std.specs.Prelude.{◌≡◌, ⊤};

use crate::drains::{Drains, drain_turn};
use crate::incident::script_of;
use crate::rows::{client_row, route_row, server_row, server_work};
use http_page::{Choice, Page, Pages};
use hub_close::UpWord;
use mux_history::SessionId;
use operator_port::{
    ClientRow, EventRow, Figures, Knows, Lack, Question, Reply, RouteRow, ServerRow, ServerWork,
    Traffic, fixed_reply, health_of, print_reply,
};
use router_state::{Admin, Control, Upstream};
use std::alloc::AllocError;
use std::net::SocketAddr;
use std::sync::Wait;
use std::time::Clock;

/// Knows how a router stands, by the figures of its hub.
#[derive(Drop)]
pub(crate) struct Status<'a, H: Control + Admin, R: Wait + Clock> {
    pub rt: &'a R,
    pub router: &'a H,
    pub drains: &'a Drains,
}

impl<H: Control + Admin, R: Wait + Clock> Status<'_, H, R> {
    fn is_open(&self) -> bool {
        for server in 0..self.router.shared().names.len() {
            if let Some(figures) = self.router.server_figures(self.rt, server as u64)
                && figures.word == UpWord::Open
            {
                return true;
            }
        }
        false
    }

    fn health(&self) -> Reply {
        health_of(self.is_open(), self.router.has_place(self.rt))
    }

    // Asks the first open clients to send no more dispatches. The ticker goes on.
    fn drain_all(&self) -> Reply {
        let end = self.router.shared().opened();
        let turn = drain_turn(self.rt, self.router, 0, end);
        if let Some(next) = turn.next {
            self.drains.leave(next, end);
            self.router.shared().switchboard.ticker.notify();
        }
        Reply::Drained {
            drained: turn.drained,
            left: turn.left,
        }
    }

    // Has the router let its clients go, and end then, or after so many seconds.
    fn stop(&self, seconds: u64) -> Reply {
        let shared = self.router.shared();
        let limit = seconds.saturating_mul(1_000);
        shared
            .switchboard
            .let_go_until(shared.now(self.rt).saturating_add(limit));
        Reply::Stopping {
            count: shared.switchboard.count_clients(),
        }
    }

    fn clients(&self) -> Result<Vec<ClientRow>, AllocError> {
        let mut rows = Vec::new(self.router.shared().alloc);
        for place in 0..self.router.shared().opened() {
            if let Some((number, figures)) = self.router.client_at(self.rt, place) {
                rows.push(client_row(number, self.peer(SessionId::Client(number)), figures))
                    .map_err(AllocError::from)?;
            }
        }
        rows.sort_unstable_by_key(|row: &ClientRow| row.number);
        Ok(rows)
    }

    fn servers(&self) -> Result<Vec<ServerRow>, AllocError> {
        let router = self.router;
        let now = router.shared().now(self.rt);
        let mut rows = Vec::new(router.shared().alloc);
        for (server, name) in router.shared().names.iter().enumerate() {
            if let Some(upstream) = self.placed(server)
                && let Some(figures) = router.server_figures(self.rt, server as u64)
            {
                let ejected = upstream.last_until().saturating_sub(now);
                let alloc = router.shared().alloc;
                let peer = self.peer(SessionId::Server(server as u64));
                let row = server_row(alloc, name.as_str(), peer, figures, ejected)?;
                rows.push(row).map_err(AllocError::from)?;
            }
        }
        Ok(rows)
    }

    // The address at the other end of a session's connection. A server's is that of any session of its slot.
    fn peer(&self, session: SessionId) -> Option<SocketAddr> {
        let slot = self.router.shared().switchboard.slot_of(session)?;
        slot.peer_of(self.rt, session)
    }

    // The server at this place of the configuration, if it has an address.
    fn placed(&self, server: usize) -> Option<&Upstream> {
        let upstream = self.router.shared().switchboard.upstreams().get(server)?;
        upstream.address(self.rt).map(|_| upstream)
    }

    fn work(&self) -> Result<Vec<ServerWork>, AllocError> {
        let shared = self.router.shared();
        let mut rows = Vec::new(shared.alloc);
        for (server, name) in shared.names.iter().enumerate() {
            if self.placed(server).is_none() {
                continue;
            }
            let done = self.router.steps_with(self.rt, server as u64);
            let errors = shared.meter.errors(server as u64);
            let work = server_work(shared.alloc, name.as_str(), done, errors)?;
            rows.push(work).map_err(AllocError::from)?;
        }
        Ok(rows)
    }

    fn figures(&self) -> Result<Figures, AllocError> {
        let limits = self.router.shared().limits;
        Ok(Figures {
            boot: self.router.shared().boot,
            elapsed: self.router.shared().now(self.rt),
            history: limits.clients.history() as u64,
            server_history: limits.servers.history() as u64,
            clients: self.clients()?,
            servers: self.servers()?,
            work: self.work()?,
            destinations: self.router.routes(self.rt)?.destinations,
            traffic: self.traffic(),
            ended: self
                .router
                .shared()
                .endings
                .ended(self.router.shared().alloc)?,
            latency: self
                .router
                .shared()
                .meter
                .latency(self.router.shared().alloc)?,
        })
    }

    fn traffic(&self) -> Traffic {
        let router = self.router;
        Traffic {
            clients: router.shared().meter.clients(),
            servers: router.shared().meter.servers(),
            steps: router.steps(self.rt),
        }
    }

    fn events(&self) -> Result<Vec<EventRow>, AllocError> {
        let shared = self.router.shared();
        shared.endings.events(self.rt, shared.alloc)
    }

    fn config(&self) -> Result<Reply, AllocError> {
        let shared = self.router.shared();
        Ok(Reply::Text(Vec::from_slice(shared.alloc, shared.config.as_slice())?))
    }

    fn script(&self) -> Result<Reply, AllocError> {
        Ok(match script_of(self.rt, self.router)? {
            Some(script) => Reply::Text(script),
            None => Reply::Failed(Lack::NotRecorded),
        })
    }

    fn routes(&self) -> Result<Vec<RouteRow>, AllocError> {
        let mut rows = Vec::new(self.router.shared().alloc);
        for routing in self.router.routes(self.rt)?.routes {
            let row = route_row(
                self.router.shared().alloc,
                routing,
                self.router.shared().names.as_slice(),
            )?;
            rows.push(row).map_err(AllocError::from)?;
        }
        Ok(rows)
    }
}

impl<H: Control + Admin, R: Wait + Clock> Knows for Status<'_, H, R> {
    ghost asks = { λ _ _ _. ⊤ };

    ghost asks_nothing = { λ _. tt };

    ghost asks_in_order = { λ _ _ _ _ _ _ _. tt };

    fn ask(&mut self, question: Question) -> Reply {
        let replied = match question {
            Question::Help => Ok(Reply::Help),
            Question::Health => Ok(self.health()),
            Question::Routes => self.routes().map(Reply::Routes),
            Question::Servers => self.addresses().map(Reply::Servers),
            Question::Server {
                name,
                address,
                init,
            } => Ok(self.place(name, address, init)),
            Question::Forget(name) => Ok(self.forget(name)),
            Question::DrainAll => Ok(self.drain_all()),
            Question::Events => self.events().map(Reply::Events),
            Question::Full => self.figures().map(Reply::Full),
            Question::Config => self.config(),
            Question::Metrics => self.figures().map(Reply::Metrics),
            Question::Record => self.script(),
            Question::Rejoin(name) => Ok(self.rejoin(name)),
            Question::Cut(name) => Ok(self.cut(name)),
            Question::Stop(seconds) => Ok(self.stop(seconds)),
        };
        match replied {
            Ok(reply) => reply,
            Err(_) => Reply::Failed(Lack::Memory),
        }
    }
}

impl<H: Control + Admin, R: Wait + Clock> Pages for Status<'_, H, R> {
    fn page(&mut self, choice: Choice) -> Page {
        let alloc = self.router.shared().alloc;
        let (status, reply) = match choice {
            Choice::Metrics => (200, self.ask(Question::Metrics)),
            Choice::Health => match self.health() {
                Reply::Done => (200, Reply::Done),
                lack => (503, lack),
            },
            Choice::Alive => (200, Reply::Done),
            Choice::NotFound => (404, Reply::Failed(Lack::BadCommand)),
            Choice::NotAllowed => (405, Reply::Failed(Lack::BadCommand)),
        };
        match (print_reply(alloc, &reply), reply) {
            (Err(_), _) | (_, Reply::Failed(Lack::Memory)) => Page {
                status: 503,
                body: Vec::new(alloc),
            },
            (Ok(body), _) => Page { status, body },
        }
    }
}
