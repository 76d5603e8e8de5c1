//! What an operator orders of servers.
ghost use Rattle.std.specs.Prelude.{◌≡◌};
ghost use Rattle.router_tasks.specs.Rejoins.{is_idle_by, may_cut_by, may_rejoin_by, placing_by};

use crate::status::Status;
use hub_close::UpWord;
use mux_history::InitMode;
use operator_port::{AddressRow, End, Lack, Reply};
use router_state::{Admin, Control, Slot, Upstream, server_leave};
use std::alloc::AllocError;
use std::net::SocketAddr;
use std::sync::Wait;
use std::time::Clock;

/// A server, and what it has in the switchboard.
#[derive(Drop)]
struct Named<'a> {
    place: u64,
    upstream: &'a Upstream,
    slot: &'a Slot,
}

/// What becomes of an order that gives a server an address.
enum Placing {
    /// The server is connected to there.
    Connects,
    /// It is there.
    Stays,
    Refused(Lack),
}

/// Whether the connection of a server's session with this word and so many dispatches can be made anew: it is over, or
/// the session takes no dispatch any more and holds none.
fn may_rejoin(word: UpWord, load: usize) -> bool
    ensures { result ≡ may_rejoin_by word load }
{
    match word {
        UpWord::Closed => true,
        UpWord::Drained | UpWord::Retired => load == 0,
        UpWord::Opening | UpWord::Open => false,
    }
}

/// Whether no connection of a server is needed, whose session, if it has had one, has this word and so many dispatches.
fn is_idle(is_opening: bool, session: Option<(UpWord, usize)>) -> bool
    ensures { result ≡ is_idle_by is_opening session }
{
    match session {
        _ if is_opening => false,
        Some((word, load)) => may_rejoin(word, load),
        None => true,
    }
}

/// What becomes of an order that gives a server an address: whether its sessions begin as the order says, whether no
/// connection of it is needed, and whether it is in use at that address.
fn placing_of(is_init: bool, is_idle: bool, is_there: bool) -> Placing
    ensures { result ≡ placing_by is_init is_idle is_there }
{
    if !is_init {
        Placing::Refused(Lack::OtherInit)
    } else if is_idle {
        Placing::Connects
    } else if is_there {
        Placing::Stays
    } else {
        Placing::Refused(Lack::Open)
    }
}

/// Whether a server's session with this word can be ended: it isn't over.
fn may_cut(word: UpWord) -> bool
    ensures { result ≡ may_cut_by word }
{
    match word {
        UpWord::Closed => false,
        UpWord::Drained | UpWord::Retired | UpWord::Opening | UpWord::Open => true,
    }
}

impl<H: Control + Admin, R: Wait + Clock> Status<'_, H, R> {
    fn named(&self, name: &str) -> Option<Named<'_>> {
        let shared = self.router.shared();
        let place = shared.server_named(name)?;
        Some(Named {
            place: place as u64,
            upstream: shared.switchboard.upstreams().get(place)?,
            slot: shared.switchboard.servers().get(place)?,
        })
    }

    // The word of a server's session, and how many dispatches it holds. None if it has had none.
    fn session_of(&self, server: &Named) -> Option<(UpWord, usize)> {
        let figures = self.router.server_figures(self.rt, server.place)?;
        Some((figures.word, figures.load))
    }

    // Whether no connection of a server is needed. Whoever asks has its address.
    fn is_idle(&self, server: &Named) -> bool {
        // In this order: a session that was about to be opened is there now.
        let is_opening = server.upstream.is_opening();
        is_idle(is_opening, self.session_of(server))
    }

    // Has the connection of a server that isn't needed end, and another one made if that is due.
    fn renew(&self, server: &Named) {
        let leave = match self.session_of(server) {
            Some((word, load)) => server_leave(word, load),
            None => None,
        };
        match leave {
            Some(end) => server.slot.end_for(end),
            None => server.slot.reader.notify(),
        }
    }

    /// Has the server of this name connected to again at once, unless its connection is needed.
    pub(crate) fn rejoin(&self, name: &str) -> Reply {
        let Some(server) = self.named(name) else {
            return Reply::Failed(Lack::UnknownServer);
        };
        let address = server.upstream.address.lock(self.rt);
        if address.is_none() {
            return Reply::Failed(Lack::NoAddress);
        }
        if !self.is_idle(&server) {
            return Reply::Failed(Lack::Open);
        }
        server.upstream.rejoin();
        self.renew(&server);
        Reply::Done
    }

    /// Gives the server of this name an address, and has it connected to at once.
    pub(crate) fn place(&self, name: &str, address: SocketAddr, init: InitMode) -> Reply {
        let Some(server) = self.named(name) else {
            return Reply::Failed(Lack::UnknownServer);
        };
        let upstream = server.upstream;
        let mut now_at = upstream.address.lock(self.rt);
        let is_there = *now_at == Some(address) && !upstream.is_retired();
        match placing_of(upstream.init == init, self.is_idle(&server), is_there) {
            Placing::Connects => {
                *now_at = Some(address);
                upstream.rejoin();
                self.renew(&server);
                Reply::Done
            }
            Placing::Stays => Reply::Done,
            Placing::Refused(lack) => Reply::Failed(lack),
        }
    }

    /// Takes the address of the server of this name away, unless its connection is needed.
    pub(crate) fn forget(&self, name: &str) -> Reply {
        let Some(server) = self.named(name) else {
            return Reply::Failed(Lack::UnknownServer);
        };
        let mut now_at = server.upstream.address.lock(self.rt);
        if !self.is_idle(&server) {
            return Reply::Failed(Lack::Open);
        }
        *now_at = None;
        server.upstream.retire();
        self.renew(&server);
        Reply::Done
    }

    /// Has the session of the server of this name end at once, with its connection.
    pub(crate) fn cut(&self, name: &str) -> Reply {
        let Some(server) = self.named(name) else {
            return Reply::Failed(Lack::UnknownServer);
        };
        match self.session_of(&server) {
            Some((word, _)) if may_cut(word) => {}
            _ => return Reply::Failed(Lack::Closed),
        }
        server.slot.end_for(End::Cut);
        Reply::Done
    }

    /// Where each server is that has an address, in the order of the configuration.
    pub(crate) fn addresses(&self) -> Result<Vec<AddressRow>, AllocError> {
        let shared = self.router.shared();
        let mut rows = Vec::new(shared.alloc);
        for (name, upstream) in shared.names.iter().zip(shared.switchboard.upstreams()) {
            if let Some(address) = upstream.address(self.rt) {
                rows.push(AddressRow {
                    name: String::from_str(shared.alloc, name.as_str())?,
                    address,
                    init: upstream.init,
                })
                .map_err(AllocError::from)?;
            }
        }
        Ok(rows)
    }
}
