//! The limits of a router's sessions.
ghost use Rattle.std.specs.Prelude.{◌≡◌, ◌/◌, max, min};
ghost use Rattle.router_state.specs.Sides.{limits_of};

use mux_history::{Limits, SessionId};

/// The greatest number of frames that are handed in at once.
const BATCH: usize = 64;

/// The limits of the sessions of either side.
#[derive(Clone, Copy)]
pub struct SideLimits {
    pub clients: Limits,
    pub servers: Limits,
}

impl SideLimits {
    /// Those of this session.
    pub fn of(&self, session: SessionId) -> Limits
        ensures { result ≡ limits_of self.now.clients self.now.servers session }
    {
        match session {
            SessionId::Client(_) => self.clients,
            SessionId::Server(_) => self.servers,
        }
    }

    /// How many frames are handed in at once: few enough that their records find places in an epoch that is to end, of
    /// the session that takes them and of one that they are handed on to.
    pub fn batch(&self) -> usize
        ensures { result ≡ max 1 (min (min self.now.clients.history self.now.servers.history / 16) 64) }
    {
        let history = self.clients.history().min(self.servers.history());
        (history / 16).clamp(1, BATCH)
    }
}
