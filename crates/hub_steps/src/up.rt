//! What a slot keeps of a session towards a server.
//!
//! Its twin is `down`: one lends a `KeptClientSession`, the other a `KeptServerSession`, each under that side's clauses.
ghost use Rattle.std.specs.Prelude.{◌≡◌, true, false};
ghost use Rattle.hub_steps.specs.Up.{Fits, MayKeep, held, queued};

use kept_session::KeptClientSession;
use mux_history::History;

/// How many records the present history has: none if the slot has no session.
#[inline(always)]
pub fn held_by(slot: &Option<KeptClientSession>) -> usize
    ensures count { result ≡ held slot.now }
    ensures kept { MayKeep slot.now }
{
    match slot {
        Some(session) => session.held(),
        None => 0,
    }
}

/// How many frames wait to be sent: none if the slot has no session.
#[inline(always)]
pub fn queued_by(slot: &Option<KeptClientSession>) -> usize
    ensures { result ≡ queued slot.now }
{
    match slot {
        Some(session) => session.queued(),
        None => 0,
    }
}

/// Whether this history can be the next one.
pub(crate) fn fits(session: &KeptClientSession, fresh: &History) -> bool
    ensures yes { result ≡ true → Fits fresh.now session.now }
    ensures no { result ≡ false → Fits fresh.now session.now → ⊥ }
{
    fresh.records().is_empty() && fresh.room() == session.limits().history()
}
