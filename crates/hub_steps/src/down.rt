//! What a slot keeps of a session towards a client.
//!
//! Its twin is `up`: one lends a `KeptServerSession`, the other a `KeptClientSession`, each under that side's clauses.
ghost use Rattle.std.specs.Prelude.{◌≡◌, true, false};
ghost use Rattle.hub_steps.specs.Down.{FitsDown, MayKeepDown, held_down, queued_down};

use kept_session::KeptServerSession;
use mux_history::History;

/// How many records the present history has: none if the slot has no session.
#[inline(always)]
pub fn held_by(slot: &Option<KeptServerSession>) -> usize
    ensures count { result ≡ held_down slot.now }
    ensures kept { MayKeepDown slot.now }
{
    match slot {
        Some(session) => session.held(),
        None => 0,
    }
}

/// How many frames wait to be sent: none if the slot has no session.
#[inline(always)]
pub fn queued_by(slot: &Option<KeptServerSession>) -> usize
    ensures { result ≡ queued_down slot.now }
{
    match slot {
        Some(session) => session.queued(),
        None => 0,
    }
}

/// Whether this history can be the next one.
pub(crate) fn fits(session: &KeptServerSession, fresh: &History) -> bool
    ensures yes { result ≡ true → FitsDown fresh.now session.now }
    ensures no { result ≡ false → FitsDown fresh.now session.now → ⊥ }
{
    fresh.records().is_empty() && fresh.room() == session.limits().history()
}
