//! When a router that lets its clients go closes a client's connection.
ghost use Rattle.std.specs.Prelude.{◌≡◌};
ghost use Rattle.router_state.specs.Gone.{is_answered_by};

use crate::host::Control;
use hub::{DownFigures, client_place};
use hub_close::DownWord;
use std::sync::Wait;

/// Whether a client's session with this word, so many dispatches and so many queued frames has all its answers, and no
/// dispatch of it is to come.
fn is_answered(word: DownWord, entries: usize, queued: usize) -> bool
    ensures { result ≡ is_answered_by word entries queued }
{
    match word {
        DownWord::Drained => entries == 0 && queued == 0,
        DownWord::Closed | DownWord::Draining | DownWord::Open => false,
    }
}

/// Whether the router lets its clients go, and this one agreed and has all its answers.
pub fn is_done_with<H: Control, R: Wait>(rt: &R, router: &H, client: u64) -> bool {
    if !router.shared().switchboard.lets_go() {
        return false;
    }
    match client_figures(rt, router, client) {
        Some(shown) => is_answered(shown.word, shown.entries, shown.queued),
        None => false,
    }
}

/// The figures of the session of this client, while it has its place in the hub.
pub fn client_figures<H: Control, R: Wait>(rt: &R, router: &H, client: u64) -> Option<DownFigures> {
    let place = client_place(router.shared().switchboard.sessions(), client)?;
    let (number, shown) = router.client_at(rt, place)?;
    if number == client { Some(shown) } else { None }
}
