//! What a session leaves behind when its connection ends.
ghost use Rattle.std.specs.Prelude.{◌≡◌};
ghost use Rattle.router_state.specs.Gone.{client_leave_by, server_leave_by};

use crate::gone::client_figures;
use crate::host::Control;
use hub::server_place;
use hub_close::{DownWord, UpWord};
use mux_history::SessionId;
use operator_port::End;
use std::sync::Wait;

/// What a session leaves behind.
#[derive(Clone, Copy, Drop)]
pub struct Leaving {
    /// The cause, if its connection may end as was agreed.
    pub cause: Option<End>,
    /// The dispatches that it holds.
    pub open: usize,
    /// Whether it is a server that hasn't answered its opening.
    pub is_opening: bool,
}

/// Why the connection of a client's session with this word and so many dispatches ends, if that is agreed: it sends no
/// more, and holds none.
fn client_leave(word: DownWord, entries: usize) -> Option<End>
    ensures { result ≡ client_leave_by word entries }
{
    match word {
        DownWord::Drained if entries == 0 => Some(End::Drained),
        DownWord::Drained | DownWord::Closed | DownWord::Draining | DownWord::Open => None,
    }
}

/// Why the connection of a server's session with this word and so many dispatches ends, if that is agreed: it takes no
/// more, and holds none.
pub fn server_leave(word: UpWord, load: usize) -> Option<End>
    ensures { result ≡ server_leave_by word load }
{
    if load > 0 {
        return None;
    }
    match word {
        UpWord::Drained => Some(End::Drained),
        UpWord::Retired => Some(End::Retired),
        UpWord::Closed | UpWord::Opening | UpWord::Open => None,
    }
}

/// What a session leaves behind if its connection ends now: nothing, if it can't be seen.
pub fn leaving_of<H: Control, R: Wait>(rt: &R, router: &H, session: SessionId) -> Leaving {
    let none = Leaving {
        cause: None,
        open: 0,
        is_opening: false,
    };
    match session {
        SessionId::Client(client) => match client_figures(rt, router, client) {
            Some(shown) => Leaving {
                cause: client_leave(shown.word, shown.entries),
                open: shown.entries,
                is_opening: false,
            },
            None => none,
        },
        SessionId::Server(server) => {
            let Some(place) = server_place(router.shared().names.len(), server) else {
                return none;
            };
            match router.server_figures(rt, place as u64) {
                Some(shown) => Leaving {
                    cause: server_leave(shown.word, shown.load),
                    open: shown.load,
                    is_opening: matches!(shown.word, UpWord::Opening),
                },
                None => none,
            }
        }
    }
}
