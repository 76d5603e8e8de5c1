//! When the session of a connection begins, and when it goes on without memory.
ghost use Rattle.std.specs.Prelude.{◌≡◌, true};
ghost use Rattle.router_traffic.specs.Starts.{is_server, start_by};

use router_state::Side;

/// What becomes of a client's connection that has no session.
#[derive(Clone, Copy, Debug, PartialEq, Eq)]
pub enum Start {
    /// Its session is opened.
    Opens,
    /// It waits for its first frame.
    Waits,
    /// It is closed.
    Closes,
}

/// What becomes of a client's connection that has no session. `has_frame`: a whole frame came over it. `has_place`: a
/// session can be opened for a further client.
pub fn start_of(has_frame: bool, has_place: bool) -> Start
    ensures table { result ≡ start_by has_frame has_place }
    ensures opens { result ≡ Start.Opens → (has_frame ≡ true) × (has_place ≡ true) }
{
    if !has_place {
        Start::Closes
    } else if has_frame {
        Start::Opens
    } else {
        Start::Waits
    }
}

/// Whether a connection whose reader found no memory is kept, and tried again at the next tick: a server's is, since
/// what comes over it is for all clients. A client is sent away.
pub fn waits_for_memory(side: Side) -> bool
    ensures { result ≡ is_server side }
{
    match side {
        Side::Client { .. } => false,
        Side::Server(_) => true,
    }
}
