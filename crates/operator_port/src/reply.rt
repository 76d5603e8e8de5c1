//! What a question is answered with.
ghost use Rattle.std.specs.Prelude.{◌≡◌};
ghost use Rattle.operator_port.specs.Health.{health_by};

use crate::events::EventRow;
use crate::figures::{AddressRow, Figures, RouteRow};

/// What a question is answered with.
#[derive(Drop)]
pub enum Reply {
    Help,
    Routes(Vec<RouteRow>),
    /// Each server that has an address, in the order of the configuration.
    Servers(Vec<AddressRow>),
    /// How many clients were asked to drain, and how many open ones couldn't be.
    Drained { drained: u64, left: u64 },
    /// The router ends once its clients have their answers; how many connections of clients are open.
    Stopping { count: u64 },
    /// All is well, or the order was carried out.
    Done,
    /// The connections that ended of late, the oldest end first.
    Events(Vec<EventRow>),
    Full(Figures),
    Metrics(Figures),
    /// A text as it is, each line with its line feed: a script of what came over the connections, or what the router was
    /// configured with.
    Text(Vec<u8>),
    Failed(Lack),
}

/// What `health` is answered with: whether some server is open, and then whether a session can be opened for a further
/// client.
pub fn health_of(has_server: bool, has_place: bool) -> Reply
    ensures { result ≡ health_by has_server has_place }
{
    if !has_server {
        Reply::Failed(Lack::NoServer)
    } else if !has_place {
        Reply::Failed(Lack::NoSession)
    } else {
        Reply::Done
    }
}

/// Why there is no other answer.
#[derive(Clone, Copy, Debug, PartialEq, Eq)]
pub enum Lack {
    /// The line asks nothing.
    BadCommand,
    Memory,
    /// Nothing of what comes over the connections is kept.
    NotRecorded,
    /// No server is open.
    NoServer,
    /// No session can be opened for a further client.
    NoSession,
    /// No server has this name.
    UnknownServer,
    /// The server's connection is there.
    Open,
    /// It isn't there.
    Closed,
    /// The server has no address.
    NoAddress,
    /// The server's session begins otherwise.
    OtherInit,
}
