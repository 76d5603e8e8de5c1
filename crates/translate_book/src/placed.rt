//! Dispatches that a server's session has taken.
//!
//! The calls that lend a value's parts are alike in each module: one line under a contract of its own.

ghost use Rattle.std.specs.Prelude.{◌≡◌};

use mux_history::{Name, ServerId};

/// Where a dispatch was placed: a server, and the tag that it was sent with.
#[derive(Debug, Drop)]
pub struct Placed {
    name: Name,
    server: ServerId,
    tag: u32,
}

impl Placed {
    /// The place of the dispatch of this name.
    pub fn new(name: Name, server: ServerId, tag: u32) -> Placed
        ensures { result ≡ record { name = name; server = server; tag = tag } }
    {
        Placed { name, server, tag }
    }

    /// The name of the dispatch.
    pub fn name(&self) -> Name
        ensures { result ≡ self.now.name }
    {
        self.name
    }

    /// The server that has taken it.
    pub fn server(&self) -> ServerId
        ensures { result ≡ self.now.server }
    {
        self.server
    }

    /// The tag that it has at that server.
    pub fn tag(&self) -> u32
        ensures { result ≡ self.now.tag }
    {
        self.tag
    }
}
