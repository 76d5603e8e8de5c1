//! What asks a server to discard a dispatch.

ghost use Rattle.std.specs.Prelude.{◌≡◌};
ghost use Rattle.translate_book.specs.Values.{reason_in};

use bytes::Bytes;
use mux_history::{Name, ServerId};

/// Why a dispatch is to be discarded.
#[derive(Drop)]
pub enum Why {
    /// The reason in the client's Tdiscarded.
    Reason(Bytes),
    /// The client's session is closed.
    ClientGone,
}

impl Why {
    /// The reason, as a Tdiscarded spells it.
    pub fn as_slice(&self) -> &[u8]
        ensures { result.now ≡ reason_in self.now }
    {
        match self {
            Why::Reason(reason) => reason.as_slice(),
            Why::ClientGone => b"client gone",
        }
    }

    /// The same as bytes of its own. It takes no memory.
    pub fn into_bytes(self) -> Bytes
        ensures { result ≡ reason_in self }
    {
        match self {
            Why::Reason(reason) => reason,
            Why::ClientGone => Bytes::from_static(b"client gone"),
        }
    }
}

/// Asks the server that a dispatch was placed on to discard it.
#[derive(Drop)]
pub struct Recall {
    name: Name,
    server: ServerId,
    tag: u32,
    why: Why,
}

impl Recall {
    /// A recall of the dispatch of this name, which was placed on this server with this tag.
    pub fn new(name: Name, server: ServerId, tag: u32, why: Why) -> Recall
        ensures { result ≡ record { name = name; server = server; tag = tag; why = why } }
    {
        Recall {
            name,
            server,
            tag,
            why,
        }
    }

    /// The name of the dispatch.
    pub fn name(&self) -> Name
        ensures { result ≡ self.now.name }
    {
        self.name
    }

    /// The server that the dispatch was placed on.
    pub fn server(&self) -> ServerId
        ensures { result ≡ self.now.server }
    {
        self.server
    }

    /// The tag that the dispatch has at its server.
    pub fn tag(&self) -> u32
        ensures { result ≡ self.now.tag }
    {
        self.tag
    }

    /// Why the dispatch is to be discarded.
    pub fn why(&self) -> &Why
        ensures { result.now ≡ self.now.why }
    {
        &self.why
    }

    /// The dispatch's name, its server, the tag that it has there, and why it is to be discarded.
    pub fn into_parts(self) -> (Name, ServerId, u32, Why)
        ensures { result ≡ (self.name, self.server, self.tag, self.why) }
    {
        let Recall {
            name,
            server,
            tag,
            why,
        } = self;
        (name, server, tag, why)
    }
}
