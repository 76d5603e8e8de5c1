//! The bytes of every connection.

use crate::stream::Stream;
use mux_history::SessionId;
use std::alloc::{AllocError, Global};

/// A stream for each session, in the order of their numbers from 1 on.
#[derive(Drop)]
pub struct Connections {
    clients: Vec<Stream>,
    servers: Vec<Stream>,
}

impl Connections {
    /// No connections.
    pub fn new(alloc: Global) -> Connections {
        Connections {
            clients: Vec::new(alloc),
            servers: Vec::new(alloc),
        }
    }

    /// The stream of a session that was opened.
    pub fn push(&mut self, session: SessionId, stream: Stream) -> Result<(), AllocError> {
        match session {
            SessionId::Client(_) => self.clients.push(stream)?,
            SessionId::Server(_) => self.servers.push(stream)?,
        }
        Ok(())
    }

    /// The stream of a session, if it was opened since the last restart.
    pub fn get(&mut self, session: SessionId) -> Option<&mut Stream> {
        let (streams, number) = match session {
            SessionId::Client(number) => (&mut self.clients, number),
            SessionId::Server(number) => (&mut self.servers, number),
        };
        if number == 0 {
            return None;
        }
        streams.get_mut((number - 1) as usize)
    }

    /// All streams are gone.
    pub fn clear(&mut self) {
        self.clients.clear();
        self.servers.clear();
    }
}
