//! The lines of a script.

use crate::incident::Incident;
use crate::shown::ShownSession;
use mux_history::{InitMode, Limits, SessionId};
use std::alloc::{AllocError, Global};

/// A script so far, with the last reading of the clock that it names.
#[derive(Drop)]
pub struct Text {
    alloc: Global,
    lines: String,
    now: u64,
}

impl Text {
    /// The lines in front of all steps: the limits, and a line for each session.
    pub fn begin(alloc: Global, incident: &Incident) -> Result<Text, AllocError> {
        let mut text = Text {
            alloc,
            lines: String::new(alloc),
            now: 0,
        };
        text.push("judge\n")?;
        text.limits(incident.limits, incident.server_limits)?;
        for _ in incident.clients {
            text.push("client\n")?;
        }
        for server in incident.servers {
            text.push(match server.mode {
                InitMode::Plain => "server plain\n",
                InitMode::Probe => "server probe\n",
            })?;
        }
        Ok(text)
    }

    fn push(&mut self, line: &str) -> Result<(), AllocError> {
        self.lines.push_str(line)
    }

    // All sessions of a replay have the same limits: of each the larger one here. What a full session refused isn't in its
    // records: so nothing that was recorded came of the smaller one.
    fn limits(&mut self, clients: Limits, servers: Limits) -> Result<(), AllocError> {
        let (max_frame, retries) = (clients.max_frame(), clients.retries());
        let window = clients.window().max(servers.window());
        let out = clients.out().max(servers.out());
        let history = clients.history().max(servers.history());
        let line = format!(in self.alloc;
            "limits {max_frame} {window} {out} {history} {retries}\n"
        )?;
        self.push(&line)
    }

    /// The lines that follow have this reading of the clock, in milliseconds.
    pub fn set_clock(&mut self, reading: u64) -> Result<(), AllocError> {
        if self.now == reading {
            return Ok(());
        }
        self.now = reading;
        let line = format!(in self.alloc; "now {reading}\n")?;
        self.push(&line)
    }

    /// A frame comes over a connection.
    pub fn take_in(&mut self, session: SessionId, frame: &[u8]) -> Result<(), AllocError> {
        let session = ShownSession(session);
        let digits = hex::encode(self.alloc, frame)?;
        let line = format!(in self.alloc; "in {session} {digits}\n")?;
        self.push(&line)
    }

    /// A call of a session, by its word.
    pub fn call(&mut self, word: &str, session: SessionId) -> Result<(), AllocError> {
        let session = ShownSession(session);
        let line = format!(in self.alloc; "{word} {session}\n")?;
        self.push(&line)
    }

    /// A value in hand is used by the session that it names.
    pub fn spend(&mut self, word: &str, number: u64) -> Result<(), AllocError> {
        let line = format!(in self.alloc; "{word} h{number}\n")?;
        self.push(&line)
    }

    /// A value in hand is used by a session that is named.
    pub fn spend_at(
        &mut self,
        word: &str,
        number: u64,
        session: SessionId,
    ) -> Result<(), AllocError> {
        let session = ShownSession(session);
        let line = format!(in self.alloc; "{word} h{number} {session}\n")?;
        self.push(&line)
    }

    /// The whole script.
    pub fn end(mut self) -> Result<String, AllocError> {
        self.push("# end\n")?;
        Ok(self.lines)
    }
}
