//! The reply to `events`.
ghost use Rattle.std.specs.Prelude.{◌≡◌, ◌++◌, ◌∷◌, [], map, codes, IfOk, OnOk, string_bytes};
ghost use Rattle.operator_port.specs.Events.{event_line, peer_text, session_text};
ghost use Rattle.operator_port.specs.Texts.{text_of};

use crate::ends::End;
use crate::pages::{Prints, push_all, push_line};
use mux_history::SessionId;
use std::alloc::{AllocError, Global};
use std::net::SocketAddr;

/// A connection whose session ended.
#[derive(Clone, Copy, Drop)]
pub struct EventRow {
    /// Milliseconds since the router began.
    pub elapsed: u64,
    pub session: SessionId,
    /// The peer's address, if it is known.
    pub peer: Option<SocketAddr>,
    pub end: End,
    /// The dispatches that the session held.
    pub open: usize,
}

/// The lines of `events`.
pub(crate) fn events_page(alloc: Global, rows: &[EventRow]) -> Result<Vec<u8>, AllocError>
    ensures { IfOk result (λ t. t.items ≡ text_of (map event_line rows.now ++ codes "end" ∷ [])) }
{
    let mut text = Vec::new(alloc);
    push_all(alloc, &mut text, &Event, rows)?;
    push_line(&mut text, "end")?;
    Ok(text)
}

/// Prints a session's end.
#[derive(Drop)]
struct Event;

impl Prints<EventRow> for Event {
    ghost use Rattle.operator_port.specs.Events.{event_line};

    ghost line = { λ _ row. event_line row };

    fn push(&self, alloc: Global, text: &mut Vec<u8>, row: &EventRow) -> Result<(), AllocError> {
        let line = event_text(alloc, row)?;
        push_line(text, line.as_str())
    }
}

fn event_text(alloc: Global, row: &EventRow) -> Result<String, AllocError>
    ensures { IfOk result (λ t. string_bytes t ≡ event_line row.now) }
{
    let session = session_text(alloc, row.session)?;
    let peer = peer_text(alloc, row.peer)?;
    let (elapsed, end, open) = (row.elapsed, row.end.text(), row.open);
    format!(in alloc; "{elapsed} {session} {peer} {end} open {open}")
}

fn session_text(alloc: Global, session: SessionId) -> Result<String, AllocError>
    ensures { IfOk result (λ t. string_bytes t ≡ session_text session) }
{
    match session {
        SessionId::Client(number) => format!(in alloc; "client {number}"),
        SessionId::Server(number) => format!(in alloc; "server {number}"),
    }
}

/// The address of a peer.
pub(crate) fn peer_text(alloc: Global, peer: Option<SocketAddr>) -> Result<String, AllocError>
    ensures { IfOk result (λ t. string_bytes t ≡ peer_text peer) }
{
    match peer {
        Some(address) => format!(in alloc; "{address}"),
        None => String::from_str(alloc, "unknown"),
    }
}
