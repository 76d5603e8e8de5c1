//! The reply to `status full`.
ghost use Rattle.std.specs.Prelude.{◌≡◌, ◌++◌, ◌∷◌, [], IfOk, OnOk, string_bytes};
ghost use Rattle.operator_port.specs.Replies.{client_line, full_lines, head_line, room_text, server_line, tail_text};
ghost use Rattle.operator_port.specs.Texts.{text_of};

use crate::events::peer_text;
use crate::figures::{ClientRow, Figures, ServerRow};
use crate::lease::lease_text;
use crate::pages::{Prints, push_all, push_line};
use crate::states::{down_text, up_text};
use std::alloc::{AllocError, Global};
use std::net::SocketAddr;

/// The lines of `status full`. A session's line has how many places for records an epoch has.
pub(crate) fn full_page(alloc: Global, figures: &Figures) -> Result<Vec<u8>, AllocError>
    ensures { IfOk result (λ t. t.items ≡ text_of (full_lines figures.now)) }
{
    let mut text = Vec::new(alloc);
    push_head(alloc, &mut text, figures.boot, figures.elapsed)?;
    push_all(alloc, &mut text, figures, figures.clients.as_slice())?;
    push_all(alloc, &mut text, figures, figures.servers.as_slice())?;
    push_line(&mut text, "end")?;
    Ok(text)
}

fn push_head(alloc: Global, text: &mut Vec<u8>, boot: u64, elapsed: u64) -> Result<(), AllocError>
    ensures { OnOk result (text.new.items ≡ text.old.items ++ (head_line boot elapsed ++ (10 ∷ []))) }
{
    let line = format!(in alloc; "boot {boot} now {elapsed}")?;
    push_line(text, line.as_str())
}

impl Prints<ClientRow> for Figures {
    ghost use Rattle.operator_port.specs.Replies.{client_line};

    ghost line = { λ f row. client_line f.history row };

    fn push(&self, alloc: Global, text: &mut Vec<u8>, row: &ClientRow) -> Result<(), AllocError> {
        let line = client_text(alloc, self.history, row)?;
        push_line(text, line.as_str())
    }
}

impl Prints<ServerRow> for Figures {
    ghost use Rattle.operator_port.specs.Replies.{server_line};

    ghost line = { λ f row. server_line f.server_history f.elapsed row };

    fn push(&self, alloc: Global, text: &mut Vec<u8>, row: &ServerRow) -> Result<(), AllocError> {
        let line = server_text(alloc, self.server_history, self.elapsed, row)?;
        push_line(text, line.as_str())
    }
}

fn client_text(alloc: Global, history: u64, row: &ClientRow) -> Result<String, AllocError>
    ensures { IfOk result (λ t. string_bytes t ≡ client_line history row.now) }
{
    let room = room_text(alloc, row.records, history, row.epoch)?;
    let tail = tail_text(alloc, room.as_str(), row.queued, row.peer)?;
    let (number, state, entries) = (row.number, down_text(row.word), row.entries);
    format!(in alloc; "client {number} {state} entries {entries} {tail}")
}

fn server_text(
    alloc: Global,
    history: u64,
    elapsed: u64,
    row: &ServerRow,
) -> Result<String, AllocError>
    ensures { IfOk result (λ t. string_bytes t ≡ server_line history elapsed row.now) }
{
    let lease = lease_text(alloc, row.lapse, elapsed)?;
    let room = room_text(alloc, row.records, history, row.epoch)?;
    let tail = tail_text(alloc, room.as_str(), row.queued, row.peer)?;
    let (name, state, load, ejected) = (
        row.name.as_str(),
        up_text(row.word),
        row.load,
        row.ejected,
    );
    format!(in alloc; "server {name} {state} load {load} lease {lease} ejected {ejected} {tail}")
}

fn room_text(alloc: Global, records: usize, history: u64, epoch: u32) -> Result<String, AllocError>
    ensures { IfOk result (λ t. string_bytes t ≡ room_text records history epoch) }
{
    format!(in alloc; "records {records} of {history} epoch {epoch}")
}

fn tail_text(
    alloc: Global,
    room: &str,
    queued: usize,
    peer: Option<SocketAddr>,
) -> Result<String, AllocError>
    ensures { IfOk result (λ t. string_bytes t ≡ tail_text room.now queued peer) }
{
    let peer = peer_text(alloc, peer)?;
    format!(in alloc; "{room} queued {queued} peer {peer}")
}
