//! The text of a reply.
ghost use Rattle.std.specs.Prelude.{◌≡◌, ◌++◌, ◌∷◌, [], IfOk, MatchOption, false, string_bytes};
ghost use Rattle.line_session.specs.Unsent.{text_bytes};
ghost use Rattle.operator_port.specs.Asking.{TakesMemory, Tells};
ghost use Rattle.operator_port.specs.Replies.{drained_line, lack_line, reply_text, stopping_line};

use crate::events::events_page;
use crate::full::full_page;
use crate::metrics::metrics_page;
use crate::pages::push_line;
use crate::reply::{Lack, Reply};
use crate::routes::routes_page;
use crate::servers::servers_page;
use line_session::LineAnswer;
use std::alloc::{AllocError, Global};

/// What `help` is answered with.
const HELP: &str =
    "help\nhealth\nroutes\nservers\nserver NAME ADDRESS [plain]\nforget NAME\ndrain all\nrejoin NAME\ncut NAME\nstop N\nevents\nstatus full\nconfig\nmetrics\nrecord\nend\n";

/// What is told where all is well, and of an order that was carried out.
const DONE: &str = "ok\n";

/// The text of a reply that takes no memory; None of any other.
pub fn fixed_reply(reply: &Reply) -> Option<&'static str>
    ensures { MatchOption result (TakesMemory reply.now) (λ t. t.now ≡ reply_text reply.now) }
{
    match reply {
        Reply::Help => Some(HELP),
        Reply::Routes(_) => None,
        Reply::Servers(_) => None,
        Reply::Drained { .. } => None,
        Reply::Stopping { .. } => None,
        Reply::Done => Some(DONE),
        Reply::Events(_) => None,
        Reply::Full(_) => None,
        Reply::Metrics(_) => None,
        Reply::Text(_) => None,
        Reply::Failed(lack) => Some(lack_text(*lack)),
    }
}

/// The text of a reply, each line with its line feed. Out of memory is the one error.
pub fn print_reply(alloc: Global, reply: &Reply) -> Result<Vec<u8>, AllocError>
    ensures { IfOk result (λ t. t.items ≡ reply_text reply.now) }
{
    match reply {
        Reply::Help => Vec::from_slice(alloc, HELP.as_bytes()),
        Reply::Routes(rows) => routes_page(alloc, rows.as_slice()),
        Reply::Servers(rows) => servers_page(alloc, rows.as_slice()),
        Reply::Drained { drained, left } => drained_page(alloc, *drained, *left),
        Reply::Stopping { count } => stopping_page(alloc, *count),
        Reply::Done => Vec::from_slice(alloc, DONE.as_bytes()),
        Reply::Events(rows) => events_page(alloc, rows.as_slice()),
        Reply::Full(figures) => full_page(alloc, figures),
        Reply::Metrics(figures) => metrics_page(alloc, figures),
        Reply::Text(text) => Vec::from_slice(alloc, text.as_slice()),
        Reply::Failed(lack) => Vec::from_slice(alloc, lack_text(*lack).as_bytes()),
    }
}

/// The answer with a reply, or that there was no memory for its text.
pub(crate) fn tell(alloc: Global, reply: &Reply) -> LineAnswer
    ensures told { Tells reply.now (text_bytes result.text) }
    ensures more { result.is_last ≡ false }
{
    if let Some(text) = fixed_reply(reply) {
        return LineAnswer::fixed(text);
    }
    match print_reply(alloc, reply) {
        Ok(text) => LineAnswer::bytes(text),
        Err(_) => LineAnswer::fixed("error Memory\n"),
    }
}

fn lack_text(lack: Lack) -> &'static str
    ensures { result.now ≡ lack_line lack ++ (10 ∷ []) }
{
    match lack {
        Lack::BadCommand => "error BadCommand\n",
        Lack::Memory => "error Memory\n",
        Lack::NotRecorded => "error NotRecorded\n",
        Lack::NoServer => "error NoServer\n",
        Lack::NoSession => "error NoSession\n",
        Lack::UnknownServer => "error UnknownServer\n",
        Lack::Open => "error Open\n",
        Lack::Closed => "error Closed\n",
        Lack::NoAddress => "error NoAddress\n",
        Lack::OtherInit => "error OtherInit\n",
    }
}

fn drained_page(alloc: Global, drained: u64, left: u64) -> Result<Vec<u8>, AllocError>
    ensures { IfOk result (λ t. t.items ≡ drained_line drained left ++ (10 ∷ [])) }
{
    let line = format!(in alloc; "drained {drained} left {left}")?;
    let mut text = Vec::new(alloc);
    push_line(&mut text, line.as_str())?;
    Ok(text)
}

fn stopping_page(alloc: Global, count: u64) -> Result<Vec<u8>, AllocError>
    ensures { IfOk result (λ t. t.items ≡ stopping_line count ++ (10 ∷ [])) }
{
    let line = format!(in alloc; "stopping {count} open")?;
    let mut text = Vec::new(alloc);
    push_line(&mut text, line.as_str())?;
    Ok(text)
}
