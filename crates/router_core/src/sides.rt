//! The lists of a run.

ghost use Rattle.std.specs.Prelude.{◌≡◌, IfOk};
ghost use Rattle.mux_model.specs.World.{same_session};
ghost use Rattle.mux_model.specs.Entries.{said_by};
ghost use Rattle.router_core.specs.Entries.{first_entries};
ghost use Rattle.router_core.specs.Lists.{IsOpened, IsSideAt, entered, is_side, shown, shown_side};

use crate::Memory;
use core_world::Hand;
use mux_frame::Frame;
use mux_history::SessionId;
use mux_model::Exchange;
use std::alloc::Global;

/// One session's list: a session is named by its boot, its side and its number.
#[derive(Drop)]
pub struct Side {
    pub boot: u64,
    pub session: SessionId,
    /// What each recorded step did, the oldest first.
    pub entries: Vec<Exchange>,
}

/// What a run left.
#[derive(Drop)]
pub struct Run {
    /// The lists of all boots, as their sessions were opened.
    pub sides: Vec<Side>,
    /// The values in hand, by rising number.
    pub hands: Vec<Hand>,
    /// The places of the refused events, counted from 0.
    pub refused: Vec<usize>,
}

fn is_same(a: SessionId, b: SessionId) -> bool
    ensures { result ≡ same_session a b }
{
    match (a, b) {
        (SessionId::Client(a), SessionId::Client(b)) => a == b,
        (SessionId::Server(a), SessionId::Server(b)) => a == b,
        _ => false,
    }
}

/// It is the list of this session.
fn is_at(side: &Side, boot: u64, id: SessionId) -> bool
    ensures { result ≡ is_side boot id (shown_side side.now) }
{
    side.boot == boot && is_same(side.session, id)
}

/// Where the list of a session is.
fn side_at(sides: &[Side], boot: u64, id: SessionId) -> Option<usize>
    ensures { IsSideAt boot id sides.now result }
{
    for (place, side) in sides.iter().enumerate() {
        if is_at(side, boot, id) {
            return Some(place);
        }
    }
    None
}

/// One more entry in the list of a session.
pub fn enter(sides: &mut Vec<Side>, boot: u64, id: SessionId, entry: Exchange) -> Result<(), Memory>
    ensures { IfOk result (λ u. shown sides.new.items ≡ entered boot id entry (shown sides.old.items)) }
{
    let Some(place) = side_at(sides, boot, id) else {
        return Ok(());
    };
    sides[place].entries.push(entry)?;
    Ok(())
}

fn first_entries(alloc: Global, first: Option<Frame>) -> Result<Vec<Exchange>, Memory>
    ensures { IfOk result (λ es. es.items ≡ first_entries (said_by first)) }
{
    let mut entries = Vec::with_capacity(alloc, 1)?;
    if let Some(frame) = first {
        entries.push_reserved(Exchange {
            rec: None,
            taken: None,
            sent: Some(frame),
        });
    }
    Ok(entries)
}

/// The list of a session that was opened, with the first message that it sent.
pub fn open_side(
    alloc: Global,
    sides: &mut Vec<Side>,
    boot: u64,
    session: SessionId,
    first: Option<Frame>,
) -> Result<(), Memory>
    ensures { IfOk result (λ u. IsOpened sides.old.items sides.new.items boot session (said_by first)) }
{
    let entries = first_entries(alloc, first)?;
    sides.push(Side {
        boot,
        session,
        entries,
    })?;
    Ok(())
}
