//! Which sending of its dispatch each offer is, where nacked dispatches are sent again.
//!
//! Records don't say it, and no two servers' lists have a common order. But all sendings of a
//! dispatch up to the last are nacked, each before the next is offered: so they stand in the order in
//! which their nacks came. Of those whose nack is missing the readings of the offers say it. Where
//! these are the same the sendings share a turn, and the server that asks first is the first.

use crate::command::{Command, up_command};
use crate::incident::{Conversation, Server};
use crate::values::Dispatch;
use indexmap::IndexMap;
use mux_history::{Record, RecordKind};
use std::alloc::{AllocError, Global};

/// One offer that a server took. The order is that in which sendings of a dispatch come.
#[derive(Clone, Copy, Debug, PartialEq, Eq, PartialOrd, Ord)]
struct Sending {
    dispatch: Dispatch,
    /// The turn in which its nack came, and the greatest number if none came.
    nacked: u64,
    /// The reading at which it was offered.
    offered: u64,
    /// How many offers stand before it, over all servers.
    place: usize,
}

/// The turns of sendings, from 0. Without tries each is the first of its dispatch.
#[derive(Drop)]
pub struct Sendings {
    /// How many offers stand before those of each server.
    before: Vec<usize>,
    /// The turn of each offer, server by server.
    turns: Vec<usize>,
    /// The turn of a sending that shares it with the one before, by its number from 0.
    shared: IndexMap<(Dispatch, usize), usize>,
}

impl Sendings {
    /// The turns of sendings of which each is the first.
    pub fn single(alloc: Global) -> Sendings {
        Sendings {
            before: Vec::new(alloc),
            turns: Vec::new(alloc),
            shared: IndexMap::new(alloc),
        }
    }

    /// The turns of all offers that the servers took.
    pub fn of(alloc: Global, servers: &[Server]) -> Result<Sendings, AllocError> {
        let mut sendings = Sendings::single(alloc);
        let mut all = Vec::new(alloc);
        for server in servers {
            sendings.before.push(all.len())?;
            collect(alloc, server.conversation, &mut all)?;
        }
        sendings.turns.resize(all.len(), 0)?;
        all.sort()?;
        sendings.number(&all)?;
        Ok(sendings)
    }

    /// How many offers stand before those of a server, the first of which has the place 0.
    pub fn before(&self, server: usize) -> usize {
        self.before.get(server).copied().unwrap_or(0)
    }

    /// The turn of an offer, by how many stand before it over all servers.
    pub fn turn(&self, place: usize) -> usize {
        self.turns.get(place).copied().unwrap_or(0)
    }

    /// The turn of a dispatch's sending of this number, from 0.
    pub fn turn_of(&self, dispatch: Dispatch, number: usize) -> usize {
        self.shared
            .get(&(dispatch, number))
            .copied()
            .unwrap_or(number)
    }

    // Gives each of the sendings, which are in their order, its turn.
    fn number(&mut self, all: &[Sending]) -> Result<(), AllocError> {
        let mut last: Option<Sending> = None;
        let mut number = 0_usize;
        let mut turn = 0;
        for sending in all {
            match last {
                Some(last) if last.dispatch == sending.dispatch => {
                    number = number.saturating_add(1);
                    if !last.is_beside(sending) {
                        turn = number;
                    }
                }
                _ => {
                    number = 0;
                    turn = 0;
                }
            }
            self.keep(sending, number, turn)?;
            last = Some(*sending);
        }
        Ok(())
    }

    fn keep(&mut self, sending: &Sending, number: usize, turn: usize) -> Result<(), AllocError> {
        if let Some(kept) = self.turns.get_mut(sending.place) {
            *kept = turn;
        }
        if number != turn {
            self.shared.insert((sending.dispatch, number), turn)?;
        }
        Ok(())
    }
}

impl Sending {
    // An offer that a server took, whose answer hasn't come.
    fn begun(dispatch: Dispatch, offered: u64, place: usize) -> Sending {
        Sending {
            dispatch,
            nacked: u64::MAX,
            offered,
            place,
        }
    }

    // Whether their order isn't known.
    fn is_beside(&self, other: &Sending) -> bool {
        self.nacked == other.nacked && self.offered == other.offered
    }
}

// The offers of one server, with the turns of their nacks.
fn collect(
    alloc: Global,
    conversation: Conversation,
    all: &mut Vec<Sending>,
) -> Result<(), AllocError> {
    // The last offer on each tag.
    let mut last = IndexMap::new(alloc);
    let mut frames = 0_usize;
    for record in conversation.records {
        let kind = record.kind();
        match kind {
            RecordKind::Offered => begin(record, &mut last, all)?,
            RecordKind::SettledNack => {
                let turn = conversation.turns.get(frames).copied();
                note_nack(record, turn.unwrap_or(u64::MAX), &last, all);
            }
            _ => {}
        }
        if up_command(kind) == Some(Command::Frame) {
            frames = frames.saturating_add(1);
        }
    }
    Ok(())
}

fn begin(
    record: &Record,
    last: &mut IndexMap<u32, usize>,
    all: &mut Vec<Sending>,
) -> Result<(), AllocError> {
    let Some(name) = record.name() else {
        return Ok(());
    };
    let place = all.len();
    last.insert(record.tag(), place)?;
    all.push(Sending::begun(name.into(), record.reading(), place))?;
    Ok(())
}

fn note_nack(record: &Record, turn: u64, last: &IndexMap<u32, usize>, all: &mut Vec<Sending>) {
    let Some(place) = last.get(&record.tag()) else {
        return;
    };
    if let Some(sending) = all.get_mut(*place) {
        sending.nacked = turn;
    }
}
