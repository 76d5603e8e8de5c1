//! What is done for all sessions at once: readings of the clock, and the ends of epochs.
ghost use Rattle.std.specs.Prelude.{◌≤◌, vec_len};
ghost use Rattle.hub_delivery.specs.Clocking.{Clocks};

use crate::slots::Slots;
use hub_log::Room;
use kept_session::{EpochEnd, EpochRefusal, EpochRefused};
use mux_history::History;
use std::alloc::Global;
use std::sync::Wait;
use thiserror::Error;

/// Why not all epochs that could be ended were.
#[derive(Clone, Copy, Debug, Error, PartialEq, Eq)]
pub enum SealFault {
    /// A growth was refused. The epochs ended before it stay ended.
    #[error("Memory")]
    Memory,
}

impl<L: Room> Slots<L> {
    /// Hands a reading of the clock in to each server's session. Refusals are passed over.
    pub fn clock_all<R: Wait>(&self, rt: &R, now: u64, made: &mut u64)
        ensures all { Clocks now (vec_len self.now.ups) }
        ensures more { made.old ≤ made.new }
    {
        for slot in &self.ups {
            let _refused = slot.clock(rt, &self.book, now, made);
        }
    }

    /// Ends the epoch of each session that wants rest, so far as it can end in this way, and begins its
    /// next one, whose history has the room of its side. Each is counted. Memory is the one error: those ended
    /// before it stay ended.
    pub fn end_epochs<R: Wait>(
        &self,
        rt: &R,
        alloc: Global,
        how: EpochEnd,
        room: usize,
        server_room: usize,
        made: &mut u64,
    ) -> Result<(), SealFault>
        ensures { made.old ≤ made.new }
    {
        let mut left = None;
        for slot in &self.downs {
            if slot.wants_rest() {
                let fresh = spare(alloc, room, left.take())?;
                left = rest(slot.end_any(rt, &self.book, how, fresh, made))?;
            }
        }
        // A history of a client's room is none for a server.
        let mut left = None;
        for slot in &self.ups {
            if slot.wants_rest() {
                let fresh = spare(alloc, server_room, left.take())?;
                left = rest(slot.end_any(rt, &self.book, how, fresh, made))?;
            }
        }
        Ok(())
    }
}

/// An empty history: the one that is left, or a new one with this room.
fn spare(alloc: Global, room: usize, left: Option<History>) -> Result<History, SealFault> {
    if let Some(history) = left {
        return Ok(history);
    }
    match History::with_room(alloc, room) {
        Ok(history) => Ok(history),
        Err(_) => Err(SealFault::Memory),
    }
}

/// What is left of a history that was handed in to be the next epoch's.
fn rest(ended: Result<(), EpochRefused>) -> Result<Option<History>, SealFault> {
    match ended {
        Ok(()) => Ok(None),
        Err(
            EpochRefused {
                why: EpochRefusal::Memory,
                ..
            },
        ) => Err(SealFault::Memory),
        Err(EpochRefused { fresh, .. }) => Ok(Some(fresh)),
    }
}
