//! Who is told that frames wait.

use mux_history::SessionId;
use std::alloc::{AllocError, Global};

/// How many sessions a batch of 64 tells apart when it rings.
pub(crate) const SESSIONS_TOLD_APART: usize = 64;

/// Whoever wakes those that wait for a session: the writer that found no frame, and the reader whose
/// frame was put off. It is called with no lock held.
pub trait Bell {
    /// A step was made on this session.
    fn ring(&self, session: SessionId);

    /// A step may have been made on any session.
    fn ring_all(&self);
}

/// The sessions on which steps were made since the bells were rung.
#[derive(Drop)]
pub struct Rings {
    // With room for as many as are told apart.
    sessions: Vec<SessionId>,
    all: bool,
}

impl Rings {
    /// None, with room to tell so many apart. Out of memory is the one error.
    pub(crate) fn with_room(alloc: Global, room: usize) -> Result<Rings, AllocError> {
        let sessions = Vec::with_capacity(alloc, room)?;
        Ok(Rings {
            sessions,
            all: false,
        })
    }

    /// This session too. It takes no memory.
    pub fn add(&mut self, session: SessionId) {
        if self.all || self.sessions.contains(&session) {
            return;
        }
        if self.sessions.len() < self.sessions.capacity() && self.sessions.push(session).is_ok() {
            return;
        }
        self.all = true;
    }

    /// Every session.
    pub fn add_all(&mut self) {
        self.all = true;
    }

    /// Rings for each of these sessions once, and forgets them.
    pub(crate) fn ring<K: Bell>(&mut self, bell: &K) {
        if self.all {
            bell.ring_all();
        } else {
            for session in &self.sessions {
                bell.ring(*session);
            }
        }
        self.all = false;
        self.sessions.clear();
    }
}
