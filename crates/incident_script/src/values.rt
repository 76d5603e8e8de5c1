//! Values in hand, and who waits for one.

use crate::command::{Purpose, ValueKind};
use indexmap::IndexMap;
use mux_history::Name;
use std::alloc::{AllocError, Global};

/// The name of a dispatch, as a key.
#[derive(Clone, Copy, Debug, PartialEq, Eq, PartialOrd, Ord, Hash)]
pub struct Dispatch {
    boot: u64,
    client: u64,
    seq: u64,
}

impl From<Name> for Dispatch {
    fn from(name: Name) -> Dispatch {
        Dispatch {
            boot: name.boot,
            client: name.client,
            seq: name.seq,
        }
    }
}

/// What a session needs of a dispatch. At most one value serves it at a time.
#[derive(Clone, Copy, Debug, PartialEq, Eq, Hash)]
pub enum Need {
    /// The ticket for its first sending, or for a later one.
    Ticket { sending: usize },
    Place,
    /// The server's reply, or the server's loss.
    Reply,
    Recall,
}

impl Need {
    /// What such a value serves. `sending` is which one a ticket is for.
    pub fn of_value(kind: ValueKind, sending: usize) -> Need {
        match kind {
            ValueKind::Ticket => Need::Ticket { sending },
            ValueKind::Placed => Need::Place,
            ValueKind::Settled { .. } | ValueKind::Lost => Need::Reply,
            ValueKind::Recall => Need::Recall,
        }
    }

    /// What a use needs. `sending` is which one a ticket is for.
    pub fn of_use(purpose: Purpose, sending: usize) -> Need {
        match purpose {
            Purpose::Offer | Purpose::Nack | Purpose::Unroute | Purpose::LateTicket => {
                Need::Ticket { sending }
            }
            Purpose::Note => Need::Place,
            Purpose::Settle | Purpose::Retry | Purpose::Fail | Purpose::LateReply => Need::Reply,
            Purpose::Recall => Need::Recall,
        }
    }
}

/// What is needed, and of which dispatch.
#[derive(Clone, Copy, Debug, PartialEq, Eq, Hash)]
pub struct Wanted {
    pub dispatch: Dispatch,
    pub need: Need,
}

/// A value in hand, by its number in the script.
#[derive(Clone, Copy, Debug, PartialEq, Eq)]
pub struct Value {
    pub number: u64,
    pub kind: ValueKind,
}

/// The values that are in hand, and for each that isn't the last session that waits for it.
#[derive(Drop)]
pub struct Values {
    given: u64,
    in_hand: IndexMap<Wanted, Value>,
    waiting: IndexMap<Wanted, usize>,
}

impl Values {
    /// No values.
    pub fn new(alloc: Global) -> Values {
        Values {
            given: 0,
            in_hand: IndexMap::new(alloc),
            waiting: IndexMap::new(alloc),
        }
    }

    /// The value that serves, if it is in hand.
    pub fn get(&self, wanted: Wanted) -> Option<Value> {
        self.in_hand.get(&wanted).copied()
    }

    /// The value that serves is used up.
    pub fn spend(&mut self, wanted: Wanted) {
        self.in_hand.swap_remove(&wanted);
    }

    /// A step gave a value. The session that waits for it, and waits no more.
    pub fn give(&mut self, wanted: Wanted, kind: ValueKind) -> Result<Option<usize>, AllocError> {
        self.given = self.given.saturating_add(1);
        let number = self.given;
        self.in_hand.insert(wanted, Value { number, kind })?;
        Ok(self.waiting.swap_remove(&wanted))
    }

    /// A session waits. The one that waited for the same before it.
    pub fn wait(&mut self, wanted: Wanted, session: usize) -> Result<Option<usize>, AllocError> {
        Ok(self.waiting.insert(wanted, session)?)
    }
}
