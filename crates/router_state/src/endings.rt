//! Why connections ended, as it is counted, and which did of late.

use crate::seat::Side;
use operator_port::{ENDS, End, EndRow, Ended, EventRow};
use std::alloc::{AllocError, Global};
use std::collections::VecDeque;
use std::sync::atomic::{AtomicU64, Ordering};
use std::sync::{Mutex, Wait};

/// How many ends are shown.
const SHOWN: usize = 100;

/// How many connections ended for this cause.
#[derive(Drop)]
struct Count {
    end: End,
    count: AtomicU64,
}

/// How many connections ended, by their causes.
#[derive(Drop)]
pub struct Endings {
    clients: Vec<Count>,
    servers: Vec<Count>,
    // Those of clients for which no session was opened.
    turned_away: Vec<Count>,
    // The last ends of sessions' connections, the oldest first.
    log: Mutex<VecDeque<EventRow>>,
}

fn counts(alloc: Global) -> Result<Vec<Count>, AllocError> {
    let mut counts = Vec::with_capacity(alloc, ENDS.len())?;
    for end in ENDS {
        counts.push(Count {
            end,
            count: AtomicU64::new(0),
        })?;
    }
    Ok(counts)
}

fn rows(alloc: Global, counts: &[Count]) -> Result<Vec<EndRow>, AllocError> {
    let mut rows = Vec::with_capacity(alloc, counts.len())?;
    for count in counts {
        rows.push(EndRow {
            end: count.end,
            count: count.count.load(Ordering::SeqCst),
        })?;
    }
    Ok(rows)
}

impl Endings {
    /// No connection has ended yet. Out of memory is the one error.
    pub(crate) fn new(alloc: Global) -> Result<Endings, AllocError> {
        Ok(Endings {
            clients: counts(alloc)?,
            servers: counts(alloc)?,
            turned_away: counts(alloc)?,
            log: Mutex::new(VecDeque::with_capacity(alloc, SHOWN)?),
        })
    }

    /// A connection on this side has ended. `is_opened`: a session was opened for it.
    pub fn count(&self, side: Side, is_opened: bool, end: End) {
        let counts = match side {
            Side::Client { .. } if is_opened => &self.clients,
            Side::Client { .. } => &self.turned_away,
            Side::Server(_) => &self.servers,
        };
        for count in counts {
            if count.end == end {
                count.count.fetch_add(1, Ordering::SeqCst);
            }
        }
    }

    /// A session's connection has ended, which is shown until as many others have.
    pub fn note<R: Wait>(&self, rt: &R, event: EventRow) {
        let mut log = self.log.lock(rt);
        if log.len() >= SHOWN {
            let _ = log.pop_front();
        }
        // There is room for each.
        let _ = log.push_back(event);
    }

    /// The last ends of sessions' connections, the oldest first. Out of memory is the one error.
    pub fn events<R: Wait>(&self, rt: &R, alloc: Global) -> Result<Vec<EventRow>, AllocError> {
        let mut rows = Vec::with_capacity(alloc, SHOWN)?;
        let log = self.log.lock(rt);
        for event in &*log {
            rows.push(*event).map_err(AllocError::from)?;
        }
        Ok(rows)
    }

    /// The counts. Out of memory is the one error.
    pub fn ended(&self, alloc: Global) -> Result<Ended, AllocError> {
        Ok(Ended {
            clients: rows(alloc, self.clients.as_slice())?,
            servers: rows(alloc, self.servers.as_slice())?,
            turned_away: rows(alloc, self.turned_away.as_slice())?,
        })
    }
}
