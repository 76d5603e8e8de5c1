//! What each thread does.

use crate::held::Held;
use hub::{ClientSeat, Hub, HubLedger, Seats, ServerSeat};
use published_routes::Publish;
use std::alloc::Global;
use std::sync::atomic::{AtomicU64, Ordering};
use std::sync::{Mutex, Wait};

/// What is to be done.
#[derive(Clone, Copy)]
pub struct Script {
    /// The tags of the dispatches that each client sends.
    pub tags: &'static [u8],
    /// How many a client sends before it takes their replies.
    pub ahead: usize,
    /// Whether a call takes all of them.
    pub is_batched: bool,
    /// In which epoch each client's session is at the end, at least.
    pub epoch: u32,
    /// How often each seat grows, at least.
    pub grown: u32,
}

/// Whom a thread acts for.
#[derive(Drop)]
pub enum Job<L: HubLedger> {
    Client(ClientSeat<L>),
    Server(ServerSeat<L>),
    /// All that is no client's or server's.
    Ticker(Seats<L>),
}

/// A seat that comes back, and whether all was well.
#[derive(Drop)]
pub struct Done<L: HubLedger> {
    pub job: Job<L>,
    pub is_well: bool,
}

/// The jobs that are left, and the seats that came back.
#[derive(Drop)]
pub struct Table<L: HubLedger> {
    pub jobs: Mutex<Vec<Job<L>>>,
    pub done: Mutex<Vec<Done<L>>>,
    /// How many clients are at work.
    pub left: AtomicU64,
    pub script: Script,
}

/// Who acts for the seats of a hub.
#[derive(Drop)]
pub struct Crew<'a, L: HubLedger, B: Publish<L>, R: Wait> {
    pub rt: &'a R,
    pub alloc: Global,
    pub hub: &'a Hub<Held<'a>, L, B>,
}

impl<L: HubLedger, B: Publish<L>, R: Wait> Crew<'_, L, B, R> {
    fn for_client(&self, mut seat: ClientSeat<L>, table: &Table<L>) -> Done<L> {
        let is_well = if table.script.is_batched {
            self.ask_in_batches(&mut seat, table.script)
        } else {
            self.ask(&mut seat, table.script)
        };
        table.left.fetch_sub(1, Ordering::SeqCst);
        Done {
            job: Job::Client(seat),
            is_well,
        }
    }

    fn for_server(&self, mut seat: ServerSeat<L>, table: &Table<L>) -> Done<L> {
        let is_well = if table.script.is_batched {
            self.serve_in_batches(&mut seat, table.script, &table.left)
        } else {
            self.serve(&mut seat, table.script, &table.left)
        };
        Done {
            job: Job::Server(seat),
            is_well,
        }
    }

    fn for_ticker(&self, mut seats: Seats<L>, table: &Table<L>) -> Done<L> {
        let is_well = self.tick(&mut seats, &table.left);
        Done {
            job: Job::Ticker(seats),
            is_well,
        }
    }

    /// Takes a job, if one is left, and does it: whether one was.
    pub fn work(&self, table: &Table<L>) -> bool {
        let next = table.jobs.lock(self.rt).pop();
        let Some(job) = next else {
            return false;
        };
        let done = match job {
            Job::Client(seat) => self.for_client(seat, table),
            Job::Server(seat) => self.for_server(seat, table),
            Job::Ticker(seats) => self.for_ticker(seats, table),
        };
        table.done.lock(self.rt).push(done).is_ok()
    }
}
