//! The connections of one thread.
ghost use Rattle.std.specs.Prelude.{◌≡◌, ◌+◌, ◌*◌, ◌-◌, ◌^◌, min};

use crate::batches::Batches;
use crate::notify::Notify;
use std::alloc::{AllocError, Global};
use std::sync::atomic::{AtomicBool, AtomicU64, Ordering};

/// How many connections a thread has, and where its task that accepts waits.
#[derive(Drop)]
pub struct Worker {
    /// At which its task that accepts waits.
    pub accepter: Notify,
    /// Which its readers share.
    pub batches: Batches,
    slots: u64,
    servers: u64,
    clients: AtomicU64,
    // Its task that accepts was polled.
    is_running: AtomicBool,
}

impl Worker {
    /// A thread that has room for so many clients, and none yet, and carries so many servers. Out of memory is the one
    /// error.
    pub fn new(alloc: Global, slots: u64, servers: u64) -> Result<Worker, AllocError> {
        Ok(Worker {
            accepter: Notify::new(),
            batches: Batches::new(alloc)?,
            slots,
            servers,
            clients: AtomicU64::new(0),
            is_running: AtomicBool::new(false),
        })
    }

    /// How many clients it has.
    pub fn clients(&self) -> u64 {
        self.clients.load(Ordering::SeqCst)
    }

    /// Its task that accepts is polled.
    pub fn run(&self) {
        if !self.is_running() {
            self.is_running.store(true, Ordering::SeqCst);
        }
    }

    /// Whether its task that accepts was polled. That of a thread that the system refused isn't while others run.
    pub fn is_running(&self) -> bool {
        self.is_running.load(Ordering::SeqCst)
    }

    /// Whether it runs and has room for another client.
    pub fn has_room(&self) -> bool {
        self.is_running() && self.clients() < self.slots
    }

    /// Its share of the work if it lets the next client in, given how many clients and servers there are then.
    pub fn load_with_next(&self, clients: u64, servers: u64) -> u64 {
        share(
            self.clients().saturating_add(1),
            self.servers,
            clients,
            servers,
        )
    }

    /// It has one more client.
    pub fn let_in(&self) {
        self.clients.fetch_add(1, Ordering::SeqCst);
    }

    /// It has one client less.
    pub fn leave(&self) {
        self.clients.fetch_sub(1, Ordering::SeqCst);
    }
}

/// The share of the work that a thread has with so many clients and servers, of all. Each dispatch passes one client and
/// one server: so the clients together are as much work as the servers together.
fn share(own_clients: u64, own_servers: u64, clients: u64, servers: u64) -> u64
    ensures { result ≡ min (own_clients * servers + own_servers * clients) (2 ^ 64 - 1) }
{
    let of_clients = own_clients.saturating_mul(servers);
    of_clients.saturating_add(own_servers.saturating_mul(clients))
}
