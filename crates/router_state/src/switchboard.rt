//! The slots of all connections, and what the tasks tell one another.
ghost use Rattle.std.specs.Prelude.{◌≡◌, ◌+◌, ◌<◌, ◌%◌};

use crate::batches::Batches;
use crate::notify::Notify;
use crate::slot::Slot;
use crate::stage::{Ending, Progress, Stage};
use crate::upstream::{NEVER, Upstream};
use crate::worker::Worker;
use hub::{Bell, client_place, server_place};
use mux_history::SessionId;
use route_table::Config;
use std::alloc::{AllocError, Global};
use std::sync::atomic::{AtomicU64, Ordering};
use std::sync::{Mutex, Wait};

/// A slot for each connection, and what the other tasks wait at.
#[derive(Drop)]
pub struct Switchboard {
    // Those of clients, and those of servers: as two fields the type would stand twice in that of a router.
    slots: [Vec<Slot>; 2],
    upstreams: Vec<Upstream>,
    /// One for each thread, by its place.
    pub workers: Vec<Worker>,
    // The place of each client's slot, by the place of its session in the hub.
    places: Vec<AtomicU64>,
    // How often the ticker has looked at the clock.
    ticks: AtomicU64,
    // How many servers are still being connected to.
    connecting: AtomicU64,
    /// Whoever looks for a client has it, so that no two threads let the last one in.
    pub turn: Mutex<()>,
    // How many readers and writers have begun and not ended.
    carrying: AtomicU64,
    progress: Progress,
    // The reading at which it ends in any case, once it was told to let its clients go.
    deadline: AtomicU64,
    /// Of the admin port's task.
    pub admin: Notify,
    /// Of the task of the port where figures are asked for in lines.
    pub operator: Notify,
    /// Of the task of the port where figures are asked for by HTTP.
    pub scraper: Notify,
    /// Of the ticker.
    pub ticker: Notify,
}

// The thread that carries what is at this place. The last one comes first: it never fails to run.
fn worker_of(place: usize, threads: usize) -> usize
    ensures { 0 < threads → result + 1 + place % threads ≡ threads }
{
    let turn = place.checked_rem(threads).unwrap_or(0);
    threads.saturating_sub(1).saturating_sub(turn)
}

// So many slots, which are shared out to the threads one after another.
fn slots(
    alloc: Global,
    count: usize,
    threads: usize,
    is_clients: bool,
) -> Result<Vec<Slot>, AllocError> {
    let mut slots = Vec::with_capacity(alloc, count)?;
    for place in 0..count {
        slots.push(Slot::new(worker_of(place, threads), is_clients))?;
    }
    Ok(slots)
}

// How many of these slots the thread at this place carries.
fn count_of(slots: &[Slot], worker: usize) -> u64 {
    slots.iter().filter(|slot| slot.worker() == worker).count() as u64
}

// The threads that carry these slots.
fn workers(
    alloc: Global,
    clients: &[Slot],
    servers: &[Slot],
    threads: usize,
) -> Result<Vec<Worker>, AllocError> {
    let mut workers = Vec::with_capacity(alloc, threads)?;
    for worker in 0..threads {
        let (own_clients, own_servers) = (count_of(clients, worker), count_of(servers, worker));
        workers.push(Worker::new(alloc, own_clients, own_servers)?)?;
    }
    Ok(workers)
}

// The connection to each server.
fn upstreams(alloc: Global, config: &Config) -> Result<Vec<Upstream>, AllocError> {
    let mut upstreams = Vec::with_capacity(alloc, config.servers.len())?;
    for (place, server) in config.servers.iter().enumerate() {
        upstreams.push(Upstream::new(config, place as u64, server))?;
    }
    Ok(upstreams)
}

// A place for each session of the hub.
fn places(alloc: Global, sessions: usize) -> Result<Vec<AtomicU64>, AllocError> {
    let mut places = Vec::with_capacity(alloc, sessions)?;
    for _ in 0..sessions {
        places.push(AtomicU64::new(u64::MAX))?;
    }
    Ok(places)
}

impl Switchboard {
    /// Slots for as many clients at once and as many servers as the configuration has. Out of memory is the one error.
    pub(crate) fn new(alloc: Global, config: &Config) -> Result<Switchboard, AllocError> {
        let threads = config.threads as usize;
        let clients = slots(alloc, config.clients as usize, threads, true)?;
        let servers = slots(alloc, config.servers.len(), threads, false)?;
        Ok(Switchboard {
            workers: workers(alloc, clients.as_slice(), servers.as_slice(), threads)?,
            places: places(alloc, config.sessions as usize)?,
            ticks: AtomicU64::new(0),
            connecting: AtomicU64::new(servers.len() as u64),
            turn: Mutex::new(()),
            carrying: AtomicU64::new(0),
            slots: [clients, servers],
            upstreams: upstreams(alloc, config)?,
            progress: Progress::new(),
            deadline: AtomicU64::new(NEVER),
            admin: Notify::new(),
            operator: Notify::new(),
            scraper: Notify::new(),
            ticker: Notify::new(),
        })
    }

    /// The router lets its clients go: no more come in, and it ends once none is left, or at this reading. The last
    /// order counts.
    pub fn let_go_until(&self, reading: u64) {
        self.deadline
            .store(reading.min(NEVER - 1), Ordering::SeqCst);
        self.ring_accepters();
        self.ticker.notify();
    }

    /// The reading at which the router ends in any case, if it lets its clients go.
    pub fn deadline(&self) -> Option<u64> {
        let deadline = self.deadline.load(Ordering::SeqCst);
        if deadline == NEVER {
            None
        } else {
            Some(deadline)
        }
    }

    /// Whether the router lets its clients go.
    pub fn lets_go(&self) -> bool {
        self.deadline().is_some()
    }

    /// How many slots the hub has for sessions of clients.
    pub(crate) fn sessions(&self) -> usize {
        self.places.len()
    }

    /// A slot for each client at once.
    pub fn clients(&self) -> &[Slot] {
        self.slots[0].as_slice()
    }

    /// A slot for each server, in the order of the configuration.
    pub fn servers(&self) -> &[Slot] {
        self.slots[1].as_slice()
    }

    /// The connection to each server, in the order of the configuration.
    pub fn upstreams(&self) -> &[Upstream] {
        self.upstreams.as_slice()
    }

    /// Whether all tasks are to end.
    #[inline(always)]
    pub fn is_stopped(&self) -> bool {
        self.progress.stage() != Stage::Serving
    }

    /// Has all tasks end, for this reason. The first reason stays.
    pub fn end(&self, ending: Ending) {
        self.progress.advance(Stage::Stopping, ending);
        self.ring_every();
    }

    /// Has all tasks end at once, since some thread can't go on: its tasks won't end by themselves.
    pub fn abandon(&self, ending: Ending) {
        self.progress.advance(Stage::Abandoned, ending);
        self.ring_every();
    }

    /// Whether all tasks are to end at once.
    pub fn is_abandoned(&self) -> bool {
        self.progress.stage() == Stage::Abandoned
    }

    /// Why the router ends, if it does.
    pub fn ending(&self) -> Option<Ending> {
        self.progress.ending()
    }

    /// How often the ticker has looked at the clock.
    pub fn ticks(&self) -> u64 {
        self.ticks.load(Ordering::SeqCst)
    }

    /// The ticker has looked at the clock: every task looks again.
    pub fn tick(&self) {
        self.ticks.fetch_add(1, Ordering::SeqCst);
        self.ring_every();
    }

    /// A server was connected to for the first time, or couldn't be.
    pub fn tried(&self) {
        self.connecting.fetch_sub(1, Ordering::SeqCst);
        self.ring_accepters();
    }

    /// Whether clients may come in: every server was tried, or the first tick is over.
    pub fn takes_clients(&self) -> bool {
        (self.connecting.load(Ordering::SeqCst) == 0 || self.ticks() > 0) && !self.is_stopped()
    }

    /// The batches of the thread that carries a slot.
    pub fn batches(&self, slot: &Slot) -> Option<&Batches> {
        let worker = self.workers.get(slot.worker())?;
        Some(&worker.batches)
    }

    /// A client was let in by the thread at this place.
    pub fn let_in(&self, worker: &Worker) {
        worker.let_in();
        // It may be the turn of another thread now.
        self.ring_accepters();
    }

    /// There is one more reader or writer.
    pub fn begin_carrying(&self) {
        self.carrying.fetch_add(1, Ordering::SeqCst);
    }

    /// A reader or a writer has ended.
    pub fn end_carrying(&self) {
        if self.carrying.fetch_sub(1, Ordering::SeqCst) <= 1 {
            self.ticker.notify();
        }
    }

    /// Whether some reader or writer has to be waited for.
    pub fn is_carrying(&self) -> bool {
        self.carrying.load(Ordering::SeqCst) > 0 && !self.is_abandoned()
    }

    /// The client of this number has the slot at this place.
    pub fn place_client(&self, client: u64, place: usize) {
        if let Some(word) = self.word_of(client) {
            word.store(place as u64, Ordering::SeqCst);
        }
    }

    fn word_of(&self, client: u64) -> Option<&AtomicU64> {
        self.places.get(client_place(self.places.len(), client)?)
    }

    /// The slot of a session's connection.
    pub fn slot_of(&self, session: SessionId) -> Option<&Slot> {
        match session {
            SessionId::Client(client) => {
                let word = self.word_of(client)?;
                self.clients().get(word.load(Ordering::Relaxed) as usize)
            }
            SessionId::Server(server) => {
                self.servers()
                    .get(server_place(self.servers().len(), server)?)
            }
        }
    }

    /// A slot for the next client, if it's the turn of the thread at this place: of the threads that have room it has
    /// the least work. Once the router lets its clients go each takes what it has room for.
    pub fn free_slot(&self, place: usize) -> Option<&Slot> {
        let clients = self.count_clients().saturating_add(1);
        let servers = (self.servers().len() as u64).max(1);
        let load = self.workers.get(place)?.load_with_next(clients, servers);
        let mut others = self.workers.iter();
        if others.any(|other| other.has_room() && other.load_with_next(clients, servers) < load)
            && !self.lets_go()
        {
            return None;
        }
        let mut slots = self.clients().iter();
        slots.find(|slot| slot.worker() == place && slot.is_free())
    }

    /// How many connections of clients there are.
    pub fn count_clients(&self) -> u64 {
        self.workers
            .iter()
            .fold(0u64, |sum, worker| sum.saturating_add(worker.clients()))
    }

    /// Whether each thread runs.
    pub fn runs(&self) -> bool {
        self.workers.iter().all(Worker::is_running)
    }

    /// A task lets go of a slot.
    pub fn leave(&self, slot: &Slot) {
        if !slot.leave() {
            return;
        }
        if !slot.is_clients() {
            // Its server may be connected to again.
            slot.reader.notify();
        } else if let Some(worker) = self.workers.get(slot.worker()) {
            worker.leave();
            self.ring_accepters();
            if self.lets_go() {
                self.ticker.notify();
            }
        }
    }

    fn ring_accepters(&self) {
        for worker in &self.workers {
            worker.accepter.notify();
        }
    }

    /// Every task looks again.
    pub fn ring_every(&self) {
        self.ring_all();
        self.ring_accepters();
        self.admin.notify();
        self.operator.notify();
        self.scraper.notify();
        self.ticker.notify();
    }
}

impl Bell for Switchboard {
    fn ring(&self, session: SessionId) {
        if let Some(slot) = self.slot_of(session) {
            slot.ring();
        }
    }

    fn ring_all(&self) {
        for slot in self.clients() {
            slot.ring_both();
        }
        for slot in self.servers() {
            slot.ring_both();
        }
    }
}
