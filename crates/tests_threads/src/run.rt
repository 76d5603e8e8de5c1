//! Runs of a hub under threads: one for each client, one for each server, and one that seals epochs.
//!
//! Its twin is `play` of tests_hub, on one thread.
ghost use Rattle.std.specs.Prelude.{◌≡◌, ◌+◌, vec_len};

use crate::held::Held;
use crate::jobs::{Crew, Done, Job, Script, Table};
use hub::{CloseFault, Closed, Hub, HubFault, HubLedger, Laid, Seats, Terms, parts, terms};
use published_routes::{Board, Opened, Publish};
use route_table::Config;
use std::alloc::{AllocError, AllocFailed, Global};
use std::marker::Brand;
use std::sync::atomic::{AtomicBool, AtomicU64};
use std::sync::ledger::Blank;
use std::sync::{Mutex, Wait};
use std::thread;
use std::thread::Threads;

/// The sessions, the servers and one who gives orders, at most.
const READERS: usize = 16;

/// Why a run wasn't as it should be.
#[derive(Debug, Drop)]
pub enum Fault {
    /// It couldn't begin: its configuration can't be read, or memory was refused.
    NotOpened,
    /// A thread did not get what was to come.
    NotWell,
    NotClosed(CloseFault),
    /// Other totals than were to come.
    Totals(Closed),
}

impl From<AllocError> for Fault {
    fn from(_: AllocError) -> Fault {
        Fault::NotOpened
    }
}

impl<T: Drop> From<AllocFailed<T>> for Fault {
    fn from(_: AllocFailed<T>) -> Fault {
        Fault::NotOpened
    }
}

impl From<HubFault> for Fault {
    fn from(_: HubFault) -> Fault {
        Fault::NotOpened
    }
}

/// A job for each session, and one for the ticker.
fn jobs<L: HubLedger, B: Publish<L>, R: Wait>(
    rt: &R,
    alloc: Global,
    hub: &Hub<Held<'_>, L, B>,
    config: &Config,
    seats: Seats<L>,
) -> Result<Vec<Job<L>>, Fault> {
    let mut jobs = Vec::new(alloc);
    jobs.push(Job::Ticker(seats))?;
    for _ in 0..config.sessions {
        jobs.push(Job::Client(hub.open_client(rt, alloc)?))?;
    }
    for server in 0..config.servers.len() {
        jobs.push(Job::Server(hub.open_server(rt, alloc, server as u64)?))?;
    }
    Ok(jobs)
}

/// All seats, with those that came back.
fn gather<L: HubLedger>(alloc: Global, done: Vec<Done<L>>) -> Result<Seats<L>, Fault> {
    let (mut clients, mut servers, mut all) = (Vec::new(alloc), Vec::new(alloc), None);
    for part in done {
        let Done { job, is_well } = part;
        if !is_well {
            return Err(Fault::NotWell);
        }
        match job {
            Job::Client(seat) => clients.push(seat)?,
            Job::Server(seat) => servers.push(seat)?,
            Job::Ticker(seats) => all = Some(seats),
        }
    }
    let Some(mut seats) = all else {
        return Err(Fault::NotWell);
    };
    seats.clients = clients;
    seats.servers = servers;
    Ok(seats)
}

/// Does so many jobs, each in a thread of its own.
fn run_all<L: HubLedger + Send + Sync, R: Threads + Wait + Sync + Send + Drop>(
    rt: &R,
    alloc: Global,
    hub: &Hub<Held<'_>, L, Board<L, R>>,
    table: &Table<L>,
    jobs: usize,
) -> Result<(), AllocError> {
    thread::map_indices(rt, alloc, jobs, &|_| Crew { rt, alloc, hub }.work(table))?;
    Ok(())
}

/// Opens a hub, lets a thread act for each seat, and closes it.
fn run<'a, L: HubLedger + Send + Sync, R: Threads + Wait + Sync + Copy + Send + Drop>(
    rt: R,
    alloc: Global,
    config: &Config,
    terms: &Terms,
    opened: Opened,
    blank: Blank,
    laid: Laid,
    open: &'a AtomicBool,
    script: Script,
) -> Result<Closed, Fault>
    requires blank { (blank.name ≡ L.name) × (blank.parts ≡ L.parts) }
    requires slots { (config.now.sessions ≡ L.sessions) × (vec_len config.now.servers ≡ L.servers)
        × (L.all ≡ L.sessions + L.servers + 2) × (L.all ≡ L.parts) }
    requires book { opened.seen.book ≡ L.book }
    requires laid { (laid.table.shared.table_id ≡ L.table) × (laid.table.shared.key ≡ L.terms) × (L.terms ≡ terms.now) }
    requires terms { (terms.now.clients ≡ L.sessions) × (terms.now.servers ≡ L.servers) }
{
    let board = Board::<L, R>::open(alloc, rt, opened, config.routes.as_slice(), READERS)?;
    let (hub, orders) = Hub::<Held<'a>, L, Board<L, R>>::open(
        alloc,
        config,
        terms,
        Held(open),
        board,
        blank,
        laid,
    ).map_err(|_| Fault::NotOpened)?;
    let seats = Seats {
        clients: Vec::new(alloc),
        servers: Vec::new(alloc),
        orders,
    };
    let jobs = jobs(&rt, alloc, &hub, config, seats)?;
    let count = jobs.len();
    let table = Table {
        done: Mutex::new(Vec::with_capacity(alloc, count)?),
        jobs: Mutex::new(jobs),
        left: AtomicU64::new(config.sessions),
        script,
    };
    run_all(&rt, alloc, &hub, &table, count)?;
    let Table { done, .. } = table;
    let seats = gather(alloc, done.into_inner())?;
    hub.close(seats).map_err(Fault::NotClosed)
}

/// Plays a script in a hub with this configuration, which closes with these totals, if there are any:
/// the records, the dispatches and the replies. The gate is open from the beginning, or once a frame
/// of another client than the first has returned.
pub fn check<R: Threads + Wait + Sync + Copy + Send + Drop>(
    rt: R,
    alloc: Global,
    text: &str,
    is_open: bool,
    script: Script,
    want: Option<[u64; 3]>,
) -> Result<(), Fault> {
    let Ok(config) = Config::read(alloc, text) else {
        return Err(Fault::NotOpened);
    };
    if config.sessions > 8 || config.servers.len() > 2 {
        return Err(Fault::NotOpened);
    }
    let terms = terms(&config);
    let laid = Laid::new(alloc, &terms)?;
    let blank = Blank::new(parts(&config));
    let open = AtomicBool::new(is_open);
    let closed = run::<Brand, R>(
        rt,
        alloc,
        &config,
        &terms,
        Opened::new(),
        blank,
        laid,
        &open,
        script,
    )?;
    let Closed {
        records,
        dispatches,
        replies,
    } = closed;
    match want {
        Some(want) if want != [records, dispatches, replies] => Err(Fault::Totals(closed)),
        _ => Ok(()),
    }
}
