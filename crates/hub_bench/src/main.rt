//! Times dispatches through a hub: no sockets, and threads that each have a client and a server.
//!
//! At a line `time THREADS BATCH DISPATCHES` on standard input it makes the hub and prints `ready`. At
//! the next line each thread sends so many dispatches to all servers in turn, so many in a call, and
//! answers those that come to its server; then the number of frames that were handed in and taken out is
//! printed, and the nanoseconds that it took; it ends at one line more. If that is `close` it closes the
//! hub, and prints whether that went well and the nanoseconds that it took. With the word `apart` behind the
//! numbers each thread sends to its own server alone. With no such line one thread sends a few, and no
//! time is printed.
#![tactic(auto)]

ghost use Rattle.std.specs.Prelude.{◌≡◌, ◌+◌, vec_len};

mod frames;
mod job;
mod lane;

use crate::job::Job;
use crate::lane::{Lane, Room, work};
use hub::{Hub, HubLedger, Laid, OpenGate, OrderSeat, Seats, Terms, parts, terms};
use published_routes::{Board, Opened, Publish};
use route_table::Config;
use std::alloc::{AllocError, Global};
use std::io::Input;
use std::marker::Brand;
use std::rt::Clock;
use std::sync::atomic::{AtomicU64, Ordering};
use std::sync::ledger::Blank;
use std::sync::{Mutex, Wait};
use std::thread::Threads;
use std::time::Instant;
use std::{io, thread};

/// Four servers, and a route to each.
const CONFIG: &str = "listen = \"127.0.0.1:1\"
admin = \"127.0.0.1:2\"
sessions = 4
history = 2097152

[[server]]
name = \"0\"
address = \"127.0.0.1:3\"
init = \"plain\"

[[server]]
name = \"1\"
address = \"127.0.0.1:3\"
init = \"plain\"

[[server]]
name = \"2\"
address = \"127.0.0.1:3\"
init = \"plain\"

[[server]]
name = \"3\"
address = \"127.0.0.1:3\"
init = \"plain\"

[[route]]
dst = \"/s/0\"
servers = [\"0\"]

[[route]]
dst = \"/s/1\"
servers = [\"1\"]

[[route]]
dst = \"/s/2\"
servers = [\"2\"]

[[route]]
dst = \"/s/3\"
servers = [\"3\"]
";

fn main(rt: HostRuntime) -> io::Result<()> {
    let mut line = String::new(rt.alloc());
    rt.read_line(&mut line)?;
    let job = Job::read(line.as_str());
    let Ok(config) = Config::read(rt.alloc(), CONFIG) else {
        return println!(rt; "configuration");
    };
    if config.sessions != 4 || config.servers.len() != 4 {
        return println!(rt; "configuration");
    }
    let terms = terms(&config);
    let laid = Laid::new(rt.alloc(), &terms)?;
    let blank = Blank::new(parts(&config));
    run::<Brand, _>(
        rt,
        rt.alloc(),
        &config,
        &terms,
        job,
        Opened::new(),
        blank,
        laid,
    )
}

/// Opens a hub, and times its lanes.
fn run<
    L: HubLedger + Send + Sync,
    R: Threads + Wait + Sync + Copy + Send + Drop + Clock + Print + Input,
>(
    rt: R,
    alloc: Global,
    config: &Config,
    terms: &Terms,
    job: Job,
    opened: Opened,
    blank: Blank,
    laid: Laid,
) -> io::Result<()>
    requires blank { (blank.name ≡ L.name) × (blank.parts ≡ L.parts) }
    requires slots { (config.now.sessions ≡ L.sessions) × (vec_len config.now.servers ≡ L.servers)
        × (L.all ≡ L.sessions + L.servers + 2) × (L.all ≡ L.parts) }
    requires book { opened.seen.book ≡ L.book }
    requires laid { (laid.table.shared.table_id ≡ L.table) × (laid.table.shared.key ≡ L.terms) × (L.terms ≡ terms.now) }
    requires terms { (terms.now.clients ≡ L.sessions) × (terms.now.servers ≡ L.servers) }
{
    let board = Board::<L, R>::open(alloc, rt, opened, config.routes.as_slice(), 16)?;
    let (hub, orders) = Hub::<OpenGate, L, Board<L, R>>::open(
        alloc, config, terms, OpenGate, board, blank, laid,
    ).map_err(|_| AllocError)?;
    let lanes = lanes(&rt, alloc, &hub, job)?;
    let mut line = String::new(alloc);
    if job.is_timed {
        println!(rt; "ready")?;
        rt.read_line(&mut line)?;
    }
    let start = Instant::now(&rt)?;
    let moved = run_all(&rt, alloc, &hub, lanes.as_slice())?;
    let nanos = start.elapsed(&rt)?.as_nanos();
    if !job.is_timed {
        return println!(rt; "{moved}");
    }
    println!(rt; "{moved} {nanos}")?;
    let mut last = String::new(alloc);
    rt.read_line(&mut last)?;
    if last.as_str().trim_end() != "close" {
        return Ok(());
    }
    let seats = seats(alloc, lanes, orders)?;
    let start = Instant::now(&rt)?;
    let is_ok = hub.close(seats).is_ok();
    let nanos = start.elapsed(&rt)?.as_nanos();
    println!(rt; "{is_ok} {nanos}")
}

/// The seats of all lanes.
fn seats<L: HubLedger>(
    alloc: Global,
    lanes: Vec<Mutex<Lane<L>>>,
    orders: [OrderSeat<L>; 2],
) -> Result<Seats<L>, AllocError> {
    let mut clients = Vec::new(alloc);
    let mut servers = Vec::new(alloc);
    for lane in lanes {
        let (client, server) = lane.into_inner().into_seats();
        clients.push(client)?;
        servers.push(server)?;
    }
    Ok(Seats {
        clients,
        servers,
        orders,
    })
}

/// The lanes of a job, each with a client and a server.
fn lanes<L: HubLedger, B: Publish<L>, R: Wait>(
    rt: &R,
    alloc: Global,
    hub: &Hub<OpenGate, L, B>,
    job: Job,
) -> Result<Vec<Mutex<Lane<L>>>, AllocError> {
    let mut lanes = Vec::new(alloc);
    for own in 0..job.threads {
        let room = Room::new(alloc)?;
        let client = hub.open_client(rt, alloc).map_err(|_| AllocError)?;
        let server = hub.open_server(rt, alloc, own).map_err(|_| AllocError)?;
        lanes.push(Mutex::new(Lane::new(job, client, server, room)))?;
    }
    Ok(lanes)
}

/// Runs each lane in a thread of its own: how many frames were handed in and taken out.
fn run_all<L: HubLedger + Send + Sync, R: Threads + Wait + Sync + Send + Drop>(
    rt: &R,
    alloc: Global,
    hub: &Hub<OpenGate, L, Board<L, R>>,
    lanes: &[Mutex<Lane<L>>],
) -> Result<u64, AllocError> {
    let (done, moved) = (&AtomicU64::new(0), &AtomicU64::new(0));
    thread::map_indices(
        rt,
        alloc,
        lanes.len(),
        &|own| work_at(rt, hub, lanes, own, done, moved),
    )?;
    Ok(moved.load(Ordering::SeqCst))
}

/// Runs the lane at this place, and adds what it moved.
fn work_at<L: HubLedger, B: Publish<L>, R: Wait>(
    rt: &R,
    hub: &Hub<OpenGate, L, B>,
    lanes: &[Mutex<Lane<L>>],
    at: usize,
    done: &AtomicU64,
    moved: &AtomicU64,
) {
    if let Some(lane) = lanes.get(at) {
        moved.fetch_add(work(rt, hub, &mut *lane.lock(rt), done), Ordering::SeqCst);
    }
}
