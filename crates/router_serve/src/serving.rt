//! A router's run, from the text of its configuration to its last line.
//!
//! The bounds of a runtime are written at each function, here and in `run`: a trait that gathers them can't be called
//! from `main`.
ghost use Rattle.std.specs.Prelude.{◌≡◌, ◌+◌, ◌<◌, ◌^◌, IfOk, OnOk, true, vec_len};
ghost use Rattle.hub.specs.Ending.{AreKept};
ghost use Rattle.hub.specs.Closing.{parts_back};
ghost use Rattle.router_serve.specs.Verdicts.{IsBehind, IsBorneOut};

use crate::end::{Failure, Refused, ServeEnd, print_end, print_start};
use crate::ports::Sockets;
use crate::run::run_tasks;
use hub::{CloseFault, Hub, HubLedger, Laid, OpenGate, OrderSeat, Remains, Terms, parts, terms};
use mux_history::KindCounts;
use published_routes::{Board, Opened, Publish, RouteReader};
use route_table::{AuditMode, Config, ConfigFault};
use router_state::{Admin, Auditor, Fittings, Ports, Router};
use std::alloc::{AllocError, AllocGlobal};
use std::io::{Read, Write};
use std::marker::Brand;
use std::net::{Net, TcpListener as StdListener, TcpStream as StdStream};
use std::random::RandomSource;
use std::sync::Wait;
use std::sync::ledger::Blank;
use std::thread::Threads;
use std::time::{Clock, Instant};
use tokio::runtime::LocalRuntime;

/// As many readers of routes as the greatest configuration has.
const MOST_READERS: usize = 65_536 + 256 + 2;

/// Runs a router by this configuration, and prints its lines: `listening ADDRESS` once it listens at both of its
/// ports, and a last one that says how it ended. A write of a line that fails is passed over.
pub fn serve<R, W: Write>(rt: R, text: &str, out: &mut W) -> ServeEnd
where
    R: Threads
        + Wait
        + Sync
        + Send
        + Copy
        + Drop
        + Clock
        + RandomSource
        + AllocGlobal
        + Net<Listener = StdListener, Stream = StdStream>
        + 'static,
{
    let result = run_text(rt, text, out);
    print_end(out, result)
}

/// The same, with a configuration that is read from `input` up to its end. If that fails, or what it reads isn't
/// UTF-8, the configuration isn't TOML.
pub fn serve_input<R, I: Read, W: Write>(rt: R, input: &mut I, out: &mut W) -> ServeEnd
where
    R: Threads
        + Wait
        + Sync
        + Send
        + Copy
        + Drop
        + Clock
        + RandomSource
        + AllocGlobal
        + Net<Listener = StdListener, Stream = StdStream>
        + 'static,
{
    let mut text = String::new(rt.alloc());
    match input.read_to_string(&mut text) {
        Ok(_) => serve(rt, text.as_str(), out),
        Err(_) => print_end(out, Err(Failure::Config(ConfigFault::Toml))),
    }
}

fn run_text<R, W: Write>(rt: R, text: &str, out: &mut W) -> Result<(), Failure>
where
    R: Threads
        + Wait
        + Sync
        + Send
        + Copy
        + Drop
        + Clock
        + RandomSource
        + AllocGlobal
        + Net<Listener = StdListener, Stream = StdStream>
        + 'static,
{
    let config = Config::read(rt.alloc(), text)?;
    // A configuration that was read is within these.
    if config.sessions > 65_536 || config.servers.len() > 256 {
        return Err(Failure::Memory);
    }
    let Ok(start) = Instant::now(&rt) else {
        return Err(Failure::System(Refused::Clock));
    };
    let sockets = Sockets::bind(&rt, &config)?;
    let mut threads = threads_of(&rt, config.threads)?;
    let ports = sockets.ports(rt.alloc(), threads.as_slice())?;
    if config.audit == AuditMode::Rolling {
        // The first thread looks at histories.
        let thread = LocalRuntime::new(&rt)?;
        threads.insert(0, thread)?;
    }
    print_start(out, config.listen);
    let place = Place {
        start,
        ports,
        threads,
    };
    let terms = terms(&config);
    let laid = Laid::new(rt.alloc(), &terms)?;
    let blank = Blank::new(parts(&config));
    run::<Brand, R>(rt, &config, &terms, place, Opened::new(), blank, laid)
}

/// What a router runs on.
#[derive(Drop)]
struct Place {
    // Readings count from here.
    start: Instant,
    ports: Ports,
    // The last is that of the thread that calls.
    threads: Vec<LocalRuntime>,
}

fn threads_of<R>(rt: &R, count: u64) -> Result<Vec<LocalRuntime>, Failure>
where
    R: Clock + RandomSource + AllocGlobal + Net<Listener = StdListener, Stream = StdStream>,
{
    let mut threads = Vec::new(rt.alloc());
    for _ in 0..count {
        let thread = LocalRuntime::new(rt)?;
        threads.push(thread)?;
    }
    Ok(threads)
}

// Opens a hub, runs its tasks, and closes it.
fn run<L: HubLedger + Send + Sync, R>(
    rt: R,
    config: &Config,
    terms: &Terms,
    place: Place,
    opened: Opened,
    blank: Blank,
    laid: Laid,
) -> Result<(), Failure>
where
    R: Threads
        + Wait
        + Sync
        + Send
        + Copy
        + Drop
        + Clock
        + RandomSource
        + AllocGlobal
        + Net<Listener = StdListener, Stream = StdStream>
        + 'static,
    requires blank { (blank.name ≡ L.name) × (blank.parts ≡ L.parts) }
    requires slots { (config.now.sessions ≡ L.sessions) × (vec_len config.now.servers ≡ L.servers)
        × (L.all ≡ L.sessions + L.servers + 2) × (L.all ≡ L.parts) }
    requires book { opened.seen.book ≡ L.book }
    requires laid { (laid.table.shared.table_id ≡ L.table) × (laid.table.shared.key ≡ L.terms) × (L.terms ≡ terms.now) }
    requires terms { (terms.now.clients ≡ L.sessions) × (terms.now.servers ≡ L.servers) }
{
    let Place {
        start,
        ports,
        threads,
    } = place;
    let fittings = Fittings::<L>::new(rt.alloc(), config, start, ports)?;
    let router = open_router(rt, config, terms, fittings, opened, blank, laid)?;
    run_router(&rt, threads, router)
}

// A router around a hub that is opened by this configuration.
fn open_router<L: HubLedger + Send + Sync, R>(
    rt: R,
    config: &Config,
    terms: &Terms,
    fittings: Fittings<L>,
    opened: Opened,
    blank: Blank,
    laid: Laid,
) -> Result<Router<L, Board<L, R>>, Failure>
where
    R: Threads
        + Wait
        + Sync
        + Send
        + Copy
        + Drop
        + Clock
        + RandomSource
        + AllocGlobal
        + Net<Listener = StdListener, Stream = StdStream>
        + 'static,
    requires blank { (blank.name ≡ L.name) × (blank.parts ≡ L.parts) }
    requires slots { (config.now.sessions ≡ L.sessions) × (vec_len config.now.servers ≡ L.servers)
        × (L.all ≡ L.sessions + L.servers + 2) × (L.all ≡ L.parts) }
    requires book { opened.seen.book ≡ L.book }
    requires laid { (laid.table.shared.table_id ≡ L.table) × (laid.table.shared.key ≡ L.terms) × (L.terms ≡ terms.now) }
    requires terms { (terms.now.clients ≡ L.sessions) × (terms.now.servers ≡ L.servers) }
{
    let alloc = rt.alloc();
    let routes = config.routes.as_slice();
    let board = Board::<L, R>::open(alloc, rt, opened, routes, readers_of(config))?;
    let reader = reader_of(&board)?;
    let (hub, orders) = Hub::<OpenGate, L, Board<L, R>>::open(
        alloc, config, terms, OpenGate, board, blank, laid,
    ).map_err(|_| Failure::Memory)?;
    Ok(Router::new(hub, seats(orders), reader, fittings))
}

// Runs a router's tasks, and closes its hub.
fn run_router<L: HubLedger + Send + Sync, B: Publish<L> + Send + Sync, R>(
    rt: &R,
    mut threads: Vec<LocalRuntime>,
    router: Router<L, B>,
) -> Result<(), Failure>
where
    R: Threads
        + Wait
        + Sync
        + Clock
        + RandomSource
        + AllocGlobal
        + Net<Listener = StdListener, Stream = StdStream>,
    requires whole { L.all ≡ L.parts }
{
    let ran = run_tasks(rt, threads.as_mut_slice(), &router);
    let shown = router.steps(rt);
    let (auditor, hub, seats) = router.into_parts();
    let remains = hub.end(seats);
    ran?;
    // What operators are shown is what the histories had.
    if verdict(rt, remains, auditor)? == shown {
        Ok(())
    } else {
        Err(Failure::Close(CloseFault::Miscount))
    }
}

// How many records of each kind there were, if all seats came back and all that was done bears itself out.
fn verdict<L: HubLedger, R: Wait>(
    rt: &R,
    remains: Remains<L>,
    auditor: Auditor,
) -> Result<KindCounts, CloseFault>
    requires whole { L.all ≡ L.parts }
    requires kept { AreKept remains.downs.items remains.ups.items }
    ensures ok { IfOk result (IsBorneOut remains.downs.items remains.ups.items remains.seats.clients.items
        remains.seats.servers.items remains.seats.orders) }
    ensures rolling { auditor.is_rolling ≡ true → OnOk result (IsBehind remains.downs.items remains.ups.items
        remains.seats.clients.items remains.seats.servers.items remains.seats.orders) }
    ensures back { OnOk result (parts_back remains.rest.parts remains.seats.clients.items remains.seats.servers.items
        ≡ L.parts) }
{
    let counts = remains.counts();
    if !auditor.is_needed() {
        remains.judge()?;
        return Ok(counts);
    }
    let mut audit = auditor.close(rt)?;
    let all = counts.plus(audit.counts());
    remains.judge_run(&mut audit)?;
    Ok(all)
}

// A reader for whom operators ask.
fn reader_of<L: HubLedger, B: Publish<L>>(board: &B) -> Result<RouteReader<L>, AllocError> {
    board.reader()
}

// The operators' seat, and the ticker's.
fn seats<L: HubLedger>(orders: [OrderSeat<L>; 2]) -> (OrderSeat<L>, OrderSeat<L>) {
    let [operators, ticker] = orders;
    (operators, ticker)
}

// A reader of the routes for each session and each server, one for operators, and one more.
fn readers_of(config: &Config) -> usize
    ensures { (0 < result) × (result < 2 ^ 32) }
{
    let wanted = (config.sessions as usize).saturating_add(config.servers.len());
    if wanted < MOST_READERS - 1 {
        wanted + 2
    } else {
        MOST_READERS
    }
}
