//! Steps of a hub, played one after another.
//!
//! Its twin is `run` of tests_threads: what opens a hub, and why a run wasn't as it should be.
ghost use Rattle.std.specs.Prelude.{◌≡◌, ◌+◌, ◌<◌, ◌^◌, vec_len};
ghost use Rattle.hub.specs.Ending.{AreKept};

use crate::epochs::acts;
use crate::hubs::Fixture;
use crate::steps::{Do, Told, Way, counts_of};
use hub::{
    CloseFault, Closed, Hub, HubLedger, Laid, OpenGate, Remains, Seats, Terms, parts, terms,
};
use mux_history::KindCounts;
use published_routes::{Board, Opened, Publish};
use rolling_audit::RunAudit;
use route_table::Config;
use std::alloc::{AllocError, AllocGlobal, Global};
use std::marker::Brand;
use std::sync::Wait;
use std::sync::ledger::Blank;

/// The sessions, the servers and one who gives orders, at most.
const READERS: usize = 16;

/// How many readers the routes have.
#[derive(Clone, Copy)]
pub enum Readers {
    Enough,
    Two,
}

impl Readers {
    fn count(self) -> usize
        ensures { (0 < result) × (result < 2 ^ 32) }
    {
        match self {
            Readers::Enough => READERS,
            Readers::Two => 2,
        }
    }
}

/// Why a run wasn't as it should be.
#[derive(Debug, Drop)]
pub enum Fault {
    /// It couldn't begin: its configuration can't be read, or memory was refused.
    NotOpened,
    /// The step at this place of this part led to something else.
    Step { way: Way, part: usize, place: usize },
    NotClosed(CloseFault),
    /// Other totals than were to come.
    Totals(Closed),
    /// The sessions were shown with these counts, and their histories have others.
    Counts(KindCounts),
}

impl From<AllocError> for Fault {
    fn from(_: AllocError) -> Fault {
        Fault::NotOpened
    }
}

/// Plays steps, up to the first that leads to something else: its place. One that finds no memory is
/// made once again.
fn first_wrong<L: HubLedger, B: Publish<L>, R: Wait>(
    rt: &R,
    alloc: Global,
    hub: &Hub<OpenGate, L, B>,
    seats: &mut Seats<L>,
    audit: &mut RunAudit,
    way: Way,
    steps: &[(Do, Told)],
) -> Option<usize> {
    for (place, (step, told)) in steps.iter().enumerate() {
        let mut said = acts(rt, alloc, hub, seats, audit, way, *step);
        if said.is_refused_memory() {
            said = acts(rt, alloc, hub, seats, audit, way, *step);
        }
        if *told != Told::Anything && said != *told {
            return Some(place);
        }
    }
    None
}

/// Before any history is given up.
fn audit_of(alloc: Global, config: &Config) -> Result<RunAudit, AllocError> {
    let mut modes = Vec::with_capacity(alloc, config.servers.len())?;
    for server in &config.servers {
        modes.push(server.init)?;
    }
    RunAudit::new(alloc, config.boot, config.sessions, modes.as_slice())
}

/// What is reported of all histories: those that are left, and those that the audit took.
fn judge<L: HubLedger>(remains: Remains<L>, mut audit: RunAudit) -> Result<Closed, Fault>
    requires whole { L.all ≡ L.parts }
    requires kept { AreKept remains.downs.items remains.ups.items }
{
    let judged = if audit.records() == 0 {
        remains.judge()
    } else {
        remains.judge_run(&mut audit)
    };
    judged.map_err(Fault::NotClosed)
}

/// Plays the parts of a run in a hub, and closes it.
fn run<L: HubLedger, R: Wait + Copy + Drop>(
    rt: R,
    alloc: Global,
    config: &Config,
    terms: &Terms,
    opened: Opened,
    blank: Blank,
    laid: Laid,
    readers: Readers,
    way: Way,
    parts: &[&[(Do, Told)]],
) -> Result<Closed, Fault>
    requires blank { (blank.name ≡ L.name) × (blank.parts ≡ L.parts) }
    requires slots { (config.now.sessions ≡ L.sessions) × (vec_len config.now.servers ≡ L.servers)
        × (L.all ≡ L.sessions + L.servers + 2) × (L.all ≡ L.parts) }
    requires book { opened.seen.book ≡ L.book }
    requires laid { (laid.table.shared.table_id ≡ L.table) × (laid.table.shared.key ≡ L.terms) × (L.terms ≡ terms.now) }
    requires terms { (terms.now.clients ≡ L.sessions) × (terms.now.servers ≡ L.servers) }
{
    let mut audit = audit_of(alloc, config)?;
    let board = Board::<L, R>::open(alloc, rt, opened, config.routes.as_slice(), readers.count())?;
    let (hub, orders) = Hub::<OpenGate, L, Board<L, R>>::open(
        alloc, config, terms, OpenGate, board, blank, laid,
    ).map_err(|_| Fault::NotOpened)?;
    let mut seats = Seats {
        clients: Vec::new(alloc),
        servers: Vec::new(alloc),
        orders,
    };
    for (part, steps) in parts.iter().enumerate() {
        if let Some(place) = first_wrong(&rt, alloc, &hub, &mut seats, &mut audit, way, steps) {
            return Err(Fault::Step { way, part, place });
        }
    }
    let shown = counts_of(&rt, &hub);
    let remains = hub.end(seats);
    if remains.counts() != shown {
        return Err(Fault::Counts(shown));
    }
    judge(remains, audit)
}

/// Plays the parts of a run in such a hub, and closes it.
fn totals_by<R: Wait + AllocGlobal + Copy + Drop>(
    rt: R,
    fixture: Fixture,
    readers: Readers,
    way: Way,
    steps: &[&[(Do, Told)]],
) -> Result<Closed, Fault> {
    let alloc = rt.alloc();
    let text = fixture.config(alloc)?;
    let Ok(config) = Config::read(alloc, text.as_str()) else {
        return Err(Fault::NotOpened);
    };
    if config.sessions > 8 || config.servers.len() > 4 {
        return Err(Fault::NotOpened);
    }
    let terms = terms(&config);
    let laid = Laid::new(alloc, &terms)?;
    let blank = Blank::new(parts(&config));
    run::<Brand, R>(
        rt,
        alloc,
        &config,
        &terms,
        Opened::new(),
        blank,
        laid,
        readers,
        way,
        steps,
    )
}

/// Plays the parts of a run both ways, each in a hub of its own: these close with the same totals.
pub fn totals<R: Wait + AllocGlobal + Copy + Drop>(
    rt: R,
    fixture: Fixture,
    readers: Readers,
    steps: &[&[(Do, Told)]],
) -> Result<Closed, Fault> {
    let alone = totals_by(rt, fixture, readers, Way::Alone, steps)?;
    let batched = totals_by(rt, fixture, readers, Way::Batched, steps)?;
    if alone != batched {
        return Err(Fault::Totals(batched));
    }
    Ok(alone)
}

/// Plays the parts of a run both ways, in hubs that close with these totals: the records, the dispatches
/// and the replies.
pub fn check<R: Wait + AllocGlobal + Copy + Drop>(
    rt: R,
    fixture: Fixture,
    steps: &[&[(Do, Told)]],
    [records, dispatches, replies]: [u64; 3],
) -> Result<(), Fault> {
    let closed = totals(rt, fixture, Readers::Enough, steps)?;
    let want = Closed {
        records,
        dispatches,
        replies,
    };
    if closed != want {
        return Err(Fault::Totals(closed));
    }
    Ok(())
}
