//! Where a server is, and when it is connected to.
ghost use Rattle.std.specs.Prelude.{◌≡◌, ◌≤◌, nat_lt, MatchBool};
ghost use Rattle.router_state.specs.Waits.{IsWait, longest, whole_wait};

use mux_history::InitMode;
use route_table::{Config, Server};
use std::net::SocketAddr;
use std::sync::atomic::{AtomicBool, AtomicU64, Ordering};
use std::sync::{Mutex, Wait};

/// So often the time doubles.
pub const MOST_DOUBLINGS: u64 = 6;

/// The greatest `reconnect_ms` and `eject_ms`.
pub const LONGEST: u64 = 3_600_000;

/// A time in milliseconds, after so many failures: `first`, then twice as long each time, and at most 64 times as long.
pub fn whole_wait(first: u64, failures: u64) -> u64
    requires { first ≤ longest }
    ensures { result ≡ whole_wait first failures }
{
    first * (1 << failures.min(MOST_DOUBLINGS))
}

/// How long a server is left alone, in milliseconds, after so many failures in a row: `first`, then twice as long each
/// time, and at most 64 times as long, less up to an eighth of it, by `noise`.
fn wait_of(first: u64, failures: u64, noise: u64) -> u64
    requires { first ≤ longest }
    ensures { IsWait first failures result }
{
    let whole = whole_wait(first, failures);
    let eighth = whole / 8;
    whole - noise % (eighth + 1)
}

/// How many failures in a row came before the end of a connection that lasted so long, in milliseconds: none, if that
/// is more than a tick.
fn failures_before(failures: u64, lasted: u64, tick: u64) -> u64
    ensures { MatchBool (nat_lt tick lasted) (result ≡ 0) (result ≡ failures) }
{
    if lasted > tick { 0 } else { failures }
}

/// The connection to one server, from the first to the last: when it is made, and how it fared.
///
/// A server that has an address is connected to at the start, when an operator asks for it, and with the key
/// `reconnect_ms` some time after its connection ended or couldn't be made, unless an operator retired it. One without
/// counts as one that couldn't be connected to.
#[derive(Drop)]
pub struct Upstream {
    place: u64,
    /// How its sessions begin.
    pub init: InitMode,
    /// Where it is. Whoever changes it, or is to open a session over a connection to it, has it meanwhile.
    pub address: Mutex<Option<SocketAddr>>,
    // Whether a session is about to be opened.
    is_opening: AtomicBool,
    first: Option<u64>,
    tick: u64,
    // From which reading on it is to be connected to. `NEVER`: it isn't.
    due: AtomicU64,
    // The reading at which its session was opened.
    opened: AtomicU64,
    failures: AtomicU64,
    // Up to this reading it is asked last.
    last_until: AtomicU64,
    is_retired: AtomicBool,
    // Whether its first session was opened, or is being opened.
    has_begun: AtomicBool,
}

/// No clock comes so far.
pub(crate) const NEVER: u64 = u64::MAX;

impl Upstream {
    /// That to the server at this place, which is connected to at once if it has an address.
    pub(crate) fn new(config: &Config, place: u64, server: &Server) -> Upstream {
        Upstream {
            place,
            init: server.init,
            address: Mutex::new(server.address),
            is_opening: AtomicBool::new(false),
            first: config.reconnect_ms,
            tick: config.tick_ms,
            due: AtomicU64::new(0),
            opened: AtomicU64::new(0),
            failures: AtomicU64::new(0),
            last_until: AtomicU64::new(0),
            is_retired: AtomicBool::new(server.address.is_none()),
            has_begun: AtomicBool::new(false),
        }
    }

    /// Where it is. None: no operator gave it an address yet, or one took it away.
    pub fn address<R: Wait>(&self, rt: &R) -> Option<SocketAddr> {
        *self.address.lock(rt)
    }

    /// Whether a session is to be opened over a connection to this address: the server is still there, and no operator
    /// retired it. If so, one is about to be opened.
    pub fn meets<R: Wait>(&self, rt: &R, address: SocketAddr) -> bool {
        let now_at = self.address.lock(rt);
        let meets = *now_at == Some(address) && !self.is_retired();
        self.is_opening.store(meets, Ordering::SeqCst);
        meets
    }

    /// Whether a session is about to be opened. It isn't, for whoever has the address, until another one is.
    pub fn is_opening(&self) -> bool {
        self.is_opening.load(Ordering::SeqCst)
    }

    /// Whether it is connected to again some time after its connection ended, if no operator retired it.
    pub fn reconnects(&self) -> bool {
        self.first.is_some()
    }

    /// Whether it is to be connected to at the reading `now`.
    pub fn is_due(&self, now: u64) -> bool {
        let due = self.due.load(Ordering::SeqCst);
        due != NEVER && due <= now
    }

    /// It is being connected to.
    pub fn begin(&self) {
        self.due.store(NEVER, Ordering::SeqCst);
    }

    /// Whether this wasn't asked before: its first session is to be opened.
    pub fn is_first(&self) -> bool {
        !self.has_begun.swap(true, Ordering::SeqCst)
    }

    /// Its session was opened at the reading `now`.
    pub fn open(&self, now: u64) {
        self.opened.store(now, Ordering::SeqCst);
        self.due.store(NEVER, Ordering::SeqCst);
        self.is_opening.store(false, Ordering::SeqCst);
    }

    /// Its connection has ended at the reading `now`.
    pub fn lose(&self, now: u64) {
        let lasted = now.saturating_sub(self.opened.load(Ordering::SeqCst));
        self.wait(now, lasted);
    }

    /// It couldn't be connected to at the reading `now`, or has no address.
    pub fn fail(&self, now: u64) {
        self.is_opening.store(false, Ordering::SeqCst);
        self.wait(now, 0);
    }

    // It is left alone for some time.
    fn wait(&self, now: u64, lasted: u64) {
        let failures = failures_before(self.failures.load(Ordering::SeqCst), lasted, self.tick);
        self.failures
            .store(failures.saturating_add(1), Ordering::SeqCst);
        if let Some(first) = self.first
            && !self.is_retired()
        {
            let wait = wait_of(first.min(LONGEST), failures, self.noise(now));
            // An operator may have asked for it meanwhile.
            let due = now.saturating_add(wait);
            let _ = self
                .due
                .compare_exchange(NEVER, due, Ordering::SeqCst, Ordering::SeqCst);
        }
    }

    // It differs between servers that are lost at once.
    fn noise(&self, now: u64) -> u64 {
        now.wrapping_add(self.place)
            .wrapping_mul(0x9E37_79B9_7F4A_7C15)
            >> 33
    }

    /// It is asked last up to this reading.
    pub(crate) fn ask_last(&self, until: u64) {
        self.last_until.store(until, Ordering::SeqCst);
    }

    /// The reading up to which it is asked last: one that has passed, if it isn't.
    pub fn last_until(&self) -> u64 {
        self.last_until.load(Ordering::SeqCst)
    }

    /// An operator retired it, or took its address away.
    pub fn retire(&self) {
        self.is_retired.store(true, Ordering::SeqCst);
        self.due.store(NEVER, Ordering::SeqCst);
    }

    /// Whether an operator retired it, or it has no address.
    pub fn is_retired(&self) -> bool {
        self.is_retired.load(Ordering::SeqCst)
    }

    /// An operator wants it to be connected to at once.
    pub fn rejoin(&self) {
        self.is_retired.store(false, Ordering::SeqCst);
        self.failures.store(0, Ordering::SeqCst);
        self.due.store(0, Ordering::SeqCst);
    }
}
