//! What all tasks of a router share, its sessions aside.
ghost use Rattle.std.specs.Prelude.{◌≡◌, ◌/◌, ◌<◌, unwrap_or};

use crate::endings::Endings;
use crate::limits::SideLimits;
use crate::meter::Meter;
use crate::ports::Ports;
use crate::recorder::Recorder;
use crate::switchboard::Switchboard;
use operator_port::config_page;
use route_table::Config;
use std::alloc::{AllocError, Global};
use std::sync::Wait;
use std::sync::atomic::{AtomicU64, Ordering};
use std::time::{Clock, Duration, Instant};

/// The clock of a router.
#[derive(Clone, Copy, Drop)]
pub struct Timing {
    /// Readings count from here.
    pub start: Instant,
    /// The time between two looks at the clock, in milliseconds.
    pub tick_ms: u64,
    /// A silent connection of an operator is closed after this time.
    pub admin_idle: Duration,
    /// How long other connections may be silent.
    pub patience: Patience,
    /// When a server that fails is asked last.
    pub ejection: Ejection,
}

/// When a server that fails is asked last.
#[derive(Clone, Copy, Drop)]
pub struct Ejection {
    /// After so many failures in a row. None: never.
    pub after: Option<u64>,
    /// For how many milliseconds the first time.
    pub ms: u64,
}

/// How long connections of clients and servers may be silent, in milliseconds.
#[derive(Clone, Copy, Drop)]
pub struct Patience {
    /// A client with nothing open. None: without end.
    pub idle: Option<u64>,
    /// Whoever has begun a frame.
    pub frame: u64,
    /// A server that holds dispatches. None: without end.
    pub server: Option<u64>,
}

/// The slots of a router's connections, its ports, and what it counts and keeps of what they carry.
#[derive(Drop)]
pub struct Shared {
    pub alloc: Global,
    /// The slots of all connections.
    pub switchboard: Switchboard,
    pub timing: Timing,
    /// What was carried.
    pub meter: Meter,
    /// Why connections ended.
    pub endings: Endings,
    // How many of the hub's slots clients have had.
    opened: AtomicU64,
    pub ports: Ports,
    pub limits: SideLimits,
    /// What came over the connections, if that is kept.
    pub recorder: Option<Recorder>,
    /// The boot's number.
    pub boot: u64,
    /// The servers' names, in the order of the configuration.
    pub names: Vec<String>,
    /// How many frames are handed in at once.
    pub batch: usize,
    /// The lines that operators are shown of the configuration.
    pub config: Vec<u8>,
}

impl Timing {
    /// In how many ticks a client with nothing open is silent for too long.
    pub fn idle_ticks(&self) -> u64
        ensures { 0 < self.now.tick_ms → result ≡ unwrap_or self.now.patience.idle 0 / self.now.tick_ms }
    {
        self.patience
            .idle
            .unwrap_or(0)
            .checked_div(self.tick_ms)
            .unwrap_or(0)
    }
}

fn timing_of(config: &Config, start: Instant) -> Timing {
    Timing {
        start,
        tick_ms: config.tick_ms,
        admin_idle: Duration::from_millis(config.admin_idle_ms),
        patience: Patience {
            idle: config.client_idle_ms,
            frame: config.frame_ms,
            server: config.server_silent_ms,
        },
        ejection: Ejection {
            after: config.eject_after,
            ms: config.eject_ms,
        },
    }
}

// The names of all servers.
fn names_of(alloc: Global, config: &Config) -> Result<Vec<String>, AllocError> {
    let mut names = Vec::with_capacity(alloc, config.servers.len())?;
    for server in &config.servers {
        let name = String::from_str(alloc, server.name.as_str())?;
        names.push(name)?;
    }
    Ok(names)
}

// What keeps what comes over the connections, if the configuration asks for it.
fn recorder_of(alloc: Global, config: &Config) -> Result<Option<Recorder>, AllocError> {
    if config.recorded == 0 {
        return Ok(None);
    }
    Ok(Some(Recorder::of(alloc, config)?))
}

impl Shared {
    /// What is shared in a router with this configuration, whose readings count from `start`. Out of memory is the one
    /// error.
    pub(crate) fn new(
        alloc: Global,
        config: &Config,
        start: Instant,
        ports: Ports,
    ) -> Result<Shared, AllocError> {
        let limits = SideLimits {
            clients: config.limits(),
            servers: config.server_limits(),
        };
        Ok(Shared {
            alloc,
            switchboard: Switchboard::new(alloc, config)?,
            timing: timing_of(config, start),
            meter: Meter::new(alloc, config.servers.len())?,
            endings: Endings::new(alloc)?,
            opened: AtomicU64::new(0),
            ports,
            limits,
            recorder: recorder_of(alloc, config)?,
            boot: config.boot,
            names: names_of(alloc, config)?,
            batch: limits.batch(),
            config: config_page(alloc, config)?,
        })
    }

    /// The reading: milliseconds since the start, or 0 if the clock can't be read.
    pub fn now<R: Clock>(&self, rt: &R) -> u64 {
        match self.timing.start.elapsed(rt) {
            Ok(time) => u64::try_from(time.as_millis()).unwrap_or(u64::MAX),
            Err(_) => 0,
        }
    }

    /// Microseconds since the start.
    pub fn microseconds<R: Clock>(&self, rt: &R) -> u64 {
        match self.timing.start.elapsed(rt) {
            Ok(time) => u64::try_from(time.as_micros()).unwrap_or(u64::MAX),
            Err(_) => 0,
        }
    }

    /// How many of the hub's slots clients have had, from the first on.
    pub fn opened(&self) -> usize {
        self.opened.load(Ordering::SeqCst) as usize
    }

    /// A client's session was opened in a slot that had none.
    pub(crate) fn count_opened(&self) {
        self.opened.fetch_add(1, Ordering::SeqCst);
    }

    /// Whether clients may still come in.
    pub fn is_listening<R: Wait>(&self, rt: &R) -> bool {
        for port in &self.ports.clients {
            if port.lock(rt).is_some() {
                return true;
            }
        }
        false
    }

    /// The place of the server of this name.
    pub fn server_named(&self, name: &str) -> Option<usize> {
        self.names.iter().position(|known| known.as_str() == name)
    }
}
