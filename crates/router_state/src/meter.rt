//! What a router has carried since it began, and how long dispatches took.
ghost use Rattle.std.specs.Prelude.{◌≡◌};
ghost use Rattle.router_state.specs.Meters.{counted, counted_read, glance_of};

use crate::outcome::Outcome;
use mux_frame::Frame;
use mux_history::ServerId;
use mux_message::MessageKind;
use operator_port::{Bucket, Latency, Volume};
use std::alloc::{AllocError, Global};
use std::sync::atomic::{AtomicU64, Ordering};

/// The greatest duration of each bucket, in microseconds.
const BOUNDS: [u64; 16] = [
    50, 100, 200, 500, 1_000, 2_000, 5_000, 10_000, 20_000, 50_000, 100_000, 200_000, 500_000,
    1_000_000, 2_000_000, 5_000_000,
];

/// The bytes of a frame in front of its body: length, type and tag.
const HEAD: u64 = 8;

/// What is counted of a frame.
#[derive(Clone, Copy, Drop)]
pub struct Glance {
    /// Its message's kind.
    pub kind: MessageKind,
    /// Its tag.
    pub tag: u32,
    /// What it says of its server, if it is from one.
    pub outcome: Outcome,
    bytes: u64,
}

impl Glance {
    /// What is counted of this frame.
    #[inline(always)]
    pub fn of(frame: &Frame) -> Glance
        ensures { result ≡ glance_of frame.now.frame }
    {
        let kind = MessageKind::of(frame.kind());
        Glance {
            kind,
            tag: frame.tag(),
            outcome: Outcome::of(kind, frame),
            bytes: frame.body_len() as u64 + HEAD,
        }
    }
}

/// Which way frames went.
#[derive(Clone, Copy)]
pub enum Way {
    /// From a client to the router.
    FromClient,
    /// From the router to a client.
    ToClient,
    /// From the server at this place to the router.
    FromServer(ServerId),
    /// From the router to a server.
    ToServer,
}

/// Counts of frames, before they are added to those of the router.
#[derive(Clone, Copy, Drop)]
pub struct Tally {
    frames: u64,
    bytes: u64,
    // How many of those that were read say that a dispatch was answered by an error.
    errors: u64,
}

impl Tally {
    /// No frame is counted yet.
    pub fn new() -> Tally {
        Tally {
            frames: 0,
            bytes: 0,
            errors: 0,
        }
    }

    /// Counts a frame that was handed over.
    #[inline(always)]
    pub fn add(&mut self, frame: &Glance)
        ensures { self.new ≡ counted frame.now self.old }
    {
        self.frames = self.frames.wrapping_add(1);
        self.bytes = self.bytes.wrapping_add(frame.bytes);
    }

    /// Counts a frame that was read.
    #[inline(always)]
    pub fn add_read(&mut self, frame: &Glance)
        ensures { self.new ≡ counted_read frame.now self.old }
    {
        self.add(frame);
        if frame.outcome.is_error() {
            self.errors = self.errors.wrapping_add(1);
        }
    }
}

/// Counts of the frames that went one way.
#[derive(Drop)]
struct Counts {
    frames: AtomicU64,
    bytes: AtomicU64,
}

impl Counts {
    fn new() -> Counts {
        Counts {
            frames: AtomicU64::new(0),
            bytes: AtomicU64::new(0),
        }
    }

    fn add(&self, tally: &Tally) {
        add(&self.frames, tally.frames);
        add(&self.bytes, tally.bytes);
    }
}

// Each atomic step costs as much as many plain ones.
fn add(count: &AtomicU64, more: u64) {
    if more != 0 {
        count.fetch_add(more, Ordering::SeqCst);
    }
}

fn read(count: &AtomicU64) -> u64 {
    count.load(Ordering::SeqCst)
}

/// How many of the measured dispatches took at most `bound` microseconds, and more than those before.
#[derive(Drop)]
struct Span {
    bound: u64,
    count: AtomicU64,
}

/// How long measured dispatches took.
#[derive(Drop)]
struct Histogram {
    // By rising bound.
    spans: Vec<Span>,
    // How many took longer than the last bound.
    slow: AtomicU64,
    // How long they took together, in microseconds.
    sum: AtomicU64,
}

impl Histogram {
    // Nothing was measured yet. Out of memory is the one error.
    fn new(alloc: Global) -> Result<Histogram, AllocError> {
        let mut spans = Vec::with_capacity(alloc, BOUNDS.len())?;
        for bound in BOUNDS {
            spans.push(Span {
                bound,
                count: AtomicU64::new(0),
            })?;
        }
        Ok(Histogram {
            spans,
            slow: AtomicU64::new(0),
            sum: AtomicU64::new(0),
        })
    }

    fn took(&self, micros: u64) {
        let count = match self.spans.iter().find(|span| micros <= span.bound) {
            Some(span) => &span.count,
            None => &self.slow,
        };
        add(count, 1);
        add(&self.sum, micros);
    }

    // Out of memory is the one error.
    fn latency(&self, alloc: Global) -> Result<Latency, AllocError> {
        let mut buckets = Vec::with_capacity(alloc, self.spans.len())?;
        let mut count = 0u64;
        for span in &self.spans {
            count = count.saturating_add(read(&span.count));
            buckets.push(Bucket {
                bound: span.bound,
                count,
            })?;
        }
        Ok(Latency {
            buckets,
            count: count.saturating_add(read(&self.slow)),
            sum: read(&self.sum),
        })
    }
}

/// What a router has carried since it began, over all of its boots.
#[derive(Drop)]
pub struct Meter {
    // From and to clients, from and to servers.
    ways: [Counts; 4],
    // Of the dispatches of clients.
    latency: Histogram,
    // How many dispatches each server answered by an error.
    errors: Vec<AtomicU64>,
}

impl Meter {
    /// Nothing was carried yet, in a router with so many servers. Out of memory is the one error.
    pub fn new(alloc: Global, servers: usize) -> Result<Meter, AllocError> {
        let mut errors = Vec::with_capacity(alloc, servers)?;
        for _ in 0..servers {
            errors.push(AtomicU64::new(0))?;
        }
        Ok(Meter {
            ways: [Counts::new(), Counts::new(), Counts::new(), Counts::new()],
            latency: Histogram::new(alloc)?,
            errors,
        })
    }

    /// Adds what went this way.
    pub fn count(&self, way: Way, tally: &Tally) {
        let [from_clients, to_clients, from_servers, to_servers] = &self.ways;
        let counts = match way {
            Way::FromClient => from_clients,
            Way::ToClient => to_clients,
            Way::FromServer(server) => {
                if let Some(errors) = self.errors.get(server as usize) {
                    add(errors, tally.errors);
                }
                from_servers
            }
            Way::ToServer => to_servers,
        };
        counts.add(tally);
    }

    /// A dispatch of a client took so many microseconds.
    pub fn took(&self, micros: u64) {
        self.latency.took(micros);
    }

    /// What went over the connections of clients.
    pub fn clients(&self) -> Volume {
        let [read, written, _, _] = &self.ways;
        volume(read, written)
    }

    /// What went over those of servers.
    pub fn servers(&self) -> Volume {
        let [_, _, read, written] = &self.ways;
        volume(read, written)
    }

    /// How many dispatches the server at this place answered by an error.
    pub fn errors(&self, server: ServerId) -> u64 {
        match self.errors.get(server as usize) {
            Some(errors) => read(errors),
            None => 0,
        }
    }

    /// How long dispatches of clients took. Out of memory is the one error.
    pub fn latency(&self, alloc: Global) -> Result<Latency, AllocError> {
        self.latency.latency(alloc)
    }
}

fn volume(read_in: &Counts, written: &Counts) -> Volume {
    Volume {
        frames_read: read(&read_in.frames),
        frames_written: read(&written.frames),
        bytes_read: read(&read_in.bytes),
        bytes_written: read(&written.bytes),
    }
}
