//! What came over the connections of a boot.
ghost use Rattle.std.specs.Prelude.{◌≡◌, ◌++◌, IsTrue, OnOk};
ghost use Rattle.mux_frame.specs.Spelling.{spelling};

use mux_frame::Frame;
use mux_history::{InitMode, SessionId};
use route_table::Config;
use std::alloc::{AllocError, Global};
use std::sync::atomic::{AtomicBool, AtomicU64, Ordering};
use std::sync::{Mutex, Wait};

/// How many bytes are kept at most, of all connections together.
const MOST_BYTES: u64 = 16 * 1024 * 1024;

/// A frame whose body isn't shorter isn't spelled.
const MOST_BODY: usize = u32::MAX as usize - 4;

/// Frames of one connection, which are to be kept.
#[derive(Drop)]
pub struct Tape {
    bytes: Vec<u8>,
    // How many bytes each frame takes.
    sizes: Vec<usize>,
}

impl Tape {
    /// A tape with no frame.
    pub fn new(alloc: Global) -> Tape {
        Tape {
            bytes: Vec::new(alloc),
            sizes: Vec::new(alloc),
        }
    }

    /// Whether no frame is on it.
    pub fn is_empty(&self) -> bool {
        self.sizes.is_empty()
    }

    /// Takes the last frame off.
    pub fn pop(&mut self) {
        if let Some(size) = self.sizes.pop() {
            let left = self.bytes.len().saturating_sub(size);
            self.bytes.truncate(left);
        }
    }

    fn clear(&mut self) {
        self.bytes.clear();
        self.sizes.clear();
    }

    // Out of memory and a frame of more than 4 GiB are the errors.
    fn push(&mut self, frame: &Frame) -> Result<(), AllocError>
        requires { IsTrue frame.now.as_read }
    {
        self.sizes.reserve(1)?;
        let before = self.bytes.len();
        if let Err(e) = spell(&mut self.bytes, frame) {
            self.bytes.truncate(before);
            return Err(e);
        }
        self.sizes.push(self.bytes.len().saturating_sub(before))?;
        Ok(())
    }
}

/// Appends a frame as it is on the wire. Out of memory and a frame of more than 4 GiB are the errors.
fn spell(bytes: &mut Vec<u8>, frame: &Frame) -> Result<(), AllocError>
    requires { IsTrue frame.now.as_read }
    ensures { OnOk result (bytes.new.items ≡ bytes.old.items ++ spelling frame.now.frame) }
{
    if frame.body_len() >= MOST_BODY {
        return Err(AllocError);
    }
    let (size, kind_and_tag) = frame.head();
    bytes.extend_from_slice(size.as_slice())?;
    bytes.extend_from_slice(kind_and_tag.as_slice())?;
    bytes.extend_from_slice(frame.body())
}

/// What was kept of one connection.
#[derive(Drop)]
pub struct Kept {
    /// Whole frames as they were on the wire, one after another.
    pub frames: Vec<u8>,
    /// The turn in which each of them came: greater than that of each frame, of any connection, that was handed to the
    /// hub before.
    pub turns: Vec<u64>,
}

impl Kept {
    fn new(alloc: Global) -> Kept {
        Kept {
            frames: Vec::new(alloc),
            turns: Vec::new(alloc),
        }
    }

    // Out of memory is the one error, and changes nothing.
    fn extend(&mut self, tape: &Tape, turn: u64) -> Result<(), AllocError> {
        let count = self.turns.len().saturating_add(tape.sizes.len());
        self.frames.reserve(tape.bytes.len())?;
        self.turns.resize(count, turn)?;
        self.frames.extend_from_slice(tape.bytes.as_slice())
    }

    fn copy(&self, alloc: Global) -> Result<Kept, AllocError> {
        Ok(Kept {
            frames: Vec::from_slice(alloc, self.frames.as_slice())?,
            turns: Vec::from_slice(alloc, self.turns.as_slice())?,
        })
    }
}

/// What is kept of the connection to a server.
#[derive(Drop)]
struct ServerKept {
    mode: InitMode,
    kept: Mutex<Kept>,
}

/// Keeps the frames that came over each connection of a boot, from its beginning up to one of its dispatches.
///
/// Once it is full nothing more is kept of any connection.
#[derive(Drop)]
pub struct Recorder {
    alloc: Global,
    // By the clients' numbers, which begin at 1.
    clients: Vec<Mutex<Kept>>,
    servers: Vec<ServerKept>,
    dispatches: u64,
    // How many dispatches and bytes may still be kept.
    dispatches_left: AtomicU64,
    bytes_left: AtomicU64,
    turns: AtomicU64,
    is_full: AtomicBool,
}

impl Recorder {
    /// A recorder for as many dispatches as the configuration asks for. Out of memory is the one error.
    pub fn of(alloc: Global, config: &Config) -> Result<Recorder, AllocError> {
        let mut clients = Vec::with_capacity(alloc, config.sessions as usize)?;
        for _ in 0..config.sessions {
            clients.push(Mutex::new(Kept::new(alloc)))?;
        }
        let mut servers = Vec::with_capacity(alloc, config.servers.len())?;
        for server in &config.servers {
            servers.push(ServerKept {
                mode: server.init,
                kept: Mutex::new(Kept::new(alloc)),
            })?;
        }
        Ok(Recorder {
            alloc,
            clients,
            servers,
            dispatches: config.recorded,
            dispatches_left: AtomicU64::new(config.recorded),
            bytes_left: AtomicU64::new(MOST_BYTES),
            turns: AtomicU64::new(0),
            is_full: AtomicBool::new(false),
        })
    }

    /// Of how many dispatches the frames are kept.
    pub fn dispatches(&self) -> u64 {
        self.dispatches
    }

    /// Puts a frame on the tape of its connection: whether it is there. It isn't if the recorder is full.
    pub fn tape(&self, tape: &mut Tape, frame: &Frame, is_dispatch: bool) -> bool
        requires { IsTrue frame.now.as_read }
    {
        if self.is_full.load(Ordering::SeqCst) {
            return false;
        }
        let size = (frame.body_len() as u64).saturating_add(8);
        let is_kept = take(&self.bytes_left, size)
            && (!is_dispatch || take(&self.dispatches_left, 1))
            && tape.push(frame).is_ok();
        if !is_kept {
            self.fill();
        }
        is_kept
    }

    /// Keeps what is on the tape of a session's connection, which is empty then.
    pub fn keep<R: Wait>(&self, rt: &R, session: SessionId, tape: &mut Tape) {
        if let Some(kept) = self.kept(session) {
            let turn = self.turns.fetch_add(1, Ordering::SeqCst);
            if kept.lock(rt).extend(tape, turn).is_err() {
                self.fill();
            }
        }
        tape.clear();
    }

    /// A copy of what was kept of a session's connection. Out of memory is the one error.
    pub fn copy<R: Wait>(&self, rt: &R, session: SessionId) -> Result<Kept, AllocError> {
        match self.kept(session) {
            Some(kept) => kept.lock(rt).copy(self.alloc),
            None => Ok(Kept::new(self.alloc)),
        }
    }

    /// How initiation begins at the server of this place. None if there is no such server.
    pub fn mode(&self, server: usize) -> Option<InitMode> {
        Some(self.servers.get(server)?.mode)
    }

    fn kept(&self, session: SessionId) -> Option<&Mutex<Kept>> {
        match session {
            SessionId::Client(0) => None,
            SessionId::Client(client) => self.clients.get((client - 1) as usize),
            SessionId::Server(server) => Some(&self.servers.get(server as usize)?.kept),
        }
    }

    /// Nothing more is kept of any connection.
    pub(crate) fn fill(&self) {
        self.is_full.store(true, Ordering::SeqCst);
    }
}

// Whether so many are left, which are taken then.
fn take(left: &AtomicU64, count: u64) -> bool {
    let taken = left.fetch_update(
        Ordering::SeqCst,
        Ordering::SeqCst,
        |left| left.checked_sub(count),
    );
    taken.is_ok()
}
