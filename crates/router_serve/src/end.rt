//! How a router ends.
ghost use Rattle.std.specs.Prelude.{◌≡◌, ◌↔◌, ◌⊎◌, IsOk, Some};
ghost use Rattle.router_serve.specs.Ends.{status_of};

use hub::CloseFault;
use rolling_audit::RunFault;
use route_table::ConfigFault;
use router_state::Ending;
use std::alloc::{AllocError, AllocFailed};
use std::io;
use std::io::{ErrorKind, Write};
use std::net::SocketAddr;
use thiserror::Error;

/// How a router ended.
#[derive(Clone, Copy, Debug, PartialEq, Eq)]
pub enum ServeEnd {
    /// An operator ended it, and the audit found nothing: `closed ok` was printed.
    Done,
    /// The configuration has a fault: `config: FAULT`.
    ConfigFault,
    /// An address can't be listened at: `listen: ADDRESS`.
    ListenFault,
    /// A growth was refused: `memory`.
    Memory,
    /// The audit found a fault: `disagree: CAUSE`.
    Disagree,
    /// The system refused what the router runs on: `system: WHAT`.
    System,
}

impl ServeEnd {
    /// The exit status of a program that ends so: 0 to 5.
    pub fn status(self) -> u8
        ensures { result ≡ status_of self }
    {
        match self {
            ServeEnd::Done => 0,
            ServeEnd::ConfigFault => 1,
            ServeEnd::ListenFault => 2,
            ServeEnd::Memory => 3,
            ServeEnd::Disagree => 4,
            ServeEnd::System => 5,
        }
    }
}

/// What the system refuses.
#[derive(Clone, Copy, Debug, Error, PartialEq, Eq)]
pub enum Refused {
    /// A reading of the clock.
    #[error("clock")]
    Clock,
    /// What tasks wait with for sockets and time.
    #[error("events")]
    Events,
    /// A thread.
    #[error("threads")]
    Threads,
}

/// Why a router didn't close well.
#[derive(Drop)]
pub enum Failure {
    Config(ConfigFault),
    Listen(SocketAddr),
    Memory,
    System(Refused),
    Close(CloseFault),
}

impl From<AllocError> for Failure {
    fn from(_: AllocError) -> Failure {
        Failure::Memory
    }
}

impl<T: Drop> From<AllocFailed<T>> for Failure {
    fn from(_: AllocFailed<T>) -> Failure {
        Failure::Memory
    }
}

/// What a runtime or a socket refuses before the router listens.
impl From<io::Error> for Failure {
    fn from(fault: io::Error) -> Failure {
        match fault.kind() {
            ErrorKind::OutOfMemory => Failure::Memory,
            _ => Failure::System(Refused::Events),
        }
    }
}

impl Failure {
    /// Why the router ends where the tasks of a thread couldn't be made or run.
    pub fn ending(&self) -> Ending {
        match self {
            Failure::Memory => Ending::Memory,
            _ => Ending::Events,
        }
    }
}

/// Why the tasks of a router ended, unless it is to be closed then.
pub fn outcome_of(ending: Option<Ending>) -> Result<(), Failure>
    ensures { IsOk result ↔ ((ending ≡ Some Ending.Quit) ⊎ (ending ≡ Some Ending.Audit)) }
{
    match ending {
        Some(Ending::Quit | Ending::Audit) => Ok(()),
        Some(Ending::Memory) => Err(Failure::Memory),
        Some(Ending::Threads) => Err(Failure::System(Refused::Threads)),
        Some(Ending::Events) | None => Err(Failure::System(Refused::Events)),
    }
}

impl From<CloseFault> for Failure {
    fn from(fault: CloseFault) -> Failure {
        match fault {
            CloseFault::Run(RunFault::Memory) => Failure::Memory,
            fault => Failure::Close(fault),
        }
    }
}

impl From<ConfigFault> for Failure {
    fn from(fault: ConfigFault) -> Failure {
        match fault {
            ConfigFault::Memory => Failure::Memory,
            fault => Failure::Config(fault),
        }
    }
}

/// Prints `listening ADDRESS`. A write that fails is passed over.
pub fn print_start<W: Write>(out: &mut W, listen: SocketAddr) {
    let _ = writeln!(out, "listening {listen}");
    let _ = out.flush();
}

/// Prints the last line of a router's run. A write that fails is passed over.
pub fn print_end<W: Write>(out: &mut W, ended: Result<(), Failure>) -> ServeEnd
    ensures { (result ≡ ServeEnd.Done) ↔ IsOk ended }
{
    match ended {
        Ok(()) => {
            let _ = writeln!(out, "closed ok");
            ServeEnd::Done
        }
        Err(Failure::Config(fault)) => {
            let _ = writeln!(out, "config: {fault}");
            ServeEnd::ConfigFault
        }
        Err(Failure::Listen(address)) => {
            let _ = writeln!(out, "listen: {address}");
            ServeEnd::ListenFault
        }
        Err(Failure::Memory) => {
            let _ = writeln!(out, "memory");
            ServeEnd::Memory
        }
        Err(Failure::System(refused)) => {
            let _ = writeln!(out, "system: {refused}");
            ServeEnd::System
        }
        Err(Failure::Close(CloseFault::Disagree(found))) => {
            let cause = found.cause;
            let _ = writeln!(out, "disagree: {cause}");
            ServeEnd::Disagree
        }
        Err(Failure::Close(fault)) => {
            let _ = writeln!(out, "disagree: {fault}");
            ServeEnd::Disagree
        }
    }
}
