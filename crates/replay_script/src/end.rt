//! How a replay ends.

ghost use Rattle.std.specs.Prelude.{◌≡◌};
ghost use Rattle.replay_script.specs.Ends.{status_of, stop_of};

use crate::command::LineFault;
use std::alloc::AllocError;
use std::io;
use thiserror::Error;

/// How the replay of a script ended.
#[derive(Clone, Copy, Debug, PartialEq, Eq)]
pub enum ReplayEnd {
    /// The whole script was carried out.
    Done,
    /// A line can't be read; `bad line N` was printed.
    BadLine,
    /// A growth was refused; `memory` was printed.
    Memory,
    /// A read or a write failed, and nothing more was printed.
    Failed,
}

impl ReplayEnd {
    /// The exit status: 0, 2, 3 or 4.
    pub fn status(self) -> u8
        ensures { result ≡ status_of self }
    {
        match self {
            ReplayEnd::Done => 0,
            ReplayEnd::BadLine => 2,
            ReplayEnd::Memory => 3,
            ReplayEnd::Failed => 4,
        }
    }
}

/// Why a script isn't carried out any further.
#[derive(Clone, Copy, Debug, Error, PartialEq, Eq)]
pub enum Stop {
    /// A line can't be read.
    #[error("BadLine")]
    BadLine,
    /// A growth was refused.
    #[error("Memory")]
    Memory,
    /// A read or a write failed.
    #[error("Failed")]
    Failed,
}

impl From<AllocError> for Stop {
    fn from(_: AllocError) -> Stop
        ensures { result ≡ Stop.Memory }
    {
        Stop::Memory
    }
}

impl From<LineFault> for Stop {
    fn from(fault: LineFault) -> Stop
        ensures { result ≡ stop_of fault }
    {
        match fault {
            LineFault::Unreadable => Stop::BadLine,
            LineFault::Memory => Stop::Memory,
        }
    }
}

impl From<io::Error> for Stop {
    fn from(_: io::Error) -> Stop
        ensures { result ≡ Stop.Failed }
    {
        Stop::Failed
    }
}
