//! How a session stands, in an operator's words.
ghost use Rattle.std.specs.Prelude.{◌≡◌};
ghost use Rattle.hub_close.specs.Words.{down_word_by, lapse_by, up_word_by};

use mux_history::{DrainState, InitState, Standing};
use std::fmt;

/// How a client's session stands. It prints in lower case.
#[derive(Clone, Copy, Debug, PartialEq, Eq)]
pub enum DownWord {
    /// The session has ended.
    Closed,
    /// The client answered the Tdrain.
    Drained,
    /// A Tdrain was sent.
    Draining,
    Open,
}

/// How a server's session stands. It prints in lower case.
#[derive(Clone, Copy, Debug, PartialEq, Eq)]
pub enum UpWord {
    /// The session has ended.
    Closed,
    /// The server sent a Tdrain.
    Drained,
    /// The session was retired.
    Retired,
    /// Initiation has not ended.
    Opening,
    Open,
}

impl fmt::Display for DownWord {
    fn fmt<W: fmt::Write>(&self, f: &mut fmt::Formatter<W>) -> fmt::Result {
        f.write_str(match self {
            DownWord::Closed => "closed",
            DownWord::Drained => "drained",
            DownWord::Draining => "draining",
            DownWord::Open => "open",
        })
    }
}

impl fmt::Display for UpWord {
    fn fmt<W: fmt::Write>(&self, f: &mut fmt::Formatter<W>) -> fmt::Result {
        f.write_str(match self {
            UpWord::Closed => "closed",
            UpWord::Drained => "drained",
            UpWord::Retired => "retired",
            UpWord::Opening => "opening",
            UpWord::Open => "open",
        })
    }
}

/// How a client's session stands, by whether it has ended and what a next epoch would begin with: the first word that fits
/// of closed, drained, draining, open.
pub fn down_word(has_ended: bool, standing: Standing) -> DownWord
    ensures { result ≡ down_word_by has_ended standing }
{
    if has_ended {
        return DownWord::Closed;
    }
    match standing {
        Standing::Down { drain, .. } => match drain {
            DrainState::Acked => DownWord::Drained,
            DrainState::Asked => DownWord::Draining,
            DrainState::Running => DownWord::Open,
        },
        Standing::Up { .. } => DownWord::Open,
    }
}

/// How a server's session stands, by whether it has ended and what a next epoch would begin with: the first word that fits
/// of closed, drained, retired, opening, open.
pub fn up_word(has_ended: bool, standing: Standing) -> UpWord
    ensures { result ≡ up_word_by has_ended standing }
{
    if has_ended {
        return UpWord::Closed;
    }
    match standing {
        Standing::Up { drained: true, .. } => UpWord::Drained,
        Standing::Up { retired: true, .. } => UpWord::Retired,
        Standing::Up { init, .. } => match init {
            InitState::Open => UpWord::Open,
            InitState::Probing | InitState::Asked => UpWord::Opening,
        },
        Standing::Down { .. } => UpWord::Open,
    }
}

/// The reading from which on the last lease of a server has lapsed, in milliseconds and `u64::MAX` at most, by what a next
/// epoch of its session would begin with. None if none was granted.
pub fn lapse(standing: Standing) -> Option<u64>
    ensures { result ≡ lapse_by standing }
{
    match standing {
        Standing::Up { leased, lapse, .. } => leased.then_some(lapse),
        Standing::Down { .. } => None,
    }
}
