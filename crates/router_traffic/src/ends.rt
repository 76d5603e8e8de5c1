//! Why a connection ended.
ghost use Rattle.std.specs.Prelude.{◌≡◌};
ghost use Rattle.router_traffic.specs.Ends.{end_by, stop_by, told_by};

use mux_frame::FrameFault;
use operator_port::End;
use tokio_sessions::{ReadEnd, WriteEnd};

/// How a connection stood when its reader ended.
#[derive(Clone, Copy, Drop)]
pub struct Last {
    /// A session was opened for it.
    pub is_opened: bool,
    /// A frame closed the session.
    pub is_closed: bool,
    /// The cause, if it may end as was agreed.
    pub leave: Option<End>,
    /// The router ends.
    pub is_stopped: bool,
}

/// Why a connection ended whose reader ended so. `told`: the cause for which it was made to end, if it was.
pub fn end_of(told: Option<End>, read: ReadEnd, last: &Last) -> End
    ensures { result ≡ end_by told read last.now }
{
    if let Some(end) = told {
        return end;
    }
    match read {
        ReadEnd::End => match last.leave {
            Some(end) => end,
            None => End::Closed,
        },
        ReadEnd::Fault(FrameFault::Read) => End::Read,
        ReadEnd::Fault(FrameFault::Memory) => End::Memory,
        ReadEnd::Fault(FrameFault::TooLarge | FrameFault::TooShort | FrameFault::Truncated) => {
            End::Stream
        }
        ReadEnd::Stopped => stop_of(last),
    }
}

// The same where the reader was stopped, and nobody told why.
fn stop_of(last: &Last) -> End
    ensures { result ≡ stop_by last.now }
{
    if last.is_closed {
        End::Protocol
    } else if last.is_stopped {
        End::Quit
    } else if last.is_opened {
        End::Places
    } else {
        End::Refused
    }
}

/// The cause that a writer tells which ended so, if it knows one: it ends before its session if the router lets a
/// client go.
pub fn told_of(end: WriteEnd, is_stopped: bool) -> Option<End>
    ensures { result ≡ told_by end is_stopped }
{
    match end {
        WriteEnd::Fault => Some(End::Write),
        WriteEnd::Done if is_stopped => None,
        WriteEnd::Done => Some(End::Drained),
    }
}
