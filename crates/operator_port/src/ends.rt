//! Why connections end, each cause with its word.
ghost use Rattle.std.specs.Prelude.{◌≡◌, Some};
ghost use Rattle.operator_port.specs.Ends.{end_at, end_text, ends_family, ends_help, ends_rows};

use crate::figures::{EndRow, Ended};

/// Why a connection ended.
#[derive(Clone, Copy, Debug, Drop, PartialEq, Eq)]
pub enum End {
    /// The peer closed it.
    Closed,
    /// A read failed: the peer reset it, or is gone.
    Read,
    /// A write failed.
    Write,
    /// What came is no frame, or one that is too large.
    Stream,
    /// A frame had a fault that closed the session.
    Protocol,
    /// The session had no place for a frame's record.
    Places,
    /// Memory was refused.
    Memory,
    /// No session could be opened.
    Refused,
    /// The session took no dispatch any more, since a drain, and its peer left or was let go.
    Drained,
    /// An operator retired the server, and it held nothing any more.
    Retired,
    /// An operator cut it.
    Cut,
    /// It was idle for too long, or a frame that it began didn't end.
    Silent,
    /// The router ended.
    Quit,
}

/// Every cause, in the order in which they are shown.
pub const ENDS: [End; 13] = [
    End::Closed,
    End::Read,
    End::Write,
    End::Stream,
    End::Protocol,
    End::Places,
    End::Memory,
    End::Refused,
    End::Drained,
    End::Retired,
    End::Cut,
    End::Silent,
    End::Quit,
];

impl End {
    /// A number for it.
    pub fn code(self) -> u64
        ensures { end_at result ≡ Some self }
    {
        match self {
            End::Closed => 0,
            End::Read => 1,
            End::Write => 2,
            End::Stream => 3,
            End::Protocol => 4,
            End::Places => 5,
            End::Memory => 6,
            End::Refused => 7,
            End::Drained => 8,
            End::Retired => 9,
            End::Cut => 10,
            End::Silent => 11,
            End::Quit => 12,
        }
    }

    /// That of this number, if it is the number of one.
    pub fn at(code: u64) -> Option<End>
        ensures { result ≡ end_at code }
    {
        match code {
            0 => Some(End::Closed),
            1 => Some(End::Read),
            2 => Some(End::Write),
            3 => Some(End::Stream),
            4 => Some(End::Protocol),
            5 => Some(End::Places),
            6 => Some(End::Memory),
            7 => Some(End::Refused),
            8 => Some(End::Drained),
            9 => Some(End::Retired),
            10 => Some(End::Cut),
            11 => Some(End::Silent),
            12 => Some(End::Quit),
            _ => None,
        }
    }

    pub(crate) fn text(self) -> &'static str
        ensures { result.now ≡ end_text self }
    {
        match self {
            End::Closed => "closed",
            End::Read => "read",
            End::Write => "write",
            End::Stream => "stream",
            End::Protocol => "protocol",
            End::Places => "places",
            End::Memory => "memory",
            End::Refused => "refused",
            End::Drained => "drained",
            End::Retired => "retired",
            End::Cut => "cut",
            End::Silent => "silent",
            End::Quit => "quit",
        }
    }
}

/// Connections that ended, of one kind.
#[derive(Clone, Copy, Drop)]
pub(crate) enum Ends {
    Clients,
    Servers,
    TurnedAway,
}

impl Ends {
    pub(crate) fn name(self) -> &'static str
        ensures { result.now ≡ ends_family self }
    {
        match self {
            Ends::Clients => "voltgalley_clients_ended_total",
            Ends::Servers => "voltgalley_servers_ended_total",
            Ends::TurnedAway => "voltgalley_clients_turned_away_total",
        }
    }

    pub(crate) fn help(self) -> &'static str
        ensures { result.now ≡ ends_help self }
    {
        match self {
            Ends::Clients => "Connections of clients that ended, of those that had a session.",
            Ends::Servers => "Connections of servers that ended.",
            Ends::TurnedAway => "Connections of clients that ended, of those that got no session.",
        }
    }

    pub(crate) fn of(self, ended: &Ended) -> &[EndRow]
        ensures { result.now ≡ ends_rows self ended.now }
    {
        match self {
            Ends::Clients => ended.clients.as_slice(),
            Ends::Servers => ended.servers.as_slice(),
            Ends::TurnedAway => ended.turned_away.as_slice(),
        }
    }
}
