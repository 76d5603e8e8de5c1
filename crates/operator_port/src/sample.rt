//! Figures of sessions, each with its name.
ghost use Rattle.std.specs.Prelude.{◌≡◌, ◌==◌, cond};
ghost use Rattle.operator_port.specs.Metrics.{client_family, client_figure, client_help, server_family, server_figure, server_help, sum_to};
ghost use Rattle.operator_port.specs.States.{up_code};

use crate::figures::{ClientRow, ServerRow};
use hub_close::UpWord;

/// A figure of a client's session, which is shown for all of them together.
#[derive(Clone, Copy, Drop)]
pub(crate) enum ClientFigure {
    Entries,
    Records,
    Epochs,
    Queued,
}

/// A figure of a server's session, which is shown for each.
#[derive(Clone, Copy, Drop)]
pub(crate) enum ServerFigure {
    Up,
    Load,
    Ejected,
    Records,
    Epochs,
    Queued,
}

impl ClientFigure {
    pub(crate) fn name(self) -> &'static str
        ensures { result.now ≡ client_family self }
    {
        match self {
            ClientFigure::Entries => "voltgalley_open_dispatches",
            ClientFigure::Records => "voltgalley_client_records",
            ClientFigure::Epochs => "voltgalley_client_epochs",
            ClientFigure::Queued => "voltgalley_client_queued_frames",
        }
    }

    pub(crate) fn help(self) -> &'static str
        ensures { result.now ≡ client_help self }
    {
        match self {
            ClientFigure::Entries => "Dispatches that clients hold.",
            ClientFigure::Records => "Records of the present epochs of clients' sessions.",
            ClientFigure::Epochs => "Epochs of clients' sessions that were ended.",
            ClientFigure::Queued => "Frames that clients haven't read yet.",
        }
    }

    fn of(self, row: &ClientRow) -> u64
        ensures { result ≡ client_figure self row.now }
    {
        match self {
            ClientFigure::Entries => row.entries as u64,
            ClientFigure::Records => row.records as u64,
            ClientFigure::Epochs => u64::from(row.epoch),
            ClientFigure::Queued => row.queued as u64,
        }
    }

    /// The sum over all clients.
    pub(crate) fn sum(self, rows: &[ClientRow]) -> u64
        ensures { result ≡ sum_to (client_figure self) rows.now }
    {
        let mut total = 0u64;
        for row in rows {
            total = total.saturating_add(self.of(row));
        }
        total
    }
}

impl ServerFigure {
    pub(crate) fn name(self) -> &'static str
        ensures { result.now ≡ server_family self }
    {
        match self {
            ServerFigure::Up => "voltgalley_server_up",
            ServerFigure::Load => "voltgalley_server_load",
            ServerFigure::Ejected => "voltgalley_server_ejected",
            ServerFigure::Records => "voltgalley_server_records",
            ServerFigure::Epochs => "voltgalley_server_epoch",
            ServerFigure::Queued => "voltgalley_server_queued_frames",
        }
    }

    pub(crate) fn help(self) -> &'static str
        ensures { result.now ≡ server_help self }
    {
        match self {
            ServerFigure::Up => "1 if the server is open, else 0.",
            ServerFigure::Load => "Dispatches that the server has.",
            ServerFigure::Ejected => "1 if the server is asked last, else 0.",
            ServerFigure::Records => "Records of the present epoch of the server's session.",
            ServerFigure::Epochs => "Epochs of the server's session that were ended.",
            ServerFigure::Queued => "Frames that the server hasn't read yet.",
        }
    }

    pub(crate) fn of(self, row: &ServerRow) -> u64
        ensures { result ≡ server_figure self row.now }
    {
        match self {
            ServerFigure::Up => up(row.word),
            ServerFigure::Load => row.load as u64,
            ServerFigure::Ejected => { if row.ejected == 0 { 0 } else { 1 } }
            ServerFigure::Records => row.records as u64,
            ServerFigure::Epochs => u64::from(row.epoch),
            ServerFigure::Queued => row.queued as u64,
        }
    }
}

// 1 for an open session.
fn up(word: UpWord) -> u64
    ensures { result ≡ cond (up_code word == 4) 1 0 }
{
    match word {
        UpWord::Open => 1,
        UpWord::Closed | UpWord::Drained | UpWord::Retired | UpWord::Opening => 0,
    }
}
