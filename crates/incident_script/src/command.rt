//! Which command makes a session write a record of each kind, and which value the step gives.

ghost use Rattle.std.specs.Prelude.{◌≡◌};
ghost use Rattle.incident_script.specs.Commands.{command_down, command_up, given_by, purpose_reads, order_reads, reads};

use mux_history::RecordKind;

/// What was done where a session wrote a record: one command of a script.
#[derive(Clone, Copy, Debug, PartialEq, Eq)]
pub enum Command {
    /// A frame came: `in`.
    Frame,
    /// A value in hand was used up.
    Spend(Purpose),
    /// A call that takes neither a frame nor a value.
    Obey(Order),
}

/// What a value in hand was used for.
#[derive(Clone, Copy, Debug, PartialEq, Eq)]
pub enum Purpose {
    /// A ticket was offered to a server, which took it.
    Offer,
    /// A place was noted.
    Note,
    /// A reply went out to the client.
    Settle,
    /// A reply is a nack, and gave the ticket again.
    Retry,
    /// A ticket was nacked.
    Nack,
    /// A ticket was answered with `no route`.
    Unroute,
    /// A loss was answered with `upstream lost`.
    Fail,
    /// A ticket was nacked or answered with `no route`, for which the client waits no more.
    LateTicket,
    /// A reply or a loss came, for which the client waits no more.
    LateReply,
    /// A recall went to its server.
    Recall,
}

/// A call that takes neither a frame nor a value, by its word in a script.
#[derive(Clone, Copy, Debug, PartialEq, Eq)]
pub enum Order {
    Drain,
    Clock,
    Ping,
    Retire,
    Next,
    Lose,
    Seal,
    Roll,
}

/// A value that a step gives.
#[derive(Clone, Copy, Debug, PartialEq, Eq)]
pub enum ValueKind {
    Ticket,
    Placed,
    /// A server's reply; `nack` where it is one.
    Settled { nack: bool },
    Recall,
    Lost,
}

/// What was done where a client's session wrote a record of this kind. None of a kind that stands on
/// the other side only.
pub fn down_command(kind: RecordKind) -> Option<Command>
    ensures { result ≡ command_down kind }
{
    match kind {
        RecordKind::Took
        | RecordKind::TookDrained
        | RecordKind::Discarded { .. }
        | RecordKind::Ponged
        | RecordKind::InitDone
        | RecordKind::Echoed
        | RecordKind::OutOfPlace
        | RecordKind::Unsupported
        | RecordKind::DrainAcked
        | RecordKind::Ignored
        | RecordKind::Closed(_) => Some(Command::Frame),
        RecordKind::Noted { .. } => Some(Command::Spend(Purpose::Note)),
        RecordKind::Passed => Some(Command::Spend(Purpose::Settle)),
        RecordKind::Retried => Some(Command::Spend(Purpose::Retry)),
        RecordKind::Nacked => Some(Command::Spend(Purpose::Nack)),
        RecordKind::Unrouted => Some(Command::Spend(Purpose::Unroute)),
        RecordKind::Failed => Some(Command::Spend(Purpose::Fail)),
        RecordKind::Late { whole: true } => Some(Command::Spend(Purpose::LateTicket)),
        RecordKind::Late { whole: false } => Some(Command::Spend(Purpose::LateReply)),
        RecordKind::DrainAsked => Some(Command::Obey(Order::Drain)),
        RecordKind::Recalled => Some(Command::Obey(Order::Next)),
        RecordKind::Lost => Some(Command::Obey(Order::Lose)),
        RecordKind::Epoch { .. } => Some(Command::Obey(Order::Seal)),
        RecordKind::Rolled { .. } => Some(Command::Obey(Order::Roll)),
        _ => None,
    }
}

/// What was done where a server's session wrote a record of this kind. None of a kind that stands on
/// the other side only.
pub fn up_command(kind: RecordKind) -> Option<Command>
    ensures { result ≡ command_up kind }
{
    match kind {
        RecordKind::Settled(_)
        | RecordKind::SettledNack
        | RecordKind::Dropped
        | RecordKind::Ponged
        | RecordKind::InitAsked
        | RecordKind::InitDone
        | RecordKind::PingDone
        | RecordKind::Leased(_)
        | RecordKind::Drained
        | RecordKind::Unsupported
        | RecordKind::Ignored
        | RecordKind::Closed(_) => Some(Command::Frame),
        RecordKind::Offered => Some(Command::Spend(Purpose::Offer)),
        RecordKind::Discarding => Some(Command::Spend(Purpose::Recall)),
        RecordKind::Clock => Some(Command::Obey(Order::Clock)),
        RecordKind::Retired => Some(Command::Obey(Order::Retire)),
        RecordKind::PingSent => Some(Command::Obey(Order::Ping)),
        RecordKind::LostOne => Some(Command::Obey(Order::Next)),
        RecordKind::Lost => Some(Command::Obey(Order::Lose)),
        RecordKind::Epoch { .. } => Some(Command::Obey(Order::Seal)),
        RecordKind::Rolled { .. } => Some(Command::Obey(Order::Roll)),
        _ => None,
    }
}

/// The value that a step gave which wrote a record of this kind.
pub fn value_of(kind: RecordKind) -> Option<ValueKind>
    ensures { result ≡ given_by kind }
{
    match kind {
        RecordKind::Took | RecordKind::Retried => Some(ValueKind::Ticket),
        RecordKind::Offered => Some(ValueKind::Placed),
        RecordKind::Settled(_) => Some(ValueKind::Settled { nack: false }),
        RecordKind::SettledNack => Some(ValueKind::Settled { nack: true }),
        RecordKind::Discarded { recalled: true }
        | RecordKind::Noted { recalled: true }
        | RecordKind::Recalled => Some(ValueKind::Recall),
        RecordKind::LostOne => Some(ValueKind::Lost),
        _ => None,
    }
}

impl Command {
    /// Whether the reading of the clock matters to it.
    pub fn reads_clock(self) -> bool
        ensures { result ≡ reads self }
    {
        match self {
            Command::Frame => true,
            Command::Spend(purpose) => purpose.reads_clock(),
            Command::Obey(order) => order.reads_clock(),
        }
    }
}

impl Purpose {
    fn reads_clock(self) -> bool
        ensures { result ≡ purpose_reads self }
    {
        matches!(self, Purpose::Offer | Purpose::Recall)
    }

    /// The command, where such a value is in hand. None where it can't be used so.
    pub(crate) fn word(self, kind: ValueKind) -> Option<&'static str> {
        match (self, kind) {
            (Purpose::Offer, ValueKind::Ticket) => Some("offer"),
            (Purpose::Note, ValueKind::Placed) => Some("note"),
            (Purpose::Recall, ValueKind::Recall) => Some("recall"),
            (Purpose::Settle | Purpose::LateReply, ValueKind::Settled { .. })
            | (Purpose::Retry, ValueKind::Settled { nack: true }) => Some("settle"),
            (Purpose::Nack | Purpose::LateTicket, ValueKind::Ticket) => Some("nack"),
            (Purpose::Unroute, ValueKind::Ticket) => Some("unroute"),
            (Purpose::Fail | Purpose::LateReply, ValueKind::Lost) => Some("fail"),
            _ => None,
        }
    }
}

impl Order {
    fn reads_clock(self) -> bool
        ensures { result ≡ order_reads self }
    {
        matches!(
            self,
            Order::Clock | Order::Ping | Order::Retire | Order::Lose
        )
    }

    /// The command.
    pub(crate) fn word(self) -> &'static str {
        match self {
            Order::Drain => "drain",
            Order::Clock => "clock",
            Order::Ping => "ping",
            Order::Retire => "retire",
            Order::Next => "next",
            Order::Lose => "lose",
            Order::Seal => "seal",
            Order::Roll => "roll",
        }
    }
}
