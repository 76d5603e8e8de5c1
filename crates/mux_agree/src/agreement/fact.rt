//! What a record shows of a dispatch.
//!
//! `count` of hub_close lists the kinds of record that answer a dispatch too: each is the word of its own
//! crate's definitions.
ghost use Rattle.std.specs.Prelude.{◌≡◌, ◌*◌, ◌≤◌, ◌^◌, length};
ghost use Rattle.mux_agree.specs.Walk.{joined};
ghost use Rattle.std.specs.List.{list_any};
ghost use Rattle.mux_history.specs.Readings.{is_named};
ghost use Rattle.mux_agree.specs.Agree.{has, times};
ghost use Rattle.mux_agree.specs.Facts.{shows};

use mux_history::{History, Name, Record, RecordKind};

/// What a record shows of the dispatch that it names.
#[derive(Clone, Copy)]
pub enum Fact {
    /// A client's session took it.
    Taken,
    /// A server was sent it.
    Sent,
    /// It may be sent again.
    SentAgain,
    /// The client got its answer, or gave it up.
    Answered,
    /// It came when the client was drained.
    Refused,
    /// It was answered with a nack or `no route`.
    Nacked,
    /// The server's final reply came.
    Replied,
    /// That reply was a nack.
    NackedBack,
    /// It was no nack.
    Settled,
    /// It was lost with its server.
    Missing,
    /// The server was asked to discard it.
    Recalled,
}

impl Fact {
    /// Whether a record of this kind shows it.
    pub fn is_shown_by(self, kind: RecordKind) -> bool
        ensures { result ≡ shows self kind }
    {
        match self {
            Fact::Taken => matches!(kind, RecordKind::Took | RecordKind::TookDrained),
            Fact::Sent => matches!(kind, RecordKind::Offered),
            Fact::SentAgain => matches!(kind, RecordKind::Retried),
            Fact::Answered => matches!(
                kind,
                RecordKind::Discarded { .. }
                    | RecordKind::TookDrained
                    | RecordKind::Passed
                    | RecordKind::Nacked
                    | RecordKind::Unrouted
                    | RecordKind::Failed
            ),
            Fact::Refused => matches!(kind, RecordKind::TookDrained),
            Fact::Nacked => matches!(kind, RecordKind::Nacked | RecordKind::Unrouted),
            Fact::Replied => matches!(kind, RecordKind::Settled(_) | RecordKind::SettledNack),
            Fact::NackedBack => matches!(kind, RecordKind::SettledNack),
            Fact::Settled => matches!(kind, RecordKind::Settled(_)),
            Fact::Missing => matches!(kind, RecordKind::LostOne),
            Fact::Recalled => matches!(kind, RecordKind::Discarding),
        }
    }
}

/// Whether one of the records shows this of the name.
pub fn has(fact: Fact, name: Name, records: &[Record]) -> bool
    ensures { result ≡ has (shows fact) name records.now }
{
    records.iter().any(|record| fact.is_shown_by(record.kind()) && record.name() == Some(name))
}

/// How many of the records show this of the name.
pub fn times(fact: Fact, name: Name, records: &[Record]) -> usize
    ensures { result ≡ times (shows fact) name records.now }
{
    records
        .iter()
        .filter(|record| fact.is_shown_by(record.kind()) && record.name() == Some(name))
        .count()
}

/// Whether a record of one of the epochs shows this of the name.
pub fn has_among(fact: Fact, name: Name, epochs: &[History]) -> bool
    ensures { result ≡ list_any (λ h. has (shows fact) name h.records) epochs.now }
{
    epochs.iter().any(|epoch| has(fact, name, epoch.records()))
}

/// How many records of the epochs show this of the name.
pub fn times_among(fact: Fact, name: Name, epochs: &[History]) -> u128
    ensures { result ≡ times (shows fact) name (joined epochs.now) }
{
    let mut all = 0u128;
    for epoch in epochs {
        all += times(fact, name, epoch.records()) as u128;
    }
    all
}
