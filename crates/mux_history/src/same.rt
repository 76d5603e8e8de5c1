//! Whether two records are the same.

ghost use Rattle.std.specs.Prelude.{◌≡◌, ◌≢◌, ◌↔◌, true, false, IsTrue};
ghost use Rattle.mux_history.specs.Codes.{code, coded};

use crate::kind::{Cause, RecordKind, Standing};
use crate::name::Name;
use crate::record::Record;

impl Record {
    /// Whether the other record is the same in every part.
    pub fn is(&self, other: Record) -> bool
        ensures { IsTrue result ↔ (self.now ≡ other) }
    {
        is_same_kind(self.kind(), other.kind())
            && self.tag() == other.tag()
            && is_same_name(self.name(), other.name())
            && self.reading() == other.reading()
    }
}

/// What tells a kind from all others: its number, and what it holds.
#[derive(Clone, Copy)]
struct Code {
    number: u8,
    content: u64,
    type_byte: i8,
    standing: Option<Standing>,
}

/// The code of a kind that holds a number at most.
fn holding(number: u8, content: u64) -> Code
    ensures { result ≡ coded number content }
{
    Code {
        number,
        content,
        type_byte: 0,
        standing: None,
    }
}

fn code_of(kind: RecordKind) -> Code
    ensures { result ≡ code kind }
{
    match kind {
        RecordKind::Took => holding(0, 0),
        RecordKind::TookDrained => holding(1, 0),
        RecordKind::Discarded { recalled: false } => holding(2, 0),
        RecordKind::Discarded { recalled: true } => holding(3, 0),
        RecordKind::Ponged => holding(4, 0),
        RecordKind::InitDone => holding(5, 0),
        RecordKind::Echoed => holding(6, 0),
        RecordKind::OutOfPlace => holding(7, 0),
        RecordKind::Unsupported => holding(8, 0),
        RecordKind::DrainAcked => holding(9, 0),
        RecordKind::Ignored => holding(10, 0),
        RecordKind::Noted { recalled: false } => holding(11, 0),
        RecordKind::Noted { recalled: true } => holding(12, 0),
        RecordKind::Passed => holding(13, 0),
        RecordKind::Nacked => holding(14, 0),
        RecordKind::Unrouted => holding(15, 0),
        RecordKind::Failed => holding(16, 0),
        RecordKind::Retried => holding(17, 0),
        RecordKind::Late { whole: false } => holding(18, 0),
        RecordKind::Late { whole: true } => holding(19, 0),
        RecordKind::DrainAsked => holding(20, 0),
        RecordKind::Closed(Cause::Fragment) => holding(21, 0),
        RecordKind::Closed(Cause::TagZero) => holding(22, 0),
        RecordKind::Closed(Cause::TagInUse) => holding(23, 0),
        RecordKind::Closed(Cause::BadBody { place }) => holding(24, place as u64),
        RecordKind::Recalled => holding(25, 0),
        RecordKind::Lost => holding(26, 0),
        RecordKind::Offered => holding(27, 0),
        RecordKind::Settled(type_byte) => Code {
            number: 28,
            content: 0,
            type_byte,
            standing: None,
        },
        RecordKind::SettledNack => holding(29, 0),
        RecordKind::Dropped => holding(30, 0),
        RecordKind::PingDone => holding(31, 0),
        RecordKind::Leased(ms) => holding(32, ms),
        RecordKind::Drained => holding(33, 0),
        RecordKind::InitAsked => holding(34, 0),
        RecordKind::Discarding => holding(35, 0),
        RecordKind::Clock => holding(36, 0),
        RecordKind::Retired => holding(37, 0),
        RecordKind::PingSent => holding(38, 0),
        RecordKind::LostOne => holding(39, 0),
        RecordKind::Epoch { number, standing } => Code {
            number: 40,
            content: u64::from(number),
            type_byte: 0,
            standing: Some(standing),
        },
        RecordKind::Rolled { number } => holding(41, u64::from(number)),
    }
}

#[tactic(auto, using(crate::proofs::Telling::same_kind))]
fn is_same_kind(a: RecordKind, b: RecordKind) -> bool
    ensures yes { result ≡ true → a ≡ b }
    ensures no { result ≡ false → a ≢ b }
{
    let a = code_of(a);
    let b = code_of(b);
    a.number == b.number
        && a.content == b.content
        && a.type_byte == b.type_byte
        && is_same_standing(a.standing, b.standing)
}

fn is_same_standing(a: Option<Standing>, b: Option<Standing>) -> bool
    ensures yes { result ≡ true → a ≡ b }
    ensures no { result ≡ false → a ≢ b }
{
    match (a, b) {
        (Some(a), Some(b)) => is_so(a, b),
        (None, None) => true,
        _ => false,
    }
}

fn is_so(one: Standing, other: Standing) -> bool
    ensures yes { result ≡ true → one ≡ other }
    ensures no { result ≡ false → one ≢ other }
{
    match (one, other) {
        (
            Standing::Down {
                fresh,
                drain,
                dispatches,
            },
            Standing::Down {
                fresh: f,
                drain: d,
                dispatches: n,
            },
        ) => fresh == f && drain == d && dispatches == n,
        (
            Standing::Up {
                init,
                drained,
                retired,
                ping,
                leased,
                lapse,
            },
            Standing::Up {
                init: i,
                drained: d,
                retired: r,
                ping: p,
                leased: l,
                lapse: t,
            },
        ) => { init == i && drained == d && retired == r && ping == p && leased == l && lapse == t }
        _ => false,
    }
}

fn is_same_name(a: Option<Name>, b: Option<Name>) -> bool
    ensures yes { result ≡ true → a ≡ b }
    ensures no { result ≡ false → a ≢ b }
{
    match (a, b) {
        (Some(a), Some(b)) => a.boot == b.boot && a.client == b.client && a.seq == b.seq,
        (None, None) => true,
        _ => false,
    }
}
