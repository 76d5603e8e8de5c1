//! What a session writes down of a step, in 40 bytes: a history is long.

ghost use Rattle.std.specs.Prelude.{◌≡◌};
ghost use Rattle.mux_history.specs.Packing.{Fits, MayHold, is_plain, shape_of, cause_in, kind_in, marks_of, numbers_of};

use crate::kind::{Cause, RecordKind, Standing};
use crate::name::Name;
use crate::shape::{Closing, Shape};
use std::marker::Model;

/// One recorded step.
///
/// Contracts see its kind, its tag, its name and its reading. A kind that holds a number has no name:
/// so both stand in the same three numbers.
#[derive(Clone, Copy, Debug)]
pub struct Record {
    // The name's boot, client and number, or what the kind holds.
    first: u64,
    second: u64,
    third: u64,
    reading: u64,
    tag: u32,
    shape: Shape,
    named: bool,
}

impl Model for Record {
    ghost use Rattle.std.specs.Prelude.{◌≡◌};
    ghost use Rattle.mux_history.specs.Recorded.{Recorded};

    ghost Value = { Recorded };

    ghost use Rattle.mux_history.specs.Packing.{Fits, pack, unpack};

    ghost view = { unpack };

    ghost invariant = { λ r. (pack (unpack r) ≡ r) × Fits r.shape r.first };

    ghost inverse = { pack };

    ghost inverse_ok = { λ r h. h.0 };
}

impl Record {
    /// The record of a step of this kind, with the tag of the dispatch that it is about, else that of
    /// the message, else 0; with the name of the dispatch, if it is about one; and with the session's
    /// reading after the step, in milliseconds.
    #[inline(always)]
    #[tactic(auto, using(crate::proofs::Unpacking::packed_named, crate::proofs::Unpacking::fits_plain))]
    pub fn new(kind: RecordKind, tag: u32, name: Option<Name>, reading: u64) -> Record
        requires { MayHold kind name }
        ensures { result ≡ record { kind = kind; tag = tag; name = name; reading = reading } }
    {
        let shape = Shape::of(kind);
        match name {
            Some(name) => Record {
                first: name.boot,
                second: name.client,
                third: name.seq,
                reading,
                tag,
                shape,
                named: true,
            },
            None => {
                let (first, second, third) = numbers_of(kind);
                Record {
                    first,
                    second,
                    third,
                    reading,
                    tag,
                    shape,
                    named: false,
                }
            }
        }
    }

    /// What the step did.
    #[inline(always)]
    pub fn kind(&self) -> RecordKind
        ensures { result ≡ self.now.kind }
    {
        match self.shape {
            Shape::Took => RecordKind::Took,
            Shape::TookDrained => RecordKind::TookDrained,
            Shape::Discarded { recalled } => RecordKind::Discarded { recalled },
            Shape::Ponged => RecordKind::Ponged,
            Shape::InitDone => RecordKind::InitDone,
            Shape::Echoed => RecordKind::Echoed,
            Shape::OutOfPlace => RecordKind::OutOfPlace,
            Shape::Unsupported => RecordKind::Unsupported,
            Shape::DrainAcked => RecordKind::DrainAcked,
            Shape::Ignored => RecordKind::Ignored,
            Shape::Noted { recalled } => RecordKind::Noted { recalled },
            Shape::Passed => RecordKind::Passed,
            Shape::Nacked => RecordKind::Nacked,
            Shape::Unrouted => RecordKind::Unrouted,
            Shape::Failed => RecordKind::Failed,
            Shape::Retried => RecordKind::Retried,
            Shape::Late { whole } => RecordKind::Late { whole },
            Shape::DrainAsked => RecordKind::DrainAsked,
            Shape::Closed(closing) => RecordKind::Closed(closing.cause(self.first)),
            Shape::Recalled => RecordKind::Recalled,
            Shape::Lost => RecordKind::Lost,
            Shape::Offered => RecordKind::Offered,
            Shape::Settled(kind) => RecordKind::Settled(kind),
            Shape::SettledNack => RecordKind::SettledNack,
            Shape::Dropped => RecordKind::Dropped,
            Shape::PingDone => RecordKind::PingDone,
            Shape::Leased => RecordKind::Leased(self.first),
            Shape::Drained => RecordKind::Drained,
            Shape::InitAsked => RecordKind::InitAsked,
            Shape::Discarding => RecordKind::Discarding,
            Shape::Clock => RecordKind::Clock,
            Shape::Retired => RecordKind::Retired,
            Shape::PingSent => RecordKind::PingSent,
            Shape::LostOne => RecordKind::LostOne,
            Shape::EpochDown { fresh, drain } => RecordKind::Epoch {
                number: self.first as u32,
                standing: Standing::Down {
                    fresh,
                    drain,
                    dispatches: self.second,
                },
            },
            Shape::EpochUp { init, drained } => RecordKind::Epoch {
                number: self.first as u32,
                standing: Standing::Up {
                    init,
                    drained,
                    retired: matches!(self.third, 1 | 3 | 5 | 7),
                    ping: matches!(self.third, 2 | 3 | 6 | 7),
                    leased: matches!(self.third, 4 | 5 | 6 | 7),
                    lapse: self.second,
                },
            },
            Shape::Rolled => RecordKind::Rolled {
                number: self.first as u32,
            },
        }
    }

    /// Its kind without the numbers that it holds.
    #[inline(always)]
    pub(crate) fn shape(&self) -> Shape
        ensures { result ≡ shape_of self.now.kind }
    {
        self.shape
    }

    /// The tag of the dispatch that the step is about, else that of the message, else 0.
    pub fn tag(&self) -> u32
        ensures { result ≡ self.now.tag }
    {
        self.tag
    }

    /// The dispatch that the step is about.
    pub fn name(&self) -> Option<Name>
        ensures { result ≡ self.now.name }
    {
        self.named.then_some(Name {
            boot: self.first,
            client: self.second,
            seq: self.third,
        })
    }

    /// The session's reading after the step, in milliseconds.
    pub fn reading(&self) -> u64
        ensures { result ≡ self.now.reading }
    {
        self.reading
    }
}

impl Closing {
    fn cause(self, place: u64) -> Cause
        ensures { result ≡ cause_in self place }
    {
        match self {
            Closing::Fragment => Cause::Fragment,
            Closing::BadBody => Cause::BadBody {
                place: place as usize,
            },
            Closing::TagZero => Cause::TagZero,
            Closing::TagInUse => Cause::TagInUse,
        }
    }
}

impl RecordKind {
    /// Whether it holds no number: such a kind may stand beside a name. `Closed`, `Leased` and `Epoch`
    /// may not.
    pub fn is_plain(self) -> bool
        ensures { result ≡ is_plain self }
    {
        !matches!(
            self,
            RecordKind::Closed(_)
                | RecordKind::Leased(_)
                | RecordKind::Epoch { .. }
                | RecordKind::Rolled { .. }
        )
    }
}

/// The numbers that a kind holds.
#[inline(always)]
fn numbers_of(kind: RecordKind) -> (u64, u64, u64)
    ensures value { result ≡ numbers_of kind }
    ensures fits { Fits (shape_of kind) result.0 }
{
    match kind {
        RecordKind::Closed(Cause::BadBody { place }) => (place as u64, 0, 0),
        RecordKind::Leased(ms) => (ms, 0, 0),
        RecordKind::Rolled { number } => (u64::from(number), 0, 0),
        RecordKind::Epoch {
            number,
            standing: Standing::Down { dispatches, .. },
        } => (u64::from(number), dispatches, 0),
        RecordKind::Epoch {
            number,
            standing: Standing::Up {
                retired,
                ping,
                leased,
                lapse,
                ..
            },
        } => { (u64::from(number), lapse, marks_of(retired, ping, leased)) }
        _ => (0, 0, 0),
    }
}

/// Three marks as a number.
fn marks_of(retired: bool, ping: bool, leased: bool) -> u64
    ensures { result ≡ marks_of retired ping leased }
{
    let retired = if retired { 1 } else { 0 };
    let ping = if ping { 2 } else { 0 };
    let leased = if leased { 4 } else { 0 };
    retired + ping + leased
}
