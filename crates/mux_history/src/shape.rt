//! The kind of a record without the numbers that it holds, in three bytes.

ghost use Rattle.std.specs.Prelude.{◌≡◌};
ghost use Rattle.mux_history.specs.Packing.{closing_of, shape_of};

use crate::kind::{Cause, RecordKind, Standing};
use crate::session::{DrainState, InitState};

/// What a kind says beside the numbers that it holds.
#[derive(Clone, Copy, Debug, PartialEq, Eq)]
pub enum Shape {
    Took,
    TookDrained,
    Discarded { recalled: bool },
    Ponged,
    InitDone,
    Echoed,
    OutOfPlace,
    Unsupported,
    DrainAcked,
    Ignored,
    Noted { recalled: bool },
    Passed,
    Nacked,
    Unrouted,
    Failed,
    Retried,
    Late { whole: bool },
    DrainAsked,
    Closed(Closing),
    Recalled,
    Lost,
    Offered,
    Settled(i8),
    SettledNack,
    Dropped,
    PingDone,
    Leased,
    Drained,
    InitAsked,
    Discarding,
    Clock,
    Retired,
    PingSent,
    LostOne,
    EpochDown { fresh: bool, drain: DrainState },
    EpochUp { init: InitState, drained: bool },
    Rolled,
}

/// A cause without its place.
#[derive(Clone, Copy, Debug, PartialEq, Eq)]
pub enum Closing {
    Fragment,
    BadBody,
    TagZero,
    TagInUse,
}

impl Closing {
    fn of(cause: Cause) -> Closing
        ensures { result ≡ closing_of cause }
    {
        match cause {
            Cause::Fragment => Closing::Fragment,
            Cause::BadBody { .. } => Closing::BadBody,
            Cause::TagZero => Closing::TagZero,
            Cause::TagInUse => Closing::TagInUse,
        }
    }
}

impl Shape {
    /// The shape of a record's kind.
    #[inline(always)]
    pub fn of(kind: RecordKind) -> Shape
        ensures { result ≡ shape_of kind }
    {
        match kind {
            RecordKind::Took => Shape::Took,
            RecordKind::TookDrained => Shape::TookDrained,
            RecordKind::Discarded { recalled } => Shape::Discarded { recalled },
            RecordKind::Ponged => Shape::Ponged,
            RecordKind::InitDone => Shape::InitDone,
            RecordKind::Echoed => Shape::Echoed,
            RecordKind::OutOfPlace => Shape::OutOfPlace,
            RecordKind::Unsupported => Shape::Unsupported,
            RecordKind::DrainAcked => Shape::DrainAcked,
            RecordKind::Ignored => Shape::Ignored,
            RecordKind::Noted { recalled } => Shape::Noted { recalled },
            RecordKind::Passed => Shape::Passed,
            RecordKind::Nacked => Shape::Nacked,
            RecordKind::Unrouted => Shape::Unrouted,
            RecordKind::Failed => Shape::Failed,
            RecordKind::Retried => Shape::Retried,
            RecordKind::Late { whole } => Shape::Late { whole },
            RecordKind::DrainAsked => Shape::DrainAsked,
            RecordKind::Closed(cause) => Shape::Closed(Closing::of(cause)),
            RecordKind::Recalled => Shape::Recalled,
            RecordKind::Lost => Shape::Lost,
            RecordKind::Offered => Shape::Offered,
            RecordKind::Settled(kind) => Shape::Settled(kind),
            RecordKind::SettledNack => Shape::SettledNack,
            RecordKind::Dropped => Shape::Dropped,
            RecordKind::PingDone => Shape::PingDone,
            RecordKind::Leased(_) => Shape::Leased,
            RecordKind::Drained => Shape::Drained,
            RecordKind::InitAsked => Shape::InitAsked,
            RecordKind::Discarding => Shape::Discarding,
            RecordKind::Clock => Shape::Clock,
            RecordKind::Retired => Shape::Retired,
            RecordKind::PingSent => Shape::PingSent,
            RecordKind::LostOne => Shape::LostOne,
            RecordKind::Epoch {
                standing: Standing::Down { fresh, drain, .. },
                ..
            } => Shape::EpochDown { fresh, drain },
            RecordKind::Epoch {
                standing: Standing::Up { init, drained, .. },
                ..
            } => Shape::EpochUp { init, drained },
            RecordKind::Rolled { .. } => Shape::Rolled,
        }
    }
}
