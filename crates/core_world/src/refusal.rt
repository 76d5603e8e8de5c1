//! Why an event is refused.

ghost use Rattle.std.specs.Prelude.{◌≡◌};
ghost use Rattle.core_world.specs.Refusals.{why_step, why_seal, why_roll};

use thiserror::Error;
use translate_book::{RollRefusal, SealRefusal, StepRefusal};

/// Why a session refused a step.
#[derive(Clone, Copy, Debug, Error, PartialEq, Eq)]
pub enum Refusal {
    #[error("Closed")]
    Closed,
    #[error("Busy")]
    Busy,
    #[error("Spent")]
    Spent,
    /// The value belongs to another session, or was used already.
    #[error("NotMine")]
    NotMine,
    #[error("AlreadyDraining")]
    AlreadyDraining,
    #[error("NotOpen")]
    NotOpen,
    #[error("Drained")]
    Drained,
    #[error("Retired")]
    Retired,
    #[error("Lapsed")]
    Lapsed,
    #[error("Full")]
    Full,
    #[error("Outstanding")]
    Outstanding,
    #[error("NotQuiet")]
    NotQuiet,
    #[error("NotFull")]
    NotFull,
    #[error("LastEpoch")]
    LastEpoch,
    #[error("NoRoom")]
    NoRoom,
}

/// Why an event is refused, in the order in which the causes are looked at: out of memory comes
/// before the session's own refusal, but for an offer of a dispatch that may be sent again.
#[derive(Clone, Copy, Debug, Error, PartialEq, Eq)]
pub enum EventRefusal {
    #[error("NoSuchSession")]
    NoSuchSession,
    #[error("NoSuchHand")]
    NoSuchHand,
    /// The value has another kind.
    #[error("WrongHand")]
    WrongHand,
    /// The session's own refusal.
    #[error("{0}")]
    Session(Refusal),
    /// A growth was refused, or the last number is given.
    #[error("Memory")]
    Memory,
}

impl Refusal {
    /// The refusal that stands for this cause of a step.
    pub fn of_step(why: StepRefusal) -> Refusal
        ensures { result ≡ why_step why }
    {
        match why {
            StepRefusal::Closed => Refusal::Closed,
            StepRefusal::Busy => Refusal::Busy,
            StepRefusal::Spent => Refusal::Spent,
        }
    }

    /// The refusal that stands for this cause of a seal.
    pub fn of_seal(why: SealRefusal) -> Refusal
        ensures { result ≡ why_seal why }
    {
        match why {
            SealRefusal::Closed => Refusal::Closed,
            SealRefusal::NotQuiet => Refusal::NotQuiet,
            SealRefusal::NotFull => Refusal::NotFull,
            SealRefusal::LastEpoch => Refusal::LastEpoch,
        }
    }

    /// The refusal that stands for this cause of a roll.
    pub fn of_roll(why: RollRefusal) -> Refusal
        ensures { result ≡ why_roll why }
    {
        match why {
            RollRefusal::Closed => Refusal::Closed,
            RollRefusal::NoRoom => Refusal::NoRoom,
            RollRefusal::LastEpoch => Refusal::LastEpoch,
        }
    }
}
