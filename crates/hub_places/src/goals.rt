//! What is to hold of what is in hand, once what was done is in the log.

use hub_base::Errands;
use hub_log::{Goal, Room};
use mux_frame::Frame;
use mux_history::SessionId;
use std::collections::VecDeque;
use std::marker::PhantomData;
use translate_book::{Lost, OfferRefusal, Placed, Recall, Ticket};

/// Nothing more.
pub(crate) struct Nothing;

impl Goal<()> for Nothing {
    ghost goal = { λ x w. Unit {0} };
}

/// Each value of a batch has a claim of its own.
pub(crate) struct Claimed;

impl Goal<Errands> for Claimed {
    ghost use Rattle.hub_places.specs.Holding.{HasClaims};

    ghost goal = { λ errands w. HasClaims w errands.items };
}

/// A recall has a claim, if there is one.
pub(crate) struct Recalls;

impl Goal<Option<Recall>> for Recalls {
    ghost use Rattle.hub_places.specs.Holding.{Holds, alone, recall_if};

    ghost goal = { λ recall w. Holds w (alone (recall_if recall)) };
}

/// A dispatch that is lost has a claim, if there is one.
pub(crate) struct Losses;

impl Goal<Option<Lost>> for Losses {
    ghost use Rattle.hub_places.specs.Holding.{Holds, alone, lost_if};

    ghost goal = { λ lost w. Holds w (alone (lost_if lost)) };
}

/// The outcome of an offer, and the values of the batch that its dispatch was taken out of.
#[derive(Drop)]
pub(crate) struct Offered<'a> {
    pub result: &'a Result<Placed, (OfferRefusal, Ticket)>,
    pub errands: &'a Errands,
}

/// What an offer leaves in hand has a claim, beside the batch's values.
pub(crate) struct Left;

impl Goal<Offered<'_>> for Left {
    ghost use Rattle.hub_places.specs.Holding.{Holds, beside, left_by_offer};

    ghost goal = { λ o w. Holds w (beside (left_by_offer o.result.now) o.errands.now.items) };
}

/// So many frames that came out of a session.
#[derive(Drop)]
pub(crate) struct Gone<'a> {
    pub session: SessionId,
    pub came: usize,
    pub frames: &'a VecDeque<Frame>,
}

/// If frames came, the last move took them out of that session.
pub(crate) struct WentOut<B: Room> {
    of: PhantomData<B>,
}

impl<B: Room> Goal<Gone<'_>> for WentOut<B> {
    ghost use Rattle.std.specs.Prelude.{◌<◌};
    ghost use Rattle.server_session.specs.Inside.{frames_of};
    ghost use Rattle.hub_places.specs.Holding.{IsGone};

    ghost goal = { λ g w. 0 < g.came → IsGone B.terms g.session (frames_of g.frames.now.items) w };
}
