//! How what was done is added to the log.
ghost use Rattle.std.specs.Prelude.{◌≡◌, []};
ghost use Rattle.hub_log.specs.Rule.{values_of};
ghost use Rattle.hub_log.specs.Views.{May};
ghost use Rattle.hub_places.specs.Sitting.{Entered, bare_of};
ghost use Rattle.hub_places.specs.Seating.{AtHome};

use crate::place::Numbered;
use hub_log::{Book, Goal, Pass, Room};
use std::marker::PhantomData;

/// By what a place adds to the log what its session does.
#[derive(Drop)]
pub(crate) struct Logger<B: Room> {
    /// Of the session that is there, or was there last.
    pub number: u64,
    /// Sessions of the slot from this number on were never opened.
    pub next: u64,
    /// Of which slot it is, the clients' before the servers'; none for a place that is lent in place of one.
    pub home: Option<u64>,
    pub pass: Pass<B>,
}

/// What a place is once its session has made steps, and what else is to hold then.
#[derive(Drop)]
pub(crate) struct About<'a, S: Numbered, X> {
    pub number: u64,
    pub next: u64,
    pub home: Option<u64>,
    pub session: &'a Option<S>,
    pub more: &'a X,
}

/// The session is what the log has of it, and this goal is met by what is in hand.
struct Logged<S: Numbered, B: Room, G> {
    of: PhantomData<(S, B, G)>,
}

impl<S: Numbered, B: Room, X, G: Goal<X>> Goal<About<'_, S, X>> for Logged<S, B, G> {
    ghost use Rattle.std.specs.Prelude.{◌≡◌};
    ghost use Rattle.hub_log.specs.Rule.{values_of};
    ghost use Rattle.hub_places.specs.Sitting.{bare_of};
    ghost use Rattle.hub_places.specs.Seating.{AtHome};

    ghost goal = { λ a w. S.sits B.terms a.number a.next a.session.now (bare_of w) × AtHome a.home w
        × G.goal a.more.now (values_of w) };
}

/// A pass that adds for a place, and has nothing in hand, takes in all that another one has in hand, and sees all that
/// there is.
#[inline(always)]
pub(crate) fn enter<B: Room>(book: &Book<B>, own: &mut Pass<B>, claims: Pass<B>)
    requires { own.old.hands ≡ [] }
    ensures { Entered B.terms own.old claims own.new }
{
    own.join(book, claims);
    own.look(book);
}

impl<B: Room> Logger<B> {
    /// Adds what the session did, after which it is `session`, by whichever moves may lead there: a pass with all that is
    /// in hand then, by which the goal is met.
    #[inline(always)]
    pub fn log<S: Numbered, X, G: Goal<X>>(
        &mut self,
        book: &Book<B>,
        session: &Option<S>,
        more: &X,
    ) -> Pass<B>
        requires may { May B.terms self.old.pass (λ w. S.sits B.terms self.old.number self.old.next session.now (bare_of w)
            × G.goal more.now (values_of w)) }
        requires home { AtHome self.old.home self.old.pass }
        ensures kept { S.sits B.terms self.new.number self.new.next session.now (bare_of self.new.pass)
            × (self.new.pass.hands ≡ []) × AtHome self.new.home self.new.pass }
        ensures number { self.new.number ≡ self.old.number }
        ensures value { G.goal more.now result }
    {
        self.pass.reach::<About<'_, S, X>, Logged<S, B, G>>(
            book,
            &About {
                number: self.number,
                next: self.next,
                home: self.home,
                session,
                more,
            },
        );
        self.pass.value(book)
    }
}
