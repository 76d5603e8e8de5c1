//! What the lock of a slot keeps, of either kind.
ghost use Rattle.std.specs.Prelude.{ℕ, ◌≡◌, ◌≢◌, ◌⊎◌, ◌+◌, ◌<◌, ◌≤◌, ◌^◌, [], None, Some, true, false};
ghost use Rattle.std.specs.Option.{ForSome};
ghost use Rattle.hub_log.specs.declared.terms.Terms.{Terms};
ghost use Rattle.hub_places.specs.Seating.{AtHome, Seating};

use crate::log::Logger;
use hub_log::{Book, Pass, Room};
use kept_session::{KeptClientSession, KeptServerSession};
use std::marker::Model;

/// A session that has a number.
pub trait Numbered: Drop {
    ghost use Rattle.std.specs.Prelude.{ℕ, Option, None, Some, [], ◌≡◌, length};
    ghost use Rattle.hub_log.specs.declared.terms.Terms.{Terms};
    ghost use Rattle.hub_log.specs.Views.{View};

    ghost number_of: { Self → ℕ };

    ghost held_by: { Self → ℕ };

    /// The session of this number, or none, is what the log has of it; those of its slot from the second number on were
    /// never opened.
    ghost sits: { Terms → ℕ → ℕ → Option Self → View → Type 0 };

    /// How many records the present history has.
    fn held(&self) -> usize
        ensures { result ≡ held_by self.now };

    ghost numbered: { (t : Terms) (n next : ℕ) (s : Self) (v : View) → sits t n next (Some s) v → number_of s ≡ n };

    ghost nobody: { (t : Terms) (n next : ℕ) (v : View) → v.high ≡ 0 → sits t n next None v };

    ghost nothing: { (t : Terms) (n next : ℕ) (v : View) → v.seen ≡ [] → sits t n next None v };
}

impl Numbered for KeptServerSession {
    ghost use Rattle.std.specs.Prelude.{length};
    ghost use Rattle.hub_places.specs.Sitting.{SitsDown};
    ghost use Rattle.hub_places.specs.Laws.{nobody_down, nothing_down, numbered_down};

    ghost number_of = { λ s. s.state.client };

    ghost held_by = { λ s. length s.state.records };

    ghost sits = { SitsDown };

    fn held(&self) -> usize {
        KeptServerSession::held(self)
    }

    ghost numbered = { numbered_down };

    ghost nobody = { nobody_down };

    ghost nothing = { nothing_down };
}

impl Numbered for KeptClientSession {
    ghost use Rattle.std.specs.Prelude.{length};
    ghost use Rattle.hub_places.specs.Sitting.{SitsUp};
    ghost use Rattle.hub_places.specs.Laws.{nobody_up, nothing_up, numbered_up};

    ghost number_of = { λ s. s.state.server };

    ghost held_by = { λ s. length s.state.records };

    ghost sits = { SitsUp };

    fn held(&self) -> usize {
        KeptClientSession::held(self)
    }

    ghost numbered = { numbered_up };

    ghost nobody = { nobody_up };

    ghost nothing = { nothing_up };
}

/// A place for the session of this number, which is what the log has of it.
///
/// Contracts see the number and the session.
#[derive(Drop)]
pub struct Place<S: Numbered, B: Room> {
    pub(crate) session: Option<S>,
    pub(crate) logger: Logger<B>,
}

impl<S: Numbered, B: Room> Model for Place<S, B> {
    ghost use Rattle.std.specs.Prelude.{◌≡◌, []};
    ghost use Rattle.hub_places.specs.Sitting.{bare_of};
    ghost use Rattle.hub_places.specs.Seating.{AtHome, Seating};

    ghost Value = { Seating S };

    ghost view = { λ p. record { number = p.logger.number; session = p.session } };

    ghost invariant = { λ p. S.sits B.terms p.logger.number p.logger.next p.session (bare_of p.logger.pass)
        × (p.logger.pass.hands ≡ []) × AtHome p.logger.home p.logger.pass };
}

impl<S: Numbered, B: Room> Place<S, B> {
    /// The place of a slot which had no session. The number is that of nobody, or of whoever comes first.
    pub fn new(number: u64, home: u64, pass: Pass<B>) -> Place<S, B>
        requires fresh { (pass.seen ≡ []) × (pass.told ≡ []) × (pass.hands ≡ []) }
        requires home { AtHome (Some home) pass }
        ensures { result ≡ record { number = number; session = None } }
    {
        Place {
            session: None,
            logger: Logger {
                number,
                next: 0,
                home: Some(home),
                pass,
            },
        }
    }

    /// A place with no session, for calls that are for this one.
    fn lent(&mut self, book: &Book<B>, number: u64) -> Place<S, B>
        ensures same { self.new ≡ self.old }
        ensures empty { result ≡ record { number = number; session = None } }
    {
        Place {
            session: None,
            logger: Logger {
                number,
                next: 0,
                home: None,
                pass: self.logger.pass.note(book),
            },
        }
    }

    /// The number of the session that is there, or was there last.
    pub fn number(&self) -> u64
        ensures { result ≡ self.now.number }
    {
        self.logger.number
    }

    /// The session, if there is one.
    pub fn session(&self) -> &Option<S>
        ensures value { result.now ≡ self.now.session }
        ensures number { ForSome result.now (λ s. S.number_of s ≡ self.now.number) }
    {
        &self.session
    }

    /// How many records the present history has; 0 if there is no session.
    pub fn held(&self) -> usize
        ensures some { (s : _) → self.now.session ≡ Some s → result ≡ S.held_by s }
        ensures none { self.now.session ≡ None → result ≡ 0 }
    {
        match &self.session {
            Some(session) => session.held(),
            None => 0,
        }
    }

    /// The session, if there is one, with its number.
    pub fn into_session(self) -> Option<(u64, S)>
        ensures { ForSome result (λ r. S.number_of r.1 ≡ r.0) }
    {
        let Place { session, logger } = self;
        Some((logger.number, session?))
    }
}

/// What the lock of a slot keeps: its own place, and one with no session for calls that are for another one.
///
/// The second is there before such a call comes, so the others don't clear one in their frame. Contracts see the slot's
/// own.
#[derive(Drop)]
pub struct Places<S: Numbered, B: Room> {
    /// The slot's own.
    pub own: Place<S, B>,
    nobody: Option<Place<S, B>>,
}

impl<S: Numbered, B: Room> Places<S, B> {
    /// The places of a slot whose own is this one.
    pub fn new(own: Place<S, B>) -> Places<S, B>
        ensures { result.own ≡ own }
    {
        Places { own, nobody: None }
    }

    /// The place of the session of this number: the slot's own, or one with no session, if another one is in its own. So a
    /// call for a session that isn't there takes the way of a slot with none.
    #[inline(always)]
    pub fn of(&mut self, book: &Book<B>, number: u64) -> &mut Place<S, B>
        ensures number { result.now.number ≡ number }
        ensures own { self.old.own.number ≡ number → result.now ≡ self.old.own }
        ensures other { self.old.own.number ≢ number → result.now.session ≡ None }
    {
        if self.own.logger.number == number {
            &mut self.own
        } else {
            self.fill(book, number)
        }
    }

    /// A place with no session, since another one is in the slot's own.
    #[cold]
    #[inline(never)]
    fn fill(&mut self, book: &Book<B>, number: u64) -> &mut Place<S, B>
        ensures { result.now ≡ record { number = number; session = None } }
    {
        let nobody = self.own.lent(book, number);
        self.nobody.insert(nobody)
    }
}

/// Whether a session of this number may begin in a place, if one is there or not, of the slot `home`, whose sessions from
/// `next` on were never opened: none is there, it is the slot at `at`, and the number is a new one and has a next.
pub(crate) fn may_begin(is_taken: bool, home: Option<u64>, next: u64, number: u64, at: u64) -> bool
    ensures yes { result ≡ true
        → (is_taken ≡ false) × (home ≡ Some at) × (next ≤ number) × (number + 1 < 2 ^ 64) }
    ensures no { result ≡ false
        → (is_taken ≡ true) ⊎ ((home ≢ Some at) ⊎ ((number < next) ⊎ (2 ^ 64 ≤ number + 1))) }
{
    !is_taken && home == Some(at) && next <= number && number < u64::MAX
}
