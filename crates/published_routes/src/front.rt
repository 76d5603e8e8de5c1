//! What is known of the one history of orders.
ghost use Rattle.std.specs.Prelude.{◌≡◌, ◌<◌, ◌^◌, ◌++◌, ◌∷◌, ◌⊎◌, [], true, length, MatchBool};
ghost use mathlib.Core.List.{IsPrefix};
ghost use Rattle.published_routes.specs.Orders.{IsLonger};
ghost use Rattle.published_routes.specs.Rules.{head_of};

use crate::change::RouteChange;
use logbook::{Gain, Offer, Plain, Play, Rule, Seen, Start, Word};
use std::marker::{Brand, Model, PhantomData};

/// The rule of the history: its length is kept in one word.
pub struct Law;

impl Rule<RouteChange, u64> for Law {
    ghost use Rattle.std.specs.Prelude.{[]};
    ghost use base.Fml.{ftrue};
    ghost use Rattle.published_routes.specs.Rules.{IsKept};

    ghost holds = { λ cells log. IsKept cells log };

    ghost first = { [] };

    ghost hinted = { λ n log. Unit {0} };

    ghost shows = { λ log. [] };

    ghost keeps = { λ names log. ftrue };

    ghost moves = { λ ask before after answer. Unit {0} };
}

/// Callers trade nothing.
pub struct Nothing;

impl Gain<RouteChange, u64> for Nothing {
    ghost use base.Fml.{ftrue};

    ghost after = { λ names about answer. ftrue };
}

/// A step that adds an order.
pub struct Add;

impl Play<RouteChange, u64> for Add {
    ghost use Rattle.published_routes.specs.Rules.{Adds};

    ghost then = { Adds };
}

/// What a step asks for: the order.
impl Plain<RouteChange, RouteChange, u64> for Add {
    ghost use Rattle.std.specs.Prelude.{None};

    ghost ask = { λ order. order };

    ghost state = { λ order. None };
}

/// Which history it is. Each call of a program picks it.
pub trait Naming {
    ghost use Rattle.logbook.specs.Pages.{Book};

    ghost book: { Book };
}

impl Naming for Brand {
    ghost book = { record { number = 0; log_name = 0; cells_name = 0 } };
}

/// A history with no orders, which has no name yet.
#[derive(Drop)]
pub struct Opened {
    head: Word<RouteChange, u64, Law>,
    seen: Seen<RouteChange, u64, Law>,
    pub ghost empty: { seen.log ≡ [] },
    pub ghost head_is: { head ≡ head_of seen.book },
}

impl Opened {
    /// A history that is to get a name, for one board.
    pub fn new() -> Opened {
        let (seen, mut first, _second) = Seen::open(Start::alone(), 0, 0);
        Opened {
            head: Word::tracked(0, &mut first),
            seen,
        }
    }

    /// The history's head under a name, and the front that has seen nothing.
    pub(crate) fn named<J: Naming>(self) -> (HistoryLength<J>, Front<J>)
        requires { self.seen.book ≡ J.book }
        ensures { result.1 ≡ [] }
    {
        let Opened { head, seen } = self;
        (
            HistoryLength {
                word: head,
                of: PhantomData,
            },
            Front {
                count: 0,
                seen,
                of: PhantomData,
            },
        )
    }
}

/// The word that all threads share: the length of the history.
#[derive(Drop)]
pub struct HistoryLength<J: Naming> {
    word: Word<RouteChange, u64, Law>,
    of: PhantomData<J>,
    ghost head_is: { word ≡ head_of J.book },
}

/// A beginning of the history that was seen. Contracts see its orders.
#[derive(Drop)]
pub struct Front<J: Naming> {
    count: u64,
    seen: Seen<RouteChange, u64, Law>,
    of: PhantomData<J>,
}

impl<J: Naming> Model for Front<J> {
    ghost use Rattle.std.specs.Prelude.{◌≡◌, List, length};
    ghost use Rattle.route_table.specs.Routes.{Change};

    ghost Value = { List Change };

    ghost view = { λ f. f.seen.log };

    ghost invariant = { λ f. (f.count ≡ length f.seen.log) × (f.seen.book ≡ J.book) };
}

impl<J: Naming> Front<J> {
    /// How many orders it has.
    pub(crate) fn len(&self) -> u64
        ensures { result ≡ length self.now }
    {
        self.count
    }

    /// A copy.
    pub(crate) fn again(&self) -> Front<J>
        ensures { result ≡ self.now }
    {
        Front {
            count: self.count,
            seen: self.seen.again(),
            of: PhantomData,
        }
    }

    /// The longer of two fronts, which the other begins.
    pub(crate) fn longer(&self, other: &Front<J>) -> Front<J>
        ensures one { (result ≡ self.now) ⊎ (result ≡ other.now) }
        ensures this { IsPrefix self.now result }
        ensures that { IsPrefix other.now result }
    {
        let mut both = self.seen.again();
        both.learn(&other.seen);
        if self.count < other.count {
            other.again()
        } else {
            self.again()
        }
    }

    /// Adds an order to all that was seen, and reports whether it did. It did not if the history is
    /// longer, which it has then seen.
    pub(crate) fn add(&mut self, head: &HistoryLength<J>, order: &RouteChange) -> bool
        requires { length self.old < 2 ^ 62 }
        ensures { MatchBool result (self.new ≡ self.old ++ order.now ∷ []) (IsLonger self.old self.new) }
    {
        let mut offer: Offer<RouteChange, u64, Law, Nothing> = self
            .seen
            .plain::<Nothing, RouteChange, Add>(order);
        let mut pen = self.seen.no_pen();
        let count = self.count;
        let found = head
            .word
            .compare_exchange::<Add, Nothing>(
                count,
                count + 1,
                &mut self.seen,
                &mut offer,
                &mut pen,
            );
        self.count = if found == count { count + 1 } else { found };
        found == count
    }
}

/// Whether the first front is known to begin the other. It is, if it isn't the longer one.
pub(crate) fn begins<J: Naming>(front: &Front<J>, other: &Front<J>) -> bool
    ensures { result ≡ true → IsPrefix front.now other.now }
{
    if other.len() < front.len() {
        return false;
    }
    let _longer = front.longer(other);
    true
}

/// Whether the two fronts are known to be one. They are, if they are as long.
pub(crate) fn is_same<J: Naming>(front: &Front<J>, other: &Front<J>) -> bool
    ensures { result ≡ true → front.now ≡ other.now }
{
    begins(front, other) && begins(other, front)
}
