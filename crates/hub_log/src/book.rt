//! The table that the log lives on, and passes to it.
ghost use Rattle.std.specs.Prelude.{◌≡◌, ◌<◌, IfOk, List, []};
ghost use Rattle.hub_log.specs.Moves.{Move};
ghost use Rattle.hub_log.specs.Views.{Added, AddedAll, Adds, AddsAll, Looked, May};
ghost use Rattle.hub_log.specs.Rule.{empty_handed, first_of, first_view, joined, note_of, others_of, picked_of, unpicked_of, values_of};

use crate::known::Known;
use crate::terms::Terms;
use atomic_table::{Join, Play, Seat, Split, Table, TableRule};
use std::alloc::{AllocError, Global};
use std::marker::{Brand, Model, PhantomData};

/// The rule: there is one log, of which all that the passes know is so.
struct Law;

impl TableRule<(), Known, Terms> for Law {
    ghost use Rattle.hub_log.specs.Rule.{Holds, first_view};

    ghost holds = { Holds };

    ghost first = { first_view };
}

/// Which log it is, and of what hub. Each call of a program picks it.
pub trait Room {
    ghost use Rattle.atomic_table.specs.Seated.{TableId};
    ghost use Rattle.hub_log.specs.declared.terms.Terms.{Terms};

    ghost table: { TableId };

    ghost terms: { Terms };
}

impl Room for Brand {
    ghost use Rattle.std.specs.Prelude.{[]};

    ghost table = { record { words = 0; slots = 0; views_name = 0; atom = 0; block = 0; offset = 0; slot_names = [] } };

    ghost terms = { record {
      boot = 0;
      limits = record { max_frame = 0; window = 0; out = 0; history = 0; retries = 0 };
      server_limits = record { max_frame = 0; window = 0; out = 0; history = 0; retries = 0 };
      clients = 0;
      servers = 0;
    } };
}

/// What is to be so of a pass once it has added moves, by what the call lends.
pub trait Goal<X> {
    ghost use Rattle.hub_log.specs.Views.{View};

    ghost goal: { X → View → Type 0 };
}

/// What is said of the move that a call adds, by what the pass knows before and by what the call lends.
/// The move itself exists in proofs alone.
pub trait Asks<X> {
    ghost use Rattle.hub_log.specs.Moves.{Move};
    ghost use Rattle.hub_log.specs.Views.{View};

    ghost ask: { View → X → Move → Type 0 };
}

/// The same of several moves, the first one first.
pub trait AsksAll<X> {
    ghost use Rattle.std.specs.Prelude.{List};
    ghost use Rattle.hub_log.specs.Moves.{Move};
    ghost use Rattle.hub_log.specs.Views.{View};

    ghost ask: { View → X → List Move → Type 0 };
}

/// Which claims are cut off, by what the pass knows and by what the call lends.
pub trait Picks<X> {
    ghost use Rattle.std.specs.Prelude.{Bool};
    ghost use Rattle.hub_log.specs.Moves.{Claim};
    ghost use Rattle.hub_log.specs.Views.{View};

    ghost picks: { View → X → Claim → Bool };
}

/// What is said of the move that one call adds. Each call picks it, in its proof.
trait Chosen {
    ghost use Rattle.hub_log.specs.Moves.{Move};

    ghost is: { Move → Type 0 };
}

impl Chosen for Brand {
    ghost is = { λ m. Unit {0} };
}

trait ChosenAll {
    ghost use Rattle.std.specs.Prelude.{List};
    ghost use Rattle.hub_log.specs.Moves.{Move};

    ghost are: { List Move → Type 0 };
}

impl ChosenAll for Brand {
    ghost are = { λ ms. Unit {0} };
}

trait Picked {
    ghost use Rattle.std.specs.Prelude.{Bool};
    ghost use Rattle.hub_log.specs.Moves.{Claim};

    ghost picks: { Claim → Bool };
}

impl Picked for Brand {
    ghost use Rattle.std.specs.Prelude.{false};

    ghost picks = { λ c. false };
}

/// A step that adds a move.
struct Add<B: Room, D: Chosen> {
    of: PhantomData<(B, D)>,
}

impl<B: Room, D: Chosen> Play<(), Known> for Add<B, D> {
    ghost use Rattle.hub_log.specs.Rule.{AddsOne};

    ghost then = { AddsOne B.terms D.is };
}

/// A step that adds several moves.
struct AddAll<B: Room, D: ChosenAll> {
    of: PhantomData<(B, D)>,
}

impl<B: Room, D: ChosenAll> Play<(), Known> for AddAll<B, D> {
    ghost use Rattle.hub_log.specs.Rule.{AddsMany};

    ghost then = { AddsMany B.terms D.are };
}

/// A step that sees the log as it is.
struct Look<B: Room> {
    of: PhantomData<B>,
}

impl<B: Room> Play<(), Known> for Look<B> {
    ghost use Rattle.hub_log.specs.Rule.{Looks};

    ghost then = { Looks B.terms };
}

/// A pass that has seen as much.
struct Note;

impl Split<Known> for Note {
    ghost use Rattle.hub_log.specs.Rule.{note_of};

    ghost left = { λ v. v };

    ghost right = { note_of };
}

/// All that is in hand.
struct Values;

impl Split<Known> for Values {
    ghost use Rattle.hub_log.specs.Rule.{empty_handed, values_of};

    ghost left = { empty_handed };

    ghost right = { values_of };
}

/// Some of what is in hand.
struct Cut<D: Picked> {
    of: PhantomData<D>,
}

impl<D: Picked> Split<Known> for Cut<D> {
    ghost use Rattle.hub_log.specs.Rule.{picked_of, unpicked_of};

    ghost left = { unpicked_of D.picks };

    ghost right = { picked_of D.picks };
}

/// The first of its slots.
struct First;

impl Split<Known> for First {
    ghost use Rattle.hub_log.specs.Rule.{first_of, others_of};

    ghost left = { others_of };

    ghost right = { first_of };
}

/// Takes in what another has seen, and what it has in hand.
struct Takes;

impl Join<Known> for Takes {
    ghost use Rattle.hub_log.specs.Rule.{joined, spent};

    ghost both = { joined };

    ghost spent = { spent };
}

type LogTable = Table<(), Known, Terms, Law, Global>;

/// An empty log, which has no name yet, and its first pass.
#[derive(Drop)]
pub struct Laid {
    table: LogTable,
    seat: Seat<(), Known>,
    ghost words: { table.shared.table_id.words ≡ 1 },
    ghost same: { seat.table_id ≡ table.shared.table_id },
    ghost me: { seat.me ≡ (first_view table.shared.key, []) },
}

impl Laid {
    /// A log that is to get a name, for one hub.
    pub fn new(alloc: Global, terms: &Terms) -> Result<Laid, AllocError>
        ensures { IfOk result (λ l. l.table.shared.key ≡ terms.now) }
    {
        let (table, seat) = Table::of_words(alloc, &[0], terms)?;
        Ok(Laid { table, seat })
    }

    /// The log under a name, and its first pass, which has each slot of the hub.
    pub fn named<B: Room>(self) -> (Book<B>, Pass<B>)
        requires table { self.table.shared.table_id ≡ B.table }
        requires terms { self.table.shared.key ≡ B.terms }
        ensures { result.1 ≡ first_view B.terms }
    {
        let Laid { table, seat } = self;
        (
            Book {
                table,
                of: PhantomData,
            },
            Pass {
                seat,
                of: PhantomData,
            },
        )
    }
}

/// The log of a hub. Its table has one word, which nobody writes.
#[derive(Drop)]
pub struct Book<B: Room> {
    table: LogTable,
    of: PhantomData<B>,
    ghost words: { table.shared.table_id.words ≡ 1 },
    ghost is: { table.shared.table_id ≡ B.table },
    ghost terms: { table.shared.key ≡ B.terms },
}

/// What its holder knows of the log, and what it may add to it. It has no bytes, and can't be copied.
#[derive(Drop)]
pub struct Pass<B: Room> {
    seat: Seat<(), Known>,
    of: PhantomData<B>,
}

impl<B: Room> Model for Pass<B> {
    ghost use Rattle.std.specs.Prelude.{◌≡◌, []};
    ghost use Rattle.hub_log.specs.Views.{View};

    ghost Value = { View };

    ghost view = { λ p. p.seat.me.0 };

    ghost invariant = { λ p. (p.seat.table_id ≡ B.table) × (p.seat.me.1 ≡ []) };
}

impl<B: Room> Pass<B> {
    /// Adds a move to the log.
    pub fn add<X, M: Asks<X>>(&mut self, book: &Book<B>, about: &X)
        requires { (m : Move) × M.ask self.old about.now m × Adds B.terms self.old m }
        ensures { (m : Move) × M.ask self.old about.now m × Added B.terms m self.old self.new }
    {
        self.add_chosen::<X, Brand>(book, about);
    }

    fn add_chosen<X, D: Chosen>(&mut self, book: &Book<B>, _about: &X)
        requires { (m : Move) × D.is m × Adds B.terms self.old m }
        ensures { (m : Move) × D.is m × Added B.terms m self.old self.new }
    {
        book.table.shared.load::<Add<B, D>>(&mut self.seat, 0);
    }

    /// Adds several moves to the log, by one load.
    pub fn add_all<X, M: AsksAll<X>>(&mut self, book: &Book<B>, about: &X)
        requires { (ms : List Move) × M.ask self.old about.now ms × AddsAll B.terms self.old ms }
        ensures { (ms : List Move) × M.ask self.old about.now ms × AddedAll B.terms ms self.old self.new }
    {
        self.add_chosen_all::<X, Brand>(book, about);
    }

    fn add_chosen_all<X, D: ChosenAll>(&mut self, book: &Book<B>, _about: &X)
        requires { (ms : List Move) × D.are ms × AddsAll B.terms self.old ms }
        ensures { (ms : List Move) × D.are ms × AddedAll B.terms ms self.old self.new }
    {
        book.table.shared.load::<AddAll<B, D>>(&mut self.seat, 0);
    }

    /// Adds moves to the log, by one load, by which the goal becomes so.
    pub fn reach<X, G: Goal<X>>(&mut self, book: &Book<B>, about: &X)
        requires { May B.terms self.old (λ w. G.goal about.now w) }
        ensures { G.goal about.now self.new }
    {
        self.add_chosen_all::<X, Brand>(book, about);
    }

    /// Sees the log as it is.
    pub fn look(&mut self, book: &Book<B>)
        ensures { Looked B.terms self.old self.new }
    {
        book.table.shared.load::<Look<B>>(&mut self.seat, 0);
    }

    /// A pass that has seen as much, and may add nothing.
    pub fn note(&mut self, book: &Book<B>) -> Pass<B>
        ensures same { self.new ≡ self.old }
        ensures note { result ≡ note_of self.old }
    {
        let seat = book.table.shared.split_seat::<Note>(&mut self.seat);
        Pass {
            seat,
            of: PhantomData,
        }
    }

    /// All that it has in hand, cut off.
    pub fn value(&mut self, book: &Book<B>) -> Pass<B>
        ensures rest { self.new ≡ empty_handed self.old }
        ensures value { result ≡ values_of self.old }
    {
        let seat = book.table.shared.split_seat::<Values>(&mut self.seat);
        Pass {
            seat,
            of: PhantomData,
        }
    }

    /// Those claims that a test picks, cut off.
    pub fn cut<X, M: Picks<X>>(&mut self, book: &Book<B>, about: &X) -> Pass<B>
        ensures rest { self.new ≡ unpicked_of (M.picks self.old about.now) self.old }
        ensures cut { result ≡ picked_of (M.picks self.old about.now) self.old }
    {
        self.cut_picked::<X, Brand>(book, about)
    }

    fn cut_picked<X, D: Picked>(&mut self, book: &Book<B>, _about: &X) -> Pass<B>
        ensures rest { self.new ≡ unpicked_of D.picks self.old }
        ensures cut { result ≡ picked_of D.picks self.old }
    {
        let seat = book.table.shared.split_seat::<Cut<D>>(&mut self.seat);
        Pass {
            seat,
            of: PhantomData,
        }
    }

    /// The first of its slots, cut off.
    pub fn first(&mut self, book: &Book<B>) -> Pass<B>
        requires { self.old.low < self.old.high }
        ensures rest { self.new ≡ others_of self.old }
        ensures first { result ≡ first_of self.old }
    {
        let seat = book.table.shared.split_seat::<First>(&mut self.seat);
        Pass {
            seat,
            of: PhantomData,
        }
    }

    /// Takes in what another has seen, and what it has in hand.
    pub fn join(&mut self, book: &Book<B>, other: Pass<B>)
        ensures { self.new ≡ joined self.old other }
    {
        let Pass { seat, of: _ } = other;
        book.table.shared.join_seat::<Takes>(&mut self.seat, seat);
    }
}
