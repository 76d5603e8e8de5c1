//! The table of routes, with the orders that made it.
ghost use Rattle.std.specs.Prelude.{◌≡◌, ◌+◌, ◌-◌, [], ◌∷◌, ◌++◌, true, false, length, map, reverse, take, IfOk, IfSome, IsTrue, MatchResult, Option, Some, None};
ghost use Rattle.std.specs.Option.{option_map};
ghost use mathlib.Core.List.{IsPrefix};
ghost use Rattle.route_table.specs.Routes.{Change, LeadsTo, is_server_list, routing};
ghost use Rattle.published_routes.specs.Marks.{mark_in, marked};
ghost use Rattle.published_routes.specs.Orders.{route_in, after};

use crate::change::RouteChange;
use crate::front::{Front, Naming, begins};
use crate::marks::Marks;
use left_right::Absorb;
use mux_history::ServerId;
use route_table::{Routes, Routing};
use std::alloc::{AllocError, Global};
use std::marker::Model;

/// An order, with the history up to it. Contracts see that history.
#[derive(Drop)]
pub struct Operation<J: Naming> {
    order: RouteChange,
    front: Front<J>,
}

impl<J: Naming> Model for Operation<J> {
    ghost use Rattle.std.specs.Prelude.{◌≡◌, ◌-◌, List, [], ◌∷◌, ◌++◌, length, take};
    ghost use Rattle.route_table.specs.Routes.{Change};

    ghost Value = { List Change };

    ghost view = { λ s. s.front };

    ghost invariant = { λ s. take (length s.front - 1) s.front ++ s.order ∷ [] ≡ s.front };
}

impl<J: Naming> Operation<J> {
    pub(crate) fn new(order: RouteChange, before: &Front<J>, front: Front<J>) -> Operation<J>
        requires { front ≡ before.now ++ order ∷ [] }
        ensures { result ≡ front }
    {
        let _before = before;
        Operation { order, front }
    }
}

/// What a table has.
#[derive(Drop)]
pub struct Listing {
    /// Each destination that has servers, with them.
    pub routes: Vec<Routing>,
    /// The destinations that have a mark, in the order of their marks, also those that have no servers any more.
    pub marked: Vec<Vec<u8>>,
}

/// The routes after a history of orders, which is what contracts see, and the marks of destinations.
#[derive(Drop)]
pub struct Table<J: Naming> {
    alloc: Global,
    routes: Routes,
    marks: Marks,
    front: Front<J>,
}

impl<J: Naming> Model for Table<J> {
    ghost use Rattle.std.specs.Prelude.{◌≡◌, List, reverse};
    ghost use Rattle.route_table.specs.Routes.{Change, LeadsTo};
    ghost use Rattle.published_routes.specs.Marks.{marked};

    ghost Value = { List Change };

    ghost view = { λ s. s.front };

    ghost invariant = { λ s. LeadsTo (reverse s.front) s.routes × (s.marks ≡ marked s.front) };
}

impl<J: Naming> Table<J> {
    pub(crate) fn new(alloc: Global, front: Front<J>) -> Result<Table<J>, AllocError>
        requires { front ≡ [] }
        ensures { IfOk result (λ t. t ≡ []) }
    {
        Ok(Table {
            alloc,
            routes: Routes::new(alloc),
            marks: Marks::new(alloc)?,
            front,
        })
    }

    /// A destination's servers.
    pub(crate) fn find(&self, dst: &[u8]) -> Option<&[ServerId]>
        ensures value { option_map (λ s. s.now) result ≡ route_in dst.now self.now }
        ensures servers { IfSome result (λ s. IsTrue (is_server_list s.now)) }
    {
        self.routes.find(dst)
    }

    /// A destination's mark. None if it has none.
    pub(crate) fn mark(&self, dst: &[u8]) -> Option<u8>
        ensures { result ≡ mark_in dst.now self.now }
    {
        self.marks.of(dst)
    }

    /// All that it has. Out of memory is the one error.
    pub(crate) fn list(&self, alloc: Global) -> Result<Listing, AllocError>
        ensures routes { IfOk result (λ l. LeadsTo (reverse self.now) (map routing l.routes.items)) }
        ensures marked { IfOk result (λ l. map (λ d. d.items) l.marked.items ≡ marked self.now) }
    {
        Ok(Listing {
            routes: self.routes.list(alloc)?,
            marked: self.marks.list(alloc)?,
        })
    }

    pub(crate) fn front(&self) -> &Front<J>
        ensures { result.now ≡ self.now }
    {
        &self.front
    }

    /// Carries out an order, if it is the next one.
    pub(crate) fn take_in(&mut self, operation: &Operation<J>) -> Result<(), AllocError>
        ensures { MatchResult result (λ _. self.new ≡ operation.now) (λ _. self.new ≡ self.old) }
    {
        if !follows(&self.front, &operation.front) {
            return Err(AllocError);
        }
        let Table {
            alloc,
            routes,
            marks,
            front,
        } = self;
        let given = operation.order.given(*alloc)?;
        operation.order.carry_out(*alloc, routes)?;
        marks.note(given);
        *front = operation.front.again();
        Ok(())
    }
}

fn follows<J: Naming>(front: &Front<J>, other: &Front<J>) -> bool
    ensures { result ≡ true → IsPrefix front.now other.now × (length other.now ≡ length front.now + 1) }
{
    begins(front, other) && other.len() - front.len() == 1
}

/// None changes nothing: it is written at the beginning, so that the list of operations has its room.
impl<J: Naming> Absorb<Option<Operation<J>>> for Table<J> {
    // A clause reads an array as a list, of any length.
    type State = [RouteChange; 0];

    ghost state = { λ s. s };

    ghost applied = { after };

    fn absorb_first(
        &mut self,
        operation: &Option<Operation<J>>,
        _other: &Table<J>,
    ) -> Result<(), AllocError> {
        match operation {
            Some(operation) => self.take_in(operation),
            None => Ok(()),
        }
    }
}
