//! What published routes offer.
//!
//! `Board` and the writer have the clauses of these calls once more, as `board` says.
ghost use Rattle.std.specs.Prelude.{◌≡◌, List, Err, IsTrue, IfOk, OnOk, OnErr};
ghost use Rattle.route_table.specs.Routes.{Change, set, is_server_list};
ghost use Rattle.published_routes.specs.Orders.{Gave, Removes, HasNoRoute};

use crate::fault::RouteFault;
use crate::front::Naming;
use crate::seat::{RouteOrders, RouteReader};
use mux_history::ServerId;
use std::alloc::{AllocError, Global};
use std::sync::Wait;

/// Published routes. `Board` is the one kind; whoever holds one is generic over this trait, which
/// keeps the bounds of `Board` out of its sight.
pub trait Publish<J: Naming>: Drop {
    /// The orders that made the routes which it was opened with.
    ghost first_orders: { Self → List Change };

    /// A reader that knows the orders which the board was opened with. It asks for no lock. An error
    /// says that the table has no reader to give; nothing was done then.
    fn reader(&self) -> Result<RouteReader<J>, AllocError>
        ensures { IfOk result (λ s. s ≡ first_orders self.now) };

    /// What whoever gives orders knows at first: the orders which the board was opened with.
    fn orders(&self) -> RouteOrders<J>
        ensures { result ≡ first_orders self.now };

    /// Gives a destination these servers, 1 to 64, none twice, in the place of any that it has. It
    /// may wait for another order, and for readers.
    ///
    /// Out of memory is the one error. If the order couldn't be published, readers go on with the
    /// routes as they were, and the next order publishes this one first; else nothing of it is kept.
    fn route<W: Wait>(
        &self,
        rt: &W,
        alloc: Global,
        seat: &mut RouteOrders<J>,
        dst: &[u8],
        servers: &[ServerId],
    ) -> Result<(), AllocError>
        requires { IsTrue (is_server_list servers.now) }
        ensures ok { OnOk result (Gave seat.old (set dst.now servers.now) seat.new) }
        ensures err { OnErr result (seat.new ≡ seat.old) };

    /// Takes a destination's servers away. It may wait for another order, and for readers.
    ///
    /// `NoRoute` comes only if the published routes, with all orders, have none to this destination.
    /// Of `Memory` the same holds as for `route`.
    fn unroute<W: Wait>(
        &self,
        rt: &W,
        alloc: Global,
        seat: &mut RouteOrders<J>,
        dst: &[u8],
    ) -> Result<(), RouteFault>
        ensures ok { OnOk result (Removes seat.old dst.now seat.new) }
        ensures no_route { result ≡ Err (RouteFault.NoRoute) → HasNoRoute seat.old dst.now }
        ensures err { OnErr result (seat.new ≡ seat.old) };
}
