//! Routes that are read with no lock: a reader's seat looks at a published table, which has all the
//! orders that this seat had seen or was told of.
//!
//! The orders make one history, the oldest first, which exists in the proofs alone; at run time its
//! length is kept. What a seat knows is a beginning of it. A program begins with `Opened::new`, and
//! whoever opens a `Board` is generic over `Naming` and is called with `Brand`.
#![tactic(auto)]

mod board;
mod change;
mod fault;
mod front;
mod marks;
mod publish;
mod seat;
mod servers;
mod table;
mod writer;

pub use board::Board;
pub use change::RouteChange;
pub use fault::RouteFault;
pub use front::{Naming, Opened};
pub use marks::MARKS;
pub use publish::Publish;
pub use seat::{RouteOrders, RouteReader};
pub use servers::{Found, Servers};
pub use table::{Listing, Operation, Table};
