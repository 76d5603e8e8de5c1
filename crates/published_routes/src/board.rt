//! The published routes that all seats share: readers ask for no lock.
//!
//! A `Board` hands on what its writer does: the clauses of the trait are written again at each type that has it.
ghost use Rattle.std.specs.Prelude.{◌≡◌, ◌^◌, ◌<◌, Err, IsTrue, IfOk, OnOk, OnErr};
ghost use Rattle.route_table.specs.Routes.{set, is_server_list};
ghost use Rattle.published_routes.specs.Orders.{Gave, Removes, HasNoRoute, opening};

use crate::change::RouteChange;
use crate::fault::RouteFault;
use crate::front::{Front, HistoryLength, Naming, Opened};
use crate::publish::Publish;
use crate::seat::{RouteOrders, RouteReader};
use crate::table::{Operation, Table};
use crate::writer::RouteWriter;
use left_right::{Absorb, ReadHandleFactory};
use mux_history::ServerId;
use route_table::Route;
use std::alloc::{AllocError, Global};
use std::marker::Model;
use std::sync::{Mutex, Wait};

/// The published routes, over two copies of the table. Contracts see the orders that made the routes
/// which it was opened with.
#[derive(Drop)]
pub struct Board<J: Naming, R: Wait + Drop>
where
    Table<J>: Absorb<Option<Operation<J>>, State = [RouteChange; 0]>,
{
    head: HistoryLength<J>,
    opening: Front<J>,
    readers: ReadHandleFactory<Table<J>>,
    writer: Mutex<RouteWriter<J, R>>,
}

impl<J: Naming, R: Wait + Drop> Model for Board<J, R>
where
    Table<J>: Absorb<Option<Operation<J>>, State = [RouteChange; 0]>,
{
    ghost use Rattle.std.specs.Prelude.{List};
    ghost use Rattle.route_table.specs.Routes.{Change};

    ghost Value = { List Change };

    ghost view = { λ s. s.opening };
}

impl<J: Naming, R: Wait + Drop> Board<J, R>
where
    Table<J>: Absorb<Option<Operation<J>>, State = [RouteChange; 0]>,
{
    /// Publishes the routes of a configuration, for at most so many readers at once. A route with a
    /// list of servers that no route may have is passed over; a configuration that was read has none.
    pub fn open(
        alloc: Global,
        rt: R,
        opened: Opened,
        routes: &[Route],
        readers: usize,
    ) -> Result<Board<J, R>, AllocError>
        requires name { opened.seen.book ≡ J.book }
        requires readers { (0 < readers) × (readers < 2 ^ 32) }
        ensures { IfOk result (λ b. b ≡ opening routes.now) }
    {
        let (head, front) = opened.named::<J>();
        let writer = RouteWriter::new(alloc, rt, &head, front, routes, readers)?;
        let readers = writer.readers()?;
        Ok(Board {
            head,
            opening: writer.known(),
            readers,
            writer: Mutex::new(writer),
        })
    }
}

impl<J: Naming, R: Wait + Drop> Publish<J> for Board<J, R>
where
    Table<J>: Absorb<Option<Operation<J>>, State = [RouteChange; 0]>,
{
    ghost first_orders = { λ b. b };

    fn reader(&self) -> Result<RouteReader<J>, AllocError> {
        let reader = self.readers.handle()?;
        Ok(RouteReader::new(reader, self.opening.again()))
    }

    fn orders(&self) -> RouteOrders<J> {
        RouteOrders {
            front: self.opening.again(),
        }
    }

    fn route<W: Wait>(
        &self,
        rt: &W,
        alloc: Global,
        seat: &mut RouteOrders<J>,
        dst: &[u8],
        servers: &[ServerId],
    ) -> Result<(), AllocError> {
        self.writer
            .lock(rt)
            .route(alloc, &self.head, seat, dst, servers)
    }

    fn unroute<W: Wait>(
        &self,
        rt: &W,
        alloc: Global,
        seat: &mut RouteOrders<J>,
        dst: &[u8],
    ) -> Result<(), RouteFault> {
        self.writer.lock(rt).unroute(alloc, &self.head, seat, dst)
    }
}
