//! A ticket goes to the least loaded server of its destination that takes it.

use crate::command::Purpose;
use crate::end::Stop;
use crate::events::spend_event;
use crate::printer::Printer;
use crate::router::Router;
use arrayvec::ArrayVec;
use balancer::order;
use core_world::{EventRefusal, HandKind, Note};
use mux_history::ServerId;
use route_table::Routes;
use std::io::Write;

/// Servers, each with its load.
type Candidates = ArrayVec<(ServerId, u32), 64>;

/// Offers a ticket to the servers of its destination in their order, up to the first that takes it,
/// and notes its place. If none takes it, it is nacked; if there is no route, `no route` goes out.
pub fn place<W: Write + Drop>(
    router: &mut Router,
    routes: &Routes,
    hand: u64,
    printer: &mut Printer<W>,
) -> Result<(), Stop> {
    match router.kind(hand) {
        Some(HandKind::Ticket) => {}
        Some(_) => return printer.refused(EventRefusal::WrongHand),
        None => return printer.refused(EventRefusal::NoSuchHand),
    }
    let Some(listed) = candidates(router, routes, hand) else {
        return spend(router, hand, Purpose::Unroute, printer);
    };
    let candidates = listed.as_slice();
    for place in order(candidates).as_slice() {
        let (server, _) = candidates[*place];
        if let Some(placed) = offer(router, hand, server, printer)? {
            return spend(router, placed, Purpose::Note, printer);
        }
    }
    spend(router, hand, Purpose::Nack, printer)
}

// The servers of a ticket's destination. None if it has no route.
fn candidates(router: &Router, routes: &Routes, hand: u64) -> Option<Candidates> {
    let servers = routes.find(router.dst(hand)?)?;
    let mut candidates = ArrayVec::new();
    for server in servers {
        candidates.push((*server, router.load(*server)));
    }
    Some(candidates)
}

// The number of the value that stands for a dispatch that was sent. None if the server refused it.
fn offer<W: Write + Drop>(
    router: &mut Router,
    hand: u64,
    server: ServerId,
    printer: &mut Printer<W>,
) -> Result<Option<u64>, Stop> {
    let event = spend_event(hand, Purpose::Offer(server), router.now);
    let note = router.happen(event, printer)?;
    router.send(printer)?;
    match note {
        Some(
            Note::Told {
                told: _,
                hand: Some(placed),
            },
        ) => Ok(Some(placed.number)),
        _ => Ok(None),
    }
}

/// A value is used.
pub fn spend<W: Write + Drop>(
    router: &mut Router,
    hand: u64,
    by: Purpose,
    printer: &mut Printer<W>,
) -> Result<(), Stop> {
    let event = spend_event(hand, by, router.now);
    router.happen(event, printer)?;
    router.send(printer)
}
