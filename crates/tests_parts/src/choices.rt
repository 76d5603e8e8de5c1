//! The choice of a server: the order of candidates, and the offers made in it.

use arrayvec::ArrayVec;
use balancer::{Loads, Offerer, choose, order, place};
use bytes::Bytes;
use mux_frame::Frame;
use mux_history::{Name, ServerId};
use mux_message::{MessageKind, parse};
use translate_book::{Dispatch, OfferRefusal, Placed, Ticket};

const NAME: Name = Name {
    boot: 1,
    client: 1,
    seq: 7,
};

const CANDIDATES: &[(ServerId, u32)] = &[(10, 2), (20, 1), (30, 1)];

fn ticket() -> Option<Ticket> {
    let body = b"\x00\x00\x00\x04/s/a\x00\x00hi";
    let message = parse(Frame::read(2, 5, Bytes::from_static(body))).ok()?;
    if let MessageKind::Tdispatch = message.kind() {
        Some(Ticket::new(NAME, Dispatch::new(message), 0))
    } else {
        None
    }
}

/// Refuses some offers, then takes each, and notes to whom they were made.
#[derive(Drop)]
struct Busy {
    refusals: usize,
    asked: ArrayVec<ServerId, 4>,
}

impl Offerer for Busy {
    ghost use Rattle.std.specs.Prelude.{⊤};

    ghost offers = { λ before server ticket result after. ⊤ };

    fn offer(
        &mut self,
        server: ServerId,
        ticket: Ticket,
    ) -> Result<Placed, (OfferRefusal, Ticket)> {
        let _is_noted = self.asked.try_push(server);
        if self.asked.len() <= self.refusals {
            return Err((OfferRefusal::Full, ticket));
        }
        Ok(Placed::new(ticket.name(), server, 2))
    }
}

/// Shows the loads of so many servers.
#[derive(Drop)]
struct Shown {
    loads: &'static [u32],
}

impl Loads for Shown {
    ghost use Rattle.std.specs.Prelude.{⊤};

    ghost reads = { λ shown server read. ⊤ };

    fn load(&self, server: ServerId) -> Option<u32> {
        self.loads.get(server as usize).copied()
    }
}

/// Loads, servers, the one left out, and the choice with its load.
type Choice = (
    &'static [u32],
    &'static [ServerId],
    Option<ServerId>,
    Option<(ServerId, u32)>,
);

const CHOICES: &[Choice] = &[
    (&[3, 1, 2], &[0, 1, 2], None, Some((1, 1))),
    (&[3, 1, 2], &[0, 1, 2], Some(1), Some((2, 2))),
    (&[3, 1, 2], &[0, 2], Some(1), Some((2, 2))),
    (&[5, 5, 5], &[2, 0, 1], None, Some((2, 5))),
    (&[5, 5, 5], &[2, 0, 1], Some(2), Some((0, 5))),
    (&[u32::MAX], &[0], None, Some((0, u32::MAX))),
    (&[0, 0], &[7, 1], None, Some((1, 0))),
    (&[0, 0], &[1], Some(1), None),
    (&[0, 0], &[2, 3], None, None),
    (&[0, 0], &[], None, None),
];

#[test]
fn least_of_the_others(rt: HostRuntime) {
    for (place, (loads, servers, but, choice)) in CHOICES.iter().enumerate() {
        let shown = Shown { loads };
        assert!(rt; choose(&shown, servers, *but) == *choice, "{place}");
    }
}

#[test]
fn row_20(rt: HostRuntime) {
    assert_eq!(rt; order(CANDIDATES).as_slice(), [1, 2, 0].as_slice());
    assert!(rt; order(&[]).as_slice().is_empty());
}

#[test]
fn least_load_first(rt: HostRuntime) {
    let orders: [(&[(ServerId, u32)], &[usize]); 4] = [
        (&[(9, 4)], &[0]),
        (&[(3, 5), (2, 5), (1, 5)], &[0, 1, 2]),
        (&[(1, 3), (2, 2), (3, 1), (4, 0)], &[3, 2, 1, 0]),
        (
            &[(1, u32::MAX), (2, 0), (3, u32::MAX), (4, 0)],
            &[1, 3, 0, 2],
        ),
    ];
    for (candidates, places) in orders {
        assert_eq!(rt; order(candidates).as_slice(), places);
    }
    let most = [(7, 1); 64];
    let order = order(&most);
    assert_eq!(rt; order.as_slice().len(), 64);
    for (i, place) in order.as_slice().iter().enumerate() {
        assert_eq!(rt; *place, i);
    }
}

/// How many offers are refused, to whom they are made, and where the dispatch is placed.
const TRIES: &[(usize, &[ServerId], Option<ServerId>)] = &[
    (0, &[20], Some(20)),
    (1, &[20, 30], Some(30)),
    (2, &[20, 30, 10], Some(10)),
    (3, &[20, 30, 10], None),
];

/// Where a dispatch is placed. Its name stays.
fn placed_on(ticket: Ticket, busy: &mut Busy) -> Option<Option<ServerId>> {
    match place(ticket, CANDIDATES, busy) {
        Ok(placed) if placed.name() == NAME => Some(Some(placed.server())),
        Err(ticket) if ticket.name() == NAME => Some(None),
        _ => None,
    }
}

#[test]
fn offers_up_to_the_first_that_is_taken(rt: HostRuntime) {
    for (refusals, asked, server) in TRIES {
        let ticket = ticket().expect(&rt, "a Tdispatch");
        let mut busy = Busy {
            refusals: *refusals,
            asked: ArrayVec::new(),
        };
        assert!(rt; placed_on(ticket, &mut busy) == Some(*server), "{refusals}");
        assert_eq!(rt; busy.asked.as_slice(), *asked);
    }
}
