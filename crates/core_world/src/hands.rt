//! Values in hand.

ghost use Rattle.std.specs.Prelude.{◌≡◌};
ghost use Rattle.core_world.specs.Hands.{held_of, shown};

use mux_history::{Name, ServerId};
use translate_book::{Lost, Placed, Recall, Settled, Ticket};

/// A value that a session gave, and that a step uses up.
#[derive(Drop)]
pub enum Held {
    Ticket(Ticket),
    Placed(Placed),
    Settled(Settled),
    Recall(Recall),
    Lost(Lost),
}

/// The kinds of values.
#[derive(Clone, Copy, Debug, PartialEq, Eq)]
pub enum HandKind {
    Ticket,
    Placed,
    Settled,
    Recall,
    Lost,
}

/// What a value in hand is. Only a placed dispatch and a recall have a server, and a tag there; the
/// tag of others is 0.
#[derive(Clone, Copy, Debug, PartialEq, Eq)]
pub struct Hand {
    pub number: u64,
    pub kind: HandKind,
    pub name: Name,
    pub server: Option<ServerId>,
    pub tag: u32,
}

impl Held {
    /// What it is, under this number.
    pub fn shown(&self, number: u64) -> Hand
        ensures { result ≡ shown (record { number = number; held = held_of self.now }) }
    {
        match self {
            Held::Ticket(ticket) => unplaced(number, HandKind::Ticket, ticket.name()),
            Held::Placed(placed) => Hand {
                number,
                kind: HandKind::Placed,
                name: placed.name(),
                server: Some(placed.server()),
                tag: placed.tag(),
            },
            Held::Settled(settled) => unplaced(number, HandKind::Settled, settled.name()),
            Held::Recall(recall) => Hand {
                number,
                kind: HandKind::Recall,
                name: recall.name(),
                server: Some(recall.server()),
                tag: recall.tag(),
            },
            Held::Lost(lost) => unplaced(number, HandKind::Lost, lost.name()),
        }
    }
}

fn unplaced(number: u64, kind: HandKind, name: Name) -> Hand
    ensures { result ≡ record { number = number; kind = kind; name = name; server = None; tag = 0 } }
{
    Hand {
        number,
        kind,
        name,
        server: None,
        tag: 0,
    }
}
