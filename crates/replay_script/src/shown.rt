//! How printed lines write sessions, names and values in hand.

use core_world::{Hand, HandKind};
use mux_history::{Name, SessionId};
use std::fmt;

/// `c1` or `s1`
#[derive(Clone, Copy, Debug)]
pub struct ShownSession(pub SessionId);

/// Boot, client and sequence number: `1.1.1`
#[derive(Clone, Copy, Debug)]
pub struct ShownName(pub Name);

/// `h1 ticket 1.1.1`, or `h2 placed 1.1.1 s1 2` with the server and the tag there
#[derive(Clone, Copy, Debug)]
pub struct ShownHand(pub Hand);

impl fmt::Display for ShownSession {
    fn fmt<W: fmt::Write>(&self, f: &mut fmt::Formatter<W>) -> fmt::Result {
        match self.0 {
            SessionId::Client(number) => write!(f, "c{number}"),
            SessionId::Server(number) => write!(f, "s{number}"),
        }
    }
}

impl fmt::Display for ShownName {
    fn fmt<W: fmt::Write>(&self, f: &mut fmt::Formatter<W>) -> fmt::Result {
        let Name { boot, client, seq } = self.0;
        write!(f, "{boot}.{client}.{seq}")
    }
}

impl fmt::Display for ShownHand {
    fn fmt<W: fmt::Write>(&self, f: &mut fmt::Formatter<W>) -> fmt::Result {
        let Hand {
            number,
            kind,
            name,
            server,
            tag,
        } = self.0;
        let kind = kind_word(kind);
        let name = ShownName(name);
        write!(f, "h{number} {kind} {name}")?;
        match server {
            Some(server) => write!(f, " s{server} {tag}"),
            None => Ok(()),
        }
    }
}

fn kind_word(kind: HandKind) -> &'static str {
    match kind {
        HandKind::Ticket => "ticket",
        HandKind::Placed => "placed",
        HandKind::Settled => "settled",
        HandKind::Recall => "recall",
        HandKind::Lost => "lost",
    }
}
