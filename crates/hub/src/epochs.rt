//! Histories that sessions give up while the run goes on.
ghost use Rattle.std.specs.Prelude.{◌≡◌, ◌+◌, IfErr, OnErr, OnOk, Option, vec_capacity};
ghost use Rattle.kept_session.specs.Reached.{Kept};
ghost use Rattle.kept_session.specs.ReachedDown.{KeptDown};
ghost use Rattle.hub_places.specs.Numbering.{KeepsDown, KeepsUp};
ghost use Rattle.hub_steps.specs.Down.{EndsDown};
ghost use Rattle.hub_steps.specs.Up.{Ends};
ghost use Rattle.kept_session.specs.declared.ending.EpochEnd.TheVariants.{Roll};
ghost use Rattle.hub.specs.Giving.{AreGivenUp};

use crate::hub::Hub;
use crate::ledger::HubLedger;
use crate::seat::{ClientSeat, ServerSeat};
use hub_base::Gate;
use kept_session::{EpochEnd, EpochRefused};
use mux_history::{History, SessionId};
use published_routes::Publish;
use std::sync::Wait;

impl<G: Gate + Drop, L: HubLedger, B: Publish<L>> Hub<G, L, B> {
    /// Whether histories of this session have ended that it hasn't given up. It asks for no lock.
    pub fn has_ended(&self, session: SessionId) -> bool {
        match session {
            SessionId::Client(client) => match self.slots.find_down(client) {
                Some(slot) => slot.has_ended(),
                None => false,
            },
            SessionId::Server(server) => match self.slots.find_up(server) {
                Some(slot) => slot.has_ended(),
                None => false,
            },
        }
    }

    /// Has this session give up its histories that have ended, the oldest first, into the list that is handed in: the
    /// number of the first one's epoch. At the end the hub has the others alone, so whoever takes them has to look at
    /// them.
    ///
    /// None, and nothing is done, if there is no such session, or none of its histories has ended, or the list isn't
    /// empty, or has no room. It waits for the session's lock, and takes no memory.
    pub fn take_ended<R: Wait>(
        &self,
        rt: &R,
        session: SessionId,
        ended: &mut Vec<History>,
    ) -> Option<u32>
        ensures { AreGivenUp session ended.old.items (vec_capacity ended.old) ended.new.items result }
    {
        match session {
            SessionId::Client(client) => self
                .slots
                .find_down(client)?
                .take_ended(rt, &self.slots.book, client, ended),
            SessionId::Server(server) => {
                self.slots
                    .find_up(server)?
                    .take_ended(rt, &self.slots.book, server, ended)
            }
        }
    }

    /// Ends the present history of the seat's client while dispatches are held, which all go on. The empty history that
    /// is handed in is the next one, and has room for the limit `history`.
    ///
    /// It comes back if the session is closed, or what it holds would keep more than half of the next history's places,
    /// or its number of epochs has no next one, or memory was refused; then nothing is done. It waits for the session's
    /// lock, and takes memory for the list of its histories alone.
    pub fn roll_client<R: Wait>(
        &self,
        rt: &R,
        seat: &mut ClientSeat<L>,
        fresh: History,
    ) -> Result<(), EpochRefused>
        ensures event { (s : Option KeptDown) × (t : Option KeptDown) × EndsDown s t Roll fresh result
            × KeepsDown seat.old.number s × KeepsDown seat.old.number t }
        ensures ok { OnOk result (seat.new ≡ record seat.old { amount = seat.old.amount + 1 }) }
        ensures err { OnErr result (seat.new ≡ seat.old) }
        ensures spare { IfErr result (λ e. e.fresh ≡ fresh) }
    {
        let mut made = 0u64;
        let client = seat.client();
        let (book, how) = (&self.slots.book, EpochEnd::Roll);
        let result = self
            .down(client)
            .end_epoch(rt, book, client, how, fresh, &mut made);
        seat.seat.count(&mut *self.count.lock(rt), made);
        result
    }

    /// The same of the seat's server.
    pub fn roll_server<R: Wait>(
        &self,
        rt: &R,
        seat: &mut ServerSeat<L>,
        fresh: History,
    ) -> Result<(), EpochRefused>
        ensures event { (s : Option Kept) × (t : Option Kept) × Ends s t Roll fresh result
            × KeepsUp seat.old.number s × KeepsUp seat.old.number t }
        ensures ok { OnOk result (seat.new ≡ record seat.old { amount = seat.old.amount + 1 }) }
        ensures err { OnErr result (seat.new ≡ seat.old) }
        ensures spare { IfErr result (λ e. e.fresh ≡ fresh) }
    {
        let mut made = 0u64;
        let server = seat.server();
        let (book, how) = (&self.slots.book, EpochEnd::Roll);
        let result = self
            .up(server)
            .end_epoch(rt, book, server, how, fresh, &mut made);
        seat.seat.count(&mut *self.count.lock(rt), made);
        result
    }
}
