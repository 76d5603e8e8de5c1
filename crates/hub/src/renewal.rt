//! Slots that serve one session after another.
//!
//! Clients and servers have twins here, each under the words of that side.
ghost use Rattle.std.specs.Prelude.{◌≡◌, ◌+◌, ◌<◌, ◌⊎◌, [], IfErr, OnErr, OnOk, Option, option_map};
ghost use Rattle.hub_base.specs.declared.fault.HubFault.TheVariants.{Memory, TooManySessions};
ghost use Rattle.kept_session.specs.Reached.{Kept};
ghost use Rattle.kept_session.specs.ReachedDown.{KeptDown};
ghost use Rattle.hub_places.specs.Numbering.{KeepsDown, KeepsUp};
ghost use Rattle.hub.specs.Renewing.{Finishes, FinishesDown};

use crate::hub::Hub;
use crate::ledger::HubLedger;
use crate::seat::{ClientSeat, ServerSeat};
use hub_base::{Gate, HubFault};
use hub_delivery::server_place;
use kept_session::{KeptClientSession, KeptServerSession};
use mux_history::{History, InitMode, ServerId};
use published_routes::Publish;
use std::alloc::Global;
use std::sync::Wait;

impl<G: Gate + Drop, L: HubLedger, B: Publish<L>> Hub<G, L, B> {
    /// Takes the session of the seat's client out of the hub, once it is closed and none of its dispatches waits for
    /// anything: its histories that it hadn't given up, the oldest first, with the number of the first one's epoch. At
    /// the end the hub doesn't have them, so whoever takes them has to look at them.
    ///
    /// None, and nothing is done, before that, and once it was taken out. It waits for the session's lock, and takes no
    /// memory.
    pub fn finish_client<R: Wait>(
        &self,
        rt: &R,
        seat: &ClientSeat<L>,
    ) -> Option<(u32, Vec<History>)>
        ensures { (s : Option KeptDown) × (t : Option KeptDown)
            × FinishesDown s t (option_map (λ r. (r.0, r.1.items)) result)
            × KeepsDown seat.now.number s × KeepsDown seat.now.number t }
    {
        let client = seat.client();
        let session = self
            .down(client)
            .take_finished(rt, &self.slots.book, client)?;
        let first = session.given_up();
        Some((first, session.into_histories()))
    }

    /// A session for a new client, in the slot of the seat's client, whose session was taken out. The seat acts for the
    /// new one from now on, whose number is that of the one before and as many more as there are slots.
    ///
    /// The errors are TooManySessions and Memory, and with each the seat is as it was. TooManySessions says that the
    /// slot has a session, or a receipt of the client before is left, or there is no such number.
    pub fn renew_client<R: Wait>(
        &self,
        rt: &R,
        alloc: Global,
        seat: &mut ClientSeat<L>,
    ) -> Result<(), HubFault>
        ensures ok { OnOk result ((seat.new ≡ record seat.old { number = seat.old.number + L.sessions })
            × (seat.old.receipts ≡ [])) }
        ensures err { OnErr result (seat.new ≡ seat.old) }
        ensures why { IfErr result (λ e. (e ≡ TooManySessions) ⊎ (e ≡ Memory)) }
    {
        let slots = self.slots.downs.len() as u64;
        let Some(client) = seat.client().checked_add(slots) else {
            return Err(HubFault::TooManySessions);
        };
        let Ok(session) = KeptServerSession::open(alloc, self.boot, client, self.limits) else {
            return Err(HubFault::Memory);
        };
        if !seat.receipts().is_empty() || !self.put_client(rt, client, session) {
            return Err(HubFault::TooManySessions);
        }
        let _renewed = seat.renew(slots);
        Ok(())
    }

    /// Takes the session of the seat's server out of the hub, once it is closed and holds no dispatch: its histories
    /// that it hadn't given up, the oldest first, with the number of the first one's epoch. At the end the hub doesn't
    /// have them, so whoever takes them has to look at them.
    ///
    /// None, and nothing is done, before that, and once it was taken out. It waits for the session's lock, and takes no
    /// memory.
    pub fn finish_server<R: Wait>(
        &self,
        rt: &R,
        seat: &ServerSeat<L>,
    ) -> Option<(u32, Vec<History>)>
        ensures { (s : Option Kept) × (t : Option Kept)
            × Finishes s t (option_map (λ r. (r.0, r.1.items)) result)
            × KeepsUp seat.now.number s × KeepsUp seat.now.number t }
    {
        let server = seat.server();
        let session = self.up(server).take_finished(rt, &self.slots.book, server)?;
        let epoch = session.given_up();
        Some((epoch, session.into_histories()))
    }

    /// The next session towards the seat's server, in the slot of the one before, which was taken out. The seat acts
    /// for the new one from now on, whose number is that of the one before and as many more as there are slots. Its
    /// mode is that of the slot's server.
    ///
    /// The errors are TooManySessions and Memory, and with each the seat is as it was. TooManySessions says that the
    /// slot has a session, or a receipt of the session before is left, or there is no such number.
    pub fn renew_server<R: Wait>(
        &self,
        rt: &R,
        alloc: Global,
        seat: &mut ServerSeat<L>,
    ) -> Result<(), HubFault>
        ensures ok { OnOk result ((seat.new ≡ record seat.old { number = seat.old.number + L.servers })
            × (seat.old.receipts ≡ [])) }
        ensures err { OnErr result (seat.new ≡ seat.old) }
        ensures why { IfErr result (λ e. (e ≡ TooManySessions) ⊎ (e ≡ Memory)) }
    {
        let servers = self.slots.ups.len() as u64;
        let Some(server) = seat.server().checked_add(servers) else {
            return Err(HubFault::TooManySessions);
        };
        let mode = self.mode_of(server);
        let Ok(session) = KeptClientSession::open(alloc, server, mode, self.server_limits) else {
            return Err(HubFault::Memory);
        };
        if !seat.receipts().is_empty() || !self.put_server(rt, server, session) {
            return Err(HubFault::TooManySessions);
        }
        let _renewed = seat.renew(servers);
        Ok(())
    }

    /// The mode of a server's session: that of its slot's server, as the configuration has it.
    fn mode_of(&self, server: ServerId) -> InitMode
        requires { 0 < L.servers }
    {
        match server_place(self.servers.len(), server) {
            Some(place) => self.servers[place].mode,
            None => unreachable!(),
        }
    }
}
