//! Slots of the hub that serve one session after another.
//!
//! A server's do whenever it is connected to again. Clients' do if histories are looked at while the run goes on.
ghost use Rattle.std.specs.Prelude.{◌≡◌, ◌||◌, IfSome, nat_lt};
ghost use Rattle.mux_history.specs.declared.session.SessionId.{SessionId};
ghost use Rattle.router_state.specs.Giving.{AreTheLast};

use crate::router::Router;
use crate::unaudited::Unaudited;
use hub::{ClientSeat, HubFault, HubLedger, ServerSeat, UpCounts, server_place};
use mux_history::{ServerId, SessionId};
use published_routes::Publish;
use std::sync::Wait;

// Takes the seat of the server at this place out, among so many, if it is there.
fn take_of<L: HubLedger>(
    seats: &mut Vec<ServerSeat<L>>,
    slots: usize,
    place: ServerId,
) -> Option<ServerSeat<L>> {
    for at in 0..seats.len() {
        if at < seats.len() && server_place(slots, seats[at].server()) == Some(place as usize) {
            return Some(seats.swap_remove(at));
        }
    }
    None
}

// Whether a session can be opened for a further client: in a slot of the hub that had none, or in place of one that is
// over and was taken out.
fn has_place(opened: usize, slots: usize, free: usize) -> bool
    ensures { result ≡ (nat_lt opened slots || nat_lt 0 free) }
{
    opened < slots || free > 0
}

impl<L: HubLedger, B: Publish<L>> Router<L, B> {
    pub(crate) fn shows_place<R: Wait>(&self, rt: &R) -> bool {
        let free = self.free.lock(rt).len();
        has_place(
            self.shared.opened(),
            self.shared.switchboard.sessions(),
            free,
        )
    }

    /// Opens a session for a client: that of one that has left, if there is one that was taken out. The errors are
    /// those of `open_client` and `renew_client`.
    pub(crate) fn open_client<R: Wait>(&self, rt: &R) -> Result<ClientSeat<L>, HubFault> {
        let free = self.free.lock(rt).pop();
        if let Some(seat) = free {
            return self.renew_client(rt, seat);
        }
        let seat = self.hub.open_client(rt, self.shared.alloc)?;
        self.shared.count_opened();
        Ok(seat)
    }

    fn renew_client<R: Wait>(
        &self,
        rt: &R,
        mut seat: ClientSeat<L>,
    ) -> Result<ClientSeat<L>, HubFault> {
        self.end_record();
        match self.hub.renew_client(rt, self.shared.alloc, &mut seat) {
            Ok(()) => Ok(seat),
            Err(fault) => {
                // There is room for each seat.
                let _ = self.free.lock(rt).push(seat);
                Err(fault)
            }
        }
    }

    /// Opens the session of a connection to the server at this place: the first one, or the next one if that before it
    /// is over, which is taken out. The errors are those of `open_server` and `renew_server`, and Memory if there is
    /// none for what the session before has done.
    pub(crate) fn open_server<R: Wait>(
        &self,
        rt: &R,
        place: ServerId,
    ) -> Result<ServerSeat<L>, HubFault> {
        let before = take_of(&mut *self.servers.lock(rt), self.shared.names.len(), place);
        match before {
            None => self.hub.open_server(rt, self.shared.alloc, place),
            Some(seat) => self.renew_server(rt, place, seat),
        }
    }

    fn renew_server<R: Wait>(
        &self,
        rt: &R,
        place: ServerId,
        mut seat: ServerSeat<L>,
    ) -> Result<ServerSeat<L>, HubFault> {
        if !self.auditor.has_room(rt) {
            self.put_server(rt, seat);
            return Err(HubFault::Memory);
        }
        self.end_record();
        self.take_out_server(rt, place, &mut seat);
        match self.hub.renew_server(rt, self.shared.alloc, &mut seat) {
            Ok(()) => Ok(seat),
            Err(fault) => {
                self.put_server(rt, seat);
                Err(fault)
            }
        }
    }

    /// The session of a server's seat is over. Its histories stay in the hub until the server is connected to again.
    pub(crate) fn put_server<R: Wait>(&self, rt: &R, seat: ServerSeat<L>) {
        // There is room for each seat.
        let _ = self.servers.lock(rt).push(seat);
    }

    // A script begins with the first session of each slot.
    fn end_record(&self) {
        if let Some(recorder) = &self.shared.recorder {
            recorder.fill();
        }
    }

    /// The client of a seat has left. If nothing of its session is under way, another client can have it.
    pub(crate) fn put_away<R: Wait>(&self, rt: &R, mut seat: ClientSeat<L>) {
        if self.auditor.is_rolling && self.take_out_client(rt, &mut seat) {
            let _ = self.free.lock(rt).push(seat);
        } else {
            let _ = self.left.lock(rt).push_back(seat);
        }
    }

    /// Looks once more at the sessions of clients that have left, of which something was under way. A thread that asks
    /// for a place meanwhile waits until each of them is put where it belongs.
    pub(crate) fn put_left_away<R: Wait>(&self, rt: &R) {
        if !self.auditor.is_rolling {
            return;
        }
        let mut left = self.left.lock(rt);
        for _ in 0..left.len() {
            let Some(mut seat) = left.pop_front() else {
                return;
            };
            if self.take_out_client(rt, &mut seat) {
                let _ = self.free.lock(rt).push(seat);
            } else {
                let _ = left.push_back(seat);
            }
        }
    }

    // Takes the session of a client that has left out of the hub, with all of its histories: whether it did. It stays
    // while something of it is under way.
    fn take_out_client<R: Wait>(&self, rt: &R, seat: &mut ClientSeat<L>) -> bool {
        self.auditor.begin();
        let mut kinds = self.kinds.lock(rt);
        let Some(unaudited) = self.finish_client(rt, seat) else {
            return false;
        };
        kinds.give(unaudited.given());
        drop(kinds);
        let given = unaudited.given();
        let settled = seat.settle(given.first, given.histories.as_slice());
        self.give(rt, unaudited, settled);
        true
    }

    fn finish_client<R: Wait>(&self, rt: &R, seat: &ClientSeat<L>) -> Option<Unaudited>
        ensures { IfSome result (λ u. AreTheLast (SessionId.Client seat.now.number) u.given) }
    {
        let (first, histories) = self.hub.finish_client(rt, seat)?;
        Some(Unaudited::last(SessionId::Client(seat.client()), first, histories))
    }

    // The same of a server that was lost. Once that was done there is nothing more to take out.
    fn take_out_server<R: Wait>(&self, rt: &R, place: ServerId, seat: &mut ServerSeat<L>) {
        self.auditor.begin();
        let mut kinds = self.kinds.lock(rt);
        let present = self.hub.server_counts(rt, place);
        let Some(unaudited) = self.finish_server(rt, seat) else {
            return;
        };
        kinds.give(unaudited.given());
        if let Some(UpCounts { delays, .. }) = present {
            kinds.end(place as usize, delays);
        }
        drop(kinds);
        let given = unaudited.given();
        let settled = seat.settle(given.first, given.histories.as_slice());
        self.give(rt, unaudited, settled);
    }

    fn finish_server<R: Wait>(&self, rt: &R, seat: &ServerSeat<L>) -> Option<Unaudited>
        ensures { IfSome result (λ u. AreTheLast (SessionId.Server seat.now.number) u.given) }
    {
        let (first, histories) = self.hub.finish_server(rt, seat)?;
        Some(Unaudited::last(SessionId::Server(seat.server()), first, histories))
    }
}
