//! Rings for the sessions on which a reader made steps.
ghost use Rattle.std.specs.Prelude.{◌≡◌};
ghost use Rattle.router_traffic.specs.Bells.{wakes_by};

use hub::{Bell, server_place};
use mux_history::SessionId;
use router_state::{Control, Slot, client_figures};
use std::sync::Wait;

/// Rings for the reader of a session. A step on that session is news for its writer alone, if it queued a frame. A
/// session of which few places are left has its own reader look too, which ends its epoch.
#[derive(Drop)]
pub struct ReaderBell<'a, H: Control, R: Wait> {
    pub rt: &'a R,
    pub router: &'a H,
    pub slot: &'a Slot,
    pub own: Option<SessionId>,
}

/// Whether the writer of a session is woken on which a step may have been made: if so many frames are queued. While the
/// router lets its clients go it looks in any case, since its client may be done with. None: the session can't be seen.
fn wakes_writer(queued: Option<usize>, lets_go: bool) -> bool
    ensures { result ≡ wakes_by queued lets_go }
{
    match queued {
        Some(0) => lets_go,
        Some(_) | None => true,
    }
}

// How many frames wait to be sent by a session. None if it can't be seen.
fn queued_of<H: Control, R: Wait>(rt: &R, router: &H, session: SessionId) -> Option<usize> {
    match session {
        SessionId::Client(client) => Some(client_figures(rt, router, client)?.queued),
        SessionId::Server(server) => {
            let place = server_place(router.shared().names.len(), server)?;
            Some(router.server_figures(rt, place as u64)?.queued)
        }
    }
}

impl<H: Control, R: Wait> ReaderBell<'_, H, R> {
    fn see_writer(&self, slot: &Slot, session: SessionId) {
        let queued = queued_of(self.rt, self.router, session);
        if wakes_writer(queued, self.router.shared().switchboard.lets_go()) {
            slot.writer.notify();
        }
    }

    fn see_reader(&self, slot: &Slot, session: SessionId) {
        if slot.waits() || self.router.wants_rest(session) {
            slot.reader.notify();
        }
    }

    fn ring_slot(&self, slot: &Slot, session: SessionId) {
        slot.writer.notify();
        self.see_reader(slot, session);
    }
}

impl<H: Control, R: Wait> Bell for ReaderBell<'_, H, R> {
    fn ring(&self, session: SessionId) {
        if self.own == Some(session) {
            self.see_writer(self.slot, session);
        } else if let Some(slot) = self.router.shared().switchboard.slot_of(session) {
            self.ring_slot(slot, session);
        }
    }

    // Clients may be many, and most have no news.
    fn ring_all(&self) {
        let switchboard = &self.router.shared().switchboard;
        for slot in switchboard.clients() {
            let session = SessionId::Client(slot.session());
            if !slot.is_free() {
                self.see_writer(slot, session);
                self.see_reader(slot, session);
            }
        }
        for slot in switchboard.servers() {
            self.ring_slot(slot, SessionId::Server(slot.session()));
        }
    }
}
