//! Offers to several servers, one after another.
ghost use Rattle.std.specs.Prelude.{◌≡◌, ◌≤◌, IfErr, Some, vec_len};
ghost use Rattle.server_session.specs.Steps.{ticket_of};
ghost use Rattle.hub_places.specs.Holding.{Holds, beside, left_by_offer};
ghost use Rattle.hub_delivery.specs.Carrying.{AreOthers, Offers, TriesOthers, left_by_others};

use crate::slots::Slots;
use arrayvec::ArrayVec;
use balancer::order;
use hub_base::Errands;
use hub_log::{Pass, Room};
use hub_slots::UpSlot;
use mux_history::ServerId;
use std::sync::Wait;
use translate_book::{OfferRefusal, Placed, Ticket};

impl<L: Room> Slots<L> {
    /// Offers a dispatch to servers, but not to these two, the least load first, up to the one that takes
    /// it. Apart, since the candidates need much room, and are seldom asked.
    #[cold]
    #[inline(never)]
    pub(crate) fn offer<R: Wait>(
        &self,
        rt: &R,
        ticket: Ticket,
        servers: &[ServerId],
        others: &Errands,
        claims: &mut Pass<L>,
        but: Option<ServerId>,
        by: Option<ServerId>,
        now: u64,
        made: &mut u64,
    ) -> Result<Placed, Ticket>
        requires claims { Holds claims.old (beside (Some (ticket_of ticket)) others.now.items) }
        ensures claims { Holds claims.new (beside (left_by_others result) others.now.items) }
        ensures tried { TriesOthers now (vec_len self.now.ups) servers.now but by ticket result }
        ensures more { made.old ≤ made.new }
    {
        let candidates = self.candidates(servers, but, by, now);
        let mut ticket = ticket;
        for at in order(candidates.as_slice()).as_slice() {
            let (place, _) = candidates.as_slice()[*at];
            match self.offer_at(rt, place, ticket, others, claims, now, made) {
                Ok(placed) => return Ok(placed),
                Err((_, refused)) => ticket = refused,
            }
        }
        Err(ticket)
    }

    /// Offers a dispatch to the session in the slot at this place.
    fn offer_at<R: Wait>(
        &self,
        rt: &R,
        place: ServerId,
        ticket: Ticket,
        others: &Errands,
        claims: &mut Pass<L>,
        now: u64,
        made: &mut u64,
    ) -> Result<Placed, (OfferRefusal, Ticket)>
        requires claims { Holds claims.old (beside (Some (ticket_of ticket)) others.now.items) }
        ensures claims { Holds claims.new (beside (left_by_offer result) others.now.items) }
        ensures offers { Offers now (vec_len self.now.ups) place ticket result }
        ensures back { IfErr result (λ e. e.1 ≡ ticket) }
        ensures more { made.old ≤ made.new }
    {
        match self.ups.get(place as usize) {
            Some(slot) => {
                let server = self.number_at(place);
                slot.offer(rt, &self.book, server, ticket, others, claims, now, made)
            }
            None => Err((OfferRefusal::Closed, ticket)),
        }
    }

    /// Servers by their places with their loads, which are read without a lock, but not these two.
    fn candidates(
        &self,
        servers: &[ServerId],
        but: Option<ServerId>,
        by: Option<ServerId>,
        now: u64,
    ) -> ArrayVec<(ServerId, u32), 64>
        ensures { AreOthers servers.now but by result.items }
    {
        let mut candidates = ArrayVec::new();
        for server in servers {
            if but == Some(*server) || by == Some(*server) {
                continue;
            }
            if let Some(slot) = self.slot_with_room(*server) {
                let _ = candidates.try_push((*server, slot.load(now)));
            }
        }
        candidates
    }

    /// The slot of the server at this place, unless too many bytes wait to be sent to it.
    fn slot_with_room(&self, place: ServerId) -> Option<&UpSlot<L>> {
        let slot = self.ups.get(place as usize)?;
        if slot.is_backlogged() {
            return None;
        }
        Some(slot)
    }
}
