//! The slots of all sessions.
ghost use Rattle.std.specs.Prelude.{◌≡◌, ◌<◌, IfNone, IfSome, OnSome, Some, vec_len};
ghost use Rattle.hub_delivery.specs.Leaving.{HasClient, HasServer, client_place, server_place};

use crate::counts::DestinationCounts;
use hub_log::{Book, Room};
use hub_slots::{DownSlot, UpSlot};
use mux_history::ServerId;

/// The slots of all sessions, each under a lock of its own. Server `n` has slot `n`, and client `n` slot `n - 1`, both
/// modulo the number of these slots: each of them serves one session after another.
#[derive(Drop)]
pub struct Slots<L: Room> {
    /// The log of all that their sessions do, of which each slot has its pass.
    pub book: Book<L>,
    pub downs: Vec<DownSlot<L>>,
    pub ups: Vec<UpSlot<L>>,
    /// How many dispatches a client's session holds at most.
    pub window: usize,
    /// How many dispatches a server's session holds at most.
    pub server_window: usize,
    /// How many dispatches went to each destination.
    pub counts: DestinationCounts,
}

impl<L: Room> Slots<L> {
    /// The slot of the client that a value names, whichever of its clients has it now. None if there is none of that
    /// number.
    pub fn find_down(&self, client: u64) -> Option<&DownSlot<L>>
        ensures some { OnSome result (HasClient (vec_len self.now.downs) client) }
        ensures none { IfNone result (HasClient (vec_len self.now.downs) client → ⊥) }
    {
        let place = client_place(self.downs.len(), client)?;
        self.downs.get(place)
    }

    /// The slot of the server's session that a value names, whichever of its sessions has it now. None if there is none
    /// of that number.
    #[inline(always)]
    pub fn find_up(&self, server: ServerId) -> Option<&UpSlot<L>>
        ensures some { OnSome result (HasServer (vec_len self.now.ups) server) }
        ensures none { IfNone result (HasServer (vec_len self.now.ups) server → ⊥) }
    {
        let place = server_place(self.ups.len(), server)?;
        self.ups.get(place)
    }

    /// The place of that slot, as routes name a server.
    pub(crate) fn place_of(&self, server: ServerId) -> Option<ServerId>
        ensures { result ≡ server_place (vec_len self.now.ups) server }
    {
        let place = server_place(self.ups.len(), server)?;
        Some(place as u64)
    }

    /// The number of the session that is in the slot at this place.
    #[tactic(auto, using(crate::proofs::Placing::first_place))]
    #[inline(always)]
    pub(crate) fn number_at(&self, place: ServerId) -> ServerId
        ensures { place < vec_len self.now.ups → server_place (vec_len self.now.ups) result ≡ Some place }
    {
        let Some(slot) = self.ups.get(place as usize) else {
            return place;
        };
        // A session of another slot has none of its numbers.
        let number = slot.number();
        if self.place_of(number) == Some(place) {
            number
        } else {
            place
        }
    }
}

/// The place of a client's slot among so many. None if there is no slot, or no client has this number.
#[tactic(auto, using(crate::proofs::Placing::first_place))]
#[inline(always)]
pub fn client_place(slots: usize, client: u64) -> Option<usize>
    ensures value { result ≡ client_place slots client }
    ensures within { IfSome result (λ place. place < slots) }
    ensures some { OnSome result (HasClient slots client) }
    ensures none { IfNone result (HasClient slots client → ⊥) }
{
    if client == 0 {
        return None;
    }
    place_in(slots, client - 1)
}

/// The place of the slot of a server's session among so many. None if there is no slot.
#[inline(always)]
pub fn server_place(slots: usize, server: ServerId) -> Option<usize>
    ensures value { result ≡ server_place slots server }
    ensures within { IfSome result (λ place. place < slots) }
    ensures some { OnSome result (HasServer slots server) }
    ensures none { IfNone result (HasServer slots server → ⊥) }
{
    place_in(slots, server)
}

/// The place among so many slots that sessions take one after the other, numbered from 0.
#[tactic(auto, using(crate::proofs::Placing::first_place))]
#[inline(always)]
fn place_in(slots: usize, number: u64) -> Option<usize>
    ensures value { result ≡ server_place slots number }
    ensures within { IfSome result (λ place. place < slots) }
    ensures some { OnSome result (HasServer slots number) }
    ensures none { IfNone result (HasServer slots number → ⊥) }
{
    // Most sessions are the first of their slots, and a division takes long.
    if number < slots as u64 {
        return Some(number as usize);
    }
    if slots == 0 {
        return None;
    }
    Some((number % slots as u64) as usize)
}
