//! How sessions stand and what they recorded, for an operator.
//!
//! Clients and servers have twins here, each under the words of that side.
ghost use Rattle.std.specs.Prelude.{◌≡◌, IfOk, Option, take};
ghost use Rattle.kept_session.specs.ReachedDown.{KeptDown};
ghost use Rattle.hub_steps.specs.Down.{MayKeepDown};
ghost use Rattle.hub_steps.specs.Figures.{ShowsUp};
ghost use Rattle.hub_steps.specs.Records.{CountsDown, CountsUp, down_past, up_past};
ghost use Rattle.hub_places.specs.Numbering.{KeepsDown};
ghost use Rattle.hub_slots.specs.Showing.{ShowsNumbered};
ghost use Rattle.kept_session.specs.Reached.{Kept};
ghost use Rattle.hub_steps.specs.Up.{MayKeep};

use crate::hub::Hub;
use crate::ledger::HubLedger;
use hub_base::Gate;
use hub_delivery::DestinationCount;
use hub_steps::{DownFigures, UpCounts, UpFigures};
use mux_history::{KindCounts, Record, ServerId};
use published_routes::Publish;
use std::alloc::{AllocError, Global};
use std::sync::Wait;

impl<G: Gate + Drop, L: HubLedger, B: Publish<L>> Hub<G, L, B> {
    /// The number of the client that has the slot at this place now, and how its session stands. None if there is no
    /// such slot, or no session in it. It waits for the session's lock, and takes no memory.
    pub fn client_at<R: Wait>(&self, rt: &R, place: usize) -> Option<(u64, DownFigures)>
        ensures { (s : Option KeptDown) × ShowsNumbered s result × MayKeepDown s }
    {
        match self.slots.downs.get(place) {
            Some(slot) => slot.shown_any(rt),
            None => None,
        }
    }

    /// How the session stands that is in the slot of the server at this place now. None if there is no such slot, or no
    /// session in it. It waits for the session's lock, and takes no memory.
    pub fn server_figures<R: Wait>(&self, rt: &R, place: ServerId) -> Option<UpFigures>
        ensures { (s : Option Kept) × ShowsUp s result × MayKeep s }
    {
        match self.slots.ups.get(place as usize) {
            Some(slot) => slot.shown_any(rt),
            None => None,
        }
    }

    /// How many records of the session of the client that has the slot at this place now, over all epochs that weren't
    /// given up, are of each kind that is counted. None if there is no such slot, or no session in it. It waits for
    /// the session's lock, and takes no memory.
    pub fn client_counts<R: Wait>(&self, rt: &R, place: usize) -> Option<KindCounts>
        ensures { (s : Option KeptDown) × CountsDown s result × MayKeepDown s }
    {
        match self.slots.downs.get(place) {
            Some(slot) => slot.counts_any(rt),
            None => None,
        }
    }

    /// The same of the session in the slot of the server at this place, with how long its dispatches took in all its
    /// epochs.
    pub fn server_counts<R: Wait>(&self, rt: &R, place: ServerId) -> Option<UpCounts>
        ensures { (s : Option Kept) × CountsUp s result × MayKeep s }
    {
        match self.slots.ups.get(place as usize) {
            Some(slot) => slot.counts_any(rt),
            None => None,
        }
    }

    /// How many dispatches were counted for the destination with this mark, or for all that have none. It asks for no
    /// lock, and no clause says what it gives.
    pub fn destination_count(&self, mark: Option<u8>) -> DestinationCount {
        self.slots.counts.of(mark)
    }

    /// What the session of the client of this number recorded in all its epochs, the oldest record first, up to `most`
    /// records: none if no such client ever came, or its session was taken out. It waits for the session's lock, which
    /// it holds while it copies. Out of memory is the one error.
    pub fn client_records<R: Wait>(
        &self,
        rt: &R,
        alloc: Global,
        client: u64,
        most: usize,
    ) -> Result<Vec<Record>, AllocError>
        ensures { IfOk result (λ v. (s : Option KeptDown) × (v.items ≡ take most (down_past s)) × KeepsDown client s) }
    {
        match self.slots.find_down(client) {
            Some(slot) => slot.records(rt, &self.slots.book, client, alloc, most),
            None => Ok(Vec::new(alloc)),
        }
    }

    /// The same of the session that is in the slot of the server at this place now.
    pub fn server_records<R: Wait>(
        &self,
        rt: &R,
        alloc: Global,
        place: ServerId,
        most: usize,
    ) -> Result<Vec<Record>, AllocError>
        ensures { IfOk result (λ v. (s : Option Kept) × (v.items ≡ take most (up_past s)) × MayKeep s) }
    {
        match self.slots.ups.get(place as usize) {
            Some(slot) => slot.records_any(rt, alloc, most),
            None => Ok(Vec::new(alloc)),
        }
    }
}
