//! What is left of a hub that has ended, and how it is judged.
ghost use Rattle.std.specs.Prelude.{◌≡◌, ◌+◌};
ghost use Rattle.mux_history.specs.Counting.{IsCount};
ghost use Rattle.hub.specs.Closing.{records_in};

use crate::ledger::HubLedger;
use crate::seat::Seats;
use hub_close::{Count, kind_counts};
use mux_agree::{DownHistory, UpHistory};
use mux_history::KindCounts;
use std::sync::ledger::Share;

/// All that the locks of a hub kept, with the seats that came back. Any thread can judge it (`judge`, or `judge_run`
/// if an audit looked at histories while the run went on).
#[derive(Drop)]
pub struct Remains<L: HubLedger> {
    // How many clients and servers were let in.
    pub(crate) opened: u64,
    pub(crate) joined: u64,
    // What nobody had of the ledger.
    pub(crate) rest: Share<L>,
    pub(crate) count: Count<L>,
    // The histories that weren't given up, at the places of the slots.
    pub(crate) downs: Vec<DownHistory>,
    pub(crate) ups: Vec<UpHistory>,
    pub(crate) seats: Seats<L>,
    ghost left: { rest.parts + opened + joined + 2 ≡ L.all },
    ghost empty: { rest.amount ≡ 0 },
}

impl<L: HubLedger> Remains<L> {
    /// How many records of all sessions, over all their epochs, are of each kind that is counted.
    pub fn counts(&self) -> KindCounts
        ensures { IsCount result (records_in self.now.downs.items self.now.ups.items) }
    {
        kind_counts(self.downs.as_slice(), self.ups.as_slice())
    }
}
