//! The end of a hub: whether all that was done bears itself out.
//!
//! The loops over clients and servers are twins: their histories are two types with two definitions.
ghost use Rattle.std.specs.Prelude.{◌≡◌, ◌+◌, ◌<◌, ◌≤◌, IfOk, IfErr, OnOk, vec_len, true, false};
ghost use Rattle.hub.specs.Closing.{IsClosed, IsStopped, amounts_of, made_by, order_amounts, parts_back};
ghost use Rattle.hub.specs.Ending.{AreKept};

use crate::ledger::HubLedger;
use crate::receipts::first_wrong;
use crate::remains::Remains;
use crate::seat::{ClientSeat, OrderSeat, Seats, ServerSeat};
use hub_close::{is_balanced, totals_of};
use mux_agree::{Disagreement, DownHistory, UpHistory};
use mux_history::SessionId;
use rolling_audit::{RunFault, audit_recalls};
use std::sync::ledger::Share;
use thiserror::Error;

/// What all sessions of a hub did, over all epochs.
#[derive(Clone, Copy, Debug, PartialEq, Eq)]
pub struct Closed {
    pub records: u64,
    /// Dispatches that got a name.
    pub dispatches: u64,
    /// Answers to clients, and dispatches that they gave up.
    pub replies: u64,
}

/// Why a hub didn't close well, in the order in which the causes are looked at. `judge` never reports `Run`, and
/// `judge_run` never `Disagree`.
#[derive(Debug, Drop, Error)]
pub enum CloseFault {
    /// A seat of the hub didn't come back.
    #[error("MissingSeat")]
    MissingSeat,
    /// The histories of the sessions don't bear each other out.
    #[error("Disagree")]
    Disagree(Disagreement),
    /// A receipt's place in the history of its session doesn't hold its record, or the place isn't
    /// above that of the receipt before it. The seats come in the order of `Seats`.
    #[error("ReceiptMismatch")]
    ReceiptMismatch { seat: SessionId, place: usize },
    /// The histories don't bear each other out, or an epoch is missing, or memory was refused, where they were looked
    /// at while the run went on.
    #[error("{0}")]
    Run(RunFault),
    /// The seats didn't make as many records as the histories have.
    #[error("Miscount")]
    Miscount,
    /// A ticket, a place, a reply, a loss or a recall was thrown away.
    #[error("ValueDropped")]
    ValueDropped,
}

impl<L: HubLedger> Remains<L> {
    /// How much was done, if all seats came back, the histories bear each other out, each receipt stands, the counts
    /// agree, and no value was dropped; else the first of these that isn't so.
    ///
    /// Its steps grow with the number of records. It takes some memory for each dispatch. If that is refused, or a
    /// record is at fault, they grow with the square.
    pub fn judge(self) -> Result<Closed, CloseFault>
        requires whole { L.all ≡ L.parts }
        requires kept { AreKept self.downs.items self.ups.items }
        ensures ok { IfOk result (λ c. IsClosed self.downs.items self.ups.items self.seats.clients.items
            self.seats.servers.items self.seats.orders c) }
        ensures back { OnOk result (parts_back self.rest.parts self.seats.clients.items self.seats.servers.items
            ≡ L.parts) }
        ensures stopped { IfErr result (λ e. IsStopped L.parts self.rest.parts self.downs.items self.ups.items
            self.seats.clients.items self.seats.servers.items self.seats.orders e) }
    {
        if is_missing(&self.seats, self.opened, self.joined) {
            return Err(CloseFault::MissingSeat);
        }
        let Remains {
            rest,
            count,
            downs,
            ups,
            seats,
            ..
        } = self;
        let alloc = *downs.allocator();
        let down_histories = downs.as_slice();
        let up_histories = ups.as_slice();
        let are_ended = match audit_recalls(alloc, down_histories, up_histories) {
            Ok(are_ended) => are_ended,
            Err(found) => return Err(CloseFault::Disagree(found)),
        };
        if let Some((seat, place)) = first_wrong(&seats, down_histories, up_histories, None) {
            return Err(CloseFault::ReceiptMismatch { seat, place });
        }
        let totals = totals_of(down_histories, up_histories);
        let mut all = rest;
        join_all(&mut all, seats);
        if !count.is(&mut all, totals.records) {
            return Err(CloseFault::Miscount);
        }
        if !is_balanced(are_ended, down_histories, up_histories) {
            return Err(CloseFault::ValueDropped);
        }
        Ok(Closed {
            records: totals.records,
            dispatches: totals.dispatches,
            replies: totals.replies,
        })
    }
}

/// Whether fewer seats came back than were given.
pub(crate) fn is_missing<L: HubLedger>(seats: &Seats<L>, opened: u64, joined: u64) -> bool
    ensures yes { result ≡ true → vec_len seats.now.clients + vec_len seats.now.servers < opened + joined }
    ensures no { result ≡ false → opened + joined ≤ vec_len seats.now.clients + vec_len seats.now.servers }
{
    let given = opened as u128 + joined as u128;
    let back = seats.clients.len() as u128 + seats.servers.len() as u128;
    back < given
}

/// Joins the shares of all seats.
pub(crate) fn join_all<L: HubLedger>(all: &mut Share<L>, seats: Seats<L>)
    ensures parts { all.new.parts ≡ all.old.parts + vec_len seats.clients + vec_len seats.servers + 2 }
    ensures amount { all.new.amount ≡ all.old.amount + made_by seats.clients.items seats.servers.items seats.orders }
    ensures apart { all.new.parts ≤ L.parts }
{
    let Seats {
        clients,
        servers,
        orders,
    } = seats;
    join_clients(all, clients);
    join_servers(all, servers);
    join_orders(all, orders);
}

fn join_orders<L: HubLedger>(all: &mut Share<L>, orders: [OrderSeat<L>; 2])
    ensures parts { all.new.parts ≡ all.old.parts + 2 }
    ensures amount { all.new.amount ≡ all.old.amount + order_amounts orders }
    ensures apart { all.new.parts ≤ L.parts }
{
    let [first, second] = orders;
    all.merge(first.into_share());
    all.merge(second.into_share());
}

fn join_clients<L: HubLedger>(all: &mut Share<L>, seats: Vec<ClientSeat<L>>)
    ensures parts { all.new.parts ≡ all.old.parts + vec_len seats }
    ensures amount { all.new.amount ≡ all.old.amount + amounts_of seats.items }
{
    let mut seats = seats;
    while let Some(seat) = seats.pop() {
        all.merge(seat.into_share());
    }
}

fn join_servers<L: HubLedger>(all: &mut Share<L>, seats: Vec<ServerSeat<L>>)
    ensures parts { all.new.parts ≡ all.old.parts + vec_len seats }
    ensures amount { all.new.amount ≡ all.old.amount + amounts_of seats.items }
{
    let mut seats = seats;
    while let Some(seat) = seats.pop() {
        all.merge(seat.into_share());
    }
}
