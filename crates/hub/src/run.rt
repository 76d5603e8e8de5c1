//! The end of a hub whose histories were looked at while its run went on.
ghost use Rattle.std.specs.Prelude.{◌≡◌, ◌<◌, ◌^◌, List, IfErr, IfOk, IsOk, IsTrue, OnOk, false, length};
ghost use Rattle.mux_agree.specs.Walk.{Kept, all_records};
ghost use Rattle.rolling_audit.specs.Taken.{AreFine, life_of};
ghost use Rattle.rolling_audit.specs.Covering.{Covers};
ghost use Rattle.hub_close.specs.Totals.{IsBalanced};
ghost use Rattle.rolling_audit.specs.declared.run.RunAudit.{RunAudit};
ghost use Rattle.hub.specs.Closing.{parts_back};
ghost use Rattle.hub.specs.Rests.{TakesRests};
ghost use Rattle.hub.specs.Run.{AreBorne, EndsBy, IsClosedRun, IsStoppedRun, IsSumOf};

use crate::close::{CloseFault, Closed, is_missing, join_all};
use crate::ledger::HubLedger;
use crate::receipts::first_wrong;
use crate::remains::Remains;
use crate::rests::take_rests;
use hub_close::{Totals, are_used, run_totals};
use mux_agree::{DownHistory, UpHistory};
use rolling_audit::{RunAudit, RunFault};

impl<L: HubLedger> Remains<L> {
    /// What `judge` tells, of a run whose histories were looked at while it went on: `audit` was handed all that
    /// sessions gave up, each seat's receipts of these were held against them, and it takes the others now.
    ///
    /// The error is the first that is so: a seat is missing; a receipt that is left doesn't stand in the histories that
    /// are left; the audit doesn't take one of these, or finds a flaw once it has them; the counts differ; a ticket, a
    /// place, a reply, a loss or a recall was dropped. Its steps grow with the records that are left, and with what the
    /// audit keeps.
    pub fn judge_run(self, audit: &mut RunAudit) -> Result<Closed, CloseFault>
        requires whole { L.all ≡ L.parts }
        ensures ok { IfOk result (λ c. TakesRests audit.old self.downs.items self.ups.items audit.new
            × IsClosedRun audit.old audit.new self.downs.items self.ups.items self.seats.clients.items
            self.seats.servers.items self.seats.orders c) }
        ensures back { OnOk result (parts_back self.rest.parts self.seats.clients.items self.seats.servers.items
            ≡ L.parts) }
        ensures stopped { IfErr result (IsStoppedRun L.parts self.rest.parts audit.old self.downs.items self.ups.items
            self.seats.clients.items self.seats.servers.items self.seats.orders) }
    {
        if is_missing(&self.seats, self.opened, self.joined) {
            return Err(CloseFault::MissingSeat);
        }
        let Remains {
            rest,
            count,
            downs,
            ups,
            seats,
            ..
        } = self;
        let down_histories = downs.as_slice();
        let up_histories = ups.as_slice();
        if let Some((seat, place)) = first_wrong(
            &seats,
            down_histories,
            up_histories,
            Some(&*audit),
        ) {
            return Err(CloseFault::ReceiptMismatch { seat, place });
        }
        match end(audit, down_histories, up_histories) {
            Ok(()) => {}
            Err(fault) => return Err(CloseFault::Run(fault)),
        }
        let mut all = rest;
        join_all(&mut all, seats);
        if !count.is(&mut all, audit.records()) {
            return Err(CloseFault::Miscount);
        }
        if !is_balanced(audit) {
            return Err(CloseFault::ValueDropped);
        }
        Ok(closed_by(audit))
    }
}

/// Takes the histories that are left, and looks whether all bear each other out.
fn end(audit: &mut RunAudit, downs: &[DownHistory], ups: &[UpHistory]) -> Result<(), RunFault>
    ensures ok { IsOk result → AreBorne audit.old audit.new downs.now ups.now }
    ensures fine { IsOk result → AreFine (life_of audit.new.audit.lives) }
    ensures err { IfErr result (λ e. EndsBy e audit.old downs.now ups.now) }
{
    take_rests(audit, downs, ups)?;
    match audit.close() {
        Ok(()) => Ok(()),
        Err(fault) => Err(RunFault::Rolling(fault)),
    }
}

/// Whether no value was dropped: tickets, replies and losses were used as often as steps gave them, every place was
/// noted, and each recall was sent, or its dispatch has an end.
fn is_balanced(audit: &RunAudit) -> bool
    ensures yes { IsTrue result → (hs : List Kept) → Covers hs audit.now → length (all_records hs) < 2 ^ 64
        → IsBalanced (all_records hs) }
    ensures no { result ≡ false → AreFine (life_of audit.now.audit.lives) → (hs : List Kept) → Covers hs audit.now
        → length (all_records hs) < 2 ^ 64 → ¬ IsBalanced (all_records hs) }
{
    are_used(audit.counts()) && audit.are_recalls_ended()
}

/// What the histories that were taken hold.
fn closed_by(audit: &RunAudit) -> Closed
    ensures { IsSumOf audit.now result }
{
    let Totals {
        records,
        dispatches,
        replies,
    } = run_totals(audit.counts(), audit.records());
    Closed {
        records,
        dispatches,
        replies,
    }
}
