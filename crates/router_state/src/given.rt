//! Histories that a session gave up.
ghost use Rattle.std.specs.Prelude.{◌≡◌, ◌≤◌, IfErr, IsOk, false, length, true};
ghost use Rattle.mux_agree.specs.Walk.{joined};
ghost use Rattle.mux_history.specs.Counting.{IsCount};
ghost use Rattle.rolling_audit.specs.declared.run.RunAudit.{RunAudit};
ghost use Rattle.router_state.specs.Giving.{EndsIf, Looks, StopsAt, epoch_at};

use hub_close::epoch_counts;
use mux_history::{History, KindCounts, SessionId};
use rolling_audit::{RunAudit, RunFault};

/// Histories of one session, the oldest first.
#[derive(Drop)]
pub(crate) struct Given {
    pub session: SessionId,
    /// The number of the first one's epoch.
    pub first: u32,
    pub histories: Vec<History>,
    // Whether the session has no others, and never will.
    is_all: bool,
    // How many of them were looked at.
    seen: usize,
}

impl Given {
    /// Some that have ended. None of them was looked at.
    pub fn new(session: SessionId, first: u32, histories: Vec<History>) -> Given
        ensures { result
            ≡ record { session = session; first = first; histories = histories; is_all = false; seen = 0 } }
    {
        Given {
            session,
            first,
            histories,
            is_all: false,
            seen: 0,
        }
    }

    /// All that were left of a session that was taken out.
    pub fn last(session: SessionId, first: u32, histories: Vec<History>) -> Given
        ensures { result
            ≡ record { session = session; first = first; histories = histories; is_all = true; seen = 0 } }
    {
        Given {
            is_all: true,
            ..Given::new(session, first, histories)
        }
    }

    /// How many of their records are of each kind.
    pub fn counts(&self) -> KindCounts
        ensures { IsCount result (joined self.now.histories.items) }
    {
        epoch_counts(&self.histories)
    }

    /// Has those looked at that weren't, and ends their session if it has no others. If memory is refused, it can be
    /// called again.
    pub fn look(&mut self, audit: &mut RunAudit) -> Result<(), RunFault>
        ensures ok { IsOk result → (all : RunAudit) × Looks self.old audit.old self.new.seen all
            × (length self.old.histories.items ≤ self.new.seen)
            × EndsIf self.old.is_all self.old.session all audit.new }
        ensures err { IfErr result (λ e. StopsAt e self.old audit.old self.new.seen audit.new) }
        ensures same { self.new ≡ record self.old { seen = self.new.seen } }
    {
        for at in self.seen..self.histories.len() {
            let epoch = epoch_at(self.first, at);
            audit.take(self.session, epoch, self.histories[at].records())?;
            self.seen = at + 1;
        }
        if self.is_all {
            audit.end(self.session);
        }
        Ok(())
    }
}

/// The epoch that is so many behind the first, up to the greatest number.
fn epoch_at(first: u32, behind: usize) -> u32
    ensures { result ≡ epoch_at first behind }
{
    u32::try_from((first as usize).saturating_add(behind)).unwrap_or(u32::MAX)
}
