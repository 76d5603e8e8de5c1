//! The end of a session, and of its epochs.

ghost use Rattle.std.specs.Prelude.{◌≡◌, ◌<◌, ◌+◌, ◌-◌, ◌*◌, ◌^◌, [], Some, length, OnErr, IfErr};

use super::ServerSession;
use crate::answers::DrainRefusal;
use gate::DrainOut;
use mux_history::{DrainState, History, RecordKind, Standing};
use mux_message::made::tdrain;
use session_init::ServerInit;
use std::mem;
use translate_book::{RollRefusal, SealRefusal};

impl ServerSession {
    ghost use Rattle.server_session.specs.State.{figures_in, noted, standing_in, emptied, sealed_in, rolled_in};
    ghost use Rattle.server_session.specs.Decide.{drain_refusal, seal_refusal, roll_refusal};
    ghost use Rattle.server_session.specs.Past.{Past};
    ghost use Rattle.server_session.specs.Belonging.{Belongs};
    ghost use Rattle.server_session.specs.Steps.{LeadsOn, DrainStep, SealStep, RollStep};

    /// Asks the client to send no more dispatches, once. The Tdrain has tag 1.
    pub fn drain(&mut self) -> Result<(), DrainRefusal>
        ensures step { LeadsOn self.old (λ p q. DrainStep p result q) self.new }
        ensures err { OnErr result (self.new ≡ self.old) }
    {
        if let Some(refusal) = self.drain_refusal() {
            return Err(refusal);
        }
        self.drain.ask(1);
        self.write(0, RecordKind::DrainAsked, 1, None, Some(tdrain()));
        Ok(())
    }

    /// Ends the epoch of a quiet session, and hands its history back. The empty history that is handed
    /// in takes the records from then on, and begins with how the session stands.
    ///
    /// # Errors
    ///
    /// The first cause not to, and the history that was handed in.
    pub fn seal(&mut self, history: History) -> Result<History, (SealRefusal, History)>
        requires empty { history.records ≡ [] }
        requires room { history.room ≡ self.old.limits.history }
        ensures step { LeadsOn self.old (λ p q. SealStep p history result q) self.new }
        ensures err { IfErr result (λ e. (e.1 ≡ history) × (self.new ≡ self.old)) }
    {
        if let Some(refusal) = self.seal_refusal() {
            return Err((refusal, history));
        }
        Ok(self.begin_epoch(history))
    }

    /// Ends the epoch, also while dispatches are held, and hands its history back. The empty history that
    /// is handed in takes the records from then on. It begins with a record that tells this alone.
    ///
    /// It takes and sends nothing. All dispatches go on with what is due of them, their places, the tries
    /// that are left and the reasons of their recalls, and so do the numbers, the drain and the frames
    /// queued.
    ///
    /// # Errors
    ///
    /// The first cause not to, and the history that was handed in. It is refused once the session is
    /// closed, where the entries and the records kept for them would take more than half of a history,
    /// and in the last epoch. With a limit `history` of at least twice `window` times (4 + 2 times
    /// `retries`) it is never refused for lack of room.
    pub fn roll(&mut self, history: History) -> Result<History, (RollRefusal, History)>
        requires empty { history.records ≡ [] }
        requires room { history.room ≡ self.old.limits.history }
        ensures step { LeadsOn self.old (λ p q. RollStep p history result q) self.new }
        ensures ample { (p : Past) → Belongs self.old p → IfErr result (λ e. e.0 ≡ RollRefusal.NoRoom
            → self.old.limits.history < 2 * ((4 + 2 * self.old.limits.retries) * self.old.limits.window)) }
        ensures err { IfErr result (λ e. (e.1 ≡ history) × (self.new ≡ self.old)) }
    {
        if let Some(refusal) = self.roll_refusal() {
            return Err((refusal, history));
        }
        Ok(self.carry_on(history))
    }

    fn drain_refusal(&self) -> Option<DrainRefusal>
        ensures { result ≡ drain_refusal (figures_in self.now) }
    {
        if self.closed {
            return Some(DrainRefusal::Closed);
        }
        if !self.drain.is_running() {
            return Some(DrainRefusal::AlreadyDraining);
        }
        if self.free_out() == 0 {
            return Some(DrainRefusal::Busy);
        }
        if self.free_records() == 0 {
            return Some(DrainRefusal::Spent);
        }
        None
    }

    fn seal_refusal(&self) -> Option<SealRefusal>
        ensures { result ≡ seal_refusal (figures_in self.now) }
    {
        if self.closed {
            return Some(SealRefusal::Closed);
        }
        if self.load() > 0 || self.queued() > 0 {
            return Some(SealRefusal::NotQuiet);
        }
        let history = self.limits.history();
        if 4 * self.free_records() > history {
            return Some(SealRefusal::NotFull);
        }
        if self.epoch == u32::MAX {
            return Some(SealRefusal::LastEpoch);
        }
        None
    }

    fn roll_refusal(&self) -> Option<RollRefusal>
        ensures first { result ≡ roll_refusal (figures_in self.now) }
        ensures ample { (p : Past) → Belongs self.now p → result ≡ Some RollRefusal.NoRoom
            → self.now.limits.history < 2 * ((4 + 2 * self.now.limits.retries) * self.now.limits.window) }
    {
        if self.closed {
            return Some(RollRefusal::Closed);
        }
        let history = self.limits.history();
        if 2 * (self.book.len() + self.kept) > history {
            return Some(RollRefusal::NoRoom);
        }
        if self.epoch == u32::MAX {
            return Some(RollRefusal::LastEpoch);
        }
        None
    }

    /// The records from now on are those of this history. The one that ends is handed back.
    fn next_history(&mut self, history: History) -> History
        requires empty { history.records ≡ [] }
        requires room { history.room ≡ self.old.limits.history }
        requires number { self.old.epoch < 2 ^ 32 - 1 }
        ensures result { result ≡ record { records = self.old.records; room = self.old.limits.history } }
        ensures new { self.new ≡ emptied self.old }
    {
        self.epoch += 1;
        mem::replace(&mut self.history, history)
    }

    fn begin_epoch(&mut self, history: History) -> History
        requires empty { history.records ≡ [] }
        requires room { history.room ≡ self.old.limits.history }
        requires quiet { length self.old.book ≡ 0 }
        requires number { self.old.epoch < 2 ^ 32 - 1 }
        ensures result { result ≡ record { records = self.old.records; room = self.old.limits.history } }
        ensures new { self.new ≡ sealed_in self.old }
    {
        let standing = self.standing();
        let sealed = self.next_history(history);
        let number = self.epoch;
        self.write(0, RecordKind::Epoch { number, standing }, 0, None, None);
        sealed
    }

    /// The next history begins, and all else goes on.
    fn carry_on(&mut self, history: History) -> History
        requires empty { history.records ≡ [] }
        requires room { history.room ≡ self.old.limits.history }
        requires may { roll_refusal (figures_in self.old) ≡ None }
        ensures result { result ≡ record { records = self.old.records; room = self.old.limits.history } }
        ensures new { self.new ≡ rolled_in self.old }
    {
        let rolled = self.next_history(history);
        let number = self.epoch;
        self.write(0, RecordKind::Rolled { number }, 0, None, None);
        rolled
    }

    /// How the session stands: what a next epoch would begin with.
    pub fn standing(&self) -> Standing
        ensures { result ≡ standing_in self.now }
    {
        Standing::Down {
            fresh: self.init == ServerInit::Fresh,
            drain: match self.drain {
                DrainOut::Running => DrainState::Running,
                DrainOut::Asked(_) => DrainState::Asked,
                DrainOut::Acked => DrainState::Acked,
            },
            dispatches: self.dispatches,
        }
    }
}
