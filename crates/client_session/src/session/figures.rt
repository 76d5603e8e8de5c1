//! What a session decides by its figures.

ghost use Rattle.std.specs.Prelude.{◌≡◌, ◌≤◌, ◌<◌, ◌*◌, ◌&&◌, max, is_some, Some};
ghost use Rattle.std.specs.FinMap as map;
ghost use Rattle.mux_message.specs.Kinds.{is_final as is_final_kind};
ghost use Rattle.mux_message.specs.Parts.{kind_in};
ghost use Rattle.mux_history.specs.Lapse as lease;

use super::ClientSession;
use crate::answers::PingRefusal;
use mux_history::{Name, Standing};
use mux_message::Message;
use translate_book::{OfferRefusal, RollRefusal, SealRefusal, StepRefusal};

impl ClientSession {
    ghost use Rattle.client_session.specs.State.{figures_in, standing_in};
    ghost use Rattle.client_session.specs.Decide.{offer_refusal, room_refusal, record_refusal, ping_refusal, seal_refusal, roll_refusal, free_out, free_records, is_idle, can_recall};

    pub(super) fn is_idle(&self) -> bool
        ensures { result ≡ is_idle (figures_in self.now) }
    {
        self.entries.is_empty() && (self.closed || self.drain.is_drained() || self.retired)
    }

    pub(super) fn free_out(&self) -> usize
        ensures { result ≡ free_out (figures_in self.now) }
    {
        self.limits.out() - self.queued() - self.fresh
    }

    pub(super) fn free_records(&self) -> usize
        ensures { result ≡ free_records (figures_in self.now) }
    {
        let end = if self.closed { 0 } else { 1 };
        let kept = self.history().len() + end;
        self.limits.history() - kept - self.load() - self.fresh
    }

    pub(super) fn has_lapsed(&self, now: u64) -> bool
        ensures { result ≡ lease.has_lapsed self.now.lapse (max self.now.reading now) }
    {
        !self.lease.allows(self.reading.max(now))
    }

    /// The first cause to refuse an offer, if there is one.
    pub(super) fn offer_refusal(&self, now: u64) -> Option<OfferRefusal>
        ensures { result ≡ offer_refusal (figures_in self.now) now }
    {
        if self.closed {
            return Some(OfferRefusal::Closed);
        }
        if !self.init.is_open() {
            return Some(OfferRefusal::NotOpen);
        }
        if self.drain.is_drained() {
            return Some(OfferRefusal::Drained);
        }
        if self.retired {
            return Some(OfferRefusal::Retired);
        }
        if self.has_lapsed(now) {
            return Some(OfferRefusal::Lapsed);
        }
        if self.load() >= self.limits.window() || self.free_out() < 2 {
            return Some(OfferRefusal::Full);
        }
        if self.free_records() < 3 {
            return Some(OfferRefusal::Spent);
        }
        None
    }

    /// Why a message finds no room.
    pub(super) fn room_refusal(&self) -> Option<StepRefusal>
        ensures { result ≡ room_refusal (figures_in self.now) }
    {
        if self.free_out() == 0 {
            return Some(StepRefusal::Busy);
        }
        if self.free_records() == 0 {
            return Some(StepRefusal::Spent);
        }
        None
    }

    /// Why a step that sends nothing is refused.
    pub(super) fn record_refusal(&self) -> Option<StepRefusal>
        ensures { result ≡ record_refusal (figures_in self.now) }
    {
        if self.closed {
            return Some(StepRefusal::Closed);
        }
        if self.free_records() == 0 {
            return Some(StepRefusal::Spent);
        }
        None
    }

    pub(super) fn ping_refusal(&self) -> Option<PingRefusal>
        ensures { result ≡ ping_refusal (figures_in self.now) }
    {
        if self.closed {
            return Some(PingRefusal::Closed);
        }
        if !self.init.is_open() {
            return Some(PingRefusal::NotOpen);
        }
        if self.ping {
            return Some(PingRefusal::Outstanding);
        }
        if self.free_out() == 0 {
            return Some(PingRefusal::Busy);
        }
        if self.free_records() == 0 {
            return Some(PingRefusal::Spent);
        }
        None
    }

    pub(super) fn can_recall(&self, tag: u32, name: Name) -> bool
        ensures { result ≡ can_recall self.now.closed (map.get self.now.entries tag) name }
    {
        let closed = self.closed;
        match self.entries.get(tag) {
            Some(holding) => !closed && holding.sent.name() == name && !holding.recalled,
            None => false,
        }
    }

    /// A message is the final reply to a dispatch that is held.
    pub(super) fn settles(&self, message: &Message) -> bool
        ensures { result ≡ is_final_kind (kind_in message.now.content)
            && is_some (map.get self.now.entries message.now.frame.tag) }
    {
        message.kind().is_final() && self.entries.get(message.tag()).is_some()
    }

    /// Why the session isn't sealed.
    pub(super) fn seal_refusal(&self) -> Option<SealRefusal>
        ensures first { result ≡ seal_refusal (figures_in self.now) }
        ensures room { 16 ≤ self.now.limits.history }
    {
        let history = self.limits.history();
        if self.closed {
            return Some(SealRefusal::Closed);
        }
        if self.load() > 0 || self.queued() > 0 {
            return Some(SealRefusal::NotQuiet);
        }
        if 4 * self.free_records() > history {
            return Some(SealRefusal::NotFull);
        }
        if self.epoch == u32::MAX {
            return Some(SealRefusal::LastEpoch);
        }
        None
    }

    /// Why the session isn't rolled.
    pub(super) fn roll_refusal(&self) -> Option<RollRefusal>
        ensures first { result ≡ roll_refusal (figures_in self.now) }
        ensures room { 16 ≤ self.now.limits.history }
        ensures ample { result ≡ Some RollRefusal.NoRoom → self.now.limits.history < 6 * self.now.limits.window }
    {
        let history = self.limits.history();
        if self.closed {
            return Some(RollRefusal::Closed);
        }
        let load = self.entries.len();
        let kept = load + self.fresh;
        if 2 * (load + kept) > history {
            return Some(RollRefusal::NoRoom);
        }
        if self.epoch == u32::MAX {
            return Some(RollRefusal::LastEpoch);
        }
        None
    }

    /// How the session stands: what the epoch behind a seal would begin with.
    pub fn standing(&self) -> Standing
        ensures { result ≡ standing_in self.now }
    {
        let lapse = self.lease.lapse();
        Standing::Up {
            init: self.init.state(),
            drained: self.drain.is_drained(),
            retired: self.retired,
            ping: self.ping,
            leased: lapse.is_some(),
            lapse: lapse.unwrap_or(0),
        }
    }
}
