//! The dispatches that a session holds, and the one writer of its records.

ghost use Rattle.std.specs.Prelude.{◌≡◌, ◌<◌, ◌≤◌, ◌+◌, ◌-◌, ◌^◌, max, false, true, None, Some, length, ℕ, IfNone, IfSome, IsSome, OnSome};
ghost use Rattle.std.specs.Option.{option_to_list};
ghost use Rattle.std.specs.FinMap as map;
ghost use Rattle.mux_frame.specs.declared.frame.TheConstants.{MAX_TAG};
ghost use Rattle.mux_message.specs.Kinds.{kind_of, is_final};
ghost use Rattle.mux_message.specs.Made.{retag as retagged};
ghost use Rattle.mux_model.specs.Entries.{said_by};
ghost use Rattle.mux_model.specs.Steps.{is_nack as nacks};
ghost use Rattle.mux_model.specs.Up.{settled_kind};

use super::{ClientSession, Holding};
use mux_frame::{Frame, retag};
use mux_history::{Cause, Name, Record, RecordKind};
use mux_model::is_nack;
use translate_book::{Placed, Sent, Settled};

impl ClientSession {
    ghost use Rattle.client_session.specs.State.{figures_in, noted, beginning, holding, releasing, answering, marking, IsFreshEntry, frame_in};
    ghost use Rattle.client_session.specs.Decide.{free_out, free_records};
    ghost use Rattle.mux_history.specs.Packing.{MayHold};

    /// Appends the record of a step, and queues its frame.
    #[inline(always)]
    pub(super) fn write(
        &mut self,
        now: u64,
        kind: RecordKind,
        tag: u32,
        name: Option<Name>,
        sent: Option<Frame>,
    )
        requires held { MayHold kind name }
        requires records { 1 ≤ free_records (figures_in self.old) }
        requires out { length (option_to_list sent) ≤ free_out (figures_in self.old) }
        ensures { self.new ≡ noted self.old now kind tag name (said_by sent) }
    {
        self.reading = self.reading.max(now);
        let reading = self.reading;
        self.history.push(Record::new(kind, tag, name, reading));
        if let Some(frame) = sent {
            self.queue.push_back_reserved(frame);
        }
    }

    /// Sends a dispatch.
    #[inline(always)]
    pub(super) fn accept(&mut self, sent: Sent, frame: Frame, now: u64) -> Placed
        requires load { map.len self.old.entries < self.old.limits.window }
        requires out { 2 ≤ free_out (figures_in self.old) }
        requires records { 3 ≤ free_records (figures_in self.old) }
        ensures placed { (result.name ≡ sent.name) × (result.server ≡ self.old.server) }
        ensures tag { (2 ≤ result.tag) × (result.tag ≤ MAX_TAG) × (map.get self.old.entries result.tag ≡ None) }
        ensures new { self.new
            ≡ noted (holding self.old result.tag (beginning sent.name (max self.old.reading now) (frame_in sent.again)))
            now RecordKind.Offered result.tag (Some sent.name) (Some (retagged result.tag frame.frame)) }
    {
        let name = sent.name();
        let since = self.reading.max(now);
        let Ok(tag) = self.entries.take(Holding {
            sent,
            since,
            recalled: false,
        })
        else {
            unreachable!()
        };
        self.fresh += 1;
        self.write(
            now,
            RecordKind::Offered,
            tag,
            Some(name),
            Some(retag(frame, tag)),
        );
        Placed::new(name, self.server, tag)
    }

    /// Marks a dispatch as recalled, which frees the places that were kept for its Tdiscarded.
    pub(super) fn mark(&mut self, tag: u32)
        requires { IsFreshEntry (map.get self.old.entries tag) }
        ensures new { self.new ≡ marking self.old tag }
        ensures range { tag < 2 ^ 24 }
        ensures records { free_records (figures_in self.old) + 1 ≤ free_records (figures_in self.new) }
        ensures out { free_out (figures_in self.old) + 1 ≤ free_out (figures_in self.new) }
    {
        let Some(holding) = self.entries.get_mut(tag) else {
            unreachable!()
        };
        holding.recalled = true;
        self.fresh -= 1;
    }

    /// Gives back the tag of a dispatch and its entry.
    #[inline(always)]
    pub(super) fn release(&mut self, tag: u32) -> Holding
        requires { IsSome (map.get self.old.entries tag) }
        ensures held { map.get self.old.entries tag ≡ Some result }
        ensures new { self.new ≡ releasing self.old tag }
        ensures records { free_records (figures_in self.old) + 1 ≤ free_records (figures_in self.new) }
    {
        let Some(holding) = self.entries.give(tag) else {
            unreachable!()
        };
        let recalled = holding.recalled;
        if !recalled {
            self.fresh -= 1;
        }
        holding
    }

    /// Gives back the least tag that is held, and gives it with the entry of its dispatch.
    pub(super) fn release_first(&mut self) -> Option<(u32, Holding)>
        ensures none { IfNone result (map.len self.old.entries ≡ 0) }
        ensures unchanged { IfNone result (self.new ≡ self.old) }
        ensures held { IfSome result (λ r. map.get self.old.entries r.0 ≡ Some r.1) }
        ensures least { IfSome result (λ r. (q : ℕ) → q < r.0 → map.get self.old.entries q ≡ None) }
        ensures new { IfSome result (λ r. self.new ≡ releasing self.old r.0) }
        ensures records { OnSome result (free_records (figures_in self.old) + 1 ≤ free_records (figures_in self.new)) }
    {
        let Some((tag, holding)) = self.entries.pop_first() else {
            return None;
        };
        let recalled = holding.recalled;
        if !recalled {
            self.fresh -= 1;
        }
        Some((tag, holding))
    }

    #[cold]
    pub(super) fn close(&mut self, kind: RecordKind, now: u64)
        requires { self.old.closed ≡ false }
        ensures { self.new ≡ noted (record self.old { closed = true }) now kind 0 None None }
    {
        self.closed = true;
        self.write(now, kind, 0, None, None);
    }

    /// The server broke the protocol.
    #[cold]
    #[inline(never)]
    pub(super) fn close_for(&mut self, cause: Cause, now: u64)
        requires { self.old.closed ≡ false }
        ensures { self.new ≡ noted (record self.old { closed = true }) now (RecordKind.Closed cause) 0 None None }
    {
        self.close(RecordKind::Closed(cause), now);
    }

    /// The final reply to a dispatch. Its record has a place.
    #[inline(always)]
    pub(super) fn settle(&mut self, frame: Frame, now: u64) -> Settled
        requires held { IsSome (map.get self.old.entries frame.frame.tag) }
        requires last { is_final (kind_of frame.frame.kind) ≡ true }
        ensures reply { result.reply ≡ frame }
        ensures given { IfSome (map.get self.old.entries frame.frame.tag) (λ d. (d.name ≡ Some result.name)
            × (d.again ≡ frame_in result.again)) }
        ensures new { self.new
            ≡ noted (answering self.old now frame.frame.tag (nacks frame.frame)) now (settled_kind frame.frame)
            frame.frame.tag (Some result.name) None }
    {
        let tag = frame.tag();
        let is_nack = is_nack(&frame);
        let kind = if is_nack {
            RecordKind::SettledNack
        } else {
            RecordKind::Settled(frame.kind())
        };
        let Holding { sent, since, .. } = self.release(tag);
        self.delays
            .add(is_nack, self.reading.max(now).saturating_sub(since));
        self.write(now, kind, tag, Some(sent.name()), None);
        sent.settled(frame)
    }
}
