//! A frame of the client.
//!
//! Each step repeats what `frame` has found out by then as its `requires`: so heads are alike.

ghost use Rattle.std.specs.Prelude.{◌≡◌, ◌≤◌, ◌<◌, ◌+◌, ◌*◌, ◌^◌, length, false, true, Ok, Err, None, Some, is_some, ◌==◌, IfErr, IfSome, IfNone, OnSome, IsTrue, IsFalse, IsSome};
ghost use Rattle.mux_frame.specs.declared.frame.TheConstants.{MAX_TAG};
ghost use Rattle.mux_message.specs.Grammar.{Spells};
ghost use Rattle.mux_message.specs.Kinds.{is_dispatch};
ghost use Rattle.mux_message.specs.Parts.{kind_in, discard_tag_of, why_of as reason_of};
ghost use Rattle.mux_message.specs.Reading.{message_of};
ghost use Rattle.mux_message.specs.declared.kind.MessageKind.TheVariants as types;
ghost use Rattle.mux_history.specs.Readings.{is_acked};
ghost use Rattle.mux_model.specs.Steps.{cause_of as cause_in};
ghost use Rattle.mux_model.specs.Down.{Reaction, Pongs, Inits, Misplaced, Echoes, Acks, Ignores, asks_other, for_taking, last_seq};
ghost use Rattle.translate_book.specs.Book.{entry_at, open_at};
ghost use Rattle.translate_book.specs.Entries.{is_open, recall_from};
ghost use Rattle.server_session.specs.State.{recalled_by as recall_by};

use super::ServerSession;
use crate::answers::DownStep;
use bytes::Bytes;
use gate::DrainOut;
use mux_frame::Frame;
use mux_history::{Cause, Name, RecordKind};
use mux_message::made::{nack, rdiscarded, rping, unsupported};
use mux_message::{Message, MessageFault, MessageKind, parse};
use session_init::{InitStep, ServerInit};
use translate_book::{Change, Dispatch, NoteState, Place, Recall, StepRefusal, Ticket, Why};

impl ServerSession {
    ghost use Rattle.server_session.specs.State.{State, figures_in, naming, noted, changing, calling_back, numbering, taking, stage, is_fresh_init, flagged, reacted_in, owes_at, place_at, shut_in, given_up_in, given_up_by, init_kind, HasEntry, ForEntry};
    ghost use Rattle.gate.specs.Drains.{answers as acks, is_acked as has_acked};
    ghost use Rattle.mux_frame.specs.Spelling.{MuxFrame};
    ghost use Rattle.server_session.specs.Decide.{is_plain, room_refusal, closing_cause, plainly, otherwise, free_out, free_records};
    ghost use Rattle.server_session.specs.Steps.{LeadsOn, FrameStep};

    /// Takes a frame of the client as a decoder gives it (`Frame::as_read`), or hands it back.
    ///
    /// A frame that closes the session is refused neither for want of room nor of records.
    #[inline(always)]
    pub fn frame(&mut self, frame: Frame, now: u64) -> Result<DownStep, (StepRefusal, Frame)>
        requires { IsTrue frame.as_read }
        ensures step { LeadsOn self.old (λ p q. FrameStep p frame now result q) self.new }
        ensures err { IfErr result (λ e. (e.1 ≡ frame) × (self.new ≡ self.old)) }
    {
        if self.closed {
            return Err((StepRefusal::Closed, frame));
        }
        match parse(frame) {
            Ok(message) => self.message(message, now),
            Err((fault, _)) => {
                let cause = cause_of(fault);
                self.close_for(cause, now);
                Ok(DownStep::Closing(cause))
            }
        }
    }

    /// Takes a message, or hands its frame back.
    #[inline(always)]
    fn message(&mut self, message: Message, now: u64) -> Result<DownStep, (StepRefusal, Frame)>
        requires open { self.old.closed ≡ false }
        requires read { message_of message.frame ≡ Ok message.content }
        requires spelled { Spells message.frame message.content }
        ensures step { LeadsOn self.old (λ p q. FrameStep p (record {
          frame = message.frame;
          as_read = true;
        }) now result q) self.new }
        ensures err { IfErr result (λ e. (e.1 ≡ record { frame = message.frame; as_read = true })
            × (self.new ≡ self.old)) }
    {
        if self.may_take(&message) {
            return Ok(self.dispatch(message, now));
        }
        self.other(message, now)
    }

    /// Whether this is a dispatch that is taken, unless its tag is in use.
    #[inline(always)]
    fn may_take(&self, message: &Message) -> bool
        ensures kind { IsTrue result → kind_in message.now.content ≡ types.Tdispatch }
        ensures tag { IsTrue result → (message.now.frame.tag == 0) ≡ false }
        ensures drained { IsTrue result → has_acked self.now.drain ≡ false }
        ensures room { IsTrue result → room_refusal (figures_in self.now) types.Tdispatch ≡ None }
        ensures other { IsFalse result → kind_in message.now.content ≡ types.Tdispatch → (message.now.frame.tag == 0) ≡ false
            → room_refusal (figures_in self.now) types.Tdispatch ≡ None → has_acked self.now.drain ≡ true }
    {
        if message.kind() != MessageKind::Tdispatch || message.tag() == 0 {
            return false;
        }
        if self.drain.is_acked() {
            return false;
        }
        self.room_refusal(MessageKind::Tdispatch).is_none()
    }

    /// Takes any other message, or hands its frame back.
    #[inline(always)]
    fn other(&mut self, message: Message, now: u64) -> Result<DownStep, (StepRefusal, Frame)>
        requires open { self.old.closed ≡ false }
        requires read { message_of message.frame ≡ Ok message.content }
        requires spelled { Spells message.frame message.content }
        requires other { kind_in message.content ≡ types.Tdispatch → (message.frame.tag == 0) ≡ false
            → room_refusal (figures_in self.old) types.Tdispatch ≡ None → has_acked self.old.drain ≡ true }
        ensures step { LeadsOn self.old (λ p q. FrameStep p (record {
          frame = message.frame;
          as_read = true;
        }) now result q) self.new }
        ensures err { IfErr result (λ e. (e.1 ≡ record { frame = message.frame; as_read = true })
            × (self.new ≡ self.old)) }
    {
        if let Some(cause) = self.closing_cause(&message) {
            self.close_for(cause, now);
            return Ok(DownStep::Closing(cause));
        }
        if let Some(refusal) = self.room_refusal(message.kind()) {
            return Err((refusal, message.into_frame()));
        }
        match message.kind() {
            MessageKind::Tdispatch => Ok(self.turn_away(message, now)),
            MessageKind::Tdiscarded => Ok(self.discard(message, now)),
            _ => Ok(self.answer_plainly(message, now)),
        }
    }

    /// Why a message closes the session.
    #[inline(always)]
    fn closing_cause(&self, message: &Message) -> Option<Cause>
        ensures { result
            ≡ closing_cause (is_some (open_at message.now.frame.tag self.now.book)) message.now.frame.tag
            (kind_in message.now.content) }
    {
        let tag = message.tag();
        let kind = message.kind();
        if kind == MessageKind::Tdispatch && tag == 0 {
            return Some(Cause::TagZero);
        }
        if kind.is_asking() && self.book.at_tag(tag).is_some() {
            return Some(Cause::TagInUse);
        }
        None
    }

    /// Why a message of this kind finds no room.
    #[inline(always)]
    fn room_refusal(&self, kind: MessageKind) -> Option<StepRefusal>
        ensures { result ≡ room_refusal (figures_in self.now) kind }
    {
        let dispatches = kind == MessageKind::Tdispatch;
        let takes = dispatches && !self.drain.is_acked();
        if self.free_out() == 0 {
            return Some(StepRefusal::Busy);
        }
        if takes && self.load() >= self.limits.window() {
            return Some(StepRefusal::Busy);
        }
        let places = if takes {
            4 + 2 * self.limits.retries()
        } else {
            1
        };
        if self.free_records() < places {
            return Some(StepRefusal::Spent);
        }
        if dispatches && self.dispatches >= u64::MAX - 1 {
            return Some(StepRefusal::Spent);
        }
        None
    }

    /// A dispatch gets the next name, and is nacked: the client has answered the Tdrain.
    #[inline(always)]
    fn turn_away(&mut self, message: Message, now: u64) -> DownStep
        requires open { self.old.closed ≡ false }
        requires read { message_of message.frame ≡ Ok message.content }
        requires spelled { Spells message.frame message.content }
        requires kind { kind_in message.content ≡ types.Tdispatch }
        requires drained { has_acked self.old.drain ≡ true }
        requires room { room_refusal (figures_in self.old) types.Tdispatch ≡ None }
        requires cause { closing_cause (is_some (open_at message.frame.tag self.old.book))
            message.frame.tag types.Tdispatch
            ≡ None }
        ensures step { LeadsOn self.old (λ p q. FrameStep p (record {
          frame = message.frame;
          as_read = true;
        }) now (Ok result) q) self.new }
    {
        let tag = message.tag();
        let name = self.next_name();
        self.write(
            now,
            RecordKind::TookDrained,
            tag,
            Some(name),
            Some(nack(tag)),
        );
        DownStep::Nothing
    }

    /// A dispatch gets the next name, and is taken. On a tag that is in use it closes the session.
    #[inline(always)]
    fn dispatch(&mut self, message: Message, now: u64) -> DownStep
        requires open { self.old.closed ≡ false }
        requires read { message_of message.frame ≡ Ok message.content }
        requires spelled { Spells message.frame message.content }
        requires kind { kind_in message.content ≡ types.Tdispatch }
        requires drained { has_acked self.old.drain ≡ false }
        requires room { room_refusal (figures_in self.old) types.Tdispatch ≡ None }
        requires tag { (message.frame.tag == 0) ≡ false }
        ensures step { LeadsOn self.old (λ p q. FrameStep p (record {
          frame = message.frame;
          as_read = true;
        }) now (Ok result) q) self.new }
    {
        let tag = message.tag();
        let left = self.limits.retries() as u8;
        let Some(name) = self.begin(tag, left) else {
            self.close_for(Cause::TagInUse, now);
            return DownStep::Closing(Cause::TagInUse);
        };
        self.write(now, RecordKind::Took, tag, Some(name), None);
        DownStep::Take(Ticket::new(name, Dispatch::new(message), left))
    }

    /// The name of the next dispatch. With it initiation is over.
    fn next_name(&mut self) -> Name
        requires { self.old.dispatches < last_seq }
        ensures result { result ≡ naming self.old (self.old.dispatches + 1) }
        ensures new { self.new ≡ numbering self.old }
    {
        self.dispatches += 1;
        self.init.named();
        self.naming(self.dispatches)
    }

    /// Begins the entry of the next dispatch, unless its tag is in use.
    #[inline(always)]
    fn begin(&mut self, tag: u32, left: u8) -> Option<Name>
        requires number { self.old.dispatches < last_seq }
        requires tag { tag ≤ MAX_TAG }
        requires load { length self.old.book < self.old.limits.window }
        requires records { 3 + 2 * left ≤ free_records (figures_in self.old) }
        requires out { 1 ≤ free_out (figures_in self.old) }
        ensures free { OnSome result (open_at tag self.old.book ≡ None) }
        ensures result { IfSome result (λ name. name ≡ naming self.old (self.old.dispatches + 1)) }
        ensures new { OnSome result (self.new ≡ taking self.old tag left) }
        ensures records { OnSome result
            (free_records (figures_in self.old) ≡ free_records (figures_in self.new) + (3 + 2 * left)) }
        ensures taken { IfNone result (IsSome (open_at tag self.old.book)) }
        ensures unchanged { IfNone result (self.new ≡ self.old) }
    {
        if !self.book.try_add(self.dispatches + 1, tag, left) {
            return None;
        }
        self.dispatches += 1;
        self.init.named();
        self.in_use += 1;
        self.kept += 3 + 2 * usize::from(left);
        Some(self.naming(self.dispatches))
    }

    /// A Tdiscarded: the dispatch that is open on the tag that it names is answered at once, and
    /// recalled where its place is known.
    #[inline(always)]
    fn discard(&mut self, message: Message, now: u64) -> DownStep
        requires open { self.old.closed ≡ false }
        requires read { message_of message.frame ≡ Ok message.content }
        requires spelled { Spells message.frame message.content }
        requires kind { kind_in message.content ≡ types.Tdiscarded }
        requires room { room_refusal (figures_in self.old) types.Tdiscarded ≡ None }
        ensures step { LeadsOn self.old (λ p q. FrameStep p (record {
          frame = message.frame;
          as_read = true;
        }) now (Ok result) q) self.new }
    {
        let tag = message.discard_tag();
        let _held = self.book.len();
        let Some(seq) = self.book.at_tag(tag) else {
            self.write(now, RecordKind::Ignored, message.tag(), None, None);
            return DownStep::Nothing;
        };
        self.give_up(seq, tag, message.into_why(), now)
    }

    /// Answers an open dispatch that its client discards for a reason.
    fn give_up(&mut self, seq: u64, tag: u32, why: Bytes, now: u64) -> DownStep
        requires open { HasEntry self.old.book seq (λ e. is_open e ≡ true) }
        requires tag { tag ≤ MAX_TAG }
        requires records { 1 ≤ free_records (figures_in self.old) }
        ensures result { result ≡ given_up_by (naming self.old seq) (entry_at seq (shut_in self.old seq why).book) }
        ensures new { self.new ≡ given_up_in self.old now seq tag why }
    {
        let name = self.naming(seq);
        let index = self.book.index_of(seq);
        let place = self.noted_place(index, seq);
        let _effect = self.change(index, seq, Change::Shut(Some(Why::Reason(why))));
        let given = self.call_back(index, seq);
        let recalled = given.is_some();
        self.write(
            now,
            RecordKind::Discarded { recalled },
            tag,
            Some(name),
            Some(rdiscarded(tag)),
        );
        recalled_by(name, place, given)
    }

    /// The place of a dispatch at a server, where it is known.
    fn noted_place(&self, index: usize, seq: u64) -> Option<Place>
        ensures { result ≡ place_at (entry_at seq self.now.book) }
    {
        let Some(entry) = self.book.get_at(index, seq) else {
            return None;
        };
        match entry.note {
            NoteState::Noted(place) => Some(place),
            _ => None,
        }
    }

    /// Answers a message that is neither a dispatch nor a Tdiscarded.
    #[inline(always)]
    fn answer_plainly(&mut self, message: Message, now: u64) -> DownStep
        requires open { self.old.closed ≡ false }
        requires read { message_of message.frame ≡ Ok message.content }
        requires spelled { Spells message.frame message.content }
        requires plain { is_plain (kind_in message.content) ≡ true }
        requires room { room_refusal (figures_in self.old) (kind_in message.content) ≡ None }
        requires cause { closing_cause (is_some (open_at message.frame.tag self.old.book))
            message.frame.tag (kind_in message.content)
            ≡ None }
        ensures step { LeadsOn self.old (λ p q. FrameStep p (record {
          frame = message.frame;
          as_read = true;
        }) now (Ok result) q) self.new }
    {
        self.react(&message, now)
    }

    fn react(&mut self, message: &Message, now: u64) -> DownStep
        requires out { 1 ≤ free_out (figures_in self.old) }
        requires records { 1 ≤ free_records (figures_in self.old) }
        ensures { (result ≡ DownStep.Nothing)
            × (self.new
            ≡ reacted_in self.old now message.now.frame
            (plainly (is_fresh_init self.old.init) (acks message.now.frame.tag self.old.drain)
            message.now.frame.tag message.now.content)) }
    {
        let kind = self.init_kind(message.kind());
        match self.init.step(message) {
            InitStep::Send(frame) => {
                self.write(now, kind, message.tag(), None, Some(frame));
                DownStep::Nothing
            }
            _ => self.answer_other(message, now),
        }
    }

    /// The record of what initiation answers to a message of this kind.
    fn init_kind(&self, kind: MessageKind) -> RecordKind
        ensures { result ≡ init_kind (is_fresh_init self.now.init) kind }
    {
        match (self.init, kind) {
            (ServerInit::Fresh, MessageKind::Tinit) => RecordKind::InitDone,
            (ServerInit::Done, MessageKind::Tinit) => RecordKind::OutOfPlace,
            _ => RecordKind::Echoed,
        }
    }

    /// Answers a message that is none of initiation.
    fn answer_other(&mut self, message: &Message, now: u64) -> DownStep
        requires out { 1 ≤ free_out (figures_in self.old) }
        requires records { 1 ≤ free_records (figures_in self.old) }
        ensures { (result ≡ DownStep.Nothing)
            × (self.new
            ≡ reacted_in self.old now message.now.frame
            (otherwise (acks message.now.frame.tag self.old.drain) message.now.frame.tag message.now.content)) }
    {
        let tag = message.tag();
        match message.kind() {
            MessageKind::Tping => self.write(now, RecordKind::Ponged, tag, None, Some(rping(tag))),
            MessageKind::Treq | MessageKind::Tdrain | MessageKind::Tlease => {
                self.not_supported(tag, now)
            }
            MessageKind::Other(kind) if kind > 0 => self.not_supported(tag, now),
            MessageKind::Rdrain if self.drain.acks(tag) => self.be_drained(tag, now),
            _ => self.write(now, RecordKind::Ignored, tag, None, None),
        }
        DownStep::Nothing
    }

    /// On tag 0 nothing is answered.
    fn not_supported(&mut self, tag: u32, now: u64)
        requires tag { tag < 2 ^ 24 }
        requires out { 1 ≤ free_out (figures_in self.old) }
        requires records { 1 ≤ free_records (figures_in self.old) }
        ensures { (f : MuxFrame) → f.tag ≡ tag → self.new ≡ reacted_in self.old now f (asks_other tag) }
    {
        if tag == 0 {
            self.write(now, RecordKind::Ignored, tag, None, None);
        } else {
            self.write(
                now,
                RecordKind::Unsupported,
                tag,
                None,
                Some(unsupported(tag)),
            );
        }
    }

    /// The client has answered the Tdrain.
    fn be_drained(&mut self, tag: u32, now: u64)
        requires acks { acks tag self.old.drain ≡ true }
        requires records { 1 ≤ free_records (figures_in self.old) }
        ensures { self.new
            ≡ noted (record self.old { drain = DrainOut.Acked }) now RecordKind.DrainAcked tag None None }
    {
        let _acked = self.drain.ack(tag);
        self.write(now, RecordKind::DrainAcked, tag, None, None);
    }
}

/// The recall of a dispatch whose place is known, if one is due.
fn recalled_by(name: Name, place: Option<Place>, why: Option<Why>) -> DownStep
    ensures { result ≡ recall_by name place why }
{
    match (place, why) {
        (Some(place), Some(why)) => {
            DownStep::Recall(Recall::new(name, place.server, place.tag, why))
        }
        _ => DownStep::Nothing,
    }
}

fn cause_of(fault: MessageFault) -> Cause
    ensures { result ≡ cause_in fault }
{
    match fault {
        MessageFault::Fragment => Cause::Fragment,
        MessageFault::BadBody { place } => Cause::BadBody { place },
    }
}
