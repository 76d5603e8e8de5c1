//! What a session does with a message.
//!
//! Each step repeats what `frame` has found out by then as its `requires`: so heads are alike.

ghost use Rattle.std.specs.Prelude.{◌≡◌, ◌<◌, ◌≤◌, ◌^◌, ◌&&◌, ◌==◌, false, true, Ok, IfErr};
ghost use Rattle.mux_message.specs.Grammar.{Spells};
ghost use Rattle.mux_message.specs.Reading.{message_of};
ghost use Rattle.mux_history.specs.Lapse as lease;
ghost use Rattle.mux_history.specs.Readings.{is_open as is_ready};
ghost use Rattle.mux_model.specs.Up.{Pongs, Drains, Ignores, EndsPing, Drops, leases, asks_other, plainly};

use super::ClientSession;
use crate::answers::UpStep;
use gate::granted;
use mux_frame::Frame;
use mux_history::RecordKind;
use mux_message::made::{rdrain, rping, unsupported};
use mux_message::{Message, MessageKind};
use session_init::InitStep;
use translate_book::StepRefusal;

impl ClientSession {
    ghost use Rattle.client_session.specs.State.{figures_in, reacted_in};
    ghost use Rattle.client_session.specs.Belonging.{StepsBy};
    ghost use Rattle.client_session.specs.Decide.{free_out, free_records, otherwise};
    ghost use Rattle.client_session.specs.Steps.{FrameStep, told_by};

    /// Takes a message, or hands its frame back.
    #[inline(always)]
    pub(super) fn message(
        &mut self,
        message: Message,
        now: u64,
    ) -> Result<UpStep, (StepRefusal, Frame)>
        requires open { self.old.closed ≡ false }
        requires read { message_of message.frame ≡ Ok message.content }
        requires spelled { Spells message.frame message.content }
        ensures step { StepsBy self.old self.new (λ p q. FrameStep p (record {
          frame = message.frame;
          as_read = true;
        }) now result q) }
        ensures err { IfErr result (λ e. (e.1 ≡ record { frame = message.frame; as_read = true })
            × (self.new ≡ self.old)) }
    {
        if self.settles(&message) {
            return Ok(UpStep::Settled(self.settle(message.into_frame(), now)));
        }
        if let Some(refusal) = self.room_refusal() {
            return Err((refusal, message.into_frame()));
        }
        Ok(self.answer(&message, now))
    }

    /// Answers a message that neither closes nor settles.
    #[cold]
    fn answer(&mut self, message: &Message, now: u64) -> UpStep
        requires out { 1 ≤ free_out (figures_in self.old) }
        requires records { 1 ≤ free_records (figures_in self.old) }
        ensures { (result ≡ told_by (plainly self.old.init self.old.ping message.now.frame.tag message.now.content))
            × (self.new
            ≡ reacted_in self.old now message.now.frame.tag
            (plainly self.old.init self.old.ping message.now.frame.tag message.now.content)) }
    {
        match self.init.step(message) {
            InitStep::Send(tinit) => {
                self.write(now, RecordKind::InitAsked, message.tag(), None, Some(tinit));
                UpStep::Nothing
            }
            InitStep::Opened => {
                self.write(now, RecordKind::InitDone, message.tag(), None, None);
                UpStep::Nothing
            }
            InitStep::NotInit => self.react(message, now),
        }
    }

    /// Answers a message that is none of initiation.
    fn react(&mut self, message: &Message, now: u64) -> UpStep
        requires out { 1 ≤ free_out (figures_in self.old) }
        requires records { 1 ≤ free_records (figures_in self.old) }
        ensures { (result ≡ told_by (otherwise self.old.init self.old.ping message.now.frame.tag message.now.content))
            × (self.new
            ≡ reacted_in self.old now message.now.frame.tag
            (otherwise self.old.init self.old.ping message.now.frame.tag message.now.content)) }
    {
        let tag = message.tag();
        match message.kind() {
            MessageKind::Tping => self.pong(tag, now),
            MessageKind::Tdrain => self.be_drained(tag, now),
            MessageKind::Tlease => {
                let (unit, howmuch) = message.lease();
                self.be_leased(unit, howmuch, tag, now)
            }
            MessageKind::Tdiscarded => self.ignore(tag, now),
            MessageKind::Treq | MessageKind::Tdispatch | MessageKind::Tinit => {
                self.not_supported(tag, now)
            }
            MessageKind::Other(kind) if kind > 0 => self.not_supported(tag, now),
            MessageKind::Rping | MessageKind::Rerr if self.answers_ping(tag) => {
                self.end_ping(tag, now)
            }
            _ => self.stray(tag, now),
        }
    }

    /// A reply on this tag answers the ping that is out.
    fn answers_ping(&self, tag: u32) -> bool
        ensures { result ≡ is_ready self.now.init && self.now.ping && tag == 1 }
    {
        self.init.is_open() && self.ping && tag == 1
    }

    fn pong(&mut self, tag: u32, now: u64) -> UpStep
        requires tag { tag < 2 ^ 24 }
        requires out { 1 ≤ free_out (figures_in self.old) }
        requires records { 1 ≤ free_records (figures_in self.old) }
        ensures { (result ≡ UpStep.Nothing) × (self.new ≡ reacted_in self.old now tag Pongs) }
    {
        self.write(now, RecordKind::Ponged, tag, None, Some(rping(tag)));
        UpStep::Nothing
    }

    fn be_drained(&mut self, tag: u32, now: u64) -> UpStep
        requires tag { tag < 2 ^ 24 }
        requires out { 1 ≤ free_out (figures_in self.old) }
        requires records { 1 ≤ free_records (figures_in self.old) }
        ensures { (result ≡ UpStep.Nothing) × (self.new ≡ reacted_in self.old now tag Drains) }
    {
        self.drain.drain();
        self.write(now, RecordKind::Drained, tag, None, Some(rdrain(tag)));
        UpStep::Nothing
    }

    /// A lease counts from the reading with this `now`.
    fn be_leased(&mut self, unit: u8, howmuch: i64, tag: u32, now: u64) -> UpStep
        requires records { 1 ≤ free_records (figures_in self.old) }
        ensures { (result ≡ UpStep.Nothing)
            × (self.new ≡ reacted_in self.old now tag (leases (lease.granted unit howmuch))) }
    {
        let Some(duration) = granted(unit, howmuch) else {
            return self.ignore(tag, now);
        };
        self.lease = self.lease.grant(unit, howmuch, self.reading.max(now));
        self.write(now, RecordKind::Leased(duration), tag, None, None);
        UpStep::Nothing
    }

    fn ignore(&mut self, tag: u32, now: u64) -> UpStep
        requires records { 1 ≤ free_records (figures_in self.old) }
        ensures { (result ≡ UpStep.Nothing) × (self.new ≡ reacted_in self.old now tag Ignores) }
    {
        self.write(now, RecordKind::Ignored, tag, None, None);
        UpStep::Nothing
    }

    /// On tag 0 nothing is answered.
    fn not_supported(&mut self, tag: u32, now: u64) -> UpStep
        requires tag { tag < 2 ^ 24 }
        requires out { 1 ≤ free_out (figures_in self.old) }
        requires records { 1 ≤ free_records (figures_in self.old) }
        ensures { (result ≡ UpStep.Nothing) × (self.new ≡ reacted_in self.old now tag (asks_other tag)) }
    {
        if tag == 0 {
            return self.ignore(tag, now);
        }
        self.write(
            now,
            RecordKind::Unsupported,
            tag,
            None,
            Some(unsupported(tag)),
        );
        UpStep::Nothing
    }

    fn end_ping(&mut self, tag: u32, now: u64) -> UpStep
        requires records { 1 ≤ free_records (figures_in self.old) }
        ensures { (result ≡ UpStep.Nothing) × (self.new ≡ reacted_in self.old now tag EndsPing) }
    {
        self.ping = false;
        self.write(now, RecordKind::PingDone, tag, None, None);
        UpStep::Nothing
    }

    fn stray(&mut self, tag: u32, now: u64) -> UpStep
        requires records { 1 ≤ free_records (figures_in self.old) }
        ensures { (result ≡ UpStep.Dropped) × (self.new ≡ reacted_in self.old now tag Drops) }
    {
        self.write(now, RecordKind::Dropped, tag, None, None);
        UpStep::Dropped
    }
}
