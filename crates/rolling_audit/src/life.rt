//! What the records so far tell of one dispatch.
ghost use Rattle.std.specs.Prelude.{◌≡◌, ◌≤◌, ◌+◌, ◌&&◌, false, IfSome, IsNone};
ghost use Rattle.mux_agree.specs.Agree.{answers, is_lost_one};
ghost use Rattle.rolling_audit.specs.Counted.{one};
ghost use Rattle.rolling_audit.specs.Lives.{CountsLife, IsFull, LivesOn, flaw_of, is_done, is_ended_life, is_note, is_settled, no_life};
ghost use Rattle.rolling_audit.specs.Recalls.{gives_recall};

use crate::dues::Due;
use crate::fault::Flaw;
use crate::trace::Trace;
use mux_agree::Fact;
use mux_history::RecordKind;

/// Whether a step of this kind gave a recall.
pub fn gives_recall(kind: RecordKind) -> bool
    ensures { result ≡ gives_recall kind }
{
    matches!(
        kind,
        RecordKind::Discarded { recalled: true }
            | RecordKind::Noted { recalled: true }
            | RecordKind::Recalled
    )
}

/// What the records so far tell of one dispatch.
#[derive(Clone, Copy)]
pub struct Life {
    /// How often they tell it, over all sessions.
    pub trace: Trace,
    /// What its client's session waits for.
    pub due: Due,
    /// How often its client noted where it went.
    pub noted: u8,
    /// How often its loss was told.
    pub lost: u8,
    pub answered: bool,
    pub passed: bool,
    pub failed: bool,
    /// A step gave a recall of it.
    pub gave_recall: bool,
}

impl Life {
    /// Of no records.
    pub fn none() -> Life
        ensures { result ≡ no_life }
    {
        Life {
            trace: Trace::none(),
            due: Due {
                note: false,
                answer: false,
            },
            noted: 0,
            lost: 0,
            answered: false,
            passed: false,
            failed: false,
            gave_recall: false,
        }
    }

    /// Whether a record of this kind answers it again.
    pub fn is_answered_by(&self, kind: RecordKind) -> bool
        ensures { result ≡ (answers kind && self.now.answered) }
    {
        Fact::Answered.is_shown_by(kind) && self.answered
    }

    /// With one record of it more, of a client's session or a server's. None where a count has no room.
    #[tactic(auto, using(crate::proofs::Counting::lives_on_if))]
    pub fn count(self, of_client: bool, kind: RecordKind) -> Option<Life>
        ensures one { IfSome result (λ m. CountsLife self of_client kind m) }
        ensures law { (answers kind && self.answered) ≡ false → IfSome result (λ m. LivesOn self of_client kind m) }
        ensures none { IsNone result → IsFull self }
    {
        self.counted(of_client, kind)
    }

    fn counted(self, of_client: bool, kind: RecordKind) -> Option<Life>
        ensures one { IfSome result (λ m. CountsLife self of_client kind m) }
        ensures none { IsNone result → IsFull self }
    {
        let trace = self.trace.count(of_client, kind)?;
        let (noted, lost) = self.places(kind)?;
        Some(Life {
            trace,
            due: self.due.after(kind),
            noted,
            lost,
            answered: Fact::Answered.is_shown_by(kind) || self.answered,
            passed: matches!(kind, RecordKind::Passed) || self.passed,
            failed: matches!(kind, RecordKind::Failed) || self.failed,
            gave_recall: gives_recall(kind) || self.gave_recall,
        })
    }

    /// How often its place was noted, and how often its loss was told.
    fn places(self, kind: RecordKind) -> Option<(u8, u8)>
        ensures noted { IfSome result (λ p. p.0 ≡ one (is_note kind) + self.noted) }
        ensures lost { IfSome result (λ p. p.1 ≡ one (is_lost_one kind) + self.lost) }
        ensures none { IsNone result → 255 ≤ self.noted + self.lost }
    {
        match kind {
            RecordKind::Noted { .. } => Some((self.noted.checked_add(1)?, self.lost)),
            RecordKind::LostOne => Some((self.noted, self.lost.checked_add(1)?)),
            _ => Some((self.noted, self.lost)),
        }
    }

    /// Which of its records aren't borne out by the others.
    pub fn flaw(&self) -> Option<Flaw>
        ensures { result ≡ flaw_of self.now }
    {
        if !self.trace.taken {
            Some(Flaw::Untaken)
        } else if self.trace.offered > 0 && !self.trace.bears(RecordKind::Offered) {
            Some(Flaw::Offered)
        } else if self.trace.retried > 0 && !self.trace.bears(RecordKind::Retried) {
            Some(Flaw::Retried)
        } else if self.passed && !self.trace.bears(RecordKind::Passed) {
            Some(Flaw::Passed)
        } else if self.failed && !self.trace.bears(RecordKind::Failed) {
            Some(Flaw::Failed)
        } else {
            None
        }
    }

    /// Whether its client waits for nothing, each place that was noted is that of a sending, and each sending had its
    /// reply or its loss.
    fn is_settled(&self) -> bool
        ensures { result ≡ is_settled self.now }
    {
        if self.due.note || self.due.answer {
            return false;
        }
        let ended = self.trace.settled as u16 + self.trace.nacked_back as u16 + self.lost as u16;
        self.trace.offered == self.noted && ended == self.trace.offered as u16
    }

    /// Whether a client took it, and its recall, if a step gave one, was sent or has an end.
    pub fn is_ended(&self) -> bool
        ensures { result ≡ is_ended_life self.now }
    {
        self.trace.taken && !(self.gave_recall && !self.trace.has_end())
    }

    /// Whether it is done with: a client took it and waits for nothing, each place that was noted is that of a sending,
    /// each sending had its reply or its loss, its recall has an end, and its records bear each other out.
    pub fn is_done(&self) -> bool
        ensures { result ≡ is_done self.now }
    {
        self.is_settled() && self.is_ended() && self.flaw().is_none()
    }
}
