//! The causes for which a record is at fault.
ghost use Rattle.std.specs.Prelude.{◌≡◌};

use crate::agreement::disagreement::DisagreementCause;
use crate::agreement::fact::Fact;
use crate::agreement::histories::Histories;
use crate::agreement::past::Past;
use mux_history::{InitMode, Name, Record, RecordKind, SessionId};

/// A record where the walk meets it.
#[derive(Clone, Copy)]
pub struct Visit<'a> {
    /// Every history.
    pub all: Histories<'a>,
    /// The histories before the record's own.
    pub earlier: Histories<'a>,
    pub session: SessionId,
    pub mode: InitMode,
    /// The records before it in its own session.
    pub past: Past<'a>,
    pub met: Record,
}

impl Visit<'_> {
    ghost use Rattle.std.specs.Prelude.{◌&&◌, nat_le};
    ghost use Rattle.mux_history.specs.Holders.{holds_own, name_on};
    ghost use Rattle.mux_history.specs.Lapse.{lease_of};
    ghost use Rattle.mux_agree.specs.Agree.{is_replied, times};
    ghost use Rattle.mux_history.specs.Readings.{is_offered};
    ghost use Rattle.mux_agree.specs.Agree.{has, is_answered_twice, is_never_sent, is_sent_twice};
    ghost use Rattle.mux_agree.specs.Agree.{is_after_drain, is_bad_epoch, is_lost_but_settled};
    ghost use Rattle.mux_agree.specs.Agree.{cause_of, is_nacked_though_sent, is_on_lapsed, is_tag_fault};
    ghost use Rattle.mux_agree.specs.Facts.{shows};
    ghost use Rattle.mux_agree.specs.Seen.{clients_of, past_of, records_of, walked_of};

    /// Whether a record that the walk met before shows this of the name.
    #[tactic(auto, using(crate::proofs::Searches::has_append))]
    fn was_met(&self, fact: Fact, name: Name) -> bool
        ensures { result ≡ has (shows fact) name (walked_of self.now) }
    {
        self.past.has(fact, name) || self.earlier.has(fact, name)
    }

    /// Whether a name was offered more often than once and as often as it might be again, or might
    /// be more often than it was nacked.
    fn is_sent_twice(&self) -> bool
        ensures { result ≡ is_sent_twice (records_of self.now.all) self.now.met }
    {
        match (self.met.kind(), self.met.name()) {
            (RecordKind::Offered, Some(name)) => {
                let allowed = self.all.times(Fact::SentAgain, name).plus(1);
                self.all.times(Fact::Sent, name).is_above(allowed)
            }
            (RecordKind::Retried, Some(name)) => {
                self.all.has_more(Fact::SentAgain, Fact::NackedBack, name)
            }
            _ => false,
        }
    }

    /// Whether a name was answered before.
    fn is_answered_twice(&self) -> bool
        ensures { result ≡ is_answered_twice (walked_of self.now) self.now.met }
    {
        match self.met.name() {
            Some(name) => {
                Fact::Answered.is_shown_by(self.met.kind()) && self.was_met(Fact::Answered, name)
            }
            None => false,
        }
    }

    /// Whether the reply of a dispatch that was passed on is borne out.
    fn is_replied(&self, name: Name) -> bool
        ensures { let all = records_of self.now.all in
            result ≡ (has is_offered name all && has is_replied name all
            && nat_le (times is_offered name all) (times is_replied name all)) }
    {
        self.all.has(Fact::Sent, name)
            && self.all.has(Fact::Replied, name)
            && !self.all.has_more(Fact::Sent, Fact::Replied, name)
    }

    /// Whether nothing bears out that a dispatch was offered, passed on or failed.
    fn is_never_sent(&self) -> bool
        ensures { let all = self.now.all in
            result ≡ is_never_sent (clients_of all) (records_of all) self.now.met }
    {
        match (self.met.kind(), self.met.name()) {
            (RecordKind::Offered, Some(name)) => !self.all.client_has(Fact::Taken, name),
            (RecordKind::Passed, Some(name)) => !self.is_replied(name),
            (RecordKind::Failed, Some(name)) => !self.all.has(Fact::Sent, name),
            (RecordKind::Offered | RecordKind::Passed | RecordKind::Failed, None) => true,
            _ => false,
        }
    }

    /// Whether a name that was offered was nacked as one whose every offer was nacked.
    fn is_nacked_though_sent(&self) -> bool
        ensures { result ≡ is_nacked_though_sent (records_of self.now.all) self.now.met }
    {
        match (self.met.kind(), self.met.name()) {
            (RecordKind::Offered, Some(name)) => {
                self.all.has(Fact::Refused, name)
                    || (self.all.has(Fact::Nacked, name)
                        && self.all.has_more(Fact::Sent, Fact::NackedBack, name))
            }
            _ => false,
        }
    }

    /// Whether a name failed that was settled, or was not lost.
    fn is_lost_but_settled(&self) -> bool
        ensures { result ≡ is_lost_but_settled (records_of self.now.all) self.now.met }
    {
        match (self.met.kind(), self.met.name()) {
            (RecordKind::Failed, Some(name)) => {
                self.all.has(Fact::Sent, name)
                    && (self.all.has(Fact::Settled, name) || !self.all.has(Fact::Missing, name))
            }
            _ => false,
        }
    }

    /// The name under which the record's tag is open.
    #[tactic(auto, using(crate::proofs::Words::held_by))]
    fn held(&self) -> Option<Name>
        ensures { result ≡ name_on self.now.met.tag (past_of self.now.past) }
    {
        self.past.outline(self.met).held
    }

    /// Whether the record's tag is open under the record's own name.
    fn holds_own(&self) -> bool
        ensures { result ≡ holds_own (past_of self.now.past) self.now.met }
    {
        match self.met.name() {
            Some(name) => self.held() == Some(name),
            None => false,
        }
    }

    /// Whether a dispatch came on an open tag, or the end of one whose tag isn't open under its name.
    fn is_tag_fault(&self) -> bool
        ensures { result ≡ is_tag_fault (past_of self.now.past) self.now.met }
    {
        match self.met.kind() {
            RecordKind::Took | RecordKind::TookDrained | RecordKind::Offered => {
                self.held().is_some()
            }
            RecordKind::Settled(_)
            | RecordKind::SettledNack
            | RecordKind::Discarded { .. }
            | RecordKind::Passed
            | RecordKind::Nacked
            | RecordKind::Unrouted
            | RecordKind::Failed => !self.holds_own(),
            _ => false,
        }
    }

    /// Whether a dispatch was offered after the drain.
    #[tactic(auto, using(crate::proofs::Words::drained_by))]
    fn is_after_drain(&self) -> bool
        ensures { result ≡ is_after_drain (past_of self.now.past) self.now.met }
    {
        match self.met.kind() {
            RecordKind::Offered => self.past.outline(self.met).drained,
            _ => false,
        }
    }

    /// The reading from which on the session's last lease has lapsed.
    #[tactic(auto, using(crate::proofs::Words::lease_by))]
    fn lease(&self) -> Option<u64>
        ensures { result ≡ lease_of (past_of self.now.past) }
    {
        self.past.outline(self.met).lease
    }

    /// Whether a dispatch was offered on a lapsed lease.
    fn is_on_lapsed(&self) -> bool
        ensures { result ≡ is_on_lapsed (past_of self.now.past) self.now.met }
    {
        match self.met.kind() {
            RecordKind::Offered => match self.lease() {
                Some(lapse) => lapse <= self.met.reading(),
                None => false,
            },
            _ => false,
        }
    }

    /// Whether an epoch began that isn't what the records before it lead to.
    fn is_bad_epoch(&self) -> bool
        ensures { result ≡ is_bad_epoch self.now.mode self.now.session (past_of self.now.past) self.now.met }
    {
        !self.past.leads_to(self.mode, self.session, &self.met)
    }

    /// The least cause of the record.
    pub fn cause(&self) -> Option<DisagreementCause>
        ensures { let all = self.now.all in
            result ≡ cause_of self.now.mode self.now.session (clients_of all) (records_of all)
            (walked_of self.now) (past_of self.now.past) self.now.met }
    {
        if self.is_sent_twice() {
            Some(DisagreementCause::SentTwice)
        } else if self.is_answered_twice() {
            Some(DisagreementCause::AnsweredTwice)
        } else if self.is_never_sent() {
            Some(DisagreementCause::NeverSent)
        } else if self.is_nacked_though_sent() {
            Some(DisagreementCause::NackOfSent)
        } else if self.is_lost_but_settled() {
            Some(DisagreementCause::LostButSettled)
        } else if self.is_tag_fault() {
            Some(DisagreementCause::TagOpen)
        } else if self.is_after_drain() {
            Some(DisagreementCause::AfterDrain)
        } else if self.is_on_lapsed() {
            Some(DisagreementCause::Lapsed)
        } else if self.is_bad_epoch() {
            Some(DisagreementCause::BadEpoch)
        } else {
            None
        }
    }
}
