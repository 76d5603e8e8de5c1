//! The tags on which a server was sent a dispatch, whose final reply or loss wasn't told yet.
ghost use Rattle.std.specs.Prelude.{◌≡◌, ◌<◌, ℕ, false, is_some, nat_eq};
ghost use Rattle.indexmap.specs.IndexMap.{get, spare};
ghost use Rattle.mux_agree.specs.Outlines.{sent_after};
ghost use Rattle.rolling_audit.specs.Sent.{SentGoOn, UsesSent, sent_use_of};

use indexmap::IndexMap;
use mux_history::{Record, RecordKind};

/// What a record makes of its tag.
#[derive(Clone, Copy)]
pub(crate) enum SentUse {
    Sends,
    Settles,
    Clears,
    Keeps,
}

#[inline(always)]
fn sent_use_of(kind: RecordKind) -> SentUse
    ensures { result ≡ sent_use_of kind }
{
    match kind {
        RecordKind::Offered => SentUse::Sends,
        RecordKind::Settled(_) | RecordKind::SettledNack | RecordKind::LostOne => SentUse::Settles,
        RecordKind::Epoch { .. } => SentUse::Clears,
        _ => SentUse::Keeps,
    }
}

/// The tags are those behind the record.
#[tactic(auto, using(crate::proofs::Outs::sent_goes_on))]
#[inline(always)]
pub(crate) fn follow(sent: &mut IndexMap<u32, u32>, met: &Record)
    requires { 0 < spare sent.old }
    ensures { SentGoOn (λ t. is_some (get nat_eq sent.old t)) met.now (λ t. is_some (get nat_eq sent.new t)) }
{
    use_tag(sent, met);
}

#[inline(always)]
fn use_tag(sent: &mut IndexMap<u32, u32>, met: &Record)
    requires { 0 < spare sent.old }
    ensures { UsesSent (sent_use_of met.now.kind) (λ t. is_some (get nat_eq sent.old t)) met.now
        (λ t. is_some (get nat_eq sent.new t)) }
{
    match sent_use_of(met.kind()) {
        SentUse::Sends => match sent.insert(met.tag(), met.tag()) {
            Ok(_) => {}
            Err(_) => unreachable!(),
        },
        SentUse::Settles => {
            sent.swap_remove(&met.tag());
        }
        SentUse::Clears => sent.clear(),
        SentUse::Keeps => {}
    }
}
