//! The tags that are open in a session, and who holds each.
ghost use Rattle.std.specs.Prelude.{◌≡◌, ◌<◌, ℕ, IsTrue, None, Some, is_some, false, nat_eq, not, true};
ghost use Rattle.indexmap.specs.IndexMap.{get, spare};
ghost use Rattle.mux_history.specs.Holders.{of_named};
ghost use Rattle.mux_history.specs.Readings.{is_named};
ghost use Rattle.rolling_audit.specs.Sessions.{MisusesTag, TagsGoOn, UsesTag, held_as, tag_fault_by, tag_use_of};

use indexmap::IndexMap;
use mux_history::{Name, Record, RecordKind};

/// What a record does to its tag.
#[derive(Clone, Copy)]
pub(crate) enum TagUse {
    /// A dispatch begins on it.
    Opens,
    /// A dispatch comes on it that gets no place.
    Meets,
    /// The end of the dispatch that holds it.
    Frees,
    /// No tag is open any more.
    Clears,
    Keeps,
}

#[inline(always)]
fn tag_use_of(kind: RecordKind) -> TagUse
    ensures { result ≡ tag_use_of kind }
{
    match kind {
        RecordKind::Took | RecordKind::Offered => TagUse::Opens,
        RecordKind::TookDrained => TagUse::Meets,
        RecordKind::Discarded { .. }
        | RecordKind::Passed
        | RecordKind::Nacked
        | RecordKind::Unrouted
        | RecordKind::Failed
        | RecordKind::Settled(_)
        | RecordKind::SettledNack => TagUse::Frees,
        RecordKind::Epoch { .. } => TagUse::Clears,
        _ => TagUse::Keeps,
    }
}

/// Opens a tag under a name: whether it was free. Without a name it stays so.
#[inline(always)]
fn open(tags: &mut IndexMap<u32, Name>, tag: u32, name: Option<Name>) -> bool
    requires { 0 < spare tags.old }
    ensures free { result ≡ not (is_some (get nat_eq tags.old tag)) }
    ensures held { IsTrue result → (t : ℕ) → get nat_eq tags.new t ≡ held_as (nat_eq tag t) name (get nat_eq tags.old t) }
{
    if tags.contains_key(&tag) {
        return false;
    }
    if let Some(name) = name {
        match tags.insert(tag, name) {
            Ok(_) => {}
            Err(_) => unreachable!(),
        }
    }
    true
}

/// Frees a tag: whether it was open under this name.
#[inline(always)]
fn free(tags: &mut IndexMap<u32, Name>, tag: u32, name: Option<Name>) -> bool
    ensures own { result ≡ of_named (λ n. is_named n (get nat_eq tags.old tag)) name }
    ensures held { (t : ℕ) → get nat_eq tags.new t ≡ held_as (nat_eq tag t) None (get nat_eq tags.old t) }
{
    let held = tags.swap_remove(&tag);
    match name {
        Some(name) => held == Some(name),
        None => false,
    }
}

/// Whether the record has no fault of its tag; the tags are those behind it then.
#[tactic(auto, using(crate::proofs::Sessions::tags_go_on, crate::proofs::Sessions::tags_misused))]
#[inline(always)]
pub(crate) fn follow(tags: &mut IndexMap<u32, Name>, met: &Record) -> bool
    requires { 0 < spare tags.old }
    ensures yes { IsTrue result → TagsGoOn (get nat_eq tags.old) met.now (get nat_eq tags.new) }
    ensures no { result ≡ false → tag_fault_by (get nat_eq tags.old) met.now ≡ true }
{
    use_tag(tags, met)
}

#[inline(always)]
fn use_tag(tags: &mut IndexMap<u32, Name>, met: &Record) -> bool
    requires { 0 < spare tags.old }
    ensures yes { IsTrue result → UsesTag (tag_use_of met.now.kind) (get nat_eq tags.old) met.now (get nat_eq tags.new) }
    ensures no { result ≡ false → MisusesTag (tag_use_of met.now.kind) (get nat_eq tags.old) met.now }
{
    match tag_use_of(met.kind()) {
        TagUse::Opens => open(tags, met.tag(), met.name()),
        TagUse::Meets => !tags.contains_key(&met.tag()),
        TagUse::Frees => free(tags, met.tag(), met.name()),
        TagUse::Clears => {
            tags.clear();
            true
        }
        TagUse::Keeps => true,
    }
}
