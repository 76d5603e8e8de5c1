//! The dispatches of a client's session that wait for their note or their answer.
//!
//! The tables of kinds are those of `outline` in mux_agree: there for one name that is looked for, here for all names
//! at once.
ghost use Rattle.std.specs.Prelude.{◌≡◌, ◌==◌, ℕ, if◌then◌else◌, nat_eq};
ghost use Rattle.indexmap.specs.IndexMap.{get, index_map_len};
ghost use Rattle.mux_history.specs.declared.name.Name.{Name};
ghost use Rattle.mux_history.specs.Readings.{answer_kind, note_kind};
ghost use Rattle.rolling_audit.specs.Dues.{AreKept, DuesGoOn, HasPlace, UsesDue, due_after, due_at, due_of, kept_due, none_due};

use indexmap::IndexMap;
use mux_agree::kinds::is_epoch;
use mux_history::{Record, RecordKind};
use std::alloc::Global;

/// What is due of a dispatch.
#[derive(Clone, Copy)]
pub struct Due {
    pub note: bool,
    pub answer: bool,
}

/// The dispatches of one client of which something is due, by their numbers.
#[derive(Drop)]
pub struct Dues {
    pub due: IndexMap<u64, Due>,
}

#[inline(always)]
fn note_after(kind: RecordKind, before: bool) -> bool
    ensures { result ≡ note_kind kind before }
{
    match kind {
        RecordKind::Took | RecordKind::Retried => true,
        RecordKind::Noted { .. }
        | RecordKind::Nacked
        | RecordKind::Unrouted
        | RecordKind::Late { whole: true } => false,
        _ => before,
    }
}

#[inline(always)]
fn answer_after(kind: RecordKind, before: bool) -> bool
    ensures { result ≡ answer_kind kind before }
{
    match kind {
        RecordKind::Took => true,
        RecordKind::Passed
        | RecordKind::Failed
        | RecordKind::Nacked
        | RecordKind::Unrouted
        | RecordKind::Late { .. } => false,
        _ => before,
    }
}

impl Due {
    /// What is due behind a record of this kind.
    #[inline(always)]
    pub fn after(self, kind: RecordKind) -> Due
        ensures { result ≡ due_after kind self }
    {
        Due {
            note: note_after(kind, self.note),
            answer: answer_after(kind, self.answer),
        }
    }
}

impl Dues {
    /// Of no records.
    pub fn of(alloc: Global) -> Dues
        ensures due { (boot client : ℕ) (n : Name) → due_of boot client result n ≡ none_due }
        ensures kept { AreKept result }
    {
        Dues {
            due: IndexMap::new(alloc),
        }
    }

    /// Whether nothing is due.
    pub fn is_empty(&self) -> bool
        ensures { result ≡ (index_map_len self.now.due == 0) }
    {
        self.due.is_empty()
    }

    #[inline(always)]
    fn at(&self, seq: u64) -> Due
        ensures { result ≡ due_at (get nat_eq self.now.due seq) }
    {
        match self.due.get(&seq) {
            Some(due) => *due,
            None => Due {
                note: false,
                answer: false,
            },
        }
    }

    /// Follows a record of the client.
    #[tactic(auto, using(crate::proofs::Waiting::dues_go_on))]
    #[inline(always)]
    pub fn follow(&mut self, met: &Record)
        requires { HasPlace self.old }
        ensures { DuesGoOn self.old met.now self.new }
    {
        self.use_record(met);
    }

    #[inline(always)]
    fn use_record(&mut self, met: &Record)
        requires { HasPlace self.old }
        ensures { UsesDue self.old met.now self.new }
    {
        if is_epoch(met.kind()) {
            self.due.clear();
            return;
        }
        if let Some(name) = met.name() {
            let due = self.at(name.seq).after(met.kind());
            self.set(name.seq, due);
        }
    }

    /// Keeps what is due of a number.
    #[inline(always)]
    fn set(&mut self, seq: u64, due: Due)
        requires { HasPlace self.old }
        ensures { (k : ℕ) → get nat_eq self.new.due k ≡ (if nat_eq seq k then kept_due due else get nat_eq self.old.due k) }
    {
        if !(due.note || due.answer) {
            self.due.swap_remove(&seq);
            return;
        }
        match self.due.insert(seq, due) {
            Ok(_) => {}
            Err(_) => unreachable!(),
        }
    }
}
