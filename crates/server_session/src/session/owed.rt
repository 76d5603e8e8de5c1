//! The way of a dispatch that goes well: its place is noted and its reply passed on while its client waits.
//!
//! Each call comes in two: one looks at a value where it lies, and the other takes it and can't refuse it. So a value
//! is moved once, and only by its parts that are used. `answering` has the calls for any value.

ghost use Rattle.std.specs.Prelude.{◌≡◌, ◌≤◌, None, Ok, IfSome};
ghost use Rattle.translate_book.specs.declared.entry.Change.TheVariants as changes;

use super::ServerSession;
use mux_frame::retag;
use mux_history::RecordKind;
use mux_message::normal;
use translate_book::{Change, Place, Placed, Settled};

/// Where the entry of an open dispatch was seen, of which a note or a reply is due, and the client's tag. It stands
/// for one call, so it can't be copied.
#[derive(Drop)]
pub struct Owed {
    index: usize,
    tag: u32,
}

impl ServerSession {
    ghost use Rattle.server_session.specs.State.{changing, figures_in, HasEntry, IsAwaited, OwesNote, OwesReply};
    ghost use Rattle.server_session.specs.Decide.{free_out, free_records};
    ghost use Rattle.server_session.specs.Steps.{LeadsOn, NoteStep, SettleStep};
    ghost use Rattle.server_session.specs.declared.answers.Answer.TheVariants as whether;

    /// The open dispatch whose place this is, where its note is due.
    #[inline(always)]
    pub fn owes_note(&self, placed: &Placed) -> Option<Owed>
        ensures { IfSome result (λ o. OwesNote self.now placed.now.name o.tag) }
    {
        let name = placed.name();
        if name.boot != self.boot || name.client != self.client {
            return None;
        }
        let index = self.book.index_of(name.seq);
        let Some(entry) = self.book.get_at(index, name.seq) else {
            return None;
        };
        if !entry.is_note_due() || !entry.is_open() {
            return None;
        }
        let tag = entry.tag;
        Some(Owed { index, tag })
    }

    /// Notes the place of a dispatch for which `owes_note` gave this. No recall is due of it.
    #[inline(always)]
    pub fn note_owed(&mut self, owed: Owed, placed: Placed)
        requires { OwesNote self.old placed.name owed.tag }
        ensures { LeadsOn self.old (λ p q. NoteStep p placed (Ok None) q) self.new }
    {
        let name = placed.name();
        let place = Place {
            server: placed.server(),
            tag: placed.tag(),
        };
        let _effect = self.change_noted(owed.index, name.seq, place);
        let kind = RecordKind::Noted { recalled: false };
        self.write(0, kind, owed.tag, Some(name), None);
    }

    /// The open dispatch to which this is the reply, where its place is noted, and it can't be sent again.
    #[inline(always)]
    pub fn owes_reply(&self, settled: &Settled) -> Option<Owed>
        ensures last { IfSome result (λ o. settled.now.again ≡ None) }
        ensures due { IfSome result (λ o. OwesReply self.now settled.now.name o.tag) }
    {
        if settled.again().is_some() {
            return None;
        }
        let name = settled.name();
        if name.boot != self.boot || name.client != self.client {
            return None;
        }
        let index = self.book.index_of(name.seq);
        let Some(entry) = self.book.get_at(index, name.seq) else {
            return None;
        };
        if entry.is_note_due() || !entry.is_open() || entry.recalled {
            return None;
        }
        let tag = entry.tag;
        Some(Owed { index, tag })
    }

    /// Passes the reply on to a dispatch for which `owes_reply` gave this.
    #[inline(always)]
    pub fn pass_owed(&mut self, owed: Owed, settled: Settled)
        requires last { settled.again ≡ None }
        requires due { OwesReply self.old settled.name owed.tag }
        ensures { LeadsOn self.old (λ p q. SettleStep p settled (Ok whether.Answered) q) self.new }
    {
        let (name, reply, _none) = settled.into_parts();
        self.change_answered(owed.index, name.seq);
        let reply = retag(normal(reply), owed.tag);
        self.write(0, RecordKind::Passed, owed.tag, Some(name), Some(reply));
    }

    /// An awaited dispatch is answered, as `change` does: all that was kept for it is free.
    #[inline(always)]
    fn change_answered(&mut self, index: usize, seq: u64)
        requires { HasEntry self.old.book seq IsAwaited }
        ensures new { self.new ≡ changing self.old seq changes.Answer }
        ensures records { 1 ≤ free_records (figures_in self.new) }
        ensures out { 1 ≤ free_out (figures_in self.new) }
    {
        let Some(effect) = self.book.change_at(index, seq, Change::Answer) else {
            unreachable!()
        };
        self.in_use -= 1;
        self.kept -= 2 + 2 * usize::from(effect.was.left);
    }
}
