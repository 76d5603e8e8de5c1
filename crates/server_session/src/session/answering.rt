//! What comes back of a dispatch: where it was placed, and its answer.

ghost use Rattle.std.specs.Prelude.{◌≡◌, ◌≤◌, ◌&&◌, ◌||◌, ◌<◌, ◌-◌, false, true, None, Some, IfErr, IfSome, IsTrue, if◌then◌else◌};
ghost use Rattle.mux_frame.specs.declared.frame.TheConstants.{MAX_TAG};
ghost use Rattle.mux_message.specs.Made.{retag as retagged};
ghost use Rattle.mux_message.specs.Spellings.{normal as normal_of};
ghost use Rattle.mux_model.specs.Steps.{is_nack};
ghost use Rattle.translate_book.specs.Book.{entry_at};
ghost use Rattle.translate_book.specs.Entries.{is_open, is_note_due, is_answer_due};
ghost use Rattle.server_session.specs.State.{waits_due};

use super::ServerSession;
use crate::answers::Answer;
use mux_frame::{Frame, retag};
use mux_history::{Name, RecordKind};
use mux_message::made::{nack, no_route, upstream_lost};
use mux_message::{MessageKind, normal};
use translate_book::{
    Change, Dues, KeptDispatch, Lost, NoteState, Place, Placed, Recall, Settled, Ticket, Why,
};

impl ServerSession {
    ghost use Rattle.server_session.specs.Past.{Past};
    ghost use Rattle.server_session.specs.State.{naming, figures_in, noted, changing, calling_back, answered_in, retried_in, placed_in, noted_in, owes_at, recall_to, due_in, may_retry, the_place, HasEntry, ForEntry};
    ghost use Rattle.server_session.specs.Decide.{free_out, free_records};
    ghost use Rattle.translate_book.specs.Entries.{recall_from, reason_of, owes_recall, is_noted_in};
    ghost use Rattle.mux_history.specs.Packing.{is_plain};
    ghost use Rattle.translate_book.specs.declared.entry.Change.TheVariants as changes;
    ghost use Rattle.mux_history.specs.declared.kind.RecordKind.TheVariants as kinds;
    ghost use Rattle.server_session.specs.Belonging.{Belongs};
    ghost use Rattle.server_session.specs.Steps.{LeadsOn, NoteStep, SettleStep, NackStep, UnrouteStep, FailStep};

    /// The place of a dispatch is known. It is recalled at once where the client has discarded it.
    ///
    /// # Errors
    ///
    /// The value as it was, where it isn't of this session, or no note is due of its dispatch.
    #[inline(always)]
    pub fn note(&mut self, placed: Placed) -> Result<Option<Recall>, Placed>
        ensures step { LeadsOn self.old (λ p q. NoteStep p placed result q) self.new }
        ensures err { IfErr result (λ e. (e ≡ placed) × (self.new ≡ self.old)) }
    {
        let name = placed.name();
        let index = self.book.index_of(name.seq);
        let Some(tag) = self.due(index, name, true, false) else {
            return Err(placed);
        };
        let place = Place {
            server: placed.server(),
            tag: placed.tag(),
        };
        Ok(self.keep_place(index, name, tag, place))
    }

    /// The final reply to a dispatch goes out on the client's tag. A nack is not passed on where the
    /// dispatch may be sent again.
    ///
    /// # Errors
    ///
    /// The value as it was, where it isn't of this session, or no answer is due of its dispatch.
    #[inline(always)]
    pub fn settle(&mut self, settled: Settled) -> Result<Answer, Settled>
        ensures step { LeadsOn self.old (λ p q. SettleStep p settled result q) self.new }
        ensures err { IfErr result (λ e. (e ≡ settled) × (self.new ≡ self.old)) }
    {
        let name = settled.name();
        let index = self.book.index_of(name.seq);
        let Some(tag) = self.due(index, name, false, true) else {
            return Err(settled);
        };
        let (_, reply, again) = settled.into_parts();
        match self.to_retry(index, name.seq, &reply, again) {
            Some(dispatch) => Ok(self.retry(index, name, tag, dispatch)),
            None => {
                let sent = self.pass(index, name, tag, reply);
                Ok(Answer::of(sent))
            }
        }
    }

    /// No server takes a dispatch now: it is nacked.
    ///
    /// # Errors
    ///
    /// The ticket as it was, where it isn't of this session, or no note or no answer is due of its
    /// dispatch.
    pub fn nack(&mut self, ticket: Ticket) -> Result<Answer, Ticket>
        ensures step { LeadsOn self.old (λ p q. NackStep p ticket result q) self.new }
        ensures err { IfErr result (λ e. (e ≡ ticket) × (self.new ≡ self.old)) }
    {
        let name = ticket.name();
        let index = self.book.index_of(name.seq);
        let Some(tag) = self.due(index, name, true, true) else {
            return Err(ticket);
        };
        let sent = self.answer(index, name, tag, RecordKind::Nacked, true, nack(tag));
        Ok(Answer::of(sent))
    }

    /// No server is known for a dispatch's destination.
    ///
    /// # Errors
    ///
    /// The ticket as it was, where it isn't of this session, or no note or no answer is due of its
    /// dispatch.
    pub fn unroute(&mut self, ticket: Ticket) -> Result<Answer, Ticket>
        ensures step { LeadsOn self.old (λ p q. UnrouteStep p ticket result q) self.new }
        ensures err { IfErr result (λ e. (e ≡ ticket) × (self.new ≡ self.old)) }
    {
        let name = ticket.name();
        let index = self.book.index_of(name.seq);
        let Some(tag) = self.due(index, name, true, true) else {
            return Err(ticket);
        };
        let sent = self.answer(index, name, tag, RecordKind::Unrouted, true, no_route(tag));
        Ok(Answer::of(sent))
    }

    /// The server that a dispatch was sent to is gone.
    ///
    /// # Errors
    ///
    /// The value as it was, where it isn't of this session, or no answer is due of its dispatch.
    pub fn fail(&mut self, lost: Lost) -> Result<Answer, Lost>
        ensures step { LeadsOn self.old (λ p q. FailStep p lost result q) self.new }
        ensures err { IfErr result (λ e. (e ≡ lost) × (self.new ≡ self.old)) }
    {
        let name = lost.name();
        let index = self.book.index_of(name.seq);
        let Some(tag) = self.due(index, name, false, true) else {
            return Err(lost);
        };
        let reply = upstream_lost(tag);
        let sent = self.answer(index, name, tag, RecordKind::Failed, false, reply);
        Ok(Answer::of(sent))
    }

    /// The client's tag of a dispatch of this session, of which the note is due, where that is asked,
    /// and the answer, where that is asked.
    #[inline(always)]
    fn due(&self, index: usize, name: Name, note: bool, answer: bool) -> Option<u32>
        ensures value { result ≡ due_in self.now name note answer }
        ensures tag { IfSome result (λ tag. tag ≤ MAX_TAG) }
    {
        if name.boot != self.boot || name.client != self.client {
            return None;
        }
        let Some(entry) = self.book.get_at(index, name.seq) else {
            return None;
        };
        if (note && !entry.is_note_due()) || (answer && !entry.is_answer_due()) {
            return None;
        }
        Some(entry.tag)
    }

    /// The dispatch that is kept, where its reply is a nack after which it may be sent again.
    #[inline(always)]
    fn to_retry(
        &self,
        index: usize,
        seq: u64,
        reply: &Frame,
        kept: Option<KeptDispatch>,
    ) -> Option<KeptDispatch>
        ensures { result ≡ (if may_retry (entry_at seq self.now.book) reply.now.frame then kept else None) }
    {
        let dispatch = kept?;
        if self.may_retry(index, seq, reply) {
            Some(dispatch)
        } else {
            None
        }
    }

    /// Whether a reply is a nack after which the dispatch may be sent again: it is open, its place is
    /// known, and a try is left.
    fn may_retry(&self, index: usize, seq: u64, reply: &Frame) -> bool
        ensures { result ≡ may_retry (entry_at seq self.now.book) reply.now.frame }
    {
        let Some(entry) = self.book.get_at(index, seq) else {
            return false;
        };
        is_nack(reply) && entry.is_open() && !entry.is_note_due() && entry.left > 0
    }

    /// Answers a dispatch, and reports whether the reply goes out, as it does while the dispatch is open.
    /// `whole` where its note came too.
    #[inline(always)]
    fn answer(
        &mut self,
        index: usize,
        name: Name,
        tag: u32,
        kind: RecordKind,
        whole: bool,
        reply: Frame,
    ) -> bool
        requires due { HasEntry self.old.book name.seq (λ e. is_answer_due e ≡ true) }
        requires held { IsTrue (is_plain kind) }
        ensures result { ForEntry self.old.book name.seq (λ e. result ≡ is_open e) }
        ensures new { ForEntry self.old.book name.seq (λ e. self.new
            ≡ answered_in self.old name tag kind whole reply.frame (is_open e)) }
    {
        let change = if whole {
            Change::Unplace
        } else {
            Change::Answer
        };
        let effect = self.change(index, name.seq, change);
        if effect.was.in_use {
            self.write(0, kind, tag, Some(name), Some(reply));
        } else {
            self.write(0, RecordKind::Late { whole }, tag, Some(name), None);
        }
        effect.was.in_use
    }

    /// Passes a server's reply on, with the client's tag, in the type that is written, and reports
    /// whether it goes out.
    #[inline(always)]
    fn pass(&mut self, index: usize, name: Name, tag: u32, reply: Frame) -> bool
        requires due { HasEntry self.old.book name.seq (λ e. is_answer_due e ≡ true) }
        requires tag { tag ≤ MAX_TAG }
        ensures result { ForEntry self.old.book name.seq (λ e. result ≡ is_open e) }
        ensures new { ForEntry self.old.book name.seq (λ e. self.new
            ≡ answered_in self.old name tag RecordKind.Passed false
            (retagged tag (normal_of reply.frame)) (is_open e)) }
    {
        self.answer(
            index,
            name,
            tag,
            RecordKind::Passed,
            false,
            retag(normal(reply), tag),
        )
    }

    /// A nacked dispatch is to be sent again.
    #[inline(always)]
    fn retry(&mut self, index: usize, name: Name, tag: u32, dispatch: KeptDispatch) -> Answer
        requires { HasEntry self.old.book name.seq (λ e. (is_open e ≡ true) × (0 < e.left)) }
        ensures result { ForEntry self.old.book name.seq (λ e. result
            ≡ Answer.Again (record {
              name = name;
              frame = dispatch.frame;
              content = dispatch.content;
              left = e.left - 1;
            })) }
        ensures new { self.new ≡ retried_in self.old name tag }
    {
        let effect = self.change(index, name.seq, Change::Again);
        self.write(0, RecordKind::Retried, tag, Some(name), None);
        Answer::Again(Ticket::new(name, dispatch.into_dispatch(), effect.is.left))
    }

    /// Keeps the place of a dispatch, and gives its recall where the client has its tag back.
    #[inline(always)]
    fn keep_place(&mut self, index: usize, name: Name, tag: u32, place: Place) -> Option<Recall>
        requires { HasEntry self.old.book name.seq (λ e. is_note_due e ≡ true) }
        ensures result { result
            ≡ recall_to name place (recall_from (entry_at name.seq (placed_in self.old name.seq place).book)) }
        ensures new { self.new ≡ noted_in self.old name tag place }
    {
        let effect = self.change_noted(index, name.seq, place);
        if waits(effect.is) {
            return self.recall_noted(index, name, tag, place);
        }
        self.write(
            0,
            RecordKind::Noted { recalled: false },
            tag,
            Some(name),
            None,
        );
        None
    }

    /// Records the place that was kept, and gives the recall that is owed.
    #[cold]
    #[inline(never)]
    fn recall_noted(&mut self, index: usize, name: Name, tag: u32, place: Place) -> Option<Recall>
        requires records { 1 ≤ free_records (figures_in self.old) }
        ensures result { result ≡ recall_to name place (recall_from (entry_at name.seq self.old.book)) }
        ensures new { self.new
            ≡ noted (calling_back self.old name.seq) 0 (kinds.Noted (owes_at (entry_at name.seq self.old.book)))
            tag (Some name) None }
    {
        let why = self.call_back(index, name.seq);
        let recalled = why.is_some();
        self.write(0, RecordKind::Noted { recalled }, tag, Some(name), None);
        let Some(why) = why else {
            return None;
        };
        Some(Recall::new(name, place.server, place.tag, why))
    }

    /// The reason of the recall that a dispatch owes, if it owes one.
    #[inline(always)]
    pub(super) fn call_back(&mut self, index: usize, seq: u64) -> Option<Why>
        ensures result { result ≡ recall_from (entry_at seq self.old.book) }
        ensures new { self.new ≡ calling_back self.old seq }
        ensures records { free_records (figures_in self.old) ≤ free_records (figures_in self.new) }
        ensures out { free_out (figures_in self.old) ≤ free_out (figures_in self.new) }
    {
        let owes = match self.book.get_at(index, seq) {
            Some(entry) => entry.owes_recall(),
            None => false,
        };
        if !owes {
            return None;
        }
        self.change(index, seq, Change::Recall).reason
    }

    /// The recall of a dispatch that owes one.
    pub(super) fn recall_next(&mut self, seq: u64) -> Recall
        requires { HasEntry self.old.book seq (λ e. owes_recall e ≡ true) }
        ensures result { ForEntry self.old.book seq (λ e. recall_to (naming self.old seq)
            (the_place e.note) (Some (reason_of e))
            ≡ Some result) }
        ensures new { ForEntry self.old.book seq (λ e. self.new
            ≡ noted (changing self.old seq changes.Recall) 0 kinds.Recalled e.tag (Some (naming self.old seq)) None) }
    {
        let index = self.book.index_of(seq);
        let (tag, place) = self.place_of(index, seq);
        let Some(why) = self.change(index, seq, Change::Recall).reason else {
            unreachable!()
        };
        let name = self.naming(seq);
        self.write(0, RecordKind::Recalled, tag, Some(name), None);
        Recall::new(name, place.server, place.tag, why)
    }

    /// The client's tag of a dispatch, and its place at a server.
    fn place_of(&self, index: usize, seq: u64) -> (u32, Place)
        requires { HasEntry self.now.book seq (λ e. is_noted_in e.note ≡ true) }
        ensures { ForEntry self.now.book seq (λ e. result ≡ (e.tag, the_place e.note)) }
    {
        match self.book.get_at(index, seq) {
            Some(entry) => match entry.note {
                NoteState::Noted(place) => (entry.tag, place),
                _ => unreachable!(),
            },
            None => unreachable!(),
        }
    }
}

/// A dispatch owes a recall once its place is known: the client has its tag back, its answer is due,
/// and it gave none.
fn waits(dues: Dues) -> bool
    ensures { result ≡ waits_due dues }
{
    dues.answer && !dues.in_use && !dues.recalled
}

fn is_nack(frame: &Frame) -> bool
    ensures { result ≡ is_nack frame.now.frame }
{
    MessageKind::of(frame.kind()) == MessageKind::Rdispatch
        && frame.body_len() > 0
        && frame.body_byte(0) == 2
}
