//! Sessions towards clients. Its twin is `towards_servers`: steps of the other kind of session.

ghost use Rattle.std.specs.Prelude.{◌≡◌, [], true, IfOk};

use crate::client_rolls::{ROLLS, ROLLS_TOLD};
use crate::client_rows::{ROWS, ROWS_TOLD};
use crate::frames::{
    HI, frame, head, is_same, named, tell, tell_count, tell_debug, tell_done, tell_frame,
    tell_frames, tell_records, ticket,
};
use crate::play::{Played, check};
use kept_session::{EpochEnd, EpochRefusal, KeptServerSession};
use mux_frame::Frame;
use mux_history::{History, Limits, Name, Record, RecordKind};
use mux_message::MessageKind;
use server_session::{Answer, DownStep};
use std::alloc::{AllocError, Global};
use std::collections::VecDeque;
use std::test::Fail;
use translate_book::{Placed, Recall, Sent, Settled, Ticket};

/// A session, and the reading at which it is given frames and lost.
#[derive(Drop)]
struct Client {
    session: KeptServerSession,
    now: u64,
}

fn sent(alloc: Global, name: Name, left: u8) -> Result<Sent, Fail> {
    match ticket(alloc, name, left)?.into_sent(alloc) {
        Ok((sent, _)) => Ok(sent),
        Err(_refused) => Err("memory".into()),
    }
}

/// A dispatch by its boot, its client and its number.
fn whole_name(words: &str) -> Result<Name, Fail> {
    let (boot, rest) = head(words);
    let (client, seq) = head(rest);
    Ok(Name {
        boot: boot.parse()?,
        client: client.parse()?,
        seq: seq.parse()?,
    })
}

/// A final reply.
fn settled(sent: Sent, reply: Frame) -> Result<Settled, Fail> {
    if !MessageKind::of(reply.kind()).is_final() {
        return Err("no final reply".into());
    }
    Ok(sent.settled(reply))
}

/// A ticket has the very frame that came.
fn tell_ticket(told: &mut String, word: &str, ticket: &Ticket) -> Result<(), Fail> {
    let frame = ticket.frame();
    if ticket.dst() != b"/s/a".as_slice() || !frame.as_read() || frame.body() != HI {
        return Err("another dispatch".into());
    }
    let left = u64::from(ticket.left());
    tell(
        told,
        word,
        &[ticket.name().seq, u64::from(frame.tag()), left],
    )
}

fn tell_recall(told: &mut String, recall: &Recall) -> Result<(), Fail> {
    if recall.server() != 1 {
        return Err("another server".into());
    }
    tell(
        told,
        "recall",
        &[recall.name().seq, u64::from(recall.tag())],
    )?;
    let why = str::from_utf8(recall.why().as_slice()).map_err(|_| "a reason")?;
    told.push(' ')?;
    Ok(told.push_str(why)?)
}

fn tell_answer<T: Drop>(told: &mut String, answer: Result<Answer, T>) -> Result<(), Fail> {
    match answer {
        Ok(Answer::Answered) => told.push_str("answered")?,
        Ok(Answer::Late) => told.push_str("late")?,
        Ok(Answer::Again(ticket)) => tell_ticket(told, "again", &ticket)?,
        Err(_handed_back) => told.push_str("not mine")?,
    }
    Ok(())
}

/// The next history, which has the room that the session's limits say.
fn next_history(alloc: Global, session: &KeptServerSession) -> Result<History, AllocError>
    ensures { IfOk result (λ h. h ≡ record { records = []; room = session.now.state.limits.history }) }
{
    History::with_room(alloc, session.limits().history())
}

/// Whether a record of a dispatch leaves its note due, and its answer.
fn after(kind: RecordKind, [note, answer]: [bool; 2]) -> [bool; 2] {
    match kind {
        RecordKind::Took => [true, true],
        RecordKind::Retried => [true, answer],
        RecordKind::Noted { recalled: _ } => [false, answer],
        RecordKind::Nacked | RecordKind::Unrouted => [false, false],
        RecordKind::Late { whole } => [note && !whole, false],
        RecordKind::Passed | RecordKind::Failed => [note, false],
        _ => [note, answer],
    }
}

fn is_held(records: &[Record], name: Option<Name>) -> bool {
    let mut due = [false, false];
    for record in records {
        if record.name() == name {
            due = after(record.kind(), due);
        }
    }
    due != [false, false]
}

/// How many dispatches wait for a note or an answer, by the records since the last seal alone.
fn load_told(records: &[Record]) -> usize {
    let mut load = 0_usize;
    for record in records {
        if record.kind() == RecordKind::Took && is_held(records, record.name()) {
            load = load.saturating_add(1);
        }
    }
    load
}

impl Client {
    fn take(&mut self, frame: Frame, told: &mut String) -> Result<(), Fail>
        requires { frame.as_read ≡ true }
    {
        match self.session.frame(frame, self.now) {
            Ok(DownStep::Nothing) => told.push_str("done")?,
            Ok(DownStep::Take(ticket)) => tell_ticket(told, "ticket", &ticket)?,
            Ok(DownStep::Recall(recall)) => tell_recall(told, &recall)?,
            Ok(DownStep::Closing(cause)) => {
                told.push_str("closed ")?;
                tell_debug(told, cause)?;
            }
            Err((refusal, _frame)) => tell_debug(told, refusal)?,
        }
        Ok(())
    }

    /// The dispatch was placed on server 1.
    fn note(&mut self, name: Name, tag: u32, told: &mut String) -> Result<(), Fail> {
        match self.session.note(Placed::new(name, 1, tag)) {
            Ok(None) => told.push_str("done")?,
            Ok(Some(recall)) => tell_recall(told, &recall)?,
            Err(_placed) => told.push_str("not mine")?,
        }
        Ok(())
    }

    /// The reply came to a dispatch that may be sent again so often.
    fn settle(
        &mut self,
        alloc: Global,
        name: Name,
        left: u8,
        reply: &str,
        told: &mut String,
    ) -> Result<(), Fail> {
        let settled = settled(sent(alloc, name, left)?, frame(alloc, reply)?)?;
        tell_answer(told, self.session.settle(settled))
    }

    /// Each of six calls, with this name: whether all hand it back.
    fn hands_back(&mut self, alloc: Global, name: Name, told: &mut String) -> Result<(), Fail> {
        let mut all = String::new(alloc);
        self.note(name, 2, &mut all)?;
        self.settle(alloc, name, 0, "Rdispatch 2", &mut all)?;
        self.settle(alloc, name, 1, "Nack 2", &mut all)?;
        tell_answer(&mut all, self.session.nack(ticket(alloc, name, 0)?))?;
        tell_answer(&mut all, self.session.unroute(ticket(alloc, name, 0)?))?;
        tell_answer(&mut all, self.session.fail(sent(alloc, name, 0)?.lost()))?;
        let is_back = all.as_str() == "not minenot minenot minenot minenot minenot mine";
        Ok(told.push_str(if is_back { "not mine" } else { "done" })?)
    }

    fn end_epoch(&mut self, alloc: Global, how: EpochEnd, told: &mut String) -> Result<(), Fail> {
        let (fresh, held) = (next_history(alloc, &self.session)?, self.session.held());
        match self.session.end_epoch(how, fresh) {
            Ok(()) => {
                let word = match how {
                    EpochEnd::Seal => "sealed",
                    EpochEnd::Roll => "rolled",
                };
                tell(told, word, &[held as u64])
            }
            Err(refused) => match refused.why {
                EpochRefusal::Seal(why) => tell_debug(told, why),
                EpochRefusal::Roll(why) => tell_debug(told, why),
                _ => Err("another refusal".into()),
            },
        }
    }
}

impl Client {
    fn pings(&mut self, alloc: Global, times: u32, told: &mut String) -> Result<(), Fail> {
        for _ in 0..times {
            told.clear();
            self.take(frame(alloc, "Tping 1")?, told)?;
            let answer = self.session.take_out();
            if told.as_str() != "done" || !is_same(answer.as_ref(), &frame(alloc, "Rping 1")?) {
                return Err("a ping".into());
            }
        }
        Ok(())
    }

    /// How many frames come by one exchange. The first are those that are named.
    fn outs(&mut self, alloc: Global, wanted: &str, told: &mut String) -> Result<(), Fail> {
        let mut frames = VecDeque::with_capacity(alloc, self.session.limits().out())?;
        self.session.take_outs(&mut frames);
        tell_frames(alloc, &frames, wanted, told)
    }

    fn shows(&self, alloc: Global, verb: &str, words: &str, told: &mut String) -> Result<(), Fail> {
        let session = &self.session;
        match verb {
            "last" => tell_frame(alloc, session.last_out(), words, told),
            "load" => tell_count(told, session.load()),
            "queued" => tell_count(told, session.queued()),
            "epoch" => tell_count(told, session.epoch() as usize),
            "finished" => tell_debug(told, session.is_finished()),
            _ => tell_records(session.history(), verb, words, told),
        }
    }
}

impl Played for Client {
    fn open(alloc: Global, limits: Limits, _mode: &str) -> Result<Client, Fail> {
        let session = KeptServerSession::open(alloc, 1, 1, limits)?;
        Ok(Client { session, now: 0 })
    }

    fn does(&mut self, alloc: Global, step: &str, told: &mut String) -> Result<(), Fail> {
        let (verb, words) = head(step);
        let (first, rest) = head(words);
        match verb {
            "now" => self.now = words.parse()?,
            "take" => return self.take(frame(alloc, words)?, told),
            "note" => return self.note(named(first)?, rest.parse()?, told),
            "settle" => return self.settle(alloc, named(first)?, 0, rest, told),
            "settle-copied" => return self.settle(alloc, named(first)?, 1, rest, told),
            "nack" => return tell_answer(told, self.session.nack(ticket(alloc, named(words)?, 0)?)),
            "unroute" => return tell_answer(
                told,
                self.session.unroute(ticket(alloc, named(words)?, 0)?),
            ),
            "fail" => return tell_answer(
                told,
                self.session.fail(sent(alloc, named(words)?, 0)?.lost()),
            ),
            "all" => return self.hands_back(alloc, whole_name(words)?, told),
            "drain" => return tell_done(told, self.session.drain()),
            "lose" => self.session.lose(self.now),
            "next" => return match self.session.lose_next() {
                Some(recall) => tell_recall(told, &recall),
                None => Ok(told.push_str("none")?),
            },
            "out" => return tell_frame(alloc, self.session.take_out().as_ref(), words, told),
            "outs" => return self.outs(alloc, words, told),
            "pings" => return self.pings(alloc, words.parse()?, told),
            "seal" => return self.end_epoch(alloc, EpochEnd::Seal, told),
            "roll" => return self.end_epoch(alloc, EpochEnd::Roll, told),
            _ => return self.shows(alloc, verb, words, told),
        }
        Ok(told.push_str("done")?)
    }

    fn records(&self) -> &[Record] {
        self.session.history()
    }

    fn ended(&self) -> &[History] {
        self.session.ended()
    }

    fn holds(&self, records: &[Record]) -> bool {
        self.session.load() == load_told(records)
    }

    fn into_histories(self) -> Vec<History> {
        self.session.into_histories()
    }
}

#[test]
fn rows(rt: HostRuntime) -> Result<(), Fail> {
    check::<Client>(rt.alloc(), ROWS, false)?;
    check::<Client>(rt.alloc(), ROWS_TOLD, true)
}

#[test]
fn rolls(rt: HostRuntime) -> Result<(), Fail> {
    check::<Client>(rt.alloc(), ROLLS, false)?;
    check::<Client>(rt.alloc(), ROLLS_TOLD, true)
}
