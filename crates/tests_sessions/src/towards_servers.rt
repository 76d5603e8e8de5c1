//! Sessions towards servers. Its twin is `towards_clients`: steps of the other kind of session.

ghost use Rattle.std.specs.Prelude.{◌≡◌, [], true, IfOk};

use crate::frames::{
    frame, head, is_same, named, tell, tell_count, tell_debug, tell_done, tell_frame, tell_frames,
    tell_records, ticket,
};
use crate::play::{Played, check};
use crate::server_rolls::ROLLS;
use crate::server_rows::ROWS;
use bytes::Bytes;
use client_session::{Recalled, UpStep};
use kept_session::{EpochEnd, EpochRefusal, KeptClientSession};
use mux_frame::Frame;
use mux_history::{History, InitMode, Limits, Name, Record};
use std::alloc::{AllocError, Global};
use std::collections::VecDeque;
use std::test::Fail;
use translate_book::{Recall, Settled, Why};

/// A session, and the reading at which it is called.
#[derive(Drop)]
struct Server {
    session: KeptClientSession,
    now: u64,
}

/// With the dispatch, which was taken on tag 5, where it came back.
fn tell_settled(told: &mut String, settled: Settled) -> Result<(), Fail> {
    let (name, reply, again) = settled.into_parts();
    tell(told, "settled", &[name.seq])?;
    told.push(' ')?;
    tell_debug(told, reply.kind())?;
    if let Some(again) = again {
        let dispatch = again.dispatch();
        if dispatch.dst() != b"/s/a".as_slice() || dispatch.frame().tag() != 5 {
            return Err("another dispatch".into());
        }
        told.push_str(" again")?;
    }
    Ok(())
}

/// The next history, which has the room that the session's limits say.
fn next_history(alloc: Global, session: &KeptClientSession) -> Result<History, AllocError>
    ensures { IfOk result (λ h. h ≡ record { records = []; room = session.now.state.limits.history }) }
{
    History::with_room(alloc, session.limits().history())
}

impl Server {
    fn take(&mut self, frame: Frame, told: &mut String) -> Result<(), Fail>
        requires { frame.as_read ≡ true }
    {
        match self.session.frame(frame, self.now) {
            Ok(UpStep::Nothing) => told.push_str("done")?,
            Ok(UpStep::Settled(settled)) => tell_settled(told, settled)?,
            Ok(UpStep::Dropped) => told.push_str("dropped")?,
            Ok(UpStep::Closing(cause)) => {
                told.push_str("closed ")?;
                tell_debug(told, cause)?;
            }
            Err((refusal, _frame)) => tell_debug(told, refusal)?,
        }
        Ok(())
    }

    /// The dispatch may be sent again so often.
    fn offer(
        &mut self,
        alloc: Global,
        name: Name,
        left: u8,
        told: &mut String,
    ) -> Result<(), Fail> {
        match self.session.offer(ticket(alloc, name, left)?, self.now) {
            Ok(placed) => tell(told, "placed", &[u64::from(placed.tag())]),
            Err((refusal, _ticket)) => tell_debug(told, refusal),
        }
    }

    fn recall(&mut self, name: Name, tag: u32, told: &mut String) -> Result<(), Fail> {
        let why = Why::Reason(Bytes::from_static(b"x"));
        Ok(
            match self
                .session
                .recall(Recall::new(name, 1, tag, why), self.now)
            {
                Recalled::Sent => told.push_str("done")?,
                Recalled::Stale => told.push_str("stale")?,
            },
        )
    }

    fn end_epoch(&mut self, alloc: Global, how: EpochEnd, told: &mut String) -> Result<(), Fail> {
        let (fresh, held) = (next_history(alloc, &self.session)?, self.session.held());
        match self.session.end_epoch(how, fresh) {
            Ok(()) => {
                let word = match how {
                    EpochEnd::Seal => "sealed",
                    EpochEnd::Roll => "rolled",
                };
                tell(told, word, &[held as u64])
            }
            Err(refused) => match refused.why {
                EpochRefusal::Seal(why) => tell_debug(told, why),
                EpochRefusal::Roll(why) => tell_debug(told, why),
                _ => Err("another refusal".into()),
            },
        }
    }

    fn pings(&mut self, alloc: Global, times: u32, told: &mut String) -> Result<(), Fail> {
        for _ in 0..times {
            told.clear();
            self.take(frame(alloc, "Tping 1")?, told)?;
            let answer = self.session.take_out();
            if told.as_str() != "done" || !is_same(answer.as_ref(), &frame(alloc, "Rping 1")?) {
                return Err("a ping".into());
            }
        }
        Ok(())
    }

    /// How many frames come by one exchange. The first are those that are named.
    fn outs(&mut self, alloc: Global, wanted: &str, told: &mut String) -> Result<(), Fail> {
        let mut frames = VecDeque::with_capacity(alloc, self.session.limits().out())?;
        self.session.take_outs(&mut frames);
        tell_frames(alloc, &frames, wanted, told)
    }

    fn shows(&self, alloc: Global, verb: &str, words: &str, told: &mut String) -> Result<(), Fail> {
        let session = &self.session;
        match verb {
            "last" => tell_frame(alloc, session.last_out(), words, told),
            "load" => tell_count(told, session.load()),
            "queued" => tell_count(told, session.queued()),
            "epoch" => tell_count(told, session.epoch() as usize),
            "finished" => tell_debug(told, session.is_finished()),
            "plain" => tell_debug(told, session.mode() == InitMode::Plain),
            _ => tell_records(session.history(), verb, words, told),
        }
    }
}

impl Played for Server {
    /// The mode is `probe`, or plain.
    fn open(alloc: Global, limits: Limits, mode: &str) -> Result<Server, Fail> {
        let mode = if mode.ends_with("probe") {
            InitMode::Probe
        } else {
            InitMode::Plain
        };
        let session = KeptClientSession::open(alloc, 1, mode, limits)?;
        Ok(Server { session, now: 0 })
    }

    fn does(&mut self, alloc: Global, step: &str, told: &mut String) -> Result<(), Fail> {
        let (verb, words) = head(step);
        let (first, rest) = head(words);
        match verb {
            "now" => self.now = words.parse()?,
            "take" => return self.take(frame(alloc, words)?, told),
            "offer" => return self.offer(alloc, named(first)?, rest.parse().unwrap_or(0), told),
            "recall" => return self.recall(named(first)?, rest.parse()?, told),
            "clock" => return tell_done(told, self.session.clock(self.now)),
            "retire" => return tell_done(told, self.session.retire(self.now)),
            "ping" => return tell_done(told, self.session.ping(self.now)),
            "lose" => self.session.lose(self.now),
            "next" => return match self.session.lose_next() {
                Some(lost) => tell(told, "lost", &[lost.name().seq]),
                None => Ok(told.push_str("none")?),
            },
            "out" => return tell_frame(alloc, self.session.take_out().as_ref(), words, told),
            "outs" => return self.outs(alloc, words, told),
            "pings" => return self.pings(alloc, words.parse()?, told),
            "seal" => return self.end_epoch(alloc, EpochEnd::Seal, told),
            "roll" => return self.end_epoch(alloc, EpochEnd::Roll, told),
            _ => return self.shows(alloc, verb, words, told),
        }
        Ok(told.push_str("done")?)
    }

    fn records(&self) -> &[Record] {
        self.session.history()
    }

    fn ended(&self) -> &[History] {
        self.session.ended()
    }

    fn holds(&self, _records: &[Record]) -> bool {
        true
    }

    fn into_histories(self) -> Vec<History> {
        self.session.into_histories()
    }
}

#[test]
fn rows(rt: HostRuntime) -> Result<(), Fail> {
    check::<Server>(rt.alloc(), ROWS, false)
}

#[test]
fn rolls(rt: HostRuntime) -> Result<(), Fail> {
    check::<Server>(rt.alloc(), ROLLS, false)
}
