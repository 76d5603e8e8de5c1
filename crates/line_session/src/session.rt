//! Lines are taken one at a time; the next one is taken once the answer is written.
//!
//! Each turn repeats the clauses of a turn: what it read, wrote and answered, and by whom it is woken.

ghost use Rattle.std.specs.Prelude.{◌≡◌, ◌≢◌, ◌<◌, ◌⊎◌, ◌∷◌, true, [], Some, None, length, IfOk, IfErr, IfNone, IfSome};
ghost use Rattle.futures.specs.Task.{Covers, Keeps};
ghost use Rattle.futures.specs.Poll.{IfReady, OnPending};
ghost use Rattle.line_session.specs.Lines.{Because, Refusal, refusal_text};
ghost use Rattle.line_session.specs.Unsent.{text_bytes};

use crate::answers::Answers;
use crate::line_answer::LineAnswer;
use crate::outbox::Outbox;
use crate::step::{Stage, Step};
use bytes::BytesMut;
use futures::Future;
use futures::task::{Context, Poll};
use std::alloc::{AllocError, Global};
use std::io;
use std::io::ErrorKind;
use tokio::io::{AsyncRead, AsyncWrite, poll_read_buf};
use tokio_util::codec::{Decoder, LinesCodec, LinesCodecError};

// Turns of one poll. Each takes at most one line, reads once or writes once.
const BUDGET: usize = 64;

// The greatest length of a line, without its line feed.
const MAX_LINE: usize = 1_024;

// A line and a read fit in twice, so that no read needs memory.
const ROOM: usize = 4 * 1_024;

// As many bytes are read and thrown away behind a line that was refused.
const MAX_DRAINED: usize = 64 * 1_024;

/// Why a connection ended.
#[derive(Clone, Copy, Debug, PartialEq, Eq)]
pub enum LineEnd {
    /// The last answer was given, and was written, unless a write failed.
    Quit,
    /// The other side ended. What it sent behind its last line feed is no line.
    Ended,
    /// A line was no text or too long, or found no memory. The other side was told so.
    Refused,
    /// A read or a write failed.
    Failed,
}

/// Has whole lines answered, one after another, and writes each answer before it takes the next line.
///
/// A line has at most 1,024 bytes and ends with a line feed. A longer one is answered `error TooLong`,
/// and one that isn't UTF-8 `error BadCommand`. Then no further line is taken: the write half is shut
/// down, and input is thrown away up to its end, or 64 KiB, so that the answer arrives.
///
/// A poll takes at most 64 turns, and then yields. A poll after the end gives the same end, and neither
/// reads nor writes. The writer is not flushed.
#[derive(Drop)]
pub struct LineSession<R, W, A> {
    reader: R,
    writer: W,
    answers: A,
    codec: LinesCodec,
    buffer: BytesMut,
    unsent: Outbox,
    stage: Stage,
    end: Option<LineEnd>,
    moved: u64,
}

impl<R: AsyncRead, W: AsyncWrite, A: Answers> LineSession<R, W, A> {
    ghost use Rattle.line_session.specs.Talking.{Goes, EndsFor, IfOver, IsIdle, OnWait, Since, Stands, end_after, end_lost, stage_after, waits_for};
    ghost use Rattle.line_session.specs.Answering.{answered_with};
    ghost use Rattle.tokio_util.specs.Codec.Lines.{gives_lines};
    ghost use Rattle.tokio_util.specs.Codec.Next.{partial};

    /// A session that has read nothing. When memory is refused, `answers` comes back, and `reader` and
    /// `writer` are dropped.
    pub fn new(
        alloc: Global,
        reader: R,
        writer: W,
        answers: A,
    ) -> Result<LineSession<R, W, A>, (AllocError, A)>
        ensures ok { IfOk result (λ s. (s.reader ≡ reader) × (s.writer ≡ writer) × (s.answers ≡ answers)
            × (s.unsent ≡ []) × (s.end ≡ None) × (s.moved ≡ 0)) }
        ensures stands { IfOk result (λ s. Stands [] [] s) }
        ensures since { IfOk result (λ s. Since R.reads W.writes A.answers s s) }
        ensures refused { IfErr result (λ e. e.1 ≡ answers) }
    {
        match BytesMut::with_capacity(alloc, ROOM) {
            Ok(buffer) => Ok(LineSession {
                reader,
                writer,
                answers,
                codec: LinesCodec::new_with_max_length(MAX_LINE),
                buffer,
                unsent: Outbox::fixed(""),
                stage: Stage::Open,
                end: None,
                moved: 0,
            }),
            Err(refused) => Err((refused, answers)),
        }
    }

    /// The reader, the writer and whoever answers.
    pub fn into_parts(self) -> (R, W, A)
        ensures { (result.0 ≡ self.reader) × (result.1 ≡ self.writer) × (result.2 ≡ self.answers) }
    {
        (self.reader, self.writer, self.answers)
    }

    /// How many bytes were read and written, up to 2^64 - 1.
    pub fn progress(&self) -> u64
        ensures { result ≡ self.now.moved }
    {
        self.moved
    }

    fn count(&mut self, bytes: usize)
        ensures { self.new ≡ record self.old { moved = self.new.moved } }
    {
        self.moved = self.moved.saturating_add(bytes as u64);
    }

    // Writes, or does what the stage asks for.
    fn turn(&mut self, cx: &mut Context<'_>) -> Step
        ensures goes { Goes R.reads W.writes A.answers 1 self.old self.new }
        ensures ends { IfOver result (EndsFor R.is_at_end R.fails W.fails W.is_full self.new) }
        ensures idle { OnWait result (IsIdle self.new) }
        ensures noted { self.new.end ≡ end_after result self.old.end }
        ensures registered { OnWait result (Covers cx.new (waits_for R.needs W.needs self.new)) }
        ensures kept { Keeps cx.old cx.new }
    {
        if !self.unsent.is_empty() {
            return self.write(cx);
        }
        match self.stage {
            Stage::Open => self.take_line(cx),
            Stage::Leaving => self.finish(LineEnd::Quit),
            Stage::Refusing => self.shut_down(cx),
            Stage::Draining(left) => self.drain(cx, left),
        }
    }

    fn finish(&mut self, end: LineEnd) -> Step
        ensures over { result ≡ Step.Over end }
        ensures noted { self.new ≡ record self.old { end = Some end } }
    {
        self.end = Some(end);
        Step::Over(end)
    }

    // Takes a whole line, or reads once.
    fn take_line(&mut self, cx: &mut Context<'_>) -> Step
        requires { (self.old.unsent ≡ []) × (self.old.stage ≡ Stage.Open) }
        ensures goes { Goes R.reads W.writes A.answers 1 self.old self.new }
        ensures ends { IfOver result (EndsFor R.is_at_end R.fails W.fails W.is_full self.new) }
        ensures idle { OnWait result (IsIdle self.new) }
        ensures noted { self.new.end ≡ end_after result self.old.end }
        ensures registered { OnWait result (Covers cx.new (waits_for R.needs W.needs self.new)) }
        ensures kept { Keeps cx.old cx.new }
    {
        match self.codec.decode(&mut self.buffer) {
            Ok(Some(line)) => {
                let answer = self.answers.answer(line.as_str());
                self.tell(answer);
                Step::Again
            }
            Ok(None) => self.read(cx),
            Err(fault) => {
                self.refuse(refusal(fault));
                Step::Again
            }
        }
    }

    fn refuse(&mut self, text: &'static str)
        ensures { self.new ≡ record self.old { unsent = text.now; stage = Stage.Refusing } }
    {
        self.unsent = Outbox::fixed(text);
        self.stage = Stage::Refusing;
    }

    fn tell(&mut self, answer: LineAnswer)
        ensures { self.new ≡ record self.old {
          unsent = text_bytes answer.text;
          stage = stage_after answer.is_last self.old.stage;
        } }
    {
        if answer.is_last {
            self.stage = Stage::Leaving;
        }
        self.unsent = Outbox::new(answer.text);
    }

    // Reads once.
    fn read(&mut self, cx: &mut Context<'_>) -> Step
        requires start { (self.old.unsent ≡ []) × (self.old.stage ≡ Stage.Open) }
        requires partial { gives_lines self.old.codec self.old.buffer.items partial }
        ensures goes { Goes R.reads W.writes A.answers 1 self.old self.new }
        ensures ends { IfOver result (EndsFor R.is_at_end R.fails W.fails W.is_full self.new) }
        ensures idle { OnWait result (IsIdle self.new) }
        ensures noted { self.new.end ≡ end_after result self.old.end }
        ensures registered { OnWait result (Covers cx.new (waits_for R.needs W.needs self.new)) }
        ensures kept { Keeps cx.old cx.new }
    {
        match poll_read_buf(&mut self.reader, cx, &mut self.buffer) {
            Poll::Pending => Step::Wait,
            Poll::Ready(Ok(0)) => self.finish(LineEnd::Ended),
            Poll::Ready(Ok(count)) => {
                self.count(count);
                Step::Again
            }
            Poll::Ready(Err(e)) => match e.kind() {
                ErrorKind::Interrupted => Step::Again,
                ErrorKind::OutOfMemory => {
                    self.refuse("error Memory\n");
                    Step::Again
                }
                _ => self.finish(LineEnd::Failed),
            },
        }
    }

    // Writes once.
    fn write(&mut self, cx: &mut Context<'_>) -> Step
        requires { self.old.unsent ≢ [] }
        ensures goes { Goes R.reads W.writes A.answers 0 self.old self.new }
        ensures ends { IfOver result (EndsFor R.is_at_end R.fails W.fails W.is_full self.new) }
        ensures idle { OnWait result (IsIdle self.new) }
        ensures noted { self.new.end ≡ end_after result self.old.end }
        ensures registered { OnWait result (Covers cx.new (waits_for R.needs W.needs self.new)) }
        ensures kept { Keeps cx.old cx.new }
    {
        match self.writer.poll_write(cx, self.unsent.rest()) {
            Poll::Pending => Step::Wait,
            Poll::Ready(Ok(0)) => self.lose(),
            Poll::Ready(Ok(count)) => {
                self.unsent.advance(count);
                self.count(count);
                Step::Again
            }
            Poll::Ready(Err(e)) => {
                if e.kind() == ErrorKind::Interrupted {
                    Step::Again
                } else {
                    self.lose()
                }
            }
        }
    }

    // A write failed. The last line was answered all the same.
    fn lose(&mut self) -> Step
        ensures over { result ≡ Step.Over (end_lost self.old.stage) }
        ensures noted { self.new ≡ record self.old { end = Some (end_lost self.old.stage) } }
    {
        match self.stage {
            Stage::Leaving => self.finish(LineEnd::Quit),
            Stage::Open => self.finish(LineEnd::Failed),
            Stage::Refusing => self.finish(LineEnd::Failed),
            Stage::Draining(_) => self.finish(LineEnd::Failed),
        }
    }

    // Shuts the write half down, behind the answer.
    fn shut_down(&mut self, cx: &mut Context<'_>) -> Step
        requires { (self.old.unsent ≡ []) × (self.old.stage ≡ Stage.Refusing) }
        ensures goes { Goes R.reads W.writes A.answers 0 self.old self.new }
        ensures ends { IfOver result (EndsFor R.is_at_end R.fails W.fails W.is_full self.new) }
        ensures idle { OnWait result (IsIdle self.new) }
        ensures noted { self.new.end ≡ end_after result self.old.end }
        ensures registered { OnWait result (Covers cx.new (waits_for R.needs W.needs self.new)) }
        ensures kept { Keeps cx.old cx.new }
    {
        match self.writer.poll_shutdown(cx) {
            Poll::Pending => Step::Wait,
            Poll::Ready(Ok(())) => {
                self.stage = Stage::Draining(MAX_DRAINED);
                Step::Again
            }
            Poll::Ready(Err(e)) => {
                if e.kind() == ErrorKind::Interrupted {
                    Step::Again
                } else {
                    self.finish(LineEnd::Refused)
                }
            }
        }
    }

    // Reads once, and throws the bytes away.
    fn drain(&mut self, cx: &mut Context<'_>, left: usize) -> Step
        requires { (self.old.unsent ≡ []) × (self.old.stage ≡ Stage.Draining left) }
        ensures goes { Goes R.reads W.writes A.answers 0 self.old self.new }
        ensures ends { IfOver result (EndsFor R.is_at_end R.fails W.fails W.is_full self.new) }
        ensures idle { OnWait result (IsIdle self.new) }
        ensures noted { self.new.end ≡ end_after result self.old.end }
        ensures registered { OnWait result (Covers cx.new (waits_for R.needs W.needs self.new)) }
        ensures kept { Keeps cx.old cx.new }
    {
        self.buffer.clear();
        match poll_read_buf(&mut self.reader, cx, &mut self.buffer) {
            Poll::Pending => Step::Wait,
            Poll::Ready(Ok(0)) => self.finish(LineEnd::Refused),
            Poll::Ready(Ok(count)) => {
                self.count(count);
                match left.checked_sub(count) {
                    Some(left) => {
                        self.stage = Stage::Draining(left);
                        Step::Again
                    }
                    None => self.finish(LineEnd::Refused),
                }
            }
            Poll::Ready(Err(e)) => {
                if e.kind() == ErrorKind::Interrupted {
                    Step::Again
                } else {
                    self.finish(LineEnd::Refused)
                }
            }
        }
    }

    // Takes turns until it has to wait or ends, or the budget is used up.
    fn turns(&mut self, cx: &mut Context<'_>) -> Poll<LineEnd>
        ensures goes { Goes R.reads W.writes A.answers 64 self.old self.new }
        ensures ends { IfReady result (λ end. EndsFor R.is_at_end R.fails W.fails W.is_full self.new end
            × (self.new.end ≡ Some end)) }
        ensures open { OnPending result (self.new.end ≡ self.old.end) }
        ensures idle { OnPending result ((cx.new.is_woken ≡ true) ⊎ IsIdle self.new) }
        ensures registered { OnPending result (Covers cx.new (waits_for R.needs W.needs self.new)) }
        ensures kept { Keeps cx.old cx.new }
    {
        for _ in 0..BUDGET {
            match self.turn(cx) {
                Step::Again => {}
                Step::Wait => return Poll::Pending,
                Step::Over(end) => return Poll::Ready(end),
            }
        }
        cx.yield_now()
    }
}

// What a line is told that the codec refused.
fn refusal(fault: LinesCodecError) -> &'static str
    ensures { (why : Refusal) × Because fault why × (result.now ≡ refusal_text why) }
{
    match fault {
        LinesCodecError::MaxLineLengthExceeded => "error TooLong\n",
        LinesCodecError::Io(e) => {
            if e.kind() == ErrorKind::OutOfMemory {
                "error Memory\n"
            } else {
                "error BadCommand\n"
            }
        }
    }
}

impl<R: AsyncRead, W: AsyncWrite, A: Answers> Future for LineSession<R, W, A> {
    type Output = LineEnd;

    ghost use Rattle.line_session.specs.Talking.{EndsFor, Goes, IsIdle, Since, waits_for};

    ghost needs = { waits_for R.needs W.needs };

    /// One poll of at most 64 turns.
    fn poll(&mut self, cx: &mut Context<'_>) -> Poll<LineEnd>
        ensures ended { IfSome self.old.end (λ end. (result ≡ Poll.Ready end) × (self.new ≡ self.old)) }
        ensures goes { Goes R.reads W.writes A.answers 64 self.old self.new }
        ensures since { (first : LineSession R W A) → Since R.reads W.writes A.answers first self.old
            → Since R.reads W.writes A.answers first self.new }
        ensures ends { IfNone self.old.end (IfReady result (EndsFor R.is_at_end R.fails W.fails W.is_full self.new)) }
        ensures noted { IfReady result (λ end. self.new.end ≡ Some end) }
        ensures open { OnPending result (self.new.end ≡ None) }
        ensures idle { OnPending result ((cx.new.is_woken ≡ true) ⊎ IsIdle self.new) }
        ensures registered { OnPending result (Covers cx.new (waits_for R.needs W.needs self.new)) }
        ensures kept { Keeps cx.old cx.new }
    {
        if let Some(end) = self.end {
            return Poll::Ready(end);
        }
        self.turns(cx)
    }
}
