//! Frames out of a transport.
//!
//! Each turn repeats the clauses of a turn: what it read and offered, and by whom it is woken.

ghost use Rattle.std.specs.Prelude.{◌≡◌, ◌≢◌, ◌≤◌, [], Some, None, true, false, IfOk, IfNone, IfSome, IsTrue};
ghost use Rattle.std.specs.Option.{ForSome};
ghost use Rattle.futures.specs.Task.{Covers, Keeps};
ghost use Rattle.futures.specs.Poll.{IfReady, OnPending};

use crate::outlet::Outlet;
use crate::read_buffer::ReadBuffer;
use crate::step::Step;
use crate::{FrameSink, Offered};
use futures::Future;
use futures::task::{Context, Poll};
use mux_frame::{Frame, FrameFault, Memory};
use std::alloc::Global;
use std::io;
use tokio::io::AsyncRead;

// Turns of one poll. Each hands on at most one frame.
const BUDGET: usize = 64;

/// Why a reader ended.
#[derive(Clone, Copy, Debug, PartialEq, Eq)]
pub enum ReadEnd {
    /// The stream ended behind a whole frame, and every frame was taken.
    End,
    /// What is left of the stream is no frame, or a read failed, or memory was refused.
    Fault(FrameFault),
    /// The sink took no more, and lost the frame that it was offered; or `stopped` answered true.
    Stopped,
}

/// Reads frames `size:4 type:1 tag:3 body` and hands them to a sink, in order.
///
/// A poll hands on at most 64 frames, and then yields. A frame that the sink puts off is offered again
/// first of all at the next poll, and nothing is read before it is taken. A poll after the end gives the
/// same end, and neither reads nor offers anything, unless `retry` was called.
#[derive(Drop)]
pub struct ReadSession<R, S> {
    reader: R,
    sink: Outlet<S>,
    buffer: ReadBuffer,
    kept: Option<Frame>,
    end: Option<ReadEnd>,
    max_frame: usize,
    ghost unrefused: { end ≡ None → sink.refused ≡ false },
    ghost limits: { (32 ≤ max_frame) × (max_frame ≤ 16777216) },
    ghost as_read: { ForSome kept (λ frame. frame.as_read ≡ true) },
}

impl<R: AsyncRead, S: FrameSink> ReadSession<R, S> {
    ghost use Rattle.tokio_sessions.specs.Reading.{held, waits_for, answer_of, HeldFirst, Moves, Since, Turns, PollsTo};
    ghost use Rattle.tokio_sessions.specs.Passing.{OnGoing, OnWait};
    ghost use Rattle.tokio_sessions.specs.Lacking.{is_midway_by};
    ghost use Rattle.mux_frame.specs.Decoding.{IsPartial};

    /// A session for frames with a size of at most `max_frame`, from 32 to 16,777,216. A read is offered
    /// `room` bytes or more, and far more once a read has filled its room: 16 KiB serve small frames
    /// well. When memory is refused, `reader` and `sink` are dropped.
    pub fn new(
        alloc: Global,
        reader: R,
        sink: S,
        max_frame: usize,
        room: usize,
    ) -> Result<ReadSession<R, S>, Memory>
        requires { (32 ≤ max_frame) × (max_frame ≤ 16777216) }
        ensures { IfOk result (λ s. (s.reader ≡ reader) × (s.sink.inner ≡ sink) × (held s ≡ []) × (s.end ≡ None)
            × (s.max_frame ≡ max_frame)) }
    {
        Ok(ReadSession {
            reader,
            sink: Outlet::new(sink),
            buffer: ReadBuffer::new(alloc, room)?,
            kept: None,
            end: None,
            max_frame,
        })
    }

    /// The reader and the sink.
    pub fn into_parts(self) -> (R, S)
        ensures { (result.0 ≡ self.reader) × (result.1 ≡ self.sink.inner) }
    {
        (self.reader, self.sink.into_inner())
    }

    /// Goes on behind an end for want of memory, from where it stood: the next poll tries again. Whether there was such an
    /// end; nothing else changes.
    pub fn retry(&mut self) -> bool
        ensures yes { result ≡ true
            → (self.old.end ≡ Some (ReadEnd.Fault FrameFault.Memory)) × (self.new.end ≡ None) }
        ensures no { result ≡ false → (self.new.end ≡ self.old.end) }
        ensures always { self.old.end ≡ Some (ReadEnd.Fault FrameFault.Memory) → self.old.sink.refused ≡ false
            → result ≡ true }
        ensures same { (self.new.reader ≡ self.old.reader) × (self.new.sink ≡ self.old.sink)
            × (self.new.buffer ≡ self.old.buffer) × (self.new.kept ≡ self.old.kept)
            × (self.new.max_frame ≡ self.old.max_frame) }
        ensures since { (first : ReadSession R S) → Since R.reads S.takes first self.old
            → Since R.reads S.takes first self.new }
    {
        if self.sink.has_refused() || self.end != Some(ReadEnd::Fault(FrameFault::Memory)) {
            return false;
        }
        self.end = None;
        true
    }

    /// Whether a frame has begun of which more is to be read, and none that was put off comes before it.
    pub fn is_midway(&self) -> bool
        ensures { result ≡ is_midway_by self.now.kept self.now.buffer }
    {
        match &self.kept {
            Some(_) => false,
            None => self.buffer.has_begun(),
        }
    }

    // Hands one frame on, and reads before that if none is there.
    fn step(&mut self, cx: &mut Context<'_>) -> Step<ReadEnd>
        requires { self.old.end ≡ None }
        ensures turn { Turns R.reads S.takes R.is_at_end R.fails S.refuses 1 self.old (answer_of result) self.new }
        ensures registered { OnWait result (Covers cx.new (waits_for R.needs S.needs self.new)) }
        ensures kept { Keeps cx.old cx.new }
        ensures still { OnGoing result (self.new.end ≡ None) }
        ensures same { self.new.max_frame ≡ self.old.max_frame }
    {
        // Hardly ever is a frame put off, so what is kept isn't moved where there is none.
        if self.kept.is_some() {
            return self.offer_kept(cx);
        }
        if self.buffer.is_empty() {
            return self.read_on(cx);
        }
        match self.buffer.cut_frame(self.max_frame) {
            Some(frame) => self.offer(frame, cx),
            None => self.decode(cx),
        }
    }

    // Hands on a frame that no run gave, or reads. A frame of a run doesn't come this way, since it would be moved
    // through the result of a decoder.
    #[cold]
    #[inline(never)]
    fn decode(&mut self, cx: &mut Context<'_>) -> Step<ReadEnd>
        requires open { self.old.end ≡ None }
        requires none_kept { self.old.kept ≡ None }
        ensures turn { Turns R.reads S.takes R.is_at_end R.fails S.refuses 1 self.old (answer_of result) self.new }
        ensures registered { OnWait result (Covers cx.new (waits_for R.needs S.needs self.new)) }
        ensures kept { Keeps cx.old cx.new }
        ensures still { OnGoing result (self.new.end ≡ None) }
        ensures same { self.new.max_frame ≡ self.old.max_frame }
    {
        match self.buffer.next_frame(self.max_frame) {
            Ok(Some(frame)) => self.offer(frame, cx),
            Ok(None) => self.read_on(cx),
            Err(fault) => Step::Over(ReadEnd::Fault(fault)),
        }
    }

    // Reads once, and hands on the first frame of what came. So a read that brings a whole frame is no turn of its own,
    // and what fits into a poll isn't spread over two.
    #[inline(never)]
    fn read_on(&mut self, cx: &mut Context<'_>) -> Step<ReadEnd>
        requires open { self.old.end ≡ None }
        requires none_kept { self.old.kept ≡ None }
        requires partial { IsPartial self.old.max_frame self.old.buffer }
        ensures turn { Turns R.reads S.takes R.is_at_end R.fails S.refuses 1 self.old (answer_of result) self.new }
        ensures registered { OnWait result (Covers cx.new (waits_for R.needs S.needs self.new)) }
        ensures kept { Keeps cx.old cx.new }
        ensures still { OnGoing result (self.new.end ≡ None) }
        ensures same { self.new.max_frame ≡ self.old.max_frame }
    {
        match self.read(cx) {
            Step::Again => self.offer_first(cx),
            Step::Wait => Step::Wait,
            Step::Over(end) => Step::Over(end),
        }
    }

    // Offers the first frame, if it is whole.
    fn offer_first(&mut self, cx: &mut Context<'_>) -> Step<ReadEnd>
        requires open { self.old.end ≡ None }
        requires none_kept { self.old.kept ≡ None }
        ensures turn { Turns R.reads S.takes R.is_at_end R.fails S.refuses 1 self.old (answer_of result) self.new }
        ensures registered { OnWait result (Covers cx.new (waits_for R.needs S.needs self.new)) }
        ensures kept { Keeps cx.old cx.new }
        ensures still { OnGoing result (self.new.end ≡ None) }
        ensures same { self.new.max_frame ≡ self.old.max_frame }
    {
        match self.buffer.cut_frame(self.max_frame) {
            Some(frame) => self.offer(frame, cx),
            None => Step::Again,
        }
    }

    // Offers the frame that was put off.
    #[cold]
    #[inline(never)]
    fn offer_kept(&mut self, cx: &mut Context<'_>) -> Step<ReadEnd>
        requires open { self.old.end ≡ None }
        requires some_kept { self.old.kept ≢ None }
        ensures turn { Turns R.reads S.takes R.is_at_end R.fails S.refuses 1 self.old (answer_of result) self.new }
        ensures registered { OnWait result (Covers cx.new (waits_for R.needs S.needs self.new)) }
        ensures kept { Keeps cx.old cx.new }
        ensures still { OnGoing result (self.new.end ≡ None) }
        ensures same { self.new.max_frame ≡ self.old.max_frame }
    {
        match self.kept.take() {
            Some(frame) => self.offer(frame, cx),
            None => unreachable!(),
        }
    }

    // Offers a frame, which was the first thing held before.
    #[inline(always)]
    fn offer(&mut self, frame: Frame, cx: &mut Context<'_>) -> Step<ReadEnd>
        requires open { self.old.end ≡ None }
        requires none_kept { self.old.kept ≡ None }
        requires as_read { IsTrue frame.as_read }
        ensures turn { (before : ReadSession R S) → HeldFirst frame before self.old
            → Turns R.reads S.takes R.is_at_end R.fails S.refuses 1 before (answer_of result) self.new }
        ensures registered { OnWait result (Covers cx.new (waits_for R.needs S.needs self.new)) }
        ensures kept { Keeps cx.old cx.new }
        ensures still { OnGoing result (self.new.end ≡ None) }
        ensures same { self.new.max_frame ≡ self.old.max_frame }
    {
        match self.sink.poll_frame(cx, frame) {
            Offered::Taken => Step::Again,
            Offered::Later(frame) => {
                self.kept = Some(frame);
                Step::Wait
            }
            Offered::Stop => {
                self.end = Some(ReadEnd::Stopped);
                Step::Over(ReadEnd::Stopped)
            }
        }
    }

    // Reads once.
    fn read(&mut self, cx: &mut Context<'_>) -> Step<ReadEnd>
        requires open { self.old.end ≡ None }
        requires none_kept { self.old.kept ≡ None }
        requires partial { IsPartial self.old.max_frame self.old.buffer }
        ensures turn { Turns R.reads S.takes R.is_at_end R.fails S.refuses 0 self.old (answer_of result) self.new }
        ensures registered { OnWait result (Covers cx.new (waits_for R.needs S.needs self.new)) }
        ensures kept { Keeps cx.old cx.new }
        ensures still { OnGoing result (self.new.end ≡ None) }
        ensures same { (self.new.kept ≡ None) × (self.new.max_frame ≡ self.old.max_frame) }
    {
        match self.buffer.poll_read(&mut self.reader, cx) {
            Poll::Pending => Step::Wait,
            Poll::Ready(Ok(0)) => {
                if self.buffer.is_empty() {
                    Step::Over(ReadEnd::End)
                } else {
                    Step::Over(ReadEnd::Fault(FrameFault::Truncated))
                }
            }
            Poll::Ready(Ok(_)) => Step::Again,
            Poll::Ready(Err(e)) => {
                if e.kind() == io::ErrorKind::Interrupted {
                    Step::Again
                } else {
                    Step::Over(ReadEnd::Fault(FrameFault::from(e)))
                }
            }
        }
    }

    // Has the sink take frames together, if none is kept: how many.
    #[inline(always)]
    fn take_run(&mut self, most: usize) -> usize
        requires { self.old.end ≡ None }
        ensures moved { Moves R.reads S.takes result [] self.old self.new }
        ensures bound { result ≤ most }
        ensures still { self.new.end ≡ None }
        ensures same { self.new.max_frame ≡ self.old.max_frame }
    {
        if self.kept.is_some() {
            return 0;
        }
        self.sink.take_run(&mut self.buffer, self.max_frame, most)
    }

    // Takes turns until it has to wait or ends, or the budget is used up. Each hands one frame on at most, and then the
    // sink may take more at once.
    fn turns(&mut self, cx: &mut Context<'_>) -> Poll<ReadEnd>
        requires { self.old.end ≡ None }
        ensures turns { Turns R.reads S.takes R.is_at_end R.fails S.refuses 64 self.old result self.new }
        ensures registered { OnPending result (Covers cx.new (waits_for R.needs S.needs self.new)) }
        ensures kept { Keeps cx.old cx.new }
        ensures still { OnPending result (self.new.end ≡ None) }
        ensures same { self.new.max_frame ≡ self.old.max_frame }
    {
        let mut left = BUDGET;
        while left > 0 {
            left -= 1;
            match self.step(cx) {
                Step::Again => left -= self.take_run(left),
                Step::Wait => return Poll::Pending,
                Step::Over(end) => return Poll::Ready(end),
            }
        }
        cx.yield_now()
    }

    // One poll, up to the end.
    fn pass(&mut self, cx: &mut Context<'_>) -> Poll<ReadEnd>
        requires { self.old.end ≡ None }
        ensures polls { PollsTo R.reads S.takes R.is_at_end R.fails S.refuses S.says 64 self.old result self.new }
        ensures registered { OnPending result (Covers cx.new (waits_for R.needs S.needs self.new)) }
        ensures kept { Keeps cx.old cx.new }
        ensures told { IfReady result (λ end. self.new.end ≡ Some end) }
        ensures open { OnPending result (self.new.end ≡ None) }
    {
        let polled = if self.sink.asks_to_end() {
            Poll::Ready(ReadEnd::Stopped)
        } else {
            self.turns(cx)
        };
        self.finish(cx, &polled);
        polled
    }

    // Notes the end, and flushes the sink.
    fn finish(&mut self, cx: &mut Context<'_>, polled: &Poll<ReadEnd>)
        ensures sink { S.takes self.old.sink.inner [] self.new.sink.inner }
        ensures refused { self.new.sink.refused ≡ self.old.sink.refused }
        ensures stop { S.refuses self.old.sink.inner → S.refuses self.new.sink.inner }
        ensures told { IfReady polled.now (λ end. self.new.end ≡ Some end) }
        ensures open { OnPending polled.now (self.new.end ≡ self.old.end) }
        ensures registered { Covers cx.old (waits_for R.needs S.needs self.old)
            → Covers cx.new (waits_for R.needs S.needs self.new) }
        ensures kept { Keeps cx.old cx.new }
        ensures same { (self.new.reader ≡ self.old.reader) × (self.new.buffer ≡ self.old.buffer)
            × (self.new.kept ≡ self.old.kept) × (self.new.max_frame ≡ self.old.max_frame) }
    {
        let mut more = false;
        match polled {
            Poll::Ready(end) => self.end = Some(*end),
            Poll::Pending => more = self.kept.is_none() && self.buffer.has_frame(),
        }
        self.sink.flush(cx, more);
    }
}

impl<R: AsyncRead, S: FrameSink> Future for ReadSession<R, S> {
    type Output = ReadEnd;

    ghost use Rattle.tokio_sessions.specs.Reading.{PollsTo, waits_for, Since};

    ghost needs = { waits_for R.needs S.needs };

    /// One poll: it reads, and hands on at most 64 frames.
    fn poll(&mut self, cx: &mut Context<'_>) -> Poll<ReadEnd>
        ensures ended { IfSome self.old.end (λ end. (result ≡ Poll.Ready end) × (self.new ≡ self.old)) }
        ensures polls { IfNone self.old.end (PollsTo R.reads S.takes R.is_at_end R.fails S.refuses S.says 64
            self.old result self.new) }
        ensures told { IfReady result (λ end. self.new.end ≡ Some end) }
        ensures open { OnPending result (self.new.end ≡ None) }
        ensures since { (first : ReadSession R S) → Since R.reads S.takes first self.old
            → Since R.reads S.takes first self.new }
        ensures registered { OnPending result (Covers cx.new (waits_for R.needs S.needs self.new)) }
        ensures kept { Keeps cx.old cx.new }
    {
        if let Some(end) = self.end {
            return Poll::Ready(end);
        }
        self.pass(cx)
    }
}
