//! Frames into a transport.

ghost use Rattle.std.specs.Prelude.{◌≡◌, ◌<◌, ◌≤◌, [], Some, None, true, false, length, IfOk, IfNone, IfSome};
ghost use Rattle.futures.specs.Task.{Covers, Keeps};
ghost use Rattle.futures.specs.Poll.{IfReady, OnPending};

use crate::FrameSource;
use crate::outlet::{Outflow, Wrote};
use crate::step::Step;
use crate::write_buffer::WriteBuffer;
use futures::Future;
use futures::task::{Context, Poll};
use mux_frame::Memory;
use std::alloc::Global;
use tokio::io::AsyncWrite;

// How many frames one poll takes, and how many writes it makes.
const BUDGET: usize = 64;

/// Why a writer ended.
#[derive(Clone, Copy, Debug, PartialEq, Eq)]
pub enum WriteEnd {
    /// The source has ended, and every byte was written.
    Done,
    /// A write failed, or took no byte.
    Fault,
}

/// Writes the frames of a source as `size:4 type:1 tag:3 body`, in order.
///
/// A poll takes at most 64 frames, and then yields. Several frames go out in one write: it writes when
/// the source has no more, or enough bytes were gathered. A poll after the end gives the same end, and
/// neither writes nor takes anything. It does not flush the writer, nor shut it down.
#[derive(Drop)]
pub struct WriteSession<W, Q> {
    writer: Outflow<W>,
    source: Q,
    buffer: WriteBuffer,
    end: Option<WriteEnd>,
    ghost unfailed: { end ≡ None → writer.failed ≡ false },
}

// Why no more frames are taken.
#[derive(Clone, Copy)]
enum Filled {
    Waits,
    Ended,
    Full,
}

impl<W: AsyncWrite, Q: FrameSource> WriteSession<W, Q> {
    ghost use Rattle.tokio_sessions.specs.Writing.{unsent, Sends, FilledTells, WriteTells, WriteEndsAfter, writes_wait_for};
    ghost use Rattle.tokio_sessions.specs.Passing.{OnGoing, OnWait};

    /// A session that gathers up to `gather` bytes for a write: 64 KiB serve well. All the room that
    /// it ever needs is made here. When memory is refused, `writer` and `source` are dropped.
    pub fn new(
        alloc: Global,
        writer: W,
        source: Q,
        gather: usize,
    ) -> Result<WriteSession<W, Q>, Memory>
        ensures { IfOk result (λ s. (s.writer.inner ≡ writer) × (s.source ≡ source) × (unsent s ≡ [])
            × (s.end ≡ None)) }
    {
        Ok(WriteSession {
            writer: Outflow::new(writer),
            source,
            buffer: WriteBuffer::new(alloc, gather)?,
            end: None,
        })
    }

    /// The writer and the source.
    pub fn into_parts(self) -> (W, Q)
        ensures { (result.0 ≡ self.writer.inner) × (result.1 ≡ self.source) }
    {
        (self.writer.into_inner(), self.source)
    }

    // Asks the source once, and answers why no frame came.
    fn take_frame(&mut self, cx: &mut Context<'_>) -> Option<Filled>
        requires { self.old.buffer.is_full ≡ false }
        ensures sends { Sends W.writes Q.gives 1 self.old self.new }
        ensures told { IfSome result (λ filled. FilledTells filled (Covers cx.new (Q.needs self.new.source))
            (Q.is_ended self.new.source) (self.new.buffer.is_full ≡ true)) }
        ensures kept { Keeps cx.old cx.new }
        ensures same { (self.new.end ≡ self.old.end) × (self.new.writer ≡ self.old.writer) }
    {
        match self.source.poll_frame(cx) {
            Poll::Pending => Some(Filled::Waits),
            Poll::Ready(None) => Some(Filled::Ended),
            Poll::Ready(Some(frame)) => {
                self.buffer.push(frame);
                None
            }
        }
    }

    // Has the source give frames together: how many.
    #[inline(always)]
    fn take_run(&mut self, most: usize) -> usize
        ensures sends { Sends W.writes Q.gives result self.old self.new }
        ensures bound { result ≤ most }
        ensures same { (self.new.end ≡ self.old.end) × (self.new.writer ≡ self.old.writer) }
    {
        self.source.give_run(&mut self.buffer, most)
    }

    // Takes frames, and answers why it stopped before the budget was used up.
    fn fill(&mut self, cx: &mut Context<'_>) -> Option<Filled>
        ensures sends { Sends W.writes Q.gives 64 self.old self.new }
        ensures told { IfSome result (λ filled. FilledTells filled (Covers cx.new (Q.needs self.new.source))
            (Q.is_ended self.new.source) (self.new.buffer.is_full ≡ true)) }
        ensures kept { Keeps cx.old cx.new }
        ensures same { (self.new.end ≡ self.old.end) × (self.new.writer ≡ self.old.writer) }
    {
        let mut left = BUDGET;
        while left > 0 {
            if self.buffer.is_full() {
                break;
            }
            left -= 1;
            if let Some(filled) = self.take_frame(cx) {
                return Some(filled);
            }
            left -= self.take_run(left);
        }
        self.buffer.is_full().then_some(Filled::Full)
    }

    // Writes once.
    fn write(&mut self, cx: &mut Context<'_>) -> Step<WriteEnd>
        requires some { 0 < length self.old.buffer.bytes }
        requires open { self.old.end ≡ None }
        ensures sends { Sends W.writes Q.gives 0 self.old self.new }
        ensures told { WriteTells W.fails W.is_full result self.new }
        ensures registered { OnWait result (Covers cx.new (W.needs self.new.writer.inner)) }
        ensures missing { OnWait result (0 < length self.new.buffer.bytes) }
        ensures full { 0 < length self.new.buffer.bytes → self.new.buffer.is_full ≡ self.old.buffer.is_full }
        ensures kept { Keeps cx.old cx.new }
        ensures same { self.new.source ≡ self.old.source }
        ensures still { OnGoing result (self.new.end ≡ None) }
    {
        match self.writer.write(&self.buffer, cx) {
            Wrote::Waits => Step::Wait,
            Wrote::Count(count) => {
                self.buffer.advance(count);
                Step::Again
            }
            Wrote::Failed => {
                self.end = Some(WriteEnd::Fault);
                Step::Over(WriteEnd::Fault)
            }
        }
    }

    // Writes until nothing is missing, or the writer waits or fails.
    fn drain(&mut self, cx: &mut Context<'_>, filled: Filled) -> Poll<WriteEnd>
        requires told { FilledTells filled (Covers cx.old (Q.needs self.old.source)) (Q.is_ended self.old.source)
            (self.old.buffer.is_full ≡ true) }
        requires open { self.old.end ≡ None }
        ensures sends { Sends W.writes Q.gives 0 self.old self.new }
        ensures ends { WriteEndsAfter W.fails W.is_full Q.is_ended result self.new }
        ensures registered { OnPending result (Covers cx.new (writes_wait_for W.needs Q.needs Q.is_ended self.new)) }
        ensures kept { Keeps cx.old cx.new }
        ensures still { OnPending result (self.new.end ≡ None) }
    {
        for _ in 0..BUDGET {
            if self.buffer.is_empty() {
                return match filled {
                    Filled::Ended => Poll::Ready(WriteEnd::Done),
                    Filled::Waits => Poll::Pending,
                    Filled::Full => cx.yield_now(),
                };
            }
            match self.write(cx) {
                Step::Again => {}
                Step::Wait => return Poll::Pending,
                Step::Over(end) => return Poll::Ready(end),
            }
        }
        cx.yield_now()
    }

    // One poll, up to the end.
    fn pass(&mut self, cx: &mut Context<'_>) -> Poll<WriteEnd>
        requires { self.old.end ≡ None }
        ensures sends { Sends W.writes Q.gives 64 self.old self.new }
        ensures ends { WriteEndsAfter W.fails W.is_full Q.is_ended result self.new }
        ensures registered { OnPending result (Covers cx.new (writes_wait_for W.needs Q.needs Q.is_ended self.new)) }
        ensures kept { Keeps cx.old cx.new }
        ensures told { IfReady result (λ end. self.new.end ≡ Some end) }
        ensures still { OnPending result (self.new.end ≡ None) }
    {
        let Some(filled) = self.fill(cx) else {
            return cx.yield_now();
        };
        let polled = self.drain(cx, filled);
        self.finish(&polled);
        polled
    }

    // Notes the end.
    fn finish(&mut self, polled: &Poll<WriteEnd>)
        ensures same { (self.new.writer ≡ self.old.writer) × (self.new.source ≡ self.old.source)
            × (self.new.buffer ≡ self.old.buffer) }
        ensures told { IfReady polled.now (λ end. self.new.end ≡ Some end) }
        ensures still { OnPending polled.now (self.new.end ≡ self.old.end) }
    {
        if let Poll::Ready(end) = polled {
            self.end = Some(*end);
        }
    }
}

impl<W: AsyncWrite, Q: FrameSource> Future for WriteSession<W, Q> {
    type Output = WriteEnd;

    ghost use Rattle.tokio_sessions.specs.Writing.{Sends, WriteEndsAfter, writes_wait_for, SentSince};

    ghost needs = { writes_wait_for W.needs Q.needs Q.is_ended };

    /// One poll: it takes at most 64 frames, and writes.
    fn poll(&mut self, cx: &mut Context<'_>) -> Poll<WriteEnd>
        ensures ended { IfSome self.old.end (λ end. (result ≡ Poll.Ready end) × (self.new ≡ self.old)) }
        ensures sends { Sends W.writes Q.gives 64 self.old self.new }
        ensures ends { IfNone self.old.end (WriteEndsAfter W.fails W.is_full Q.is_ended result self.new) }
        ensures told { IfReady result (λ end. self.new.end ≡ Some end) }
        ensures still { OnPending result (self.new.end ≡ None) }
        ensures since { (first : WriteSession W Q) → SentSince W.writes Q.gives first self.old
            → SentSince W.writes Q.gives first self.new }
        ensures registered { OnPending result (Covers cx.new (writes_wait_for W.needs Q.needs Q.is_ended self.new)) }
        ensures kept { Keeps cx.old cx.new }
    {
        if let Some(end) = self.end {
            return Poll::Ready(end);
        }
        self.pass(cx)
    }
}
