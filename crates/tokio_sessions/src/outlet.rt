//! A sink and a writer that are let alone once they have answered for the last time.

ghost use Rattle.std.specs.Prelude.{◌≡◌, ◌<◌, ◌≤◌, ◌⊎◌, [], false, true, length, take, IsTrue};
ghost use Rattle.std.specs.IoError.{error_kind};
ghost use Rattle.std.specs.declared.io.Error.{Error};
ghost use Rattle.futures.specs.Task.{Covers, Keeps};
ghost use Rattle.tokio_sessions.specs.Passing.{
  frames_taken,
  TakesRun,
  HandsBack,
  OnLater,
  OnStop,
  is_stop,
  count_wrote,
  is_failed,
  OnFailed,
  OnWaits,
};

use crate::read_buffer::ReadBuffer;
use crate::write_buffer::WriteBuffer;
use crate::{FrameSink, Offered};
use futures::task::{Context, Poll};
use mux_frame::Frame;
use std::io::ErrorKind;
use tokio::io::AsyncWrite;

/// A sink, and whether it has answered `Stop`, behind which it is offered nothing more.
#[derive(Drop)]
pub struct Outlet<S> {
    inner: S,
    refused: bool,
}

impl<S: FrameSink> Outlet<S> {
    /// A sink that hasn't answered `Stop`.
    pub fn new(inner: S) -> Outlet<S>
        ensures { (result.inner ≡ inner) × (result.refused ≡ false) }
    {
        Outlet {
            inner,
            refused: false,
        }
    }

    /// Whether it has answered `Stop`.
    pub fn has_refused(&self) -> bool
        ensures { result ≡ self.now.refused }
    {
        self.refused
    }

    /// The sink alone.
    pub fn into_inner(self) -> S
        ensures { result ≡ self.inner }
    {
        self.inner
    }

    /// Offers a frame, behind no `Stop`.
    #[inline(always)]
    pub fn poll_frame(&mut self, cx: &mut Context<'_>, frame: Frame) -> Offered
        requires as_read { IsTrue frame.as_read }
        requires open { self.old.refused ≡ false }
        ensures noted { self.new.refused ≡ is_stop result }
        ensures frames { S.takes self.old.inner (frames_taken frame result) self.new.inner }
        ensures back { HandsBack frame result }
        ensures stop { OnStop result (S.refuses self.new.inner) }
        ensures registered { OnLater result (Covers cx.new (S.needs self.new.inner)) }
        ensures kept { Keeps cx.old cx.new }
    {
        match self.inner.poll_frame(cx, frame) {
            Offered::Taken => Offered::Taken,
            Offered::Later(frame) => Offered::Later(frame),
            Offered::Stop => {
                self.refused = true;
                Offered::Stop
            }
        }
    }

    /// Has the sink take frames together, behind no `Stop`: how many.
    #[inline(always)]
    pub fn take_run(&mut self, read: &mut ReadBuffer, max_frame: usize, most: usize) -> usize
        requires limit { max_frame ≤ 16777216 }
        requires open { self.old.refused ≡ false }
        ensures noted { self.new.refused ≡ self.old.refused }
        ensures run { TakesRun S.takes max_frame result self.old.inner read.old self.new.inner read.new }
        ensures bound { result ≤ most }
    {
        self.inner.take_run(read, max_frame, most)
    }

    /// Whether the sink says that the reader is to end.
    pub fn asks_to_end(&self) -> bool
        ensures { S.says self.now.inner result }
    {
        self.inner.stopped()
    }

    /// The end of a poll.
    pub fn flush(&mut self, cx: &mut Context<'_>, more: bool)
        ensures same { self.new.refused ≡ self.old.refused }
        ensures frames { S.takes self.old.inner [] self.new.inner }
        ensures stop { S.refuses self.old.inner → S.refuses self.new.inner }
        ensures registered { Covers cx.old (S.needs self.old.inner) → Covers cx.new (S.needs self.new.inner) }
        ensures kept { Keeps cx.old cx.new }
    {
        self.inner.flush(cx, more);
    }
}

/// What became of a write.
pub enum Wrote {
    Waits,
    /// So many bytes went: none where the write was interrupted.
    Count(usize),
    /// The write failed, or took nothing.
    Failed,
}

/// A writer, and whether a write has failed or took nothing, behind which nothing more is written.
#[derive(Drop)]
pub struct Outflow<W> {
    inner: W,
    failed: bool,
}

impl<W: AsyncWrite> Outflow<W> {
    /// A writer, none of whose writes has failed so far.
    pub fn new(inner: W) -> Outflow<W>
        ensures { (result.inner ≡ inner) × (result.failed ≡ false) }
    {
        Outflow {
            inner,
            failed: false,
        }
    }

    /// The writer alone.
    pub fn into_inner(self) -> W
        ensures { result ≡ self.inner }
    {
        self.inner
    }

    /// Writes once from the front of some bytes, behind no failure.
    pub fn write(&mut self, buffer: &WriteBuffer, cx: &mut Context<'_>) -> Wrote
        requires some { 0 < length buffer.now.bytes }
        requires open { self.old.failed ≡ false }
        ensures noted { self.new.failed ≡ is_failed result }
        ensures bound { count_wrote result ≤ length buffer.now.bytes }
        ensures bytes { W.writes self.old.inner (take (count_wrote result) buffer.now.bytes) self.new.inner }
        ensures cause { OnFailed result (((e : Error) × W.fails self.new.inner e) ⊎ W.is_full self.new.inner) }
        ensures interrupted { result ≡ Wrote.Count 0
            → (e : Error) × W.fails self.new.inner e × (error_kind e ≡ ErrorKind.Interrupted) }
        ensures registered { OnWaits result (Covers cx.new (W.needs self.new.inner)) }
        ensures kept { Keeps cx.old cx.new }
    {
        match buffer.poll_write(&mut self.inner, cx) {
            Poll::Pending => Wrote::Waits,
            Poll::Ready(Ok(0)) => {
                self.failed = true;
                Wrote::Failed
            }
            Poll::Ready(Ok(count)) => Wrote::Count(count),
            Poll::Ready(Err(e)) => {
                if e.kind() == ErrorKind::Interrupted {
                    Wrote::Count(0)
                } else {
                    self.failed = true;
                    Wrote::Failed
                }
            }
        }
    }
}
