//! The bytes of frames that are not written yet.

ghost use Rattle.std.specs.Prelude.{◌≡◌, ◌+◌, ◌<◌, ◌≤◌, ◌==◌, ◌&&◌, ◌⊎◌, true, false, [], Ok, ◌∷◌, ◌++◌, length, drop, nat_lt, IfOk};
ghost use Rattle.futures.specs.Task.{Covers, Keeps};
ghost use Rattle.futures.specs.Poll.{OnPending};
ghost use Rattle.tokio.specs.Io.Moved.{count_moved, bytes_moved, IfReadyErr};
ghost use Rattle.mux_frame.specs.Spelling.{size_of, spelling};
ghost use Rattle.mux_frame.specs.Views.{FrameView};
ghost use Rattle.tokio_sessions.specs.Passing.{GivesRun, HasNoSmall};

use crate::shared_body::{Front, SharedBody, are_written, drop_front};
use arrayvec::ArrayVec;
use bytes::BytesMut;
use futures::task::{Context, Poll};
use mux_frame::{Frame, Memory};
use std::alloc::{AllocError, Global};
use std::collections::VecDeque;
use std::io;
use std::io::IoSlice;
use std::marker::Model;
use tokio::io::AsyncWrite;

// Bodies of this size and above are written where they lie.
const SHARED_FROM: usize = 16 * 1024;

// How many bodies are shared at most. A socket takes four pieces in one write: a head and a body, twice.
const MOST_BODIES: usize = 4;

// The greatest head of a frame: size, type and tag, and then a lead.
const HEAD: usize = 32;

/// Pieces of frames, one behind the other: bytes of its own, and bodies that are shared among them.
///
/// All its room is made at the beginning, so a frame joins it without memory.
#[derive(Drop)]
pub struct WriteBuffer {
    own: BytesMut,
    // The first bytes of its own that were written.
    sent: usize,
    // A body that was written stays, empty, until everything is.
    bodies: ArrayVec<SharedBody, MOST_BODIES>,
    // How many own bytes that wait are before the last body.
    before: usize,
    gather: usize,
}

impl Model for WriteBuffer {
    ghost use Rattle.std.specs.Prelude.{◌≡◌, ◌+◌, ◌≤◌, ◌||◌, length, drop, not, nat_lt};
    ghost use Rattle.tokio_sessions.specs.Unsent.{Unsent};
    ghost use Rattle.tokio_sessions.specs.Weaving.{count_before, woven};
    ghost use Rattle.tokio_sessions.specs.declared.write_buffer.TheConstants.{HEAD, MOST_BODIES, SHARED_FROM};

    ghost Value = { Unsent };

    ghost view = { λ b. record {
      bytes = woven (drop b.sent b.own.items) b.bodies.items;
      is_full = nat_lt b.gather (length b.own.items) || not (nat_lt (length b.bodies.items) MOST_BODIES);
    } };

    ghost invariant = { λ b. (b.before ≡ count_before b.bodies.items)
        × (b.sent + b.before ≤ length b.own.items)
        × (b.gather + (HEAD + SHARED_FROM) ≤ length b.own.items + b.own.spare) };
}

impl WriteBuffer {
    /// No bytes, and room for `gather` bytes and one frame more.
    pub(crate) fn new(alloc: Global, gather: usize) -> Result<WriteBuffer, Memory>
        ensures { IfOk result (λ b. (b.bytes ≡ []) × (b.is_full ≡ false)) }
    {
        let room = gather.checked_add(HEAD + SHARED_FROM).ok_or(AllocError)?;
        Ok(WriteBuffer {
            own: BytesMut::with_capacity(alloc, room)?,
            sent: 0,
            bodies: ArrayVec::new(),
            before: 0,
            gather,
        })
    }

    /// Whether every byte was written.
    pub(crate) fn is_empty(&self) -> bool
        ensures { result ≡ (length self.now.bytes == 0) }
    {
        self.sent == self.own.len() && are_written(self.bodies.as_slice())
    }

    /// Whether more than `gather` bytes of its own were collected, or the most bodies that it shares.
    pub fn is_full(&self) -> bool
        ensures { result ≡ self.now.is_full }
    {
        self.own.len() > self.gather || self.bodies.len() >= MOST_BODIES
    }

    /// A frame joins what is there, which is not full yet.
    pub fn push(&mut self, frame: Frame)
        requires room { self.old.is_full ≡ false }
        requires size { size_of frame.frame ≤ 16777216 }
        ensures { self.new.bytes ≡ self.old.bytes ++ spelling frame.frame }
    {
        if !self.push_small(&frame) {
            self.push_pieces(frame);
        }
    }

    /// A small frame, held as a decoder gives it, joins what is there, which is not full yet: whether it
    /// is one.
    #[inline(always)]
    pub fn push_small(&mut self, frame: &Frame) -> bool
        requires room { self.old.is_full ≡ false }
        ensures small { result ≡ frame.now.as_read && nat_lt (length frame.now.frame.body) SHARED_FROM }
        ensures joined { result ≡ true → self.new.bytes ≡ self.old.bytes ++ spelling frame.now.frame }
        ensures same { result ≡ false → self.new ≡ self.old }
    {
        if !frame.as_read() || frame.body_len() >= SHARED_FROM {
            return false;
        }
        let (size, kind_and_tag) = frame.head();
        self.own.extend_reserved(&size);
        self.own.extend_reserved(&kind_and_tag);
        self.own.extend_reserved(frame.body());
        true
    }

    /// Small frames at the front of a queue join what is there, at most `most` and until it is full: how
    /// many. They are taken off the queue.
    pub fn take_small(&mut self, frames: &mut VecDeque<Frame>, most: usize) -> usize
        ensures run { GivesRun (λ a xs b. a ≡ xs ++ b) result frames.old.items self.old.bytes
            frames.new.items self.new.bytes }
        ensures bound { result ≤ most }
        ensures left { result < most → (self.new.is_full ≡ true) ⊎ HasNoSmall SHARED_FROM frames.new.items }
    {
        for count in 0..most {
            if self.is_full() {
                return count;
            }
            if !self.take_first(frames) {
                return count;
            }
        }
        most
    }

    // The first frame of a queue joins what is there, and is taken off the queue, if it is a small one.
    #[inline(always)]
    fn take_first(&mut self, frames: &mut VecDeque<Frame>) -> bool
        requires room { self.old.is_full ≡ false }
        ensures joined { result ≡ true → (f : FrameView) × (frames.old.items ≡ f ∷ frames.new.items)
            × (self.new.bytes ≡ self.old.bytes ++ spelling f.frame) }
        ensures same { result ≡ false → (frames.new.items ≡ frames.old.items) × (self.new.bytes ≡ self.old.bytes) }
        ensures left { result ≡ false → HasNoSmall SHARED_FROM frames.new.items }
    {
        let Some(frame) = frames.front() else {
            return false;
        };
        if !self.push_small(frame) {
            return false;
        }
        let _ = frames.pop_front();
        true
    }

    // A frame that is large, or lies in two pieces, joins what is there.
    #[cold]
    #[inline(never)]
    fn push_pieces(&mut self, frame: Frame)
        requires room { self.old.is_full ≡ false }
        requires size { size_of frame.frame ≤ 16777216 }
        ensures { self.new.bytes ≡ self.old.bytes ++ spelling frame.frame }
    {
        let (size, kind_and_tag) = frame.head();
        self.own.extend_reserved(&size);
        self.own.extend_reserved(&kind_and_tag);
        let (lead, rest) = frame.into_pieces();
        self.own.extend_reserved(lead.as_slice());
        if rest.len() < SHARED_FROM {
            self.own.extend_reserved(rest.as_slice());
        } else {
            let waiting = self.own.len() - self.sent;
            let behind = waiting - self.before;
            self.bodies.push(SharedBody { behind, body: rest });
            self.before = waiting;
        }
    }

    /// One write from the front of the bytes, which stay until they are taken by `advance`.
    pub(crate) fn poll_write<W: AsyncWrite>(
        &self,
        writer: &mut W,
        cx: &mut Context<'_>,
    ) -> Poll<io::Result<usize>>
        ensures bound { count_moved result ≤ length self.now.bytes }
        ensures bytes { W.writes writer.old (bytes_moved result self.now.bytes) writer.new }
        ensures full { result ≡ Poll.Ready (Ok 0) → 0 < length self.now.bytes → W.is_full writer.new }
        ensures failed { IfReadyErr result (W.fails writer.new) }
        ensures registered { OnPending result (Covers cx.new (W.needs writer.new)) }
        ensures kept { Keeps cx.old cx.new }
    {
        let own = &self.own.as_slice()[self.sent..];
        if self.bodies.is_empty() {
            return writer.poll_write(cx, own);
        }
        let first = Front::new(own, self.bodies.as_slice());
        let second = Front::new(first.own, first.bodies);
        let third = Front::new(second.own, second.bodies);
        let fourth = Front::new(third.own, third.bodies);
        let pieces = [
            IoSlice::new(first.before),
            IoSlice::new(first.body),
            IoSlice::new(second.before),
            IoSlice::new(second.body),
            IoSlice::new(third.before),
            IoSlice::new(third.body),
            IoSlice::new(fourth.before),
            IoSlice::new(fourth.body),
            IoSlice::new(fourth.own),
        ];
        writer.poll_write_vectored(cx, &pieces)
    }

    /// The first `count` bytes were written.
    pub(crate) fn advance(&mut self, count: usize)
        requires { count ≤ length self.old.bytes }
        ensures bytes { self.new.bytes ≡ drop count self.old.bytes }
        ensures full { 0 < length self.new.bytes → self.new.is_full ≡ self.old.is_full }
    {
        let len = self.own.len();
        let written = drop_front(self.bodies.as_mut_slice(), count);
        self.sent += written;
        self.before = self.before.saturating_sub(written);
        if self.sent == len && are_written(self.bodies.as_slice()) {
            self.own.clear();
            self.sent = 0;
            self.bodies.clear();
        }
    }
}
