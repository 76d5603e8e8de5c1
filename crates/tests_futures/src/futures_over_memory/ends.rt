//! Transports, sinks and sources that wait, fail, put off or stop.
//!
//! `Pauses`, `Trickle` and `Narrow` have twins in tests_ports, which give and take several bytes at a time.

ghost use Rattle.std.specs.Prelude.{⊤};

use futures::task::{Context, Poll};
use mux_frame::Frame;
use std::collections::VecDeque;
use std::io;
use std::io::IoSlice;
use tokio::io::{AsyncRead, AsyncWrite};
use tokio_sessions::{FrameSink, FrameSource, Offered, ReadBuffer};

/// Waits every other time that it is asked.
#[derive(Clone, Copy)]
pub struct Pauses {
    waits: bool,
    has_waited: bool,
}

impl Pauses {
    pub fn new(waits: bool) -> Pauses {
        Pauses {
            waits,
            has_waited: false,
        }
    }

    fn is_due(&mut self) -> bool {
        self.has_waited = self.waits && !self.has_waited;
        self.has_waited
    }
}

/// Gives its bytes one at a time, and then ends or fails.
#[derive(Drop)]
pub struct Trickle<'a> {
    pub rest: &'a [u8],
    pub pauses: Pauses,
    pub fails: bool,
}

impl AsyncRead for Trickle<'_> {
    ghost reads = { λ _ _ _. ⊤ };

    ghost is_at_end = { λ _. ⊤ };

    ghost reads_nothing = { λ _. tt };

    ghost reads_in_order = { λ _ _ _ _ _ _ _. tt };

    fn poll_read(&mut self, cx: &mut Context<'_>, buf: &mut [u8]) -> Poll<io::Result<usize>> {
        if self.pauses.is_due() {
            return cx.yield_now();
        }
        match (self.rest.split_first(), buf.first_mut()) {
            (Some((byte, rest)), Some(place)) => {
                *place = *byte;
                self.rest = rest;
                Poll::Ready(Ok(1))
            }
            _ if self.fails => Poll::Ready(Err(io::ErrorKind::ConnectionReset.into())),
            _ => Poll::Ready(Ok(0)),
        }
    }
}

/// Takes one byte at a time, and fails once it has taken `room` bytes.
#[derive(Drop)]
pub struct Narrow {
    pub bytes: Vec<u8>,
    pub room: usize,
    pub pauses: Pauses,
}

impl AsyncWrite for Narrow {
    ghost writes = { λ _ _ _. ⊤ };

    ghost writes_nothing = { λ _. tt };

    ghost writes_in_order = { λ _ _ _ _ _ _ _. tt };

    fn poll_write(&mut self, cx: &mut Context<'_>, buf: &[u8]) -> Poll<io::Result<usize>> {
        if self.pauses.is_due() {
            return cx.yield_now();
        }
        let Some(first) = buf.first() else {
            return Poll::Ready(Ok(0));
        };
        if self.bytes.len() >= self.room {
            return Poll::Ready(Err(io::ErrorKind::BrokenPipe.into()));
        }
        match self.bytes.push(*first) {
            Ok(()) => Poll::Ready(Ok(1)),
            Err(e) => Poll::Ready(Err(io::Error::from(e))),
        }
    }

    fn poll_flush(&mut self, _cx: &mut Context<'_>) -> Poll<io::Result<()>> {
        Poll::Ready(Ok(()))
    }

    fn poll_shutdown(&mut self, _cx: &mut Context<'_>) -> Poll<io::Result<()>> {
        Poll::Ready(Ok(()))
    }
}

/// Takes what it is given in one call, up to all pieces, and counts the calls.
#[derive(Drop)]
pub struct Wide {
    pub bytes: Vec<u8>,
    pub calls: usize,
}

impl AsyncWrite for Wide {
    ghost writes = { λ _ _ _. ⊤ };

    ghost writes_nothing = { λ _. tt };

    ghost writes_in_order = { λ _ _ _ _ _ _ _. tt };

    fn poll_write(&mut self, _cx: &mut Context<'_>, buf: &[u8]) -> Poll<io::Result<usize>> {
        self.calls = self.calls.saturating_add(1);
        match self.bytes.extend_from_slice(buf) {
            Ok(()) => Poll::Ready(Ok(buf.len())),
            Err(e) => Poll::Ready(Err(io::Error::from(e))),
        }
    }

    fn poll_flush(&mut self, _cx: &mut Context<'_>) -> Poll<io::Result<()>> {
        Poll::Ready(Ok(()))
    }

    fn poll_shutdown(&mut self, _cx: &mut Context<'_>) -> Poll<io::Result<()>> {
        Poll::Ready(Ok(()))
    }
}

/// Takes all pieces of a call together, but in the first calls only so many bytes as its limits say. It
/// counts the calls.
#[derive(Drop)]
pub struct Several<'a> {
    pub bytes: Vec<u8>,
    pub limits: &'a [usize],
    pub calls: usize,
}

impl Several<'_> {
    // The limit of the next call.
    fn next_limit(&mut self) -> usize {
        let Some((limit, others)) = self.limits.split_first() else {
            return usize::MAX;
        };
        self.limits = others;
        *limit
    }
}

impl AsyncWrite for Several<'_> {
    ghost writes = { λ _ _ _. ⊤ };

    ghost writes_nothing = { λ _. tt };

    ghost writes_in_order = { λ _ _ _ _ _ _ _. tt };

    fn poll_write(&mut self, cx: &mut Context<'_>, buf: &[u8]) -> Poll<io::Result<usize>> {
        self.poll_write_vectored(cx, &[IoSlice::new(buf)])
    }

    fn poll_write_vectored(
        &mut self,
        _cx: &mut Context<'_>,
        bufs: &[IoSlice<'_>],
    ) -> Poll<io::Result<usize>> {
        self.calls = self.calls.saturating_add(1);
        let mut left = self.next_limit();
        let mut count = 0;
        for piece in bufs {
            let piece = piece.as_slice();
            let taken = piece.len().min(left);
            if let Err(e) = self.bytes.extend_from_slice(&piece[..taken]) {
                return Poll::Ready(Err(io::Error::from(e)));
            }
            left -= taken;
            count += taken;
        }
        Poll::Ready(Ok(count))
    }

    fn poll_flush(&mut self, _cx: &mut Context<'_>) -> Poll<io::Result<()>> {
        Poll::Ready(Ok(()))
    }

    fn poll_shutdown(&mut self, _cx: &mut Context<'_>) -> Poll<io::Result<()>> {
        Poll::Ready(Ok(()))
    }
}

/// Puts each frame off `delays` times, and stops at the one behind `most`. Behind each it takes up to
/// `at_once` together. It keeps what it is told.
#[derive(Drop)]
pub struct Picky {
    pub frames: Vec<Frame>,
    pub delays: u8,
    pub left: u8,
    pub most: usize,
    pub at_once: usize,
    pub is_stopped: bool,
    pub flushes: Vec<bool>,
}

impl FrameSink for Picky {
    ghost takes = { λ _ _ _. ⊤ };

    ghost says = { λ _ _. ⊤ };

    ghost takes_nothing = { λ _. tt };

    ghost takes_in_order = { λ _ _ _ _ _ _ _. tt };

    fn poll_frame(&mut self, cx: &mut Context<'_>, frame: Frame) -> Offered {
        if self.left > 0 {
            self.left -= 1;
            let _: Poll<()> = cx.yield_now();
            return Offered::Later(frame);
        }
        self.left = self.delays;
        if self.frames.len() >= self.most {
            return Offered::Stop;
        }
        match self.frames.push(frame) {
            Ok(()) => Offered::Taken,
            Err(_) => Offered::Stop,
        }
    }

    fn take_run(&mut self, read: &mut ReadBuffer, max_frame: usize, most: usize) -> usize {
        let places = self.most.saturating_sub(self.frames.len());
        let room = most.min(self.at_once).min(places);
        for count in 0..room {
            let Some(frame) = read.cut_frame(max_frame) else {
                return count;
            };
            let _ = self.frames.push(frame);
        }
        room
    }

    fn stopped(&self) -> bool {
        self.is_stopped
    }

    fn flush(&mut self, _cx: &mut Context<'_>, more: bool) {
        let _ = self.flushes.push(more);
    }
}

/// Gives its frames, each behind a pause, and then waits without end.
#[derive(Drop)]
pub struct Endless {
    pub frames: VecDeque<Frame>,
    pub pauses: Pauses,
}

impl FrameSource for Endless {
    ghost gives = { λ _ _ _. ⊤ };

    ghost is_ended = { λ _. ⊤ };

    ghost gives_nothing = { λ _. tt };

    ghost gives_in_order = { λ _ _ _ _ _ _ _. tt };

    fn poll_frame(&mut self, cx: &mut Context<'_>) -> Poll<Option<Frame>> {
        if self.pauses.is_due() {
            return cx.yield_now();
        }
        match self.frames.poll_frame(cx) {
            Poll::Ready(Some(frame)) => Poll::Ready(Some(frame)),
            _ => cx.yield_now(),
        }
    }
}
