//! Frames on their way from the reader to the writer.

ghost use Rattle.std.specs.Prelude.{⊤};
ghost use Rattle.futures.specs.Poll.{OnPending};
ghost use Rattle.futures.specs.Task.{IsArmed, Keeps};

use crate::bell::Bell;
use futures::spin::lock;
use futures::task::{Context, Poll};
use mux_frame::Frame;
use std::alloc::Global;
use std::collections::VecDeque;
use std::mem;
use std::sync::Mutex;
use std::sync::atomic::{AtomicBool, Ordering};
use tokio_sessions::{FrameSink, FrameSource, Offered};

// The greatest body that a source may give: the greatest size of a frame, less type and tag.
const MAX_BODY: usize = 16_777_212;

/// The frames of a connection.
#[derive(Drop)]
pub struct Queue {
    frames: Mutex<VecDeque<Frame>>,
    bell: Bell,
    is_over: AtomicBool,
}

impl Queue {
    pub fn new(alloc: Global) -> Queue {
        Queue {
            frames: Mutex::new(VecDeque::new(alloc)),
            bell: Bell::new(),
            is_over: AtomicBool::new(false),
        }
    }

    /// No frame comes any more.
    pub fn end(&self) {
        self.is_over.store(true, Ordering::SeqCst);
        self.bell.ring();
    }

    // Swaps an empty queue with the frames that are there.
    fn swap(&self, frames: &mut VecDeque<Frame>) {
        if let Some(mut queued) = lock(&self.frames) {
            mem::swap(&mut *queued, frames);
        }
    }

    // Puts the frames behind those that are there.
    fn append(&self, frames: &mut VecDeque<Frame>) {
        if let Some(mut queued) = lock(&self.frames) {
            if queued.is_empty() {
                mem::swap(&mut *queued, frames);
                return;
            }
            for _ in 0..frames.len() {
                if let Some(frame) = frames.pop_front() {
                    let _ = queued.push_back(frame);
                }
            }
        }
    }
}

/// Collects the frames of a read.
#[derive(Drop)]
pub struct IntoQueue<'a> {
    pub queue: &'a Queue,
    pub batch: VecDeque<Frame>,
}

impl FrameSink for IntoQueue<'_> {
    ghost takes = { λ _ _ _. ⊤ };

    ghost says = { λ _ _. ⊤ };

    ghost takes_nothing = { λ _. tt };

    ghost takes_in_order = { λ _ _ _ _ _ _ _. tt };

    #[inline(always)]
    fn poll_frame(&mut self, _cx: &mut Context<'_>, frame: Frame) -> Offered {
        match self.batch.push_back(frame) {
            Ok(()) => Offered::Taken,
            Err(_) => Offered::Stop,
        }
    }

    fn stopped(&self) -> bool {
        false
    }

    fn flush(&mut self, _cx: &mut Context<'_>, more: bool) {
        if more || self.batch.is_empty() {
            return;
        }
        self.queue.append(&mut self.batch);
        self.queue.bell.ring();
    }
}

/// Takes all the frames of the queue at once.
#[derive(Drop)]
pub struct FromQueue<'a> {
    pub queue: &'a Queue,
    pub next: VecDeque<Frame>,
}

impl FromQueue<'_> {
    // Ready when frames are there, with true, or when none is to come.
    #[cold]
    #[inline(never)]
    fn refill(&mut self, cx: &mut Context<'_>) -> Poll<bool>
        ensures registered { OnPending result (IsArmed cx.new) }
        ensures kept { Keeps cx.old cx.new }
    {
        self.queue.bell.hush();
        self.queue.swap(&mut self.next);
        if !self.next.is_empty() {
            return Poll::Ready(true);
        }
        if self.queue.is_over.load(Ordering::SeqCst) {
            return Poll::Ready(false);
        }
        match self.queue.bell.poll_rung(cx) {
            Poll::Ready(()) => cx.yield_now(),
            Poll::Pending => Poll::Pending,
        }
    }
}

impl FrameSource for FromQueue<'_> {
    ghost gives = { λ _ _ _. ⊤ };

    ghost is_ended = { λ _. ⊤ };

    ghost gives_nothing = { λ _. tt };

    ghost gives_in_order = { λ _ _ _ _ _ _ _. tt };

    #[inline(always)]
    fn poll_frame(&mut self, cx: &mut Context<'_>) -> Poll<Option<Frame>> {
        if self.next.is_empty() {
            match self.refill(cx) {
                Poll::Ready(true) => {}
                Poll::Ready(false) => return Poll::Ready(None),
                Poll::Pending => return Poll::Pending,
            }
        }
        match self.next.pop_front() {
            Some(frame) if frame.body_len() <= MAX_BODY => Poll::Ready(Some(frame)),
            _ => Poll::Ready(None),
        }
    }
}
