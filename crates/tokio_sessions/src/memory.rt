//! A vector as a sink, and a queue as a source.

ghost use Rattle.std.specs.Prelude.{◌≡◌, ◌++◌, false};
ghost use Rattle.std.proofs.Common.{rules};
ghost use Rattle.std.proofs.lemmas.Grind.{common_steps};
ghost use Rattle.tokio_sessions.specs.Passing.{HasNoNext};

use crate::{FrameSink, FrameSource, Offered, WriteBuffer};
use futures::task::{Context, Poll};
use mux_frame::Frame;
use std::collections::VecDeque;

// The greatest body: the greatest size of a frame, less type and tag.
const MAX_BODY: usize = 16_777_212;

/// It takes every frame, and stops when memory is refused.
impl FrameSink for Vec<Frame> {
    ghost takes = { λ a xs b. b.items ≡ a.items ++ xs };

    ghost says = { λ _ b. b ≡ false };

    ghost takes_nothing = { λ v. Prim.search (rules, common_steps) };

    ghost takes_in_order = { λ a xs b ys c p q. Prim.search (rules, common_steps) };

    fn poll_frame(&mut self, _cx: &mut Context<'_>, frame: Frame) -> Offered {
        match self.push(frame) {
            Ok(()) => Offered::Taken,
            Err(_) => Offered::Stop,
        }
    }

    fn stopped(&self) -> bool {
        false
    }
}

/// It gives its frames from the front on, and ends at one that is too large.
impl FrameSource for VecDeque<Frame> {
    ghost gives = { λ a xs b. a.items ≡ xs ++ b.items };

    ghost is_ended = { λ q. HasNoNext q.items };

    ghost gives_nothing = { λ q. Prim.search rules };

    ghost gives_in_order = { λ a xs b ys c p q. Prim.search (rules, common_steps) };

    fn give_run(&mut self, buffer: &mut WriteBuffer, most: usize) -> usize {
        buffer.take_small(self, most)
    }

    fn poll_frame(&mut self, _cx: &mut Context<'_>) -> Poll<Option<Frame>> {
        match self.front() {
            Some(frame) if frame.body_len() <= MAX_BODY => {}
            _ => return Poll::Ready(None),
        }
        match self.pop_front() {
            Some(frame) => Poll::Ready(Some(frame)),
            None => unreachable!(),
        }
    }
}
