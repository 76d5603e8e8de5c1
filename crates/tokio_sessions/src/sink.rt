//! Where a reader hands its frames to.

ghost use Rattle.std.specs.Prelude.{◌≡◌, ◌≤◌, ℕ, Bool, true, List, [], ◌++◌, ⊤, IsTrue};
ghost use Rattle.futures.specs.Task.{Covers, Keeps};
ghost use Rattle.tokio_sessions.specs.Passing.{frames_taken, HandsBack, OnLater, OnStop, TakesRun};

use crate::read_buffer::ReadBuffer;
use futures::task::Context;
use mux_frame::Frame;

/// What a sink does with a frame.
#[derive(Drop)]
pub enum Offered {
    Taken,
    /// Not now: the same frame is offered again at a later poll.
    Later(Frame),
    /// No more frames. This one is lost.
    Stop,
}

/// Takes frames in order.
pub trait FrameSink: Drop {
    ghost use Rattle.mux_frame.specs.Views.{FrameView};

    /// Holds of each source of wakes that a sink waits for which has put a frame off.
    ghost needs: { Self → ℕ → Type 0 } = { λ _ _. ⊥ };

    /// Calls that began in the first state took these frames, and left the second.
    ghost takes: { Self → List FrameView → Self → Type 0 };

    /// The last frame that was offered was answered by `Stop`.
    ghost refuses: { Self → Type 0 } = { λ _. ⊤ };

    /// What `stopped` may answer.
    ghost says: { Self → Bool → Type 0 };

    /// Offers a frame as a decoder gives it (`Frame::as_read`). A sink that answers `Later` has
    /// registered with `cx`, so that the task is woken when it may take the frame.
    fn poll_frame(&mut self, cx: &mut Context<'_>, frame: Frame) -> Offered
        requires { IsTrue frame.as_read }
        ensures frames { takes self.old (frames_taken frame result) self.new }
        ensures back { HandsBack frame result }
        ensures stop { OnStop result (refuses self.new) }
        ensures registered { OnLater result (Covers cx.new (needs self.new)) }
        ensures kept { Keeps cx.old cx.new };

    /// Takes frames together off the front of what was read, at most `most` and while it has room for
    /// them: how many. It cuts them off by `ReadBuffer::cut_frame`. What it leaves is offered by
    /// `poll_frame`. This body has room for none.
    fn take_run(&mut self, read: &mut ReadBuffer, max_frame: usize, most: usize) -> usize
        requires { max_frame ≤ 16777216 }
        ensures run { TakesRun takes max_frame result self.old read.old self.new read.new }
        ensures bound { result ≤ most }
    {
        0
    }

    /// Whether the reader is to end. It is asked first in every poll, also when no frame comes.
    fn stopped(&self) -> bool
        ensures { says self.now result };

    /// Called at the end of every poll of the reader, up to the one that ends it. `more` says that a
    /// whole frame waits which the next poll offers without a read; then the reader is polled again
    /// soon, and what was taken may be handed on together with that. This body does nothing.
    fn flush(&mut self, cx: &mut Context<'_>, more: bool)
        ensures frames { takes self.old [] self.new }
        ensures stop { refuses self.old → refuses self.new }
        ensures registered { Covers cx.old (needs self.old) → Covers cx.new (needs self.new) }
        ensures kept { Keeps cx.old cx.new }
    {}

    ghost takes_nothing: { (s : Self) → takes s [] s };

    ghost takes_in_order: { (a : Self) (xs : List FrameView) (b : Self) (ys : List FrameView) (c : Self)
        → takes a xs b → takes b ys c → takes a (xs ++ ys) c };
}
