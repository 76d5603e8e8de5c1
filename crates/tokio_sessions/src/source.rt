//! Where a writer takes its frames from.

ghost use Rattle.std.specs.Prelude.{◌≡◌, ℕ, ◌≤◌, List, [], ◌++◌};
ghost use Rattle.futures.specs.Task.{Covers, Keeps};
ghost use Rattle.futures.specs.Poll.{OnPending};
ghost use Rattle.mux_frame.specs.Spelling.{size_of};
ghost use Rattle.tokio_sessions.specs.Passing.{frames_given, OnEnd, IfGiven, GivesRun};

use crate::write_buffer::WriteBuffer;
use futures::task::{Context, Poll};
use mux_frame::Frame;

/// Gives frames in order.
pub trait FrameSource: Drop {
    ghost use Rattle.mux_frame.specs.Views.{FrameView};

    /// Holds of each source of wakes that a call without a frame waits for.
    ghost needs: { Self → ℕ → Type 0 } = { λ _ _. ⊥ };

    /// Calls that began in the first state gave these frames, and left the second.
    ghost gives: { Self → List FrameView → Self → Type 0 };

    /// A call found that no frame is to come, and left this state.
    ghost is_ended: { Self → Type 0 };

    /// The next frame, whose size is at most 16,777,216, or `None` when no frame is to come. It may be
    /// asked again after `None`.
    fn poll_frame(&mut self, cx: &mut Context<'_>) -> Poll<Option<Frame>>
        ensures frames { gives self.old (frames_given result) self.new }
        ensures size { IfGiven result (λ f. size_of f.frame ≤ 16777216) }
        ensures ended { OnEnd result (is_ended self.new) }
        ensures registered { OnPending result (Covers cx.new (needs self.new)) }
        ensures kept { Keeps cx.old cx.new };

    /// Gives frames together, at most `most`, straight into what is to be written: how many. What it
    /// leaves is given by `poll_frame`. This body gives none.
    fn give_run(&mut self, buffer: &mut WriteBuffer, most: usize) -> usize
        ensures run { GivesRun gives result self.old buffer.old.bytes self.new buffer.new.bytes }
        ensures bound { result ≤ most }
    {
        0
    }

    ghost gives_nothing: { (s : Self) → gives s [] s };

    ghost gives_in_order: { (a : Self) (xs : List FrameView) (b : Self) (ys : List FrameView) (c : Self)
        → gives a xs b → gives b ys c → gives a (xs ++ ys) c };
}
