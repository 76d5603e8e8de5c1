//! Waiting to be notified.
ghost use Rattle.std.specs.Prelude.{◌≡◌, ◌↔◌, IsTrue};
ghost use Rattle.futures.specs.Task.{IsArmed, Keeps};

use crate::notify::Notify;
use futures::task::{Context, Poll};

/// Whether a poll came out ready.
pub fn is_ready(polled: Poll<()>) -> bool
    ensures { IsTrue result ↔ (polled ≡ Poll.Ready tt) }
{
    polled == Poll::Ready(())
}

/// Has the task woken by the next notification. What came before is looked at by the caller, behind this call.
pub fn wait_at(notify: &Notify, cx: &mut Context<'_>)
    ensures armed { IsArmed cx.new }
    ensures kept { Keeps cx.old cx.new }
{
    notify.clear();
    if is_ready(notify.poll_notified(cx)) {
        let _: Poll<()> = cx.yield_now();
    }
}
