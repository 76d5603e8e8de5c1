//! Wakes the one task that waits at it.
//!
//! Its twin is `notify` of router_state, which a relay doesn't stand on.

ghost use Rattle.futures.specs.Poll.{OnPending};
ghost use Rattle.futures.specs.Task.{IsArmed, Keeps};

use futures::spin::lock;
use futures::task::{Context, Poll, Source, Waker};
use std::sync::Mutex;
use std::sync::atomic::{AtomicBool, Ordering};

#[derive(Drop)]
pub struct Bell {
    source: Source,
    rung: AtomicBool,
    waker: Mutex<Option<Waker>>,
}

impl Bell {
    pub fn new() -> Bell {
        Bell {
            source: Source::new(),
            rung: AtomicBool::new(false),
            waker: Mutex::new(None),
        }
    }

    pub fn ring(&self) {
        if self.rung.swap(true, Ordering::SeqCst) {
            return;
        }
        if let Some(mut waker) = lock(&self.waker) {
            // A waker wakes its task when it is dropped.
            *waker = None;
        }
    }

    /// Rings before this one are forgotten: what they told of is looked at next.
    pub fn hush(&self) {
        self.rung.store(false, Ordering::SeqCst);
    }

    /// Ready once after each ring, or several.
    pub fn poll_rung(&self, cx: &mut Context<'_>) -> Poll<()>
        ensures registered { OnPending result (IsArmed cx.new) }
        ensures kept { Keeps cx.old cx.new }
    {
        let Some(mut waker) = lock(&self.waker) else {
            return cx.yield_now();
        };
        if self.rung.swap(false, Ordering::SeqCst) {
            return Poll::Ready(());
        }
        cx.register(&self.source, &mut *waker)
    }
}
