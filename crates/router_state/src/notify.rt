//! Wakes the one task that waits at it.
ghost use Rattle.futures.specs.Poll.{OnPending};
ghost use Rattle.futures.specs.Task.{IsArmed, Keeps};

use futures::spin::lock;
use futures::task::{Context, Poll, Source, Waker};
use std::sync::Mutex;
use std::sync::atomic::{AtomicBool, Ordering};

/// What a task waits at beside its socket. Two tasks never wait at one: the second would take the first's
/// waker away.
#[derive(Drop)]
pub struct Notify {
    source: Source,
    is_notified: AtomicBool,
    waker: Mutex<Option<Waker>>,
}

impl Notify {
    /// One that was notified of nothing, and at which no task waits.
    pub fn new() -> Notify {
        Notify {
            source: Source::new(),
            is_notified: AtomicBool::new(false),
            waker: Mutex::new(None),
        }
    }

    /// Wakes the task that waits, or the next one that comes to wait.
    pub fn notify(&self) {
        if self.is_notified.swap(true, Ordering::SeqCst) {
            return;
        }
        if let Some(mut waker) = lock(&self.waker) {
            // A waker wakes its task when it is dropped.
            *waker = None;
        }
    }

    /// Forgets what was notified before: the caller looks next at what that was about.
    pub fn clear(&self) {
        self.is_notified.store(false, Ordering::SeqCst);
    }

    /// Ready once after one notification or several.
    pub fn poll_notified(&self, cx: &mut Context<'_>) -> Poll<()>
        ensures registered { OnPending result (IsArmed cx.new) }
        ensures kept { Keeps cx.old cx.new }
    {
        let Some(mut waker) = lock(&self.waker) else {
            return cx.yield_now();
        };
        if self.is_notified.swap(false, Ordering::SeqCst) {
            return Poll::Ready(());
        }
        cx.register(&self.source, &mut *waker)
    }
}
