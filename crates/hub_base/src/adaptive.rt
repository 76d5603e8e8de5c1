//! Locks that are held for some microseconds.

use crossbeam_utils::{Backoff, CachePadded};
use std::sync::{Mutex, MutexGuard, Wait};

/// How often a thread looks at a lock that is held before it sleeps.
const LOOKS: u32 = 40;

/// A lock that is held for some microseconds at a time, on cache lines of its own. A thread that finds it
/// held looks again, waits longer from look to look, and then lets others run, before it sleeps: to sleep
/// and to be woken takes longer than the lock is held.
#[derive(Drop)]
pub struct AdaptiveMutex<T> {
    mutex: CachePadded<Mutex<T>>,
}

impl<T> AdaptiveMutex<T> {
    /// A lock that nobody holds.
    pub fn new(value: T) -> AdaptiveMutex<T> {
        AdaptiveMutex {
            mutex: CachePadded::new(Mutex::new(value)),
        }
    }

    /// Waits for the lock.
    #[inline(always)]
    pub fn lock<R: Wait>(&self, rt: &R) -> MutexGuard<'_, T> {
        match self.mutex.try_lock() {
            Some(guard) => guard,
            None => self.lock_held(rt),
        }
    }

    /// Waits for the lock, which another thread held just now.
    #[cold]
    #[inline(never)]
    fn lock_held<R: Wait>(&self, rt: &R) -> MutexGuard<'_, T> {
        let backoff = Backoff::new();
        for _ in 0..LOOKS {
            backoff.snooze();
            if let Some(guard) = self.mutex.try_lock() {
                return guard;
            }
        }
        self.mutex.lock(rt)
    }

    /// What the lock kept.
    pub fn into_inner(self) -> T {
        self.mutex.into_inner().into_inner()
    }
}
