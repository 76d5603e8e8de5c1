//! A connection of an operator, and its time.
ghost use Rattle.futures.specs.Poll.{OnPending};
ghost use Rattle.futures.specs.Task.{IsArmed, Keeps};

use futures::task::{Context, Poll};
use std::time::{Clock, Duration, Instant};
use tokio::time::Sleep;

/// A connection that is polled, and that tells how far it has come.
pub(crate) trait Talk: Drop {
    ghost use Rattle.futures.specs.Task.{Keeps};

    /// Ready at its end.
    fn poll_talk(&mut self, cx: &mut Context<'_>) -> Poll<()>
        ensures kept { Keeps cx.old cx.new };

    /// Its time begins anew whenever this changes.
    fn progress(&self) -> u64;

    /// How long it may go on so, where silence may last for `idle`.
    fn limit(&self, idle: Duration) -> Duration;
}

/// A place for one connection at a time.
#[derive(Drop)]
pub(crate) struct Lane<T> {
    talk: Option<T>,
    // How far the connection had come when its time began.
    progress: u64,
    silence: Sleep,
}

impl<T: Talk> Lane<T> {
    /// A place with no connection.
    pub(crate) fn new(silence: Sleep) -> Lane<T> {
        Lane {
            talk: None,
            progress: 0,
            silence,
        }
    }

    pub(crate) fn is_taken(&self) -> bool {
        self.talk.is_some()
    }

    /// A connection has come. It is over once its limit is.
    pub(crate) fn begin<R: Clock>(&mut self, rt: &R, idle: Duration, talk: T) {
        let limit = talk.limit(idle);
        self.talk = Some(talk);
        self.progress = 0;
        self.listen(rt, limit);
    }

    // Its time begins anew.
    fn listen<R: Clock>(&mut self, rt: &R, limit: Duration) {
        if let Ok(now) = Instant::now(rt)
            && let Some(deadline) = now.checked_add(limit)
        {
            self.silence.reset(deadline);
        }
    }

    /// Ready at the end of the connection. The place is free then.
    pub(crate) fn poll<R: Clock>(
        &mut self,
        rt: &R,
        idle: Duration,
        cx: &mut Context<'_>,
    ) -> Poll<()>
        ensures registered { OnPending result (IsArmed cx.new) }
        ensures kept { Keeps cx.old cx.new }
    {
        let polled = self.poll_talk(rt, idle, cx);
        if polled.is_ready() {
            self.talk = None;
        }
        polled
    }

    fn poll_talk<R: Clock>(&mut self, rt: &R, idle: Duration, cx: &mut Context<'_>) -> Poll<()>
        ensures registered { OnPending result (IsArmed cx.new) }
        ensures kept { Keeps cx.old cx.new }
    {
        let Some(talk) = &mut self.talk else {
            return Poll::Ready(());
        };
        if talk.poll_talk(cx).is_ready() {
            return Poll::Ready(());
        }
        let progress = talk.progress();
        if progress != self.progress {
            let limit = talk.limit(idle);
            self.progress = progress;
            self.listen(rt, limit);
        }
        match self.silence.poll_elapsed(cx) {
            Poll::Ready(_) => Poll::Ready(()),
            Poll::Pending => Poll::Pending,
        }
    }
}
