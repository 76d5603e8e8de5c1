//! A task that stays where it is.

use futures::Future;
use futures::task::{Context, Poll};
use std::alloc::{AllocError, Global};

/// A task in memory of its own. At each turn a runtime looks for a new task, and clears several places as large as one:
/// so it is handed a pointer in place of a thousand bytes.
#[derive(Drop)]
pub(crate) struct Boxed<F> {
    task: Box<F>,
}

impl<F: Future<Output = ()>> Boxed<F> {
    /// The task. Out of memory is the one error, which drops it.
    pub fn new(alloc: Global, task: F) -> Result<Boxed<F>, AllocError> {
        let task = Box::new(alloc, task)?;
        Ok(Boxed { task })
    }
}

impl<F: Future<Output = ()>> Future for Boxed<F> {
    type Output = ();

    ghost can_poll = { λ b. F.can_poll b.task.value };

    ghost needs = { λ b. F.needs b.task.value };

    fn poll(&mut self, cx: &mut Context<'_>) -> Poll<()> {
        self.task.poll(cx)
    }
}
