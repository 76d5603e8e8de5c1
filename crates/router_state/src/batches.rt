//! The batches that the readers of one thread share.
ghost use Rattle.std.specs.Prelude.{◌≡◌, IfOk};
ghost use Rattle.hub_base.specs.Batching.{empty};

use hub::Batch;
use std::alloc::{AllocError, Global};
use std::marker::Model;
use std::sync::{Mutex, Wait};

/// How many are kept for the next readers.
const KEPT: usize = 4;

/// A batch with nothing in it: none of the frames of the reader that had it before is left.
#[derive(Drop)]
struct EmptyBatch {
    batch: Batch,
}

impl Model for EmptyBatch {
    ghost use Rattle.std.specs.Prelude.{◌≡◌};
    ghost use Rattle.hub_base.specs.Batching.{Batched, empty};

    ghost Value = { Batched };

    ghost view = { λ e. e.batch };

    ghost invariant = { λ e. e.batch ≡ empty e.batch.room };
}

/// Empty batches. Each reader of a thread takes one when a frame comes, and gives it back once its frames were handed
/// in: so all of them use memory that the processor's cache holds.
#[derive(Drop)]
pub struct Batches {
    // The one that was used last is taken first.
    kept: Mutex<Vec<EmptyBatch>>,
}

impl Batches {
    /// One batch. Out of memory is the one error.
    pub(crate) fn new(alloc: Global) -> Result<Batches, AllocError> {
        let mut kept = Vec::with_capacity(alloc, KEPT)?;
        kept.push(EmptyBatch {
            batch: Batch::new(alloc)?,
        })?;
        Ok(Batches {
            kept: Mutex::new(kept),
        })
    }

    /// An empty batch: one that is kept, or a new one if frames of several readers were put off. Out of memory is the
    /// one error.
    pub fn take<R: Wait>(&self, rt: &R, alloc: Global) -> Result<Batch, AllocError>
        ensures { IfOk result (λ b. b ≡ empty b.room) }
    {
        let kept = self.kept.lock(rt).pop();
        match kept {
            Some(EmptyBatch { batch }) => Ok(batch),
            None => Batch::new(alloc),
        }
    }

    /// Keeps a batch for the next reader. What is in it is thrown away.
    pub fn give_back<R: Wait>(&self, rt: &R, mut batch: Batch) {
        batch.clear();
        batch.end();
        let mut kept = self.kept.lock(rt);
        if kept.len() < KEPT {
            let _ = kept.push(EmptyBatch { batch });
        }
    }
}
