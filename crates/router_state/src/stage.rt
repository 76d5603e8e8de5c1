//! How far a router has come, and why it ends.
//!
//! | From | To | When |
//! |---|---|---|
//! | Serving | Stopping | there is an [`Ending`]: all tasks end by themselves |
//! | Serving, Stopping | Abandoned | a thread can't go on, so its tasks never end: nobody waits for them |
//!
//! There are no other moves: a stage never goes back.
ghost use Rattle.std.specs.Prelude.{◌≡◌, max};
ghost use Rattle.router_state.specs.Stages.{rank_of};

use std::sync::OnceLock;
use std::sync::atomic::{AtomicU64, Ordering};

/// How far a router has come.
#[derive(Clone, Copy, Debug, PartialEq, Eq)]
pub enum Stage {
    /// Its tasks run.
    Serving,
    /// Its tasks are to end.
    Stopping,
    /// Its tasks are to end at once.
    Abandoned,
}

impl Stage {
    /// The stage from this one on, once `next` was reached.
    pub fn advance(self, next: Stage) -> Stage
        ensures { rank_of result ≡ max (rank_of self) (rank_of next) }
    {
        match (self, next) {
            (Stage::Abandoned, _) | (_, Stage::Abandoned) => Stage::Abandoned,
            (Stage::Stopping, _) | (_, Stage::Stopping) => Stage::Stopping,
            (Stage::Serving, Stage::Serving) => Stage::Serving,
        }
    }

    fn rank(self) -> u64
        ensures { result ≡ rank_of self }
    {
        match self {
            Stage::Serving => 0,
            Stage::Stopping => 1,
            Stage::Abandoned => 2,
        }
    }

    fn of_rank(rank: u64) -> Stage
        ensures { (stage : Stage) → rank ≡ rank_of stage → result ≡ stage }
    {
        match rank {
            0 => Stage::Serving,
            1 => Stage::Stopping,
            _ => Stage::Abandoned,
        }
    }
}

/// Why a router ends.
#[derive(Clone, Copy, Debug, PartialEq, Eq)]
pub enum Ending {
    /// An operator said so.
    Quit,
    /// The audit found a fault, or memory was refused to it.
    Audit,
    /// Memory was refused for a server's session, or for a thread's tasks.
    Memory,
    /// The system refused a thread.
    Threads,
    /// The system refused what tasks wait with.
    Events,
}

/// The stage of a router, and its ending, which is set once.
#[derive(Drop)]
pub(crate) struct Progress {
    // The rank of the stage. It is changed by `advance` alone.
    rank: AtomicU64,
    ending: OnceLock<Ending>,
}

impl Progress {
    /// It serves.
    pub fn new() -> Progress {
        Progress {
            rank: AtomicU64::new(Stage::Serving.rank()),
            ending: OnceLock::new(),
        }
    }

    /// How far the router has come.
    #[inline(always)]
    pub fn stage(&self) -> Stage {
        Stage::of_rank(self.rank.load(Ordering::SeqCst))
    }

    /// The stage `next` is reached, for this reason. The first reason stays.
    pub fn advance(&self, next: Stage, ending: Ending) {
        let _ = self.ending.try_set(ending);
        let _ = self.rank.fetch_update(
            Ordering::SeqCst,
            Ordering::SeqCst,
            |rank| Some(Stage::of_rank(rank).advance(next).rank()),
        );
    }

    /// Why the router ends, if it does.
    pub fn ending(&self) -> Option<Ending> {
        self.ending.get().copied()
    }
}
