//! A gate that holds one session's step, under its lock, until another session's is done.

use hub::{Gate, GateShut};
use mux_history::SessionId;
use std::sync::atomic::{AtomicBool, Ordering};
use std::thread;

/// How often a thread looks for what another is to do.
pub const PATIENCE: u32 = 10_000_000;

/// Holds client 1 until a frame of another client has returned.
pub struct Held<'a>(pub &'a AtomicBool);

impl Drop for Held<'_> {
    fn drop(self) {
        let Held(_) = self;
    }
}

impl Held<'_> {
    /// A frame of this client has returned.
    pub fn returned(&self, client: u64) {
        if client != 1 {
            self.0.store(true, Ordering::SeqCst);
        }
    }
}

impl Gate for Held<'_> {
    ghost use Rattle.std.specs.Prelude.{◌≡◌};
    ghost use Rattle.mux_history.specs.declared.session.SessionId.TheVariants.{Client};

    ghost may_shut = { λ _ session. session ≡ Client 1 };

    fn enter(&self, session: SessionId) -> Result<(), GateShut> {
        if session != SessionId::Client(1) {
            return Ok(());
        }
        for _ in 0..PATIENCE {
            if self.0.load(Ordering::SeqCst) {
                return Ok(());
            }
            thread::yield_now();
        }
        Err(GateShut)
    }
}
