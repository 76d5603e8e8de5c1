//! What is asked under a session's lock, before the step of a frame.
ghost use Rattle.std.specs.Prelude.{OnErr};

use mux_history::SessionId;

/// The gate was shut to a session.
#[derive(Drop)]
pub struct GateShut;

/// Whom a frame's step asks first, under the lock of its session. It must not call the hub.
pub trait Gate {
    ghost use Rattle.mux_history.specs.declared.session.SessionId.{SessionId};

    /// When it may be shut to a session.
    ghost may_shut: { Self → SessionId → Type 0 };

    /// Lets the step be made, or not.
    fn enter(&self, session: SessionId) -> Result<(), GateShut>
        ensures { OnErr result (may_shut self.now session) };
}

/// Lets each step be made.
#[derive(Drop)]
pub struct OpenGate;

impl Gate for OpenGate {
    ghost may_shut = { λ _ _. ⊥ };

    fn enter(&self, _session: SessionId) -> Result<(), GateShut> {
        Ok(())
    }
}
