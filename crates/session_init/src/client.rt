//! The router's side of initiation towards a server.

ghost use Rattle.std.specs.Prelude.{◌≡◌};
ghost use Rattle.mux_history.specs.Readings.{is_open as is_open_state};
ghost use Rattle.session_init.specs.Initiation.{given, client_start, client_gives, client_after};

use crate::step::InitStep;
use mux_history::{InitMode, InitState};
use mux_message::made::{PROBE_TEXT, tinit};
use mux_message::{Message, MessageKind};
use std::marker::Model;

/// How far initiation towards a server has come. Contracts see its `InitState`.
#[derive(Clone, Copy, Debug, PartialEq, Eq)]
pub struct ClientInit {
    state: InitState,
}

impl Model for ClientInit {
    ghost use Rattle.mux_history.specs.declared.session.InitState.{InitState};

    ghost Value = { InitState };

    ghost view = { λ c. c.state };

    ghost inverse = { λ state. record { state = state } };
}

impl ClientInit {
    /// Initiation before a server's first message: the probe is out in mode Probe, else the session is open.
    pub fn new(mode: InitMode) -> ClientInit
        ensures { result ≡ client_start mode }
    {
        let state = match mode {
            InitMode::Probe => InitState::Probing,
            InitMode::Plain => InitState::Open,
        };
        ClientInit { state }
    }

    /// How far initiation has come.
    pub fn state(self) -> InitState
        ensures { result ≡ self }
    {
        self.state
    }

    /// Dispatches may be sent.
    pub fn is_open(self) -> bool
        ensures { result ≡ is_open_state self }
    {
        matches!(self.state, InitState::Open)
    }

    /// What a server's message does to initiation.
    ///
    /// A server that doesn't know of initiation answers the probe with a text of its own, which
    /// opens the session. So does whatever ends the Tinit: an Rinit of any version, or an Rerr.
    pub fn step(&mut self, message: &Message) -> InitStep
        ensures gives { given result ≡ client_gives self.old message.now.frame message.now.content }
        ensures after { self.new ≡ client_after self.old message.now.frame message.now.content }
    {
        if message.tag() != 1 {
            return InitStep::NotInit;
        }
        match (self.state, message.kind()) {
            (InitState::Probing, MessageKind::Rerr) if message.why() == PROBE_TEXT => {
                self.state = InitState::Asked;
                InitStep::Send(tinit())
            }
            (InitState::Probing, MessageKind::Rerr) => {
                self.state = InitState::Open;
                InitStep::Opened
            }
            (InitState::Asked, MessageKind::Rerr | MessageKind::Rinit) => {
                self.state = InitState::Open;
                InitStep::Opened
            }
            _ => InitStep::NotInit,
        }
    }
}
