//! The router's side of initiation towards a client.

ghost use Rattle.std.specs.Prelude.{◌≡◌, Some};
ghost use Rattle.mux_message.specs.Parts.{why_of};
ghost use Rattle.session_init.specs.Initiation.{given, server_gives, server_after, is_fresh};

use crate::step::InitStep;
use mux_message::made::{PROBE_TEXT, out_of_place, probe, rinit};
use mux_message::{Message, MessageKind};

/// Whether a client may still begin with Tinit, which is optional.
#[derive(Clone, Copy, Debug, PartialEq, Eq)]
pub enum ServerInit {
    /// No Tinit was answered by Rinit, and no dispatch got a name.
    Fresh,
    Done,
}

impl ServerInit {
    /// Initiation before a client's first message.
    pub fn new() -> ServerInit
        ensures { result ≡ ServerInit.Fresh }
    {
        ServerInit::Fresh
    }

    /// A Tinit may still be answered by Rinit.
    pub fn is_fresh(self) -> bool
        ensures { result ≡ is_fresh self }
    {
        matches!(self, ServerInit::Fresh)
    }

    /// What a client's message does to initiation.
    ///
    /// A Tinit is answered with version 1, whatever version it has, and its headers are ignored.
    /// The probe may come again, and a Tinit may follow it.
    pub fn step(&mut self, message: &Message) -> InitStep
        ensures gives { given result ≡ server_gives self.old message.now.frame message.now.content }
        ensures after { self.new ≡ server_after self.old message.now.content }
    {
        match (*self, message.kind()) {
            (ServerInit::Fresh, MessageKind::Tinit) => {
                *self = ServerInit::Done;
                InitStep::Send(rinit(message.tag()))
            }
            (ServerInit::Done, MessageKind::Tinit) => InitStep::Send(out_of_place(message.tag())),
            (ServerInit::Fresh, MessageKind::Rerr)
                if message.tag() == 1 && message.why() == PROBE_TEXT => {
                InitStep::Send(probe(message.frame().kind()))
            }
            _ => InitStep::NotInit,
        }
    }

    /// A dispatch of the client got its name: initiation is over.
    pub fn named(&mut self)
        ensures { self.new ≡ ServerInit.Done }
    {
        *self = ServerInit::Done;
    }
}
