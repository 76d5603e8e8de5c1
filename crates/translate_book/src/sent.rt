//! Dispatches that were sent, and what became of them.

ghost use Rattle.std.specs.Prelude.{◌≡◌, true, IfSome};
ghost use Rattle.std.specs.Option.{option_copied};
ghost use Rattle.mux_message.specs.Grammar.{Spells};
ghost use Rattle.mux_message.specs.Kinds.{kind_of, is_final};
ghost use Rattle.mux_message.specs.Parts.{kind_in};
ghost use Rattle.mux_message.specs.declared.kind.MessageKind.TheVariants.{Tdispatch};

use crate::dispatch::{Dispatch, KeptDispatch};
use mux_frame::Frame;
use mux_history::Name;

/// The mark of a dispatch that was sent, which the session towards its server keeps.
#[derive(Drop)]
pub struct Sent {
    name: Name,
    again: Option<KeptDispatch>,
}

/// The final reply to a dispatch, and the dispatch itself where it may be sent again.
#[derive(Drop)]
pub struct Settled {
    name: Name,
    reply: Frame,
    again: Option<KeptDispatch>,
    ghost last: { is_final (kind_of reply.frame.kind) ≡ true },
}

/// A dispatch that was sent to a server which is gone.
#[derive(Debug, Drop)]
pub struct Lost {
    name: Name,
}

impl Sent {
    pub(crate) fn new(name: Name, again: Option<KeptDispatch>) -> Sent
        ensures { result ≡ record { name = name; again = again } }
    {
        Sent { name, again }
    }

    /// The name of the dispatch.
    pub fn name(&self) -> Name
        ensures { result ≡ self.now.name }
    {
        self.name
    }

    /// The reply has come.
    pub fn settled(self, reply: Frame) -> Settled
        requires { is_final (kind_of reply.frame.kind) ≡ true }
        ensures name { result.name ≡ self.name }
        ensures reply { result.reply ≡ reply }
        ensures again { result.again ≡ self.again }
    {
        let Sent { name, again } = self;
        Settled { name, reply, again }
    }

    /// The server is gone, and no reply can come.
    pub fn lost(self) -> Lost
        ensures { result ≡ record { name = self.name } }
    {
        let Sent { name, again: _ } = self;
        Lost { name }
    }
}

impl Settled {
    /// The name of the dispatch.
    pub fn name(&self) -> Name
        ensures { result ≡ self.now.name }
    {
        self.name
    }

    /// The server's frame, with the tag that it had there.
    pub fn reply(&self) -> &Frame
        ensures { result.now ≡ self.now.reply }
    {
        &self.reply
    }

    /// The dispatch to be sent again, where its ticket had a try left.
    pub fn again(&self) -> Option<&Dispatch>
        ensures value { option_copied result ≡ self.now.again }
        ensures dispatch { IfSome self.now.again (λ m. Spells m.frame m.content × (kind_in m.content ≡ Tdispatch)) }
    {
        let Some(kept) = &self.again else {
            return None;
        };
        Some(kept.dispatch())
    }

    /// The name, the server's frame, and the dispatch to be sent again, as it was taken, where its
    /// ticket had a try left.
    pub fn into_parts(self) -> (Name, Frame, Option<KeptDispatch>)
        ensures { result ≡ (self.name, self.reply, self.again) }
    {
        let Settled { name, reply, again } = self;
        (name, reply, again)
    }
}

impl Lost {
    /// The name of the dispatch.
    pub fn name(&self) -> Name
        ensures { result ≡ self.now.name }
    {
        self.name
    }
}
