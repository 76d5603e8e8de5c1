//! Tdispatches as they were taken.

ghost use Rattle.std.specs.Prelude.{◌≡◌, Some, true, IfOk};
ghost use Rattle.mux_message.specs.Grammar.{Spells};
ghost use Rattle.mux_message.specs.Parts.{kind_in, dst_of};
ghost use Rattle.mux_message.specs.declared.kind.MessageKind.TheVariants.{Tdispatch};

use mux_frame::{Frame, Memory};
use mux_message::Message;
use std::alloc::Global;
use std::marker::Model;

/// A message that is known to be a Tdispatch, in the frame that the client sent.
#[derive(Drop)]
pub struct Dispatch {
    message: Message,
}

impl Model for Dispatch {
    ghost use Rattle.std.specs.Prelude.{◌≡◌};
    ghost use Rattle.mux_message.specs.Content.{MessageView};
    ghost use Rattle.mux_message.specs.Parts.{kind_in};
    ghost use Rattle.mux_message.specs.declared.kind.MessageKind.TheVariants.{Tdispatch};

    ghost Value = { MessageView };

    ghost view = { λ d. d.message };

    ghost invariant = { λ d. kind_in d.message.content ≡ Tdispatch };
}

impl Dispatch {
    /// A dispatch of a message that is a Tdispatch.
    pub fn new(message: Message) -> Dispatch
        requires { kind_in message.content ≡ Tdispatch }
        ensures { result ≡ message }
    {
        Dispatch { message }
    }

    /// The client's frame as it came. It spells a Tdispatch.
    pub fn frame(&self) -> &Frame
        ensures frame { result.now.frame ≡ self.now.frame }
        ensures as_read { result.now.as_read ≡ true }
        ensures spelled { Spells self.now.frame self.now.content }
        ensures dispatch { kind_in self.now.content ≡ Tdispatch }
    {
        let _spelled = self.message.kind();
        self.message.frame()
    }

    /// The destination.
    pub fn dst(&self) -> &[u8]
        ensures { dst_of self.now.content ≡ Some result.now }
    {
        self.message.dst()
    }

    /// An equal dispatch to be kept, which shares the bytes of the body.
    #[inline(always)]
    pub(crate) fn try_keep(&self, alloc: Global) -> Result<KeptDispatch, Memory>
        ensures { IfOk result (λ d. d ≡ self.now) }
    {
        let copy = Dispatch {
            message: self.message.try_copy()?,
        };
        let dispatch = Box::new(alloc, copy)?;
        Ok(KeptDispatch { dispatch })
    }

    /// The client's frame as it came.
    pub fn into_frame(self) -> Frame
        ensures frame { result.frame ≡ self.frame }
        ensures as_read { result.as_read ≡ true }
    {
        let Dispatch { message } = self;
        message.into_frame()
    }
}

/// A dispatch that is kept to be sent again. It lies behind a pointer, since the mark of a sending has a
/// place for it and is moved often, and most marks keep none.
#[derive(Drop)]
pub struct KeptDispatch {
    dispatch: Box<Dispatch>,
}

impl Model for KeptDispatch {
    ghost use Rattle.mux_message.specs.Content.{MessageView};

    ghost Value = { MessageView };

    ghost view = { λ d. d.dispatch.value };
}

impl KeptDispatch {
    /// The dispatch. Its frame spells a Tdispatch.
    pub fn dispatch(&self) -> &Dispatch
        ensures same { result.now ≡ self.now }
        ensures spelled { Spells self.now.frame self.now.content }
        ensures kind { kind_in self.now.content ≡ Tdispatch }
    {
        let _spelled = self.dispatch.frame();
        &self.dispatch
    }

    /// The dispatch by itself. It takes no memory.
    pub fn into_dispatch(self) -> Dispatch
        ensures { result ≡ self }
    {
        Box::into_inner(self.dispatch)
    }
}
