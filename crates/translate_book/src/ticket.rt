//! Dispatches that aren't sent yet.

ghost use Rattle.std.specs.Prelude.{◌≡◌, ◌<◌, ◌==◌, Some, true, IfOk, IfErr};
ghost use Rattle.mux_message.specs.Grammar.{Spells};
ghost use Rattle.mux_message.specs.Parts.{kind_in, dst_of};
ghost use Rattle.mux_message.specs.declared.kind.MessageKind.TheVariants.{Tdispatch};
ghost use Rattle.translate_book.specs.Values.{copy_kept};

use crate::dispatch::Dispatch;
use crate::sent::Sent;
use mux_frame::{Frame, Memory};
use mux_history::Name;
use std::alloc::Global;
use std::marker::Model;

/// A dispatch that was taken from a client and not sent, or that may be sent again.
#[derive(Drop)]
pub struct Ticket {
    name: Name,
    dispatch: Dispatch,
    // As wide as a word, so that no gap is copied behind it. It is at most 255.
    left: u64,
}

impl Model for Ticket {
    ghost use Rattle.std.specs.Prelude.{◌<◌};
    ghost use Rattle.translate_book.specs.Values.{TicketView};

    ghost Value = { TicketView };

    ghost view = { λ t. record {
      name = t.name;
      frame = t.dispatch.frame;
      content = t.dispatch.content;
      left = t.left;
    } };

    ghost invariant = { λ t. t.left < 256 };
}

impl Ticket {
    /// The ticket of a Tdispatch that got this name, with so many tries left after the first one.
    #[inline(always)]
    pub fn new(name: Name, dispatch: Dispatch, left: u8) -> Ticket
        ensures { result ≡ record { name = name; frame = dispatch.frame; content = dispatch.content; left = left } }
    {
        Ticket {
            name,
            dispatch,
            left: u64::from(left),
        }
    }

    /// The name of the dispatch.
    pub fn name(&self) -> Name
        ensures { result ≡ self.now.name }
    {
        self.name
    }

    /// The client's frame as it came. It spells a Tdispatch.
    pub fn frame(&self) -> &Frame
        ensures frame { result.now.frame ≡ self.now.frame }
        ensures as_read { result.now.as_read ≡ true }
        ensures spelled { Spells self.now.frame self.now.content }
        ensures dispatch { kind_in self.now.content ≡ Tdispatch }
    {
        self.dispatch.frame()
    }

    /// The destination.
    pub fn dst(&self) -> &[u8]
        ensures { dst_of self.now.content ≡ Some result.now }
    {
        self.dispatch.dst()
    }

    /// How many times it may be sent again, where a server nacks it.
    pub fn left(&self) -> u8
        ensures { result ≡ self.now.left }
    {
        self.left as u8
    }

    /// Whether it can't be sent again after the first try.
    #[inline(always)]
    pub fn is_last(&self) -> bool
        ensures { result ≡ (self.now.left == 0) }
    {
        self.left == 0
    }

    /// What the session towards the server keeps, and the frame that it sends, still with the
    /// client's tag. Where a try is left, the dispatch is kept too, to be sent again.
    ///
    /// # Errors
    ///
    /// [`Memory`] and the ticket as it was, only where a try is left: there is no memory for the kept
    /// dispatch, or the bytes of the body can have no further owner.
    #[inline(always)]
    pub fn into_sent(self, alloc: Global) -> Result<(Sent, Frame), (Memory, Ticket)>
        ensures mark { IfOk result (λ r. r.0 ≡ record { name = self.name; again = copy_kept self }) }
        ensures frame { IfOk result (λ r. r.1.frame ≡ self.frame) }
        ensures spelled { Spells self.frame self.content }
        ensures dispatch { kind_in self.content ≡ Tdispatch }
        ensures err { IfErr result (λ e. (e.1 ≡ self) × (0 < self.left)) }
    {
        let Ticket {
            name,
            dispatch,
            left,
        } = self;
        let _spelled = dispatch.frame();
        let again = if left == 0 {
            None
        } else {
            match dispatch.try_keep(alloc) {
                Ok(kept) => Some(kept),
                Err(memory) => {
                    let ticket = Ticket {
                        name,
                        dispatch,
                        left,
                    };
                    return Err((memory, ticket));
                }
            }
        };
        Ok((Sent::new(name, again), dispatch.into_frame()))
    }
}
