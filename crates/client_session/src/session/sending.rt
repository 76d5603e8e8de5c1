//! The way of a dispatch that goes well: it is sent once.
//!
//! Each call comes in two: one looks at a value where it lies, and the other takes it and can't refuse it. So a value
//! is moved once, and only by its parts that are used. `offer` takes any value.

ghost use Rattle.std.specs.Prelude.{◌≡◌, true, None, Ok};

use super::ClientSession;
use translate_book::{Placed, Ticket};

impl ClientSession {
    ghost use Rattle.client_session.specs.State.{figures_in};
    ghost use Rattle.client_session.specs.Belonging.{StepsBy};
    ghost use Rattle.client_session.specs.Decide.{offer_refusal};
    ghost use Rattle.client_session.specs.Steps.{OfferStep};

    /// Whether a dispatch that can't be sent again is taken at this reading. `offer` takes it as well where it can be.
    #[inline(always)]
    pub fn takes(&self, ticket: &Ticket, now: u64) -> bool
        ensures room { result ≡ true → offer_refusal (figures_in self.now) now ≡ None }
        ensures last { result ≡ true → ticket.now.left ≡ 0 }
    {
        ticket.is_last() && self.offer_refusal(now).is_none()
    }

    /// Sends a dispatch that `takes` takes, on a free tag. It takes no memory.
    #[inline(always)]
    pub fn send(&mut self, ticket: Ticket, now: u64) -> Placed
        requires room { offer_refusal (figures_in self.old) now ≡ None }
        requires last { ticket.left ≡ 0 }
        ensures { StepsBy self.old self.new (λ p q. OfferStep p ticket now (Ok result) q) }
    {
        let Ok((sent, frame)) = ticket.into_sent(*self.queue.allocator()) else {
            unreachable!()
        };
        self.accept(sent, frame, now)
    }
}
