//! What is done with a value under the lock of a session towards a server: the session's own step,
//! which is counted elsewhere.
//!
//! `down_values` is the twin for clients.
ghost use Rattle.std.specs.Prelude.{◌≡◌, true, None, Ok, Err, IfErr, IsSomeAnd};
ghost use Rattle.client_session.specs.Decide.{offer_refusal};
ghost use Rattle.client_session.specs.State.{figures_in};
ghost use Rattle.client_session.specs.Steps.{OfferStep, RecallStep};
ghost use Rattle.hub_steps.specs.Batches.{SendsHere};
ghost use Rattle.hub_steps.specs.Up.{Makes};

use client_session::Recalled;
use hub_base::Errands;
use kept_session::KeptClientSession;
use translate_book::{OfferRefusal, Placed, Recall, Ticket};

/// Whether the dispatch that is here can't be sent again, and the session takes it at this reading.
#[inline(always)]
pub(crate) fn takes(
    slot: &Option<KeptClientSession>,
    errands: &Errands,
    at: usize,
    now: u64,
) -> bool
    ensures { result ≡ true → SendsHere slot.now errands.now.items at now }
{
    let Some(session) = slot else {
        return false;
    };
    let Some(ticket) = errands.ticket(at) else {
        return false;
    };
    session.takes(ticket, now)
}

/// Sends a dispatch that `takes` takes.
#[inline(always)]
pub(crate) fn send(slot: &mut Option<KeptClientSession>, ticket: Ticket, now: u64) -> Placed
    requires last { ticket.left ≡ 0 }
    requires room { IsSomeAnd slot.old (λ k. offer_refusal (figures_in k.state) now ≡ None) }
    ensures event { Makes slot.old slot.new (λ p q. OfferStep p ticket now (Ok result) q) }
{
    let Some(session) = slot else { unreachable!() };
    session.send(ticket, now)
}

/// Offers a dispatch. A slot with no session refuses it as closed.
#[inline(always)]
pub(crate) fn offer(
    slot: &mut Option<KeptClientSession>,
    ticket: Ticket,
    now: u64,
) -> Result<Placed, (OfferRefusal, Ticket)>
    ensures event { Makes slot.old slot.new (λ p q. OfferStep p ticket now result q) }
    ensures err { IfErr result (λ e. (e.1 ≡ ticket) × (slot.new ≡ slot.old)) }
    ensures none { slot.old ≡ None → result ≡ Err (OfferRefusal.Closed, ticket) }
{
    let Some(session) = slot else {
        return Err((OfferRefusal::Closed, ticket));
    };
    session.offer(ticket, now)
}

/// Asks the server to discard a dispatch. A slot with no session finds the recall stale.
#[cold]
#[inline(never)]
pub(crate) fn recall(slot: &mut Option<KeptClientSession>, recall: Recall, now: u64) -> Recalled
    ensures event { Makes slot.old slot.new (λ p q. RecallStep p recall now result q) }
    ensures none { slot.old ≡ None → result ≡ Recalled.Stale }
{
    let Some(session) = slot else {
        return Recalled::Stale;
    };
    session.recall(recall, now)
}
