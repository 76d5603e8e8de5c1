//! What is done with a value under the lock of a session towards a client: the session's own step,
//! which is counted elsewhere. A slot with no session hands the value back.
//!
//! The functions have one shape: each is one call of the session under its own clause. `up_values` is the twin for
//! servers.
ghost use Rattle.std.specs.Prelude.{◌≡◌, None, Ok, Err, IfErr, IfSome, IsSomeAnd};
ghost use Rattle.server_session.specs.State.{OwesNote, OwesReply};
ghost use Rattle.server_session.specs.Steps.{NoteStep, SettleStep, NackStep, UnrouteStep};
ghost use Rattle.server_session.specs.declared.answers.Answer.TheVariants as whether;
ghost use Rattle.hub_steps.specs.Batches.{NotesHere, PassesHere};
ghost use Rattle.hub_steps.specs.Down.{MakesDown};

use hub_base::Errands;
use kept_session::KeptServerSession;
use server_session::{Answer, Owed};
use translate_book::{Placed, Recall, Settled, Ticket};

/// The open dispatch that waits for the place which is here, if there is one.
#[inline(always)]
pub(crate) fn owes_note(
    slot: &Option<KeptServerSession>,
    errands: &Errands,
    at: usize,
) -> Option<Owed>
    ensures { IfSome result (λ o. NotesHere slot.now errands.now.items at o.tag) }
{
    let Some(session) = slot else {
        return None;
    };
    let Some(placed) = errands.placed(at) else {
        return None;
    };
    session.owes_note(placed)
}

/// The place of a dispatch for which `owes_note` gave this is noted.
#[inline(always)]
pub(crate) fn note_owed(slot: &mut Option<KeptServerSession>, owed: Owed, placed: Placed)
    requires { IsSomeAnd slot.old (λ k. OwesNote k.state placed.name owed.tag) }
    ensures event { MakesDown slot.old slot.new (λ p q. NoteStep p placed (Ok None) q) }
{
    let Some(session) = slot else { unreachable!() };
    session.note_owed(owed, placed);
}

/// The open dispatch that waits for the reply which is here, if there is one.
#[inline(always)]
pub(crate) fn owes_reply(
    slot: &Option<KeptServerSession>,
    errands: &Errands,
    at: usize,
) -> Option<Owed>
    ensures { IfSome result (λ o. PassesHere slot.now errands.now.items at o.tag) }
{
    let Some(session) = slot else {
        return None;
    };
    let Some(settled) = errands.reply(at) else {
        return None;
    };
    session.owes_reply(settled)
}

/// The reply to a dispatch for which `owes_reply` gave this goes out.
#[inline(always)]
pub(crate) fn pass_owed(slot: &mut Option<KeptServerSession>, owed: Owed, settled: Settled)
    requires last { settled.again ≡ None }
    requires due { IsSomeAnd slot.old (λ k. OwesReply k.state settled.name owed.tag) }
    ensures event { MakesDown slot.old slot.new (λ p q. SettleStep p settled (Ok whether.Answered) q) }
{
    let Some(session) = slot else { unreachable!() };
    session.pass_owed(owed, settled);
}

/// The place of a dispatch is known.
#[inline(always)]
pub(crate) fn note(
    slot: &mut Option<KeptServerSession>,
    placed: Placed,
) -> Result<Option<Recall>, Placed>
    ensures event { MakesDown slot.old slot.new (λ p q. NoteStep p placed result q) }
    ensures err { IfErr result (λ e. (e ≡ placed) × (slot.new ≡ slot.old)) }
    ensures none { slot.old ≡ None → result ≡ Err placed }
{
    let Some(session) = slot else {
        return Err(placed);
    };
    session.note(placed)
}

/// The final reply to a dispatch has come.
#[inline(always)]
pub(crate) fn settle(
    slot: &mut Option<KeptServerSession>,
    settled: Settled,
) -> Result<Answer, Settled>
    ensures event { MakesDown slot.old slot.new (λ p q. SettleStep p settled result q) }
    ensures err { IfErr result (λ e. (e ≡ settled) × (slot.new ≡ slot.old)) }
    ensures none { slot.old ≡ None → result ≡ Err settled }
{
    let Some(session) = slot else {
        return Err(settled);
    };
    session.settle(settled)
}

/// No server takes a dispatch now.
#[inline(always)]
pub(crate) fn nack(slot: &mut Option<KeptServerSession>, ticket: Ticket) -> Result<Answer, Ticket>
    ensures event { MakesDown slot.old slot.new (λ p q. NackStep p ticket result q) }
    ensures err { IfErr result (λ e. (e ≡ ticket) × (slot.new ≡ slot.old)) }
    ensures none { slot.old ≡ None → result ≡ Err ticket }
{
    let Some(session) = slot else {
        return Err(ticket);
    };
    session.nack(ticket)
}

/// No server is known for a dispatch's destination.
#[inline(always)]
pub(crate) fn unroute(
    slot: &mut Option<KeptServerSession>,
    ticket: Ticket,
) -> Result<Answer, Ticket>
    ensures event { MakesDown slot.old slot.new (λ p q. UnrouteStep p ticket result q) }
    ensures err { IfErr result (λ e. (e ≡ ticket) × (slot.new ≡ slot.old)) }
    ensures none { slot.old ≡ None → result ≡ Err ticket }
{
    let Some(session) = slot else {
        return Err(ticket);
    };
    session.unroute(ticket)
}
