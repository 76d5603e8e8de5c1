//! What is done under the lock of a session towards a server: each function is lent what the lock
//! keeps. `now` is a reading of the clock, in milliseconds since the router's start.
//!
//! Its twin is `down_steps`, which says why there are two.
ghost use Rattle.std.specs.Prelude.{◌≡◌, ◌<◌, ◌≤◌, ◌+◌, ◌-◌, ◌^◌, min, true, false, None, Some, Ok, Err, IfSome, IfErr, OnOk, OnErr, vec_capacity};
ghost use Rattle.std.specs.VecDeque.{deque_capacity};
ghost use Rattle.mux_model.specs.Steps.{ClockCall, PingCall, RetireCall};
ghost use Rattle.client_session.specs.Steps.{OfferStep, RecallStep, NoteStep, LoseStep, LoseNextStep, PingStep, TakeOutStep};
ghost use Rattle.hub_steps.specs.Counts.{Counts};
ghost use Rattle.hub_steps.specs.Up.{Ends, Makes, MayKeep, TakesOut, held};
ghost use Rattle.hub_steps.specs.Giving.{TakesEnded};
ghost use Rattle.hub_steps.specs.Leaving.{IsOver, Leaves, Stays};

use crate::counts::end_step;
use crate::up::fits;
pub use crate::up::{held_by, queued_by};
use crate::up_values as values;
use client_session::{PingRefusal, Recalled};
use hub_base::{Load, Rest};
use kept_session::{EpochEnd, EpochRefusal, EpochRefused, KeptClientSession};
use mux_frame::Frame;
use mux_history::{History, Standing};
use std::collections::VecDeque;
use translate_book::{Lost, OfferRefusal, Placed, Recall, StepRefusal, Ticket};

/// What is shown as the load of a session that takes no dispatches, or isn't there: more than any other holds.
const AWAY: usize = 1 << 31;

/// Whether a session that stands so takes no dispatch any more.
fn is_leaving(standing: Standing) -> bool {
    match standing {
        Standing::Up {
            drained,
            retired,
            ..
        } => drained || retired,
        Standing::Down { .. } => false,
    }
}

/// Shows the figures of the session to those who ask for no lock.
#[inline(always)]
pub fn show(load: &Load, rest: &Rest, slot: &Option<KeptClientSession>)
    ensures kept { MayKeep slot.now }
{
    let Some(session) = slot else {
        load.show(AWAY);
        return;
    };
    let history = session.limits().history();
    let held = session.load();
    let kept = held.saturating_mul(2).saturating_add(1);
    let free = history.saturating_sub(session.held()).saturating_sub(kept);
    let is_away = session.is_closed() || is_leaving(session.standing());
    load.show(if is_away { AWAY } else { held });
    rest.show(free, history);
}

/// Offers a dispatch. A slot with no session refuses it as closed.
#[inline(always)]
pub fn offer(
    slot: &mut Option<KeptClientSession>,
    ticket: Ticket,
    now: u64,
    made: &mut u64,
) -> Result<Placed, (OfferRefusal, Ticket)>
    ensures event { Makes slot.old slot.new (λ p q. OfferStep p ticket now result q) }
    ensures counted { Counts (held slot.old) (held slot.new) made.old made.new }
    ensures err { IfErr result (λ e. (e.1 ≡ ticket) × (slot.new ≡ slot.old)) }
    ensures none { slot.old ≡ None → result ≡ Err (OfferRefusal.Closed, ticket) }
{
    let before = held_by(slot);
    let result = values::offer(slot, ticket, now);
    end_step(made, before, held_by(slot));
    result
}

/// Asks the server to discard a dispatch. A slot with no session finds the recall stale.
#[cold]
#[inline(never)]
pub fn recall(
    slot: &mut Option<KeptClientSession>,
    recall: Recall,
    now: u64,
    made: &mut u64,
) -> Recalled
    ensures event { Makes slot.old slot.new (λ p q. RecallStep p recall now result q) }
    ensures counted { Counts (held slot.old) (held slot.new) made.old made.new }
    ensures none { slot.old ≡ None → result ≡ Recalled.Stale }
{
    let before = held_by(slot);
    let result = values::recall(slot, recall, now);
    end_step(made, before, held_by(slot));
    result
}

/// Hands a reading of the clock in. A slot with no session refuses it as closed.
pub fn clock(
    slot: &mut Option<KeptClientSession>,
    now: u64,
    made: &mut u64,
) -> Result<(), StepRefusal>
    ensures event { Makes slot.old slot.new (λ p q. NoteStep p (ClockCall now) result q) }
    ensures counted { Counts (held slot.old) (held slot.new) made.old made.new }
    ensures err { OnErr result (slot.new ≡ slot.old) }
    ensures none { slot.old ≡ None → result ≡ Err StepRefusal.Closed }
{
    let Some(session) = slot else {
        return Err(StepRefusal::Closed);
    };
    let before = session.held();
    let result = session.clock(now);
    end_step(made, before, session.held());
    result
}

/// The session takes no more dispatches. A slot with no session refuses it as closed.
pub fn retire(
    slot: &mut Option<KeptClientSession>,
    now: u64,
    made: &mut u64,
) -> Result<(), StepRefusal>
    ensures event { Makes slot.old slot.new (λ p q. NoteStep p (RetireCall now) result q) }
    ensures counted { Counts (held slot.old) (held slot.new) made.old made.new }
    ensures err { OnErr result (slot.new ≡ slot.old) }
    ensures none { slot.old ≡ None → result ≡ Err StepRefusal.Closed }
{
    let Some(session) = slot else {
        return Err(StepRefusal::Closed);
    };
    let before = session.held();
    let result = session.retire(now);
    end_step(made, before, session.held());
    result
}

/// Sends a ping. A slot with no session refuses it as closed.
pub fn ping(
    slot: &mut Option<KeptClientSession>,
    now: u64,
    made: &mut u64,
) -> Result<(), PingRefusal>
    ensures event { Makes slot.old slot.new (λ p q. PingStep p (PingCall now) result q) }
    ensures counted { Counts (held slot.old) (held slot.new) made.old made.new }
    ensures err { OnErr result (slot.new ≡ slot.old) }
    ensures none { slot.old ≡ None → result ≡ Err PingRefusal.Closed }
{
    let Some(session) = slot else {
        return Err(PingRefusal::Closed);
    };
    let before = session.held();
    let result = session.ping(now);
    end_step(made, before, session.held());
    result
}

/// The connection is lost.
pub fn lose(slot: &mut Option<KeptClientSession>, now: u64, made: &mut u64)
    ensures event { Makes slot.old slot.new (λ p q. LoseStep p now q) }
    ensures counted { Counts (held slot.old) (held slot.new) made.old made.new }
{
    if let Some(session) = slot {
        let before = session.held();
        session.lose(now);
        end_step(made, before, session.held());
    }
}

/// The next dispatch of a closed session whose answer can't come any more.
pub fn lose_next(slot: &mut Option<KeptClientSession>, made: &mut u64) -> Option<Lost>
    ensures event { Makes slot.old slot.new (λ p q. LoseNextStep p result q) }
    ensures counted { Counts (held slot.old) (held slot.new) made.old made.new }
    ensures none { slot.old ≡ None → result ≡ None }
{
    let session = slot.as_mut()?;
    let before = session.held();
    let result = session.lose_next();
    end_step(made, before, session.held());
    result
}

/// The next frame to be sent.
pub fn take_out(slot: &mut Option<KeptClientSession>) -> Option<Frame>
    ensures event { Makes slot.old slot.new (λ p q. TakeOutStep p result q) }
    ensures none { slot.old ≡ None → result ≡ None }
{
    slot.as_mut()?.take_out()
}

/// All frames to be sent, by one exchange. So many came.
///
/// None came if none is queued or the session is closed; and also if the deque that is handed in isn't
/// empty, or has less room than the session queues frames. Nothing is thrown away then.
pub fn take_outs(slot: &mut Option<KeptClientSession>, frames: &mut VecDeque<Frame>) -> usize
    ensures event { TakesOut slot.old slot.new frames.old.items (deque_capacity frames.old)
        frames.new.items result }
{
    let Some(session) = slot else {
        return 0;
    };
    if session.queued() == 0 {
        return 0;
    }
    if !frames.is_empty() {
        return 0;
    }
    if frames.capacity() < session.limits().out() {
        return 0;
    }
    session.take_outs(frames);
    frames.len()
}

/// Ends the present epoch in this way. The empty history that is handed in takes the next one.
pub fn end_epoch(
    slot: &mut Option<KeptClientSession>,
    how: EpochEnd,
    fresh: History,
    made: &mut u64,
) -> Result<(), EpochRefused>
    ensures event { Ends slot.old slot.new how fresh result }
    ensures counted { OnOk result (made.new ≡ min (made.old + 1) (2 ^ 64 - 1)) }
    ensures more { made.old ≤ made.new }
    ensures err { OnErr result ((slot.new ≡ slot.old) × (made.new ≡ made.old)) }
    ensures spare { IfErr result (λ e. e.fresh ≡ fresh) }
{
    let Some(session) = slot else {
        let why = EpochRefusal::NoSession;
        return Err(EpochRefused { why, fresh });
    };
    if !fits(session, &fresh) {
        let why = EpochRefusal::Misfit;
        return Err(EpochRefused { why, fresh });
    }
    match session.end_epoch(how, fresh) {
        Ok(()) => {
            *made = made.saturating_add(1);
            Ok(())
        }
        Err(refused) => Err(refused),
    }
}

/// Gives the histories up that have ended, the oldest first, into the list that is handed in: the number of the
/// first one's epoch.
///
/// None, and nothing is done, if the slot has no session, or none has ended, or the list isn't empty, or has no room.
pub fn take_ended(slot: &mut Option<KeptClientSession>, ended: &mut Vec<History>) -> Option<u32>
    ensures event { TakesEnded slot.old slot.new ended.old.items (vec_capacity ended.old) ended.new.items result }
{
    let session = slot.as_mut()?;
    if session.ended().is_empty() {
        return None;
    }
    if !ended.is_empty() {
        return None;
    }
    if ended.capacity() == 0 {
        return None;
    }
    let first = session.given_up();
    session.take_ended(ended);
    Some(first)
}

/// Whether the session of a slot is over: it is closed, and holds no dispatch.
fn is_over(slot: &Option<KeptClientSession>) -> bool
    ensures yes { result ≡ true → IfSome slot.now IsOver }
    ensures no { result ≡ false → Stays slot.now }
{
    let Some(session) = slot else {
        return false;
    };
    session.is_closed() && session.is_finished()
}

/// Takes the session out that is over, with all its histories. None, and it stays, if it isn't over.
pub fn take_finished(slot: &mut Option<KeptClientSession>) -> Option<KeptClientSession>
    ensures event { Leaves slot.old slot.new result }
{
    if !is_over(slot) {
        return None;
    }
    slot.take()
}
