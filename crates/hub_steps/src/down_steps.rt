//! What is done under the lock of a session towards a client: each function is lent what the lock
//! keeps. `now` is a reading of the clock, in milliseconds since the router's start.
//!
//! Its twin is `up_steps`: functions of one shape, each one call of the other kind of session. A trait over both would
//! have to carry the words of their clauses as ghost members, with a law for each call, and would be longer.
ghost use Rattle.std.specs.Prelude.{◌≡◌, ◌<◌, ◌≤◌, ◌+◌, ◌-◌, ◌^◌, min, true, false, None, Some, Ok, Err, IfSome, IfErr, OnOk, OnErr, vec_capacity};
ghost use Rattle.std.specs.VecDeque.{deque_capacity};
ghost use Rattle.server_session.specs.Steps.{FailStep, DrainStep, LoseStep, LoseNextStep, TakeOutStep};
ghost use Rattle.hub_steps.specs.Counts.{Counts};
ghost use Rattle.hub_steps.specs.Down.{EndsDown, MakesDown, MayKeepDown, TakesOutDown, held_down};
ghost use Rattle.hub_steps.specs.Giving.{TakesEndedDown};
ghost use Rattle.hub_steps.specs.Leaving.{IsOverDown, LeavesDown, StaysDown};

use crate::counts::end_step;
use crate::down::fits;
pub use crate::down::{held_by, queued_by};
use crate::down_values as values;
use hub_base::Rest;
use kept_session::{EpochEnd, EpochRefusal, EpochRefused, KeptServerSession};
use mux_frame::Frame;
use mux_history::History;
use server_session::{Answer, DrainRefusal};
use std::collections::VecDeque;
use translate_book::{Lost, Recall};

/// Shows the figures of the session to those who ask for no lock.
#[inline(always)]
pub fn show(rest: &Rest, slot: &Option<KeptServerSession>)
    ensures kept { MayKeepDown slot.now }
{
    let Some(session) = slot else {
        return;
    };
    let limits = session.limits();
    let history = limits.history();
    let held = session.load();
    let each = limits.retries().saturating_mul(2).saturating_add(3);
    let kept = held.saturating_mul(each).saturating_add(1);
    let free = history.saturating_sub(session.held()).saturating_sub(kept);
    rest.show(free, history);
}

/// The server that a dispatch was sent to is gone. A slot with no session hands the value back.
pub fn fail(
    slot: &mut Option<KeptServerSession>,
    lost: Lost,
    made: &mut u64,
) -> Result<Answer, Lost>
    ensures event { MakesDown slot.old slot.new (λ p q. FailStep p lost result q) }
    ensures counted { Counts (held_down slot.old) (held_down slot.new) made.old made.new }
    ensures err { IfErr result (λ e. (e ≡ lost) × (slot.new ≡ slot.old)) }
    ensures none { slot.old ≡ None → result ≡ Err lost }
{
    let Some(session) = slot else {
        return Err(lost);
    };
    let before = session.held();
    let result = session.fail(lost);
    end_step(made, before, session.held());
    result
}

/// Asks the client to send no more dispatches. A slot with no session refuses it as closed.
pub fn drain(slot: &mut Option<KeptServerSession>, made: &mut u64) -> Result<(), DrainRefusal>
    ensures event { MakesDown slot.old slot.new (λ p q. DrainStep p result q) }
    ensures counted { Counts (held_down slot.old) (held_down slot.new) made.old made.new }
    ensures err { OnErr result (slot.new ≡ slot.old) }
    ensures none { slot.old ≡ None → result ≡ Err DrainRefusal.Closed }
{
    let Some(session) = slot else {
        return Err(DrainRefusal::Closed);
    };
    let before = session.held();
    let result = session.drain();
    end_step(made, before, session.held());
    result
}

/// The connection is lost.
pub fn lose(slot: &mut Option<KeptServerSession>, now: u64, made: &mut u64)
    ensures event { MakesDown slot.old slot.new (λ p q. LoseStep p now q) }
    ensures counted { Counts (held_down slot.old) (held_down slot.new) made.old made.new }
{
    if let Some(session) = slot {
        let before = session.held();
        session.lose(now);
        end_step(made, before, session.held());
    }
}

/// The recall of the next dispatch of a closed session that owes one.
pub fn lose_next(slot: &mut Option<KeptServerSession>, made: &mut u64) -> Option<Recall>
    ensures event { MakesDown slot.old slot.new (λ p q. LoseNextStep p result q) }
    ensures counted { Counts (held_down slot.old) (held_down slot.new) made.old made.new }
    ensures none { slot.old ≡ None → result ≡ None }
{
    let session = slot.as_mut()?;
    let before = session.held();
    let result = session.lose_next();
    end_step(made, before, session.held());
    result
}

/// The next frame to be sent.
pub fn take_out(slot: &mut Option<KeptServerSession>) -> Option<Frame>
    ensures event { MakesDown slot.old slot.new (λ p q. TakeOutStep p result q) }
    ensures none { slot.old ≡ None → result ≡ None }
{
    slot.as_mut()?.take_out()
}

/// All frames to be sent, by one exchange. So many came.
///
/// None came if none is queued or the session is closed; and also if the deque that is handed in isn't
/// empty, or has less room than the session queues frames. Nothing is thrown away then.
pub fn take_outs(slot: &mut Option<KeptServerSession>, frames: &mut VecDeque<Frame>) -> usize
    ensures event { TakesOutDown slot.old slot.new frames.old.items (deque_capacity frames.old)
        frames.new.items result }
{
    let Some(session) = slot else {
        return 0;
    };
    if session.queued() == 0 {
        return 0;
    }
    if !frames.is_empty() {
        return 0;
    }
    if frames.capacity() < session.limits().out() {
        return 0;
    }
    session.take_outs(frames);
    frames.len()
}

/// Ends the present epoch in this way. The empty history that is handed in takes the next one.
pub fn end_epoch(
    slot: &mut Option<KeptServerSession>,
    how: EpochEnd,
    fresh: History,
    made: &mut u64,
) -> Result<(), EpochRefused>
    ensures event { EndsDown slot.old slot.new how fresh result }
    ensures counted { OnOk result (made.new ≡ min (made.old + 1) (2 ^ 64 - 1)) }
    ensures more { made.old ≤ made.new }
    ensures err { OnErr result ((slot.new ≡ slot.old) × (made.new ≡ made.old)) }
    ensures spare { IfErr result (λ e. e.fresh ≡ fresh) }
{
    let Some(session) = slot else {
        let why = EpochRefusal::NoSession;
        return Err(EpochRefused { why, fresh });
    };
    if !fits(session, &fresh) {
        let why = EpochRefusal::Misfit;
        return Err(EpochRefused { why, fresh });
    }
    match session.end_epoch(how, fresh) {
        Ok(()) => {
            *made = made.saturating_add(1);
            Ok(())
        }
        Err(refused) => Err(refused),
    }
}

/// Gives the histories up that have ended, the oldest first, into the list that is handed in: the number of the
/// first one's epoch.
///
/// None, and nothing is done, if the slot has no session, or none has ended, or the list isn't empty, or has no room.
pub fn take_ended(slot: &mut Option<KeptServerSession>, ended: &mut Vec<History>) -> Option<u32>
    ensures event { TakesEndedDown slot.old slot.new ended.old.items (vec_capacity ended.old) ended.new.items result }
{
    let session = slot.as_mut()?;
    if session.ended().is_empty() {
        return None;
    }
    if !ended.is_empty() {
        return None;
    }
    if ended.capacity() == 0 {
        return None;
    }
    let first = session.given_up();
    session.take_ended(ended);
    Some(first)
}

/// Whether the session of a slot is over: it is closed, and no dispatch waits for anything.
fn is_over(slot: &Option<KeptServerSession>) -> bool
    ensures yes { result ≡ true → IfSome slot.now IsOverDown }
    ensures no { result ≡ false → StaysDown slot.now }
{
    let Some(session) = slot else {
        return false;
    };
    session.is_closed() && session.is_finished()
}

/// Takes the session out that is over, with all its histories. None, and it stays, if it isn't over.
pub fn take_finished(slot: &mut Option<KeptServerSession>) -> Option<KeptServerSession>
    ensures event { LeavesDown slot.old slot.new result }
{
    if !is_over(slot) {
        return None;
    }
    slot.take()
}
