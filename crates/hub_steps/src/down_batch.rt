//! What is done for a batch under the lock of a session towards a client. `now` is a reading of the clock,
//! in milliseconds since the router's start.
//!
//! Its twin is `up_batch`, as `up_steps` is that of `down_steps`. `start_next` holds the step where it is made, since a
//! large enum that is moved on is copied in parts.
ghost use Rattle.std.specs.Prelude.{◌≡◌, ◌≢◌, ◌≤◌, ◌<◌, ◌+◌, ◌++◌, ◌∷◌, [], ℕ, length, None, Some, IfErr, IfSome, OnOk, OnErr, IsTrue};
ghost use Rattle.mux_frame.specs.Views.{FrameView};
ghost use Rattle.mux_history.specs.declared.session.SessionId.{SessionId};
ghost use Rattle.hub_base.specs.Batching.{handed_back};
ghost use Rattle.hub_base.specs.Errands.{errand_at, client_at, of_down};
ghost use Rattle.hub_steps.specs.Batches.{AnswersDown, NotesHere, PassesHere, TakesAllDown, TakesNextDown};
ghost use Rattle.hub_steps.specs.Counts.{Counts};
ghost use Rattle.hub_steps.specs.Down.{held_down};

use crate::counts::{end_step, record_at};
use crate::down::held_by;
use crate::down_values::{
    nack, note, note_owed, owes_note, owes_reply, pass_owed, settle, unroute,
};
use hub_base::{Batch, Errand, Errands, Gate, HubFault, Value};
use hub_close::{Receipts, Stub};
use kept_session::KeptServerSession;
use mux_history::SessionId;
use server_session::{Answer, DownStep, Owed};
use translate_book::StepRefusal;

/// The step of the next frame of a batch. What it gives is held.
fn start_next<G: Gate>(
    gate: &G,
    slot: &mut Option<KeptServerSession>,
    client: u64,
    batch: &mut Batch,
    receipts: &mut Receipts,
    now: u64,
) -> Result<(), HubFault>
    requires { 0 < length batch.old.frames }
    ensures next { OnOk result (TakesNextDown now slot.old slot.new batch.old batch.new
        receipts.old receipts.new) }
    ensures err { OnErr result ((slot.new ≡ slot.old) × (receipts.new ≡ receipts.old)) }
    ensures refused { IfErr result (λ e. (f : FrameView) × (handed_back e ≡ Some f)
        × (batch.old ≡ record batch.new { frames = f ∷ batch.new.frames })) }
    ensures read { IfErr result (λ e. IfSome (handed_back e) (λ f. IsTrue f.as_read)) }
    ensures shut { IfErr result (λ e. (f : FrameView) → e ≡ HubFault.GateShut f
        → G.may_shut gate.now (SessionId.Client client)) }
    ensures full { IfErr result (λ e. (f : FrameView) → e ≡ HubFault.SeatFull f
        → receipts.old.room ≤ length receipts.old.list) }
{
    let Some(frame) = batch.pop() else {
        unreachable!()
    };
    if receipts.is_full() {
        return Err(HubFault::SeatFull(frame));
    }
    let Some(session) = slot else {
        return Err(HubFault::Session(StepRefusal::Closed, frame));
    };
    if gate.enter(SessionId::Client(client)).is_err() {
        return Err(HubFault::GateShut(frame));
    }
    let epoch = session.epoch();
    let place = session.held();
    match session.frame(frame, now) {
        Ok(step) => {
            hold(batch, step);
            let kept = record_at(session.history(), place);
            receipts.keep(Stub { kept, place, epoch });
            Ok(())
        }
        Err((refusal, frame)) => Err(HubFault::Session(refusal, frame)),
    }
}

/// Holds what a step gave: mostly a dispatch that was taken, which is put there by itself.
#[inline(always)]
fn hold(batch: &mut Batch, step: DownStep)
    requires { length batch.old.frames + length batch.old.errands < batch.old.room }
    ensures { batch.new ≡ record batch.old { errands = batch.old.errands ++ of_down step ∷ [] } }
{
    match step {
        DownStep::Take(ticket) => batch.hold(Errand::ticket(ticket)),
        other => hold_any(batch, other),
    }
}

/// Holds whatever a step gave.
#[cold]
#[inline(never)]
fn hold_any(batch: &mut Batch, step: DownStep)
    requires { length batch.old.frames + length batch.old.errands < batch.old.room }
    ensures { batch.new ≡ record batch.old { errands = batch.old.errands ++ of_down step ∷ [] } }
{
    batch.hold(Errand::of_down(step));
}

/// The steps of the frames of a batch, one after another, up to the first that is refused. That one
/// comes back, and those behind it stay.
pub fn start_all<G: Gate>(
    gate: &G,
    slot: &mut Option<KeptServerSession>,
    client: u64,
    batch: &mut Batch,
    receipts: &mut Receipts,
    now: u64,
) -> Result<(), HubFault>
    ensures took { OnOk result (TakesAllDown now slot.old slot.new batch.old batch.new
        receipts.old receipts.new) }
    ensures all { OnOk result (length batch.new.frames ≡ 0) }
    ensures refused { IfErr result (λ e. (f : FrameView) × (handed_back e ≡ Some f)
        × TakesAllDown now slot.old slot.new batch.old
        (record batch.new { frames = f ∷ batch.new.frames }) receipts.old receipts.new) }
    ensures read { IfErr result (λ e. IfSome (handed_back e) (λ f. IsTrue f.as_read)) }
    ensures shut { IfErr result (λ e. (f : FrameView) → e ≡ HubFault.GateShut f
        → G.may_shut gate.now (SessionId.Client client)) }
    ensures full { IfErr result (λ e. (f : FrameView) → e ≡ HubFault.SeatFull f
        → receipts.old.room ≤ length receipts.new.list) }
{
    for _ in 0..batch.len() {
        start_next(gate, slot, client, batch, receipts, now)?;
    }
    Ok(())
}

/// Hands the value that is at this place on to this session, and puts there what comes of it. Mostly a client waits
/// for it: so it is looked at where it lies, and all else is out of the way.
#[inline(always)]
fn answer_one(slot: &mut Option<KeptServerSession>, errands: &mut Errands, at: usize)
    ensures event { AnswersDown (errand_at errands.old.items at).to slot.old errands.old.items slot.new errands.new.items }
    ensures gone { client_at errands.new.items at ≡ None }
    ensures others { (i : ℕ) → (i ≡ at → ⊥) → errand_at errands.new.items i ≡ errand_at errands.old.items i }
    ensures same { (length errands.new.items ≡ length errands.old.items) × (errands.new.room ≡ errands.old.room) }
{
    if let Some(owed) = owes_note(slot, errands, at) {
        return note_here(slot, errands, at, owed);
    }
    if let Some(owed) = owes_reply(slot, errands, at) {
        return pass_here(slot, errands, at, owed);
    }
    answer_any(slot, errands, at)
}

/// Notes the place that is here, for which a client waits.
#[inline(always)]
fn note_here(slot: &mut Option<KeptServerSession>, errands: &mut Errands, at: usize, owed: Owed)
    requires { NotesHere slot.old errands.old.items at owed.tag }
    ensures event { AnswersDown (errand_at errands.old.items at).to slot.old errands.old.items slot.new errands.new.items }
    ensures gone { client_at errands.new.items at ≡ None }
    ensures others { (i : ℕ) → (i ≡ at → ⊥) → errand_at errands.new.items i ≡ errand_at errands.old.items i }
    ensures same { (length errands.new.items ≡ length errands.old.items) × (errands.new.room ≡ errands.old.room) }
{
    let Some(placed) = errands.take_placed(at) else {
        unreachable!()
    };
    note_owed(slot, owed, placed);
}

/// Passes the reply on that is here, for which a client waits.
#[inline(always)]
fn pass_here(slot: &mut Option<KeptServerSession>, errands: &mut Errands, at: usize, owed: Owed)
    requires { PassesHere slot.old errands.old.items at owed.tag }
    ensures event { AnswersDown (errand_at errands.old.items at).to slot.old errands.old.items slot.new errands.new.items }
    ensures gone { client_at errands.new.items at ≡ None }
    ensures others { (i : ℕ) → (i ≡ at → ⊥) → errand_at errands.new.items i ≡ errand_at errands.old.items i }
    ensures same { (length errands.new.items ≡ length errands.old.items) × (errands.new.room ≡ errands.old.room) }
{
    let Some(settled) = errands.take_reply(at) else {
        unreachable!()
    };
    pass_owed(slot, owed, settled);
}

/// Any value that is here.
#[cold]
#[inline(never)]
fn answer_any(slot: &mut Option<KeptServerSession>, errands: &mut Errands, at: usize)
    ensures event { AnswersDown (errand_at errands.old.items at).to slot.old errands.old.items slot.new errands.new.items }
    ensures gone { client_at errands.new.items at ≡ None }
    ensures others { (i : ℕ) → (i ≡ at → ⊥) → errand_at errands.new.items i ≡ errand_at errands.old.items i }
    ensures same { (length errands.new.items ≡ length errands.old.items) × (errands.new.room ≡ errands.old.room) }
{
    let Errand { to, value } = errands.take(at);
    match value {
        Value::Placed(placed) => match note(slot, placed) {
            Ok(Some(recall)) => errands.put(at, Errand::recall(recall)),
            Ok(None) => {}
            Err(_placed) => {}
        },
        Value::Reply(settled) => match settle(slot, settled) {
            Ok(Answer::Again(ticket)) => errands.put(at, Errand::ticket(ticket)),
            Ok(Answer::Answered) => {}
            Ok(Answer::Late) => {}
            Err(_settled) => {}
        },
        Value::Unplaced(ticket) => {
            let _answer = nack(slot, ticket);
        }
        Value::Unrouted(ticket) => {
            let _answer = unroute(slot, ticket);
        }
        other => errands.put(at, Errand { to, value: other }),
    }
}

/// Hands all values on that go to this client.
pub fn answer_all(
    slot: &mut Option<KeptServerSession>,
    client: u64,
    errands: &mut Errands,
    made: &mut u64,
)
    ensures event { AnswersDown client slot.old errands.old.items slot.new errands.new.items }
    ensures gone { (i : ℕ) → client_at errands.new.items i ≢ Some client }
    ensures counted { Counts (held_down slot.old) (held_down slot.new) made.old made.new }
    ensures same { (length errands.new.items ≡ length errands.old.items) × (errands.new.room ≡ errands.old.room) }
{
    let before = held_by(slot);
    for at in 0..errands.len() {
        if errands.client(at) == Some(client) {
            answer_one(slot, errands, at);
        }
    }
    end_step(made, before, held_by(slot));
}
