//! What is done for a batch under the lock of a session towards a server. `now` is a reading of the clock,
//! in milliseconds since the router's start.
//!
//! Its twin is `down_batch`.
ghost use Rattle.std.specs.Prelude.{◌≡◌, ◌≢◌, ◌≤◌, ◌<◌, ◌+◌, ◌++◌, ◌∷◌, [], ℕ, length, None, Some, IfErr, IfSome, OnOk, OnErr, IsTrue};
ghost use Rattle.mux_frame.specs.Views.{FrameView};
ghost use Rattle.mux_history.specs.declared.session.SessionId.{SessionId};
ghost use Rattle.hub_base.specs.Batching.{handed_back};
ghost use Rattle.hub_base.specs.Errands.{errand_at, server_at, of_up};
ghost use Rattle.hub_steps.specs.Batches.{SendsHere, ServesUp, TakesAllUp, TakesNextUp};
ghost use Rattle.hub_steps.specs.Counts.{Counts};
ghost use Rattle.hub_steps.specs.Up.{held};

use crate::counts::{end_step, record_at};
use crate::up::held_by;
use crate::up_values::{offer, recall, send, takes};
use client_session::UpStep;
use hub_base::{Batch, Errand, Errands, Gate, HubFault, Value};
use hub_close::{Receipts, Stub};
use kept_session::KeptClientSession;
use mux_history::{ServerId, SessionId};
use translate_book::StepRefusal;

/// The step of the next frame of a batch. What it gives is held.
fn start_next<G: Gate>(
    gate: &G,
    slot: &mut Option<KeptClientSession>,
    server: ServerId,
    batch: &mut Batch,
    receipts: &mut Receipts,
    now: u64,
) -> Result<(), HubFault>
    requires { 0 < length batch.old.frames }
    ensures next { OnOk result (TakesNextUp now slot.old slot.new batch.old batch.new
        receipts.old receipts.new) }
    ensures err { OnErr result ((slot.new ≡ slot.old) × (receipts.new ≡ receipts.old)) }
    ensures refused { IfErr result (λ e. (f : FrameView) × (handed_back e ≡ Some f)
        × (batch.old ≡ record batch.new { frames = f ∷ batch.new.frames })) }
    ensures read { IfErr result (λ e. IfSome (handed_back e) (λ f. IsTrue f.as_read)) }
    ensures shut { IfErr result (λ e. (f : FrameView) → e ≡ HubFault.GateShut f
        → G.may_shut gate.now (SessionId.Server server)) }
    ensures full { IfErr result (λ e. (f : FrameView) → e ≡ HubFault.SeatFull f
        → receipts.old.room ≤ length receipts.old.list) }
{
    let Some(frame) = batch.pop() else {
        unreachable!()
    };
    if receipts.is_full() {
        return Err(HubFault::SeatFull(frame));
    }
    let Some(session) = slot else {
        return Err(HubFault::Session(StepRefusal::Closed, frame));
    };
    if gate.enter(SessionId::Server(server)).is_err() {
        return Err(HubFault::GateShut(frame));
    }
    let epoch = session.epoch();
    let place = session.held();
    match session.frame(frame, now) {
        Ok(step) => {
            hold(batch, step);
            let kept = record_at(session.history(), place);
            receipts.keep(Stub { kept, place, epoch });
            Ok(())
        }
        Err((refusal, frame)) => Err(HubFault::Session(refusal, frame)),
    }
}

/// Holds what a step gave: mostly a reply, which is put there by itself.
#[inline(always)]
fn hold(batch: &mut Batch, step: UpStep)
    requires { length batch.old.frames + length batch.old.errands < batch.old.room }
    ensures { batch.new ≡ record batch.old { errands = batch.old.errands ++ of_up step ∷ [] } }
{
    match step {
        UpStep::Settled(settled) => batch.hold(Errand::of_up(UpStep::Settled(settled))),
        other => hold_any(batch, other),
    }
}

/// Holds whatever a step gave.
#[cold]
#[inline(never)]
fn hold_any(batch: &mut Batch, step: UpStep)
    requires { length batch.old.frames + length batch.old.errands < batch.old.room }
    ensures { batch.new ≡ record batch.old { errands = batch.old.errands ++ of_up step ∷ [] } }
{
    batch.hold(Errand::of_up(step));
}

/// The steps of the frames of a batch, one after another, up to the first that is refused. That one
/// comes back, and those behind it stay.
pub fn start_all<G: Gate>(
    gate: &G,
    slot: &mut Option<KeptClientSession>,
    server: ServerId,
    batch: &mut Batch,
    receipts: &mut Receipts,
    now: u64,
) -> Result<(), HubFault>
    ensures took { OnOk result (TakesAllUp now slot.old slot.new batch.old batch.new
        receipts.old receipts.new) }
    ensures all { OnOk result (length batch.new.frames ≡ 0) }
    ensures refused { IfErr result (λ e. (f : FrameView) × (handed_back e ≡ Some f)
        × TakesAllUp now slot.old slot.new batch.old
        (record batch.new { frames = f ∷ batch.new.frames }) receipts.old receipts.new) }
    ensures read { IfErr result (λ e. IfSome (handed_back e) (λ f. IsTrue f.as_read)) }
    ensures shut { IfErr result (λ e. (f : FrameView) → e ≡ HubFault.GateShut f
        → G.may_shut gate.now (SessionId.Server server)) }
    ensures full { IfErr result (λ e. (f : FrameView) → e ≡ HubFault.SeatFull f
        → receipts.old.room ≤ length receipts.new.list) }
{
    for _ in 0..batch.len() {
        start_next(gate, slot, server, batch, receipts, now)?;
    }
    Ok(())
}

/// Hands the value that is at this place on to this session, and puts there what comes of it. Mostly it is a dispatch
/// that is taken: so it is looked at where it lies, and all else is out of the way.
#[inline(always)]
fn serve_one(slot: &mut Option<KeptClientSession>, errands: &mut Errands, at: usize, now: u64)
    ensures event { ServesUp now (errand_at errands.old.items at).to slot.old errands.old.items slot.new errands.new.items }
    ensures gone { server_at errands.new.items at ≡ None }
    ensures others { (i : ℕ) → (i ≡ at → ⊥) → errand_at errands.new.items i ≡ errand_at errands.old.items i }
    ensures same { (length errands.new.items ≡ length errands.old.items) × (errands.new.room ≡ errands.old.room) }
{
    if takes(slot, errands, at, now) {
        return send_here(slot, errands, at, now);
    }
    serve_any(slot, errands, at, now)
}

/// Sends the dispatch that is here, which the session takes.
#[inline(always)]
fn send_here(slot: &mut Option<KeptClientSession>, errands: &mut Errands, at: usize, now: u64)
    requires { SendsHere slot.old errands.old.items at now }
    ensures event { ServesUp now (errand_at errands.old.items at).to slot.old errands.old.items slot.new errands.new.items }
    ensures gone { server_at errands.new.items at ≡ None }
    ensures others { (i : ℕ) → (i ≡ at → ⊥) → errand_at errands.new.items i ≡ errand_at errands.old.items i }
    ensures same { (length errands.new.items ≡ length errands.old.items) × (errands.new.room ≡ errands.old.room) }
{
    let Some(ticket) = errands.take_ticket(at) else {
        unreachable!()
    };
    let placed = send(slot, ticket, now);
    errands.fill(at, Errand::placed(placed));
}

/// Any value that is here.
#[cold]
#[inline(never)]
fn serve_any(slot: &mut Option<KeptClientSession>, errands: &mut Errands, at: usize, now: u64)
    ensures event { ServesUp now (errand_at errands.old.items at).to slot.old errands.old.items slot.new errands.new.items }
    ensures gone { server_at errands.new.items at ≡ None }
    ensures others { (i : ℕ) → (i ≡ at → ⊥) → errand_at errands.new.items i ≡ errand_at errands.old.items i }
    ensures same { (length errands.new.items ≡ length errands.old.items) × (errands.new.room ≡ errands.old.room) }
{
    let Errand { to, value } = errands.take(at);
    match value {
        Value::Ticket(ticket) => match offer(slot, ticket, now) {
            Ok(placed) => errands.put(at, Errand::placed(placed)),
            Err((_, ticket)) => errands.put(at, Errand::refused(to, ticket)),
        },
        Value::Recall(value) => {
            let _recalled = recall(slot, value, now);
        }
        other => errands.put(at, Errand { to, value: other }),
    }
}

/// Hands all values on that go to this server.
pub fn serve_all(
    slot: &mut Option<KeptClientSession>,
    server: ServerId,
    errands: &mut Errands,
    now: u64,
    made: &mut u64,
)
    ensures event { ServesUp now server slot.old errands.old.items slot.new errands.new.items }
    ensures gone { (i : ℕ) → server_at errands.new.items i ≢ Some server }
    ensures counted { Counts (held slot.old) (held slot.new) made.old made.new }
    ensures same { (length errands.new.items ≡ length errands.old.items) × (errands.new.room ≡ errands.old.room) }
{
    let before = held_by(slot);
    for at in 0..errands.len() {
        if errands.server(at) == Some(server) {
            serve_one(slot, errands, at, now);
        }
    }
    end_step(made, before, held_by(slot));
}

/// Refuses the dispatch that is here, if it goes to this server, as a slot with no session does.
fn refuse_one(server: ServerId, errands: &mut Errands, at: usize, now: u64)
    ensures event { ServesUp now server None errands.old.items None errands.new.items }
    ensures same { (length errands.new.items ≡ length errands.old.items) × (errands.new.room ≡ errands.old.room) }
{
    if errands.server(at) != Some(server) {
        return;
    }
    if let Some(ticket) = errands.take_ticket(at) {
        errands.put(at, Errand::refused(server, ticket));
    }
}

/// Refuses all dispatches that go to this server. Recalls stay.
#[cold]
#[inline(never)]
pub fn refuse_all(server: ServerId, errands: &mut Errands, now: u64)
    ensures event { ServesUp now server None errands.old.items None errands.new.items }
    ensures same { (length errands.new.items ≡ length errands.old.items) × (errands.new.room ≡ errands.old.room) }
{
    for at in 0..errands.len() {
        refuse_one(server, errands, at, now);
    }
}
