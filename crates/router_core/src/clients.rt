//! Calls of the sessions towards clients.
//!
//! Its twin is `servers`: functions of one shape, each one call of the other kind of session, whose clauses are in that
//! side's words.

ghost use Rattle.std.specs.Prelude.{◌≡◌, true, false, None, Some, IfOk, IfErr, IfSome, is_some, option_map};
ghost use Rattle.core_world.specs.Calls.{IsReadClient, IsReadClientCall, Leads, client_call, grows_by};
ghost use Rattle.core_world.specs.Sides.{TakesFromOne, session_at};
ghost use Rattle.mux_model.specs.Steps.{DrainCall, FrameCall, LoseCall, LoseNextCall, SealCall, RollCall};
ghost use Rattle.router_core.specs.Sides.{DownAt, Does, DoesOne};
ghost use Rattle.router_core.specs.Gifts.{IsClientStep, held_by_client, gave_down, gave_answer, why_drain};

use core_world::{ClientCall, ClientStep, EventRefusal, Gave, Held, Refusal, Told};
use mux_frame::Frame;
use mux_history::{History, Name};
use server_session::{Answer as Answered, DownStep, DrainRefusal, ServerSession};
use std::alloc::Global;
use translate_book::{Lost, Placed, Recall, Settled, Ticket};

type Answer = Result<Gave, (EventRefusal, ClientCall)>;

fn gave(step: DownStep) -> Gave
    ensures { result ≡ gave_down step }
{
    match step {
        DownStep::Nothing => Gave::nothing(),
        DownStep::Take(ticket) => Gave::giving(Held::Ticket(ticket)),
        DownStep::Recall(recall) => Gave::giving(Held::Recall(recall)),
        DownStep::Closing(cause) => Gave::telling(Told::Closing(cause)),
    }
}

fn answered(name: Name, answer: Answered) -> Gave
    ensures { result ≡ gave_answer name answer }
{
    match answer {
        Answered::Answered => Gave::telling(Told::Answered(name)),
        Answered::Late => Gave::telling(Told::Late(name)),
        Answered::Again(ticket) => Gave {
            told: Told::Again(name),
            given: Some(Held::Ticket(ticket)),
        },
    }
}

fn noted(name: Name, recall: Option<Recall>) -> Gave
    ensures { result ≡ record { told = Told.Noted name; given = option_map Held.Recall recall } }
{
    let given = match recall {
        Some(recall) => Some(Held::Recall(recall)),
        None => None,
    };
    Gave {
        told: Told::Noted(name),
        given,
    }
}

fn of_drain(why: DrainRefusal) -> Refusal
    ensures { result ≡ why_drain why }
{
    match why {
        DrainRefusal::Closed => Refusal::Closed,
        DrainRefusal::AlreadyDraining => Refusal::AlreadyDraining,
        DrainRefusal::Busy => Refusal::Busy,
        DrainRefusal::Spent => Refusal::Spent,
    }
}

fn frame(session: &mut ServerSession, frame: Frame, now: u64) -> Answer
    requires { IsReadClient (ClientStep.Frame frame now) }
    ensures step { Does DownAt session.old session.new (FrameCall frame.frame now) result }
    ensures err { IfErr result (λ e. e.1 ≡ ClientCall.Step (ClientStep.Frame frame now)) }
    ensures same { IfErr result (λ e. session.new ≡ session.old) }
{
    match session.frame(frame, now) {
        Ok(step) => Ok(gave(step)),
        Err((why, frame)) => Err((
            EventRefusal::Session(Refusal::of_step(why)),
            ClientCall::Step(ClientStep::Frame(frame, now)),
        )),
    }
}

fn drain(session: &mut ServerSession) -> Answer
    ensures step { Does DownAt session.old session.new DrainCall result }
    ensures given { IfOk result (λ g. g.given ≡ None) }
    ensures err { IfErr result (λ e. (e.1 ≡ ClientCall.Step ClientStep.Drain) × (session.new ≡ session.old)) }
{
    match session.drain() {
        Ok(()) => Ok(Gave::nothing()),
        Err(why) => Err((
            EventRefusal::Session(of_drain(why)),
            ClientCall::Step(ClientStep::Drain),
        )),
    }
}

fn lose(session: &mut ServerSession, now: u64) -> Gave
    ensures step { Leads DownAt session.old session.new (LoseCall now) result }
    ensures given { result.given ≡ None }
{
    session.lose(now);
    Gave::nothing()
}

fn lose_next(session: &mut ServerSession) -> Gave
    ensures { Leads DownAt session.old session.new LoseNextCall result }
{
    match session.lose_next() {
        Some(recall) => Gave::giving(Held::Recall(recall)),
        None => Gave::telling(Told::NoMore),
    }
}

// The history that ends is thrown away.
fn seal(session: &mut ServerSession, alloc: Global) -> Answer
    ensures step { Does DownAt session.old session.new SealCall result }
    ensures err { IfErr result (λ e. (e.1 ≡ ClientCall.Step ClientStep.Seal) × (session.new ≡ session.old)) }
{
    let Ok(fresh) = History::with_room(alloc, session.limits().history()) else {
        return Err((EventRefusal::Memory, ClientCall::Step(ClientStep::Seal)));
    };
    match session.seal(fresh) {
        Ok(_) => Ok(Gave::telling(Told::Sealed(session.epoch()))),
        Err((why, _)) => Err((
            EventRefusal::Session(Refusal::of_seal(why)),
            ClientCall::Step(ClientStep::Seal),
        )),
    }
}

// The history that ends is thrown away.
fn roll(session: &mut ServerSession, alloc: Global) -> Answer
    ensures step { Does DownAt session.old session.new RollCall result }
    ensures err { IfErr result (λ e. (e.1 ≡ ClientCall.Step ClientStep.Roll) × (session.new ≡ session.old)) }
{
    let Ok(fresh) = History::with_room(alloc, session.limits().history()) else {
        return Err((EventRefusal::Memory, ClientCall::Step(ClientStep::Roll)));
    };
    match session.roll(fresh) {
        Ok(_) => Ok(Gave::telling(Told::Rolled(session.epoch()))),
        Err((why, _)) => Err((
            EventRefusal::Session(Refusal::of_roll(why)),
            ClientCall::Step(ClientStep::Roll),
        )),
    }
}

fn note(session: &mut ServerSession, placed: Placed) -> Answer
    ensures step { Does DownAt session.old session.new (client_call (ClientCall.Note placed)) result }
    ensures err { IfErr result (λ e. (e.1 ≡ ClientCall.Note placed) × (session.new ≡ session.old)) }
{
    let name = placed.name();
    match session.note(placed) {
        Ok(recall) => Ok(noted(name, recall)),
        Err(placed) => Err((
            EventRefusal::Session(Refusal::NotMine),
            ClientCall::Note(placed),
        )),
    }
}

fn settle(session: &mut ServerSession, settled: Settled) -> Answer
    ensures step { Does DownAt session.old session.new (client_call (ClientCall.Settle settled)) result }
    ensures err { IfErr result (λ e. (e.1 ≡ ClientCall.Settle settled) × (session.new ≡ session.old)) }
{
    let name = settled.name();
    match session.settle(settled) {
        Ok(answer) => Ok(answered(name, answer)),
        Err(settled) => Err((
            EventRefusal::Session(Refusal::NotMine),
            ClientCall::Settle(settled),
        )),
    }
}

fn nack(session: &mut ServerSession, ticket: Ticket) -> Answer
    ensures step { Does DownAt session.old session.new (client_call (ClientCall.Nack ticket)) result }
    ensures given { IfOk result (λ g. g.given ≡ None) }
    ensures err { IfErr result (λ e. (e.1 ≡ ClientCall.Nack ticket) × (session.new ≡ session.old)) }
{
    let name = ticket.name();
    match session.nack(ticket) {
        Ok(answer) => Ok(Gave::telling(answered(name, answer).told)),
        Err(ticket) => Err((
            EventRefusal::Session(Refusal::NotMine),
            ClientCall::Nack(ticket),
        )),
    }
}

fn unroute(session: &mut ServerSession, ticket: Ticket) -> Answer
    ensures step { Does DownAt session.old session.new (client_call (ClientCall.Unroute ticket)) result }
    ensures given { IfOk result (λ g. g.given ≡ None) }
    ensures err { IfErr result (λ e. (e.1 ≡ ClientCall.Unroute ticket) × (session.new ≡ session.old)) }
{
    let name = ticket.name();
    match session.unroute(ticket) {
        Ok(answer) => Ok(Gave::telling(answered(name, answer).told)),
        Err(ticket) => Err((
            EventRefusal::Session(Refusal::NotMine),
            ClientCall::Unroute(ticket),
        )),
    }
}

fn fail(session: &mut ServerSession, lost: Lost) -> Answer
    ensures step { Does DownAt session.old session.new (client_call (ClientCall.Fail lost)) result }
    ensures given { IfOk result (λ g. g.given ≡ None) }
    ensures err { IfErr result (λ e. (e.1 ≡ ClientCall.Fail lost) × (session.new ≡ session.old)) }
{
    let name = lost.name();
    match session.fail(lost) {
        Ok(answer) => Ok(Gave::telling(answered(name, answer).told)),
        Err(lost) => Err((
            EventRefusal::Session(Refusal::NotMine),
            ClientCall::Fail(lost),
        )),
    }
}

fn step_one(session: &mut ServerSession, alloc: Global, step: ClientStep) -> Answer
    requires { IsReadClient step }
    ensures step { Does DownAt session.old session.new (client_call (ClientCall.Step step)) result }
    ensures given { IfOk result (λ g. grows_by (client_call (ClientCall.Step step)) ≡ false → g.given ≡ None) }
    ensures err { IfErr result (λ e. (e.1 ≡ ClientCall.Step step) × (session.new ≡ session.old)) }
{
    match step {
        ClientStep::Frame(taken, now) => frame(session, taken, now),
        ClientStep::Drain => drain(session),
        ClientStep::Lose(now) => Ok(lose(session, now)),
        ClientStep::LoseNext => Ok(lose_next(session)),
        ClientStep::Seal => seal(session, alloc),
        ClientStep::Roll => roll(session, alloc),
    }
}

fn call_one(session: &mut ServerSession, alloc: Global, call: ClientCall) -> Answer
    requires { IsReadClientCall call }
    ensures step { Does DownAt session.old session.new (client_call call) result }
    ensures given { IfOk result (λ g. grows_by (client_call call) ≡ false → g.given ≡ None) }
    ensures err { IfErr result (λ e. (e.1 ≡ call) × (session.new ≡ session.old)) }
{
    match call {
        ClientCall::Step(step) => step_one(session, alloc, step),
        ClientCall::Note(placed) => note(session, placed),
        ClientCall::Settle(settled) => settle(session, settled),
        ClientCall::Nack(ticket) => nack(session, ticket),
        ClientCall::Unroute(ticket) => unroute(session, ticket),
        ClientCall::Fail(lost) => fail(session, lost),
    }
}

/// One call of the session of this number.
pub fn call(
    clients: &mut Vec<ServerSession>,
    alloc: Global,
    number: u64,
    call: ClientCall,
) -> Answer
    requires { IsReadClientCall call }
    ensures step { DoesOne DownAt clients.old.items clients.new.items number (client_call call) result }
    ensures given { IfOk result (λ g. grows_by (client_call call) ≡ false → g.given ≡ None) }
    ensures err { IfErr result (λ e. (e.1 ≡ call) × (clients.new.items ≡ clients.old.items)) }
{
    if number == 0 {
        return Err((EventRefusal::NoSuchSession, call));
    }
    let Some(session) = clients.get_mut((number - 1) as usize) else {
        return Err((EventRefusal::NoSuchSession, call));
    };
    call_one(session, alloc, call)
}

/// The same for a call that a value went into. Where there is no room for the value that it may give,
/// it isn't done.
///
/// # Errors
///
/// Why it is refused, and the value; nothing has changed then.
pub fn use_up(
    clients: &mut Vec<ServerSession>,
    alloc: Global,
    room: bool,
    number: u64,
    used: ClientCall,
) -> Result<Gave, (EventRefusal, Option<Held>)>
    requires { IsReadClientCall used }
    ensures step { DoesOne DownAt clients.old.items clients.new.items number (client_call used) result }
    ensures room { IfOk result (λ g. IfSome g.given (λ h. (room ≡ true) × (grows_by (client_call used) ≡ true))) }
    ensures err { IfErr result (λ e. (e.1 ≡ held_by_client used) × (clients.new.items ≡ clients.old.items)) }
{
    if !is_there(clients, number) {
        return Err((EventRefusal::NoSuchSession, into_held(used)));
    }
    if !room && call_grows(&used) {
        return Err((EventRefusal::Memory, into_held(used)));
    }
    match call(clients, alloc, number, used) {
        Ok(gave) => Ok(gave),
        Err((why, used)) => Err((why, into_held(used))),
    }
}

/// The next frame of the session of this number; none where there is no such session.
pub fn take_out(clients: &mut Vec<ServerSession>, number: u64) -> Option<Option<Frame>>
    ensures { TakesFromOne DownAt clients.old.items clients.new.items number result }
{
    if number == 0 {
        return None;
    }
    let Some(session) = clients.get_mut((number - 1) as usize) else {
        return None;
    };
    Some(session.take_out())
}

/// Whether there is a session of this number, counted from 1.
pub fn is_there(clients: &[ServerSession], number: u64) -> bool
    ensures { result ≡ is_some (session_at clients.now number) }
{
    number != 0 && (number - 1) < clients.len() as u64
}

/// The step that was handed back.
pub fn into_step(call: ClientCall) -> ClientStep
    requires { IsClientStep call }
    ensures { call ≡ ClientCall.Step result }
{
    match call {
        ClientCall::Step(step) => step,
        _ => unreachable!(),
    }
}

/// The value that was handed back.
pub fn into_held(call: ClientCall) -> Option<Held>
    ensures { result ≡ held_by_client call }
{
    match call {
        ClientCall::Step(_) => None,
        ClientCall::Note(placed) => Some(Held::Placed(placed)),
        ClientCall::Settle(settled) => Some(Held::Settled(settled)),
        ClientCall::Nack(ticket) | ClientCall::Unroute(ticket) => Some(Held::Ticket(ticket)),
        ClientCall::Fail(lost) => Some(Held::Lost(lost)),
    }
}

fn call_grows(call: &ClientCall) -> bool
    ensures { result ≡ grows_by (client_call call.now) }
{
    match call {
        ClientCall::Step(step) => grows(step),
        ClientCall::Note(_) | ClientCall::Settle(_) => true,
        ClientCall::Nack(_) | ClientCall::Unroute(_) | ClientCall::Fail(_) => false,
    }
}

/// The step may give a value, or needs a history.
pub fn grows(step: &ClientStep) -> bool
    ensures { result ≡ grows_by (client_call (ClientCall.Step step.now)) }
{
    match step {
        ClientStep::Frame(..) | ClientStep::LoseNext | ClientStep::Seal | ClientStep::Roll => true,
        ClientStep::Drain | ClientStep::Lose(_) => false,
    }
}
