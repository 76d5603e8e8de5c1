//! Calls of the sessions towards servers.
//!
//! Its twin is `clients`: functions of one shape, each one call of the other kind of session, whose clauses are in that
//! side's words.

ghost use Rattle.std.specs.Prelude.{◌≡◌, true, false, None, Some, IfOk, IfErr, IfSome, is_some};
ghost use Rattle.core_world.specs.Calls.{IsReadServer, IsReadServerCall, Leads, server_call, grows_by};
ghost use Rattle.core_world.specs.Sides.{TakesFromOne, session_at};
ghost use Rattle.mux_model.specs.Steps.{ClockCall, RetireCall, PingCall, LoseCall, LoseNextCall, SealCall, RollCall, FrameCall};
ghost use Rattle.router_core.specs.Sides.{UpAt, Does, DoesOne};
ghost use Rattle.router_core.specs.Gifts.{IsServerStep, held_by_server, gave_up, why_offer, why_ping};

use client_session::{ClientSession, PingRefusal, Recalled, UpStep};
use core_world::{EventRefusal, Gave, Held, Refusal, ServerCall, ServerStep, Told};
use mux_frame::Frame;
use mux_history::History;
use std::alloc::Global;
use translate_book::{OfferRefusal, Recall, Ticket};

type Answer = Result<Gave, (EventRefusal, ServerCall)>;

fn gave(step: UpStep) -> Gave
    ensures { result ≡ gave_up step }
{
    match step {
        UpStep::Nothing => Gave::nothing(),
        UpStep::Settled(settled) => Gave::giving(Held::Settled(settled)),
        UpStep::Dropped => Gave::telling(Told::Dropped),
        UpStep::Closing(cause) => Gave::telling(Told::Closing(cause)),
    }
}

fn of_offer(why: OfferRefusal) -> EventRefusal
    ensures { result ≡ why_offer why }
{
    EventRefusal::Session(match why {
        OfferRefusal::Closed => Refusal::Closed,
        OfferRefusal::NotOpen => Refusal::NotOpen,
        OfferRefusal::Drained => Refusal::Drained,
        OfferRefusal::Retired => Refusal::Retired,
        OfferRefusal::Lapsed => Refusal::Lapsed,
        OfferRefusal::Full => Refusal::Full,
        OfferRefusal::Spent => Refusal::Spent,
        OfferRefusal::Memory => return EventRefusal::Memory,
    })
}

fn of_ping(why: PingRefusal) -> Refusal
    ensures { result ≡ why_ping why }
{
    match why {
        PingRefusal::Closed => Refusal::Closed,
        PingRefusal::NotOpen => Refusal::NotOpen,
        PingRefusal::Outstanding => Refusal::Outstanding,
        PingRefusal::Busy => Refusal::Busy,
        PingRefusal::Spent => Refusal::Spent,
    }
}

fn frame(session: &mut ClientSession, frame: Frame, now: u64) -> Answer
    requires { IsReadServer (ServerStep.Frame frame now) }
    ensures step { Does UpAt session.old session.new (FrameCall frame.frame now) result }
    ensures err { IfErr result (λ e. e.1 ≡ ServerCall.Step (ServerStep.Frame frame now)) }
    ensures same { IfErr result (λ e. session.new ≡ session.old) }
{
    match session.frame(frame, now) {
        Ok(step) => Ok(gave(step)),
        Err((why, frame)) => Err((
            EventRefusal::Session(Refusal::of_step(why)),
            ServerCall::Step(ServerStep::Frame(frame, now)),
        )),
    }
}

fn offer(session: &mut ClientSession, ticket: Ticket, now: u64) -> Answer
    ensures step { Does UpAt session.old session.new (server_call (ServerCall.Offer ticket now)) result }
    ensures err { IfErr result (λ e. (e.1 ≡ ServerCall.Offer ticket now) × (session.new ≡ session.old)) }
{
    match session.offer(ticket, now) {
        Ok(placed) => Ok(Gave::giving(Held::Placed(placed))),
        Err((why, ticket)) => Err((of_offer(why), ServerCall::Offer(ticket, now))),
    }
}

fn clock(session: &mut ClientSession, now: u64) -> Answer
    ensures step { Does UpAt session.old session.new (ClockCall now) result }
    ensures given { IfOk result (λ g. g.given ≡ None) }
    ensures err { IfErr result (λ e. (e.1 ≡ ServerCall.Step (ServerStep.Clock now)) × (session.new ≡ session.old)) }
{
    match session.clock(now) {
        Ok(()) => Ok(Gave::nothing()),
        Err(why) => Err((
            EventRefusal::Session(Refusal::of_step(why)),
            ServerCall::Step(ServerStep::Clock(now)),
        )),
    }
}

fn retire(session: &mut ClientSession, now: u64) -> Answer
    ensures step { Does UpAt session.old session.new (RetireCall now) result }
    ensures given { IfOk result (λ g. g.given ≡ None) }
    ensures err { IfErr result (λ e. (e.1 ≡ ServerCall.Step (ServerStep.Retire now)) × (session.new ≡ session.old)) }
{
    match session.retire(now) {
        Ok(()) => Ok(Gave::nothing()),
        Err(why) => Err((
            EventRefusal::Session(Refusal::of_step(why)),
            ServerCall::Step(ServerStep::Retire(now)),
        )),
    }
}

fn ping(session: &mut ClientSession, now: u64) -> Answer
    ensures step { Does UpAt session.old session.new (PingCall now) result }
    ensures given { IfOk result (λ g. g.given ≡ None) }
    ensures err { IfErr result (λ e. (e.1 ≡ ServerCall.Step (ServerStep.Ping now)) × (session.new ≡ session.old)) }
{
    match session.ping(now) {
        Ok(()) => Ok(Gave::nothing()),
        Err(why) => Err((
            EventRefusal::Session(of_ping(why)),
            ServerCall::Step(ServerStep::Ping(now)),
        )),
    }
}

fn lose(session: &mut ClientSession, now: u64) -> Gave
    ensures step { Leads UpAt session.old session.new (LoseCall now) result }
    ensures given { result.given ≡ None }
{
    session.lose(now);
    Gave::nothing()
}

fn lose_next(session: &mut ClientSession) -> Gave
    ensures { Leads UpAt session.old session.new LoseNextCall result }
{
    match session.lose_next() {
        Some(lost) => Gave::giving(Held::Lost(lost)),
        None => Gave::telling(Told::NoMore),
    }
}

fn recall(session: &mut ClientSession, recall: Recall, now: u64) -> Gave
    ensures step { Leads UpAt session.old session.new (server_call (ServerCall.Recall recall now)) result }
    ensures given { result.given ≡ None }
{
    let name = recall.name();
    match session.recall(recall, now) {
        Recalled::Sent => Gave::telling(Told::Recalled(name)),
        Recalled::Stale => Gave::telling(Told::Stale(name)),
    }
}

// The history that ends is thrown away.
fn seal(session: &mut ClientSession, alloc: Global) -> Answer
    ensures step { Does UpAt session.old session.new SealCall result }
    ensures err { IfErr result (λ e. (e.1 ≡ ServerCall.Step ServerStep.Seal) × (session.new ≡ session.old)) }
{
    let Ok(fresh) = History::with_room(alloc, session.limits().history()) else {
        return Err((EventRefusal::Memory, ServerCall::Step(ServerStep::Seal)));
    };
    match session.seal(fresh) {
        Ok(_) => Ok(Gave::telling(Told::Sealed(session.epoch()))),
        Err((why, _)) => Err((
            EventRefusal::Session(Refusal::of_seal(why)),
            ServerCall::Step(ServerStep::Seal),
        )),
    }
}

// The history that ends is thrown away.
fn roll(session: &mut ClientSession, alloc: Global) -> Answer
    ensures step { Does UpAt session.old session.new RollCall result }
    ensures err { IfErr result (λ e. (e.1 ≡ ServerCall.Step ServerStep.Roll) × (session.new ≡ session.old)) }
{
    let Ok(fresh) = History::with_room(alloc, session.limits().history()) else {
        return Err((EventRefusal::Memory, ServerCall::Step(ServerStep::Roll)));
    };
    match session.roll(fresh) {
        Ok(_) => Ok(Gave::telling(Told::Rolled(session.epoch()))),
        Err((why, _)) => Err((
            EventRefusal::Session(Refusal::of_roll(why)),
            ServerCall::Step(ServerStep::Roll),
        )),
    }
}

fn step_one(session: &mut ClientSession, alloc: Global, step: ServerStep) -> Answer
    requires { IsReadServer step }
    ensures step { Does UpAt session.old session.new (server_call (ServerCall.Step step)) result }
    ensures given { IfOk result (λ g. grows_by (server_call (ServerCall.Step step)) ≡ false → g.given ≡ None) }
    ensures err { IfErr result (λ e. (e.1 ≡ ServerCall.Step step) × (session.new ≡ session.old)) }
{
    match step {
        ServerStep::Frame(taken, now) => frame(session, taken, now),
        ServerStep::Clock(now) => clock(session, now),
        ServerStep::Ping(now) => ping(session, now),
        ServerStep::Retire(now) => retire(session, now),
        ServerStep::Lose(now) => Ok(lose(session, now)),
        ServerStep::LoseNext => Ok(lose_next(session)),
        ServerStep::Seal => seal(session, alloc),
        ServerStep::Roll => roll(session, alloc),
    }
}

fn call_one(session: &mut ClientSession, alloc: Global, call: ServerCall) -> Answer
    requires { IsReadServerCall call }
    ensures step { Does UpAt session.old session.new (server_call call) result }
    ensures given { IfOk result (λ g. grows_by (server_call call) ≡ false → g.given ≡ None) }
    ensures err { IfErr result (λ e. (e.1 ≡ call) × (session.new ≡ session.old)) }
{
    match call {
        ServerCall::Step(step) => step_one(session, alloc, step),
        ServerCall::Offer(ticket, now) => offer(session, ticket, now),
        ServerCall::Recall(asked, now) => Ok(recall(session, asked, now)),
    }
}

/// One call of the session of this number.
pub fn call(
    servers: &mut Vec<ClientSession>,
    alloc: Global,
    number: u64,
    call: ServerCall,
) -> Answer
    requires { IsReadServerCall call }
    ensures step { DoesOne UpAt servers.old.items servers.new.items number (server_call call) result }
    ensures given { IfOk result (λ g. grows_by (server_call call) ≡ false → g.given ≡ None) }
    ensures err { IfErr result (λ e. (e.1 ≡ call) × (servers.new.items ≡ servers.old.items)) }
{
    if number == 0 {
        return Err((EventRefusal::NoSuchSession, call));
    }
    let Some(session) = servers.get_mut((number - 1) as usize) else {
        return Err((EventRefusal::NoSuchSession, call));
    };
    call_one(session, alloc, call)
}

/// The same for a call that a value went into. Where there is no room for the value that it may give,
/// it isn't done.
///
/// # Errors
///
/// Why it is refused, and the value; nothing has changed then.
pub fn use_up(
    servers: &mut Vec<ClientSession>,
    alloc: Global,
    room: bool,
    number: u64,
    used: ServerCall,
) -> Result<Gave, (EventRefusal, Option<Held>)>
    requires { IsReadServerCall used }
    ensures step { DoesOne UpAt servers.old.items servers.new.items number (server_call used) result }
    ensures room { IfOk result (λ g. IfSome g.given (λ h. (room ≡ true) × (grows_by (server_call used) ≡ true))) }
    ensures err { IfErr result (λ e. (e.1 ≡ held_by_server used) × (servers.new.items ≡ servers.old.items)) }
{
    if !is_there(servers, number) {
        return Err((EventRefusal::NoSuchSession, into_held(used)));
    }
    if !room && call_grows(&used) {
        return Err((EventRefusal::Memory, into_held(used)));
    }
    match call(servers, alloc, number, used) {
        Ok(gave) => Ok(gave),
        Err((why, used)) => Err((why, into_held(used))),
    }
}

/// The next frame of the session of this number; none where there is no such session.
pub fn take_out(servers: &mut Vec<ClientSession>, number: u64) -> Option<Option<Frame>>
    ensures { TakesFromOne UpAt servers.old.items servers.new.items number result }
{
    if number == 0 {
        return None;
    }
    let Some(session) = servers.get_mut((number - 1) as usize) else {
        return None;
    };
    Some(session.take_out())
}

/// Whether there is a session of this number, counted from 1.
pub fn is_there(servers: &[ClientSession], number: u64) -> bool
    ensures { result ≡ is_some (session_at servers.now number) }
{
    number != 0 && (number - 1) < servers.len() as u64
}

/// The step that was handed back.
pub fn into_step(call: ServerCall) -> ServerStep
    requires { IsServerStep call }
    ensures { call ≡ ServerCall.Step result }
{
    match call {
        ServerCall::Step(step) => step,
        _ => unreachable!(),
    }
}

/// The value that was handed back.
pub fn into_held(call: ServerCall) -> Option<Held>
    ensures { result ≡ held_by_server call }
{
    match call {
        ServerCall::Step(_) => None,
        ServerCall::Offer(ticket, _) => Some(Held::Ticket(ticket)),
        ServerCall::Recall(recall, _) => Some(Held::Recall(recall)),
    }
}

fn call_grows(call: &ServerCall) -> bool
    ensures { result ≡ grows_by (server_call call.now) }
{
    match call {
        ServerCall::Step(step) => grows(step),
        ServerCall::Offer(..) => true,
        ServerCall::Recall(..) => false,
    }
}

/// The step may give a value, or needs a history.
pub fn grows(step: &ServerStep) -> bool
    ensures { result ≡ grows_by (server_call (ServerCall.Step step.now)) }
{
    match step {
        ServerStep::Frame(..) | ServerStep::LoseNext | ServerStep::Seal | ServerStep::Roll => true,
        ServerStep::Clock(_) | ServerStep::Ping(_) | ServerStep::Retire(_) | ServerStep::Lose(_) =>
            { false }
    }
}
