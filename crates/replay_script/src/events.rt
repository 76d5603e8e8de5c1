//! The events that commands make.

ghost use Rattle.std.specs.Prelude.{◌≡◌, IsTrue};
ghost use Rattle.core_world.specs.declared.events.Event.TheVariants as events;
ghost use Rattle.core_world.specs.Events.{IsReadEvent};

use crate::command::{Purpose, Step};
use core_world::{ClientStep, Event, ServerStep, Use};
use mux_frame::Frame;
use mux_history::SessionId;

/// The event of a step.
pub fn step_event(step: Step, now: u64) -> Event
    ensures { IsReadEvent result }
{
    match step {
        Step::Drain(client) => on_client(client, ClientStep::Drain),
        Step::Clock(server) => on_server(server, ServerStep::Clock(now)),
        Step::Ping(server) => on_server(server, ServerStep::Ping(now)),
        Step::Next(SessionId::Client(client)) => on_client(client, ClientStep::LoseNext),
        Step::Next(SessionId::Server(server)) => on_server(server, ServerStep::LoseNext),
        Step::Seal(SessionId::Client(client)) => on_client(client, ClientStep::Seal),
        Step::Seal(SessionId::Server(server)) => on_server(server, ServerStep::Seal),
        Step::Roll(SessionId::Client(client)) => on_client(client, ClientStep::Roll),
        Step::Roll(SessionId::Server(server)) => on_server(server, ServerStep::Roll),
    }
}

/// The event of a frame that has come.
pub fn frame_event(session: SessionId, frame: Frame, now: u64) -> Event
    ensures { IsTrue frame.as_read → IsReadEvent result }
{
    match session {
        SessionId::Client(client) => on_client(client, ClientStep::Frame(frame, now)),
        SessionId::Server(server) => on_server(server, ServerStep::Frame(frame, now)),
    }
}

/// The event of a connection that is lost.
pub fn loss_event(session: SessionId, now: u64) -> Event
    ensures { IsReadEvent result }
{
    match session {
        SessionId::Client(client) => on_client(client, ClientStep::Lose(now)),
        SessionId::Server(server) => on_server(server, ServerStep::Lose(now)),
    }
}

/// The event of a server that is to take no more dispatches.
pub fn retire_event(server: u64, now: u64) -> Event
    ensures { IsReadEvent result }
{
    on_server(server, ServerStep::Retire(now))
}

/// The event of a value that is used.
pub fn spend_event(hand: u64, by: Purpose, now: u64) -> Event
    ensures { IsReadEvent result }
{
    let by = match by {
        Purpose::Offer(server) => Use::Offer { server, now },
        Purpose::Note => Use::Note,
        Purpose::Settle => Use::Settle,
        Purpose::Nack => Use::Nack,
        Purpose::Unroute => Use::Unroute,
        Purpose::Fail => Use::Fail,
        Purpose::Recall => Use::Recall { now },
    };
    Event::Spend { hand, by }
}

fn on_client(number: u64, step: ClientStep) -> Event
    ensures { result ≡ events.Client number step }
{
    Event::Client { number, step }
}

fn on_server(number: u64, step: ServerStep) -> Event
    ensures { result ≡ events.Server number step }
{
    Event::Server { number, step }
}
