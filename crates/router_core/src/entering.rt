//! What a step left in its session's list.

ghost use Rattle.std.specs.Prelude.{◌≡◌, IfOk};
ghost use Rattle.core_world.specs.Events.{event_of};
ghost use Rattle.mux_model.specs.Entries.{said_by};
ghost use Rattle.router_core.specs.Entries.{closes_by, first_sent, frame_in, has_grown, was_sent};

use crate::Memory;
use core_world::{ClientStep, Event, ServerStep};
use mux_frame::Frame;
use mux_history::{InitMode, Record, RecordKind};
use mux_message::made::probe;

/// How far a session's list has come: its epoch and the records of it, the last record, and the
/// frames queued.
#[derive(Clone, Copy)]
pub struct Look {
    pub epoch: u32,
    pub count: usize,
    pub last: Option<Record>,
    pub queued: usize,
}

/// A step was recorded between the two.
pub fn has_grown(before: &Look, after: &Look) -> bool
    ensures { result ≡ has_grown before.now after.now }
{
    after.epoch != before.epoch || after.count != before.count
}

/// A message was sent between the two.
pub fn was_sent(before: &Look, after: &Look) -> bool
    ensures { result ≡ was_sent before.now after.now }
{
    before.queued < after.queued
}

/// The record is that of a frame that closed the session, which counts as no message.
pub fn closes(last: &Option<Record>) -> bool
    ensures { result ≡ closes_by last.now }
{
    match last {
        Some(record) => matches!(record.kind(), RecordKind::Closed(_)),
        None => true,
    }
}

/// A copy of the frame that an event hands in.
pub fn taken_in(event: &Event) -> Result<Option<Frame>, Memory>
    ensures { IfOk result (λ f. said_by f ≡ frame_in (event_of event.now)) }
{
    match event {
        Event::Client {
            step: ClientStep::Frame(frame, _),
            ..
        } => Ok(Some(frame.try_copy()?)),
        Event::Server {
            step: ServerStep::Frame(frame, _),
            ..
        } => Ok(Some(frame.try_copy()?)),
        _ => Ok(None),
    }
}

/// The first message of a session that an event opens.
pub fn first_sent(event: &Event) -> Option<Frame>
    ensures { said_by result ≡ first_sent (event_of event.now) }
{
    match event {
        Event::OpenServer(InitMode::Probe) => Some(probe(-128)),
        _ => None,
    }
}
