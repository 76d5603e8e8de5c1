//! Events of random runs, and the bodies of messages.

ghost use Rattle.std.specs.Prelude.{◌<◌, ◌^◌};
ghost use Rattle.core_world.specs.Calls.{IsReadClient, IsReadServer};
ghost use Rattle.core_world.specs.Events.{IsReadEvent};

use bytes::Bytes;
use mux_frame::Frame;
use mux_history::SessionId;
use router_core::{ClientStep, Event, ServerStep};

/// A Tdispatch to `/s/a` that carries `hi`.
pub const HI: &[u8] = b"\0\0\0\x04/s/a\0\0hi";

/// An Rdispatch that carries `yo`, a nack, an Rerr.
pub const YO: &[u8] = b"\0\0\0yo";

pub const NACK: &[u8] = b"\x02\0\0";

const WHY: &[u8] = b"why";

/// A lease of 40 milliseconds.
const LEASE: &[u8] = b"\0\0\0\0\0\0\0\0\x28";

const NOTHING: &[u8] = b"";

/// Tdiscarded of the tags 2 to 9.
const DISCARDS: [&[u8]; 8] = [
    b"\0\0\x02x",
    b"\0\0\x03x",
    b"\0\0\x04x",
    b"\0\0\x05x",
    b"\0\0\x06x",
    b"\0\0\x07x",
    b"\0\0\x08x",
    b"\0\0\x09x",
];

/// A message of a client.
#[derive(Clone, Copy)]
pub enum ClientSays {
    Dispatch,
    Discarded,
    Ping,
    Drained,
}

/// A message of a server.
#[derive(Clone, Copy)]
pub enum ServerSays {
    Reply,
    Nack,
    Error,
    Lease,
    Drain,
    Ping,
    Pong,
}

/// What ends an epoch.
#[derive(Clone, Copy)]
pub enum Cut {
    Seal,
    Roll,
}

fn discarded(place: u64) -> &'static [u8] {
    DISCARDS[(place % 8) as usize]
}

/// What a client says, of its dispatch at a place, on tag 2 to 9.
pub fn from_client(number: u64, says: ClientSays, place: u64, now: u64) -> Event
    ensures { IsReadEvent result }
{
    let tag = (place % 8) as u32 + 2;
    let frame = match says {
        ClientSays::Dispatch => Frame::read(2, tag, Bytes::from_static(HI)),
        ClientSays::Discarded => Frame::read(66, 0, Bytes::from_static(discarded(place))),
        ClientSays::Ping => Frame::read(65, 20, Bytes::from_static(NOTHING)),
        ClientSays::Drained => Frame::read(-64, 1, Bytes::from_static(NOTHING)),
    };
    Event::Client {
        number,
        step: ClientStep::Frame(frame, now),
    }
}

/// What a server says; a reply to the dispatch on a tag.
pub fn from_server(number: u64, says: ServerSays, tag: u32, now: u64) -> Event
    ensures { IsReadEvent result }
{
    let tag = tag % 8_388_608;
    let frame = match says {
        ServerSays::Reply => Frame::read(-2, tag, Bytes::from_static(YO)),
        ServerSays::Nack => Frame::read(-2, tag, Bytes::from_static(NACK)),
        ServerSays::Error => Frame::read(-128, tag, Bytes::from_static(WHY)),
        ServerSays::Lease => Frame::read(67, 0, Bytes::from_static(LEASE)),
        ServerSays::Drain => Frame::read(64, 9, Bytes::from_static(NOTHING)),
        ServerSays::Ping => Frame::read(65, 9, Bytes::from_static(NOTHING)),
        ServerSays::Pong => Frame::read(-65, 1, Bytes::from_static(NOTHING)),
    };
    Event::Server {
        number,
        step: ServerStep::Frame(frame, now),
    }
}

/// A seal or a roll.
pub fn cut_off(session: SessionId, how: Cut) -> Event
    ensures { IsReadEvent result }
{
    match (session, how) {
        (SessionId::Client(number), Cut::Seal) => on_client(number, ClientStep::Seal),
        (SessionId::Client(number), Cut::Roll) => on_client(number, ClientStep::Roll),
        (SessionId::Server(number), Cut::Seal) => on_server(number, ServerStep::Seal),
        (SessionId::Server(number), Cut::Roll) => on_server(number, ServerStep::Roll),
    }
}

/// A session's connection is lost.
pub fn lose(session: SessionId, now: u64) -> Event
    ensures { IsReadEvent result }
{
    match session {
        SessionId::Client(number) => on_client(number, ClientStep::Lose(now)),
        SessionId::Server(number) => on_server(number, ServerStep::Lose(now)),
    }
}

/// The next dispatch of a session that has ended.
pub fn lose_next(session: SessionId) -> Event
    ensures { IsReadEvent result }
{
    match session {
        SessionId::Client(number) => on_client(number, ClientStep::LoseNext),
        SessionId::Server(number) => on_server(number, ServerStep::LoseNext),
    }
}

/// A step of a client's session.
pub fn on_client(number: u64, step: ClientStep) -> Event
    requires { IsReadClient step }
    ensures { IsReadEvent result }
{
    Event::Client { number, step }
}

/// A step of a server's session.
pub fn on_server(number: u64, step: ServerStep) -> Event
    requires { IsReadServer step }
    ensures { IsReadEvent result }
{
    Event::Server { number, step }
}
