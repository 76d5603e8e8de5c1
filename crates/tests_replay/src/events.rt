//! Events of runs. Values in hand have the numbers in which steps give them.

ghost use Rattle.std.specs.Prelude.{◌<◌, ◌^◌};
ghost use Rattle.core_world.specs.Calls.{IsReadClient, IsReadServer};
ghost use Rattle.core_world.specs.Events.{IsReadEvent};

use bytes::Bytes;
use mux_frame::Frame;
use router_core::{ClientStep, Event, ServerStep, Use};

/// A Tdispatch to `/s/a` that carries `hi`, two Rdispatches with status 0 and 2, and a Tdiscarded of tag 5.
pub const HI: &[u8] = b"\0\0\0\x04/s/a\0\0hi";

pub const YO: &[u8] = b"\0\0\0yo";

pub const NACK: &[u8] = b"\x02\0\0";

pub const BUSY: &[u8] = b"\x02\0\0busy";

pub const DISCARD: &[u8] = b"\0\0\x05x";

/// A lease of ten seconds.
pub const LEASE: &[u8] = b"\0\0\0\0\0\0\0\x27\x10";

pub const PROBE: &[u8] = b"tinit check";

/// The first version, with no headers.
pub const INIT: &[u8] = b"\0\x01";

/// Its top bit is set.
pub const FRAGMENT: u32 = 0x80_0001;

pub fn from_client(number: u64, kind: i8, tag: u32, body: &'static [u8]) -> Event
    requires { tag < 2 ^ 24 }
    ensures { IsReadEvent result }
{
    let frame = Frame::read(kind, tag, Bytes::from_static(body));
    Event::Client {
        number,
        step: ClientStep::Frame(frame, 3),
    }
}

pub fn dispatch(number: u64, tag: u32) -> Event
    requires { tag < 2 ^ 24 }
    ensures { IsReadEvent result }
{
    from_client(number, 2, tag, HI)
}

pub fn discard(number: u64) -> Event
    ensures { IsReadEvent result }
{
    from_client(number, 66, 0, DISCARD)
}

// A frame of a server that asks for nothing in a client's list.
pub fn ignored() -> Event
    ensures { IsReadEvent result }
{
    from_client(1, -65, 1, b"")
}

pub fn client(number: u64, step: ClientStep) -> Event
    requires { IsReadClient step }
    ensures { IsReadEvent result }
{
    Event::Client { number, step }
}

pub fn from_server(number: u64, kind: i8, tag: u32, body: &'static [u8], now: u64) -> Event
    requires { tag < 2 ^ 24 }
    ensures { IsReadEvent result }
{
    let frame = Frame::read(kind, tag, Bytes::from_static(body));
    Event::Server {
        number,
        step: ServerStep::Frame(frame, now),
    }
}

pub fn reply(number: u64, tag: u32) -> Event
    requires { tag < 2 ^ 24 }
    ensures { IsReadEvent result }
{
    from_server(number, -2, tag, YO, 6)
}

pub fn stray() -> Event
    ensures { IsReadEvent result }
{
    from_server(1, -65, 9, b"", 0)
}

pub fn server(number: u64, step: ServerStep) -> Event
    requires { IsReadServer step }
    ensures { IsReadEvent result }
{
    Event::Server { number, step }
}

pub fn spend(hand: u64, by: Use) -> Event
    ensures { IsReadEvent result }
{
    Event::Spend { hand, by }
}

pub fn offer(hand: u64, server: u64, now: u64) -> Event
    ensures { IsReadEvent result }
{
    spend(hand, Use::Offer { server, now })
}
