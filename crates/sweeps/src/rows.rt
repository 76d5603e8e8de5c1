//! Worked rows, by their events.

ghost use Rattle.std.specs.Prelude.{◌<◌, ◌^◌, IfSome};
ghost use Rattle.core_world.specs.Events.{IsReadEvent};

use crate::events::{HI, NACK, YO, on_server};
use bytes::Bytes;
use mux_frame::Frame;
use mux_history::{InitMode, Limits};
use router_core::{ClientStep, Event, ServerStep, Use};

/// Two Tdiscarded.
const DISCARD_5: &[u8] = b"\0\0\x05x";

const DISCARD_6: &[u8] = b"\0\0\x06x";

/// Four of the worked rows, and one in which a nacked dispatch is sent again.
#[derive(Clone, Copy, Debug)]
pub enum Row {
    Four,
    Nine,
    Thirteen,
    Eighteen,
    SentAgain,
}

pub const ROWS: [Row; 5] = [
    Row::Four,
    Row::Nine,
    Row::Thirteen,
    Row::Eighteen,
    Row::SentAgain,
];

/// What is sent again is sealed too, so few records are kept of it.
pub fn limits(row: Row) -> Option<Limits> {
    match row {
        Row::SentAgain => Limits::new(65_536, 8, 16, 16, 1),
        _ => Limits::new(65_536, 8, 16, 64, 0),
    }
}

/// The event at a place of a row. None behind the last.
pub fn event(row: Row, place: usize) -> Option<Event>
    ensures { IfSome result IsReadEvent }
{
    match row {
        Row::Four => four(place),
        Row::Nine => nine(place),
        Row::Thirteen => thirteen(place),
        Row::Eighteen => eighteen(place),
        Row::SentAgain => sent_again(place),
    }
}

fn four(place: usize) -> Option<Event>
    ensures { IfSome result IsReadEvent }
{
    Some(match place {
        0 => Event::OpenClient,
        1 => Event::OpenServer(InitMode::Plain),
        2 => from_client(1, 2, 5, HI),
        3 => offer(1, 1),
        4 => spend(2, Use::Note),
        5 => from_server(1, -2, 2, YO),
        6 => spend(3, Use::Settle),
        _ => return None,
    })
}

// A recall comes too late, and finds the tag in use by another client's dispatch.
fn nine(place: usize) -> Option<Event>
    ensures { IfSome result IsReadEvent }
{
    Some(match place {
        0 | 1 => Event::OpenClient,
        2 => Event::OpenServer(InitMode::Plain),
        3 => from_client(1, 2, 5, HI),
        4 => offer(1, 1),
        5 => spend(2, Use::Note),
        6 => from_client(1, 66, 0, DISCARD_5),
        7 => from_server(1, -2, 2, YO),
        8 => from_client(2, 2, 5, HI),
        9 => offer(5, 1),
        10 => spend(3, Use::Recall { now: 0 }),
        11 => spend(4, Use::Settle),
        _ => return None,
    })
}

// A server is lost with three dispatches, one of them recalled.
fn thirteen(place: usize) -> Option<Event>
    ensures { IfSome result IsReadEvent }
{
    Some(match place {
        0 => Event::OpenClient,
        1 => Event::OpenServer(InitMode::Plain),
        2 => from_client(1, 2, 5, HI),
        3 => from_client(1, 2, 6, HI),
        4 => from_client(1, 2, 7, HI),
        5 => offer(1, 1),
        6 => offer(2, 1),
        7 => offer(3, 1),
        8 => spend(4, Use::Note),
        9 => spend(5, Use::Note),
        10 => spend(6, Use::Note),
        11 => from_client(1, 66, 0, DISCARD_6),
        12 => spend(7, Use::Recall { now: 0 }),
        13 => on_server(1, ServerStep::Lose(0)),
        14 | 15 | 16 => on_server(1, ServerStep::LoseNext),
        17 => spend(8, Use::Fail),
        18 => spend(9, Use::Fail),
        19 => spend(10, Use::Fail),
        20 => on_server(1, ServerStep::LoseNext),
        _ => return None,
    })
}

fn eighteen(place: usize) -> Option<Event>
    ensures { IfSome result IsReadEvent }
{
    Some(match place {
        0 | 5 => Event::OpenClient,
        1 | 6 => from_client(1, 2, 5, HI),
        2 => from_client(1, 2, 6, HI),
        3 => Event::Restart,
        4 => spend(1, Use::Nack),
        _ => return None,
    })
}

// A nack, sent again, and a second nack; then a discard, a loss and a restart.
fn sent_again(place: usize) -> Option<Event>
    ensures { IfSome result IsReadEvent }
{
    Some(match place {
        0 | 27 => Event::OpenClient,
        1 | 2 => Event::OpenServer(InitMode::Plain),
        3 | 28 => from_client(1, 2, 5, HI),
        4 => offer(1, 1),
        5 => spend(2, Use::Note),
        6 => from_server(1, -2, 2, NACK),
        7 => spend(3, Use::Settle),
        8 => offer(4, 2),
        9 => spend(5, Use::Note),
        10 => from_server(2, -2, 2, NACK),
        11 => spend(6, Use::Settle),
        12 => from_client(1, 2, 6, HI),
        13 => offer(7, 1),
        14 => from_client(1, 66, 0, DISCARD_6),
        15 => spend(8, Use::Note),
        16 => spend(9, Use::Recall { now: 0 }),
        17 => from_server(1, -2, 2, NACK),
        18 => spend(10, Use::Settle),
        19 => from_client(1, 2, 7, HI),
        20 => offer(11, 2),
        21 => spend(12, Use::Note),
        22 => on_server(2, ServerStep::Lose(0)),
        23 => on_server(2, ServerStep::LoseNext),
        24 => spend(13, Use::Fail),
        25 => Event::Client {
            number: 1,
            step: ClientStep::Seal,
        },
        26 => Event::Restart,
        _ => return None,
    })
}

fn from_client(number: u64, kind: i8, tag: u32, body: &'static [u8]) -> Event
    requires { tag < 2 ^ 24 }
    ensures { IsReadEvent result }
{
    Event::Client {
        number,
        step: ClientStep::Frame(Frame::read(kind, tag, Bytes::from_static(body)), 0),
    }
}

fn from_server(number: u64, kind: i8, tag: u32, body: &'static [u8]) -> Event
    requires { tag < 2 ^ 24 }
    ensures { IsReadEvent result }
{
    Event::Server {
        number,
        step: ServerStep::Frame(Frame::read(kind, tag, Bytes::from_static(body)), 0),
    }
}

fn spend(hand: u64, by: Use) -> Event
    ensures { IsReadEvent result }
{
    Event::Spend { hand, by }
}

fn offer(hand: u64, server: u64) -> Event
    ensures { IsReadEvent result }
{
    spend(hand, Use::Offer { server, now: 0 })
}
