//! One offer and its final reply through a session towards a server, with all but one place held.

ghost use Rattle.std.specs.Prelude.{◌≡◌, ◌<◌, ◌^◌, IfSome, IsTrue};

use crate::bodies::Bodies;
use crate::rounds::Rounds;
use bytes::Bytes;
use client_session::ClientSession;
use mux_frame::{Frame, MAX_TAG};
use mux_history::{InitMode, Limits, Name};
use mux_message::{MessageKind, parse};
use std::io;
use std::rt::Clock;
use std::time::Instant;
use translate_book::{Dispatch, Ticket};

fn ticket(seq: u64, body: &'static [u8]) -> Option<Ticket> {
    let frame = Frame::read(2, 5, Bytes::from_static(body));
    let Ok(message) = parse(frame) else {
        return None;
    };
    if message.kind() != MessageKind::Tdispatch {
        return None;
    }
    let name = Name {
        boot: 1,
        client: 1,
        seq,
    };
    Some(Ticket::new(name, Dispatch::new(message), 0))
}

// The tag on which a dispatch went out.
pub(crate) fn offer(session: &mut ClientSession, seq: u64, body: &'static [u8]) -> Option<u32> {
    let placed = session.offer(ticket(seq, body)?, 0).ok()?;
    let _sent = session.take_out();
    Some(placed.tag())
}

fn settle(session: &mut ClientSession, tag: u32, body: &'static [u8]) -> bool {
    if tag > MAX_TAG {
        return false;
    }
    let reply = Frame::read(-2, tag, Bytes::from_static(body));
    session.frame(reply, 0).is_ok()
}

/// `window` dispatches at most are held.
pub fn run<R: Clock + Print + AllocGlobal>(
    rt: &R,
    rounds: Rounds,
    bodies: Bodies,
    window: usize,
) -> io::Result<()> {
    let Some(limits) = Limits::new(1_048_576, window, 1_048_576, 1_000_000, 0) else {
        return Ok(());
    };
    let Ok(mut session) = ClientSession::open(rt.alloc(), 1, InitMode::Plain, limits) else {
        return println!(rt; "session: memory");
    };
    let mut seq: u64 = 0;
    for _ in 1..window {
        seq = seq.wrapping_add(1);
        let _held = offer(&mut session, seq, bodies.dispatch);
    }
    let start = Instant::now(rt)?;
    let mut sum: u64 = 0;
    for _ in 0..rounds.session {
        seq = seq.wrapping_add(1);
        let Some(tag) = offer(&mut session, seq, bodies.dispatch) else {
            break;
        };
        if settle(&mut session, tag, bodies.reply) {
            sum = sum.wrapping_add(u64::from(tag));
        }
    }
    let spent = start.elapsed(rt)?;
    println!(rt; "window {window}")?;
    rounds.tell(rt, "session, offer and reply", rounds.session, spent, sum)
}
