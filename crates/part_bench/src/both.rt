//! A dispatch there and back, through a session towards a client and one towards a server.

use crate::bodies::Bodies;
use crate::rounds::{Rounds, next_seed};
use bytes::Bytes;
use client_session::{ClientSession, UpStep};
use mux_frame::{Frame, MAX_TAG};
use mux_history::{InitMode, Limits};
use server_session::{DownStep, ServerSession};
use std::alloc::Global;
use std::io;
use std::rt::Clock;
use std::time::Instant;

/// Both sessions, and the server's tag for each of the client's.
#[derive(Drop)]
struct Router {
    down: ServerSession,
    up: ClientSession,
    sent: Vec<u32>,
    bodies: Bodies,
}

impl Router {
    fn open(alloc: Global, window: usize, bodies: Bodies) -> Option<Router> {
        let limits = Limits::new(1_048_576, window, 1_048_576, 1_000_000, 0)?;
        let mut sent = Vec::with_capacity(alloc, window).ok()?;
        for _ in 0..=window {
            sent.push(0).ok()?;
        }
        Some(Router {
            down: ServerSession::open(alloc, 1, 1, limits).ok()?,
            up: ClientSession::open(alloc, 1, InitMode::Plain, limits).ok()?,
            sent,
            bodies,
        })
    }

    // The client sends a dispatch on this tag, and the server has it.
    fn send(&mut self, tag: u32) -> Option<()> {
        if tag > MAX_TAG {
            return None;
        }
        let frame = Frame::read(2, tag, Bytes::from_static(self.bodies.dispatch));
        let taken = self.down.frame(frame, 0);
        let Ok(DownStep::Take(ticket)) = taken else {
            return None;
        };
        let placed = self.up.offer(ticket, 0).ok()?;
        let _recall = self.down.note(placed).ok()?;
        let out = self.up.take_out()?;
        let place = self.sent.get_mut(tag as usize)?;
        *place = out.tag();
        Some(())
    }

    // The server answers what the client sent on this tag, and the client has the reply.
    fn answer(&mut self, tag: u32) -> Option<u32> {
        let sent = *self.sent.get(tag as usize)?;
        if sent > MAX_TAG {
            return None;
        }
        let reply = Frame::read(-2, sent, Bytes::from_static(self.bodies.reply));
        let settled = self.up.frame(reply, 0);
        let Ok(UpStep::Settled(settled)) = settled else {
            return None;
        };
        let _answer = self.down.settle(settled).ok()?;
        let out = self.down.take_out()?;
        Some(out.tag())
    }

    // Answers a dispatch, and sends the next on its tag.
    fn turn(&mut self, tag: u32) -> Option<u32> {
        let answered = self.answer(tag)?;
        self.send(tag)?;
        Some(answered)
    }
}

/// `window` dispatches are held. The one that is answered is the newest of them, or any.
pub fn run<R: Clock + Print + AllocGlobal>(
    rt: &R,
    rounds: Rounds,
    bodies: Bodies,
    window: u32,
    is_any: bool,
) -> io::Result<()> {
    let Some(mut router) = Router::open(rt.alloc(), window as usize, bodies) else {
        return println!(rt; "both: memory");
    };
    for tag in 1..=window {
        let _sent = router.send(tag);
    }
    let start = Instant::now(rt)?;
    let mut seed = 1;
    let mut sum: u64 = 0;
    for _ in 0..rounds.session {
        seed = next_seed(seed);
        let any = ((seed >> 40) as u32) % window.max(1) + 1;
        let tag = if is_any { any } else { window };
        let Some(answered) = router.turn(tag) else {
            break;
        };
        sum = sum.wrapping_add(u64::from(answered));
    }
    let spent = start.elapsed(rt)?;
    let which = if is_any { "any held" } else { "the newest" };
    println!(rt; "window {window}, {which}")?;
    rounds.tell(
        rt,
        "both sessions, there and back",
        rounds.session,
        spent,
        sum,
    )
}
