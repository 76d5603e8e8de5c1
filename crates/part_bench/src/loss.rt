//! A session towards a server that is lost with its window full, dispatch by dispatch.

use crate::bodies::Bodies;
use crate::rounds::Rounds;
use crate::session::offer;
use client_session::ClientSession;
use mux_history::{InitMode, Limits};
use std::io;
use std::rt::Clock;
use std::time::Instant;

/// The last of the calls timed finds that none is left.
pub fn run<R: Clock + Print + AllocGlobal>(
    rt: &R,
    rounds: Rounds,
    bodies: Bodies,
) -> io::Result<()> {
    let Some(limits) = Limits::new(1_048_576, rounds.held as usize, 1_048_576, 1_000_000, 0) else {
        return Ok(());
    };
    let Ok(mut session) = ClientSession::open(rt.alloc(), 1, InitMode::Plain, limits) else {
        return println!(rt; "loss: memory");
    };
    let held = u64::from(rounds.held);
    for seq in 0..held {
        let _tag = offer(&mut session, seq, bodies.dispatch);
    }
    session.lose(0);
    let start = Instant::now(rt)?;
    let mut sum: u64 = 0;
    for _ in 0..=held {
        let Some(lost) = session.lose_next() else {
            break;
        };
        sum = sum.wrapping_mul(3).wrapping_add(lost.name().seq);
    }
    let spent = start.elapsed(rt)?;
    rounds.tell(rt, "session, a dispatch lost", held + 1, spent, sum)
}
