//! A tag given back and one taken, in a full pool.

use crate::rounds::{Rounds, next_seed};
use std::io;
use std::rt::Clock;
use std::time::Instant;
use tag_pool::TagPool;

pub fn run<R: Clock + Print + AllocGlobal>(rt: &R, rounds: Rounds) -> io::Result<()> {
    let Ok(mut pool) = TagPool::<u64>::with_room(rt.alloc(), rounds.held as usize) else {
        return println!(rt; "pool: memory");
    };
    for entry in 0..u64::from(rounds.held) {
        let _taken = pool.take(entry);
    }
    let start = Instant::now(rt)?;
    let mut seed = 1;
    let mut sum: u64 = 0;
    for _ in 0..rounds.pool {
        seed = next_seed(seed);
        let tag = ((seed >> 48) as u32) % rounds.held.max(1) + 2;
        let Some(entry) = pool.give(tag) else {
            continue;
        };
        if let Ok(taken) = pool.take(entry ^ seed) {
            sum = sum.wrapping_add(u64::from(taken));
        }
    }
    let spent = start.elapsed(rt)?;
    rounds.tell(rt, "pool, give and take", rounds.pool, spent, sum)
}
