//! How long the parts run, and what is printed of it.

use std::io;
use std::rt::Clock;
use std::time::Duration;

#[derive(Clone, Copy)]
pub struct Rounds {
    pub held: u32,
    pub pool: u64,
    pub book: u64,
    pub session: u64,
    is_timed: bool,
}

impl Rounds {
    pub fn long() -> Rounds {
        Rounds {
            held: 65_536,
            pool: 20_000_000,
            book: 2_000_000,
            session: 100_000,
            is_timed: true,
        }
    }

    pub fn brief() -> Rounds {
        Rounds {
            held: 64,
            pool: 1_000,
            book: 1_000,
            session: 100,
            is_timed: false,
        }
    }

    /// Prints a part's check sum, and the time of a call where it is asked for.
    pub fn tell<R: Clock + Print>(
        self,
        rt: &R,
        part: &str,
        calls: u64,
        spent: Duration,
        sum: u64,
    ) -> io::Result<()> {
        if !self.is_timed || calls == 0 {
            return println!(rt; "{part}: sum {sum}");
        }
        let each = spent.as_nanos() / u128::from(calls);
        println!(rt; "{part}: {each} ns a call, sum {sum}")
    }
}

/// The next of the numbers that choose an entry.
pub fn next_seed(seed: u64) -> u64 {
    seed.wrapping_mul(6_364_136_223_846_793_005)
        .wrapping_add(1_442_695_040_888_963_407)
}
