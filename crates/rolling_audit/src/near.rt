//! Where the table of a map keeps a dispatch.

ghost use Rattle.std.specs.Prelude.{◌≡◌};

use std::hash::{BuildHasherDefault, Hasher};

/// Odd, and of no pattern: 2^64 over the golden ratio.
const SPREAD: u64 = 0x9e37_79b9_7f4a_7c15;

/// Keeps the dispatches of a client that follow one another side by side, in runs of 16, so that what an audit meets
/// next has been fetched. Nobody chooses the numbers: a client's dispatches are counted.
#[derive(Clone, Copy, Drop)]
pub struct NearHasher(u64);

impl Default for NearHasher {
    ghost is_default = { λ s. s ≡ record { 0 = 0 } };

    fn default() -> NearHasher {
        NearHasher(0)
    }
}

impl Hasher for NearHasher {
    ghost use Rattle.rolling_audit.specs.Near.{mixed, near};

    ghost write = { λ s bytes. record { 0 = mixed s.0 bytes } };

    ghost finish = { λ s. near s.0 };

    #[inline(always)]
    fn finish(&self) -> u64 {
        let run = (self.0 / 16).wrapping_mul(SPREAD);
        self.0 % 16 + run / 0x1000_0000_0000 * 16 + run / 0x10_0000_0000 % 256 * 0x100_0000
    }

    #[inline(always)]
    fn write(&mut self, bytes: &[u8]) {
        let mut number = 0u64;
        for b in bytes {
            number = number / 256 + *b as u64 * 0x100_0000_0000_0000;
        }
        self.0 = self.0.wrapping_mul(SPREAD).wrapping_add(number);
    }

    // A map feeds both parts of a key by this one. It does at once what `write` does byte by byte.
    #[inline(always)]
    fn write_u64(&mut self, number: u64) {
        self.0 = self.0.wrapping_mul(SPREAD).wrapping_add(number);
    }
}

/// Makes the hasher of a map whose keys are a client and a number.
pub type Near = BuildHasherDefault<NearHasher>;
