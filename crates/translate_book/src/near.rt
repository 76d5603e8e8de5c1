//! Where the table of a map keeps a number.

ghost use Rattle.std.specs.Prelude.{◌≡◌};

use std::hash::{BuildHasherDefault, Hasher};

/// Spreads runs of 64 numbers over the table of a map: the golden ratio, times 2^16. With it runs in a row stand one
/// or two places apart, and two at a distance that is a power of two seldom meet.
const SPREAD: u64 = 0x1_9e37;

/// Keeps numbers that follow one another together: 64 of them share eight lines of a map's table, eight a line. So
/// the few dispatches that a client has open at once are found in lines that the processor's cache holds.
#[derive(Clone, Copy, Drop)]
pub struct NearHasher(u64);

impl Default for NearHasher {
    ghost is_default = { λ s. s ≡ record { 0 = 0 } };

    fn default() -> NearHasher {
        NearHasher(0)
    }
}

impl Hasher for NearHasher {
    ghost use Rattle.std.specs.Prelude.{fold};
    ghost use Rattle.translate_book.specs.Near.{near, next_of};

    ghost write = { λ s bytes. record { 0 = fold next_of s.0 bytes } };

    ghost finish = { λ s. near s.0 };

    #[inline(always)]
    fn finish(&self) -> u64 {
        let number = self.0 % 0x1_0000_0000 + self.0 / 0x1_0000_0000;
        let run = (number / 64).wrapping_mul(SPREAD) / 0x1_0000 % 0x1_0000;
        number / 8 % 8 + run * 8 + number % 256 * 0x100_0000
    }

    // The first bytes come to stand behind the last ones: of a number of four bytes as of one of eight.
    #[inline(always)]
    fn write(&mut self, bytes: &[u8]) {
        let mut state = self.0;
        for b in bytes {
            state = state / 256 + *b as u64 * 0x100_0000_0000_0000;
        }
        self.0 = state;
    }

    // A map feeds a key by one of these two. They do at once what `write` does byte by byte.
    #[inline(always)]
    fn write_u64(&mut self, number: u64) {
        // Eight bytes push the old state out. It is read all the same: the proof takes from this that it fits in 64 bits.
        let _state = self.0;
        self.0 = number;
    }

    #[inline(always)]
    fn write_u32(&mut self, number: u32) {
        self.0 = self.0 / 0x1_0000_0000 + number as u64 * 0x1_0000_0000;
    }
}

/// Makes the hasher of a map whose keys follow one another.
pub type Near = BuildHasherDefault<NearHasher>;
