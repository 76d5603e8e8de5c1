//! Where the entries of a book stood when those that left were last cut off.

use std::alloc::{AllocError, Global};

/// No more places are asked for.
const MOST: usize = 0x100_0000_0000;

/// The places of entries by the last digits of their numbers. Of numbers that share them the one that
/// was kept last has the hint, so whoever takes a hint looks whose entry stands there.
#[derive(Drop)]
pub(crate) struct Hints {
    places: Vec<u32>,
}

impl Hints {
    /// A hint for each of at least so many numbers in a row.
    pub(crate) fn with_room(alloc: Global, numbers: usize) -> Result<Hints, AllocError> {
        let count = numbers.min(MOST).next_power_of_two();
        let mut places = Vec::with_capacity(alloc, count)?;
        places.resize(count, 0)?;
        Ok(Hints { places })
    }

    /// Where the entry of a number was kept, if no other number has its hint.
    #[inline(always)]
    pub(crate) fn get(&self, seq: u64) -> usize {
        let digits = self.places.len().wrapping_sub(1);
        match self.places.get(seq as usize & digits) {
            Some(place) => *place as usize,
            None => 0,
        }
    }

    /// The entry of a number stands at this place.
    #[inline(always)]
    pub(crate) fn keep(&mut self, seq: u64, place: usize) {
        let digits = self.places.len().wrapping_sub(1);
        if let Some(kept) = self.places.get_mut(seq as usize & digits) {
            *kept = (place % 0x1_0000_0000) as u32;
        }
    }
}
