//! A dispatch that leaves a full book, and one that is added.

use crate::rounds::{Rounds, next_seed};
use std::io;
use std::rt::Clock;
use std::time::Instant;
use translate_book::DownBook;

// Adds a dispatch where the book's conditions hold.
fn add(book: &mut DownBook, seq: u64, tag: u32) -> bool {
    let fits = book.len() < book.room() && book.last() < seq && book.at_tag(tag).is_none();
    if fits {
        book.add(seq, tag, 0);
    }
    fits
}

pub fn run<R: Clock + Print + AllocGlobal>(rt: &R, rounds: Rounds) -> io::Result<()> {
    let Ok(mut book) = DownBook::with_room(rt.alloc(), rounds.held as usize) else {
        return println!(rt; "book: memory");
    };
    let mut seq: u64 = 0;
    for tag in 0..rounds.held {
        seq = seq.wrapping_add(1);
        let _added = add(&mut book, seq, tag);
    }
    let start = Instant::now(rt)?;
    let mut seed = 1;
    let mut sum: u64 = 0;
    for _ in 0..rounds.book {
        seed = next_seed(seed);
        let tag = ((seed >> 48) as u32) % rounds.held.max(1);
        let Some(found) = book.at_tag(tag) else {
            continue;
        };
        book.unplaced(found);
        seq = seq.wrapping_add(1);
        if add(&mut book, seq, tag) {
            sum = sum.wrapping_add(found);
        }
    }
    let spent = start.elapsed(rt)?;
    rounds.tell(rt, "book, unplaced and add", rounds.book, spent, sum)
}
