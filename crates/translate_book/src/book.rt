//! The dispatches of one client.

ghost use Rattle.std.specs.Prelude.{◌≡◌, ℕ, ◌<◌, ◌≤◌, ◌++◌, ◌∷◌, [], None, length, nat_eq, ◌↔◌, IsTrue, IsFalse, IsSome, IfOk, IfNone};
ghost use Rattle.std.specs.Option.{option_copied, option_map};
ghost use Rattle.indexmap.specs.IndexMap.{get};
ghost use Rattle.translate_book.specs.Book.{entry_at, open_at, changed, first_owing, IsOnce, Rises};
ghost use Rattle.translate_book.specs.Entries.{beginning, noting, shutting, answering, unplacing, trying_again, applied, effect_of, recalling, recall_from};

use crate::entry::{Change, Effect, Entry, Place};
use crate::hints::Hints;
use crate::near::Near;
use crate::opens::{free_tag, take_tag};
use crate::recall::Why;
use crate::shelf::{change_held, standing};
use indexmap::IndexMap;
use mux_history::ServerId;
use std::alloc::{AllocError, Global};
use std::marker::Model;

/// The dispatches of one client that wait for their note or their answer, by number and by tag.
///
/// Contracts see the entries by rising number. Each call reads or changes the one entry that it
/// names, and all others stay, in their order; a number that isn't there changes nothing. An
/// entry leaves the book when neither its note nor its answer is due.
///
/// No call after `with_room` takes memory. A call costs about one look-up, but for `first_due`,
/// which looks at the entries up to the one that it finds. A call by which an entry leaves or a
/// tag comes free may go over all entries, which happens so seldom that it costs about a look-up
/// on average: those that left are cut off once they are half of all and more than a few, and the
/// tags in use are listed anew once their map ran out of room.
#[derive(Drop)]
pub struct DownBook {
    entries: Vec<(u64, Entry)>,
    hints: Hints,
    held: usize,
    tags: IndexMap<u32, u64, Near>,
    room: usize,
    last: u64,
}

impl Model for DownBook {
    ghost use Rattle.std.specs.Prelude.{vec_capacity};
    ghost use Rattle.translate_book.specs.Book.{BookView, held_in};
    ghost use Rattle.translate_book.specs.Sound.{IsSound};

    ghost Value = { BookView };

    ghost view = { λ b. record {
      room = b.room;
      last = b.last;
      entries = held_in b.entries.items;
    } };

    ghost invariant = { λ b. IsSound b.entries.items (vec_capacity b.entries) b.held b.tags b.room b.last };
}

impl DownBook {
    /// An empty book with room for so many entries. Out of memory is the one error.
    pub fn with_room(alloc: Global, room: usize) -> Result<DownBook, AllocError>
        ensures { IfOk result (λ b. b ≡ record { room = room; last = 0; entries = [] }) }
    {
        let places = room.checked_mul(2).ok_or(AllocError)?;
        Ok(DownBook {
            entries: Vec::with_capacity(alloc, places)?,
            hints: Hints::with_room(alloc, places)?,
            held: 0,
            tags: IndexMap::with_capacity_and_hasher(alloc, places, Near::new())?,
            room,
            last: 0,
        })
    }

    /// How many entries there are.
    pub fn len(&self) -> usize
        ensures value { result ≡ length self.now.entries }
        ensures within { length self.now.entries ≤ self.now.room }
        ensures rising { Rises 0 self.now.entries self.now.last }
        ensures once { IsOnce self.now.entries }
    {
        self.held
    }

    /// Whether there are no entries.
    pub fn is_empty(&self) -> bool
        ensures { IsTrue result ↔ (self.now.entries ≡ []) }
    {
        self.held == 0
    }

    /// For how many entries there is room.
    pub fn room(&self) -> usize
        ensures { result ≡ self.now.room }
    {
        self.room
    }

    /// The greatest number that was added, or 0.
    pub fn last(&self) -> u64
        ensures { result ≡ self.now.last }
    {
        self.last
    }

    /// The number of the dispatch that is open on a tag.
    #[inline(always)]
    pub fn at_tag(&self, tag: u32) -> Option<u64>
        ensures { result ≡ open_at tag self.now.entries }
    {
        self.tags.get(&tag).copied()
    }

    /// Each tag in use with the number of its dispatch, and no other.
    pub fn open_tags(&self) -> &IndexMap<u32, u64, Near>
        ensures { (t : ℕ) → get nat_eq result.now t ≡ open_at t self.now.entries }
    {
        &self.tags
    }

    /// The entry of the dispatch of this number, if it is in the book.
    pub fn get(&self, seq: u64) -> Option<&Entry>
        ensures { option_copied result ≡ entry_at seq self.now.entries }
    {
        self.get_at(self.index_of(seq), seq)
    }

    /// Where the entry of a number stands now. `get_at` and `change_at` look no entry up that stands
    /// where they are told, and answer the same wherever that is.
    #[inline(always)]
    pub fn index_of(&self, seq: u64) -> usize {
        // Mostly no number is missing behind it.
        let behind = self.last.wrapping_sub(seq);
        let guess = (self.entries.len() as u64)
            .wrapping_sub(behind)
            .wrapping_sub(1) as usize;
        if let Some((number, _)) = self.entries.get(guess)
            && *number == seq
        {
            return guess;
        }
        self.hinted(seq)
    }

    /// Where an entry stands that stayed when others were cut off: by the hint of its number, or by a search
    /// where another number has that.
    #[cold]
    #[inline(never)]
    fn hinted(&self, seq: u64) -> usize {
        match standing(&self.entries, self.hints.get(seq), seq) {
            Some((place, _)) => place,
            None => 0,
        }
    }

    /// The entry of a number, which was seen at this index.
    #[inline(always)]
    pub fn get_at(&self, index: usize, seq: u64) -> Option<&Entry>
        ensures { option_copied result ≡ entry_at seq self.now.entries }
    {
        let (_, entry) = standing(&self.entries, index, seq)?;
        if entry.is_held() { Some(entry) } else { None }
    }

    /// A dispatch was taken on a tag: it is open, its note and its answer are due, and it may be sent
    /// again `left` times.
    pub fn add(&mut self, seq: u64, tag: u32, left: u8)
        requires room { length self.old.entries < self.old.room }
        requires number { self.old.last < seq }
        requires tag { open_at tag self.old.entries ≡ None }
        ensures { self.new ≡ record {
          room = self.old.room;
          last = seq;
          entries = self.old.entries ++ (seq, beginning tag left) ∷ [];
        } }
    {
        let _free = self.try_add(seq, tag, left);
    }

    /// As `add`, unless a dispatch is open on the tag: then nothing changes. It looks the tag up once.
    #[inline(always)]
    pub fn try_add(&mut self, seq: u64, tag: u32, left: u8) -> bool
        requires room { length self.old.entries < self.old.room }
        requires number { self.old.last < seq }
        ensures free { IsTrue result ↔ (open_at tag self.old.entries ≡ None) }
        ensures added { IsTrue result → self.new ≡ record {
          room = self.old.room;
          last = seq;
          entries = self.old.entries ++ (seq, beginning tag left) ∷ [];
        } }
        ensures unchanged { IsFalse result → self.new ≡ self.old }
    {
        if !take_tag(&mut self.tags, tag, seq) {
            return false;
        }
        self.entries.push_reserved((seq, Entry::new(tag, left)));
        self.held += 1;
        self.last = seq;
        true
    }

    /// The place of a dispatch is known.
    pub fn note(&mut self, seq: u64, server: ServerId, tag: u32)
        ensures { self.new ≡ record self.old {
          entries = changed seq (noting (record { server = server; tag = tag })) self.old.entries;
        } }
    {
        let _effect = self.change(seq, Change::Note(Place { server, tag }));
    }

    /// The client has the tag of an open dispatch back; the reason is that of its Tdiscarded.
    pub fn shut(&mut self, seq: u64, why: Option<Why>)
        ensures { self.new ≡ record self.old { entries = changed seq (shutting why) self.old.entries } }
    {
        let _effect = self.change(seq, Change::Shut(why));
    }

    /// The answer isn't due any more, and the dispatch isn't open.
    pub fn answered(&mut self, seq: u64)
        ensures { self.new ≡ record self.old { entries = changed seq answering self.old.entries } }
    {
        let _effect = self.change(seq, Change::Answer);
    }

    /// The dispatch was placed nowhere: neither its note nor its answer is due any more.
    pub fn unplaced(&mut self, seq: u64)
        ensures { self.new ≡ record self.old { entries = changed seq unplacing self.old.entries } }
    {
        let _effect = self.change(seq, Change::Unplace);
    }

    /// The dispatch is to be sent again: its note is due again and its place unknown, and it has one
    /// try less.
    pub fn again(&mut self, seq: u64)
        ensures { self.new ≡ record self.old { entries = changed seq trying_again self.old.entries } }
    {
        let _effect = self.change(seq, Change::Again);
    }

    /// The reason of the recall that a dispatch owes, which is marked as given.
    ///
    /// None if it owes none: it is open, its place isn't known, its answer isn't due, or it
    /// gave its recall.
    pub fn recall(&mut self, seq: u64) -> Option<Why>
        ensures reason { result ≡ recall_from (entry_at seq self.old.entries) }
        ensures given { IsSome result
            → self.new ≡ record self.old { entries = changed seq recalling self.old.entries } }
        ensures none { IfNone result (self.new ≡ self.old) }
    {
        let owes = match self.get(seq) {
            Some(entry) => entry.owes_recall(),
            None => false,
        };
        if !owes {
            return None;
        }
        let Some(effect) = self.change(seq, Change::Recall) else {
            return None;
        };
        effect.reason
    }

    /// The least number whose dispatch owes a recall. It looks at each entry up to that one.
    pub fn first_due(&self) -> Option<u64>
        ensures { result ≡ first_owing self.now.entries }
    {
        for i in 0..self.entries.len() {
            let (seq, entry) = &self.entries[i];
            if entry.owes_recall() {
                return Some(*seq);
            }
        }
        None
    }

    /// Changes the entry of a number by one look-up. None if it isn't there.
    #[inline(always)]
    pub fn change(&mut self, seq: u64, change: Change) -> Option<Effect>
        ensures after { self.new ≡ record self.old { entries = changed seq (applied change) self.old.entries } }
        ensures effect { result ≡ option_map (effect_of change) (entry_at seq self.old.entries) }
    {
        let index = self.index_of(seq);
        self.change_at(index, seq, change)
    }

    /// Changes the entry of a number, which was seen at this index. None if it isn't there.
    #[inline(always)]
    pub fn change_at(&mut self, index: usize, seq: u64, change: Change) -> Option<Effect>
        ensures after { self.new ≡ record self.old { entries = changed seq (applied change) self.old.entries } }
        ensures effect { result ≡ option_map (effect_of change) (entry_at seq self.old.entries) }
    {
        let Some((place, entry)) = standing(&self.entries, index, seq) else {
            return None;
        };
        if !entry.is_held() {
            return None;
        }
        let step = change_held(
            &mut self.entries,
            &mut self.hints,
            self.held,
            self.room,
            place,
            change,
        );
        self.held = step.held;
        if let Some(tag) = step.freed {
            free_tag(&mut self.tags, tag, self.room, &self.entries);
        }
        Some(step.effect)
    }
}
