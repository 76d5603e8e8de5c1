//! A pool of tags over a slab, whose key k stands for the tag k + 2.
ghost use Rattle.std.specs.Prelude.{◌≡◌, ◌<◌, ◌≤◌, ◌+◌, ◌↔◌, IsOk, IfOk, IfErr, OnErr, IsTrue, IfNone, IfSome, IsSome, ℕ};
ghost use Rattle.std.specs.Option.{option_copied, option_copied_mut};
ghost use Rattle.std.specs.FinMap as map;
ghost use Rattle.slab.specs.Slab as slab;

use crate::fault::{Full, PoolFault};
use slab::Slab;
use std::alloc::Global;
use std::marker::Model;

const FIRST_TAG: u32 = 2;

/// The greatest tag of 23 bits.
const LAST_TAG: u32 = 8_388_607;

/// How many tags there are: those from `FIRST_TAG` to `LAST_TAG`.
const TAGS: usize = (LAST_TAG - FIRST_TAG) as usize + 1;

/// Contracts see the entries by tag, and how many of them there is room for.
#[derive(Drop)]
pub struct TagPool<E> {
    slots: Slab<E>,
    room: usize,
    // No key below it is held.
    low: usize,
}

impl<E> Model for TagPool<E> {
    ghost use Rattle.std.specs.Prelude.{◌≤◌};
    ghost use Rattle.slab.specs.Slab.{slab_len};
    ghost use Rattle.tag_pool.specs.Pool.{Pool, held_in, pool_code, VacantBelow};
    ghost use Rattle.tag_pool.specs.declared.pool.TheConstants.{TAGS};

    ghost Value = { Pool E };

    ghost coded = { pool_code E.code };

    ghost view = { λ p. record { entries = held_in p.slots.slots; room = p.room } };

    ghost invariant = { λ p. (slab_len p.slots ≤ p.room) × (p.room ≤ p.slots.capacity) × (p.slots.capacity ≤ TAGS)
        × VacantBelow p.slots p.low };
}

impl<E: Drop> TagPool<E> {
    ghost use Rattle.tag_pool.specs.Lends.{lends_entry, lends_held};
    ghost use Rattle.std.specs.Borrow.{sem};

    /// An empty pool with room for so many entries, all of it made at once.
    pub fn with_room(alloc: Global, room: usize) -> Result<TagPool<E>, PoolFault>
        ensures ok { IfOk result (λ p. p ≡ record { entries = map.empty; room = room }) }
        ensures too_many { (result ≡ Err PoolFault.TooMany) ↔ (TAGS < room) }
    {
        if room > TAGS {
            return Err(PoolFault::TooMany);
        }
        let Ok(slots) = Slab::with_capacity(alloc, room) else {
            return Err(PoolFault::Memory);
        };
        if slots.capacity() > TAGS {
            return Err(PoolFault::Memory);
        }
        Ok(TagPool {
            slots,
            room,
            low: 0,
        })
    }

    /// Holds the entry under a tag that is not held, and gives it back where the pool is full.
    /// It takes no memory.
    ///
    /// The tag is the one given back last, else the least that was never used. The contract leaves
    /// this open: any tag from `FIRST_TAG` to `LAST_TAG` that is not held will do.
    pub fn take(&mut self, entry: E) -> Result<u32, (Full, E)>
        ensures tag { IfOk result (λ tag. (FIRST_TAG ≤ tag) × (tag ≤ LAST_TAG)) }
        ensures vacant { IfOk result (λ tag. map.get self.old.entries tag ≡ None) }
        ensures taken { IfOk result (λ tag. self.new
            ≡ record self.old { entries = map.insert self.old.entries tag entry }) }

        // It is refused only where all the room is taken.
        ensures succeeds { map.len self.old.entries < self.old.room → IsOk result }
        ensures full { OnErr result (map.len self.old.entries ≡ self.old.room) }
        ensures unchanged { OnErr result (self.new ≡ self.old) }
        ensures back { IfErr result (λ e. e.1 ≡ entry) }
    {
        if self.slots.len() >= self.room {
            return Err((Full, entry));
        }
        let key = self.slots.insert_reserved(entry);
        self.low = self.low.min(key);
        Ok(key as u32 + FIRST_TAG)
    }

    /// Ends the holding of a tag, and gives its entry up. A tag that is not held changes nothing.
    /// It takes no memory.
    pub fn give(&mut self, tag: u32) -> Option<E>
        ensures value { result ≡ map.get self.old.entries tag }
        ensures given { self.new ≡ record self.old { entries = map.remove self.old.entries tag } }
    {
        let _ = &self.slots;
        if tag < FIRST_TAG {
            return None;
        }
        self.slots.try_remove((tag - FIRST_TAG) as usize)
    }

    /// Ends the holding of the least tag that is held, and gives tag and entry up. It takes no
    /// memory.
    ///
    /// Calls with no `take` between them look at each key once in all.
    pub fn pop_first(&mut self) -> Option<(u32, E)>
        ensures none { IfNone result (map.len self.old.entries ≡ 0) }
        ensures unchanged { IfNone result (self.new ≡ self.old) }
        ensures value { IfSome result (λ p. map.get self.old.entries p.0 ≡ Some p.1) }
        ensures least { IfSome result (λ p. (q : ℕ) → q < p.0 → map.get self.old.entries q ≡ None) }
        ensures tag { IfSome result (λ p. (FIRST_TAG ≤ p.0) × (p.0 ≤ LAST_TAG)) }
        ensures given { IfSome result (λ p. self.new ≡ record self.old { entries = map.remove self.old.entries p.0 }) }
    {
        let tag = self.first()?;
        let Some(entry) = self.give(tag) else {
            unreachable!()
        };
        self.low = (tag - FIRST_TAG) as usize + 1;
        Some((tag, entry))
    }

    /// The entry of a tag, if it is held.
    pub fn get(&self, tag: u32) -> Option<&E>
        ensures { option_copied result ≡ map.get self.now.entries tag }
    {
        let _ = &self.slots;
        if tag < FIRST_TAG {
            return None;
        }
        self.slots.get((tag - FIRST_TAG) as usize)
    }

    /// The entry of a tag for writing, if it is held. No other entry changes.
    pub fn get_mut(&mut self, tag: u32) -> Option<&mut E>
        ensures* writes_back { sem 𝓛 (lends_entry E.row self.entry tag result) }
        ensures value { option_copied_mut result ≡ map.get self.old.entries tag }
    {
        if self.get(tag).is_some() {
            Some(self.entry_mut(tag))
        } else {
            None
        }
    }

    fn entry_mut(&mut self, tag: u32) -> &mut E
        requires { IsSome (map.get self.old.entries tag) }
        ensures* writes_back { sem 𝓛 (lends_held E.row self.entry tag result) }
        ensures value { map.get self.old.entries tag ≡ Some result.now }
    {
        &mut self.slots[(tag - FIRST_TAG) as usize]
    }

    /// The least tag that is held.
    pub fn first(&self) -> Option<u32>
        ensures none { IfNone result (map.len self.now.entries ≡ 0) }
        ensures held { IfSome result (λ tag. IsSome (map.get self.now.entries tag)) }
        ensures least { IfSome result (λ tag. (q : ℕ) → q < tag → map.get self.now.entries q ≡ None) }
        ensures tag { IfSome result (λ tag. (FIRST_TAG ≤ tag) × (tag ≤ LAST_TAG)) }
    {
        if self.is_empty() {
            return None;
        }
        let slots = &self.slots;
        // each key is below the capacity, which is at most TAGS
        let key = (self.low..slots.capacity()).find(|key| slots.contains(*key))?;
        Some(key as u32 + FIRST_TAG)
    }

    /// How many tags are held.
    pub fn len(&self) -> usize
        ensures value { result ≡ map.len self.now.entries }
        ensures within { map.len self.now.entries ≤ self.now.room }
    {
        self.slots.len()
    }

    /// No tag is held.
    pub fn is_empty(&self) -> bool
        ensures { IsTrue result ↔ (map.len self.now.entries ≡ 0) }
    {
        self.slots.is_empty()
    }

    /// How many entries the pool can hold.
    pub fn room(&self) -> usize
        ensures { result ≡ self.now.room }
    {
        self.room
    }

    /// The entries as they are stored: key k holds the entry of the tag k + 2, and no other key
    /// holds one.
    pub fn slab(&self) -> &Slab<E>
        ensures held { (key : ℕ) → slab.get result.now key ≡ map.get self.now.entries (key + 2) }
        ensures len { slab.slab_len result.now ≡ map.len self.now.entries }
    {
        &self.slots
    }
}
