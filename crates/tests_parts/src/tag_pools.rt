//! Tags of dispatches: which is taken next, and what is held.

use std::alloc::Global;
use std::test::Fail;
use tag_pool::{Full, PoolFault, TagPool};

/// A step of a pool.
#[derive(Clone, Copy)]
enum Do {
    Take(u8),
    Give(u32),
    Get(u32),
    /// What a key of the slab holds.
    At(usize),
    /// A held entry is changed.
    Put(u32, u8),
    First,
    PopFirst,
    Len,
    Room,
}

/// What it led to.
#[derive(Clone, Copy, PartialEq, Eq)]
enum Told {
    Tag(u32),
    Full(u8),
    Entry(u8),
    Popped(u32, u8),
    Count(usize),
    Nothing,
}

fn entry(found: Option<u8>) -> Told {
    match found {
        Some(entry) => Told::Entry(entry),
        None => Told::Nothing,
    }
}

fn take(pool: &mut TagPool<u8>, entry: u8) -> Told {
    match pool.take(entry) {
        Ok(tag) => Told::Tag(tag),
        Err((Full, entry)) => Told::Full(entry),
    }
}

fn put(pool: &mut TagPool<u8>, tag: u32, entry: u8) -> Told {
    match pool.get_mut(tag) {
        Some(held) => {
            *held = entry;
            Told::Entry(entry)
        }
        None => Told::Nothing,
    }
}

fn first(pool: &TagPool<u8>) -> Told {
    match pool.first() {
        Some(tag) => Told::Tag(tag),
        None => Told::Nothing,
    }
}

fn pop_first(pool: &mut TagPool<u8>) -> Told {
    match pool.pop_first() {
        Some((tag, entry)) => Told::Popped(tag, entry),
        None => Told::Nothing,
    }
}

fn does(pool: &mut TagPool<u8>, step: Do) -> Told {
    match step {
        Do::Take(entry) => take(pool, entry),
        Do::Give(tag) => entry(pool.give(tag)),
        Do::Get(tag) => entry(pool.get(tag).copied()),
        Do::At(key) => entry(pool.slab().get(key).copied()),
        Do::Put(tag, entry) => put(pool, tag, entry),
        Do::First => first(pool),
        Do::PopFirst => pop_first(pool),
        Do::Len => Told::Count(pool.len()),
        Do::Room => Told::Count(pool.room()),
    }
}

/// Plays the steps in a pool with this room. The first that leads to something else is the fault.
fn check(alloc: Global, room: usize, steps: &[(Do, Told)]) -> Result<(), Fail> {
    let mut pool = TagPool::with_room(alloc, room)?;
    for (place, (step, told)) in steps.iter().enumerate() {
        if does(&mut pool, *step) != *told {
            return Err(Fail::from(place));
        }
    }
    Ok(())
}

const POOL_ORDER: &[(Do, Told)] = &[
    (Do::Take(10), Told::Tag(2)),
    (Do::Take(11), Told::Tag(3)),
    (Do::Take(12), Told::Tag(4)),
    (Do::Give(2), Told::Entry(10)),
    (Do::Give(3), Told::Entry(11)),
    (Do::Take(13), Told::Tag(3)),
    (Do::Take(14), Told::Tag(2)),
    (Do::Take(15), Told::Full(15)),
    (Do::At(0), Told::Entry(14)),
    (Do::At(1), Told::Entry(13)),
    (Do::At(2), Told::Entry(12)),
    (Do::At(3), Told::Nothing),
];

#[test]
fn pool_order(rt: HostRuntime) -> Result<(), Fail> {
    check(rt.alloc(), 3, POOL_ORDER)
}

const LEAST_GOES_FIRST: &[(Do, Told)] = &[
    (Do::PopFirst, Told::Nothing),
    (Do::Take(10), Told::Tag(2)),
    (Do::Take(11), Told::Tag(3)),
    (Do::Take(12), Told::Tag(4)),
    (Do::Take(13), Told::Tag(5)),
    (Do::Take(14), Told::Tag(6)),
    (Do::Give(2), Told::Entry(10)),
    (Do::Give(4), Told::Entry(12)),
    (Do::PopFirst, Told::Popped(3, 11)),
    (Do::Get(3), Told::Nothing),
    (Do::PopFirst, Told::Popped(5, 13)),
    (Do::Take(15), Told::Tag(5)),
    (Do::Take(16), Told::Tag(3)),
    (Do::First, Told::Tag(3)),
    (Do::PopFirst, Told::Popped(3, 16)),
    (Do::PopFirst, Told::Popped(5, 15)),
    (Do::PopFirst, Told::Popped(6, 14)),
    (Do::PopFirst, Told::Nothing),
    (Do::Len, Told::Count(0)),
    (Do::Take(17), Told::Tag(6)),
];

#[test]
fn least_goes_first(rt: HostRuntime) -> Result<(), Fail> {
    check(rt.alloc(), 5, LEAST_GOES_FIRST)
}

const ENTRIES_BY_TAG: &[(Do, Told)] = &[
    (Do::Len, Told::Count(0)),
    (Do::First, Told::Nothing),
    (Do::Take(20), Told::Tag(2)),
    (Do::Take(30), Told::Tag(3)),
    (Do::Put(3, 31), Told::Entry(31)),
    (Do::Put(4, 41), Told::Nothing),
    (Do::Get(3), Told::Entry(31)),
    (Do::Get(2), Told::Entry(20)),
    (Do::Get(0), Told::Nothing),
    (Do::Give(0), Told::Nothing),
    (Do::Get(1), Told::Nothing),
    (Do::Give(1), Told::Nothing),
    (Do::Get(4), Told::Nothing),
    (Do::Give(4), Told::Nothing),
    (Do::First, Told::Tag(2)),
    (Do::Give(2), Told::Entry(20)),
    (Do::First, Told::Tag(3)),
    (Do::Len, Told::Count(1)),
    (Do::Room, Told::Count(2)),
];

#[test]
fn entries_by_tag(rt: HostRuntime) -> Result<(), Fail> {
    check(rt.alloc(), 2, ENTRIES_BY_TAG)
}

const TAKEN_FROM_MANY: &[(Do, Told)] = &[(Do::Take(7), Told::Tag(2))];

#[test]
fn room_one(rt: HostRuntime) -> Result<(), Fail> {
    check(rt.alloc(), 1, &[(Do::Room, Told::Count(1))])?;
    check(rt.alloc(), 8_388_606, TAKEN_FROM_MANY)?;
    let refused = TagPool::<u8>::with_room(rt.alloc(), 8_388_607);
    assert_eq!(rt; refused.err(), Some(PoolFault::TooMany));
    Ok(())
}
