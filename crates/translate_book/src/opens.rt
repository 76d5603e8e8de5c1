//! The client's tags that are in use.

ghost use Rattle.std.specs.Prelude.{◌≡◌, ℕ, ◌+◌, ◌<◌, ◌≤◌, None, Some, IsSome, IsTrue, IsFalse, cond, nat_eq};
ghost use Rattle.indexmap.specs.IndexMap.{get, spare, index_map_len, IsUnchanged, Updates};
ghost use Rattle.translate_book.specs.Book.{held_in, open_at, open_count, IsOnce};

use crate::entry::Entry;
use crate::near::Near;
use indexmap::IndexMap;
use indexmap::map::Entry as Listed;

/// Lists a tag with the number of its dispatch, if no other has it.
#[inline(always)]
pub(crate) fn take_tag(tags: &mut IndexMap<u32, u64, Near>, tag: u32, seq: u64) -> bool
    requires { 0 < spare tags.old }
    ensures free { IsTrue result → get nat_eq tags.old tag ≡ None }
    ensures listed { IsTrue result → Updates nat_eq tags.old tags.new tag (Some seq) }
    ensures longer { IsTrue result → index_map_len tags.new ≡ index_map_len tags.old + 1 }
    ensures room { IsTrue result → spare tags.old ≤ spare tags.new + 1 }
    ensures taken { IsFalse result → IsSome (get nat_eq tags.old tag) }
    ensures unchanged { IsFalse result → IsUnchanged tags.old tags.new }
    ensures same_room { IsFalse result → spare tags.old ≤ spare tags.new }
{
    match tags.entry(tag) {
        Ok(Listed::Vacant(place)) => {
            let _number = place.insert(seq);
            true
        }
        Ok(Listed::Occupied(place)) => {
            let _number = place.get();
            false
        }
        Err(_) => unreachable!(),
    }
}

/// Takes a tag off the list: it came free, as the entries say.
///
/// A removal from a map may cost room for good, while one that is cleared keeps its room: so the
/// list is made anew where it has no more room than it needs.
#[inline(always)]
pub(crate) fn free_tag(
    tags: &mut IndexMap<u32, u64, Near>,
    tag: u32,
    room: usize,
    entries: &[(u64, Entry)],
)
    requires once { IsOnce (held_in entries.now) }
    requires room { room ≤ index_map_len tags.old + spare tags.old }
    requires fewer { open_count (held_in entries.now) ≤ room }
    requires listed { IsSome (get nat_eq tags.old tag) }
    requires count { index_map_len tags.old ≤ open_count (held_in entries.now) + 1 }
    requires freed { (t : ℕ)
        → open_at t (held_in entries.now) ≡ cond (nat_eq tag t) None (get nat_eq tags.old t) }
    ensures found { (t : ℕ) → get nat_eq tags.new t ≡ open_at t (held_in entries.now) }
    ensures count { index_map_len tags.new ≤ open_count (held_in entries.now) }
    ensures room { room ≤ index_map_len tags.new + spare tags.new }
{
    if tags.capacity() > room {
        let _seq = tags.swap_remove(&tag);
    } else {
        list_open(entries, tags);
    }
}

/// Lists the open entries by their tags, in the room that the list has.
#[cold]
#[inline(never)]
fn list_open(entries: &[(u64, Entry)], tags: &mut IndexMap<u32, u64, Near>)
    requires once { IsOnce (held_in entries.now) }
    requires room { open_count (held_in entries.now) ≤ index_map_len tags.old + spare tags.old }
    ensures found { (t : ℕ) → get nat_eq tags.new t ≡ open_at t (held_in entries.now) }
    ensures count { index_map_len tags.new ≤ open_count (held_in entries.now) }
    ensures room { index_map_len tags.old + spare tags.old ≤ index_map_len tags.new + spare tags.new }
{
    tags.clear();
    let mut i = entries.len();
    while i > 0 {
        i -= 1;
        let (seq, entry) = &entries[i];
        if entry.is_open() {
            let Ok(_) = tags.insert(entry.tag, *seq) else {
                unreachable!()
            };
        }
    }
}
