//! The entries of a book by rising number. Those that left the book stay in their places until
//! they are half of all and more than a few, and go then at once.

ghost use Rattle.std.specs.Prelude.{◌≡◌, ℕ, ◌+◌, ◌≤◌, ◌<◌, Some, None, length, slice_get, slice_index_or, vec_len, vec_capacity, IfNone, IfSome, IsSomeAnd, IsTrue};
ghost use Rattle.std.specs.Option.{option_map};
ghost use Rattle.translate_book.specs.Book.{held_in, entry_at, changed, Rises};
ghost use Rattle.translate_book.specs.Entries.{is_held, applied, freed, effect_of};

use crate::entry::{Change, Effect, Entry};
use crate::hints::Hints;

/// So many entries that left stay, as long as others are in the book.
const FEW: usize = 64;

/// Cuts off the entries that left the book. The others stay, in their order, and get a hint each.
#[cold]
#[inline(never)]
fn cut_off(entries: &mut Vec<(u64, Entry)>, hints: &mut Hints)
    ensures after { entries.new.items ≡ held_in entries.old.items }
    ensures room { vec_capacity entries.new ≡ vec_capacity entries.old }
{
    let mut place: usize = 0;
    entries.retain(
        |pair|
            ensures { result ≡ is_held pair.now.1 }
        {
            let held = pair.1.is_held();
            if held {
                hints.keep(pair.0, place);
                place = place.wrapping_add(1);
            }
            held
        },
    );
}

/// Cuts off the entries that left the book, once they are half of all and more than a few; `held` are in it, and at
/// most `room`.
#[inline(always)]
fn trim(entries: &mut Vec<(u64, Entry)>, hints: &mut Hints, held: usize, room: usize)
    requires count { held ≡ length (held_in entries.old.items) }
    requires full { held ≤ room }
    ensures same { held_in entries.new.items ≡ held_in entries.old.items }
    ensures count { held ≡ length (held_in entries.new.items) }
    ensures tail { vec_len entries.new ≤ held + room }
    ensures room { vec_capacity entries.new ≡ vec_capacity entries.old }
    ensures rises { (high : ℕ) → Rises 0 entries.old.items high → Rises 0 entries.new.items high }
{
    if held <= entries.len() / 2 {
        trim_half(entries, hints, held, room);
    }
}

/// The same where half of all have left.
#[cold]
#[inline(never)]
fn trim_half(entries: &mut Vec<(u64, Entry)>, hints: &mut Hints, held: usize, room: usize)
    requires { held ≡ length (held_in entries.old.items) }
    ensures same { held_in entries.new.items ≡ held_in entries.old.items }
    ensures count { held ≡ length (held_in entries.new.items) }
    ensures tail { vec_len entries.new ≤ held + room }
    ensures room { vec_capacity entries.new ≡ vec_capacity entries.old }
    ensures rises { (high : ℕ) → Rises 0 entries.old.items high → Rises 0 entries.new.items high }
{
    if held == 0 {
        entries.clear();
        return;
    }
    // A client that sends its dispatches together gets their answers together: no few of them are moved.
    if entries.len().saturating_sub(held) >= FEW.min(room) {
        cut_off(entries, hints);
    }
}

/// The entry of a number, in the book or not, and its place.
#[inline(always)]
pub(crate) fn standing(entries: &[(u64, Entry)], guess: usize, seq: u64) -> Option<(usize, &Entry)>
    requires { (high : ℕ) × Rises 0 entries.now high }
    ensures value { option_map (λ r. r.1.now) result ≡ entry_at seq entries.now }
    ensures place { IfSome result (λ r. slice_get entries.now r.0 ≡ Some (seq, r.1.now)) }
{
    if let Some((number, entry)) = entries.get(guess)
        && *number == seq
    {
        return Some((guess, entry));
    }
    let Some(place) = look_up(entries, seq) else {
        return None;
    };
    Some((place, &entries[place].1))
}

/// The place of a number. It gives no reference, which `standing` would keep a place for in memory.
#[cold]
#[inline(never)]
fn look_up(entries: &[(u64, Entry)], seq: u64) -> Option<usize>
    requires { (high : ℕ) × Rises 0 entries.now high }
    ensures none { IfNone result (entry_at seq entries.now ≡ None) }
    ensures place { IfSome result (λ i. (i < length entries.now)
        × ((d : ℕ × Entry) → (slice_index_or entries.now i d).0 ≡ seq)) }
{
    let Ok(place) = entries.binary_search_by_key(&seq, |pair| pair.0) else {
        return None;
    };
    Some(place)
}

/// What a change of an entry did to the book.
#[derive(Drop)]
pub(crate) struct Step {
    /// How many entries are left.
    pub held: usize,
    /// The tag of the entry, where it was open and isn't any more.
    pub freed: Option<u32>,
    pub effect: Effect,
}

/// Changes the entry at a place, which is in the book; `held` are in it, and at most `room`.
#[inline(always)]
pub(crate) fn change_held(
    entries: &mut Vec<(u64, Entry)>,
    hints: &mut Hints,
    held: usize,
    room: usize,
    place: usize,
    change: Change,
) -> Step
    requires count { held ≡ length (held_in entries.old.items) }
    requires full { held ≤ room }
    requires there { IsSomeAnd (slice_get entries.old.items place) (λ p. IsTrue (is_held p.1)) }
    requires rises { (high : ℕ) × Rises 0 entries.old.items high }
    ensures after { IfSome (slice_get entries.old.items place) (λ p.
        held_in entries.new.items ≡ changed p.0 (applied change) (held_in entries.old.items)) }
    ensures found { IfSome (slice_get entries.old.items place) (λ p.
        entry_at p.0 (held_in entries.old.items) ≡ Some p.1) }
    ensures step { IfSome (slice_get entries.old.items place) (λ p.
        (result.effect ≡ effect_of change p.1) × (result.freed ≡ freed change p.1)) }
    ensures count { result.held ≡ length (held_in entries.new.items) }
    ensures fewer { result.held ≤ held }
    ensures tail { vec_len entries.new ≤ result.held + room }
    ensures room { vec_capacity entries.new ≡ vec_capacity entries.old }
    ensures rises { (high : ℕ) → Rises 0 entries.old.items high → Rises 0 entries.new.items high }
{
    let entry = &mut entries[place].1;
    let was = entry.dues();
    let was_open = entry.is_open();
    let reason = entry.apply(change);
    let freed = (was_open && !entry.is_open()).then_some(entry.tag);
    let held = if entry.is_held() { held } else { held - 1 };
    let is = entry.dues();
    trim(entries, hints, held, room);
    Step {
        held,
        freed,
        effect: Effect { was, is, reason },
    }
}
