//! Values in hand, by their numbers.

ghost use Rattle.std.specs.Prelude.{◌≡◌, ◌<◌, ◌≤◌, ◌^◌, ◌-◌, ◌+◌, ◌++◌, ℕ, length, true, false, set};
ghost use Rattle.std.specs.Prelude.{vec_len, vec_capacity, option_copied, IfSome};
ghost use Rattle.std.specs.Option.{option_map};
ghost use Rattle.mux_model.specs.World.{numbered};
ghost use Rattle.mux_model.specs.Events.{hand_at};
ghost use Rattle.core_world.specs.Calls.{held_in};
ghost use Rattle.core_world.specs.Cores.{note_of};
ghost use Rattle.router_core.specs.Bags.{FoundAt, IsRising, Rises, TakenOut, hand_of, hands_of};

use core_world::{Gave, Held, Note};

/// The place of a value in hand. Where the value was used up the place stays, so that no other
/// moves, until room is made.
#[derive(Drop)]
pub struct Item {
    pub number: u64,
    pub held: Option<Held>,
}

/// Room for one more value and its number, if there is memory and a number. Places are given up
/// only where none is free, and then as many values fit as are in hand.
fn make_room(hands: &mut Vec<Item>, next: u64) -> bool
    ensures hands { hands_of hands.new.items ≡ hands_of hands.old.items }
    ensures rises { (n : ℕ) → Rises 0 hands.old.items n → Rises 0 hands.new.items n }
    ensures room { result ≡ true → (vec_len hands.new < vec_capacity hands.new) × (next < 2 ^ 64 - 1) }
{
    if next == u64::MAX {
        return false;
    }
    if hands.len() < hands.capacity() {
        return true;
    }
    hands.retain(|item| item.held.is_some());
    hands.reserve(hands.len().max(1)).is_ok()
}

/// The same for an event that may give a value; any other finds room as it is.
pub fn has_room(hands: &mut Vec<Item>, next: u64, grows: bool) -> bool
    ensures hands { hands_of hands.new.items ≡ hands_of hands.old.items }
    ensures rises { (n : ℕ) → Rises 0 hands.old.items n → Rises 0 hands.new.items n }
    ensures room { result ≡ true → grows ≡ true → (vec_len hands.new < vec_capacity hands.new) × (next < 2 ^ 64 - 1) }
    ensures none { result ≡ false → grows ≡ true }
{
    !grows || make_room(hands, next)
}

/// A value that was given goes to the others, under the next number.
pub fn keep(hands: &mut Vec<Item>, next: &mut u64, gave: Gave) -> Note
    requires { IfSome gave.given (λ h. (vec_len hands.old < vec_capacity hands.old) × (next.old < 2 ^ 64 - 1)) }
    ensures hands { hands_of hands.new.items ≡ hands_of hands.old.items ++ numbered next.old (held_in gave) }
    ensures rises { Rises 0 hands.old.items next.old → Rises 0 hands.new.items next.new }
    ensures note { result ≡ note_of next.old gave }
    ensures next { next.new ≡ next.old + length (held_in gave) }
{
    let Gave { told, given } = gave;
    let Some(held) = given else {
        return Note::Told { told, hand: None };
    };
    let number = *next;
    let shown = held.shown(number);
    hands.push_reserved(Item {
        number,
        held: Some(held),
    });
    *next = number + 1;
    Note::Told {
        told,
        hand: Some(shown),
    }
}

/// Where the value of this number is.
pub fn place_of(hands: &[Item], number: u64) -> Option<usize>
    requires { IsRising hands.now }
    ensures { FoundAt number hands.now result }
{
    let Ok(place) = hands.binary_search_by_key(&number, |item| item.number) else {
        return None;
    };
    match &hands[place].held {
        Some(_) => Some(place),
        None => None,
    }
}

/// The value of this number.
pub fn find(hands: &[Item], number: u64) -> Option<&Held>
    requires { IsRising hands.now }
    ensures { option_map (hand_of number) (option_copied result) ≡ hand_at number (hands_of hands.now) }
{
    let Some(place) = place_of(hands, number) else {
        return None;
    };
    hands[place].held.as_ref()
}

/// Takes the value of this number out, and gives the place that it leaves.
pub fn take_out(hands: &mut Vec<Item>, number: u64) -> Option<(usize, Held)>
    requires { IsRising hands.old.items }
    ensures taken { TakenOut number hands.old.items hands.new.items result }
    ensures len { vec_len hands.new ≡ vec_len hands.old }
    ensures capacity { vec_capacity hands.new ≡ vec_capacity hands.old }
{
    let Some(place) = place_of(hands, number) else {
        return None;
    };
    let Some(held) = hands[place].held.take() else {
        unreachable!()
    };
    Some((place, held))
}

/// Puts a value back where it was.
pub fn put_back(hands: &mut Vec<Item>, place: usize, number: u64, held: Held)
    requires { place < vec_len hands.old }
    ensures { hands.new.items ≡ set hands.old.items place (record { number = number; held = Some held }) }
{
    hands[place] = Item {
        number,
        held: Some(held),
    };
}
