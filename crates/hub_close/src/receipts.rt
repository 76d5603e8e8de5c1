//! The receipts of a seat.
ghost use Rattle.std.specs.Prelude.{ℕ, List, ◌≡◌, ◌+◌, ◌<◌, ◌≤◌, [], ◌∷◌, ◌++◌, ◌==◌, true, count_by, drop, length, nat_le, nat_lt, take, vec_capacity, IfErr, IfNone, IfOk, IfSome, OnOk, OnErr};
ghost use Rattle.hub_close.specs.Packing.{is_mark, stubs};
ghost use Rattle.hub_close.specs.Receipts.{IsFirstWrongFrom, Rise, Settles, StandAllFrom, is_behind};
ghost use Rattle.hub_close.specs.declared.receipt.Stub.{Stub};
ghost use Rattle.hub_close.specs.Receiving.{Receiving};

use crate::packed::Packed;
use crate::receipt::Stub;
use crate::wrong::{Place, first_wrong_of, stub_at};
use mux_history::History;
use std::alloc::{AllocError, Global};
use std::marker::Model;

/// What a seat keeps of its receipts, the oldest first, in room that is made before they come.
///
/// Contracts see the receipts, for how many there is room, and by how many it grows. Most lie packed; for each
/// other one there is a mark, and it stands whole in a list of its own.
#[derive(Drop)]
pub struct Receipts {
    // The boot of those that lie packed.
    boot: u64,
    packed: Vec<Packed>,
    whole: Vec<Stub>,
    room: usize,
    step: usize,
}

impl Model for Receipts {
    ghost use Rattle.std.specs.Prelude.{◌≡◌, ◌≤◌, count_by, length, vec_capacity};
    ghost use Rattle.hub_close.specs.Packing.{is_mark, stubs};
    ghost use Rattle.hub_close.specs.Receiving.{Receiving};

    ghost Value = { Receiving };

    ghost view = { λ r. record { list = stubs r.boot r.packed.items r.whole.items; room = r.room; step = r.step } };

    ghost invariant = { λ r. (r.room ≤ vec_capacity r.packed) × (r.room ≤ vec_capacity r.whole)
        × (count_by is_mark r.packed.items ≡ length r.whole.items) };
}

impl Receipts {
    /// No receipts, and room for so many. Out of memory is the one error.
    pub fn with_room(alloc: Global, room: usize) -> Result<Receipts, AllocError>
        ensures { IfOk result (λ r. r ≡ record { list = []; room = room; step = room }) }
    {
        let packed = Vec::with_capacity(alloc, room)?;
        let whole = Vec::with_capacity(alloc, room)?;
        Ok(Receipts {
            boot: 0,
            packed,
            whole,
            room,
            step: room,
        })
    }

    /// How many receipts there are.
    #[tactic(auto, using(crate::proofs::Lists::stubs_length))]
    pub fn len(&self) -> usize
        ensures { result ≡ length self.now.list }
    {
        self.packed.len()
    }

    /// Whether there is no receipt.
    #[tactic(auto, using(crate::proofs::Lists::stubs_length))]
    pub fn is_empty(&self) -> bool
        ensures { result ≡ (length self.now.list == 0) }
    {
        self.packed.is_empty()
    }

    /// Whether the room is used up.
    #[tactic(auto, using(crate::proofs::Lists::stubs_length))]
    pub fn is_full(&self) -> bool
        ensures { result ≡ nat_le self.now.room (length self.now.list) }
    {
        self.packed.len() >= self.room
    }

    /// Keeps a receipt.
    #[inline(always)]
    #[tactic(auto, using(crate::proofs::Lists::stubs_length))]
    pub fn keep(&mut self, receipt: Stub)
        requires { length self.old.list < self.old.room }
        ensures { self.new ≡ record self.old { list = self.old.list ++ receipt ∷ [] } }
    {
        match Packed::of(self.boot, &receipt) {
            Some(packed) => self.packed.push_reserved(packed),
            None => self.keep_whole(receipt),
        }
    }

    /// Keeps a receipt that doesn't fit.
    #[cold]
    #[inline(never)]
    #[tactic(auto, using(crate::proofs::Lists::stubs_length, crate::proofs::Lists::marks_at_most))]
    fn keep_whole(&mut self, receipt: Stub)
        requires { length self.old.list < self.old.room }
        ensures { self.new ≡ record self.old { list = self.old.list ++ receipt ∷ [] } }
    {
        self.boot = boot_for(
            self.boot,
            self.packed.as_slice(),
            self.whole.as_slice(),
            &receipt,
        );
        self.packed.push_reserved(Packed::mark());
        self.whole.push_reserved(receipt);
    }

    /// The receipt that was kept last.
    #[tactic(auto, using(crate::proofs::Lists::stubs_length))]
    pub fn last(&self) -> Stub
        requires { 0 < length self.now.list }
        ensures { (rs : List Stub) → (r : Stub) → self.now.list ≡ rs ++ r ∷ [] → result ≡ r }
    {
        let (packed, whole) = (self.packed.as_slice(), self.whole.as_slice());
        stub_at(self.boot, packed, whole, last_place(packed, whole))
    }

    /// Makes room for as many more as there was at the beginning. Out of memory is the one error, and
    /// changes nothing.
    pub fn grow(&mut self) -> Result<(), AllocError>
        ensures ok { OnOk result (self.new ≡ record self.old { room = self.old.room + self.old.step }) }
        ensures err { OnErr result (self.new ≡ self.old) }
    {
        let Some(room) = self.room.checked_add(self.step) else {
            return Err(AllocError);
        };
        self.packed.reserve(room.saturating_sub(self.packed.len()))?;
        self.whole.reserve(room.saturating_sub(self.whole.len()))?;
        self.room = room;
        Ok(())
    }

    /// The place of the first that is wrong, as of `first_wrong_from`.
    pub(crate) fn first_wrong(&self, first: u32, epochs: &[History]) -> Option<usize>
        ensures stand { IfNone result (StandAllFrom first epochs.now self.now.list) }
        ensures rise { IfNone result (Rise self.now.list) }
        ensures some { IfSome result (IsFirstWrongFrom first epochs.now self.now.list) }
    {
        let (packed, whole) = (self.packed.as_slice(), self.whole.as_slice());
        let place = first_wrong_of(first, epochs, self.boot, packed, whole)?;
        Some(place.at)
    }

    /// Holds the receipts of these epochs, the first of which has the number `first`, against them, and
    /// drops them. It takes no memory.
    ///
    /// These are all receipts before the first of a later epoch. The error is the place of the first of
    /// them that doesn't stand, which one of an epoch below `first` never does, or isn't above the one
    /// before it, and changes nothing.
    pub fn settle(&mut self, first: u32, epochs: &[History]) -> Result<(), usize>
        ensures settled { OnOk result (Settles first epochs.now self.old.list self.new.list) }
        ensures same { OnOk result (self.new ≡ record self.old { list = self.new.list }) }
        ensures wrong { IfErr result (IsFirstWrongFrom first epochs.now self.old.list) }
        ensures within { IfErr result (λ at. is_behind (first + length epochs.now) (drop at self.old.list) ≡ true) }
        ensures err { OnErr result (self.new ≡ self.old) }
    {
        let (packed, whole) = (self.packed.as_slice(), self.whole.as_slice());
        match first_wrong_of(first, epochs, self.boot, packed, whole) {
            None => {
                self.packed.clear();
                self.whole.clear();
                Ok(())
            }
            Some(place) => {
                // A receipt of a later epoch doesn't stand in these.
                let receipt = stub_at(self.boot, packed, whole, place);
                if is_before(receipt.epoch, first, epochs.len()) {
                    return Err(place.at);
                }
                drop_fronts(&mut self.packed, &mut self.whole, place);
                Ok(())
            }
        }
    }
}

/// The boot of receipts that lie packed: the one of this receipt's dispatch, as long as there are none.
fn boot_for(boot: u64, packed: &[Packed], whole: &[Stub], receipt: &Stub) -> u64
    requires { count_by is_mark packed.now ≡ length whole.now }
    ensures { stubs result packed.now whole.now ≡ stubs boot packed.now whole.now }
{
    if packed.len() != whole.len() {
        return boot;
    }
    match receipt.kept.name() {
        Some(name) => name.boot,
        None => boot,
    }
}

/// The place of the last receipt.
#[tactic(auto, using(crate::proofs::Lists::marks_last))]
fn last_place(packed: &[Packed], whole: &[Stub]) -> Place
    requires some { 0 < length packed.now }
    requires whole { count_by is_mark packed.now ≡ length whole.now }
    ensures at { result.at + 1 ≡ length packed.now }
    ensures marks { result.marks ≡ count_by is_mark (take result.at packed.now) }
{
    let at = packed.len() - 1;
    if packed[at].is_mark() {
        return Place {
            at,
            marks: whole.len().saturating_sub(1),
        };
    }
    Place {
        at,
        marks: whole.len(),
    }
}

/// Drops all receipts before this place.
fn drop_fronts(packed: &mut Vec<Packed>, whole: &mut Vec<Stub>, place: Place)
    requires within { place.at ≤ length packed.old.items }
    requires marks { place.marks ≡ count_by is_mark (take place.at packed.old.items) }
    requires whole { count_by is_mark packed.old.items ≡ length whole.old.items }
    ensures list { (boot : ℕ) → stubs boot packed.new.items whole.new.items
        ≡ drop place.at (stubs boot packed.old.items whole.old.items) }
    ensures marks { count_by is_mark packed.new.items ≡ length whole.new.items }
    ensures room { (vec_capacity packed.new ≡ vec_capacity packed.old) × (vec_capacity whole.new ≡ vec_capacity whole.old) }
{
    drop_front(packed, place.at);
    drop_front(whole, place.marks);
}

/// Drops so many of the oldest. The others move to the front of the room.
fn drop_front<T: Copy>(list: &mut Vec<T>, count: usize)
    requires { count ≤ length list.old.items }
    ensures items { list.new.items ≡ drop count list.old.items }
    ensures capacity { vec_capacity list.new ≡ vec_capacity list.old }
{
    if count == 0 {
        return;
    }
    list.copy_within(count.., 0);
    list.truncate(list.len() - count);
}

/// Whether the epoch is below the first one behind these `count`.
fn is_before(epoch: u32, first: u32, count: usize) -> bool
    ensures { result ≡ nat_lt epoch (first + count) }
{
    epoch < first || ((epoch - first) as usize) < count
}
