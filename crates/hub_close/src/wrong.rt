//! Receipts against histories.
ghost use Rattle.std.specs.Prelude.{◌≡◌, ◌<◌, ◌≤◌, Some, true, false, count_by, length, slice_get, take, IfNone, IfSome};
ghost use Rattle.hub_close.specs.Packing.{is_mark, stubs};
ghost use Rattle.hub_close.specs.Receipts.{AreRightFrom, IsFirstWrongFrom, IsAbove, IsBelow, StandAllFrom, Rise, StandsFrom};
ghost use Rattle.hub_close.specs.declared.receipt.Stub.{Stub};

use crate::packed::Packed;
use crate::receipt::Stub;
use crate::receipts::Receipts;
use mux_history::History;

/// The place of the first receipt whose place in these epochs doesn't hold its record, or that isn't
/// above the one before it by epoch and place; none, if there is no such receipt. The first of the
/// epochs has the number `first`: earlier ones may have been given up. A receipt of an epoch that isn't
/// among them is wrong.
pub fn first_wrong_from(first: u32, epochs: &[History], receipts: &Receipts) -> Option<usize>
    ensures stand { IfNone result (StandAllFrom first epochs.now receipts.now.list) }
    ensures rise { IfNone result (Rise receipts.now.list) }
    ensures some { IfSome result (IsFirstWrongFrom first epochs.now receipts.now.list) }
{
    receipts.first_wrong(first, epochs)
}

/// A place among receipts in two lists, and how many marks stand before it.
#[derive(Clone, Copy)]
pub(crate) struct Place {
    pub(crate) at: usize,
    pub(crate) marks: usize,
}

/// The place of the first wrong one of the receipts that lie in these two lists.
pub(crate) fn first_wrong_of(
    first: u32,
    epochs: &[History],
    boot: u64,
    packed: &[Packed],
    whole: &[Stub],
) -> Option<Place>
    requires { count_by is_mark packed.now ≡ length whole.now }
    ensures stand { IfNone result (StandAllFrom first epochs.now (stubs boot packed.now whole.now)) }
    ensures rise { IfNone result (Rise (stubs boot packed.now whole.now)) }
    ensures some { IfSome result (λ p. IsFirstWrongFrom first epochs.now (stubs boot packed.now whole.now) p.at) }
    ensures marks { IfSome result (λ p. (p.at < length packed.now) × (p.marks ≡ count_by is_mark (take p.at packed.now))) }
{
    let mut marks = 0;
    let mut last = None;
    for at in 0..packed.len() {
        let stub = stub_at(boot, packed, whole, Place { at, marks });
        if !stands(first, epochs, &stub) {
            return Some(Place { at, marks });
        }
        if !is_above(last, stub) {
            return Some(Place { at, marks });
        }
        if packed[at].is_mark() {
            marks += 1;
        }
        last = Some(stub);
    }
    None
}

/// The receipt at this place.
pub(crate) fn stub_at(boot: u64, packed: &[Packed], whole: &[Stub], place: Place) -> Stub
    requires within { place.at < length packed.now }
    requires marks { place.marks ≡ count_by is_mark (take place.at packed.now) }
    requires whole { count_by is_mark packed.now ≡ length whole.now }
    ensures { slice_get (stubs boot packed.now whole.now) place.at ≡ Some result }
{
    let packed = &packed[place.at];
    if packed.is_mark() {
        whole[place.marks]
    } else {
        packed.stub(boot)
    }
}

/// Whether the receipt's place holds its record.
fn stands(first: u32, epochs: &[History], receipt: &Stub) -> bool
    ensures yes { result ≡ true → StandsFrom first epochs.now receipt.now }
    ensures no { result ≡ false → ¬ StandsFrom first epochs.now receipt.now }
{
    if receipt.epoch < first {
        return false;
    }
    let Some(epoch) = epochs.get((receipt.epoch - first) as usize) else {
        return false;
    };
    match epoch.records().get(receipt.place) {
        Some(kept) => kept.is(receipt.kept),
        None => false,
    }
}

/// Whether the receipt is above the one before it, if there is one.
fn is_above(last: Option<Stub>, receipt: Stub) -> bool
    ensures yes { result ≡ true → (a : Stub) → last ≡ Some a → IsBelow a receipt }
    ensures no { result ≡ false → (a : Stub) × (last ≡ Some a) × (¬ IsBelow a receipt) }
{
    match last {
        Some(last) => is_below(last, receipt),
        None => true,
    }
}

fn is_below(a: Stub, b: Stub) -> bool
    ensures yes { result ≡ true → IsBelow a b }
    ensures no { result ≡ false → ¬ IsBelow a b }
{
    a.epoch < b.epoch || (a.epoch == b.epoch && a.place < b.place)
}
