//! A receipt in three words.
ghost use Rattle.std.specs.Prelude.{◌≡◌, ◌<◌, ◌^◌, false, true, IfNone, IfSome, IsTrue};
ghost use Rattle.mux_history.specs.Packing.{is_plain};
ghost use Rattle.hub_close.specs.Packing.{Fits, is_mark, kind_in, sort_of, unpack};

use crate::receipt::Stub;
use mux_history::{Name, Record, RecordKind};

// A dispatch's number has so many values, a tag, a reading, a place.
const SEQS: u64 = 1 << 44;

const TAGS: u64 = 1 << 16;

const READINGS: u64 = 1 << 40;

const PLACES: usize = 1 << 24;

const CLIENTS: u64 = 1 << 32;

/// A receipt of a frequent kind with numbers that are small, in 24 bytes, or a mark in the place of any other.
#[derive(Clone, Copy, Debug)]
pub(crate) struct Packed {
    // The number of the dispatch, the tag, the kind: 44 bits, 16, 4.
    name: u64,
    // The reading, and the place: 40 bits, 24.
    time: u64,
    client: u32,
    epoch: u32,
}

impl Packed {
    /// What stands in the place of a receipt that is kept whole.
    pub(crate) fn mark() -> Packed
        ensures { is_mark result ≡ true }
    {
        Packed {
            name: 0,
            time: 0,
            client: 0,
            epoch: 0,
        }
    }

    /// The receipt of a dispatch of this boot; none, if it doesn't fit.
    #[inline(always)]
    pub(crate) fn of(boot: u64, stub: &Stub) -> Option<Packed>
        ensures some { IfSome result (λ p. unpack boot p ≡ stub.now) }
        ensures kept { IfSome result (λ p. is_mark p ≡ false) }
        ensures none { IfNone result (Fits boot stub.now → ⊥) }
    {
        let name = stub.kept.name()?;
        let sort = sort_of(stub.kept.kind());
        let (tag, reading) = (u64::from(stub.kept.tag()), stub.kept.reading());
        if sort == 0 || tag >= TAGS || name.boot != boot || name.client >= CLIENTS {
            return None;
        }
        if name.seq >= SEQS || reading >= READINGS || stub.place >= PLACES {
            return None;
        }
        Some(Packed {
            name: name.seq + (tag + sort * TAGS) * SEQS,
            time: reading + stub.place as u64 * READINGS,
            client: name.client as u32,
            epoch: stub.epoch,
        })
    }

    /// The receipt, which is no mark, of a dispatch of this boot.
    pub(crate) fn stub(&self, boot: u64) -> Stub
        ensures { result ≡ unpack boot self.now }
    {
        let name = Name {
            boot,
            client: u64::from(self.client),
            seq: self.name % SEQS,
        };
        let tag = self.name / SEQS % TAGS;
        let kind = kind_in(self.name / (SEQS * TAGS));
        Stub {
            kept: Record::new(kind, tag as u32, Some(name), self.time % READINGS),
            place: (self.time / READINGS) as usize,
            epoch: self.epoch,
        }
    }

    /// Whether it stands in the place of a receipt that is kept whole.
    pub(crate) fn is_mark(&self) -> bool
        ensures { result ≡ is_mark self.now }
    {
        self.name / (SEQS * TAGS) == 0
    }
}

/// The number of a kind that lies in three words, and 0 for any other.
#[inline(always)]
fn sort_of(kind: RecordKind) -> u64
    ensures value { result ≡ sort_of kind }
    ensures few { result < 5 }
{
    match kind {
        RecordKind::Took => 1,
        RecordKind::TookDrained => 2,
        // The reply is an Rdispatch.
        RecordKind::Settled(-2) => 3,
        RecordKind::SettledNack => 4,
        _ => 0,
    }
}

fn kind_in(sort: u64) -> RecordKind
    ensures value { result ≡ kind_in sort }
    ensures plain { IsTrue (is_plain result) }
{
    match sort {
        1 => RecordKind::Took,
        2 => RecordKind::TookDrained,
        3 => RecordKind::Settled(-2),
        _ => RecordKind::SettledNack,
    }
}
