//! Receipts that are held against epochs which ended, and dropped.

use hub_close::{Receipts, Stub};
use mux_history::{History, Name, Record, RecordKind};
use std::alloc::Global;
use std::test::Fail;

fn lost(reading: u64) -> Record {
    Record::new(RecordKind::Lost, 0, None, reading)
}

/// Two epochs, of the records of readings 30 and 31, and of reading 40.
fn two_epochs(alloc: Global) -> Result<[History; 2], Fail> {
    let older = History::of(alloc, &[lost(30), lost(31)])?;
    let newer = History::of(alloc, &[lost(40)])?;
    Ok([older, newer])
}

/// What settling against epochs from this number on leads to: how many receipts stay, or the place of the
/// first that is wrong. Each receipt is its record's reading, its place and its epoch.
fn settled(
    alloc: Global,
    first: u32,
    wanted: &[(u64, usize, u32)],
) -> Result<Result<usize, usize>, Fail> {
    let epochs = two_epochs(alloc)?;
    let mut receipts = Receipts::with_room(alloc, wanted.len())?;
    for &(reading, place, epoch) in wanted {
        let kept = lost(reading);
        if !receipts.is_full() {
            receipts.keep(Stub { kept, place, epoch });
        }
    }
    match receipts.settle(first, &epochs) {
        Ok(()) => Ok(Ok(receipts.len())),
        Err(at) => Ok(Err(at)),
    }
}

#[test]
fn receipts_are_settled(rt: HostRuntime) -> Result<(), Fail> {
    let rows: [(u32, &[(u64, usize, u32)], Result<usize, usize>); 12] = [
        (3, &[], Ok(0)),
        (3, &[(30, 0, 3), (31, 1, 3), (40, 0, 4)], Ok(0)),
        (3, &[(31, 1, 3), (50, 0, 5), (51, 1, 5)], Ok(2)),
        (3, &[(50, 0, 5), (30, 0, 3)], Ok(2)),
        (u32::MAX, &[(30, 0, u32::MAX)], Ok(0)),
        // Of another record, and past the end.
        (3, &[(30, 0, 3), (30, 1, 3)], Err(1)),
        (3, &[(31, 1, 3), (40, 0, 4), (41, 1, 4)], Err(2)),
        (3, &[(30, usize::MAX, 3)], Err(0)),
        // Twice, and falling.
        (3, &[(30, 0, 3), (30, 0, 3), (50, 0, 5)], Err(1)),
        (3, &[(40, 0, 4), (30, 0, 3)], Err(1)),
        // Of epochs before the first.
        (3, &[(30, 0, 2)], Err(0)),
        (4, &[(30, 0, 0), (30, 0, 4)], Err(0)),
    ];
    for (place, (first, receipts, want)) in rows.iter().enumerate() {
        if settled(rt.alloc(), *first, receipts)? != *want {
            return Err(Fail::from(place));
        }
    }
    Ok(())
}

fn took(boot: u64, client: u64, seq: u64, tag: u32, reading: u64) -> Record {
    Record::new(
        RecordKind::Took,
        tag,
        Some(Name { boot, client, seq }),
        reading,
    )
}

fn settled_one(boot: u64, seq: u64, tag: u32, reading: u64) -> Record {
    let name = Name {
        boot,
        client: 1,
        seq,
    };
    Record::new(RecordKind::Settled(-2), tag, Some(name), reading)
}

/// Records whose numbers are the greatest that a packed receipt holds, or one more, and others between.
fn mixed() -> [Record; 18] {
    [
        lost(1),
        took(7, 1, 1, 1, 2),
        took(7, u64::from(u32::MAX), (1 << 44) - 1, 65_535, (1 << 40) - 1),
        took(7, 1 << 32, 2, 2, 3),
        took(7, 1, 1 << 44, 2, 3),
        took(7, 1, 2, 65_536, 3),
        took(7, 1, 2, 2, 1 << 40),
        took(8, 1, 2, 2, 3),
        took(7, u64::MAX, u64::MAX, u32::MAX, u64::MAX),
        settled_one(7, 1, 1, 2),
        settled_one(7, (1 << 44) - 1, 65_535, (1 << 40) - 1),
        lost(2),
        settled_one(7, 1 << 44, 2, 3),
        Record::new(RecordKind::Settled(-128), 2, None, 3),
        Record::new(RecordKind::SettledNack, 2, None, 3),
        Record::new(RecordKind::Leased(u64::MAX), 0, None, 3),
        took(7, 1, 3, 3, 4),
        lost(3),
    ]
}

/// Keeps these, the first of which stand in epoch 3 and the others in epoch 4, and tells the last one each time.
fn kept(alloc: Global, older: &[Record], newer: &[Record]) -> Result<Receipts, Fail> {
    let mut receipts = Receipts::with_room(alloc, older.len() + newer.len())?;
    for (records, epoch) in [(older, 3), (newer, 4)] {
        for (place, kept) in records.iter().enumerate() {
            if receipts.is_full() {
                return Err(Fail::from(place));
            }
            receipts.keep(Stub {
                kept: *kept,
                place,
                epoch,
            });
            if receipts.is_empty() {
                return Err(Fail::from(place));
            }
            let last = receipts.last();
            if !last.kept.is(*kept) || last.place != place || last.epoch != epoch {
                return Err(Fail::from(place));
            }
        }
    }
    Ok(receipts)
}

#[test]
fn receipts_of_all_sizes_are_kept(rt: HostRuntime) -> Result<(), Fail> {
    let records = mixed();
    for cut in 0..=records.len() {
        let (older, newer) = records.split_at(cut);
        let mut receipts = kept(rt.alloc(), older, newer)?;
        let ended = [History::of(rt.alloc(), older)?];
        let last = [History::of(rt.alloc(), newer)?];
        assert_eq!(rt; receipts.settle(3, &ended), Ok(()));
        assert_eq!(rt; receipts.len(), newer.len());
        assert_eq!(rt; receipts.settle(4, &last), Ok(()));
        assert!(rt; receipts.is_empty());
    }
    Ok(())
}

#[test]
fn receipts_of_other_numbers_are_wrong(rt: HostRuntime) -> Result<(), Fail> {
    let records = [took(7, 1, 1, 1, 2), took(7, 2, 3, 4, 5), lost(6)];
    let epochs = [History::of(rt.alloc(), &records)?];
    let others = [
        took(8, 2, 3, 4, 5),
        took(7, 2 + (1 << 32), 3, 4, 5),
        took(7, 2, 3 + (1 << 44), 4, 5),
        took(7, 2, 3, 4 + (1 << 16), 5),
        took(7, 2, 3, 4, 5 + (1 << 40)),
        took(7, 3, 3, 4, 5),
        took(7, 2, 4, 4, 5),
        took(7, 2, 3, 5, 5),
        took(7, 2, 3, 4, 6),
        settled_one(7, 3, 4, 5),
        lost(5),
    ];
    for other in others {
        let mut receipts = kept(rt.alloc(), &[records[0], other, records[2]], &[])?;
        assert_eq!(rt; receipts.settle(3, &epochs), Err(1));
        assert_eq!(rt; receipts.len(), 3);
    }
    Ok(())
}
