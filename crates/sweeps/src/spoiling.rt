//! Histories with a fault put in.

use crate::dice::Dice;
use crate::epochs::made;
use mux_agree::{DownHistory, UpHistory};
use mux_history::{History, Name, Record, RecordKind};
use std::alloc::{AllocError, Global};

/// Kinds that may stand in another's place.
const KINDS: [RecordKind; 16] = [
    RecordKind::Took,
    RecordKind::TookDrained,
    RecordKind::Discarded { recalled: false },
    RecordKind::Noted { recalled: false },
    RecordKind::Passed,
    RecordKind::Nacked,
    RecordKind::Unrouted,
    RecordKind::Failed,
    RecordKind::Retried,
    RecordKind::Late { whole: false },
    RecordKind::Late { whole: true },
    RecordKind::Offered,
    RecordKind::Settled(-2),
    RecordKind::SettledNack,
    RecordKind::LostOne,
    RecordKind::Discarding,
];

/// One of the records, changed.
fn changed(dice: &mut Dice, met: &Record, other: Option<Name>) -> Record {
    match dice.below(5) {
        0 => made(met.kind(), met.tag(), other, met.reading()),
        1 => made(
            met.kind(),
            (dice.below(9) % 9) as u32,
            met.name(),
            met.reading(),
        ),
        2 => made(met.kind(), met.tag(), None, met.reading()),
        _ => {
            let kind = KINDS[(dice.below(16) % 16) as usize];
            made(kind, met.tag(), met.name(), met.reading())
        }
    }
}

/// Records with one of them left out, doubled, changed, or in the place of the next.
fn spoiled(
    alloc: Global,
    dice: &mut Dice,
    records: &[Record],
    other: Option<Name>,
) -> Result<History, AllocError> {
    let at = dice.below(records.len() as u64) as usize;
    let how = dice.below(8);
    let mut all = Vec::new(alloc);
    let mut held: Option<Record> = None;
    for (place, met) in records.iter().enumerate() {
        if place != at {
            all.push(*met)?;
            if let Some(late) = held {
                all.push(late)?;
                held = None;
            }
            continue;
        }
        match how {
            0 => {}
            1 => {
                all.push(*met)?;
                all.push(*met)?;
            }
            2 => held = Some(*met),
            _ => all.push(changed(dice, met, other))?,
        }
    }
    if let Some(late) = held {
        all.push(late)?;
    }
    History::of(alloc, all.as_slice())
}

/// The name of some record.
fn some_name(dice: &mut Dice, epochs: &[History]) -> Option<Name> {
    let epoch = epochs.get(dice.below(epochs.len() as u64) as usize)?;
    let records = epoch.records();
    records
        .get(dice.below(records.len() as u64) as usize)?
        .name()
}

fn spoil_one(
    alloc: Global,
    dice: &mut Dice,
    epochs: &mut Vec<History>,
    other: Option<Name>,
) -> Result<(), AllocError> {
    let place = dice.below(epochs.len() as u64) as usize;
    let Some(epoch) = epochs.get(place) else {
        return Ok(());
    };
    let fresh = spoiled(alloc, dice, epoch.records(), other)?;
    if let Some(epoch) = epochs.get_mut(place) {
        *epoch = fresh;
    }
    Ok(())
}

/// Spoils a record of one of the histories.
pub fn spoil(
    alloc: Global,
    dice: &mut Dice,
    downs: &mut Vec<DownHistory>,
    ups: &mut Vec<UpHistory>,
) -> Result<(), AllocError> {
    let down = dice.below(downs.len() as u64) as usize;
    let up = dice.below(ups.len() as u64) as usize;
    let other = match downs.get(dice.below(downs.len() as u64) as usize) {
        Some(history) => some_name(dice, &history.epochs),
        None => None,
    };
    if dice.below(2) == 0 {
        if let Some(history) = downs.get_mut(down) {
            spoil_one(alloc, dice, &mut history.epochs, other)?;
        }
    } else if let Some(history) = ups.get_mut(up) {
        spoil_one(alloc, dice, &mut history.epochs, other)?;
    }
    Ok(())
}
