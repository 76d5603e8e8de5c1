//! Small random histories.

use crate::dice::Dice;
use crate::epochs::{Epochs, OPEN, dispatch, made};
use mux_agree::{DownHistory, UpHistory};
use mux_history::{DrainState, InitMode, Name, RecordKind, Standing};
use std::alloc::{AllocError, Global};

fn add(
    dice: &mut Dice,
    own: &mut Epochs,
    kind: RecordKind,
    tag: u32,
    name: Option<Name>,
) -> Result<(), AllocError> {
    let reading = if dice.below(12) == 0 { 1 } else { 0 };
    own.records.push(made(kind, tag, name, reading))?;
    Ok(())
}

fn tag(dice: &mut Dice, first: u32, count: u64) -> u32 {
    first.saturating_add(small(dice.below(count)))
}

fn small(number: u64) -> u32 {
    u32::try_from(number).unwrap_or(0)
}

// A dispatch, mostly noted, seldom answered.
fn take(dice: &mut Dice, own: &mut Epochs, client: u64, seq: u64) -> Result<(), AllocError> {
    let name = Some(dispatch(client, seq));
    let kind = if dice.below(9) == 0 {
        RecordKind::TookDrained
    } else {
        RecordKind::Took
    };
    add(dice, own, kind, small(seq), name)?;
    if dice.below(4) > 0 {
        let kind = RecordKind::Noted { recalled: false };
        add(dice, own, kind, small(seq), name)?;
    }
    if dice.below(5) == 0 {
        let kind = match dice.below(4) {
            0 => RecordKind::Failed,
            1 => RecordKind::Nacked,
            _ => RecordKind::Passed,
        };
        add(dice, own, kind, small(seq), name)?;
    }
    Ok(())
}

fn down_kind(dice: &mut Dice, epoch: u32, taken: u64) -> RecordKind {
    match dice.below(18) {
        0 | 1 | 2 | 3 => RecordKind::Took,
        4 => RecordKind::TookDrained,
        5 => RecordKind::Discarded {
            recalled: dice.below(2) == 0,
        },
        6 | 7 => RecordKind::Noted { recalled: false },
        8 | 9 => RecordKind::Passed,
        10 => RecordKind::Nacked,
        11 => RecordKind::Unrouted,
        12 => RecordKind::Failed,
        13 => RecordKind::Retried,
        14 => RecordKind::Late {
            whole: dice.below(2) == 0,
        },
        15 => RecordKind::Ponged,
        16 => RecordKind::DrainAsked,
        _ => RecordKind::Epoch {
            number: epoch.saturating_add(1),
            standing: Standing::Down {
                fresh: taken == 0,
                drain: DrainState::Running,
                dispatches: taken,
            },
        },
    }
}

fn client(alloc: Global, dice: &mut Dice, number: u64) -> Result<DownHistory, AllocError> {
    let mut own = Epochs::new(alloc);
    take(dice, &mut own, number, 1)?;
    take(dice, &mut own, number, 2)?;
    let mut taken = 2u64;
    // How many were taken in epochs that ended.
    let mut base = 0u64;
    for _ in 0..dice.below(3) {
        let at = tag(dice, 1, 3);
        let kind = down_kind(dice, own.number, taken);
        let seq = match kind {
            RecordKind::Took | RecordKind::TookDrained => {
                taken = taken.saturating_add(1);
                Some(taken)
            }
            RecordKind::Ponged | RecordKind::DrainAsked => None,
            RecordKind::Epoch { .. } => {
                own.cut()?;
                base = taken;
                None
            }
            _ if taken > base => {
                let further = dice.below(taken - base);
                Some(base.saturating_add(1).saturating_add(further))
            }
            _ if dice.below(20) == 0 => Some(taken.saturating_add(1)),
            _ => continue,
        };
        let name = seq.map(|seq| dispatch(number, seq));
        add(dice, &mut own, kind, at, name)?;
    }
    Ok(DownHistory {
        client: number,
        epochs: own.end()?,
    })
}

fn up_kind(dice: &mut Dice, epoch: u32) -> RecordKind {
    match dice.below(18) {
        0 | 1 | 2 | 3 | 16 => RecordKind::Offered,
        4 => RecordKind::Settled(-2),
        7 => RecordKind::SettledNack,
        9 => RecordKind::LostOne,
        10 => RecordKind::Discarding,
        11 | 5 => RecordKind::Leased(dice.below(2)),
        12 | 6 => RecordKind::Drained,
        8 => RecordKind::Retired,
        13 => RecordKind::PingSent,
        _ => RecordKind::Epoch {
            number: epoch.saturating_add(1),
            standing: OPEN,
        },
    }
}

// The answer to the last record, if that is an offer.
fn answer(dice: &mut Dice, own: &mut Epochs) -> Result<(), AllocError> {
    let Some(last) = own.records.last() else {
        return Ok(());
    };
    let tag = last.tag();
    let (RecordKind::Offered, Some(name)) = (last.kind(), last.name()) else {
        return Ok(());
    };
    let kind = match dice.below(5) {
        0 => RecordKind::SettledNack,
        1 => RecordKind::LostOne,
        _ => RecordKind::Settled(-2),
    };
    add(dice, own, kind, tag, Some(name))
}

fn server(alloc: Global, dice: &mut Dice, number: u64) -> Result<UpHistory, AllocError> {
    let mut own = Epochs::new(alloc);
    for _ in 0..dice.below(10) {
        let at = tag(dice, 2, 2);
        let kind = up_kind(dice, own.number);
        if dice.below(3) > 0 {
            answer(dice, &mut own)?;
        }
        let name = match kind {
            RecordKind::Offered
            | RecordKind::Settled(_)
            | RecordKind::SettledNack
            | RecordKind::LostOne
            | RecordKind::Discarding => {
                let client = dice.below(2).saturating_add(1);
                Some(dispatch(client, dice.below(2).saturating_add(1)))
            }
            RecordKind::Epoch { .. } => {
                own.cut()?;
                None
            }
            _ => None,
        };
        add(dice, &mut own, kind, at, name)?;
    }
    Ok(UpHistory {
        server: number,
        mode: InitMode::Plain,
        epochs: own.end()?,
    })
}

pub fn soup(
    alloc: Global,
    dice: &mut Dice,
) -> Result<(Vec<DownHistory>, Vec<UpHistory>), AllocError> {
    let mut downs = Vec::new(alloc);
    let mut ups = Vec::new(alloc);
    downs.push(client(alloc, dice, 1)?)?;
    downs.push(client(alloc, dice, 2)?)?;
    ups.push(server(alloc, dice, 0)?)?;
    if dice.below(2) == 0 {
        ups.push(server(alloc, dice, 1)?)?;
    }
    Ok((downs, ups))
}
