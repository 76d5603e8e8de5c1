//! Random runs of the core, held against a rolling audit.
use crate::dice::Dice;
use crate::feeding::{Verdict, roll};
use crate::spoiling::spoil;
use crate::traffic::Traffic;
use mux_agree::{DownHistory, UpHistory};
use mux_history::{History, KindCounts, RecordKind};
use rolling_audit::audit;
use std::alloc::{AllocError, Global};
use std::io;

/// How often both audits answered so.
#[derive(Clone, Copy)]
struct Answers {
    both_ok: u64,
    both_fault: u64,
    /// The rolling audit alone found a fault, or none.
    rolling_fault: u64,
    rolling_ok: u64,
}

/// What was found of all runs.
#[derive(Clone, Copy)]
struct Found {
    whole: Answers,
    spoiled: Answers,
    records: u64,
    seals: u64,
    rolls: u64,
    kinds: KindCounts,
    /// How many dispatches runs that came to rest left, with as many values in hand.
    left: u64,
    in_hand: u64,
    most: u64,
}

impl Answers {
    fn none() -> Answers {
        Answers {
            both_ok: 0,
            both_fault: 0,
            rolling_fault: 0,
            rolling_ok: 0,
        }
    }

    fn add(&mut self, is_borne_out: bool, verdict: Verdict) {
        let count = match (is_borne_out, verdict.fault.is_none()) {
            (true, true) => &mut self.both_ok,
            (false, false) => &mut self.both_fault,
            (true, false) => &mut self.rolling_fault,
            (false, true) => &mut self.rolling_ok,
        };
        *count = count.saturating_add(1);
    }
}

/// Prints what is found of so many runs.
pub fn print_runs(rt: &HostRuntime, count: u64) -> io::Result<()> {
    let Ok(found) = sweep(rt.alloc(), count) else {
        return println!(rt; "memory");
    };
    print(rt, &found)
}

fn print(rt: &HostRuntime, found: &Found) -> io::Result<()> {
    let Found {
        records,
        seals,
        rolls,
        left,
        in_hand,
        most,
        ..
    } = *found;
    println!(rt; "{records} records, {seals} seals, {rolls} rolls")?;
    print_kinds(rt, found.kinds)?;
    print_answers(rt, "whole", found.whole)?;
    print_answers(rt, "spoiled", found.spoiled)?;
    println!(rt; "left at rest: {left}, values in hand: {in_hand}, kept at once: {most}")
}

fn print_kinds(rt: &HostRuntime, kinds: KindCounts) -> io::Result<()> {
    let KindCounts {
        took,
        took_drained,
        discarded,
        retried,
        late,
        lost_one,
        ..
    } = kinds;
    println!(rt;
        "dispatches {took}, drained {took_drained}, discarded {discarded}, retried {retried}, late {late}, lost {lost_one}"
    )
}

fn print_answers(rt: &HostRuntime, word: &str, answers: Answers) -> io::Result<()> {
    let Answers {
        both_ok,
        both_fault,
        rolling_fault,
        rolling_ok,
    } = answers;
    println!(rt;
        "{word}: ok {both_ok}, fault {both_fault}, rolling alone {rolling_fault}, audit alone {rolling_ok}"
    )
}

fn sweep(alloc: Global, count: u64) -> Result<Found, AllocError> {
    let mut found = Found {
        whole: Answers::none(),
        spoiled: Answers::none(),
        records: 0,
        seals: 0,
        rolls: 0,
        kinds: KindCounts::none(),
        left: 0,
        in_hand: 0,
        most: 0,
    };
    for seed in 1..=count {
        one_run(alloc, seed, &mut found)?;
    }
    Ok(found)
}

fn one_run(alloc: Global, seed: u64, found: &mut Found) -> Result<(), AllocError> {
    let Some(mut traffic) = Traffic::new(alloc, seed) else {
        return Ok(());
    };
    traffic.begin()?;
    for _ in 0..400u64 {
        traffic.turn()?;
    }
    let rests = seed % 2 == 0;
    if rests {
        traffic.settle()?;
        found.in_hand = found.in_hand.saturating_add(traffic.hands()? as u64);
    }
    let (downs, ups) = traffic.into_histories()?;
    found.judge(alloc, seed, rests, downs, ups)
}

impl Found {
    fn judge(
        &mut self,
        alloc: Global,
        seed: u64,
        rests: bool,
        downs: Vec<DownHistory>,
        ups: Vec<UpHistory>,
    ) -> Result<(), AllocError> {
        let mut downs = downs;
        let mut ups = ups;
        let mut dice = Dice::new(seed.saturating_add(1_000_000));
        self.count(&downs, &ups);
        let is_borne_out = audit(alloc, &downs, &ups).is_ok();
        for _ in 0..3u64 {
            let verdict = roll(alloc, &mut dice, &downs, &ups)?;
            self.whole.add(is_borne_out, verdict);
            self.most = self.most.max(verdict.most as u64);
            if rests {
                self.left = self.left.saturating_add(verdict.left as u64);
            }
        }
        spoil(alloc, &mut dice, &mut downs, &mut ups)?;
        let is_borne_out = audit(alloc, &downs, &ups).is_ok();
        let verdict = roll(alloc, &mut dice, &downs, &ups)?;
        self.spoiled.add(is_borne_out, verdict);
        Ok(())
    }

    fn count(&mut self, downs: &[DownHistory], ups: &[UpHistory]) {
        for down in downs {
            self.count_epochs(&down.epochs);
        }
        for up in ups {
            self.count_epochs(&up.epochs);
        }
    }

    fn count_epochs(&mut self, epochs: &[History]) {
        for epoch in epochs {
            self.kinds = self.kinds.plus(epoch.counts());
            let records = epoch.records();
            self.records = self.records.saturating_add(records.len() as u64);
            let Some(first) = records.first() else {
                continue;
            };
            match first.kind() {
                RecordKind::Epoch { .. } => self.seals = self.seals.saturating_add(1),
                RecordKind::Rolled { .. } => self.rolls = self.rolls.saturating_add(1),
                _ => {}
            }
        }
    }
}
