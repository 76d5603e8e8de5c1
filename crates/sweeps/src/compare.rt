//! Small random histories on which `audit` and `agree` have to answer alike, and long ones, which are timed.

ghost use Rattle.std.specs.Prelude.{◌<◌};

use crate::dice::Dice;
use crate::runs::histories;
use crate::soup::soup;
use mux_agree::{Disagreement, DisagreementCause, agree};
use rolling_audit::audit;
use std::alloc::{AllocError, Global};
use std::io;
use std::time::Instant;

/// All causes, the least first.
const CAUSES: [DisagreementCause; 9] = [
    DisagreementCause::SentTwice,
    DisagreementCause::AnsweredTwice,
    DisagreementCause::NeverSent,
    DisagreementCause::NackOfSent,
    DisagreementCause::LostButSettled,
    DisagreementCause::TagOpen,
    DisagreementCause::AfterDrain,
    DisagreementCause::Lapsed,
    DisagreementCause::BadEpoch,
];

/// What was found of so many histories.
#[derive(Clone, Copy)]
struct Found {
    same: u64,
    borne_out: u64,
    causes: [u64; 9],
}

/// Prints what is found of so many small histories, and of long ones.
pub fn print_alike(rt: &HostRuntime, count: u64) -> io::Result<()> {
    let alloc = rt.alloc();
    let Ok(found) = compare(alloc, count) else {
        return println!(rt; "memory");
    };
    let Found {
        same,
        borne_out,
        ..
    } = found;
    println!(rt; "{same} of {count} alike, {borne_out} bear each other out")?;
    for (cause, met) in CAUSES.iter().zip(found.causes.iter()) {
        println!(rt; "{cause}: {met}")?;
    }
    let Ok(is_borne_out) = are_long_borne_out(alloc) else {
        return println!(rt; "memory");
    };
    println!(rt; "102400 dispatches: {is_borne_out}")
}

/// Whether long histories bear each other out. By the square this would take hours.
fn are_long_borne_out(alloc: Global) -> Result<bool, AllocError> {
    let (downs, ups) = histories(alloc, 4, 4, 25_600, 100)?;
    Ok(audit(alloc, &downs, &ups).is_ok())
}

fn compare(alloc: Global, count: u64) -> Result<Found, AllocError> {
    let mut found = Found {
        same: 0,
        borne_out: 0,
        causes: [0; 9],
    };
    for seed in 1..=count {
        let mut dice = Dice::new(seed);
        let (downs, ups) = soup(alloc, &mut dice)?;
        let wanted = agree(&downs, &ups);
        found.add(wanted, audit(alloc, &downs, &ups));
    }
    Ok(found)
}

impl Found {
    fn add(&mut self, wanted: Result<(), Disagreement>, told: Result<(), Disagreement>) {
        if wanted == told {
            self.same = self.same.saturating_add(1);
        }
        match wanted {
            Ok(()) => self.borne_out = self.borne_out.saturating_add(1),
            Err(fault) => {
                let met = &mut self.causes[place_of(fault.cause)];
                *met = met.saturating_add(1);
            }
        }
    }
}

fn place_of(cause: DisagreementCause) -> usize
    ensures { result < 9 }
{
    match cause {
        DisagreementCause::SentTwice => 0,
        DisagreementCause::AnsweredTwice => 1,
        DisagreementCause::NeverSent => 2,
        DisagreementCause::NackOfSent => 3,
        DisagreementCause::LostButSettled => 4,
        DisagreementCause::TagOpen => 5,
        DisagreementCause::AfterDrain => 6,
        DisagreementCause::Lapsed => 7,
        DisagreementCause::BadEpoch => 8,
    }
}

/// Prints how long the audit of so many dispatches takes.
pub fn print_time(rt: &HostRuntime, dispatches: u64, rounds: u64) -> io::Result<()> {
    let alloc = rt.alloc();
    let Ok((downs, ups)) = histories(alloc, 4, 4, dispatches, rounds) else {
        return println!(rt; "memory");
    };
    let start = Instant::now(rt)?;
    let told = audit(alloc, &downs, &ups);
    let nanos = start.elapsed(rt)?.as_nanos();
    let word = if told.is_ok() { "ok" } else { "fault" };
    println!(rt; "{word} {nanos}")
}
