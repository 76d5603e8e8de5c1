//! The verdict over whole histories.
ghost use Rattle.std.specs.Prelude.{◌≡◌, ◌↔◌, IfErr, IfOk, IfSome, IsOk, IsSome, IsTrue, map, reverse};
ghost use Rattle.std.specs.Result.{result_err};
ghost use Rattle.mux_agree.specs.Walk.{BearOut, IsFirstFault, all_records, first_fault, histories, joined, kept_down, kept_up};
ghost use Rattle.rolling_audit.specs.Recalls.{AreEnded};
ghost use Rattle.rolling_audit.specs.Steps.{TakesAll};
ghost use Rattle.rolling_audit.specs.Taken.{IsTaken};
ghost use Rattle.rolling_audit.specs.Whole.{TakesEach, TakesWhole};

use crate::rolling::RollingAudit;
use mux_agree::{Disagreement, DownHistory, UpHistory, agree};
use mux_history::{History, InitMode, Record, SessionId};
use std::alloc::Global;

/// Whether the histories bear each other out: the first record at fault otherwise, as `agree` reports it.
///
/// A rolling audit takes them all, in steps that grow with the records. If a record is at fault, or the histories are
/// such as no session keeps, or out of memory, `agree` answers, whose steps grow with the square.
pub fn audit(alloc: Global, downs: &[DownHistory], ups: &[UpHistory]) -> Result<(), Disagreement>
    ensures ok { IsOk result ↔ BearOut (histories downs.now ups.now) }
    ensures err { IfErr result (IsFirstFault (histories downs.now ups.now)) }
    ensures value { result_err result ≡ first_fault (histories downs.now ups.now) }
{
    match audit_recalls(alloc, downs, ups) {
        Ok(_are_ended) => Ok(()),
        Err(found) => Err(found),
    }
}

/// The same, and whether each recall that a step gave was seen to have an end.
pub fn audit_recalls(
    alloc: Global,
    downs: &[DownHistory],
    ups: &[UpHistory],
) -> Result<bool, Disagreement>
    ensures ok { IsOk result ↔ BearOut (histories downs.now ups.now) }
    ensures err { IfErr result (IsFirstFault (histories downs.now ups.now)) }
    ensures value { result_err result ≡ first_fault (histories downs.now ups.now) }
    ensures ended { IfOk result (λ e. IsTrue e → AreEnded (all_records (histories downs.now ups.now))) }
{
    match seen(alloc, downs, ups) {
        Some(are_ended) => Ok(are_ended),
        None => match agree(downs, ups) {
            Ok(()) => Ok(false),
            Err(found) => Err(found),
        },
    }
}

/// Whether each recall was seen to have an end. None if the histories weren't seen to bear each other out.
fn seen(alloc: Global, downs: &[DownHistory], ups: &[UpHistory]) -> Option<bool>
    ensures borne { IsSome result → BearOut (histories downs.now ups.now) }
    ensures ended { IfSome result (λ e. IsTrue e → AreEnded (all_records (histories downs.now ups.now))) }
{
    let audit = taken(alloc, downs, ups)?;
    match audit.close() {
        Ok(()) => Some(audit.are_recalls_ended()),
        Err(_fault) => None,
    }
}

/// An audit that took all histories. None if a record is at fault by itself, or the histories are such as no session
/// keeps, or out of memory.
fn taken(alloc: Global, downs: &[DownHistory], ups: &[UpHistory]) -> Option<RollingAudit>
    ensures { IfSome result (λ a. IsTaken (reverse (histories downs.now ups.now)) a) }
{
    let Ok(mut audit) = RollingAudit::new(alloc, boot_of(downs), downs.len()) else {
        return None;
    };
    if !take_downs(&mut audit, downs) || !take_ups(&mut audit, ups) {
        return None;
    }
    Some(audit)
}

fn take_downs(audit: &mut RollingAudit, downs: &[DownHistory]) -> bool
    ensures { IsTrue result → TakesEach audit.old (map kept_down downs.now) audit.new }
{
    for down in downs {
        let session = SessionId::Client(down.client);
        if !take_whole(audit, session, InitMode::Plain, &down.epochs) {
            return false;
        }
    }
    true
}

fn take_ups(audit: &mut RollingAudit, ups: &[UpHistory]) -> bool
    ensures { IsTrue result → TakesEach audit.old (map kept_up ups.now) audit.new }
{
    for up in ups {
        let session = SessionId::Server(up.server);
        if !take_whole(audit, session, up.mode, &up.epochs) {
            return false;
        }
    }
    true
}

/// Takes a session from its first record to its last.
fn take_whole(
    audit: &mut RollingAudit,
    session: SessionId,
    mode: InitMode,
    epochs: &[History],
) -> bool
    ensures { IsTrue result → TakesWhole audit.old (record { session = session; mode = mode; records = joined epochs.now })
        audit.new }
{
    if audit.open(session, mode).is_err() {
        return false;
    }
    if !take_epochs(audit, session, epochs) {
        return false;
    }
    audit.end(session);
    true
}

fn take_epochs(audit: &mut RollingAudit, session: SessionId, epochs: &[History]) -> bool
    ensures { IsTrue result → TakesAll audit.old session (joined epochs.now) audit.new }
{
    for epoch in epochs {
        if audit.take(session, epoch.records()).is_err() {
            return false;
        }
    }
    true
}

/// The boot of the first dispatch that a record names, 0 where none does.
fn boot_of(downs: &[DownHistory]) -> u64 {
    for down in downs {
        for epoch in &down.epochs {
            if let Some(boot) = boot_in(epoch.records()) {
                return boot;
            }
        }
    }
    0
}

fn boot_in(records: &[Record]) -> Option<u64> {
    for met in records {
        if let Some(name) = met.name() {
            return Some(name.boot);
        }
    }
    None
}
