//! The audit of a run whose records are taken epoch by epoch.
ghost use Rattle.std.specs.Prelude.{◌≡◌, ◌+◌, ◌-◌, ◌<◌, ◌≤◌, ◌^◌, ◌++◌, List, length, replicate, IfErr, IfOk, IsNone, IsOk, IsSome, IsTrue, None, false, option_map};
ghost use Rattle.std.specs.List.Sorted.{IsPermutation};
ghost use Rattle.mux_history.specs.Counting.{IsCount, capped};
ghost use Rattle.mux_history.specs.declared.record.Record.{Record};
ghost use Rattle.mux_agree.specs.Walk.{BearOut, Kept, all_records};
ghost use Rattle.rolling_audit.specs.Steps.{Ends, IsAtFault, SameOpen};
ghost use Rattle.rolling_audit.specs.Recalls.{AreEnded};
ghost use Rattle.rolling_audit.specs.Taken.{AreFine, life_of, trail_of};
ghost use Rattle.rolling_audit.specs.Covering.{Adds, Covers, LeftBy, Stops, TakesEpoch};
ghost use Rattle.rolling_audit.specs.Opening.{AreFirstOpen, fresh_servers};
ghost use Rattle.rolling_audit.specs.Turns.{Closes, Sets, begins_at, next_in};

use crate::fault::RollingFault;
use crate::rolling::RollingAudit;
use crate::run_fault::RunFault;
use crate::start::{open_new, open_servers};
use crate::turns::{Progress, Turns};
use mux_history::{InitMode, KindCounts, Record, SessionId};
use std::alloc::{AllocError, Global};

/// What is kept of a run whose records are taken epoch by epoch.
#[derive(Drop)]
pub struct RunAudit {
    audit: RollingAudit,
    turns: Turns,
    /// Of each server's slot.
    modes: Vec<InitMode>,
    counts: KindCounts,
    /// How many records were taken, up to the greatest number.
    records: u64,
}

impl RunAudit {
    /// Before any record of one boot, with so many slots for clients, which are numbered from 1, and for servers with
    /// these modes, numbered from 0. The first epoch of each is 0. Out of memory is the only error.
    pub fn new(
        alloc: Global,
        boot: u64,
        sessions: u64,
        modes: &[InitMode],
    ) -> Result<RunAudit, AllocError>
        ensures covers { IfOk result (λ a. Covers (fresh_servers modes.now) a) }
        ensures turns { IfOk result (λ a.
            (id : SessionId) → next_in a.turns id ≡ begins_at sessions (length modes.now) id) }
        ensures lasts { IfOk result (λ a. a.audit.lasts.items ≡ replicate sessions 0) }
        ensures open { IfOk result (λ a. AreFirstOpen a.audit modes.now) }
        ensures modes { IfOk result (λ a. a.modes.items ≡ modes.now) }
        ensures boot { IfOk result (λ a. a.audit.lives.boot ≡ boot) }
    {
        let turns = Turns::new(alloc, sessions as usize, modes.len())?;
        let kept = modes.to_vec(alloc)?;
        let audit = open_servers(alloc, boot, sessions as usize, modes)?;
        Ok(RunAudit {
            audit,
            turns,
            modes: kept,
            counts: KindCounts::none(),
            records: 0,
        })
    }

    /// Takes the whole history of an epoch, up to epoch 2³² - 2. Records of it that were taken before memory ran out
    /// aren't taken again. A session with a greater number takes its slot with its first epoch, once the present one
    /// has ended: a server has the mode of the slot. `OutOfTurn` changes nothing; after `Rolling` the audit tells no
    /// more.
    pub fn take(
        &mut self,
        session: SessionId,
        epoch: u32,
        records: &[Record],
    ) -> Result<(), RunFault>
        ensures ok { IsOk result → TakesEpoch self.old session epoch records.now self.new }
        ensures err { IfErr result (λ e. LeftBy e self.old session epoch records.now self.new) }
    {
        let Some(within) = self.turns.within(session, epoch, records.len()) else {
            return Err(RunFault::OutOfTurn { session });
        };
        let at = Progress { epoch, within };
        self.turns.set(session, at);
        open_new(&mut self.audit, self.modes.as_slice(), session)?;
        self.take_rest(session, at, &records[within..])
    }

    /// Takes the records that follow those of an epoch that were taken.
    fn take_rest(
        &mut self,
        session: SessionId,
        at: Progress,
        rest: &[Record],
    ) -> Result<(), RunFault>
        requires there { IsSome (next_in self.old.turns session) }
        requires fits { at.within + length rest.now < 2 ^ 63 }
        requires followed { at.epoch < 2 ^ 32 - 1 }
        ensures lasts { self.new.audit.lasts ≡ self.old.audit.lasts }
        ensures open { SameOpen self.old.audit self.new.audit }
        ensures modes { self.new.modes ≡ self.old.modes }
        ensures ok { IsOk result → Adds self.old session rest.now self.new }
        ensures next { IsOk result
            → Sets self.old.turns session (record { epoch = at.epoch + 1; within = 0 }) self.new.turns }
        ensures err { IfErr result (λ e. Stops e self.old session at rest.now self.new) }
    {
        match self.audit.take(session, rest) {
            Ok(()) => {
                let next = Progress {
                    epoch: at.epoch + 1,
                    within: 0,
                };
                self.note(session, rest, next);
                Ok(())
            }
            Err(RollingFault::Memory { taken }) => {
                let next = Progress {
                    epoch: at.epoch,
                    within: at.within + taken,
                };
                self.note(session, &rest[..taken], next);
                Err(RunFault::Memory)
            }
            Err(RollingFault::NotOpen { session }) => {
                Err(RunFault::Rolling(RollingFault::NotOpen { session }))
            }
            Err(
                RollingFault::Record {
                    session,
                    place,
                    cause,
                },
            ) => Err(RunFault::Rolling(RollingFault::Record {
                session,
                place,
                cause,
            })),
            Err(RollingFault::Dispatch { name, flaw }) => {
                Err(RunFault::Rolling(RollingFault::Dispatch { name, flaw }))
            }
        }
    }

    /// Counts records that were taken, and notes what is next.
    fn note(&mut self, session: SessionId, taken: &[Record], next: Progress)
        requires { IsSome (next_in self.old.turns session) }
        ensures audit { self.new.audit ≡ self.old.audit }
        ensures modes { self.new.modes ≡ self.old.modes }
        ensures turns { Sets self.old.turns session next self.new.turns }
        ensures counts { (all : List Record) → IsCount self.old.counts all
            → IsCount self.new.counts (all ++ taken.now) }
        ensures records { self.new.records ≡ capped (self.old.records + length taken.now) }
    {
        self.counts = self.counts.plus(KindCounts::of(taken));
        self.records = self.records.saturating_add(taken.len() as u64);
        self.turns.set(session, next);
    }

    /// Ends a session of which all records were taken. Those of its slot with greater numbers have their first turn
    /// then. If there is no such session, nothing changes.
    pub fn end(&mut self, session: SessionId)
        ensures covers { (hs : List Kept) → Covers hs self.old → Covers hs self.new }
        ensures gone { next_in self.new.turns session ≡ None }
        ensures turns { IsSome (next_in self.old.turns session) → Closes self.old.turns session self.new.turns }
        ensures trails { IsSome (next_in self.old.turns session)
            → Ends (trail_of self.old.audit) session (trail_of self.new.audit) }
        ensures absent { IsNone (next_in self.old.turns session) → self.new ≡ self.old }
        ensures lasts { self.new.audit.lasts ≡ self.old.audit.lasts }
        ensures modes { self.new.modes ≡ self.old.modes }
        ensures lives { self.new.audit.lives ≡ self.old.audit.lives }
        ensures counts { self.new.counts ≡ self.old.counts }
        ensures records { self.new.records ≡ self.old.records }
    {
        if self.turns.get(session).is_none() {
            return;
        }
        self.audit.end(session);
        self.turns.end(session);
    }

    /// How many of the records that were taken are of each kind that is counted.
    pub fn counts(&self) -> KindCounts
        ensures { (hs : List Kept) → Covers hs self.now → IsCount result (all_records hs) }
    {
        self.counts
    }

    /// How many records were taken, up to the greatest number.
    pub fn records(&self) -> u64
        ensures { (hs : List Kept) → Covers hs self.now → result ≡ capped (length (all_records hs)) }
    {
        self.records
    }

    /// The epoch of a session that is next. None if there is no such session.
    pub fn next_epoch(&self, session: SessionId) -> Option<u32>
        ensures { result ≡ option_map (λ p. p.epoch) (next_in self.now.turns session) }
    {
        self.turns.get(session).map(|next| next.epoch)
    }

    /// Whether all records that were taken bear each other out, once no more will come. A dispatch may be
    /// under way.
    pub fn close(&self) -> Result<(), RollingFault>
        ensures ok { IsOk result → (hs : List Kept) → Covers hs self.now → BearOut hs }
        ensures err { IfErr result (λ e. IsAtFault e self.now.audit) }
        ensures order { IsOk result → (hs ks : List Kept) → Covers hs self.now → IsPermutation hs ks → BearOut ks }
        ensures fine { IsOk result → AreFine (life_of self.now.audit.lives) }
    {
        self.audit.close()
    }

    /// Whether each recall that a step gave was sent, or its dispatch has an end, in an audit that closes with Ok.
    pub fn are_recalls_ended(&self) -> bool
        ensures yes { IsTrue result → (hs : List Kept) → Covers hs self.now → AreEnded (all_records hs) }
        ensures no { result ≡ false → AreFine (life_of self.now.audit.lives) → (hs : List Kept) → Covers hs self.now
            → ¬ AreEnded (all_records hs) }
    {
        self.audit.are_recalls_ended()
    }
}
