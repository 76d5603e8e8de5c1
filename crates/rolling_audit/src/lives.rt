//! The dispatches that aren't done with.
ghost use Rattle.std.specs.Prelude.{◌≡◌, ◌<◌, ◌^◌, ℕ, IfErr, IfSome, IsNone, IsOk, IsTrue, None, false, if◌then◌else◌};
ghost use Rattle.indexmap.specs.IndexMap.{IsUnique, get, index_map_len};
ghost use Rattle.rolling_audit.specs.Faults.{is_of_other_boot};
ghost use Rattle.rolling_audit.specs.Lives.{is_ended_life, is_fine, kept_life};
ghost use Rattle.mux_history.specs.declared.name.Name.{Name};
ghost use Rattle.mux_history.specs.declared.record.Record.{Record};
ghost use Rattle.rolling_audit.specs.Steps.{AllGoOn, Keeps, LifeRefuses, LivesRefuse};
ghost use Rattle.rolling_audit.specs.Taken.{AreFine, EachPasses, FailsAt, HasFlaw, HasFlawAt, HasRoom, PassesAt, SomeFails, life_of, life_or, pair_eq};

use crate::fault::{Flaw, RecordFault};
use crate::life::Life;
use crate::near::Near;
use indexmap::IndexMap;
use mux_history::{Name, Record, RecordKind};
use std::alloc::{AllocError, Global};

/// What is kept of the dispatches of one boot that aren't done with, by their clients and numbers.
#[derive(Drop)]
pub struct Lives {
    boot: u64,
    lives: IndexMap<(u64, u64), Life, Near>,
}

impl Lives {
    /// Before any record.
    pub(crate) fn of(alloc: Global, boot: u64) -> Lives
        ensures none { (n : Name) → life_of result n ≡ None }
        ensures boot { result.boot ≡ boot }
    {
        Lives {
            boot,
            lives: IndexMap::with_hasher(alloc, Near::new()),
        }
    }

    /// The boot.
    pub(crate) fn boot(&self) -> u64
        ensures { result ≡ self.now.boot }
    {
        self.boot
    }

    /// How many dispatches there are.
    pub(crate) fn len(&self) -> usize
        ensures len { result ≡ index_map_len self.now.lives }
        ensures small { result < 2 ^ 63 }
        ensures unique { IsUnique pair_eq self.now.lives }
    {
        self.lives.len()
    }

    /// What is kept of a dispatch.
    pub(crate) fn get(&self, name: Name) -> Option<Life>
        ensures { result ≡ life_of self.now name }
    {
        if name.boot != self.boot {
            return None;
        }
        self.lives.get(&(name.client, name.seq)).copied()
    }

    fn life(&self, name: Name) -> Life
        ensures { result ≡ life_or (life_of self.now name) }
    {
        match self.get(name) {
            Some(life) => life,
            None => Life::none(),
        }
    }

    /// Makes room for one more dispatch.
    pub(crate) fn make_room(&mut self) -> Result<(), AllocError>
        ensures same { (n : Name) → life_of self.new n ≡ life_of self.old n }
        ensures room { IsOk result → HasRoom self.new }
        ensures boot { self.new.boot ≡ self.old.boot }
    {
        self.lives.reserve(1)
    }

    /// Keeps what is told of a dispatch, or drops it if the dispatch is done with.
    fn put(&mut self, key: (u64, u64), life: Life)
        requires { HasRoom self.old }
        ensures boot { self.new.boot ≡ self.old.boot }
        ensures lives { (k : ℕ × ℕ) → get pair_eq self.new.lives k
            ≡ (if pair_eq key k then kept_life life else get pair_eq self.old.lives k) }
    {
        if life.is_done() {
            self.lives.swap_remove(&key);
            return;
        }
        match self.lives.insert(key, life) {
            Ok(_) => {}
            Err(_) => unreachable!(),
        }
    }

    /// The same of a dispatch of this boot.
    fn keep(&mut self, name: Name, life: Life)
        requires room { HasRoom self.old }
        requires own { name.boot ≡ self.old.boot }
        ensures keeps { Keeps (life_of self.old) name life (life_of self.new) }
        ensures boot { self.new.boot ≡ self.old.boot }
    {
        self.put((name.client, name.seq), life);
    }

    /// Counts a record of this boot, of a client's session or a server's.
    pub(crate) fn count(&mut self, of_client: bool, met: &Record) -> Result<(), RecordFault>
        requires room { HasRoom self.old }
        requires own { is_of_other_boot self.old.boot met.now ≡ false }
        ensures ok { IsOk result → AllGoOn (life_of self.old) of_client met.now (life_of self.new) }
        ensures err { IfErr result (λ e. LivesRefuse e (life_of self.old) met.now) }
        ensures boot { self.new.boot ≡ self.old.boot }
    {
        match met.name() {
            Some(name) => self.count_named(of_client, met.kind(), name),
            None => Ok(()),
        }
    }

    fn count_named(
        &mut self,
        of_client: bool,
        kind: RecordKind,
        name: Name,
    ) -> Result<(), RecordFault>
        requires room { HasRoom self.old }
        requires own { name.boot ≡ self.old.boot }
        ensures ok { IsOk result → (r : Record) → r.kind ≡ kind → r.name ≡ Some name
            → AllGoOn (life_of self.old) of_client r (life_of self.new) }
        ensures err { IfErr result (λ e. LifeRefuses e (life_or (life_of self.old name)) kind) }
        ensures boot { self.new.boot ≡ self.old.boot }
    {
        let life = self.life(name);
        if life.is_answered_by(kind) {
            return Err(RecordFault::AnsweredTwice);
        }
        let Some(next) = life.count(of_client, kind) else {
            return Err(RecordFault::Uncounted);
        };
        self.keep(name, next);
        Ok(())
    }

    /// A dispatch whose records don't bear each other out, and which of them. None if there is none.
    pub(crate) fn flawed(&self) -> Option<(Name, Flaw)>
        ensures fine { IsNone result → AreFine (life_of self.now) }
        ensures flaw { IfSome result (λ f. HasFlaw self.now f.0 f.1) }
    {
        for place in 0..self.lives.len() {
            if let Some(found) = self.flawed_at(place) {
                return Some(found);
            }
        }
        None
    }

    /// The same of the one that stands at a place.
    fn flawed_at(&self, place: usize) -> Option<(Name, Flaw)>
        ensures fine { IsNone result → PassesAt is_fine self.now.lives.entries place }
        ensures flaw { IfSome result (λ f. HasFlawAt self.now place f.0 f.1) }
    {
        let (key, life) = self.lives.get_index(place)?;
        let flaw = life.flaw()?;
        let name = Name {
            boot: self.boot,
            client: key.0,
            seq: key.1,
        };
        Some((name, flaw))
    }

    /// Whether a client took each dispatch, and its recall, if a step gave one, was sent or has an end.
    pub(crate) fn are_ended(&self) -> bool
        ensures yes { IsTrue result → EachPasses is_ended_life (life_of self.now) }
        ensures no { result ≡ false → SomeFails is_ended_life (life_of self.now) }
    {
        for place in 0..self.lives.len() {
            if !self.is_ended_at(place) {
                return false;
            }
        }
        true
    }

    /// The same of the one that stands at a place.
    fn is_ended_at(&self, place: usize) -> bool
        ensures yes { IsTrue result → PassesAt is_ended_life self.now.lives.entries place }
        ensures no { result ≡ false → FailsAt is_ended_life self.now.lives.entries place }
    {
        match self.lives.get_index(place) {
            Some((_key, life)) => life.is_ended(),
            None => true,
        }
    }
}
