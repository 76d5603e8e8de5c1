//! The walk over records of one session.
ghost use Rattle.std.specs.Prelude.{◌≡◌, ◌∷◌, [], IfErr, IsOk};
ghost use Rattle.mux_agree.specs.Walk.{is_client};
ghost use Rattle.rolling_audit.specs.Faults.{is_of_other_boot};
ghost use Rattle.rolling_audit.specs.Stands.{HasSpare};
ghost use Rattle.rolling_audit.specs.Steps.{IsRefusedAt, LeftAt, Takes};
ghost use Rattle.rolling_audit.specs.Taken.{HasRoom, life_of};

use crate::fault::{RecordFault, RollingFault};
use crate::lives::Lives;
use crate::trail::Trail;
use mux_history::{Record, SessionId};
use std::alloc::AllocError;

fn is_client(id: SessionId) -> bool
    ensures { result ≡ is_client id }
{
    match id {
        SessionId::Client(_) => true,
        SessionId::Server(_) => false,
    }
}

/// Whether a record names a dispatch of another boot.
fn is_of_other_boot(boot: u64, met: &Record) -> bool
    ensures { result ≡ is_of_other_boot boot met.now }
{
    match met.name() {
        Some(name) => name.boot != boot,
        None => false,
    }
}

/// Makes room for what one record more may keep.
fn make_room(trail: &mut Trail, lives: &mut Lives, id: SessionId) -> Result<(), AllocError>
    ensures same { Takes lives.old.boot id trail.old (life_of lives.old) [] trail.new (life_of lives.new) }
    ensures spare { IsOk result → HasSpare trail.new.session }
    ensures room { IsOk result → HasRoom lives.new }
    ensures boot { lives.new.boot ≡ lives.old.boot }
{
    trail.make_room()?;
    lives.make_room()
}

/// Takes a record of a session: which cause it has by what is known.
fn visit(
    trail: &mut Trail,
    lives: &mut Lives,
    id: SessionId,
    met: &Record,
) -> Result<(), RecordFault>
    requires spare { HasSpare trail.old.session }
    requires room { HasRoom lives.old }
    ensures ok { IsOk result
        → Takes lives.old.boot id trail.old (life_of lives.old) (met.now ∷ []) trail.new (life_of lives.new) }
    ensures err { IfErr result (λ e. IsRefusedAt e lives.old.boot id trail.old (life_of lives.old) met.now) }
    ensures boot { lives.new.boot ≡ lives.old.boot }
{
    if is_of_other_boot(lives.boot(), met) {
        return Err(RecordFault::OtherBoot);
    }
    trail.step(id, met)?;
    lives.count(is_client(id), met)
}

/// Takes records of a session.
pub(crate) fn walk(
    trail: &mut Trail,
    lives: &mut Lives,
    id: SessionId,
    records: &[Record],
) -> Result<(), RollingFault>
    ensures ok { IsOk result
        → Takes lives.old.boot id trail.old (life_of lives.old) records.now trail.new (life_of lives.new) }
    ensures err { IfErr result (λ e.
        LeftAt e lives.old.boot id trail.old (life_of lives.old) records.now trail.new (life_of lives.new)) }
    ensures boot { lives.new.boot ≡ lives.old.boot }
{
    for (taken, met) in records.iter().enumerate() {
        if make_room(trail, lives, id).is_err() {
            return Err(RollingFault::Memory { taken });
        }
        let place = trail.taken;
        if let Err(cause) = visit(trail, lives, id, met) {
            return Err(RollingFault::Record {
                session: id,
                place,
                cause,
            });
        }
    }
    Ok(())
}
