//! What is kept of a session that is open.
ghost use Rattle.std.specs.Prelude.{◌≡◌, ◌==◌, ◌+◌, ◌&&◌, IfErr, IfSome, IsOk, is_none, not};
ghost use Rattle.mux_history.specs.Holders.{of_named};
ghost use Rattle.rolling_audit.specs.Counted.{one};
ghost use Rattle.rolling_audit.specs.Faults.{gives_own, is_of_other_client};
ghost use Rattle.rolling_audit.specs.Stands.{Begins, HasSpare};
ghost use Rattle.rolling_audit.specs.Histories.{lacks_name, needs_name};
ghost use Rattle.rolling_audit.specs.Steps.{TrailGoesOn, TrailRefuses, TrailStays};

use crate::fault::RecordFault;
use crate::life::gives_recall;
use crate::session::Session;
use mux_agree::Fact;
use mux_history::{InitMode, Name, Record, RecordKind, SessionId};
use std::alloc::{AllocError, Global};

/// What is kept of a session that is open.
#[derive(Drop)]
pub struct Trail {
    pub(crate) session: Session,
    /// How many names its client gave.
    pub(crate) given: u64,
    /// How many of its records were taken.
    pub(crate) taken: u64,
}

/// Whether a record of this kind must name a dispatch.
fn needs_name(kind: RecordKind) -> bool
    ensures { result ≡ needs_name kind }
{
    gives_recall(kind)
        || Fact::Taken.is_shown_by(kind)
        || matches!(
            kind,
            RecordKind::Offered | RecordKind::Passed | RecordKind::Failed
        )
}

/// Whether a record must name a dispatch, and does not.
fn lacks_name(met: &Record) -> bool
    ensures { result ≡ lacks_name met.now }
{
    needs_name(met.kind()) && met.name().is_none()
}

/// Whether a client's record names a dispatch of another client.
fn is_of_other_client(id: SessionId, met: &Record) -> bool
    ensures { result ≡ is_of_other_client id met.now }
{
    match (id, met.name()) {
        (SessionId::Client(client), Some(name)) => name.client != client,
        _ => false,
    }
}

/// How many names were given behind a name, if it is the next one.
fn next_of(given: u64, name: Option<Name>) -> Option<u64>
    ensures some { IfSome result (λ now. now ≡ given + 1) }
    ensures none { is_none result ≡ not (of_named (λ n. n.seq == given + 1) name) }
{
    let name = name?;
    if name.seq <= given || name.seq - given != 1 {
        return None;
    }
    Some(name.seq)
}

/// How many names were given behind a record. None if it gives another one than the next.
fn given_after(id: SessionId, given: u64, met: &Record) -> Option<u64>
    ensures some { IfSome result (λ now. now ≡ given + one (gives_own id met.now)) }
    ensures none { is_none result ≡ (gives_own id met.now && not (of_named (λ n. n.seq == given + 1) met.now.name)) }
{
    match id {
        SessionId::Client(_) if Fact::Taken.is_shown_by(met.kind()) => next_of(given, met.name()),
        _ => Some(given),
    }
}

impl Trail {
    /// Before the session's first record.
    pub(crate) fn begin(alloc: Global, id: SessionId, mode: InitMode) -> Trail
        ensures begins { Begins id mode result.session }
        ensures given { result.given ≡ 0 }
        ensures taken { result.taken ≡ 0 }
    {
        Trail {
            session: Session::begin(alloc, id, mode),
            given: 0,
            taken: 0,
        }
    }

    /// Makes room for what one record more may keep.
    pub(crate) fn make_room(&mut self) -> Result<(), AllocError>
        ensures same { TrailStays self.old self.new }
        ensures room { IsOk result → HasSpare self.new.session }
    {
        self.session.make_room()
    }

    /// Takes a record of the session: which of the causes it has that the session's own records tell.
    pub(crate) fn step(&mut self, id: SessionId, met: &Record) -> Result<(), RecordFault>
        requires { HasSpare self.old.session }
        ensures ok { IsOk result → TrailGoesOn id self.old met.now self.new }
        ensures err { IfErr result (λ e. TrailRefuses e id self.old met.now) }
    {
        if lacks_name(met) {
            return Err(RecordFault::Nameless);
        }
        if is_of_other_client(id, met) {
            return Err(RecordFault::OtherClient);
        }
        let Some(given) = given_after(id, self.given, met) else {
            return Err(RecordFault::NotNext);
        };
        self.session.step(met)?;
        self.given = given;
        self.taken = self.taken.saturating_add(1);
        Ok(())
    }
}
