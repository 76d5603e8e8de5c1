//! Sessions that are opened before their first records.
ghost use Rattle.std.specs.Prelude.{◌≡◌, List, false, replicate, IfErr, IfOk, IsErr, IsOk};
ghost use Rattle.mux_agree.specs.Walk.{Kept};
ghost use Rattle.rolling_audit.specs.Taken.{IsTaken};
ghost use Rattle.rolling_audit.specs.Opening.{AreFirstOpen, IsNoRoom, OpensIf, fresh_servers, is_new as is_new_in, mode_of as mode_in};

use crate::fault::{OpenFault, RollingFault};
use crate::rolling::RollingAudit;
use crate::run_fault::RunFault;
use crate::slot::server_slot;
use mux_history::{InitMode, SessionId};
use std::alloc::{AllocError, Global};

/// An audit with so many slots for clients, of which the first servers are open, with their modes by their numbers. Out of
/// memory is the only error.
pub(crate) fn open_servers(
    alloc: Global,
    boot: u64,
    slots: usize,
    modes: &[InitMode],
) -> Result<RollingAudit, AllocError>
    ensures taken { IfOk result (λ a. IsTaken (fresh_servers modes.now) a) }
    ensures lasts { IfOk result (λ a. a.lasts.items ≡ replicate slots 0) }
    ensures open { IfOk result (λ a. AreFirstOpen a modes.now) }
    ensures boot { IfOk result (λ a. a.lives.boot ≡ boot) }
{
    let mut audit = RollingAudit::new(alloc, boot, slots)?;
    for (server, mode) in modes.iter().enumerate() {
        match audit.open(SessionId::Server(server as u64), *mode) {
            Ok(()) => {}
            Err(OpenFault::Memory) => return Err(AllocError),
            Err(OpenFault::IsOpen) => unreachable!(),
            Err(OpenFault::NumberUsed) => unreachable!(),
        }
    }
    Ok(audit)
}

/// Opens a session before its first records, if it wasn't opened yet. A server's mode is that of its slot.
pub(crate) fn open_new(
    audit: &mut RollingAudit,
    modes: &[InitMode],
    session: SessionId,
) -> Result<(), RunFault>
    ensures ok { IsOk result
        → OpensIf modes.now (is_new_in audit.old session) session audit.old audit.new }
    ensures left { IsErr result → OpensIf modes.now false session audit.old audit.new }
    ensures err { IfErr result (λ e. IsNoRoom e audit.old) }
{
    if !is_new(audit, session) {
        return Ok(());
    }
    match audit.open(session, mode_of(modes, session)) {
        Ok(()) => Ok(()),
        Err(OpenFault::Memory) => Err(RunFault::Memory),
        Err(OpenFault::IsOpen) => Err(RunFault::Rolling(RollingFault::NotOpen { session })),
        Err(OpenFault::NumberUsed) => Err(RunFault::Rolling(RollingFault::NotOpen { session })),
    }
}

/// Whether a session wasn't opened yet, if it is the present one of its slot.
fn is_new(audit: &RollingAudit, session: SessionId) -> bool
    ensures { result ≡ is_new_in audit.now session }
{
    match session {
        SessionId::Client(client) => !audit.is_used(client),
        SessionId::Server(_) => !audit.is_open(session),
    }
}

fn mode_of(modes: &[InitMode], session: SessionId) -> InitMode
    ensures { result ≡ mode_in modes.now session }
{
    let SessionId::Server(server) = session else {
        return InitMode::Plain;
    };
    match server_slot(server, modes.len()) {
        Some(slot) => modes[slot],
        None => InitMode::Plain,
    }
}
