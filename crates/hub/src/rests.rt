//! The histories that an audit had not taken when its run ended.
//!
//! The loops over clients and servers are twins: their histories are two types with two definitions.
ghost use Rattle.std.specs.Prelude.{◌≡◌, [], ◌∷◌, IfErr, IsOk};
ghost use Rattle.hub.specs.Rests.{StopsAmong, TakesAll, TakesRests, down_rests, first_in, rests, rests_of, up_rests};

use mux_agree::{DownHistory, UpHistory};
use mux_history::{History, Record, SessionId};
use rolling_audit::{RunAudit, RunFault};

/// The epoch of a session that is next, 0 if there is no such session.
pub(crate) fn first_epoch(audit: &RunAudit, session: SessionId) -> u32
    ensures { result ≡ first_in audit.now session }
{
    audit.next_epoch(session).unwrap_or(0)
}

/// Takes the history of the epoch that is next.
fn take_next(audit: &mut RunAudit, session: SessionId, records: &[Record]) -> Result<(), RunFault>
    ensures ok { IsOk result
        → TakesAll audit.old (record { session = session; records = records.now } ∷ []) audit.new }
    ensures err { IfErr result (λ e.
        StopsAmong e audit.old (record { session = session; records = records.now } ∷ [])) }
{
    let epoch = first_epoch(audit, session);
    audit.take(session, epoch, records)
}

fn take_epochs(audit: &mut RunAudit, session: SessionId, epochs: &[History]) -> Result<(), RunFault>
    ensures ok { IsOk result → TakesAll audit.old (rests_of session epochs.now) audit.new }
    ensures err { IfErr result (λ e. StopsAmong e audit.old (rests_of session epochs.now)) }
{
    for epoch in epochs {
        take_next(audit, session, epoch.records())?;
    }
    Ok(())
}

fn take_downs(audit: &mut RunAudit, downs: &[DownHistory]) -> Result<(), RunFault>
    ensures ok { IsOk result → TakesAll audit.old (down_rests downs.now) audit.new }
    ensures err { IfErr result (λ e. StopsAmong e audit.old (down_rests downs.now)) }
{
    for down in downs {
        let session = SessionId::Client(down.client);
        take_epochs(audit, session, down.epochs.as_slice())?;
    }
    Ok(())
}

fn take_ups(audit: &mut RunAudit, ups: &[UpHistory]) -> Result<(), RunFault>
    ensures ok { IsOk result → TakesAll audit.old (up_rests ups.now) audit.new }
    ensures err { IfErr result (λ e. StopsAmong e audit.old (up_rests ups.now)) }
{
    for up in ups {
        let session = SessionId::Server(up.server);
        take_epochs(audit, session, up.epochs.as_slice())?;
    }
    Ok(())
}

/// Takes the histories of all clients, then those of all servers.
pub(crate) fn take_rests(
    audit: &mut RunAudit,
    downs: &[DownHistory],
    ups: &[UpHistory],
) -> Result<(), RunFault>
    ensures ok { IsOk result → TakesRests audit.old downs.now ups.now audit.new }
    ensures err { IfErr result (λ e. StopsAmong e audit.old (rests downs.now ups.now)) }
{
    take_downs(audit, downs)?;
    take_ups(audit, ups)
}
