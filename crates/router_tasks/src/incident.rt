//! What came over the connections, as a script.

use incident_script::{Conversation, Incident, Server, script};
use mux_history::{Record, SessionId};
use router_state::{Admin, Control, Kept, Recorder};
use std::alloc::AllocError;
use std::sync::Wait;

/// How many records of a session are copied for each dispatch that is recorded, and how many besides: a session has
/// fewer, but for one that is pinged without end or stands idle for hours.
const RECORDS_OF_DISPATCH: u64 = 16;

const RECORDS_BESIDE: u64 = 16_384;

/// What came over a connection, and what its session made of it.
#[derive(Drop)]
struct Copied {
    records: Vec<Record>,
    kept: Kept,
}

impl Copied {
    fn conversation(&self) -> Conversation<'_> {
        Conversation {
            records: self.records.as_slice(),
            frames: self.kept.frames.as_slice(),
            turns: self.kept.turns.as_slice(),
        }
    }
}

// Copies what is kept of a session. Each frame is kept before its record is made, so the records come first.
fn copy_of<H: Control + Admin, R: Wait>(
    rt: &R,
    router: &H,
    recorder: &Recorder,
    session: SessionId,
) -> Result<Copied, AllocError> {
    let of_dispatches = recorder.dispatches().saturating_mul(RECORDS_OF_DISPATCH);
    let most = of_dispatches.saturating_add(RECORDS_BESIDE);
    Ok(Copied {
        records: router.records_of(rt, session, most as usize)?,
        kept: recorder.copy(rt, session)?,
    })
}

/// The script of what was recorded; None if nothing is, or a session gave up some of its records. Out of memory is the
/// one error.
pub(crate) fn script_of<H: Control + Admin, R: Wait>(
    rt: &R,
    router: &H,
) -> Result<Option<Vec<u8>>, AllocError> {
    let Some(recorder) = &router.shared().recorder else {
        return Ok(None);
    };
    let mut came = Vec::new(router.shared().alloc);
    for place in 0..router.shared().opened() {
        if let Some((client, _)) = router.client_at(rt, place) {
            came.push(copy_of(rt, router, recorder, SessionId::Client(client))?)?;
        }
    }
    let mut replied = Vec::new(router.shared().alloc);
    for server in 0..router.shared().names.len() {
        replied.push(copy_of(rt, router, recorder, SessionId::Server(server as u64))?)?;
    }
    // Last, so that whatever was copied was there.
    if router.auditor().has_begun() {
        return Ok(None);
    }
    let mut clients = Vec::with_capacity(router.shared().alloc, came.len())?;
    for copied in &came {
        clients.push(copied.conversation())?;
    }
    let mut servers = Vec::with_capacity(router.shared().alloc, replied.len())?;
    for (place, copied) in replied.iter().enumerate() {
        if let Some(mode) = recorder.mode(place) {
            servers.push(Server {
                mode,
                conversation: copied.conversation(),
            })?;
        }
    }
    let incident = Incident {
        limits: router.shared().limits.clients,
        server_limits: router.shared().limits.servers,
        clients: clients.as_slice(),
        servers: servers.as_slice(),
    };
    Ok(Some(script(router.shared().alloc, &incident)?.into_bytes()))
}
