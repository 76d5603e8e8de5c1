//! Histories of runs without a fault.

use crate::epochs::{Epochs, OPEN, dispatch, made};
use mux_agree::{DownHistory, UpHistory};
use mux_history::{DrainState, InitMode, RecordKind, Standing};
use std::alloc::{AllocError, Global};

/// How many dispatches a client has out at a time.
const WINDOW: u64 = 64;

/// What a client records of a dispatch that goes out, and of its reply.
const BEGUN: &[RecordKind] = &[RecordKind::Took, RecordKind::Noted { recalled: false }];

const ENDED: &[RecordKind] = &[RecordKind::Passed];

/// Histories of so many clients and servers. Each client has `dispatches` in all, of which dispatch n goes to server n
/// modulo the number of servers; an epoch of all ends each `cut` rounds of a client.
pub fn histories(
    alloc: Global,
    clients: u64,
    servers: u64,
    dispatches: u64,
    cut: u64,
) -> Result<(Vec<DownHistory>, Vec<UpHistory>), AllocError> {
    let mut downs = Vec::new(alloc);
    let mut ups = Vec::new(alloc);
    let mut all = Vec::new(alloc);
    for _ in 0..servers {
        all.push(Epochs::new(alloc))?;
    }
    for client in 1..=clients {
        let mut own = Epochs::new(alloc);
        for round in 0..dispatches / WINDOW {
            play(
                &mut own,
                &mut all,
                client,
                round,
                BEGUN,
                RecordKind::Offered,
            )?;
            play(
                &mut own,
                &mut all,
                client,
                round,
                ENDED,
                RecordKind::Settled(-2),
            )?;
            let taken = round.saturating_add(1).saturating_mul(WINDOW);
            if cut > 0 && round % cut == cut.saturating_sub(1) {
                seal(&mut own, &mut all, taken)?;
            }
        }
        downs.push(DownHistory {
            client,
            epochs: own.end()?,
        })?;
    }
    for server in 1..=servers {
        let Some(own) = all.pop() else {
            break;
        };
        ups.push(UpHistory {
            server,
            mode: InitMode::Plain,
            epochs: own.end()?,
        })?;
    }
    Ok((downs, ups))
}

// What the client, and the server of each, record of all dispatches of a round.
fn play(
    own: &mut Epochs,
    servers: &mut Vec<Epochs>,
    client: u64,
    round: u64,
    here: &[RecordKind],
    there: RecordKind,
) -> Result<(), AllocError> {
    let count = (servers.len() as u64).max(1);
    for at in 1..=WINDOW {
        let name = dispatch(client, round.saturating_mul(WINDOW).saturating_add(at));
        for kind in here {
            own.records.push(made(*kind, at as u32, Some(name), 0))?;
        }
        let tag = client
            .saturating_sub(1)
            .saturating_mul(WINDOW)
            .saturating_add(at);
        if let Some(server) = servers.get_mut((name.seq % count) as usize) {
            let tag = (tag.saturating_add(1) % 8_388_608) as u32;
            server.records.push(made(there, tag, Some(name), 0))?;
        }
    }
    Ok(())
}

fn seal(own: &mut Epochs, servers: &mut Vec<Epochs>, taken: u64) -> Result<(), AllocError> {
    own.seal(Standing::Down {
        fresh: false,
        drain: DrainState::Running,
        dispatches: taken,
    })?;
    for server in servers.iter_mut() {
        server.seal(OPEN)?;
    }
    Ok(())
}
